// The path of a backup.
ghost use Rattle.std.specs.Prelude.{◌≡◌, ◌<◌, ◌++◌, IfOk, IfSome};
ghost use Rattle.lilo_model.specs.Bytes.{hex_digit};
ghost use Rattle.lilo_model.specs.NamePlaces.{default_backup, backup_path};
ghost use Rattle.lilo_conf.specs.View.{config_view};
ghost use Rattle.mbr_table.specs.View.{device_view};
ghost use Rattle.minix_names.specs.Component.{HasNoZero};

use conf_text::Text;
use lilo_conf::Config;
use mbr_table::{Device, number_of};
use std::alloc::{AllocError, Global};

// A hexadecimal digit, in lower case.
fn hex_digit(digit: u8) -> u8
    requires { digit < 16 }
    ensures { result ≡ hex_digit digit }
{
    if digit < 10 {
        b'0' + digit
    } else {
        b'a' + (digit - 10)
    }
}

// The path of the backup of a device's boot sector where the configuration names none: its number ends the name, in
// four hexadecimal digits.
#[tactic(auto, unfolding(lilo_model::specs::NamePlaces::default_backup))]
fn default_backup(alloc: Global, device: Device) -> Result<Text, AllocError>
    ensures { IfOk result (λ path. path ≡ default_backup (device_view device)) }
{
    let number = number_of(device);
    let high = (number / 256) as u8;
    let low = (number % 256) as u8;
    let mut path = Vec::from_slice(alloc, b"/boot/boot.")?;
    path.push(hex_digit(high / 16))?;
    path.push(hex_digit(high % 16))?;
    path.push(hex_digit(low / 16))?;
    path.push(hex_digit(low % 16))?;
    Ok(Text::from_vec(path))
}

/// The path of the backup of the boot sector of a device.
#[tactic(auto, unfolding(lilo_model::specs::NamePlaces::backup_path))]
pub(crate) fn backup_path(
    alloc: Global,
    config: &Config,
    device: Device,
) -> Result<Text, AllocError>
    ensures is { IfOk result (λ path. path ≡ backup_path (config_view config.now) (device_view device)) }
    ensures called { IfSome config.now.backup HasNoZero → IfSome config.now.force_backup HasNoZero
        → IfOk result HasNoZero }
{
    match (&config.force_backup, &config.backup) {
        (Some(path), _) => Text::new(alloc, path.bytes()),
        (None, Some(path)) => Text::new(alloc, path.bytes()),
        (None, None) => default_backup(alloc, device),
    }
}
