// What a configuration says as a whole.
ghost use Rattle.std.specs.Prelude.{◌≡◌, unwrap_or, codes, IfOk};
ghost use Rattle.lilo_model.specs.Conf as model;
ghost use Rattle.lilo_model.specs.ConfOptions as options;
ghost use Rattle.conf_settings.specs.View.{settings_view};
ghost use Rattle.conf_judge.specs.View.{parts_view};
ghost use Rattle.sector_address.specs.View.{mode_view};
ghost use Rattle.lilo_conf.specs.View.{config_view};

use crate::config::Config;
use crate::tell_disk::disks_of;
use crate::tell_section::sections_of;
use crate::value::{device_from, number_of, own_text};
use conf_judge::{Parts, has_option, value_of};
use conf_settings::{Opt, Setting};
use conf_text::Text;
use sector_address::Mode;
use std::alloc::{AllocError, Global};

/// What the parts say.
pub(crate) fn config_of(alloc: Global, parts: &Parts<'_>) -> Result<Config, AllocError>
    ensures { IfOk result (λ config. config_view config ≡ model.config_of (parts_view parts.now)) }
{
    let front = parts.front;
    let map = Text::new(alloc, map_path(front))?;
    let install = own_text(alloc, Opt::Install, front)?;
    let backup = own_text(alloc, Opt::Backup, front)?;
    let force_backup = own_text(alloc, Opt::ForceBackup, front)?;
    let default_name = own_text(alloc, Opt::Default, front)?;
    let message = own_text(alloc, Opt::Message, front)?;
    let disks = disks_of(alloc, front)?;
    let sections = sections_of(alloc, front, parts.sections.as_slice())?;
    Ok(Config {
        boot: device_from(Opt::Boot, front),
        map,
        install,
        backup,
        force_backup,
        compact: has_option(Opt::Compact, front),
        mode: mode_of(front),
        default_name,
        delay: delay_of(front),
        timeout: number_of(65535, Opt::Timeout, front),
        prompt: has_option(Opt::Prompt, front),
        message,
        disks,
        sections,
    })
}

// The path of the map.
fn map_path(front: &[Setting]) -> &[u8]
    ensures { result.now ≡ unwrap_or (model.value_of options.Map (settings_view front.now)) (codes "/boot/map") }
{
    match value_of(Opt::Map, front) {
        Some(path) => path,
        None => b"/boot/map",
    }
}

// The delay.
fn delay_of(front: &[Setting]) -> u16
    ensures { result ≡ unwrap_or (model.number_of 65535 options.Delay (settings_view front.now)) 0 }
{
    number_of(65535, Opt::Delay, front).unwrap_or(0)
}

// How slots are to say where sectors lie.
#[tactic(auto, unfolding(lilo_model::specs::Conf::mode_of))]
fn mode_of(front: &[Setting]) -> Mode
    ensures { mode_view result ≡ model.mode_of (settings_view front.now) }
{
    if has_option(Opt::Lba32, front) {
        Mode::Lba32
    } else if has_option(Opt::Linear, front) {
        Mode::Linear
    } else {
        Mode::Chs
    }
}
