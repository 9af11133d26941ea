// What settings say of disks.
ghost use Rattle.std.specs.Prelude.{◌≡◌, IfOk, if◌then◌else◌, None};
ghost use Rattle.std.specs.Option.{option_map, option_and_then};
ghost use Rattle.lilo_model.specs.Conf as model;
ghost use Rattle.lilo_model.specs.ConfJudge.{given_text};
ghost use Rattle.lilo_model.specs.ConfOptions as options;
ghost use Rattle.lilo_model.specs.ConfOptions.{same_option};
ghost use Rattle.lilo_model.specs.Devices.{device_at};
ghost use Rattle.conf_settings.specs.View.{opt_view, setting_view, settings_view};
ghost use Rattle.mbr_table.specs.View.{device_view};
ghost use Rattle.lilo_conf.specs.View.{disk_view, disks_view};

use crate::disk::{DiskList, DiskSection};
use crate::value::{known_device, number_of};
use conf_judge::{disk_details, given_text};
use conf_settings::{Opt, Setting};
use mbr_table::Device;
use std::alloc::{AllocError, Global};

/// What settings say of disks.
pub(crate) fn disks_of(alloc: Global, settings: &[Setting]) -> Result<DiskList, AllocError>
    ensures { IfOk result (λ disks. disks_view disks ≡ model.disks_of (settings_view settings.now)) }
{
    let mut disks = Vec::new(alloc);
    for (index, setting) in settings.iter().enumerate() {
        if let Some(disk) = disk_at(setting, &settings[index + 1..]) {
            disks.push(disk)?;
        }
    }
    Ok(DiskList::new(disks))
}

// What is said of a disk by a setting and those after it.
fn disk_at(setting: &Setting, behind: &[Setting]) -> Option<DiskSection>
    ensures { option_map disk_view result
        ≡ (if same_option (setting_view setting.now).option options.Disk
        then model.disk_of (setting_view setting.now) (settings_view behind.now) else None) }
{
    if setting.option.is(Opt::Disk) {
        disk_of(setting, behind)
    } else {
        None
    }
}

// What is said of a disk by a `disk` and the settings after it.
#[tactic(auto, unfolding(lilo_model::specs::Conf::disk_of))]
fn disk_of(setting: &Setting, behind: &[Setting]) -> Option<DiskSection>
    ensures { option_map disk_view result ≡ model.disk_of (setting_view setting.now) (settings_view behind.now) }
{
    let device = named_device(setting)?;
    let details = disk_details(behind);
    Some(DiskSection {
        device,
        bios: byte_of(Opt::Bios, details),
        sectors: byte_of(Opt::Sectors, details),
        heads: number_of(255, Opt::Heads, details),
        line: setting.line,
    })
}

// The device that a setting names.
fn named_device(setting: &Setting) -> Option<Device>
    ensures { option_map device_view result ≡ option_and_then device_at (given_text (setting_view setting.now).given) }
{
    match given_text(&setting.given) {
        Some(name) => known_device(name),
        None => None,
    }
}

// The number of an option among settings, which is at most 255.
fn byte_of(option: Opt, settings: &[Setting]) -> Option<u8>
    ensures { result ≡ model.number_of 255 (opt_view option) (settings_view settings.now) }
{
    match number_of(255, option, settings) {
        Some(number) => Some(number as u8),
        None => None,
    }
}
