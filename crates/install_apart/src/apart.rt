// Whether a configuration is apart from what an installation writes.
ghost use Rattle.std.specs.Prelude.{◌≡◌, ◌≤◌, IfErr};
ghost use Rattle.disk_trait.specs.Past.{Told};
ghost use Rattle.lilo_model.specs.Apart.{apart_checks};
ghost use Rattle.lilo_model.specs.MinixNames.{IsSound};
ghost use Rattle.lilo_model.specs.NamePlaces.{backup_option};
ghost use Rattle.conf_settings.specs.View.{opt_view};
ghost use Rattle.lilo_conf.specs.View.{config_view};
ghost use Rattle.mbr_table.specs.View.{device_view};
ghost use Rattle.minix_zones.specs.Volume.{volume_view, past_of, faults_of, SameVolume};
ghost use Rattle.install_apart.specs.Apart.{GivesApart, HasApartCause, machine_by};

use crate::apart_device::check_devices;
use crate::apart_name::{are_apart_found, find_both, guarded_of};
use crate::apart_path::check_files;
use crate::fault::{ApartFault, judged};
use conf_settings::Opt;
use disk_trait::Disks;
use lilo_conf::Config;
use mbr_table::Device;
use minix_zones::Volume;
use std::alloc::Global;

// The option that names the backup; a path by default counts as `backup=`.
fn backup_option(config: &Config) -> Opt
    ensures { opt_view result ≡ backup_option (config_view config.now) }
{
    if config.force_backup.is_some() {
        Opt::ForceBackup
    } else {
        Opt::Backup
    }
}

/// Whether what a configuration names may be installed and mapped without one thing being another, for the device that
/// is to boot: no device lies in the volume past its block 0, no file that is read or mapped is the map or a forced
/// backup, at its name or that with `~`, and the backup is not the map. Each path is walked once.
///
/// # Errors
///
/// `NotApart` with the first option that isn't apart, in the order boot, other, table, the backup's, install, message,
/// image, initrd; `Device` and `Memory`.
pub fn check_apart<D: Disks>(
    alloc: Global,
    volume: &mut Volume<'_, D>,
    config: &Config,
    boot: Device,
) -> Result<(), ApartFault>
    // What is answered.
    ensures apart { Told (past_of volume.old) (λ now. IsSound (volume_view volume.old) now → GivesApart result
        (apart_checks now (machine_by volume.old) (volume_view volume.old) (config_view config.now)
        (device_view boot))) }

    // When it is refused.
    ensures cause { IfErr result (HasApartCause (faults_of volume.old) (faults_of volume.new)) }
    ensures later { faults_of volume.old ≤ faults_of volume.new }
    ensures same { SameVolume volume.old volume.new }
{
    check_devices(volume, config, boot)?;
    let both = find_both(alloc, volume, config, boot)?;
    judged(are_apart_found(&both), backup_option(config))?;
    let guarded = guarded_of(both, config.force_backup.is_some());
    check_files(volume, &guarded, config)
}
