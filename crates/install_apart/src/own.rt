// The names that an installation replaces.
ghost use Rattle.std.specs.Prelude.{◌≡◌, ◌≤◌, Bool, is_some, IfOk, IfErr, IfSome};
ghost use Rattle.disk_trait.specs.Past.{Told};
ghost use Rattle.lilo_model.specs.MinixParts.{parts_of};
ghost use Rattle.lilo_model.specs.MinixNames.{names_in, IsSound};
ghost use Rattle.lilo_model.specs.Settled.{replaceable_name, own_names, backup_name};
ghost use Rattle.lilo_conf.specs.View.{config_view};
ghost use Rattle.mbr_table.specs.View.{device_view};
ghost use Rattle.minix_layout.specs.View.{super_view};
ghost use Rattle.minix_zones.specs.Volume.{volume_view, past_of, faults_of, SameVolume};
ghost use Rattle.minix_tree.specs.View.{HasFileCause};
ghost use Rattle.minix_names.specs.Component.{HasNoZero, IsFileName};
ghost use Rattle.install_apart.specs.Faults.{HasNameCause};
ghost use Rattle.install_apart.specs.Names.{GivesPair, ArePairsInside, AreTwins};
ghost use Rattle.install_apart.specs.Own.{
  AreOwnTwins,
  IsBackupNamed,
  IsBackupTwins,
  GivesNames,
  GivesReplaceable,
  GivesBackup,
  IsReplaceable,
  IsBackupReplaceable,
  AreReplaceable,
  IsBackupInside,
  AreInside,
};

use crate::backup::backup_path;
use crate::fault::{NameFault, refused_path};
use crate::name::{NamePair, find_pair, is_pair_replaceable};
use disk_trait::Disks;
use lilo_conf::Config;
use mbr_table::Device;
use minix_tree::TreeFault;
use minix_zones::Volume;
use std::alloc::Global;

/// The names that an installation replaces, and what is there.
#[derive(Drop)]
pub struct OwnNames {
    /// The map's: the new map is made under the name with `~`.
    pub map: NamePair,
    /// The backup's, where one is to be made. Where it isn't forced, the name with `~` isn't used.
    pub backup: Option<NamePair>,
}

// The name that a path ends with and that with `~`, where what is at the first may be replaced, and at the second where
// both are asked for.
fn replaceable_pair<D: Disks>(
    alloc: Global,
    volume: &mut Volume<'_, D>,
    path: &[u8],
    both: bool,
) -> Result<NamePair, TreeFault>
    ensures pair { Told (past_of volume.old) (λ now. IsSound (volume_view volume.old) now
        → GivesPair (super_view volume.old.layout) (parts_of (volume_view volume.old) now) result
        (replaceable_name (names_in (volume_view volume.old) now) both path.now)) }
    ensures files { IfOk result (IsReplaceable both) }
    ensures inside { IfOk result (ArePairsInside volume.old.layout) }
    ensures twins { IfOk result AreTwins }
    ensures called { HasNoZero path.now → IfOk result (λ pair. IsFileName pair.plain.name) }
    ensures cause { IfErr result (HasFileCause (faults_of volume.old) (faults_of volume.new)) }
    ensures later { faults_of volume.old ≤ faults_of volume.new }
    ensures same { SameVolume volume.old volume.new }
{
    let pair = find_pair(alloc, volume, path)?;
    if !is_pair_replaceable(&pair, both) {
        return Err(TreeFault::NotFile);
    }
    Ok(pair)
}

// The same, refused by its path.
fn named_pair<D: Disks>(
    alloc: Global,
    volume: &mut Volume<'_, D>,
    path: &[u8],
    both: bool,
) -> Result<NamePair, NameFault>
    ensures pair { Told (past_of volume.old) (λ now. IsSound (volume_view volume.old) now
        → GivesReplaceable (super_view volume.old.layout) (parts_of (volume_view volume.old) now) path.now result
        (replaceable_name (names_in (volume_view volume.old) now) both path.now)) }
    ensures files { IfOk result (IsReplaceable both) }
    ensures inside { IfOk result (ArePairsInside volume.old.layout) }
    ensures twins { IfOk result AreTwins }
    ensures called { HasNoZero path.now → IfOk result (λ pair. IsFileName pair.plain.name) }
    ensures cause { IfErr result (HasNameCause (faults_of volume.old) (faults_of volume.new)) }
    ensures later { faults_of volume.old ≤ faults_of volume.new }
    ensures same { SameVolume volume.old volume.new }
{
    match replaceable_pair(alloc, volume, path, both) {
        Ok(pair) => Ok(pair),
        Err(fault) => Err(refused_path(alloc, path, fault)),
    }
}

// The backup's names, where one is to be made.
fn backup_names<D: Disks>(
    alloc: Global,
    volume: &mut Volume<'_, D>,
    config: &Config,
    boot: Device,
    foreign: bool,
) -> Result<Option<NamePair>, NameFault>
    ensures backup { Told (past_of volume.old) (λ now. IsSound (volume_view volume.old) now
        → GivesBackup (super_view volume.old.layout) (parts_of (volume_view volume.old) now) result
        (backup_name (names_in (volume_view volume.old) now) (config_view config.now) (device_view boot) foreign)) }
    ensures files { IfOk result (IsBackupReplaceable (is_some config.now.force_backup)) }
    ensures inside { IfOk result (IsBackupInside volume.old.layout) }
    ensures twins { IfOk result IsBackupTwins }
    ensures called { IfSome config.now.backup HasNoZero → IfSome config.now.force_backup HasNoZero
        → IfOk result IsBackupNamed }
    ensures cause { IfErr result (HasNameCause (faults_of volume.old) (faults_of volume.new)) }
    ensures later { faults_of volume.old ≤ faults_of volume.new }
    ensures same { SameVolume volume.old volume.new }
{
    if !foreign {
        return Ok(None);
    }
    let Ok(path) = backup_path(alloc, config, boot) else {
        return Err(NameFault::Memory);
    };
    match named_pair(alloc, volume, path.bytes(), config.force_backup.is_some()) {
        Ok(pair) => Ok(Some(pair)),
        Err(fault) => Err(fault),
    }
}

/// The names that an installation replaces, and what is there; the backup's where the boot sector is of another system,
/// and for the boot device that the configuration or the volume has. The path of each is walked once, and each name is
/// looked up once in its directory.
///
/// # Errors
///
/// `Path` for the first name that can't be replaced: the map's, that with `~`, the backup's, and that with `~` where it
/// is forced. `Device` and `Memory`.
pub fn own_names<D: Disks>(
    alloc: Global,
    volume: &mut Volume<'_, D>,
    config: &Config,
    boot: Device,
    foreign: bool,
) -> Result<OwnNames, NameFault>
    // What is answered.
    ensures names { Told (past_of volume.old) (λ now. IsSound (volume_view volume.old) now
        → GivesNames (super_view volume.old.layout) (parts_of (volume_view volume.old) now) result
        (own_names (names_in (volume_view volume.old) now) (config_view config.now) (device_view boot) foreign)) }
    ensures files { IfOk result (AreReplaceable (is_some config.now.force_backup)) }
    ensures inside { IfOk result (AreInside volume.old.layout) }
    ensures twins { IfOk result AreOwnTwins }
    ensures called { HasNoZero config.now.map → IfOk result (λ own. IsFileName own.map.plain.name) }
    ensures backup_called { IfSome config.now.backup HasNoZero → IfSome config.now.force_backup HasNoZero
        → IfOk result (λ own. IsBackupNamed own.backup) }

    // When it is refused.
    ensures cause { IfErr result (HasNameCause (faults_of volume.old) (faults_of volume.new)) }
    ensures later { faults_of volume.old ≤ faults_of volume.new }
    ensures same { SameVolume volume.old volume.new }
{
    let map = named_pair(alloc, volume, config.map.bytes(), true)?;
    let backup = backup_names(alloc, volume, config, boot, foreign)?;
    Ok(OwnNames { map, backup })
}
