// Names that what is read or mapped must be apart from.
ghost use Rattle.std.specs.Prelude.{◌≡◌, ◌≤◌, IfErr};
ghost use Rattle.disk_trait.specs.Past.{Told};
ghost use Rattle.lilo_model.specs.Apart.{names_pair};
ghost use Rattle.lilo_model.specs.MinixParts.{parts_of};
ghost use Rattle.lilo_model.specs.MinixNames.{names_in, IsSound};
ghost use Rattle.lilo_model.specs.NamePlaces.{backup_path};
ghost use Rattle.lilo_conf.specs.View.{config_view};
ghost use Rattle.mbr_table.specs.View.{device_view};
ghost use Rattle.minix_layout.specs.View.{super_view};
ghost use Rattle.minix_zones.specs.Volume.{volume_view, past_of, faults_of, SameVolume};
ghost use Rattle.minix_names.specs.View.{end_view, HasName};
ghost use Rattle.install_apart.specs.Apart.{HasApartCause};
ghost use Rattle.install_apart.specs.Guarded.{
  GivesFound,
  GivesBoth,
  are_apart_owns,
  are_apart_pairs,
  are_apart_found,
  is_end_at_own,
  ends_at_found,
  ends_at_guarded,
  guarded_of,
};

use crate::backup::backup_path;
use crate::fault::{ApartFault, unless_stopped};
use crate::name::{NamePair, OwnName, find_pair};
use disk_trait::Disks;
use lilo_conf::Config;
use mbr_table::Device;
use minix_names::PathEnd;
use minix_zones::Volume;
use std::alloc::Global;

/// The names of the map and of its backup, those with `~` with them; none where the directory is refused.
#[derive(Drop)]
pub(crate) struct BothNames {
    pub(crate) map: Option<NamePair>,
    pub(crate) backup: Option<NamePair>,
}

/// The names whose files must not be mapped: the map's, and those of a backup that is forced.
#[derive(Drop)]
pub(crate) struct Guarded {
    pub(crate) map: Option<NamePair>,
    pub(crate) forced: Option<NamePair>,
}

// The name that a path ends with and that with `~`, none where its directory is refused.
fn find_names<D: Disks>(
    alloc: Global,
    volume: &mut Volume<'_, D>,
    path: &[u8],
) -> Result<Option<NamePair>, ApartFault>
    ensures found { Told (past_of volume.old) (λ now. IsSound (volume_view volume.old) now
        → GivesFound (super_view volume.old.layout) (parts_of (volume_view volume.old) now)
        (names_pair (names_in (volume_view volume.old) now) path.now) result) }
    ensures cause { IfErr result (HasApartCause (faults_of volume.old) (faults_of volume.new)) }
    ensures later { faults_of volume.old ≤ faults_of volume.new }
    ensures same { SameVolume volume.old volume.new }
{
    match find_pair(alloc, volume, path) {
        Ok(pair) => Ok(Some(pair)),
        Err(fault) => match unless_stopped(fault) {
            Ok(()) => Ok(None),
            Err(fault) => Err(fault),
        },
    }
}

/// The names of the map and of the backup.
pub(crate) fn find_both<D: Disks>(
    alloc: Global,
    volume: &mut Volume<'_, D>,
    config: &Config,
    boot: Device,
) -> Result<BothNames, ApartFault>
    ensures both { Told (past_of volume.old) (λ now. IsSound (volume_view volume.old) now
        → GivesBoth (super_view volume.old.layout) (parts_of (volume_view volume.old) now)
        (names_pair (names_in (volume_view volume.old) now) (config_view config.now).map)
        (names_pair (names_in (volume_view volume.old) now)
        (backup_path (config_view config.now) (device_view boot))) result) }
    ensures cause { IfErr result (HasApartCause (faults_of volume.old) (faults_of volume.new)) }
    ensures later { faults_of volume.old ≤ faults_of volume.new }
    ensures same { SameVolume volume.old volume.new }
{
    let map = find_names(alloc, volume, config.map.bytes())?;
    let Ok(path) = backup_path(alloc, config, boot) else {
        return Err(ApartFault::Memory);
    };
    let backup = find_names(alloc, volume, path.bytes())?;
    Ok(BothNames { map, backup })
}

// Whether two names aren't the same.
fn are_apart_owns(own: &OwnName, other: &OwnName) -> bool
    ensures { result ≡ are_apart_owns own.now other.now }
{
    own.directory != other.directory || own.name.bytes() != other.name.bytes()
}

// Whether no name of a pair is one of another's.
fn are_apart_pairs(pair: &NamePair, other: &NamePair) -> bool
    ensures { result ≡ are_apart_pairs pair.now other.now }
{
    are_apart_owns(&pair.plain, &other.plain)
        && are_apart_owns(&pair.plain, &other.tilde)
        && are_apart_owns(&pair.tilde, &other.plain)
        && are_apart_owns(&pair.tilde, &other.tilde)
}

/// The same of names that may have been found.
pub(crate) fn are_apart_found(both: &BothNames) -> bool
    ensures { result ≡ are_apart_found both.now.map both.now.backup }
{
    match (&both.map, &both.backup) {
        (Some(map), Some(backup)) => are_apart_pairs(map, backup),
        _ => true,
    }
}

/// The names whose files must not be mapped, by whether the backup is forced.
pub(crate) fn guarded_of(both: BothNames, forced: bool) -> Guarded
    ensures { result ≡ guarded_of forced both }
{
    let BothNames { map, backup } = both;
    let forced = if forced { backup } else { None };
    Guarded { map, forced }
}

// Whether a walk ends at a name; one that misses it has the component at the start of these bytes.
fn is_end_at(own: &OwnName, end: &PathEnd, missed: &[u8; 1024]) -> bool
    requires { HasName end.now }
    ensures { result ≡ is_end_at_own own.now (end_view missed.now end.now) }
{
    match (&own.there, end) {
        (Some(stat), PathEnd::At(inode)) => stat.inode == *inode,
        (None, PathEnd::Misses(directory, length)) => {
            *directory == own.directory && &missed[..*length] == own.name.bytes()
        }
        _ => false,
    }
}

// Whether it ends at one of names that may have been found.
fn ends_at_found(found: &Option<NamePair>, end: &PathEnd, missed: &[u8; 1024]) -> bool
    requires { HasName end.now }
    ensures { result ≡ ends_at_found found.now (end_view missed.now end.now) }
{
    match found {
        Some(pair) => is_end_at(&pair.plain, end, missed) || is_end_at(&pair.tilde, end, missed),
        None => false,
    }
}

/// Whether it ends at one of the names whose files must not be mapped.
pub(crate) fn ends_at_guarded(guarded: &Guarded, end: &PathEnd, missed: &[u8; 1024]) -> bool
    requires { HasName end.now }
    ensures { result ≡ ends_at_guarded guarded.now (end_view missed.now end.now) }
{
    ends_at_found(&guarded.map, end, missed) || ends_at_found(&guarded.forced, end, missed)
}
