// Where something new goes.
ghost use Rattle.std.specs.Prelude.{◌≡◌, ◌≤◌, ℕ, List, nat_le, length, IfOk, IfErr};
ghost use Rattle.disk_trait.specs.Past.{Told};
ghost use Rattle.lilo_model.specs.MinixNames.{IsSound};
ghost use Rattle.minix_names.specs.Component.{HasNoZero, IsFileName};
ghost use Rattle.minix_tree.specs.View.{IsStat, IsNode};
ghost use Rattle.minix_zones.specs.Volume.{volume_view, past_of, faults_of, SameVolume};
ghost use Rattle.ldisk_files.specs.Answer.{HasFileCause};
ghost use Rattle.ldisk_files.specs.Made.{GivesNew, GivesShallow};

use crate::fault::{FileFault, tree_fault};
use disk_trait::Disks;
use minix_names::{NamePlace, look_up, place_of_name};
use minix_tree::Stat;
use minix_zones::Volume;

/// The name that a path ends with, at which nothing is yet, on a sound volume.
pub(crate) fn find_new<'p, D: Disks>(
    volume: &mut Volume<'_, D>,
    path: &'p [u8],
) -> Result<NamePlace<'p>, FileFault>
    requires path { HasNoZero path.now }
    ensures found { Told (past_of volume.old) (λ now. IsSound (volume_view volume.old) now
        → GivesNew (volume_view volume.old) now path.now result) }
    ensures name { IfOk result (λ place. IsFileName place.name.now) }
    ensures node { IfOk result (λ place. IsNode volume.old place.directory) }
    ensures fits { IfOk result (λ place. IsStat volume.old.layout place.directory) }
    ensures cause { IfErr result (HasFileCause (faults_of volume.old) (faults_of volume.new)) }
    ensures later { faults_of volume.old ≤ faults_of volume.new }
    ensures same { SameVolume volume.old volume.new }
{
    let place = match place_of_name(volume, path) {
        Ok(place) => place,
        Err(fault) => return Err(tree_fault(fault)),
    };
    match look_up(volume, &place.directory, place.name) {
        Ok(found) if found.is_none() => Ok(place),
        Ok(_) => Err(FileFault::Refused),
        Err(fault) => Err(tree_fault(fault)),
    }
}

/// Whether a directory is nested below so many others at most, on a sound volume: `..` is followed up to the root.
pub(crate) fn is_shallow<D: Disks>(
    volume: &mut Volume<'_, D>,
    directory: &Stat,
    most: u8,
) -> Result<bool, FileFault>
    requires node { IsNode volume.old directory.now }
    requires fits { IsStat volume.old.layout directory.now }
    ensures shallow { Told (past_of volume.old) (λ now. IsSound (volume_view volume.old) now → (path : List (List ℕ))
        → GivesShallow (volume_view volume.old) now path directory.now.inode most result) }
    ensures cause { IfErr result (HasFileCause (faults_of volume.old) (faults_of volume.new)) }
    ensures later { faults_of volume.old ≤ faults_of volume.new }
    ensures same { SameVolume volume.old volume.new }
{
    if directory.inode == 1 {
        return Ok(true);
    }
    if most == 0 {
        return Ok(false);
    }
    match look_up(volume, directory, b"..") {
        Ok(Some(above)) => is_shallow(volume, &above, most - 1),
        Ok(None) => Err(FileFault::Refused),
        Err(fault) => Err(tree_fault(fault)),
    }
}
