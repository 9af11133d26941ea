// Where the name is that a path ends with.
ghost use Rattle.std.specs.Prelude.{◌≡◌, ◌≤◌, IfOk, IfErr};
ghost use Rattle.disk_trait.specs.Past.{Told};
ghost use Rattle.lilo_model.specs.MinixParts.{parts_of};
ghost use Rattle.lilo_model.specs.MinixNames.{names_in, IsSound};
ghost use Rattle.lilo_model.specs.NamePlaces.{name_path};
ghost use Rattle.minix_layout.specs.View.{super_view};
ghost use Rattle.minix_zones.specs.Volume.{volume_view, past_of, faults_of, SameVolume};
ghost use Rattle.minix_tree.specs.View.{HasTreeCause, IsStat, IsNode};
ghost use Rattle.minix_tree.specs.Component.{HasNoZero, IsFileName};
ghost use Rattle.minix_names.specs.Places.{GivesPlace};

use crate::component::{count_components, split_at_last};
use disk_trait::Disks;
use minix_tree::{Stat, TreeFault, is_directory, lookup};
use minix_zones::Volume;

/// A name in a directory, whether or not anything is there.
#[derive(Clone, Copy, Debug, PartialEq, Eq)]
pub struct NamePlace<'p> {
    pub directory: Stat,
    /// The last component of a path.
    pub name: &'p [u8],
}

/// Where the name is that a path ends with. Links are followed but for one at the last component. The path before that
/// is walked once.
///
/// # Errors
///
/// Those of `minix_tree::lookup` for the path before its last component; `NotDirectory`, with how many components
/// that has, where it leads to no directory; `NotFile` for a path without a component.
pub fn place_of_name<'p, D: Disks>(
    volume: &mut Volume<'_, D>,
    path: &'p [u8],
) -> Result<NamePlace<'p>, TreeFault>
    // What is answered.
    ensures place { Told (past_of volume.old) (λ now. IsSound (volume_view volume.old) now
        → GivesPlace (super_view volume.old.layout) (parts_of (volume_view volume.old) now) result
        (name_path (names_in (volume_view volume.old) now) path.now)) }
    ensures node { IfOk result (λ place. IsNode volume.old place.directory) }
    ensures fits { IfOk result (λ place. IsStat volume.old.layout place.directory) }
    ensures name { HasNoZero path.now → IfOk result (λ place. IsFileName place.name.now) }

    // When it is refused.
    ensures cause { IfErr result (HasTreeCause (faults_of volume.old) (faults_of volume.new)) }
    ensures later { faults_of volume.old ≤ faults_of volume.new }
    ensures same { SameVolume volume.old volume.new }
{
    let Some(split) = split_at_last(path) else {
        return Err(TreeFault::NotFile);
    };
    let directory = lookup(volume, split.before)?;
    if !is_directory(&directory.node) {
        return Err(TreeFault::NotDirectory(count_components(split.before)));
    }
    Ok(NamePlace {
        directory,
        name: split.name,
    })
}
