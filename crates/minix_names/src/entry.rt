// A name in a directory.
ghost use Rattle.std.specs.Prelude.{◌≤◌, ◌∷◌, ℕ, List, IfOk, IfErr, IfSome};
ghost use Rattle.std.specs.Option.{option_map};
ghost use Rattle.disk_trait.specs.Past.{Told};
ghost use Rattle.lilo_model.specs.MinixParts.{parts_of};
ghost use Rattle.lilo_model.specs.MinixFind.{child};
ghost use Rattle.lilo_model.specs.MinixNames.{IsSound};
ghost use Rattle.minix_layout.specs.View.{super_view};
ghost use Rattle.minix_zones.specs.Volume.{volume_view, past_of, faults_of, SameVolume};
ghost use Rattle.minix_tree.specs.View.{Gives, HasTreeCause, IsStat, IsNode};
ghost use Rattle.minix_names.specs.Ends.{found_or_last};
ghost use Rattle.minix_names.specs.Places.{LeadsToDirectory, GivesThere};

use disk_trait::Disks;
use minix_tree::{Stat, TreeFault, child};
use minix_zones::Volume;

/// The inode of a component in a directory, or nothing where it is the last one and the directory has no entry of its name.
pub(crate) fn child_or_last<D: Disks>(
    volume: &mut Volume<'_, D>,
    directory: &Stat,
    position: u16,
    name: &[u8],
    last: bool,
) -> Result<Option<Stat>, TreeFault>
    requires fits { IsStat volume.old.layout directory.now }
    requires node { IsNode volume.old directory.now }
    ensures found { Told (past_of volume.old) (λ now. Gives (option_map (λ stat. stat.inode)) result
        (found_or_last last (child (super_view volume.old.layout) (parts_of (volume_view volume.old) now)
        directory.now.inode position name.now))) }
    ensures node { IfOk result (λ found. IfSome found (IsNode volume.old)) }
    ensures fits { IfOk result (λ found. IfSome found (IsStat volume.old.layout)) }
    ensures cause { IfErr result (HasTreeCause (faults_of volume.old) (faults_of volume.new)) }
    ensures later { faults_of volume.old ≤ faults_of volume.new }
    ensures same { SameVolume volume.old volume.new }
{
    match child(volume, directory, position, name) {
        Ok(stat) => Ok(Some(stat)),
        Err(TreeFault::NotFound(at)) => {
            if last {
                Ok(None)
            } else {
                Err(TreeFault::NotFound(at))
            }
        }
        Err(fault) => Err(fault),
    }
}

/// What a directory has under a name, if anything; `.` and `..` are there. Each of its blocks is read once at most.
///
/// # Errors
///
/// On a sound volume only that the disk failed; else `NotDirectory(0)`, `BadEntry` and `Zone` as `minix_tree::lookup`.
pub fn look_up<D: Disks>(
    volume: &mut Volume<'_, D>,
    directory: &Stat,
    name: &[u8],
) -> Result<Option<Stat>, TreeFault>
    requires fits { IsStat volume.old.layout directory.now }
    requires node { IsNode volume.old directory.now }

    // What is answered.
    ensures there { Told (past_of volume.old) (λ now. IsSound (volume_view volume.old) now → (above : List (List ℕ))
        → LeadsToDirectory (super_view volume.old.layout) (parts_of (volume_view volume.old) now) above
        directory.now.inode
        → GivesThere (super_view volume.old.layout) (parts_of (volume_view volume.old) now) (name.now ∷ above) result) }
    ensures node { IfOk result (λ found. IfSome found (IsNode volume.old)) }
    ensures fits { IfOk result (λ found. IfSome found (IsStat volume.old.layout)) }

    // When it is refused.
    ensures cause { IfErr result (HasTreeCause (faults_of volume.old) (faults_of volume.new)) }
    ensures later { faults_of volume.old ≤ faults_of volume.new }
    ensures same { SameVolume volume.old volume.new }
{
    child_or_last(volume, directory, 0, name, true)
}
