// What is made at a path.
ghost use Rattle.std.specs.Prelude.{◌≡◌, ◌≤◌, ◌<◌, ◌^◌, ℕ, List, length, OnOk, IfOk, IfErr};
ghost use Rattle.disk_trait.specs.Past.{Told};
ghost use Rattle.lilo_model.specs.MinixNames.{IsSound};
ghost use Rattle.ldisk_model.specs.FileVerdict.{size_made};
ghost use Rattle.minix_layout.specs.View.{kind_view};
ghost use Rattle.minix_tree.specs.View.{IsStat, IsNode};
ghost use Rattle.minix_zones.specs.Volume.{volume_view, past_of, faults_of, SameVolume};
ghost use Rattle.ldisk_files.specs.Answer.{HasFileCause};
ghost use Rattle.ldisk_files.specs.Made.{GivesLength, IsFirstBlock, IsTargetBlock, IsShort, making_view, mode_made};

use crate::fault::FileFault;
use crate::place::is_shallow;
use disk_trait::Disks;
use minix_create::directory_block;
use minix_layout::FsKind;
use minix_tree::{Stat, entry_size};
use minix_zones::Volume;

/// A directory is nested below so many others at most, the root counted; the one that it is made in below one fewer.
const MOST_ABOVE: u8 = 63;

/// The most bytes of a link's target.
const MOST_TARGET: usize = 1023;

/// What is made at a path.
#[derive(Clone, Copy, Debug, PartialEq, Eq)]
pub(crate) enum Making<'a> {
    /// A directory with nothing in it but `.` and `..`.
    Directory,
    /// A symbolic link with its target.
    Link(&'a [u8]),
}

/// The mode of its inode.
pub(crate) fn mode_of(making: &Making<'_>) -> u16
    ensures { result ≡ mode_made (making_view making.now) }
{
    match making {
        Making::Directory => 0o040755,
        Making::Link(_) => 0o120777,
    }
}

/// How many bytes it has on a sound volume, where it may be made in a directory.
pub(crate) fn length_in<D: Disks>(
    volume: &mut Volume<'_, D>,
    directory: &Stat,
    making: &Making<'_>,
) -> Result<u32, FileFault>
    requires node { IsNode volume.old directory.now }
    requires fits { IsStat volume.old.layout directory.now }
    ensures length { IfOk result (λ length.
        length ≡ (size_made (kind_view volume.old.layout.kind) (making_view making.now)).bytes) }
    ensures short { OnOk result (IsShort (making_view making.now)) }
    ensures may { Told (past_of volume.old) (λ now. IsSound (volume_view volume.old) now
        → (outer : List (List ℕ)) (name : List ℕ)
        → GivesLength (volume_view volume.old) now outer directory.now.inode name (making_view making.now) result) }
    ensures cause { IfErr result (HasFileCause (faults_of volume.old) (faults_of volume.new)) }
    ensures later { faults_of volume.old ≤ faults_of volume.new }
    ensures same { SameVolume volume.old volume.new }
{
    match making {
        Making::Directory => {
            if is_shallow(volume, directory, MOST_ABOVE)? {
                Ok(2 * u32::from(entry_size(volume.layout().kind)))
            } else {
                Err(FileFault::Refused)
            }
        }
        Making::Link(target) => {
            if target.is_empty() || target.len() > MOST_TARGET {
                Err(FileFault::BadLength)
            } else {
                Ok(target.len() as u32)
            }
        }
    }
}

/// Its only block, by the inode that it gets and that of its directory.
pub(crate) fn first_block(
    kind: FsKind,
    making: &Making<'_>,
    inode: u32,
    directory: u32,
) -> [u8; 1024]
    requires inode { inode < 2 ^ 16 }
    requires directory { directory < 2 ^ 16 }
    requires short { IsShort (making_view making.now) }
    ensures { IsFirstBlock (kind_view kind) (making_view making.now) inode directory result }
{
    match making {
        Making::Directory => directory_block(kind, inode as u16, directory as u16),
        Making::Link(target) => link_block(target),
    }
}

/// The block of a link: its target, and zeros after it.
fn link_block(target: &[u8]) -> [u8; 1024]
    requires { length target.now ≤ 1023 }
    ensures { IsTargetBlock target.now result }
{
    let mut block = [0; 1024];
    block[..target.len()].copy_from_slice(target);
    block
}
