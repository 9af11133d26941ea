// A file or a link is removed.
ghost use Rattle.std.specs.Prelude.{◌≡◌, ◌≤◌, ◌+◌, ℕ, List, None, IfErr, OnOk};
ghost use Rattle.disk_trait.specs.Past.{Told};
ghost use Rattle.disk_trait.specs.Moments.{IsTold, now, IsQuiet, IsWhole};
ghost use Rattle.minix_tree.specs.View.{IsStat};
ghost use Rattle.minix_zones.specs.View.{span_view};
ghost use Rattle.minix_zones.specs.Volume.{volume_view, past_of, faults_of};
ghost use Rattle.ldisk_model.specs.Laid.{IsLaid};
ghost use Rattle.ldisk_files.specs.Answer.{
  Answers,
  HasFileCause,
  IsRemovable,
  IsSomeRemovable,
  IsUnwritten,
  IsUnwrittenAt,
};
ghost use Rattle.ldisk_model.specs.FileVerdict.{volume_check, sound_check, gone_check};
ghost use Rattle.ldisk_files.specs.Inode.{ChangesInode, ChangesInodeAt, ChangesInodeBy};
ghost use Rattle.ldisk_files.specs.Left.{ChangesName, LeavesOn, LeavesNames};

use crate::check::find_checked;
use crate::ended::{Ended, refused};
use crate::fault::{FileFault, write_fault};
use disk_trait::{Disks, Span};
use minix_names::NamePlace;
use minix_remove::remove;
use minix_zones::Volume;
use std::alloc::Global;

// Removes a name of a file or a link of a sound volume. What was written before is made durable first.
fn remove_name<'d, D: Disks>(volume: Volume<'d, D>, place: &NamePlace<'_>) -> Ended<'d, D>
    requires fits { IsStat volume.layout place.now.directory }
    requires may { IsTold (past_of volume)
        → IsSomeRemovable (volume_view volume) (now (past_of volume)) place.now.directory.inode place.now.name.now }
    ensures changes { (path : List (List ℕ)) → (IsTold (past_of volume.entry)
        → IsRemovable (volume_view volume.entry)
        (now (past_of volume.entry)) path place.now.directory.inode place.now.name.now)
        → ChangesName volume.entry result.volume path None result.result }
    ensures inode { (path : List (List ℕ)) → (IsTold (past_of volume.entry)
        → IsRemovable (volume_view volume.entry)
        (now (past_of volume.entry)) path place.now.directory.inode place.now.name.now)
        → ChangesInodeBy volume.entry result.volume path None result.result }
    ensures quiet { OnOk result.result (IsQuiet (past_of result.volume)) }
    ensures cause { IfErr result.result (HasFileCause (faults_of volume.entry) (faults_of result.volume)) }
    ensures same_reference { result.volume.disks.ghost_name ≡ volume.entry.disks.ghost_name }
{
    let mut volume = volume;
    if volume.sync().is_err() {
        return Ended {
            volume,
            result: Err(FileFault::Device),
        };
    }
    match remove(volume, place.directory.inode, place.name) {
        Ok(volume) => Ended {
            volume,
            result: Ok(()),
        },
        Err(halt) => Ended {
            volume: halt.volume,
            result: Err(write_fault(halt.fault)),
        },
    }
}

// Removes the name at a path, once the checks have passed.
fn remove_path<'d, D: Disks>(alloc: Global, volume: Volume<'d, D>, path: &[u8]) -> Ended<'d, D>
    requires laid { Told (past_of volume) (IsLaid (volume_view volume)) }
    ensures answers { Told (past_of volume.entry)
        (λ now. Answers (sound_check (gone_check path.now) (volume_view volume.entry) now) result.result) }
    ensures leaves { LeavesOn volume.entry result.volume path.now None result.result }
    ensures inode { ChangesInodeAt volume.entry result.volume path.now None result.result }
    ensures unwritten { IsUnwritten (past_of volume.entry) (past_of result.volume) (volume_view volume.entry)
        (gone_check path.now) }
    ensures same_reference { result.volume.disks.ghost_name ≡ volume.entry.disks.ghost_name }
{
    let mut volume = volume;
    match find_checked(alloc, &mut volume, path) {
        Ok(place) => remove_name(volume, &place),
        Err(fault) => Ended {
            volume,
            result: Err(fault),
        },
    }
}

/// Removes the regular file or the symbolic link at a path of the volume that lies in a span. Links are followed but
/// for one at the last component. All checks come before anything is written: the volume, a survey of it, the path, and
/// what is there. Then what was written before is made durable, and the name goes, and all of it is durable at the end.
///
/// # Errors
///
/// `Refused` and `Memory`: then nothing was done. `Device`: then the name is there or gone, and where a check refuses
/// nothing was done.
pub fn rm<D: Disks>(alloc: Global, disks: &mut D, span: Span, path: &[u8]) -> Result<(), FileFault>
    requires on_disk { span.start + span.count ≤ D.size_of disks.old span.disk }
    requires room { 4 ≤ span.count }
    requires whole { IsWhole (D.size_of disks.old) (D.past disks.old) }
    ensures answers { Told (D.past disks.old) (λ now.
        Answers (volume_check (gone_check path.now) now (span_view span)) result) }
    ensures leaves { LeavesNames D.Disks disks.old disks.new (span_view span) path.now None result }
    ensures inode { ChangesInode D.Disks disks.old disks.new (span_view span) path.now None result }
    ensures unwritten { IsUnwrittenAt (D.past disks.old) (D.past disks.new) (span_view span) (gone_check path.now) }
{
    match Volume::attach(disks, span) {
        Ok(volume) => remove_path(alloc, volume, path).result,
        Err((disks, fault)) => Err(refused(disks, fault)),
    }
}
