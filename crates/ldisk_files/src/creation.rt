// A directory or a link is made.
ghost use Rattle.std.specs.Prelude.{◌≡◌, ◌≤◌, ◌+◌, ◌∷◌, [], ℕ, List, Some, IfErr, OnOk};
ghost use Rattle.disk_trait.specs.Past.{Told};
ghost use Rattle.disk_trait.specs.Moments.{IsTold, IsQuiet, IsWhole};
ghost use Rattle.lilo_model.specs.MinixNames.{Directory, Link};
ghost use Rattle.ldisk_model.specs.FileVerdict as model;
ghost use Rattle.ldisk_model.specs.FileVerdict.{
  NewDirectory,
  NewLink,
  volume_check,
  sound_check,
  made_check,
  thing_made,
};
ghost use Rattle.minix_names.specs.Component.{HasNoZero};
ghost use Rattle.minix_zones.specs.View.{span_view};
ghost use Rattle.minix_zones.specs.Volume.{volume_view, past_of, faults_of};
ghost use Rattle.ldisk_model.specs.Laid.{IsLaid};
ghost use Rattle.ldisk_files.specs.Answer.{Answers, IsUnwritten, IsUnwrittenAt, HasFileCause};
ghost use Rattle.ldisk_files.specs.Inode.{ChangesInode, ChangesInodeAt, ChangesInodeBy};
ghost use Rattle.ldisk_files.specs.Left.{ChangesName, LeavesOn, LeavesNames};
ghost use Rattle.ldisk_files.specs.Made.{IsReady, MayMake, MayMakeSome, making_view};

use crate::ended::{Ended, refused};
use crate::fault::{FileFault, write_fault};
use crate::making::Making;
use crate::room::{Ready, choose_at};
use disk_trait::{Disks, Span};
use minix_create::create;
use minix_zones::Volume;
use std::alloc::Global;

// Makes what was chosen on a sound volume. What was written before is made durable first.
fn make_ready<'d, D: Disks>(volume: Volume<'d, D>, ready: Ready) -> Ended<'d, D>
    requires suits { IsReady volume.layout volume.span ready }
    requires may { IsTold (past_of volume) → MayMakeSome volume ready.chosen (ready.block ∷ []) }
    ensures changes { (made : model.Making) (outer : List (List ℕ))
        → (IsTold (past_of volume.entry) → MayMake volume.entry outer made ready.chosen (ready.block ∷ []))
        → ChangesName volume.entry result.volume (ready.chosen.name ∷ outer) (Some (thing_made made)) result.result }
    ensures inode { (made : model.Making) (outer : List (List ℕ))
        → (IsTold (past_of volume.entry) → MayMake volume.entry outer made ready.chosen (ready.block ∷ []))
        → ChangesInodeBy volume.entry result.volume (ready.chosen.name ∷ outer) (Some (made, ready.chosen.time))
        result.result }
    ensures quiet { OnOk result.result (IsQuiet (past_of result.volume)) }
    ensures cause { IfErr result.result (HasFileCause (faults_of volume.entry) (faults_of result.volume)) }
    ensures same_reference { result.volume.disks.ghost_name ≡ volume.entry.disks.ghost_name }
{
    let mut volume = volume;
    if volume.sync().is_err() {
        return Ended {
            volume,
            result: Err(FileFault::Device),
        };
    }
    let Ready { chosen, block } = ready;
    match create(volume, chosen, &[block]) {
        Ok((volume, _)) => Ended {
            volume,
            result: Ok(()),
        },
        Err(halt) => Ended {
            volume: halt.volume,
            result: Err(write_fault(halt.fault)),
        },
    }
}

// Makes something at a path, once the checks have passed.
fn make_path<'d, D: Disks>(
    alloc: Global,
    volume: Volume<'d, D>,
    path: &[u8],
    making: &Making<'_>,
    time: u32,
) -> Ended<'d, D>
    requires laid { Told (past_of volume) (IsLaid (volume_view volume)) }
    requires path { HasNoZero path.now }
    ensures answers { Told (past_of volume.entry) (λ now. Answers
        (sound_check (made_check (making_view making.now) path.now) (volume_view volume.entry) now) result.result) }
    ensures leaves { LeavesOn volume.entry result.volume path.now
        (Some (thing_made (making_view making.now))) result.result }
    ensures inode { ChangesInodeAt volume.entry result.volume path.now
        (Some (making_view making.now, time)) result.result }
    ensures unwritten { IsUnwritten (past_of volume.entry) (past_of result.volume) (volume_view volume.entry)
        (made_check (making_view making.now) path.now) }
    ensures same_reference { result.volume.disks.ghost_name ≡ volume.entry.disks.ghost_name }
{
    let mut volume = volume;
    match choose_at(alloc, &mut volume, path, making, time) {
        Ok(ready) => make_ready(volume, ready),
        Err(fault) => Ended {
            volume,
            result: Err(fault),
        },
    }
}

// Makes something at a path of the volume that lies in a span.
fn make<D: Disks>(
    alloc: Global,
    disks: &mut D,
    span: Span,
    path: &[u8],
    making: &Making<'_>,
    time: u32,
) -> Result<(), FileFault>
    requires on_disk { span.start + span.count ≤ D.size_of disks.old span.disk }
    requires room { 4 ≤ span.count }
    requires whole { IsWhole (D.size_of disks.old) (D.past disks.old) }
    requires path { HasNoZero path.now }
    ensures answers { Told (D.past disks.old) (λ now.
        Answers (volume_check (made_check (making_view making.now) path.now) now (span_view span)) result) }
    ensures leaves { LeavesNames D.Disks disks.old disks.new (span_view span) path.now
        (Some (thing_made (making_view making.now))) result }
    ensures inode { ChangesInode D.Disks disks.old disks.new (span_view span) path.now
        (Some (making_view making.now, time)) result }
    ensures unwritten { IsUnwrittenAt (D.past disks.old) (D.past disks.new) (span_view span)
        (made_check (making_view making.now) path.now) }
{
    match Volume::attach(disks, span) {
        Ok(volume) => make_path(alloc, volume, path, making, time).result,
        Err((disks, fault)) => Err(refused(disks, fault)),
    }
}

/// Makes a directory at a path of the volume that lies in a span, at a time in seconds since 1970. Links are followed
/// but for one at the last component. All checks come before anything is written: the volume, a survey of it, the path,
/// that nothing is there, how deep it is nested, and whether inodes, zones and the length of names suffice. Then what
/// was written before is made durable, and the directory is made: it is there with `.` and `..` or not at all, at
/// whatever moment the power fails, and all of it is durable at the end.
///
/// # Errors
///
/// `Refused`, `NoSpace` and `Memory`: then nothing was done. `Device`: then the directory is there or isn't, and where a
/// check refuses nothing was done.
pub fn mkdir<D: Disks>(
    alloc: Global,
    disks: &mut D,
    span: Span,
    path: &[u8],
    time: u32,
) -> Result<(), FileFault>
    requires on_disk { span.start + span.count ≤ D.size_of disks.old span.disk }
    requires room { 4 ≤ span.count }
    requires whole { IsWhole (D.size_of disks.old) (D.past disks.old) }
    requires path { HasNoZero path.now }
    ensures answers { Told (D.past disks.old) (λ now.
        Answers (volume_check (made_check NewDirectory path.now) now (span_view span)) result) }
    ensures leaves { LeavesNames D.Disks disks.old disks.new (span_view span) path.now (Some Directory) result }
    ensures inode { ChangesInode D.Disks disks.old disks.new (span_view span) path.now (Some (NewDirectory, time))
        result }
    ensures unwritten { IsUnwrittenAt (D.past disks.old) (D.past disks.new) (span_view span)
        (made_check NewDirectory path.now) }
{
    make(alloc, disks, span, path, &Making::Directory, time)
}

/// Makes a symbolic link with a target at a path of the volume that lies in a span, as [`mkdir`] makes a directory. The
/// target isn't looked for.
///
/// # Errors
///
/// Those of [`mkdir`], and before `NoSpace` comes `BadLength`: the target has no byte, or more than 1,023.
pub fn ln<D: Disks>(
    alloc: Global,
    disks: &mut D,
    span: Span,
    path: &[u8],
    target: &[u8],
    time: u32,
) -> Result<(), FileFault>
    requires on_disk { span.start + span.count ≤ D.size_of disks.old span.disk }
    requires room { 4 ≤ span.count }
    requires whole { IsWhole (D.size_of disks.old) (D.past disks.old) }
    requires path { HasNoZero path.now }
    ensures answers { Told (D.past disks.old) (λ now.
        Answers (volume_check (made_check (NewLink target.now) path.now) now (span_view span)) result) }
    ensures leaves { LeavesNames D.Disks disks.old disks.new (span_view span) path.now (Some (Link target.now)) result }
    ensures inode { ChangesInode D.Disks disks.old disks.new (span_view span) path.now
        (Some (NewLink target.now, time)) result }
    ensures unwritten { IsUnwrittenAt (D.past disks.old) (D.past disks.new) (span_view span)
        (made_check (NewLink target.now) path.now) }
{
    make(alloc, disks, span, path, &Making::Link(target), time)
}
