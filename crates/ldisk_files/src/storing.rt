// A file is stored.
ghost use Rattle.std.specs.Prelude.{◌≡◌, ◌≤◌, ◌+◌, ◌∷◌, ℕ, List, Some, length, IfOk, IfErr, OnOk};
ghost use Rattle.disk_trait.specs.Past.{Told};
ghost use Rattle.disk_trait.specs.Moments.{IsTold, IsQuiet, IsWhole};
ghost use Rattle.lilo_model.specs.MinixParts.{blocks_for};
ghost use Rattle.ldisk_model.specs.FileVerdict as model;
ghost use Rattle.ldisk_model.specs.FileVerdict.{thing_made};
ghost use Rattle.minix_create.specs.Chosen.{Suits, IsFreeNow, MayBeMade, block_of};
ghost use Rattle.minix_create.specs.States.{CreatesFile, CreationHalts};
ghost use Rattle.minix_layout.specs.View.{kind_view};
ghost use Rattle.minix_names.specs.Component.{HasNoZero};
ghost use Rattle.minix_choice.specs.View.{HasWriteCause};
ghost use Rattle.minix_zones.specs.View.{span_view};
ghost use Rattle.minix_zones.specs.Volume.{volume_view, past_of, faults_of};
ghost use Rattle.ldisk_model.specs.Laid.{IsLaid};
ghost use Rattle.ldisk_files.specs.Answer.{HasFileCause};
ghost use Rattle.ldisk_files.specs.Inode.{ChangesInodeBy};
ghost use Rattle.ldisk_files.specs.Left.{ChangesName};
ghost use Rattle.ldisk_files.specs.Made.{MayMake, MayMakeSome};
ghost use Rattle.ldisk_files.specs.Stored.{
  HasSourceCause,
  IsUnread,
  IsUnreadAt,
  OnGiven,
  Stores,
  StoresOn,
  file_answer,
  padded_blocks,
};

use crate::content::padded_block;
use crate::ended::{Ended, refused};
use crate::fault::{FileFault, write_fault};
use crate::put_fault::PutFault;
use crate::stored::{Stored, choose_stored};
use disk_trait::{Disks, Span};
use minix_choice::WriteHalt;
use minix_create::{Chosen, Linked};
use minix_zones::Volume;
use std::alloc::Global;
use stream_trait::Source;

/// A volume, and what was done with it for a file.
#[derive(Drop)]
struct PutEnded<'d, D: Disks> {
    volume: Volume<'d, D>,
    result: Result<(), PutFault>,
}

/// Makes a file of what was chosen and of its bytes, block by block.
fn write_file<'d, D: Disks>(
    volume: Volume<'d, D>,
    chosen: Chosen,
    bytes: &[u8],
) -> Result<(Volume<'d, D>, Linked), WriteHalt<'d, D>>
    requires suits { Suits volume.layout volume.span chosen }
    requires whole { IsTold (past_of volume)
        → MayBeMade (kind_view volume.layout.kind) chosen (block_of (padded_blocks bytes.now)) }
    requires all { length chosen.choice.blocks ≤ blocks_for (length bytes.now) }
    requires quiet { IsQuiet (past_of volume) }
    requires free { IsTold (past_of volume) → IsFreeNow volume chosen }
    ensures created { IfOk result (CreatesFile volume.entry chosen (block_of (padded_blocks bytes.now))) }
    ensures halted { IfErr result (CreationHalts volume.entry chosen (block_of (padded_blocks bytes.now))) }
    ensures cause { IfErr result (λ halt.
        HasWriteCause (faults_of volume.entry) (faults_of halt.volume) halt.fault) }
{
    let mut reserved = chosen.reserve(volume)?;
    while let Some(index) = reserved.next_index() {
        let block = padded_block(bytes, index);
        if let Err(fault) = reserved.block(&block) {
            return Err(WriteHalt {
                volume: reserved.leave(),
                fault,
            });
        }
    }
    let filled = reserved.fill()?;
    filled.link()
}

// Stores what was chosen on a sound volume. What was written before is made durable first.
fn store_bytes<'d, D: Disks>(volume: Volume<'d, D>, chosen: Chosen, bytes: &[u8]) -> Ended<'d, D>
    requires suits { Suits volume.layout volume.span chosen }
    requires few { length chosen.choice.blocks ≤ blocks_for (length bytes.now) }
    requires may { IsTold (past_of volume) → MayMakeSome volume chosen (padded_blocks bytes.now) }
    ensures changes { (made : model.Making) (outer : List (List ℕ))
        → (IsTold (past_of volume.entry) → MayMake volume.entry outer made chosen (padded_blocks bytes.now))
        → ChangesName volume.entry result.volume (chosen.name ∷ outer) (Some (thing_made made)) result.result }
    ensures inode { (made : model.Making) (outer : List (List ℕ))
        → (IsTold (past_of volume.entry) → MayMake volume.entry outer made chosen (padded_blocks bytes.now))
        → ChangesInodeBy volume.entry result.volume (chosen.name ∷ outer) (Some (made, chosen.time)) result.result }
    ensures quiet { OnOk result.result (IsQuiet (past_of result.volume)) }
    ensures cause { IfErr result.result (HasFileCause (faults_of volume.entry) (faults_of result.volume)) }
    ensures same_reference { result.volume.disks.ghost_name ≡ volume.entry.disks.ghost_name }
{
    let mut volume = volume;
    if volume.sync().is_err() {
        return Ended {
            volume,
            result: Err(FileFault::Device),
        };
    }
    match write_file(volume, chosen, bytes) {
        Ok((volume, _)) => Ended {
            volume,
            result: Ok(()),
        },
        Err(halt) => Ended {
            volume: halt.volume,
            result: Err(write_fault(halt.fault)),
        },
    }
}

// Stores the bytes of a source at a path, once the checks have passed.
fn put_path<'d, D: Disks, I: Source>(
    alloc: Global,
    volume: Volume<'d, D>,
    path: &[u8],
    source: &mut I,
    time: u32,
) -> PutEnded<'d, D>
    requires laid { Told (past_of volume) (IsLaid (volume_view volume)) }
    requires path { HasNoZero path.now }
    ensures stores { OnGiven (I.left source.old) (λ given.
        StoresOn volume.entry result.volume path.now given time (file_answer result.result)) }
    ensures unread { IsUnread (past_of volume.entry) (volume_view volume.entry) path.now source.old source.new }
    ensures source { IfErr result.result (HasSourceCause (I.faults source.old) (I.faults source.new)) }
    ensures same_reference { result.volume.disks.ghost_name ≡ volume.entry.disks.ghost_name }
{
    let mut volume = volume;
    match choose_stored(alloc, &mut volume, path, source, time) {
        Ok(stored) => {
            let Stored { chosen, bytes } = stored;
            ended_put(store_bytes(volume, chosen, bytes.as_slice()))
        }
        Err(fault) => PutEnded {
            volume,
            result: Err(fault),
        },
    }
}

// What was done, with the fault as one of a file that is stored.
fn ended_put<D: Disks>(ended: Ended<'_, D>) -> PutEnded<'_, D>
    ensures same { result.volume ≡ ended.entry.volume }
    ensures told { file_answer result.result ≡ ended.entry.result }
    ensures source { IfErr result.result (HasSourceCause 0 0) }
{
    let Ended { volume, result } = ended;
    match result {
        Ok(()) => PutEnded {
            volume,
            result: Ok(()),
        },
        Err(fault) => PutEnded {
            volume,
            result: Err(PutFault::File(fault)),
        },
    }
}

/// Stores the bytes that a source gives up to its end at a path of the volume that lies in a span, at a time in seconds
/// since 1970. Links are followed but for one at the last component. A block of 1024 zero bytes becomes a hole. All
/// checks come before anything is written: the volume, a survey of it, the path, and that nothing is there; only then
/// is the source read, to its end or one byte past 67,108,864, and inodes, zones and the length of names have to
/// suffice. Then what was written before is made durable, and the file is made: it is there whole or not at all, at
/// whatever moment the power fails, and all of it is durable at the end.
///
/// # Errors
///
/// `Source`, and in `File` `Refused`, then `BadLength` where there are more than 67,108,864 bytes, `NoSpace` and
/// `Memory`: then nothing was done. `Device`: then the file is there or isn't, and where a check refuses nothing was done.
pub fn put<D: Disks, I: Source>(
    alloc: Global,
    disks: &mut D,
    span: Span,
    path: &[u8],
    source: &mut I,
    time: u32,
) -> Result<(), PutFault>
    requires on_disk { span.start + span.count ≤ D.size_of disks.old span.disk }
    requires room { 4 ≤ span.count }
    requires whole { IsWhole (D.size_of disks.old) (D.past disks.old) }
    requires path { HasNoZero path.now }
    ensures stores { OnGiven (I.left source.old) (λ given.
        Stores D.Disks disks.old disks.new (span_view span) path.now given time (file_answer result)) }
    ensures unread { IsUnreadAt (D.past disks.old) (span_view span) path.now source.old source.new }
    ensures source { IfErr result (HasSourceCause (I.faults source.old) (I.faults source.new)) }
{
    match Volume::attach(disks, span) {
        Ok(volume) => put_path(alloc, volume, path, source, time).result,
        Err((disks, fault)) => Err(PutFault::File(refused(disks, fault))),
    }
}
