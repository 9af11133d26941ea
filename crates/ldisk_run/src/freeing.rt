// `reclaim`: what is marked on a volume without a use is freed.
ghost use Rattle.std.specs.Prelude.{◌≡◌, ◌≢◌, ◌≤◌, ◌+◌, ◌++◌, ℕ, List, decimal, IsTrue};
ghost use Rattle.disk_trait.specs.Moments.{IsWhole};
ghost use Rattle.sector_address.specs.Machine.{OnDisks};
ghost use Rattle.stream_trait.specs.Shows.{HasFailed};
ghost use Rattle.ldisk_model.specs.Arguments.{Reclaim};
ghost use Rattle.ldisk_model.specs.Verdict.{command_verdict, freed_text};
ghost use Rattle.mbr_table.specs.View.{device_view};
ghost use Rattle.minix_reclaim.specs.Reclaim.{freed_view};
ghost use Rattle.ldisk_run.specs.Left.{LeavesBy};
ghost use Rattle.ldisk_run.specs.Made.{file_status, freed_line};
ghost use Rattle.ldisk_run.specs.Pieces.{sink_of, held_by, Adds};
ghost use Rattle.ldisk_run.specs.Run.{DoesAs, is_command_status};

use crate::halt::status_of;
use crate::pieces::Pieces;
use crate::room::find_room;
use disk_trait::Disks;
use itoa::Buffer;
use ldisk_files::FileFault;
use mbr_table::Device;
use minix_reclaim::Freed;
use std::alloc::Global;
use stream_trait::Sink;

/// Frees what is marked on the volume of a device without a use, prints how much that is, and answers the status.
pub(crate) fn reclaim<D: Disks, O: Sink>(
    alloc: Global,
    disks: &mut D,
    device: Device,
    out: &mut Pieces<'_, O>,
) -> u8
    requires whole { IsWhole (D.size_of disks.old) (D.past disks.old) }
    ensures does { (given : List ℕ) (sectors : ℕ) → OnDisks D.Disks disks.old (λ now machine.
        DoesAs (command_verdict now machine given sectors (Reclaim (device_view device))) result
        (held_by O.Sink out.old) (held_by O.Sink out.new)) }
    ensures known { IsTrue (is_command_status result) }
    ensures usage { result ≢ 1 }
    ensures no_disk { D.size_of disks.old 0 ≡ 0 → result ≡ 3 }
    ensures leaves { (given : List ℕ) (time sectors : ℕ)
        → LeavesBy D.Disks disks.old disks.new time given sectors (Reclaim (device_view device)) result }
    ensures sink { HasFailed (sink_of O.Sink out.old) (sink_of O.Sink out.new) }
    ensures same_reference { out.new.out.out.ghost_name ≡ out.old.out.out.ghost_name }
{
    match find_room(disks, device) {
        Ok(span) => put_freed(ldisk_files::reclaim(alloc, disks, span), out),
        Err(halt) => status_of(Err(halt)),
    }
}

/// Adds the line of what was freed, and answers the status.
fn put_freed<O: Sink>(freed: Result<Freed, FileFault>, out: &mut Pieces<'_, O>) -> u8
    ensures status { result ≡ file_status freed }
    ensures adds { Adds (held_by O.Sink out.old) (freed_line freed) (held_by O.Sink out.new) }
    ensures sink { HasFailed (sink_of O.Sink out.old) (sink_of O.Sink out.new) }
    ensures same_reference { out.new.out.out.ghost_name ≡ out.old.out.out.ghost_name }
{
    match freed {
        Ok(freed) => {
            put_line(freed, out);
            0
        }
        Err(fault) => fault.status(),
    }
}

/// The same where something was, or nothing had to be.
fn put_line<O: Sink>(freed: Freed, out: &mut Pieces<'_, O>)
    ensures adds { Adds (held_by O.Sink out.old) (freed_text (freed_view freed)) (held_by O.Sink out.new) }
    ensures sink { HasFailed (sink_of O.Sink out.old) (sink_of O.Sink out.new) }
    ensures same_reference { out.new.out.out.ghost_name ≡ out.old.out.out.ghost_name }
{
    put_count(b"zones ", freed.zones, out);
    put_count(b", inodes ", freed.inodes, out);
    out.put(b"\n");
}

/// Adds a word and a number.
fn put_count<O: Sink>(word: &[u8], count: u32, out: &mut Pieces<'_, O>)
    ensures adds { Adds (held_by O.Sink out.old) (word.now ++ decimal count) (held_by O.Sink out.new) }
    ensures sink { HasFailed (sink_of O.Sink out.old) (sink_of O.Sink out.new) }
    ensures same_reference { out.new.out.out.ghost_name ≡ out.old.out.out.ghost_name }
{
    out.put(word);
    let mut digits = Buffer::new();
    out.put(digits.format(count).as_bytes());
}
