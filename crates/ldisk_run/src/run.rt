// The top call: what the program `ldisk` does with its arguments.
ghost use Rattle.std.specs.Prelude.{◌≡◌, ◌≢◌, ◌↔◌, ◌≤◌, ℕ, true, false, IsTrue};
ghost use Rattle.disk_trait.specs.Calls.{SameOf, GoesOn};
ghost use Rattle.disk_trait.specs.Moments.{IsQuiet, IsWhole, IsWholeImage, LeavesOnly};
ghost use Rattle.disk_trait.specs.NotWritten.{NotWritten};
ghost use Rattle.sector_address.specs.Machine.{OnDisks};
ghost use Rattle.lilo_model.specs.Faults.{Rose};
ghost use Rattle.stream_trait.specs.Sink.{Takes};
ghost use Rattle.stream_trait.specs.Shows.{HasFailed};
ghost use Rattle.ldisk_model.specs.Arguments.{asked_at};
ghost use Rattle.ldisk_files.specs.Stored.{OnGiven};
ghost use Rattle.ldisk_model.specs.Verdict.{
  command_verdict,
  ldisk_verdict,
  is_carried_out,
  are_carried_out,
  stores,
  asked_stores,
  asks_source,
  asked_asks_source,
  asked_change,
  asked_after,
  asked_may_write,
  asked_only_read,
};
ghost use Rattle.lilo_model.specs.LdiskVerdict as reads;
ghost use Rattle.ldisk_words.specs.View.{command_view};
ghost use Rattle.minix_format.specs.Left.{IsPartlyMade};
ghost use Rattle.ldisk_run.specs.Left.{
  IsDone,
  is_refusal,
  LeavesBy,
  LeavesAsked,
  LeavesChanging,
  LeavesFreeing,
  asked_freed_device,
  IsAskedDone,
  HasAskedVolume,
  asked_makes_image,
  held_now,
};
ghost use Rattle.ldisk_run.specs.Pieces.{sink_of, held_by};
ghost use Rattle.ldisk_run.specs.Run.{
  DoesAs,
  Answers,
  Tells,
  asked_takes_memory,
  takes_memory,
  is_status,
  is_command_status,
  is_any_status,
  HasPlainPath,
};
ghost use Rattle.ldisk_run.specs.View.{reading_view};

use crate::command::carry_out;
use crate::files::{ln, mkdir, rm};
use crate::freeing::reclaim;
use crate::halt::status_of;
use crate::made::{make, mkfs};
use crate::pieces::Pieces;
use crate::put::put;
use crate::reading::Reading;
use disk_trait::Disks;
use ldisk_words::{Command, ask};
use std::alloc::Global;
use stream_trait::{Shown, Sink, Source, Words, answer};

/// Carries out what arguments ask for over disk 0 at a time, in seconds since 1970, and answers the exit status.
///
/// `make IMAGE SECTORS [START:COUNT:TYPE ..]` writes a partition table into the first sector of a new image, which has
/// so many sectors; the image is the caller's matter. `mkfs IMAGE DEVICE KIND INODES` makes an empty Minix volume. `ls
/// IMAGE DEVICE PATH` lists a directory: a line for each entry in the directory's order, but for `.` and `..`, with
/// `f`, `d`, `l` or `o`, the size and the name. `get IMAGE DEVICE PATH` prints a file. Both follow a link in the last
/// component. `put IMAGE DEVICE PATH` stores what the source gives up to its end, with a hole for each block of 1024
/// zero bytes. `rm IMAGE DEVICE PATH` removes a regular file or a symbolic link: all checks come before anything is
/// written, a survey of the volume among them; and whatever a stop leaves is sound, with the names before or after. So
/// it is of `put`, of `mkdir IMAGE DEVICE PATH`, which makes a directory, and of `ln IMAGE DEVICE PATH TARGET`, which
/// makes a symbolic link. `reclaim IMAGE DEVICE` frees the zones and inodes that are marked and that nothing with a name
/// uses, as a stop leaves them, and prints how many: `zones N, inodes M`.
///
/// | status | comes |
/// |---|---|
/// | 0 | done |
/// | 1 | the arguments ask for nothing; of `make`, partitions overlap, lie outside the disk or touch its first sector |
/// | 3 | disk 0 isn't there; a table, the volume, its survey, the path or the kind is refused, or an inode of an entry; something is at a new name, or a directory would be nested too deep |
/// | 4 | the source gives more than 67,108,864 bytes; a link's target has no byte, or more than 1,023 |
/// | 5 | the device has too few sectors for the volume's tables and root, or too many inodes are asked for; of a new name inodes, zones or its length don't suffice |
/// | 8 | a disk failed |
/// | 11 | the source failed |
/// | 12 | the sink failed, and the status would be 0 |
/// | 13 | memory ended |
///
/// No text is put for a fault. What was printed before a refusal stays printed: the blocks of a file or the lines of
/// entries before it. Once the sink failed nothing more is put, and the command goes on. `make` and `mkfs` write only
/// once all their checks passed, and whenever they are stopped each sector is as before or as it is to be: that of
/// `mkfs` may be no sound volume. The source is asked by `put` alone, once a survey and the checks of its path have
/// passed: to its end, or one byte past the most. `put`, `rm`, `mkdir`, `ln` and `reclaim` alone take memory, for the
/// survey, for what is chosen and for the source's bytes.
#[tactic(auto, unfolding(ldisk_model::specs::Verdict::ldisk_verdict))]
pub fn ldisk<D: Disks, I: Source, O: Sink>(
    alloc: Global,
    words: &Words,
    disks: &mut D,
    source: &mut I,
    out: &mut O,
    time: u32,
) -> u8
    // Each sector has 512 bytes: so it is of disks that hold whole sectors, or that don't report what they hold.
    requires whole { IsWhole (D.size_of disks.old) (D.past disks.old) }

    // Where the disks report what they hold, the status is the verdict's of the bytes that the source gives, but for
    // faults; 8, 11 and 12 have a cause.
    ensures status { OnDisks D.Disks disks.old (λ now machine. OnGiven (I.left source.old) (λ given.
        Answers (ldisk_verdict now machine given words.now) result)) }
    ensures device { result ≡ 8 → Rose (D.faults disks.old) (D.faults disks.new) }
    ensures source { result ≡ 11 → Rose (I.faults source.old) (I.faults source.new) }
    ensures sink { result ≡ 12 → Rose (O.faults out.old) (O.faults out.new) }
    ensures memory { result ≡ 13 → asked_takes_memory (asked_at words.now) ≡ true }

    // The text goes with the status. Only a failed sink or disk may have cut it short.
    ensures text { OnDisks D.Disks disks.old (λ now machine. OnGiven (I.left source.old) (λ given.
        Tells (ldisk_verdict now machine given words.now) result
        (O.taken out.old) (O.taken out.new) (O.faults out.old) (O.faults out.new))) }
    ensures whole { result ≡ 0 → OnDisks D.Disks disks.old (λ now machine. OnGiven (I.left source.old) (λ given.
        Takes (O.taken out.old) (ldisk_verdict now machine given words.now).text (O.taken out.new))) }

    // Whatever the disks report, these are the statuses, and what arguments or an absent disk decide is known.
    ensures statuses { IsTrue (is_status result) }
    ensures usage { (result ≡ 1) ↔ (are_carried_out (asked_at words.now) ≡ false) }
    ensures no_disk { D.size_of disks.old 0 ≡ 0 → are_carried_out (asked_at words.now) ≡ true → result ≡ 3 }

    // What the disks hold then.
    ensures done { OnDisks D.Disks disks.old (λ now machine. OnGiven (I.left source.old) (λ given. IsDone result
        → IsAskedDone now machine time given (asked_at words.now) (held_now D.Disks disks.new))) }
    ensures volume { OnDisks D.Disks disks.old (λ now machine. IsDone result → IsWholeImage (D.size_of disks.old) now
        → HasAskedVolume now machine (asked_at words.now) (held_now D.Disks disks.new)) }
    ensures quiet { IsDone result → asked_only_read (asked_at words.now) ≡ false → IsQuiet (D.past disks.new) }

    // From a quiet moment and a sound volume on, whatever a stop leaves has the Names before or after the command.
    ensures any_moment { IsQuiet (D.past disks.old) → OnDisks D.Disks disks.old (λ now machine.
        OnGiven (I.left source.old) (λ given.
        LeavesChanging D.Disks disks.old disks.new now machine (asked_change given (asked_at words.now)))) }

    // From a quiet moment and a sound volume on, whatever a stop of `reclaim` leaves is sound, with the same Names, and has
    // each bit of the bitmaps as before, or clear where it was that of waste.
    ensures freeing { IsQuiet (D.past disks.old) → OnDisks D.Disks disks.old (λ now machine.
        LeavesFreeing D.Disks disks.old disks.new now machine (asked_freed_device (asked_at words.now))) }

    // From a quiet moment on, whatever a stop of `make` and `mkfs` leaves has in each sector what it held or what is
    // defined for it.
    ensures partly { asked_makes_image (asked_at words.now) ≡ true → IsQuiet (D.past disks.old)
        → OnDisks D.Disks disks.old (λ now machine. LeavesOnly (D.past disks.old) (D.past disks.new)
        (IsPartlyMade (asked_after now machine time (asked_at words.now)) now)) }

    // What isn't written: where a check refuses there was no event, whatever is answered.
    ensures unwritten { OnDisks D.Disks disks.old (λ now machine. OnGiven (I.left source.old) (λ given.
        (ldisk_verdict now machine given words.now).status ≢ 0 → D.past disks.new ≡ D.past disks.old)) }
    ensures refused { is_refusal result ≡ true → D.past disks.new ≡ D.past disks.old }
    ensures outside { OnDisks D.Disks disks.old (λ now machine. (d s : ℕ)
        → asked_may_write now machine (asked_at words.now) d s ≡ false
        → NotWritten (D.past disks.old) (D.past disks.new) d s) }
    ensures reads { asked_only_read (asked_at words.now) ≡ true → SameOf D.Disks disks.old disks.new }

    // Nothing else happens. The source is left alone but by `put`, and there until the checks before it have passed.
    ensures goes_on { GoesOn D.Disks disks.old disks.new }
    ensures left_alone { asked_stores (asked_at words.now) ≡ false → source.new ≡ source.old }
    ensures unread { OnDisks D.Disks disks.old (λ now machine.
        asked_asks_source now machine (asked_at words.now) ≡ false → source.new ≡ source.old) }
{
    let mut pieces = Pieces::new(Shown::new(out));
    let status = run_words(alloc, words, disks, source, &mut pieces, time);
    pieces.show();
    let sink_failed = pieces.out.failed();
    answer(status, sink_failed)
}

/// Carries out what arguments ask for, and answers the status, whether or not the sink failed.
#[tactic(auto, unfolding(ldisk_model::specs::Verdict::ldisk_verdict))]
fn run_words<D: Disks, I: Source, O: Sink>(
    alloc: Global,
    words: &Words,
    disks: &mut D,
    source: &mut I,
    out: &mut Pieces<'_, O>,
    time: u32,
) -> u8
    requires whole { IsWhole (D.size_of disks.old) (D.past disks.old) }
    ensures does { OnDisks D.Disks disks.old (λ now machine. OnGiven (I.left source.old) (λ given.
        DoesAs (ldisk_verdict now machine given words.now) result (held_by O.Sink out.old) (held_by O.Sink out.new))) }
    ensures known { IsTrue (is_any_status result) }
    ensures usage { (result ≡ 1) ↔ (are_carried_out (asked_at words.now) ≡ false) }
    ensures no_disk { D.size_of disks.old 0 ≡ 0 → are_carried_out (asked_at words.now) ≡ true → result ≡ 3 }
    ensures memory { result ≡ 13 → asked_takes_memory (asked_at words.now) ≡ true }
    ensures leaves { OnGiven (I.left source.old) (λ given.
        LeavesAsked D.Disks disks.old disks.new time given (asked_at words.now) result) }
    ensures left_alone { asked_stores (asked_at words.now) ≡ false → source.new ≡ source.old }
    ensures unread { OnDisks D.Disks disks.old (λ now machine.
        asked_asks_source now machine (asked_at words.now) ≡ false → source.new ≡ source.old) }
    ensures source { result ≡ 11 → Rose (I.faults source.old) (I.faults source.new) }
    ensures sink { HasFailed (sink_of O.Sink out.old) (sink_of O.Sink out.new) }
    ensures same_reference { out.new.out.out.ghost_name ≡ out.old.out.out.ghost_name }
{
    match ask(words) {
        Some(asked) => run_command(
            alloc,
            asked.sectors,
            asked.command,
            disks,
            source,
            out,
            time,
        ),
        None => 1,
    }
}

/// Carries out a command on an image that has so many sectors where it is new.
fn run_command<D: Disks, I: Source, O: Sink>(
    alloc: Global,
    sectors: u32,
    command: Command<'_>,
    disks: &mut D,
    source: &mut I,
    out: &mut Pieces<'_, O>,
    time: u32,
) -> u8
    requires whole { IsWhole (D.size_of disks.old) (D.past disks.old) }
    requires path { HasPlainPath (command_view command) }
    ensures does { OnDisks D.Disks disks.old (λ now machine. OnGiven (I.left source.old) (λ given.
        DoesAs (command_verdict now machine given sectors (command_view command.entry)) result
        (held_by O.Sink out.old) (held_by O.Sink out.new))) }
    ensures known { IsTrue (is_any_status result) }
    ensures usage { (result ≡ 1) ↔ (is_carried_out sectors (command_view command.entry) ≡ false) }
    ensures no_disk { D.size_of disks.old 0 ≡ 0 → is_carried_out sectors (command_view command.entry) ≡ true
        → result ≡ 3 }
    ensures memory { result ≡ 13 → takes_memory (command_view command.entry) ≡ true }
    ensures leaves { OnGiven (I.left source.old) (λ given.
        LeavesBy D.Disks disks.old disks.new time given sectors (command_view command.entry) result) }
    ensures left_alone { stores (command_view command.entry) ≡ false → source.new ≡ source.old }
    ensures unread { OnDisks D.Disks disks.old (λ now machine.
        asks_source now machine (command_view command.entry) ≡ false → source.new ≡ source.old) }
    ensures source { result ≡ 11 → Rose (I.faults source.old) (I.faults source.new) }
    ensures sink { HasFailed (sink_of O.Sink out.old) (sink_of O.Sink out.new) }
    ensures same_reference { out.new.out.out.ghost_name ≡ out.old.out.out.ghost_name }
{
    match command {
        Command::Make { parts } => make(disks, sectors, parts.as_slice()),
        Command::Mkfs {
            device,
            kind,
            inodes,
        } => mkfs(disks, device, kind, inodes, time),
        Command::Get { device, path } => read(Reading::Get { device, path }, disks, out),
        Command::Ls { device, path } => read(Reading::Ls { device, path }, disks, out),
        Command::Put { device, path } => put(alloc, disks, device, path, source, time),
        Command::Rm { device, path } => rm(alloc, disks, device, path),
        Command::Mkdir { device, path } => mkdir(alloc, disks, device, path, time),
        Command::Ln {
            device,
            path,
            target,
        } => ln(alloc, disks, device, path, target, time),
        Command::Reclaim { device } => reclaim(alloc, disks, device, out),
    }
}

/// Carries out a command that only reads, and answers the status.
fn read<D: Disks, O: Sink>(reading: Reading<'_>, disks: &mut D, out: &mut Pieces<'_, O>) -> u8
    ensures does { OnDisks D.Disks disks.old (λ now machine.
        DoesAs (reads.command_verdict now machine (reading_view reading.entry)) result
        (held_by O.Sink out.old) (held_by O.Sink out.new)) }
    ensures known { IsTrue (is_command_status result) }
    ensures usage { result ≢ 1 }
    ensures memory { result ≢ 13 }
    ensures no_disk { D.size_of disks.old 0 ≡ 0 → result ≡ 3 }
    ensures device { result ≡ 8 → Rose (D.faults disks.old) (D.faults disks.new) }
    ensures later { D.faults disks.old ≤ D.faults disks.new }
    ensures same { SameOf D.Disks disks.old disks.new }
    ensures sink { HasFailed (sink_of O.Sink out.old) (sink_of O.Sink out.new) }
    ensures same_reference { out.new.out.out.ghost_name ≡ out.old.out.out.ghost_name }
{
    status_of(carry_out(reading, disks, out))
}
