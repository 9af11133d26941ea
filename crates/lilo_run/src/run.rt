// The top call: what the program `lilo` does with its arguments.
ghost use Rattle.std.specs.Prelude.{◌≡◌, true, Bool, ◌↔◌, ◌++◌, codes, false, length, IfSome, IfOk, IsOk};
ghost use Rattle.std.specs.Prelude.{ℕ, List, [], ◌∷◌, Option, Ok, IsErr, IsTrue};
ghost use Rattle.disk_trait.specs.Calls.{GoesOn, SameOf};
ghost use Rattle.disk_trait.specs.Moments.{IsWhole};
ghost use Rattle.lilo_model.specs.Faults.{Rose};
ghost use Rattle.stream_trait.specs.Sink.{Takes};
ghost use Rattle.lilo_model.specs.Place.{memory_after};
ghost use Rattle.lilo_model.specs.Words.{Part, run_at, usage_text};
ghost use Rattle.lilo_model.specs.Devices.{Device};
ghost use Rattle.sector_address.specs.Machine.{OnDisks};
ghost use Rattle.bios_model.specs.Memory.{memory_of};
ghost use Rattle.lilo_words.specs.Run.{run_behind, parts_behind};
ghost use Rattle.stream_trait.specs.Shows.{Shows, sink_of, Prints};
ghost use Rattle.lilo_run.specs.Run.{
  Answers,
  is_run_status,
  is_status,
  IsLost,
  IsWriteLost,
  RunsAll,
  OnParts,
  TellsAll,
};
ghost use Rattle.lilo_run.specs.Run.{HoldsWritten, LeavesWritten, LeavesOthers};
ghost use Rattle.loader_core.specs.Start.{OnKeys};
ghost use Rattle.lilo_model.specs.ConfVerdict.{place_at};
ghost use Rattle.lilo_run.specs.Verdict.{part_effect, parts_effects, run_verdict, run_left, run_written, Left};
ghost use Rattle.lilo_run.specs.Verdict.{early_answer, early_parts, has_boot, has_write, has_conf, has_work_on};
ghost use Rattle.lilo_run.specs.Laws.{IsBootRun, TellsBoot};
ghost use Rattle.lilo_run.specs.Install.{
  IsInstallRun,
  HoldsHeadline,
  InstallHolds,
  InstallStays,
  PartLeaves,
  TellsInstall,
  done_status,
};
ghost use Rattle.lilo_run.specs.Turn.{PartTurns};
ghost use Rattle.loader_core.specs.Leaves.{WritesAndAsks};

use crate::part::carry_out;
use bios_model::{Bios, Ram};
use disk_trait::Disks;
use lilo_words::{check, part_at};
use loader_core::Shown;
use std::alloc::Global;
use stream_trait::{Sink, Source, Words, answer};

/// Carries out arguments, and answers the exit status. Arguments are parts with a `--then` between each two, which are
/// carried out in order until one answers other than 0: that status is the answer. A part that would answer 0, but
/// whose text can't be shown, answers 12, and so the run ends there.
///
/// `-q DEVICE` prints the names in the map of a device, a line each, with ` *` after the default's.
/// Without a device it is that of `boot=` in the configuration, or the volume's: the file `/etc/lilo.conf`, or that
/// after `-C`, on the volume of the device after `--root`, or on the first that is found.
/// `-R WORD..` makes the words, with a space between each two, the default line of that device for one boot, by
/// [`one_shot::set_line`], and without words clears it; it prints nothing.
/// `-u DEVICE` restores the boot sector that it had before the first installation, by [`boot_backup::restore`], from
/// the backup on the volume of the device after `--root`, or on the first that is found; it prints nothing.
/// `boot DEVICE` boots it, by [`loader_core::boot`], and with `--dump` prints what was put into memory. Where the boot
/// makes the default line another, that line's sector is written and made durable. The options `-C`, `--root` and `-v`
/// before `-q DEVICE` and `boot` have no effect, nor have `-C` and `-v` before `-u`.
/// `-t` looks at and plans what an installation by a configuration would do at a time, in seconds since 1970, by
/// [`install_run::preview_begun`], and prints it; it writes nothing. An installation does it, by
/// [`install_run::install_begun`], and prints it before it is done.
///
/// | status | comes | text |
/// |---|---|---|
/// | 0 | done | the names; what the boot shows, and the memory; what an installation does, or would do |
/// | 1 | the arguments aren't in the grammar | `lilo: usage: WORD`, or `(end)` |
/// | 2 | the configuration's text is refused | `lilo: config: OPTION: REASON at line N` |
/// | 3 | the device isn't found | `lilo: volume: no disk`, `no partition` or `table` |
/// | 3 | the volume or the configuration's file isn't | `lilo: volume: no volume`, `layout`, `missing PATH`, `path PATH` |
/// | 3 | the volume isn't sound, or a named path is refused | `lilo: volume: REASON` |
/// | 4 | the words after `-R` make N bytes, which are too many | `lilo: address: line N over 255` |
/// | 4 | the configuration isn't apart, or can't be mapped | `lilo: address: REASON` |
/// | 5 | the volume has no room | `lilo: space: REASON` |
/// | 6 | `-q`, `-R` or `-u` finds a foreign boot sector, or one of another version; `-u` no backup | `lilo: not ours` |
/// | 7 | the boot is refused, or the map is | `lilo: boot: REASON` |
/// | 8 | a disk failed before the part wrote, or an installation its boot sector | `lilo: device` |
/// | 9 | a disk failed in the write of the default line or the boot sector, or the flush of it | `lilo: device at commit` |
/// | 10 | a disk failed after that | `lilo: device after commit` |
/// | 11 | the source of keys failed | `lilo: keys` |
/// | 12 | the sink failed at a part that would answer 0 | |
/// | 13 | there is no memory for a configuration, a plan, or the words after `-R` | `lilo: memory` |
///
/// After the sink failed nothing is put, and the part that runs is the last. Only boots take keys. Only boots, `-R`,
/// `-u` and installations write: the first two the sector of the default line, `-u` the boot sector, and no other; an
/// installation files of its volume, and the boot sector as its commit. Memory is allocated for a configuration, a plan
/// and the words after `-R` alone.
pub fn lilo<D: Disks, I: Source, O: Sink>(
    alloc: Global,
    words: &Words,
    disks: &mut D,
    keys: &mut I,
    out: &mut O,
    ram: &mut Ram,
    now: u32,
) -> u8
    // Each sector has 512 bytes: so it is of disks that hold whole sectors, or that don't report what they hold.
    requires whole { IsWhole (D.size_of disks.old) (D.past disks.old) }

    // Where the disks report what they hold, the status is the verdict's, but for faults.
    ensures status { OnParts D.Disks I.Source disks.old (keys.old, keys.new) (length ram.old) now words.now
        (λ parts _ _. Answers parts result) }
    ensures device { result ≡ 8 → Rose (D.faults disks.old) (D.faults disks.new) }
    ensures at_commit { result ≡ 9 → Rose (D.faults disks.old) (D.faults disks.new) }
    ensures after_commit { result ≡ 10 → Rose (D.faults disks.old) (D.faults disks.new) }
    ensures written { IsWriteLost result → IfOk (run_at words.now) (λ parts. has_write parts ≡ true) }
    ensures after { result ≡ 10 → IfOk (run_at words.now) (λ parts. has_work_on parts ≡ true) }
    ensures unheard { result ≡ 11 → Rose (I.faults keys.old) (I.faults keys.new) }
    ensures sink { result ≡ 12 → Rose (O.faults out.old) (O.faults out.new) }
    ensures starved { result ≡ 13 → IfOk (run_at words.now) (λ parts. has_conf parts ≡ true) }

    // The text, the keys left and what the disks hold go with the status. Only a failed sink may have cut the text
    // short, in the part at which the run ended.
    ensures text { OnParts D.Disks I.Source disks.old (keys.old, keys.new) (length ram.old) now words.now
        (λ parts all left. TellsAll D.Disks I.Source O.Sink parts result all left
        (disks.old, keys.old, ram.old, out.old) (disks.new, keys.new, ram.new, out.new)) }
    ensures whole { result ≡ 0 → OnParts D.Disks I.Source disks.old (keys.old, keys.new) (length ram.old) now
        words.now (λ parts _ _. Takes (O.taken out.old) (run_verdict parts).text (O.taken out.new)) }
    ensures left { result ≡ 0 → OnParts D.Disks I.Source disks.old (keys.old, keys.new) (length ram.old) now
        words.now (λ parts all left. run_left all parts ≡ left) }

    // A boot by itself has the model's verdict, leaves the keys that the model's leaves, and writes the line that it
    // writes.
    ensures boot { (device : Device) (dump : Bool) → IsBootRun words.now device dump
        → OnDisks D.Disks disks.old (λ now machine. OnKeys I.Source (keys.old, keys.new) (λ all left.
        TellsBoot D.Disks I.Source O.Sink now machine (length ram.old)
        (place_at now machine device) dump all left result
        (disks.old, keys.old, ram.old, out.old) (disks.new, keys.new, ram.new, out.new))) }

    // An installation by itself, by what is found out: the image that its settling leaves, and the one at its end.
    // Where nothing that is read rests on what settling changes, its verdict is the model's, by the image at the entry.
    ensures install { (root : Option Device) (path : List ℕ) → IsInstallRun words.now root path
        → OnDisks D.Disks disks.old (λ image machine. OnKeys I.Source (keys.old, keys.new) (λ all left.
        TellsInstall D.Disks I.Source O.Sink image machine root path now all left result
        (disks.old, keys.old, ram.old, out.old) (disks.new, keys.new, ram.new, out.new))) }

    // The headline: at any moment a stop leaves what boots as before, or as the configuration and its files mean, the
    // same of the two for all keys; where it isn't done only the first, and once it is done only the second.
    ensures headline { (root : Option Device) (path : List ℕ) → IsInstallRun words.now root path
        → OnDisks D.Disks disks.old (λ image machine.
        HoldsHeadline image machine root path (D.past disks.old) (D.past disks.new) (done_status result)) }
    // All that a stop leaves of it at any moment, and what it holds at its end: names, the map, the backup, what is
    // durable, and what boots where the old map isn't Clear.
    ensures leaves { (root : Option Device) (path : List ℕ) → IsInstallRun words.now root path
        → OnDisks D.Disks disks.old (λ image machine.
        InstallHolds image machine root path now (D.past disks.old) (D.past disks.new) result) }
    // What it leaves alone, whatever it answers: all, where a check before the first write refuses; and each sector
    // outside of the volume, but for the boot device's first, from its commit on.
    ensures stays { (root : Option Device) (path : List ℕ) → IsInstallRun words.now root path
        → OnDisks D.Disks disks.old (λ image machine.
        InstallStays image machine root path (D.past disks.old) (D.past disks.new) (done_status result)) }

    // Each part that answers 0 wrote its default line or boot sector, or installed. Where none installs, a stop at any
    // moment leaves what the disks held before one of the parts or after it: that sector has its old bytes or its new
    // ones, and no other is written.
    ensures lines { result ≡ 0 → OnParts D.Disks I.Source disks.old (keys.old, keys.new) (length ram.old) now
        words.now (λ parts _ _. HoldsWritten D.Disks parts disks.old disks.new) }
    ensures moments { OnParts D.Disks I.Source disks.old (keys.old, keys.new) (length ram.old) now words.now
        (λ parts _ _. LeavesWritten D.Disks parts disks.old disks.new) }
    ensures others { OnParts D.Disks I.Source disks.old (keys.old, keys.new) (length ram.old) now words.now
        (λ parts _ _. LeavesOthers D.Disks parts disks.old disks.new) }

    // A part by itself that boots, sets a line, restores or looks is a command of a session: on each site on which it
    // is, each image left at any moment is what the command makes of the one at its entry, and keeps what a session keeps.
    ensures turn { (part : Part) → run_at words.now ≡ Ok (part ∷ [])
        → OnDisks D.Disks disks.old (λ image machine. OnKeys I.Source (keys.old, keys.new) (λ all _.
        PartTurns image machine (length ram.old) all part result (D.past disks.old) (D.past disks.new))) }

    // Arguments that aren't in the grammar, whatever the disks report.
    ensures usage { (result ≡ 1) ↔ IsErr (run_at words.now) }
    ensures usage_line { IsErr (run_at words.now)
        → Prints (O.taken out.old) (usage_text words.now) (O.taken out.new) (O.faults out.old) (O.faults out.new) }

    // Whatever the disks report, these are the statuses, and what is of a disk without sectors is known.
    ensures statuses { IsTrue (is_status result) }
    ensures early { IfSome (early_answer (D.size_of disks.old) (run_at words.now)) (λ status. result ≡ status) }

    // Memory has what the boots put there, and without a boot it stays, and so do the keys.
    ensures memory { result ≡ 0 → OnParts D.Disks I.Source disks.old (keys.old, keys.new) (length ram.old) now
        words.now (λ parts _ _. memory_of ram.new ≡ memory_after (memory_of ram.old) (run_written parts)) }
    ensures no_boot { IfOk (run_at words.now) (λ parts. has_boot parts ≡ false
        → (ram.new ≡ ram.old) × (keys.new ≡ keys.old)) }
    ensures no_run { IsErr (run_at words.now) → (ram.new ≡ ram.old) × (keys.new ≡ keys.old) }
    ensures size { length ram.new ≡ length ram.old }

    // Without a boot, `-R`, `-u` and an installation no disk is written, whatever the disks report; and their sizes and
    // shapes always stay.
    ensures same { IfOk (run_at words.now) (λ parts. has_write parts ≡ false → SameOf D.Disks disks.old disks.new) }
    ensures same_no_run { IsErr (run_at words.now) → SameOf D.Disks disks.old disks.new }
    ensures keeps { GoesOn D.Disks disks.old disks.new }
{
    let mut shown = Shown::new(out);
    let mut bios = Bios { disks, keys };
    run_words(alloc, words, &mut bios, ram, &mut shown, now)
}

/// Carries out arguments, and answers the status.
#[tactic(auto, unfolding(crate::specs::Verdict::effects_of, crate::specs::Verdict::early_answer))]
fn run_words<D: Disks, I: Source, O: Sink>(
    alloc: Global,
    words: &Words,
    bios: &mut Bios<'_, D, I>,
    ram: &mut Ram,
    out: &mut Shown<'_, O>,
    time: u32,
) -> u8
    requires whole { IsWhole (D.size_of bios.old.disks.now) (D.past bios.old.disks.now) }
    ensures does { OnParts D.Disks I.Source bios.old.disks.now (bios.old.keys.now, bios.new.keys.now) (length ram.old)
        time words.now (λ parts all left. RunsAll D.Disks I.Source O.Sink parts result all left
        (bios.old.disks.now, bios.old.keys.now, ram.old, out.old)
        (bios.new.disks.now, bios.new.keys.now, ram.new, out.new)) }
    ensures alone { (part : Part) → run_at words.now ≡ Ok (part ∷ [])
        → PartLeaves D.Disks time part (done_status result) bios.old.disks.now bios.new.disks.now }
    ensures usage { (result ≡ 1) ↔ IsErr (run_at words.now) }
    ensures usage_line { IsErr (run_at words.now)
        → Shows (sink_of O.Sink out.old) (usage_text words.now) (sink_of O.Sink out.new) }
    ensures early { IfSome (early_answer (D.size_of bios.old.disks.now) (run_at words.now))
        (λ status. result ≡ status) }
    ensures known { IsTrue (is_status result) }
    ensures written { IsWriteLost result → IfOk (run_at words.now) (λ parts. has_write parts ≡ true) }
    ensures after { result ≡ 10 → IfOk (run_at words.now) (λ parts. has_work_on parts ≡ true) }
    ensures starved { result ≡ 13 → IfOk (run_at words.now) (λ parts. has_conf parts ≡ true) }
    ensures unshown { result ≡ 12 → out.new.failed ≡ true }
    ensures memory { length ram.new ≡ length ram.old }
    ensures no_boot { IfOk (run_at words.now) (λ parts. has_boot parts ≡ false
        → (ram.new ≡ ram.old) × (bios.new.keys.now ≡ bios.old.keys.now)) }
    ensures no_run { IsErr (run_at words.now) → (ram.new ≡ ram.old) × (bios.new.keys.now ≡ bios.old.keys.now) }
    ensures same { IfOk (run_at words.now) (λ parts. has_write parts ≡ false
        → SameOf D.Disks bios.old.disks.now bios.new.disks.now) }
    ensures same_no_run { IsErr (run_at words.now) → SameOf D.Disks bios.old.disks.now bios.new.disks.now }
    ensures asks { WritesAndAsks D.Disks I.Source O.Sink (bios.old, out.old) (bios.new, out.new)
        (IsLost result) (result ≡ 11) }
{
    match check(words) {
        Ok(()) => run_parts(alloc, words, bios, ram, out, time),
        Err(wrong) => {
            say_usage(out, wrong.word(words));
            1
        }
    }
}

/// Carries out the parts of arguments in order, until one answers other than 0. One whose text can't be shown does.
fn run_parts<D: Disks, I: Source, O: Sink>(
    alloc: Global,
    words: &Words,
    bios: &mut Bios<'_, D, I>,
    ram: &mut Ram,
    out: &mut Shown<'_, O>,
    time: u32,
) -> u8
    requires whole { IsWhole (D.size_of bios.old.disks.now) (D.past bios.old.disks.now) }
    requires begins { IsOk (run_behind words.now 0) }
    ensures does { OnDisks D.Disks bios.old.disks.now (λ now machine.
        OnKeys I.Source (bios.old.keys.now, bios.new.keys.now) (λ all left. (lefts : List Left)
        × RunsAll D.Disks I.Source O.Sink
        (parts_effects (part_effect machine (length ram.old) time) now (parts_behind words.now 0) lefts all)
        result all left
        (bios.old.disks.now, bios.old.keys.now, ram.old, out.old)
        (bios.new.disks.now, bios.new.keys.now, ram.new, out.new))) }
    ensures alone { (part : Part) → parts_behind words.now 0 ≡ part ∷ []
        → PartLeaves D.Disks time part (done_status result) bios.old.disks.now bios.new.disks.now }
    ensures early { IfSome (early_parts (D.size_of bios.old.disks.now) (parts_behind words.now 0))
        (λ status. result ≡ status) }
    ensures known { IsTrue (is_run_status result) }
    ensures written { IsWriteLost result → has_write (parts_behind words.now 0) ≡ true }
    ensures after { result ≡ 10 → has_work_on (parts_behind words.now 0) ≡ true }
    ensures starved { result ≡ 13 → has_conf (parts_behind words.now 0) ≡ true }
    ensures unshown { result ≡ 12 → out.new.failed ≡ true }
    ensures memory { length ram.new ≡ length ram.old }
    ensures no_boot { has_boot (parts_behind words.now 0) ≡ false
        → (ram.new ≡ ram.old) × (bios.new.keys.now ≡ bios.old.keys.now) }
    ensures same { has_write (parts_behind words.now 0) ≡ false
        → SameOf D.Disks bios.old.disks.now bios.new.disks.now }
    ensures asks { WritesAndAsks D.Disks I.Source O.Sink (bios.old, out.old) (bios.new, out.new)
        (IsLost result) (result ≡ 11) }
{
    let mut next = Some(0);
    while let Some(from) = next {
        let read = part_at(words, from);
        let own = carry_out(alloc, words, read.part, bios, ram, out, time);
        match answer(own, out.failed()) {
            0 => next = read.next,
            status => return status,
        }
    }
    0
}

/// Shows the argument of a command line that isn't allowed where it is.
fn say_usage<O: Sink>(out: &mut Shown<'_, O>, word: &str)
    ensures shown { Shows (sink_of O.Sink out.old)
        (codes "lilo: usage: " ++ word.now ++ codes "\n") (sink_of O.Sink out.new) }
    ensures same_reference { out.new.out.ghost_name ≡ out.old.out.ghost_name }
{
    out.put(b"lilo: usage: ");
    out.put(word.as_bytes());
    out.put(b"\n");
}
