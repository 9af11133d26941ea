// The boot itself.
ghost use Rattle.std.specs.Prelude.{◌≡◌, ℕ, List, Err, Some, ◌<◌, ◌≤◌, ◌++◌, codes, length, slice_get};
ghost use Rattle.std.specs.Prelude.{All, IfOk, IfSome, IsErrOf};
ghost use Rattle.std.specs.Option.{option_map};
ghost use Rattle.lilo_model.specs.Disks.{Image, Machine};
ghost use Rattle.lilo_model.specs.Choice.{filled_text};
ghost use Rattle.lilo_model.specs.DefaultLine as lines;
ghost use Rattle.lilo_model.specs.DefaultLine.{line_after};
ghost use Rattle.lilo_model.specs.Prompt.{Key};
ghost use Rattle.lilo_model.specs.Boot.{MapSectors, GoodMap, listed_entries, picked_entry, picked_line, video_of};
ghost use Rattle.sector_address.specs.Machine.{machine_of, OnDisks};
ghost use Rattle.sector_address.specs.View.{slot_view};
ghost use Rattle.bios_model.specs.Machine.{HasSector};
ghost use Rattle.bios_model.specs.Memory.{memory_of};
ghost use Rattle.bios_model.specs.Reads.{ReadsAndShows};
ghost use Rattle.boot_map.specs.View.{boot_view, descriptor_view, table_view, line_view, map_fault_view};
ghost use Rattle.boot_map.specs.Ranges.{IsNamed, IsOneSector, HasSectors, FitsFlags};
ghost use Rattle.prompt_core.specs.Decided.{line_behind, picked_by};
ghost use Rattle.prompt_core.specs.Run.{chosen_in};
ghost use Rattle.loader_core.specs.Report.{
  boot_report,
  report_by,
  foreign_report,
  line_write,
  chosen_line,
  locked_line,
};
ghost use Rattle.loader_core.specs.Report.{map_report, sectors_report, good_report, asked_report, decided_report};
ghost use Rattle.loader_core.specs.Report.{picked_report, texts_report, line_report, entry_report, or_device};
ghost use Rattle.loader_core.specs.Leaves.{Leaves, WritesAndShows, WritesAndAsks};
ghost use Rattle.loader_core.specs.Map.{StandsFor, IsTable, IsGood, ListsAs};
ghost use Rattle.loader_core.specs.View.{picked_view};
ghost use Rattle.stream_trait.specs.Shows.{sink_of, HasFailed};
ghost use Rattle.loader_core.specs.Start.{
  LiesInside,
  Starts,
  result_of,
  phase_of,
  span_view,
  halt_text,
  stop_text,
  map_text,
};
ghost use Rattle.loader_core.specs.Start.{ReportsOn, ReportsAs, ReportsBy, WentOn, WentBy, BootsAsModel};
ghost use Rattle.loader_core.specs.Start.{IsDiskFailure, IsLost, IsUnheard, unasked};

use crate::entry::{load_entry, place_boot, video_of};
use crate::line::{LineAt, Pick, is_locked, new_line, write_line};
use crate::map::{
    GoodParts, MapParts, Texts, command_line, judge, message_of, prompt_of, read_map, read_texts,
};
use crate::outcome::{Outcome, Started};
use arrayvec::ArrayVec;
use bios_model::{Bios, Ram};
use boot_map::{BootSector, Descriptor, MapFault, Table};
use disk_trait::{Disks, Phase, Span};
use prompt_core::Prompt;
use prompt_loop::{Stop, ask};
use section_loader::{Halt, Reason};
use sector_parts::{Sector, part};
use stream_trait::{Shown, Sink, Source};

/// Boots from the first sector of a device, a disk or one of its partitions, into a memory, by keys, and shows the
/// texts that go with it.
///
/// A boot sector of this format leads to a map: to the default line, the table of entries and their passwords, and once
/// an entry is chosen at the prompt to its texts and files, all by the sectors that slots name. No file system is read.
/// A kernel is loaded with its initrd and command line as the boot protocol has them (Linux/x86, 2.00 to 2.06 and
/// before); another system's boot sector lies at 0x7C00 then, with the partition table of its disk from 0x7BE on,
/// where the entry says so. A boot sector that isn't of this format, and that a BIOS takes for one, is handed over
/// itself.
///
/// Each sector is read once, one at a time, but for that of a file which a slot names twice. Keys are taken by the
/// prompt alone, as many as it needs for its choice. Where the choice makes the default line another, that line's
/// sector is written and made durable before the first byte of a kernel is read; no other sector is written. Nothing is
/// allocated. After a refusal or a failure nothing is said of the memory.
pub fn boot<D: Disks, I: Source, O: Sink>(
    bios: &mut Bios<'_, D, I>,
    device: Span,
    ram: &mut Ram,
    out: &mut Shown<'_, O>,
) -> Outcome
    requires { device.start < D.size_of bios.old.disks.now device.disk }

    // It is the model's boot by the keys that it took, and so is what is written of the default line; where a device
    // failed, the text says so.
    ensures report { WentOn D.Disks I.Source O.Sink (result_of result) (phase_of result)
        (bios.old.disks.now, bios.old.keys.now, ram.old, out.old)
        (bios.new.disks.now, bios.new.keys.now, ram.new, out.new)
        (λ now machine memory keys. boot_report now machine (span_view device) memory keys) }
    ensures boot { OnDisks D.Disks bios.old.disks.now (λ now machine.
        BootsAsModel D.Disks I.Source O.Sink now machine device result
        (bios.old.disks.now, bios.old.keys.now, ram.old, out.old)
        (bios.new.disks.now, bios.new.keys.now, ram.new, out.new)) }

    // A disk's failure has its cause, and so have a source's and a sink's.
    ensures asks { WritesAndAsks D.Disks I.Source O.Sink (bios.old, out.old) (bios.new, out.new)
        (IsDiskFailure result) (result ≡ Outcome.Keys) }

    // A kernel that was loaded lies in memory.
    ensures inside { IfOk (result_of result) (LiesInside (length ram.new)) }
    ensures memory { length ram.new ≡ length ram.old }
{
    let mut phase = Phase::Before;
    let end = boot_by(bios, device, ram, out, &mut phase);
    outcome_of(end, phase)
}

/// How a boot's end is reported, with the phase in which a disk failed.
fn outcome_of(end: Result<Started, Stop>, phase: Phase) -> Outcome
    ensures end { result_of result ≡ end }
    ensures phase { IsLost end → phase_of result ≡ phase }
    ensures keys { result ≡ Outcome.Keys → IsUnheard end }
{
    match end {
        Ok(Started::Loaded(layout)) => Outcome::Loaded(layout),
        Ok(Started::Handed) => Outcome::Handed,
        Err(Stop::Keys) => Outcome::Keys,
        Err(Stop::Halt(Halt::Device)) => Outcome::Device(phase),
        Err(Stop::Halt(Halt::Refused(reason))) => Outcome::Refused(reason),
    }
}

/// How a part of a boot ended that takes no key, as the end of one that may.
fn unasked(end: Result<Started, Halt>) -> Result<Started, Stop>
    ensures { result ≡ unasked end }
{
    Ok(end?)
}

/// Boots by what the first sector of a device says.
fn boot_by<D: Disks, I: Source, O: Sink>(
    bios: &mut Bios<'_, D, I>,
    device: Span,
    ram: &mut Ram,
    out: &mut Shown<'_, O>,
    phase: &mut Phase,
) -> Result<Started, Stop>
    requires device { device.start < D.size_of bios.old.disks.now device.disk }
    requires begins { phase.old ≡ Phase.Before }
    ensures went { WentOn D.Disks I.Source O.Sink result phase.new
        (bios.old.disks.now, bios.old.keys.now, ram.old, out.old)
        (bios.new.disks.now, bios.new.keys.now, ram.new, out.new)
        (λ now machine memory keys. boot_report now machine (span_view device) memory keys) }
    ensures memory { length ram.new ≡ length ram.old }
    ensures inside { IfOk result (LiesInside (length ram.new)) }
    ensures asks { WritesAndAsks D.Disks I.Source O.Sink (bios.old, out.old) (bios.new, out.new)
        (IsLost result) (IsUnheard result) }
{
    let mut sector = [0; 512];
    if bios
        .disks
        .read(device.disk, device.start, &mut sector)
        .is_err()
    {
        return Err(Stop::Halt(Halt::Device));
    }
    match BootSector::read(&sector) {
        Ok(boot) => boot_map(bios, &boot, ram, out, phase),
        Err(fault) => unasked(boot_other(&sector, fault, ram, out)),
    }
}

/// Boots by a sector that isn't read as a boot sector of this format: it is broken, or another system's.
fn boot_other<O: Sink>(
    sector: &Sector,
    fault: MapFault,
    ram: &mut Ram,
    out: &mut Shown<'_, O>,
) -> Result<Started, Halt>
    ensures report { (now : Image) (machine : Machine) (memory : ℕ) (keys : List Key)
        → ReportsAs O.Sink (report_by now machine sector.now memory (Err (map_fault_view fault)) keys) result
        (ram.old, out.old) (ram.new, out.new) }
    ensures memory { length ram.new ≡ length ram.old }
    ensures inside { IfOk result (LiesInside (length ram.new)) }
    ensures device { IsErrOf result Halt.Device → ⊥ }
    ensures sink { HasFailed (sink_of O.Sink out.old) (sink_of O.Sink out.new) }
    ensures same_reference { out.new.out.ghost_name ≡ out.old.out.ghost_name }
{
    match fault {
        MapFault::BadTable(entry) => {
            out.put(b"LIL-\n");
            Err(Halt::Refused(Reason::BadTable(entry)))
        }
        MapFault::NotOurs => boot_foreign(ram, sector),
        MapFault::BadVersion(_) => boot_foreign(ram, sector),
        MapFault::BadLine => boot_foreign(ram, sector),
    }
}

/// Hands over a boot sector of another system, where a BIOS takes it for one.
#[tactic(auto, unfolding(lilo_model::specs::BootSector::is_bootable))]
fn boot_foreign(ram: &mut Ram, sector: &Sector) -> Result<Started, Halt>
    ensures started { (keys : List Key)
        → Starts result (foreign_report sector.now keys).result (memory_of ram.old) ram.new }
    ensures memory { length ram.new ≡ length ram.old }
    ensures inside { IfOk result (LiesInside (length ram.new)) }
    ensures device { IsErrOf result Halt.Device → ⊥ }
{
    if part(sector, 510, 2) != b"\x55\xAA".as_slice() {
        return Err(Halt::Refused(Reason::NotBootable));
    }
    place_boot(ram, sector);
    Ok(Started::Handed)
}

/// Boots by a boot sector of this format.
fn boot_map<D: Disks, I: Source, O: Sink>(
    bios: &mut Bios<'_, D, I>,
    boot: &BootSector,
    ram: &mut Ram,
    out: &mut Shown<'_, O>,
    phase: &mut Phase,
) -> Result<Started, Stop>
    requires line { IsOneSector boot.now.line }
    requires table { length boot.now.table.items ≡ 3 }
    requires slots { All IsOneSector boot.now.table.items }
    requires names { boot.now.names ≤ 19 }
    requires message { IfSome boot.now.message IsOneSector }
    requires begins { phase.old ≡ Phase.Before }
    ensures went { WentOn D.Disks I.Source O.Sink result phase.new
        (bios.old.disks.now, bios.old.keys.now, ram.old, out.old)
        (bios.new.disks.now, bios.new.keys.now, ram.new, out.new)
        (λ now machine memory keys. map_report now machine (boot_view boot.now) memory keys) }
    ensures memory { length ram.new ≡ length ram.old }
    ensures inside { IfOk result (LiesInside (length ram.new)) }
    ensures asks { WritesAndAsks D.Disks I.Source O.Sink (bios.old, out.old) (bios.new, out.new)
        (IsLost result) (IsUnheard result) }
{
    out.put(b"L");
    match read_map(bios.disks, boot) {
        Ok(parts) => boot_parts(bios, boot, parts, ram, out, phase),
        Err(halt) => {
            out.put(map_text(halt));
            Err(Stop::Halt(halt))
        }
    }
}

/// Boots by a map whose sectors were read.
fn boot_parts<D: Disks, I: Source, O: Sink>(
    bios: &mut Bios<'_, D, I>,
    boot: &BootSector,
    parts: MapParts,
    ram: &mut Ram,
    out: &mut Shown<'_, O>,
    phase: &mut Phase,
) -> Result<Started, Stop>
    requires known { IfOk parts.table (IsTable boot.now.names) }
    requires line { IsOneSector boot.now.line }
    requires message { IfSome boot.now.message IsOneSector }
    requires begins { phase.old ≡ Phase.Before }
    ensures went { OnDisks D.Disks bios.old.disks.now (λ now machine.
        (sectors : MapSectors) → StandsFor parts sectors
        → WentBy D.Disks I.Source O.Sink result phase.new
        (sectors_report now machine (boot_view boot.now) (length ram.old) sectors)
        (bios.old.disks.now, bios.old.keys.now, ram.old, out.old)
        (bios.new.disks.now, bios.new.keys.now, ram.new, out.new)) }
    ensures memory { length ram.new ≡ length ram.old }
    ensures inside { IfOk result (LiesInside (length ram.new)) }
    ensures asks { WritesAndAsks D.Disks I.Source O.Sink (bios.old, out.old) (bios.new, out.new)
        (IsLost result) (IsUnheard result) }
{
    out.put(b"IL");
    match judge(parts) {
        Ok(good) => boot_good(bios, boot, good, ram, out, phase),
        Err(reason) => {
            out.put(b"-\n");
            Err(Stop::Halt(Halt::Refused(reason)))
        }
    }
}

/// Boots by a map that is good.
fn boot_good<D: Disks, I: Source, O: Sink>(
    bios: &mut Bios<'_, D, I>,
    boot: &BootSector,
    good: GoodParts,
    ram: &mut Ram,
    out: &mut Shown<'_, O>,
    phase: &mut Phase,
) -> Result<Started, Stop>
    requires known { IsTable boot.now.names good.table }
    requires line { IsOneSector boot.now.line }
    requires message { IfSome boot.now.message IsOneSector }
    requires begins { phase.old ≡ Phase.Before }
    ensures went { OnDisks D.Disks bios.old.disks.now (λ now machine.
        (model : GoodMap) → IsGood good model
        → WentBy D.Disks I.Source O.Sink result phase.new
        (good_report now machine (boot_view boot.now) (length ram.old) model)
        (bios.old.disks.now, bios.old.keys.now, ram.old, out.old)
        (bios.new.disks.now, bios.new.keys.now, ram.new, out.new)) }
    ensures memory { length ram.new ≡ length ram.old }
    ensures inside { IfOk result (LiesInside (length ram.new)) }
    ensures asks { WritesAndAsks D.Disks I.Source O.Sink (bios.old, out.old) (bios.new, out.new)
        (IsLost result) (IsUnheard result) }
{
    out.put(b"O\n");
    boot_asked(bios, boot, good, ram, out, phase)
}

/// Boots what is chosen at the prompt of a good map.
fn boot_asked<D: Disks, I: Source, O: Sink>(
    bios: &mut Bios<'_, D, I>,
    boot: &BootSector,
    good: GoodParts,
    ram: &mut Ram,
    out: &mut Shown<'_, O>,
    phase: &mut Phase,
) -> Result<Started, Stop>
    requires known { IsTable boot.now.names good.table }
    requires line { IsOneSector boot.now.line }
    requires message { IfSome boot.now.message IsOneSector }
    requires begins { phase.old ≡ Phase.Before }
    ensures went { OnDisks D.Disks bios.old.disks.now (λ now machine.
        (model : GoodMap) → IsGood good model
        → WentBy D.Disks I.Source O.Sink result phase.new
        (asked_report now machine (boot_view boot.now) (length ram.old) model)
        (bios.old.disks.now, bios.old.keys.now, ram.old, out.old)
        (bios.new.disks.now, bios.new.keys.now, ram.new, out.new)) }
    ensures memory { length ram.new ≡ length ram.old }
    ensures inside { IfOk result (LiesInside (length ram.new)) }
    ensures asks { WritesAndAsks D.Disks I.Source O.Sink (bios.old, out.old) (bios.new, out.new)
        (IsLost result) (IsUnheard result) }
{
    let mut prompt = prompt_of(boot, good.choices, &good.line);
    let at = LineAt {
        slot: boot.line,
        line: good.line,
    };
    match ask(bios, &mut prompt, &message_of(boot), out) {
        Ok(()) => unasked(boot_chosen(bios.disks, &good.table, &at, &prompt, ram, out, phase)),
        Err(stop) => {
            out.put(stop_text(stop));
            Err(stop)
        }
    }
}

/// Boots what was chosen at a prompt that is done.
fn boot_chosen<D: Disks, O: Sink>(
    disks: &mut D,
    table: &Table,
    at: &LineAt,
    prompt: &Prompt,
    ram: &mut Ram,
    out: &mut Shown<'_, O>,
    phase: &mut Phase,
) -> Result<Started, Halt>
    requires named { All IsNamed table.now.entries.items }
    requires sectors { All HasSectors table.now.entries.items }
    requires flags { All FitsFlags table.now.entries.items }
    requires slot { HasSector at.now.slot }
    requires begins { phase.old ≡ Phase.Before }
    ensures report { OnDisks D.Disks disks.old (λ now machine. (model : GoodMap)
        → model.line ≡ line_view at.now.line → model.entries ≡ table_view table.now
        → length model.passwords ≡ length model.entries
        → ReportsBy D.Disks O.Sink (decided_report now machine (slot_view at.now.slot) model (length ram.old)
        (line_behind (listed_entries now machine model) model.line (chosen_in prompt.now.state))
        (option_map picked_by (chosen_in prompt.now.state))) result phase.new
        (disks.old, ram.old, out.old) (disks.new, ram.new, out.new)) }
    ensures memory { length ram.new ≡ length ram.old }
    ensures inside { IfOk result (LiesInside (length ram.new)) }
    ensures only { WritesAndShows D.Disks O.Sink (disks.old, out.old) (disks.new, out.new)
        (IsErrOf result Halt.Device) }
{
    match prompt.picked() {
        Some(picked) => {
            let pick = Pick {
                picked,
                words: prompt.words(),
                lock_line: prompt.lock_line(),
            };
            boot_picked(disks, table, at, pick, ram, out, phase)
        }
        None => Err(Halt::Refused(Reason::Idle)),
    }
}

/// Boots the entry of a table that was picked, where there is one.
fn boot_picked<D: Disks, O: Sink>(
    disks: &mut D,
    table: &Table,
    at: &LineAt,
    pick: Pick<'_>,
    ram: &mut Ram,
    out: &mut Shown<'_, O>,
    phase: &mut Phase,
) -> Result<Started, Halt>
    requires named { All IsNamed table.now.entries.items }
    requires sectors { All HasSectors table.now.entries.items }
    requires flags { All FitsFlags table.now.entries.items }
    requires slot { HasSector at.now.slot }
    requires words { length pick.words.now ≤ 470 }
    requires lock_line { length pick.lock_line.now ≤ 470 }
    requires begins { phase.old ≡ Phase.Before }
    ensures report { OnDisks D.Disks disks.old (λ now machine. (new : lines.DefaultLine)
        → IfSome (slice_get table.now.entries.items pick.entry.picked.entry) (λ entry. new ≡ chosen_line now machine
        (descriptor_view entry) (line_view at.now.line) pick.entry.picked.lock pick.entry.lock_line.now)
        → ReportsBy D.Disks O.Sink (picked_report now machine
        (line_write machine (slot_view at.now.slot) (line_view at.now.line) new) (length ram.old)
        (picked_entry (table_view table.now)
        (Some (picked_view pick.entry.picked pick.entry.words.now)))) result phase.new
        (disks.old, ram.old, out.old) (disks.new, ram.new, out.new)) }
    ensures memory { length ram.new ≡ length ram.old }
    ensures inside { IfOk result (LiesInside (length ram.new)) }
    ensures only { WritesAndShows D.Disks O.Sink (disks.old, out.old) (disks.new, out.new)
        (IsErrOf result Halt.Device) }
{
    match table.entries.as_slice().get(usize::from(pick.picked.entry)) {
        Some(entry) => boot_entry(disks, entry, at, pick, ram, out, phase),
        None => Err(Halt::Refused(Reason::Idle)),
    }
}

/// Boots an entry that was picked.
fn boot_entry<D: Disks, O: Sink>(
    disks: &mut D,
    entry: &Descriptor,
    at: &LineAt,
    pick: Pick<'_>,
    ram: &mut Ram,
    out: &mut Shown<'_, O>,
    phase: &mut Phase,
) -> Result<Started, Halt>
    requires named { IsNamed entry.now }
    requires sectors { HasSectors entry.now }
    requires flags { FitsFlags entry.now }
    requires slot { HasSector at.now.slot }
    requires words { length pick.words.now ≤ 470 }
    requires lock_line { length pick.lock_line.now ≤ 470 }
    requires begins { phase.old ≡ Phase.Before }
    ensures report { OnDisks D.Disks disks.old (λ now machine. ReportsBy D.Disks O.Sink
        (texts_report now machine (descriptor_view entry.now) (picked_view pick.entry.picked pick.entry.words.now)
        (line_write machine (slot_view at.now.slot) (line_view at.now.line) (chosen_line now machine
        (descriptor_view entry.now) (line_view at.now.line) pick.entry.picked.lock pick.entry.lock_line.now))
        (length ram.old))
        result phase.new (disks.old, ram.old, out.old) (disks.new, ram.new, out.new)) }
    ensures memory { length ram.new ≡ length ram.old }
    ensures inside { IfOk result (LiesInside (length ram.new)) }
    ensures only { WritesAndShows D.Disks O.Sink (disks.old, out.old) (disks.new, out.new)
        (IsErrOf result Halt.Device) }
{
    match read_texts(disks, entry) {
        Ok(texts) => boot_texts(disks, entry, at, pick, texts, ram, out, phase),
        Err(halt) => {
            out.put(halt_text(halt));
            Err(halt)
        }
    }
}

/// Boots an entry that was picked and whose texts were read, once the default line is written.
fn boot_texts<D: Disks, O: Sink>(
    disks: &mut D,
    entry: &Descriptor,
    at: &LineAt,
    pick: Pick<'_>,
    texts: Texts,
    ram: &mut Ram,
    out: &mut Shown<'_, O>,
    phase: &mut Phase,
) -> Result<Started, Halt>
    requires named { IsNamed entry.now }
    requires sectors { HasSectors entry.now }
    requires flags { FitsFlags entry.now }
    requires slot { HasSector at.now.slot }
    requires words { length pick.words.now ≤ 470 }
    requires lock_line { length pick.lock_line.now ≤ 470 }
    requires middle { length texts.middle.items ≤ 255 }
    requires begins { phase.old ≡ Phase.Before }
    ensures report { OnDisks D.Disks disks.old (λ now machine. ReportsBy D.Disks O.Sink
        (or_device (codes "Error 80\n") (line_report now machine (descriptor_view entry.now)
        (picked_view pick.entry.picked pick.entry.words.now)
        (line_write machine (slot_view at.now.slot) (line_view at.now.line)
        (line_after (line_view at.now.line)
        (locked_line (descriptor_view entry.now) pick.entry.picked.lock pick.entry.lock_line.now)
        (filled_text (Some texts.fallback.items)))) (length ram.old) texts.middle.items))
        result phase.new (disks.old, ram.old, out.old) (disks.new, ram.new, out.new)) }
    ensures memory { length ram.new ≡ length ram.old }
    ensures inside { IfOk result (LiesInside (length ram.new)) }
    ensures only { WritesAndShows D.Disks O.Sink (disks.old, out.old) (disks.new, out.new)
        (IsErrOf result Halt.Device) }
{
    let new = new_line(
        &at.line,
        is_locked(entry, pick.picked.lock),
        pick.lock_line,
        texts.fallback.as_slice(),
    );
    match write_line(disks, at, &new, phase) {
        Ok(()) => boot_line(disks, entry, pick, &texts, ram, out),
        Err(halt) => {
            out.put(halt_text(halt));
            Err(halt)
        }
    }
}

/// Boots an entry that was picked and whose texts were read, with the default line as it is.
fn boot_line<D: Disks, O: Sink>(
    disks: &mut D,
    entry: &Descriptor,
    pick: Pick<'_>,
    texts: &Texts,
    ram: &mut Ram,
    out: &mut Shown<'_, O>,
) -> Result<Started, Halt>
    requires named { IsNamed entry.now }
    requires sectors { HasSectors entry.now }
    requires flags { FitsFlags entry.now }
    requires words { length pick.words.now ≤ 470 }
    requires middle { length texts.now.middle.items ≤ 255 }
    ensures report { ReportsOn D.Disks O.Sink disks.old result (ram.old, out.old) (ram.new, out.new)
        (λ now machine memory. entry_report now machine (descriptor_view entry.now)
        (picked_line (descriptor_view entry.now)
        (picked_view pick.entry.picked pick.entry.words.now) texts.now.middle.items)
        (video_of (descriptor_view entry.now) (picked_view pick.entry.picked pick.entry.words.now)) memory) }
    ensures memory { length ram.new ≡ length ram.old }
    ensures inside { IfOk result (LiesInside (length ram.new)) }
    ensures only { ReadsAndShows D.Disks O.Sink (disks.old, out.old) (disks.new, out.new) (IsErrOf result Halt.Device) }
{
    let line = command_line(
        pick.picked.automatic,
        entry.name.as_slice(),
        texts.middle.as_slice(),
        pick.words,
    );
    start_entry(
        disks,
        entry,
        line.as_slice(),
        video_of(entry, pick.picked.vga),
        ram,
        out,
    )
}

/// Starts an entry with this command line and video mode.
fn start_entry<D: Disks, O: Sink>(
    disks: &mut D,
    entry: &Descriptor,
    line: &[u8],
    video: Option<u16>,
    ram: &mut Ram,
    out: &mut Shown<'_, O>,
) -> Result<Started, Halt>
    requires named { IsNamed entry.now }
    requires sectors { HasSectors entry.now }
    requires flags { FitsFlags entry.now }
    requires line { length line.now ≤ 760 }
    ensures report { ReportsOn D.Disks O.Sink disks.old result (ram.old, out.old) (ram.new, out.new)
        (λ now machine memory. entry_report now machine (descriptor_view entry.now) line.now video memory) }
    ensures memory { length ram.new ≡ length ram.old }
    ensures inside { IfOk result (LiesInside (length ram.new)) }
    ensures only { ReadsAndShows D.Disks O.Sink (disks.old, out.old) (disks.new, out.new) (IsErrOf result Halt.Device) }
{
    out.put(loading_line(entry.name.as_slice()).as_slice());
    match load_entry(disks, ram, entry, line, video) {
        Ok(started) => Ok(started),
        Err(halt) => {
            out.put(halt_text(halt));
            Err(halt)
        }
    }
}

/// The line that reports which entry is loaded.
fn loading_line(name: &[u8]) -> ArrayVec<u8, 32>
    requires { length name.now ≤ 15 }
    ensures { result.items ≡ codes "Loading " ++ (name.now ++ codes "\n") }
{
    let mut line = ArrayVec::new();
    let _ = line.try_extend_from_slice(b"Loading ");
    let _ = line.try_extend_from_slice(name);
    line.push(b'\n');
    line
}

/// The text after what ended the loading of an entry.
fn halt_text(halt: Halt) -> &'static [u8]
    ensures { result.now ≡ halt_text halt }
{
    match halt {
        Halt::Device => b"Error 80\n",
        Halt::Refused(Reason::NotFound) => b"Error 04\n",
        Halt::Refused(_) => b"Error\n",
    }
}

/// The text after what ended the asking.
fn stop_text(stop: Stop) -> &'static [u8]
    ensures { result.now ≡ stop_text stop }
{
    match stop {
        Stop::Keys => b"",
        Stop::Halt(halt) => halt_text(halt),
    }
}

/// The text after what ended the reading of a map.
fn map_text(halt: Halt) -> &'static [u8]
    ensures { result.now ≡ map_text halt }
{
    match halt {
        Halt::Device => b" 80\n",
        Halt::Refused(_) => b" 04\n",
    }
}
