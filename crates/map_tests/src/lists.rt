// Slots of lists of sectors, and what is counted of them.
ghost use Rattle.std.specs.Prelude.{◌<◌, ◌≤◌, ◌^◌, All, IfOk, length};
ghost use Rattle.slot_lists.specs.Runs.{IsRun, places_in};

use conf_settings::Opt;
use disk_trait::Geometry;
use map_plan::{PlanFault, check_map_places, check_mapped_file};
use map_section::{Ask, SectionFault, SectionReader, section_sectors, write_section};
use run_sections::{Naming, count_slots, write_section_at};
use sector_address::{Address, AddressFault, Mode, Slot};
use sector_parts::{Sector, put_part};
use slot_lists::{
    CompactFault, DiskSector, Run, RunList, SlotCursor, check_places, compact, plain_slots,
};
use std::alloc::{AllocError, Global};
use std::test::Fail;

// The first disk has 16 heads and 63 sectors per track.
const GEOMETRY: Geometry = Geometry {
    heads: 16,
    sectors: 63,
};

// Numbers of sectors of the first disk, and their slots, of one sector each or joined; or the first of them without
// one.
struct List {
    numbers: &'static [u64],
    mode: Mode,
    is_joined: bool,
    slots: Result<&'static [u8], AddressFault>,
}

const LISTS: &[List] = &[
    List {
        numbers: &[],
        mode: Mode::Chs,
        is_joined: true,
        slots: Ok(b""),
    },
    // The last sector of head 1 and the first of head 2: a slot by cylinder, head and sector stays on its track, and
    // one by number doesn't.
    List {
        numbers: &[125, 126],
        mode: Mode::Chs,
        is_joined: true,
        slots: Ok(b"\x01\x80\x01\0\x3F\0\x01\0\x01\x80\x01\0\x01\0\x02\0"),
    },
    List {
        numbers: &[125, 126],
        mode: Mode::Linear,
        is_joined: true,
        slots: Ok(b"\x02\x80\x02\0\x7D\0\0\0"),
    },
    // Three sectors of a track, one apart from them, and that one again.
    List {
        numbers: &[82, 83, 84, 86, 86],
        mode: Mode::Chs,
        is_joined: true,
        slots: Ok(
            b"\x01\x80\x03\0\x14\0\x01\0\x01\x80\x01\0\x18\0\x01\0\x01\x80\x01\0\x18\0\x01\0",
        ),
    },
    List {
        numbers: &[82, 83, 84, 86, 86],
        mode: Mode::Lba32,
        is_joined: false,
        slots: Ok(
            b"\x03\x80\x01\0\x52\0\0\0\x03\x80\x01\0\x53\0\0\0\x03\x80\x01\0\x54\0\0\0\x03\x80\x01\0\x56\0\0\0\x03\x80\x01\0\x56\0\0\0",
        ),
    },
    // Cylinder 1024 begins at sector 1,032,192; a number takes 32 bits at most.
    List {
        numbers: &[82, 4_294_967_296, 1_032_192],
        mode: Mode::Lba32,
        is_joined: true,
        slots: Err(AddressFault::TooFar(4_294_967_296)),
    },
    List {
        numbers: &[82, 1_032_192, 4_294_967_296],
        mode: Mode::Chs,
        is_joined: false,
        slots: Err(AddressFault::Cylinder(1024)),
    },
    List {
        numbers: &[1_032_191, 4_294_967_295],
        mode: Mode::Lba32,
        is_joined: false,
        slots: Ok(b"\x03\x80\x01\0\xFF\xBF\x0F\0\x03\x80\x01\0\xFF\xFF\xFF\xFF"),
    },
    List {
        numbers: &[1_032_191, 4_294_967_295],
        mode: Mode::Linear,
        is_joined: false,
        slots: Err(AddressFault::Cylinder(4_260_880)),
    },
];

#[test]
fn lists_have_slots(rt: HostRuntime) -> Result<(), Fail> {
    for (at, row) in LISTS.iter().enumerate() {
        assert!(rt; has_slots(rt.alloc(), row)?, "{at}");
    }
    Ok(())
}

fn has_slots(alloc: Global, row: &List) -> Result<bool, AllocError> {
    let places = places_of(alloc, row.numbers)?;
    Ok(match row.slots {
        Ok(bytes) => are_made(alloc, &places, row, bytes),
        Err(fault) => are_refused(alloc, &places, row, fault),
    })
}

fn are_made(alloc: Global, places: &[DiskSector], row: &List, bytes: &[u8]) -> bool
    requires { All (λ place. place.disk ≤ 3) places.now }
{
    let is_made = match section_of(alloc, places, row) {
        Ok(sector) => begins(&sector, bytes),
        Err(_) => false,
    };
    is_made
        && check_places(places, row.mode, GEOMETRY).is_ok()
        && check_map_places(row.mode, GEOMETRY, places).is_ok()
}

fn are_refused(alloc: Global, places: &[DiskSector], row: &List, fault: AddressFault) -> bool
    requires { All (λ place. place.disk ≤ 3) places.now }
{
    let in_map = check_map_places(row.mode, GEOMETRY, places);
    matches!(in_map, Err(PlanFault::Address(Opt::Map, found)) if found == fault)
        && check_places(places, row.mode, GEOMETRY) == Err(fault)
        && section_of(alloc, places, row).err() == Some(CompactFault::Address(fault))
}

// Whether a sector has these bytes, and zeros after them.
fn begins(sector: &Sector, bytes: &[u8]) -> bool {
    let len = bytes.len();
    len <= 512 && &sector[..len] == bytes && sector[len..].iter().all(|byte| *byte == 0)
}

fn places_of(alloc: Global, numbers: &[u64]) -> Result<Vec<DiskSector>, AllocError>
    ensures { IfOk result (λ places. All (λ place. place.disk ≤ 3) places.items) }
{
    let mut places = Vec::new(alloc);
    for number in numbers {
        places.push(DiskSector {
            disk: 0,
            sector: *number,
        })?;
    }
    Ok(places)
}

// A section sector with the slots of a row.
fn section_of(alloc: Global, places: &[DiskSector], row: &List) -> Result<Sector, CompactFault>
    requires { All (λ place. place.disk ≤ 3) places.now }
{
    let slots = if row.is_joined {
        compact(alloc, places, row.mode, GEOMETRY)?
    } else {
        plain_slots(alloc, places, row.mode, GEOMETRY)?
    };
    let mut sector = [5; 512];
    if slots.len() <= 63 {
        write_section(slots.as_slice(), None, &mut sector);
    }
    Ok(sector)
}

// Sectors in a row of the first disk, from a number on: how many slots they have, and a section sector of these.
struct Stretch {
    start: u32,
    count: u32,
    mode: Mode,
    is_joined: bool,
    slots: Result<u32, AddressFault>,
    index: u32,
    bytes: &'static [u8],
}

const STRETCHES: &[Stretch] = &[
    // 63 slots of 127 sectors each fill a section sector, and the one after it has what is left.
    Stretch {
        start: 1000,
        count: 8003,
        mode: Mode::Lba32,
        is_joined: true,
        slots: Ok(64),
        index: 1,
        bytes: b"\x03\x80\x02\0\x29\x23",
    },
    Stretch {
        start: 1000,
        count: 64,
        mode: Mode::Lba32,
        is_joined: false,
        slots: Ok(64),
        index: 1,
        bytes: b"\x03\x80\x01\0\x27\x04",
    },
    Stretch {
        start: 1000,
        count: 64,
        mode: Mode::Lba32,
        is_joined: false,
        slots: Ok(64),
        index: 2,
        bytes: b"",
    },
    // 1024 cylinders of 16 heads and 63 sectors end before sector 1,032,192.
    Stretch {
        start: 1_032_190,
        count: 3,
        mode: Mode::Lba32,
        is_joined: false,
        slots: Ok(3),
        index: 1,
        bytes: b"",
    },
    Stretch {
        start: 1_032_190,
        count: 3,
        mode: Mode::Chs,
        is_joined: false,
        slots: Err(AddressFault::Cylinder(1024)),
        index: 0,
        bytes: b"",
    },
    Stretch {
        start: 1_032_190,
        count: 3,
        mode: Mode::Linear,
        is_joined: true,
        slots: Err(AddressFault::Cylinder(1024)),
        index: 0,
        bytes: b"",
    },
];

#[test]
fn stretches_have_sections(rt: HostRuntime) -> Result<(), Fail> {
    for row in STRETCHES {
        let runs = in_a_row(rt.alloc(), row.start, row.count)?;
        assert!(rt; has_section(&runs, row), "{}", row.start);
    }
    Ok(())
}

fn in_a_row(alloc: Global, start: u32, count: u32) -> Result<RunList, AllocError>
    ensures runs { IfOk result (λ runs. All IsRun runs) }
    ensures few { IfOk result (λ runs. length (places_in runs) < 2 ^ 32) }
{
    let mut runs = Vec::new(alloc);
    runs.push(Run::Stretch {
        disk: 0,
        start: u64::from(start),
        count,
    })?;
    Ok(RunList::new(runs))
}

fn has_section(runs: &RunList, row: &Stretch) -> bool
    requires runs { All IsRun runs.now }
    requires few { length (places_in runs.now) < 2 ^ 32 }
{
    let naming = Naming {
        mode: row.mode,
        geometry: GEOMETRY,
        compact: row.is_joined,
    };
    if count_slots(naming, runs) != row.slots {
        return false;
    }
    if row.slots.is_err() {
        return true;
    }
    let zero = DiskSector { disk: 0, sector: 7 };
    let mut sector: Sector = [9; 512];
    write_section_at(naming, runs, zero, row.index, None, &mut sector);
    begins(&sector, row.bytes)
}

// 65,535 section sectors of 63 slots have 4,128,705.
#[test]
fn a_file_has_4128705_slots_at_most(rt: HostRuntime) -> Result<(), Fail> {
    assert!(rt; refused_slots(rt.alloc(), 4_128_705)?.is_none());
    assert!(rt; refused_slots(rt.alloc(), 4_128_706)? == Some(4_128_706));
    Ok(())
}

// How many slots a hole of so many sectors has, where they are too many.
fn refused_slots(alloc: Global, count: u32) -> Result<Option<u32>, AllocError> {
    let runs = hole(alloc, count)?;
    let naming = Naming {
        mode: Mode::Lba32,
        geometry: GEOMETRY,
        compact: true,
    };
    Ok(match check_mapped_file(naming, Opt::Initrd, &runs) {
        Err(PlanFault::TooManySlots(Opt::Initrd, found)) => Some(found),
        _ => None,
    })
}

fn hole(alloc: Global, count: u32) -> Result<RunList, AllocError>
    ensures runs { IfOk result (λ runs. All IsRun runs) }
    ensures few { IfOk result (λ runs. length (places_in runs) < 2 ^ 32) }
{
    let mut runs = Vec::new(alloc);
    runs.push(Run::Hole { count })?;
    Ok(RunList::new(runs))
}

#[test]
fn slots_take_section_sectors(rt: HostRuntime) {
    for (slots, sectors) in [(0, 0), (63, 1), (64, 2), (u32::MAX, 68_174_085)] {
        assert!(rt; section_sectors(slots) == sectors);
    }
}

// Sectors from a number on, two in a hole, and others; how their slots are made, and those that a cursor answers when
// it is asked for each, by their counts and numbers; then what it refuses once. The zero sector is 98.
struct Asked {
    starts: [u32; 2],
    counts: [u32; 2],
    is_linear: bool,
    is_joined: bool,
    slots: &'static [(u8, u32)],
    refused: Option<AddressFault>,
}

const ASKED: &[Asked] = &[
    Asked {
        starts: [82, 99],
        counts: [3, 2],
        is_linear: false,
        is_joined: false,
        slots: &[
            (1, 82),
            (1, 83),
            (1, 84),
            (1, 98),
            (1, 98),
            (1, 99),
            (1, 100),
        ],
        refused: None,
    },
    // Of the two in the hole the second is joined with its neighbours.
    Asked {
        starts: [82, 99],
        counts: [3, 2],
        is_linear: false,
        is_joined: true,
        slots: &[(3, 82), (1, 98), (3, 98)],
        refused: None,
    },
    // The last sector of the last cylinder, and the next one.
    Asked {
        starts: [1_032_191, 99],
        counts: [2, 5],
        is_linear: true,
        is_joined: true,
        slots: &[(1, 1_032_191)],
        refused: Some(AddressFault::Cylinder(1024)),
    },
    // No sectors but those of the hole.
    Asked {
        starts: [7, 7],
        counts: [0, 0],
        is_linear: false,
        is_joined: false,
        slots: &[(1, 98), (1, 98)],
        refused: None,
    },
];

fn slot_of(is_linear: bool, count: u8, sector: u32) -> Slot {
    let address = if is_linear {
        Address::Linear(sector)
    } else {
        Address::Lba32(sector)
    };
    Slot {
        disk: 0,
        count,
        address,
    }
}

fn three_runs(
    alloc: Global,
    start: u32,
    count: u32,
    next: u32,
    rest: u32,
) -> Result<RunList, AllocError>
    ensures runs { IfOk result (λ runs. All IsRun runs) }
{
    let mut runs = Vec::new(alloc);
    runs.push(Run::Stretch {
        disk: 0,
        start: u64::from(start),
        count,
    })?;
    runs.push(Run::Hole { count: 2 })?;
    runs.push(Run::Stretch {
        disk: 0,
        start: u64::from(next),
        count: rest,
    })?;
    Ok(RunList::new(runs))
}

fn is_answered(alloc: Global, row: &Asked) -> bool {
    let [start, next] = row.starts;
    let [count, rest] = row.counts;
    match three_runs(alloc, start, count, next, rest) {
        Ok(runs) => is_gone_along(&runs, row),
        Err(_) => false,
    }
}

fn is_gone_along(runs: &RunList, row: &Asked) -> bool
    requires { All IsRun runs.now }
{
    let mode = if row.is_linear {
        Mode::Linear
    } else {
        Mode::Lba32
    };
    let mut cursor = SlotCursor::new(mode, GEOMETRY, row.is_joined);
    for (count, sector) in row.slots {
        if cursor.next(runs, 0, 98) != Ok(Some(slot_of(row.is_linear, *count, *sector))) {
            return false;
        }
    }
    let refuses = match row.refused {
        Some(fault) => cursor.next(runs, 0, 98) == Err(fault),
        None => true,
    };
    refuses && cursor.next(runs, 0, 98) == Ok(None) && cursor.next(runs, 0, 98) == Ok(None)
}

// A file of so many sectors, the most section sectors, and whether the first of them is asked for; its bytes, the slots
// that a reader answers then, by their counts and numbers, and what it answers from then on.
struct Read {
    sectors: u32,
    chain: u16,
    is_fed: bool,
    bytes: &'static [u8],
    slots: &'static [(u8, u32)],
    end: Result<Ask, SectionFault>,
}

const READ: &[Read] = &[
    // The last slot has nine sectors, of which one is needed.
    Read {
        sectors: 130,
        chain: 1,
        is_fed: true,
        bytes: b"\x03\x80\x7F\0\x5E\0\0\0\x03\x80\x02\0\x07\0\0\0\x03\x80\x09\0\x01\x01\0\0",
        slots: &[(127, 94), (2, 7), (9, 257)],
        end: Ok(Ask::Done),
    },
    Read {
        sectors: 2,
        chain: 1,
        is_fed: true,
        bytes: b"\x03\x80\x01\0\x05\0\0\0\x03\x80\x80\0\x06\0\0\0",
        slots: &[(1, 5)],
        end: Err(SectionFault::BadSlot(1)),
    },
    Read {
        sectors: 1,
        chain: 2,
        is_fed: true,
        bytes: b"",
        slots: &[],
        end: Err(SectionFault::ShortChain(0)),
    },
    // Nothing to read, and nowhere to read it.
    Read {
        sectors: 0,
        chain: 0,
        is_fed: false,
        bytes: b"",
        slots: &[],
        end: Ok(Ask::Done),
    },
    Read {
        sectors: 0,
        chain: 3,
        is_fed: false,
        bytes: b"",
        slots: &[],
        end: Ok(Ask::Done),
    },
    Read {
        sectors: 1,
        chain: 0,
        is_fed: false,
        bytes: b"",
        slots: &[],
        end: Err(SectionFault::ChainTooLong(0)),
    },
];

fn is_read(row: &Read) -> bool {
    let mut sector = [0; 512];
    if row.bytes.len() <= 512 {
        put_part(&mut sector, 0, row.bytes);
    }
    let mut reader = SectionReader::new(row.sectors, row.chain);
    if row.is_fed && !is_asked(&mut reader, &sector) {
        return false;
    }
    for (count, sector) in row.slots {
        if reader.next() != Ok(Ask::Slot(slot_of(false, *count, *sector))) {
            return false;
        }
    }
    reader.next() == row.end && reader.next() == row.end
}

// Feeds a reader that asks for the first section sector, and says whether it does.
fn is_asked(reader: &mut SectionReader, sector: &Sector) -> bool {
    match reader.next() {
        Ok(Ask::First) => {
            reader.feed(sector);
            true
        }
        _ => false,
    }
}

#[test]
fn cursors_and_readers_answer_past_their_end(rt: HostRuntime) {
    for (at, row) in ASKED.iter().enumerate() {
        assert!(rt; is_answered(rt.alloc(), row), "{at}");
    }
    for (at, row) in READ.iter().enumerate() {
        assert!(rt; is_read(row), "{at}");
    }
}
