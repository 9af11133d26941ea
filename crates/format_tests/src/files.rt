// Disks over files of which each call is counted, and may be short or fail.
ghost use Rattle.std.specs.Prelude.{◌≤◌, ◌+◌};

use crate::disks::{Answer, Call, FAILED, OUT_OF_RANGE, make};
use disk_trait::{Disks, Geometry};
use file_disks::{FileDisk, FileDisks};
use std::alloc::Global;
use std::cell::Cell;
use std::fs::{Metadata, OpenFile};
use std::io;
use std::io::{ErrorKind, Read, Seek, SeekFrom, Write};

// The room that there is for a file's bytes: 70 sectors.
const ROOM: usize = 35_840;

// What becomes of a file's calls.
#[derive(Clone, Copy)]
struct Plan {
    // How many bytes a call reads or writes at most.
    most: usize,
    // How many seeks, reads and writes are made before all fail.
    granted: u32,
    // Which read fails alone, counted from 1 (0: none).
    refused: u32,
    fault: ErrorKind,
    // Whether the syncs of this file fail, and those of the other.
    syncs_fail: [bool; 2],
}

// The bytes of a file, its plan, and its calls so far.
#[derive(Clone, Copy)]
struct State {
    bytes: [u8; ROOM],
    length: usize,
    plan: Plan,
    syncs_fail: bool,
    seeks: u32,
    reads: u32,
    writes: u32,
    syncs: u32,
}

impl State {
    // Where a call at a place begins and ends that is to move so many bytes.
    fn part(&self, at: usize, len: usize) -> (usize, usize)
        ensures ordered { result.0 ≤ result.1 }
        ensures within { result.1 ≤ 35_840 }
        ensures few { result.1 ≤ result.0 + len }
    {
        let end = self.length.min(ROOM);
        let start = at.min(end);
        let len = len.min(self.plan.most).min(end - start);
        (start, start + len)
    }

    // Whether a call fails, since no more are granted.
    fn refuses(&mut self) -> bool {
        let granted = self.plan.granted;
        self.plan.granted = granted.saturating_sub(1);
        granted == 0
    }
}

// A file that is opened.
#[derive(Drop)]
struct CountedFile<'c> {
    at: usize,
    state: &'c Cell<State>,
}

impl Read for CountedFile<'_> {
    fn read(&mut self, buf: &mut [u8]) -> io::Result<usize> {
        let mut state = self.state.get();
        state.reads = state.reads.saturating_add(1);
        let is_refused = state.plan.refused == 1;
        state.plan.refused = state.plan.refused.saturating_sub(1);
        let fails = state.refuses() || is_refused;
        self.state.set(state);
        if fails {
            return Err(io::Error::from(state.plan.fault));
        }
        let (start, end) = state.part(self.at, buf.len());
        buf[..end - start].copy_from_slice(&state.bytes[start..end]);
        self.at = end;
        Ok(end - start)
    }
}

impl Write for CountedFile<'_> {
    fn write(&mut self, buf: &[u8]) -> io::Result<usize> {
        let mut state = self.state.get();
        state.writes = state.writes.saturating_add(1);
        let fails = state.refuses();
        let (start, end) = state.part(self.at, buf.len());
        if !fails {
            state.bytes[start..end].copy_from_slice(&buf[..end - start]);
            self.at = end;
        }
        self.state.set(state);
        if fails {
            return Err(io::Error::from(state.plan.fault));
        }
        Ok(end - start)
    }

    fn flush(&mut self) -> io::Result<()> {
        Ok(())
    }
}

impl Seek for CountedFile<'_> {
    fn seek(&mut self, to: SeekFrom) -> io::Result<u64> {
        let mut state = self.state.get();
        state.seeks = state.seeks.saturating_add(1);
        let fails = state.refuses();
        self.state.set(state);
        if fails {
            return Err(io::Error::from(state.plan.fault));
        }
        let end = state.length.min(ROOM);
        self.at = match to {
            SeekFrom::Start(at) => at.min(end as u64) as usize,
            SeekFrom::End(0) => end,
            _ => return Err(io::Error::from(ErrorKind::Unsupported)),
        };
        Ok(self.at as u64)
    }
}

impl OpenFile for CountedFile<'_> {
    fn metadata(&self) -> io::Result<Metadata> {
        Err(io::Error::from(ErrorKind::Unsupported))
    }

    fn set_len(&self, _size: u64) -> io::Result<()> {
        Err(io::Error::from(ErrorKind::Unsupported))
    }

    fn sync_all(&self) -> io::Result<()> {
        let mut state = self.state.get();
        state.syncs = state.syncs.saturating_add(1);
        self.state.set(state);
        if state.syncs_fail {
            return Err(io::Error::from(ErrorKind::Other));
        }
        Ok(())
    }

    fn sync_data(&self) -> io::Result<()> {
        Err(io::Error::from(ErrorKind::Unsupported))
    }
}

// A file of so many sectors, at most 69, which hold 1, 2, 3 and so on, and 100 bytes more that aren't part of the disk.
fn file_of(sectors: u8) -> Cell<State> {
    let mut bytes = [0; ROOM];
    for (number, sector) in (1..).zip(bytes.chunks_exact_mut(512)) {
        sector.fill(number);
    }
    Cell::new(State {
        bytes,
        length: usize::from(sectors) * 512 + 100,
        plan: WHOLE,
        syncs_fail: false,
        seeks: 0,
        reads: 0,
        writes: 0,
        syncs: 0,
    })
}

// A disk over a file.
fn counted_disk(state: &Cell<State>) -> Option<FileDisk<CountedFile<'_>>> {
    let geometry = Geometry {
        heads: 1,
        sectors: 4,
    };
    FileDisk::new(CountedFile { at: 0, state }, geometry).ok()
}

// A disk for each of two files.
fn counted_disks<'c>(
    alloc: Global,
    first: &'c Cell<State>,
    second: &'c Cell<State>,
) -> FileDisks<CountedFile<'c>> {
    let mut disks = FileDisks::new(alloc);
    let _ = disks.push(counted_disk(first));
    if disks.count() < 4 {
        let _ = disks.push(counted_disk(second));
    }
    disks
}

// Whole files are moved by one call.
const WHOLE: Plan = Plan {
    most: ROOM,
    granted: u32::MAX,
    refused: 0,
    fault: ErrorKind::Other,
    syncs_fail: [false, false],
};

// A sector takes one call.
const SINGLE: Plan = Plan { most: 512, ..WHOLE };

// A sector takes three calls.
const SHORT: Plan = Plan { most: 200, ..WHOLE };

// Of the calls only so many are made as a test says.
const FAULTY: Plan = Plan {
    granted: 0,
    ..SHORT
};

// No byte is moved.
const STUCK: Plan = Plan { most: 0, ..WHOLE };

const FIRST_UNSYNCED: Plan = Plan {
    syncs_fail: [true, false],
    ..WHOLE
};

const SECOND_UNSYNCED: Plan = Plan {
    syncs_fail: [false, true],
    ..WHOLE
};

const UNSYNCED: Plan = Plan {
    syncs_fail: [true, true],
    ..WHOLE
};

// Seeks, reads and writes of the first file, and syncs of each.
type Counts = Option<[u32; 4]>;

const NO_CALL: Counts = Some([0, 0, 0, 0]);

// They don't matter.
const ANY: Counts = None;

// The plan, a call, what it answers, and the calls of the files.
type Row = (Plan, Call, Answer, Counts);

// Two files, the first of so many sectors, or one that is named twice; how many sectors of it are written first,
// without a call of the file, so that they hold 0xA0; and calls.
#[derive(Clone, Copy)]
struct Scenario {
    sectors: u8,
    named_twice: bool,
    written: u64,
    rows: &'static [Row],
}

fn take_counts(file: &Cell<State>) -> [u32; 4] {
    let mut state = file.get();
    let counts = [state.seeks, state.reads, state.writes, state.syncs];
    state.seeks = 0;
    state.reads = 0;
    state.writes = 0;
    state.syncs = 0;
    file.set(state);
    counts
}

fn plan_calls(file: &Cell<State>, plan: Plan, syncs_fail: bool) {
    let mut state = file.get();
    state.plan = plan;
    state.syncs_fail = syncs_fail;
    file.set(state);
}

// Makes a call.
fn make_on_files(disks: &mut FileDisks<CountedFile<'_>>, call: Call) -> Answer {
    match call {
        Call::WriteOut => disks.write_out().map(|()| 0),
        _ => make(disks, call),
    }
}

// Whether a call is answered as its row says. Where the plan grants no call, so many are granted, and they fail so.
fn is_met(
    disks: &mut FileDisks<CountedFile<'_>>,
    files: [&Cell<State>; 2],
    row: &Row,
    granted: u32,
    fault: ErrorKind,
) -> bool {
    let (mut plan, call, answer, counts) = *row;
    if plan.granted == 0 {
        plan.granted = granted;
    }
    plan.fault = fault;
    let [first, second] = files;
    plan_calls(second, WHOLE, plan.syncs_fail[1]);
    plan_calls(first, plan, plan.syncs_fail[0]);
    let answered = make_on_files(disks, call);
    let others = take_counts(second);
    let found = take_counts(first);
    answered == answer
        && match counts {
            Some(counts) => found == counts && others[3] == counts[3],
            None => true,
        }
}

// Whether so many sectors are written without a call of the file.
fn are_gathered(disks: &mut FileDisks<CountedFile<'_>>, first: &Cell<State>, written: u64) -> bool {
    let _ = take_counts(first);
    for sector in 0..written {
        if make(disks, Call::Write(0, sector, 0xA0)) != Ok(0) {
            return false;
        }
    }
    take_counts(first) == [0, 0, 0, 0]
}

fn are_met(
    disks: &mut FileDisks<CountedFile<'_>>,
    files: [&Cell<State>; 2],
    rows: &[Row],
    granted: u32,
    fault: ErrorKind,
) -> bool {
    for row in rows {
        if !is_met(disks, files, row, granted, fault) {
            return false;
        }
    }
    true
}

fn goes_as_written(alloc: Global, scenario: &Scenario, granted: u32, fault: ErrorKind) -> bool {
    let first = file_of(scenario.sectors);
    let second = file_of(4);
    let other = if scenario.named_twice {
        &first
    } else {
        &second
    };
    let mut disks = counted_disks(alloc, &first, other);
    are_gathered(&mut disks, &first, scenario.written)
        && are_met(&mut disks, [&first, &second], scenario.rows, granted, fault)
}

// Sectors 0 and 1 are written at once, before the other file is read; 1 to 3 are read at once, of which 3 waits to be
// written and is as it was written also once it needn't wait. A sector that was read isn't read again until one is
// written. Where sectors can't be read at once, the one that was asked for is read alone.
const NEIGHBOURS: &[Row] = &[
    (WHOLE, Call::Write(0, 0, 9), Ok(0), NO_CALL),
    (WHOLE, Call::Write(0, 1, 8), Ok(0), NO_CALL),
    (WHOLE, Call::Read(0, 2), Ok(3), Some([1, 1, 0, 0])),
    (WHOLE, Call::Read(1, 1), Ok(2), Some([1, 0, 1, 0])),
    (WHOLE, Call::Flush, Ok(0), Some([0, 0, 0, 1])),
    (WHOLE, Call::Write(0, 3, 7), Ok(0), NO_CALL),
    (WHOLE, Call::Read(0, 3), Ok(7), NO_CALL),
    (WHOLE, Call::Read(0, 4), OUT_OF_RANGE, NO_CALL),
    (WHOLE, Call::Write(0, 4, 1), OUT_OF_RANGE, NO_CALL),
    (WHOLE, Call::Read(0, 0), Ok(9), Some([1, 1, 0, 0])),
    (WHOLE, Call::Read(0, 1), Ok(8), Some([0, 1, 0, 0])),
    (WHOLE, Call::Read(0, 1), Ok(8), NO_CALL),
    (WHOLE, Call::Read(0, 3), Ok(7), NO_CALL),
    (WHOLE, Call::Read(0, 2), Ok(3), NO_CALL),
    (WHOLE, Call::Flush, Ok(0), Some([1, 0, 1, 1])),
    (WHOLE, Call::Read(0, 3), Ok(7), Some([1, 1, 0, 0])),
    (WHOLE, Call::Write(0, 2, 6), Ok(0), NO_CALL),
    (WHOLE, Call::Read(0, 3), Ok(7), Some([1, 1, 0, 0])),
    (WHOLE, Call::Read(0, 2), Ok(6), NO_CALL),
    (WHOLE, Call::Read(0, 3), Ok(7), NO_CALL),
    (WHOLE, Call::Write(0, 3, 5), Ok(0), NO_CALL),
    (WHOLE, Call::Read(0, 3), Ok(5), NO_CALL),
    (WHOLE, Call::Read(0, 1), Ok(8), Some([1, 1, 0, 0])),
    (WHOLE, Call::Read(0, 3), Ok(5), NO_CALL),
    (SINGLE, Call::Write(0, 3, 5), Ok(0), NO_CALL),
    (SINGLE, Call::Read(0, 0), Ok(9), Some([1, 1, 0, 0])),
    (
        Plan {
            refused: 1,
            ..SINGLE
        },
        Call::Read(0, 1),
        Ok(8),
        Some([1, 2, 0, 0]),
    ),
    (SINGLE, Call::Read(0, 1), Ok(8), NO_CALL),
    (SINGLE, Call::Write(0, 3, 5), Ok(0), NO_CALL),
    (SINGLE, Call::Read(0, 0), Ok(9), Some([1, 1, 0, 0])),
    (
        Plan {
            refused: 2,
            ..SINGLE
        },
        Call::Read(0, 1),
        Ok(8),
        Some([1, 3, 0, 0]),
    ),
    (SINGLE, Call::Read(0, 1), Ok(8), NO_CALL),
];

// Sectors 1 to 3 are read at once by one name, and one of them is written by the other name, and then by both.
const NAMED_TWICE: &[Row] = &[
    (WHOLE, Call::Write(1, 2, 3), Ok(0), NO_CALL),
    (WHOLE, Call::Read(0, 0), Ok(1), Some([2, 1, 1, 0])),
    (WHOLE, Call::Read(0, 1), Ok(2), Some([0, 1, 0, 0])),
    (WHOLE, Call::Read(0, 2), Ok(3), NO_CALL),
    (WHOLE, Call::Write(1, 2, 9), Ok(0), NO_CALL),
    (WHOLE, Call::Read(0, 2), Ok(9), Some([2, 1, 1, 0])),
    (WHOLE, Call::Write(0, 2, 8), Ok(0), NO_CALL),
    (WHOLE, Call::Write(1, 2, 7), Ok(0), Some([1, 0, 1, 0])),
    (WHOLE, Call::Read(0, 2), Ok(7), Some([2, 1, 1, 0])),
    (WHOLE, Call::Write(0, 2, 3), Ok(0), NO_CALL),
    (WHOLE, Call::Read(1, 0), Ok(1), Some([2, 1, 1, 0])),
    (WHOLE, Call::Read(1, 1), Ok(2), Some([0, 1, 0, 0])),
    (WHOLE, Call::Read(1, 2), Ok(3), NO_CALL),
    (WHOLE, Call::Write(0, 2, 9), Ok(0), NO_CALL),
    (WHOLE, Call::Read(1, 2), Ok(9), Some([2, 1, 1, 0])),
    (WHOLE, Call::Write(1, 2, 8), Ok(0), NO_CALL),
    (WHOLE, Call::Write(0, 2, 7), Ok(0), Some([1, 0, 1, 0])),
    (WHOLE, Call::Read(1, 2), Ok(7), Some([2, 1, 1, 0])),
];

// A seek and three parts: any of the four may fail, and then the place is sought anew. A sector that can't be written
// fails what may only come after it, and is written once the file takes it.
const FAILING: &[Row] = &[
    (SHORT, Call::Read(0, 0), Ok(1), Some([1, 3, 0, 0])),
    (FAULTY, Call::Read(0, 3), FAILED, ANY),
    (SHORT, Call::Read(0, 1), Ok(2), ANY),
    (SHORT, Call::Write(0, 3, 5), Ok(0), NO_CALL),
    (FAULTY, Call::Write(0, 0, 9), FAILED, ANY),
    (FAULTY, Call::Write(1, 0, 9), FAILED, ANY),
    (FAULTY, Call::Read(1, 0), FAILED, ANY),
    (FAULTY, Call::Flush, FAILED, ANY),
    (SHORT, Call::Read(0, 0), Ok(1), ANY),
    (SHORT, Call::Read(0, 3), Ok(5), NO_CALL),
    (SHORT, Call::Flush, Ok(0), Some([1, 0, 3, 1])),
    (SHORT, Call::Read(0, 3), Ok(5), Some([1, 3, 0, 0])),
];

// A file that takes nothing seems to end within each sector, and what it doesn't take fails the other disk's calls too.
// Once it takes what was kept, the write that was refused isn't made.
const TAKING_NOTHING: &[Row] = &[
    (STUCK, Call::Read(0, 1), FAILED, ANY),
    (STUCK, Call::Write(0, 1, 6), Ok(0), NO_CALL),
    (STUCK, Call::Read(0, 1), Ok(6), NO_CALL),
    (STUCK, Call::Read(0, 2), FAILED, ANY),
    (STUCK, Call::Read(1, 1), FAILED, ANY),
    (STUCK, Call::Write(1, 1, 7), FAILED, ANY),
    (STUCK, Call::Flush, FAILED, ANY),
    (STUCK, Call::WriteOut, FAILED, ANY),
    (SINGLE, Call::WriteOut, Ok(0), Some([1, 0, 1, 0])),
    (SINGLE, Call::Read(0, 1), Ok(6), ANY),
    (SINGLE, Call::Read(1, 1), Ok(2), NO_CALL),
];

// After 64 sectors there is room for no other. A sector may be written again while it waits, and all that wait are
// written at once, here without a seek. The one before those that wait, or the second after them, has no place with
// them. What is written out isn't synced.
const GATHERED: &[Row] = &[
    (WHOLE, Call::Write(0, 64, 0xA0), Ok(0), Some([1, 0, 1, 0])),
    (WHOLE, Call::Write(0, 65, 0xA0), Ok(0), NO_CALL),
    (WHOLE, Call::Write(0, 66, 0xA0), Ok(0), NO_CALL),
    (WHOLE, Call::Write(0, 67, 0xA0), Ok(0), NO_CALL),
    (WHOLE, Call::Write(0, 65, 0xB0), Ok(0), NO_CALL),
    (WHOLE, Call::Read(0, 65), Ok(0xB0), NO_CALL),
    (WHOLE, Call::Flush, Ok(0), Some([0, 0, 1, 1])),
    (WHOLE, Call::Flush, Ok(0), NO_CALL),
    (WHOLE, Call::Write(0, 9, 0xB1), Ok(0), NO_CALL),
    (WHOLE, Call::Write(0, 8, 0xB2), Ok(0), Some([1, 0, 1, 0])),
    (WHOLE, Call::Write(0, 10, 0xB3), Ok(0), Some([1, 0, 1, 0])),
    (WHOLE, Call::WriteOut, Ok(0), Some([1, 0, 1, 0])),
    (WHOLE, Call::Read(0, 0), Ok(0xA0), Some([1, 1, 0, 0])),
    (WHOLE, Call::Read(0, 7), Ok(0xA0), Some([1, 1, 0, 0])),
    (WHOLE, Call::Read(0, 8), Ok(0xB2), Some([0, 1, 0, 0])),
    (WHOLE, Call::Read(0, 9), Ok(0xB1), NO_CALL),
    (WHOLE, Call::Read(0, 10), Ok(0xB3), NO_CALL),
    (WHOLE, Call::Read(0, 11), Ok(0xA0), NO_CALL),
    (WHOLE, Call::Read(0, 63), Ok(0xA0), Some([1, 1, 0, 0])),
    (WHOLE, Call::Read(0, 64), Ok(0xA0), Some([0, 1, 0, 0])),
    (WHOLE, Call::Read(0, 65), Ok(0xB0), NO_CALL),
    (WHOLE, Call::Read(0, 67), Ok(0xA0), NO_CALL),
    (WHOLE, Call::Read(0, 68), Ok(69), NO_CALL),
];

// Each file is synced, also after one that failed or doesn't take what it should, and also where what was written came
// to its file before: by a read of the other disk, or by `write_out`. Where nothing was written, or nothing since all
// were synced, none is.
const SYNCED: &[Row] = &[
    (UNSYNCED, Call::Flush, Ok(0), NO_CALL),
    (WHOLE, Call::Write(1, 0, 6), Ok(0), NO_CALL),
    (FIRST_UNSYNCED, Call::Flush, FAILED, Some([0, 0, 0, 1])),
    (SECOND_UNSYNCED, Call::Flush, FAILED, Some([0, 0, 0, 1])),
    (UNSYNCED, Call::Flush, FAILED, Some([0, 0, 0, 1])),
    (WHOLE, Call::Flush, Ok(0), Some([0, 0, 0, 1])),
    (UNSYNCED, Call::Flush, Ok(0), NO_CALL),
    (WHOLE, Call::Write(1, 0, 6), Ok(0), NO_CALL),
    (FIRST_UNSYNCED, Call::Flush, FAILED, Some([0, 0, 0, 1])),
    (WHOLE, Call::Flush, Ok(0), Some([0, 0, 0, 1])),
    (WHOLE, Call::Write(1, 0, 6), Ok(0), NO_CALL),
    (WHOLE, Call::Flush, Ok(0), Some([0, 0, 0, 1])),
    (WHOLE, Call::Flush, Ok(0), NO_CALL),
    (WHOLE, Call::Write(0, 0, 7), Ok(0), NO_CALL),
    (FAULTY, Call::Flush, FAILED, Some([1, 0, 0, 1])),
    (WHOLE, Call::Flush, Ok(0), Some([1, 0, 1, 1])),
    (WHOLE, Call::Write(0, 0, 8), Ok(0), NO_CALL),
    (WHOLE, Call::Read(1, 1), Ok(2), Some([1, 0, 1, 0])),
    (WHOLE, Call::Flush, Ok(0), Some([0, 0, 0, 1])),
    (WHOLE, Call::Write(0, 0, 9), Ok(0), NO_CALL),
    (WHOLE, Call::WriteOut, Ok(0), Some([1, 0, 1, 0])),
    (WHOLE, Call::Flush, Ok(0), Some([0, 0, 0, 1])),
    (WHOLE, Call::Flush, Ok(0), NO_CALL),
    (WHOLE, Call::Write(0, 0, 8), Ok(0), NO_CALL),
    (WHOLE, Call::WriteOut, Ok(0), Some([1, 0, 1, 0])),
    (WHOLE, Call::Read(0, 2), Ok(3), Some([1, 1, 0, 0])),
    (WHOLE, Call::Flush, Ok(0), Some([0, 0, 0, 1])),
];

const USUAL: Scenario = Scenario {
    sectors: 4,
    named_twice: false,
    written: 0,
    rows: NEIGHBOURS,
};

const SCENARIOS: &[Scenario] = &[
    USUAL,
    Scenario {
        rows: NAMED_TWICE,
        named_twice: true,
        ..USUAL
    },
    Scenario {
        rows: TAKING_NOTHING,
        ..USUAL
    },
    Scenario {
        rows: GATHERED,
        sectors: 69,
        written: 64,
        ..USUAL
    },
    Scenario {
        rows: SYNCED,
        ..USUAL
    },
];

const FAULTED: Scenario = Scenario {
    rows: FAILING,
    ..USUAL
};

// How many calls are made before all fail, and how they fail.
const FAULTS: &[(u32, ErrorKind)] = &[
    (0, ErrorKind::Other),
    (1, ErrorKind::Other),
    (2, ErrorKind::Other),
    (3, ErrorKind::Other),
    (0, ErrorKind::Interrupted),
    (1, ErrorKind::Interrupted),
    (2, ErrorKind::Interrupted),
    (3, ErrorKind::Interrupted),
];

#[test]
fn files_are_called_where_they_must_be(rt: HostRuntime) {
    for scenario in SCENARIOS {
        assert!(rt; goes_as_written(rt.alloc(), scenario, 0, ErrorKind::Other));
    }
    for (granted, fault) in FAULTS {
        assert!(rt; goes_as_written(rt.alloc(), &FAULTED, *granted, *fault));
    }
}
