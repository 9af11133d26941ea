use disk_trait::{DiskFault, Disks, Failing, Geometry, MemDisk, MemDisks};
use std::alloc::{AllocError, Global};
use test_disks::image_left;

// A call, and for a write the byte that fills the sector.
#[derive(Clone, Copy)]
pub(crate) enum Call {
    Read(u8, u64),
    Write(u8, u64, u8),
    Flush,
    // Files are to take what was gathered; other disks gather nothing.
    WriteOut,
}

pub(crate) type Answer = Result<u8, DiskFault>;

pub(crate) const FAILED: Answer = Err(DiskFault::Failed);

pub(crate) const OUT_OF_RANGE: Answer = Err(DiskFault::OutOfRange);

// Makes a call, and gives the byte that fills the sector that was read, or else 0.
pub(crate) fn make<D: Disks>(disks: &mut D, call: Call) -> Answer {
    let mut bytes = [0xEE; 512];
    match call {
        Call::Read(disk, sector) => disks.read(disk, sector, &mut bytes)?,
        Call::Write(disk, sector, byte) => {
            disks.write(disk, sector, &[byte; 512])?;
            return Ok(0);
        }
        Call::Flush => {
            disks.flush()?;
            return Ok(0);
        }
        Call::WriteOut => return Ok(0),
    }
    Ok(if bytes == [bytes[0]; 512] {
        bytes[0]
    } else {
        0xEE
    })
}

// Calls on two disks with room for 10 events, what each answers, and how many events there are then.
const RUN: &[(Call, Answer, u32)] = &[
    (Call::Write(0, 0, 1), Ok(0), 1),
    (Call::Write(0, 3, 2), Ok(0), 2),
    // The calls 2 to 6 fail, and of the writes among them the first is made. A call out of range isn't counted.
    (Call::Write(0, 0, 3), FAILED, 3),
    (Call::Flush, FAILED, 3),
    (Call::Write(1, 2, 9), OUT_OF_RANGE, 3),
    (Call::Read(1, 2), OUT_OF_RANGE, 3),
    (Call::Write(1, 1, 9), FAILED, 3),
    (Call::Read(0, 0), FAILED, 3),
    (Call::Read(0, 0), Ok(3), 3),
    (Call::Write(1, 1, 4), Ok(0), 4),
    (Call::Flush, Ok(0), 5),
    (Call::Write(0, 0, 5), Ok(0), 6),
    (Call::Write(0, 0, 6), Ok(0), 7),
    (Call::Flush, Ok(0), 8),
    (Call::Write(1, 1, 7), Ok(0), 9),
    (Call::Write(0, 3, 8), Ok(0), 10),
    // Now the room is used up.
    (Call::Write(0, 0, 9), FAILED, 10),
    (Call::Flush, FAILED, 10),
    (Call::Read(0, 0), Ok(6), 10),
    (Call::Read(0, 1), Ok(0), 10),
];

fn failing(call: u64, made: bool) -> Failing {
    Failing { call, made }
}

// Two disks of 4 and 2 sectors.
fn two_disks(alloc: Global) -> Result<MemDisks, AllocError> {
    let geometry = Geometry {
        heads: 2,
        sectors: 9,
    };
    let disks = [4, 2].map(|sectors| MemDisk { sectors, geometry });
    let failing = [
        failing(2, true),
        failing(3, false),
        failing(4, false),
        failing(5, false),
    ];
    MemDisks::new(alloc, &disks, 10, &failing)
}

fn are_answered(disks: &mut MemDisks) -> bool {
    for (call, answer, events) in RUN {
        if make(disks, *call) != *answer || disks.events() != *events {
            return false;
        }
    }
    true
}

fn byte_at(disks: &mut MemDisks, place: (u8, u64)) -> u8 {
    make(disks, Call::Read(place.0, place.1)).unwrap_or(0xFF)
}

fn bytes_at(disks: &mut MemDisks, places: [(u8, u64); 3]) -> [u8; 3] {
    let [first, second, third] = places;
    [
        byte_at(disks, first),
        byte_at(disks, second),
        byte_at(disks, third),
    ]
}

// What a stop may leave of three sectors after so many events: of the writes since the last flush those are made whose
// bits are set in the choice, the first by the lowest bit.
pub(crate) fn left(
    alloc: Global,
    disks: &MemDisks,
    events: u32,
    choice: u32,
    places: [(u8, u64); 3],
) -> [u8; 3] {
    if events > disks.events() {
        return [0xFF; 3];
    }
    match image_left(alloc, disks, events, choice) {
        Ok(mut image) => bytes_at(&mut image, places),
        Err(_) => [0xFF; 3],
    }
}

const PLACES: [(u8, u64); 3] = [(0, 0), (0, 3), (1, 1)];

// How many events there were, how many writes there are then since the last flush, and what the three sectors that are
// written hold where none of them is made, where all are, and where every second one is.
const LEFT: &[(u32, u32, [[u8; 3]; 3])] = &[
    (0, 0, [[0, 0, 0], [0, 0, 0], [0, 0, 0]]),
    (1, 1, [[0, 0, 0], [1, 0, 0], [0, 0, 0]]),
    (2, 2, [[0, 0, 0], [1, 2, 0], [0, 2, 0]]),
    (3, 3, [[0, 0, 0], [3, 2, 0], [0, 2, 0]]),
    (4, 4, [[0, 0, 0], [3, 2, 4], [0, 2, 4]]),
    (5, 0, [[3, 2, 4], [3, 2, 4], [3, 2, 4]]),
    (6, 1, [[3, 2, 4], [5, 2, 4], [3, 2, 4]]),
    (7, 2, [[3, 2, 4], [6, 2, 4], [6, 2, 4]]),
    (8, 0, [[6, 2, 4], [6, 2, 4], [6, 2, 4]]),
    (9, 1, [[6, 2, 4], [6, 2, 7], [6, 2, 4]]),
    (10, 2, [[6, 2, 4], [6, 8, 7], [6, 8, 4]]),
];

// Whether a stop after so many events leaves these images.
fn is_left(
    alloc: Global,
    disks: &MemDisks,
    events: u32,
    unflushed: u32,
    images: &[[u8; 3]; 3],
) -> bool {
    events <= disks.events()
        && disks.unflushed(events) == unflushed
        && left(alloc, disks, events, 0, PLACES) == images[0]
        && left(alloc, disks, events, 0b1111, PLACES) == images[1]
        && left(alloc, disks, events, 0b1010, PLACES) == images[2]
}

fn are_left(alloc: Global, disks: &MemDisks) -> bool {
    for (events, unflushed, images) in LEFT {
        if !is_left(alloc, disks, *events, *unflushed, images) {
            return false;
        }
    }
    true
}

// Whether the calls are answered so, and stops leave that.
fn is_met(alloc: Global) -> bool {
    match two_disks(alloc) {
        Ok(mut disks) => are_answered(&mut disks) && are_left(alloc, &disks),
        Err(_) => false,
    }
}

#[test]
fn a_stop_leaves_the_kept_writes(rt: HostRuntime) {
    assert!(rt; is_met(rt.alloc()));
}
