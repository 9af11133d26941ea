// What stopped writers left marked without a use is freed.
use crate::calls::SHORT;
use crate::disk::{NEVER, Piece, attach, disk_with, has};
use minix_reclaim::{Freed, ReclaimFault, reclaim};
use minix_survey::SurveyFault;
use std::alloc::Global;
use test_disks::Untold;

// What is freed of the short volume with some changes, what is there then, and how many writes and flushes there were,
// also once it is freed again.
struct Row {
    name: &'static str,
    changes: &'static [Piece],
    freed: Freed,
    left: &'static [Piece],
    events: u32,
    again: u32,
}

const NONE: Freed = Freed {
    zones: 0,
    inodes: 0,
};

// The root has the name a: inode 2, with an indirect zone, 8, and with zone 9 by it.
const FILE: &[Piece] = &[
    (4, 0, b"\x07"),
    (6, 0, b"\x1B"),
    (8, 8, b"\x30"),
    (
        8,
        64,
        b"\xA4\x81\x01\0\0\0\0\0\0\x20\0\0\0\0\0\0\0\0\0\0\0\0\0\0\0\0\0\0\0\0\0\0\0\0\0\0\0\0\0\0\0\0\0\0\0\0\0\0\0\0\0\0\x08",
    ),
    (12, 32, b"\x02\0a"),
    (16, 0, b"\x09"),
];

const ROWS: &[Row] = &[
    Row {
        name: "nothing",
        changes: &[],
        freed: NONE,
        left: SHORT,
        events: 1,
        again: 2,
    },
    Row {
        name: "a stopped creation",
        changes: &[(4, 0, b"\x07"), (6, 0, b"\x1F")],
        freed: Freed {
            zones: 3,
            inodes: 1,
        },
        left: SHORT,
        events: 3,
        again: 4,
    },
    // Zone 39 and inode 32 are the last ones; bits past them stay.
    Row {
        name: "the last ones",
        changes: &[(4, 4, b"\xFF\xFF"), (6, 4, b"\xFC\xFF")],
        freed: Freed {
            zones: 1,
            inodes: 1,
        },
        left: &[(4, 0, b"\x03\0\0\0\xFE\xFF"), (6, 0, b"\x03\0\0\0\xF8\xFF")],
        events: 3,
        again: 4,
    },
    Row {
        name: "a file",
        changes: FILE,
        freed: NONE,
        left: FILE,
        events: 1,
        again: 2,
    },
];

fn reclaimed(alloc: Global, disks: &mut Untold) -> Result<Freed, ReclaimFault> {
    match attach(disks) {
        Some(volume) => match reclaim(alloc, volume) {
            Ok((_, freed)) => Ok(freed),
            Err(halt) => Err(halt.fault),
        },
        None => Err(ReclaimFault::Device),
    }
}

// Whether it is so, and again nothing is freed and nothing but a flush is done.
fn is_freed(alloc: Global, row: &Row) -> bool {
    let Ok(mut disks) = disk_with(alloc, 88, SHORT, row.changes, NEVER) else {
        return false;
    };
    reclaimed(alloc, &mut disks) == Ok(row.freed)
        && has(&mut disks, row.left)
        && disks.disks.events() == row.events
        && reclaimed(alloc, &mut disks) == Ok(NONE)
        && has(&mut disks, row.left)
        && disks.disks.events() == row.again
}

#[test]
fn waste_is_freed(rt: HostRuntime) {
    for row in ROWS {
        assert!(rt; is_freed(rt.alloc(), row), "{}", row.name);
    }
}

// The zone of the root isn't marked, and zone 7 is without a use.
const UNSOUND: &[Piece] = &[(6, 0, b"\x05")];

fn is_left(alloc: Global) -> bool {
    let fault = ReclaimFault::Survey(SurveyFault::Unmarked(6));
    match disk_with(alloc, 88, SHORT, UNSOUND, NEVER) {
        Ok(mut disks) => { reclaimed(alloc, &mut disks) == Err(fault) && disks.disks.events() == 0 }
        Err(_) => false,
    }
}

#[test]
fn nothing_is_freed_of_a_volume_that_is_unsound(rt: HostRuntime) {
    assert!(rt; is_left(rt.alloc()));
}
