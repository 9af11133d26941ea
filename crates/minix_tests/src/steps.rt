// Bitmap bits and the sectors that steps write, byte by byte.
use crate::disk::{NEVER, Piece, attach, disk_with, has};
use minix_fill::{free_file, mark_zones};
use minix_layout::{FsKind, Inode};
use minix_steps::{
    BitFault, NumberList, NumberSet, find_free, find_inode, free_inode, free_zone, put_inode_mark,
    put_zone_mark, settle, write_inode, write_zone,
};
use minix_zones::ZoneFault;
use std::alloc::{AllocError, Global};
use test_disks::Untold;

// Version 2, 16 inodes, 40 or 4200 zones, the first data zone 5: inodes' bits are in sector 4, those of zones in sectors
// 6 and 7, and zone z has bit z - 4.
const SMALL: Piece = (
    2,
    0,
    b"\x10\0\0\0\x01\0\x01\0\x05\0\0\0\0\0\0\0\x78\x24\0\0\x28",
);

const LARGE: Piece = (
    2,
    0,
    b"\x10\0\0\0\x01\0\x01\0\x05\0\0\0\0\0\0\0\x78\x24\0\0\x68\x10",
);

fn set_with(alloc: Global, below: u32, numbers: &[u32]) -> Result<NumberSet, AllocError> {
    let mut set = NumberSet::new(alloc, below)?;
    for n in numbers {
        if *n < set.below() {
            set.add(*n);
        }
    }
    Ok(set)
}

// The zones that are free and aren't avoided.
struct Free {
    sectors: u32,
    pieces: &'static [Piece],
    need: u32,
    avoid: &'static [u32],
    zones: &'static [u32],
    refused: Option<BitFault>,
}

// Zones 5, 6 and 8 have their bits set, and 12 to 19.
const SOME: &[Piece] = &[SMALL, (6, 0, b"\x17\xFF")];

// Zones 37 and 39 alone are free; no bit after that of zone 39 counts.
const LAST: &[Piece] = &[SMALL, (6, 0, b"\xFF\xFF\xFF\xFF\x05")];

const FREE: &[Free] = &[
    Free {
        sectors: 88,
        pieces: SOME,
        need: 3,
        avoid: &[7, 10],
        zones: &[9, 11, 20],
        refused: None,
    },
    Free {
        sectors: 88,
        pieces: SOME,
        need: 0,
        avoid: &[],
        zones: &[],
        refused: None,
    },
    Free {
        sectors: 88,
        pieces: LAST,
        need: 3,
        avoid: &[],
        zones: &[],
        refused: Some(BitFault::NoSpace { need: 3, found: 2 }),
    },
    Free {
        sectors: 88,
        pieces: LAST,
        need: 2,
        avoid: &[],
        zones: &[37, 39],
        refused: None,
    },
    Free {
        sectors: 88,
        pieces: LAST,
        need: 1,
        avoid: &[39, 37],
        zones: &[],
        refused: Some(BitFault::NoSpace { need: 1, found: 0 }),
    },
    // The first sector of the bitmap is full: bit 4096, the first of the next one, is zone 4100.
    Free {
        sectors: 8408,
        pieces: &[LARGE, (6, 0, &[0xFF; 512])],
        need: 2,
        avoid: &[4101],
        zones: &[4100, 4102],
        refused: None,
    },
];

fn is_found(alloc: Global, row: &Free) -> bool {
    let Ok(avoid) = set_with(alloc, 4200, row.avoid) else {
        return false;
    };
    is_found_beside(alloc, row, &avoid)
}

fn is_found_beside(alloc: Global, row: &Free, avoid: &NumberSet) -> bool {
    match disk_with(alloc, row.sectors, row.pieces, &[], NEVER) {
        Ok(mut disks) => is_found_on(alloc, &mut disks, row, avoid),
        Err(_) => false,
    }
}

fn is_found_on(alloc: Global, disks: &mut Untold, row: &Free, avoid: &NumberSet) -> bool {
    match attach(disks) {
        Some(mut volume) => {
            volume.layout().zones <= avoid.below()
                && is_list(find_free(alloc, &mut volume, row.need, avoid), row)
        }
        None => false,
    }
}

fn is_list(found: Result<NumberList, BitFault>, row: &Free) -> bool {
    match found {
        Ok(list) => row.refused == None && list.items() == row.zones,
        Err(fault) => row.refused == Some(fault),
    }
}

fn inode(
    alloc: Global,
    pieces: &[Piece],
    avoid: &[u32],
    call: u64,
) -> Option<Result<Option<u32>, BitFault>> {
    match set_with(alloc, 17, avoid) {
        Ok(avoid) => inode_beside(alloc, pieces, &avoid, call),
        Err(_) => None,
    }
}

fn inode_beside(
    alloc: Global,
    pieces: &[Piece],
    avoid: &NumberSet,
    call: u64,
) -> Option<Result<Option<u32>, BitFault>> {
    match disk_with(alloc, 88, pieces, &[], call) {
        Ok(mut disks) => inode_on(&mut disks, avoid),
        Err(_) => None,
    }
}

fn inode_on(disks: &mut Untold, avoid: &NumberSet) -> Option<Result<Option<u32>, BitFault>> {
    let mut volume = attach(disks)?;
    if volume.layout().inodes < avoid.below() {
        return Some(find_inode(&mut volume, avoid));
    }
    None
}

type FreeInode = (&'static [Piece], &'static [u32], Option<u32>);

const INODES: &[FreeInode] = &[
    (&[SMALL, (4, 0, b"\xFE\xFF\x01")], &[], None),
    (&[SMALL, (4, 0, b"\xFE\xBF")], &[], Some(14)),
    (&[SMALL, (4, 0, b"\xFE\xBF")], &[14], Some(16)),
    (&[SMALL, (4, 0, b"\xFE\xBF")], &[14, 16], None),
    (&[SMALL], &[], Some(1)),
];

fn is_inode(alloc: Global, row: &FreeInode) -> bool {
    inode(alloc, row.0, row.1, NEVER) == Some(Ok(row.2))
}

#[test]
fn lowest_free_zones_and_inodes(rt: HostRuntime) {
    for (at, row) in FREE.iter().enumerate() {
        assert!(rt; is_found(rt.alloc(), row), "{at}");
    }
    for (at, row) in INODES.iter().enumerate() {
        assert!(rt; is_inode(rt.alloc(), row), "{at}");
    }
    assert!(rt; inode(rt.alloc(), &[SMALL], &[], 1) == Some(Err(BitFault::Device)));
}

// What is done to zone 7 and inode 3, to more zones, and to the file 2.
#[derive(Clone, Copy)]
enum Step {
    PutZoneMark,
    PutInodeMark,
    WriteZone,
    WriteInode,
    FreeZone,
    FreeInode,
    Settle,
    MarkZones,
    FreeFile,
}

const INODE: Inode = Inode {
    mode: 0o100644,
    links: 1,
    uid: 2,
    gid: 3,
    size: 1024,
    times: [4, 5, 6],
    zones: [7, 0, 0, 0, 0, 0, 0, 0, 0, 0],
};

// Two blocks with a hole between them, and two more with a hole between them through an indirect zone.
const FILE: Inode = Inode {
    size: 10240,
    zones: [6, 0, 7, 0, 0, 0, 0, 8, 0, 0],
    ..INODE
};

// Takes a step. None stands for a volume that isn't there.
#[tactic(auto, unfolding(disk_trait::specs::Moments::IsTold, disk_trait::specs::Moments::MayLeave))]
fn take(disks: &mut Untold, step: Step) -> Option<ZoneFault> {
    let mut volume = attach(disks)?;
    let layout = *volume.layout();
    if layout.first != 5
        || layout.zones != 4200
        || layout.inodes != 16
        || layout.kind != FsKind::V2Long
    {
        return None;
    }
    let taken = match step {
        Step::PutZoneMark => put_zone_mark(&mut volume, 7),
        Step::PutInodeMark => put_inode_mark(&mut volume, 3),
        Step::WriteZone => write_zone(&mut volume, 7, &[7; 1024]),
        Step::WriteInode => write_inode(&mut volume, 3, &INODE),
        Step::FreeZone => free_zone(&mut volume, 7),
        Step::FreeInode => free_inode(&mut volume, 3),
        Step::Settle => settle(&mut volume),
        Step::MarkZones => mark_zones(&mut volume, &[6, 7, 12, 4100, 4101]),
        Step::FreeFile => free_file(&mut volume, 2, &FILE),
    };
    taken.err()
}

// What is there, steps in a row, the call that fails, whether the last step fails by it, how many events there were, and
// what is there then.
struct Steps {
    with_file: bool,
    changes: &'static [Piece],
    steps: &'static [Step],
    fails: Option<u64>,
    events: u32,
    after: &'static [Piece],
}

// Inodes 1, 2 and 4 and zones 5 and 6 have bits; what lies before and behind inode 3 and zone 7 has bytes.
const BEFORE: &[Piece] = &[
    LARGE,
    (4, 0, b"\x17"),
    (6, 0, b"\x07"),
    (8, 124, b"\x02\x02\x02\x02"),
    (8, 192, b"\x04\x04\x04\x04"),
    (13, 508, b"\x06\x06\x06\x06"),
    (16, 0, b"\x08\x08\x08\x08"),
];

// Inode 2 is a file, whose indirect zone 8 has 9 as its first number and 10 as its third.
const WITH_FILE: &[Piece] = &[
    LARGE,
    (4, 0, b"\x0F"),
    (6, 0, b"\xFF"),
    (8, 60, b"\x01\x01\x01\x01"),
    (8, 64, &[1; 64]),
    (8, 128, b"\x01\x01\x01\x01"),
    (16, 0, b"\x09\0\0\0\0\0\0\0\x0A"),
];

const STEPS: &[Steps] = &[
    Steps {
        with_file: false,
        changes: &[],
        steps: &[
            Step::PutZoneMark,
            Step::PutInodeMark,
            Step::WriteZone,
            Step::WriteInode,
            Step::Settle,
        ],
        fails: None,
        events: 6,
        after: &[
            (4, 0, b"\x1F\0"),
            (6, 0, b"\x0F\0"),
            (
                8,
                124,
                b"\x02\x02\x02\x02\xA4\x81\x01\0\x02\0\x03\0\0\x04\0\0\x04\0\0\0\x05\0\0\0\x06\0\0\0\x07\0\0\0\0\0\0\0",
            ),
            (
                8,
                164,
                b"\0\0\0\0\0\0\0\0\0\0\0\0\0\0\0\0\0\0\0\0\0\0\0\0\0\0\0\0\x04\x04\x04\x04",
            ),
            (13, 508, b"\x06\x06\x06\x06"),
            (14, 0, &[7; 512]),
            (15, 0, &[7; 512]),
            (16, 0, b"\x08\x08\x08\x08"),
        ],
    },
    Steps {
        with_file: false,
        changes: &[],
        steps: &[
            Step::PutZoneMark,
            Step::PutInodeMark,
            Step::Settle,
            Step::FreeZone,
            Step::FreeInode,
        ],
        fails: None,
        events: 5,
        after: &[(4, 0, b"\x17\0"), (6, 0, b"\x07\0")],
    },
    // Each step reads the superblock first. Then a bit is read and written, and a zone's second half is written.
    Steps {
        with_file: false,
        changes: &[],
        steps: &[Step::PutZoneMark],
        fails: Some(2),
        events: 0,
        after: &[(6, 0, b"\x07\0")],
    },
    Steps {
        with_file: false,
        changes: &[],
        steps: &[Step::WriteZone],
        fails: Some(2),
        events: 1,
        after: &[(14, 0, &[7; 512]), (15, 0, &[0; 512])],
    },
    Steps {
        with_file: false,
        changes: &[],
        steps: &[Step::WriteInode],
        fails: Some(1),
        events: 0,
        after: &[],
    },
    Steps {
        with_file: false,
        changes: &[],
        steps: &[Step::Settle],
        fails: Some(1),
        events: 0,
        after: &[],
    },
    // Each sector of the bitmap is written once; where the second one can't be read, the first one is written.
    Steps {
        with_file: false,
        changes: &[(6, 0, b"\x03"), (7, 0, b"\0\x80")],
        steps: &[Step::MarkZones],
        fails: None,
        events: 2,
        after: &[(6, 0, b"\x0F\x01\0"), (7, 0, b"\x03\x80\0")],
    },
    Steps {
        with_file: false,
        changes: &[(6, 0, b"\x03"), (7, 0, b"\0\x80")],
        steps: &[Step::MarkZones],
        fails: Some(3),
        events: 1,
        after: &[(6, 0, b"\x0F\x01\0"), (7, 0, b"\0\x80\0")],
    },
    // Zones 6 to 10 are freed: zones 5 and 11 stay marked. The flush after the inode is call 3.
    Steps {
        with_file: true,
        changes: &[],
        steps: &[Step::FreeFile],
        fails: None,
        events: 9,
        after: &[
            (4, 0, b"\x0B\0"),
            (6, 0, b"\x83\0"),
            (8, 60, b"\x01\x01\x01\x01\0\0\0\0"),
            (8, 68, &[0; 60]),
            (8, 128, b"\x01\x01\x01\x01"),
            (16, 0, b"\x09\0\0\0\0\0\0\0\x0A"),
        ],
    },
    Steps {
        with_file: true,
        changes: &[],
        steps: &[Step::FreeFile],
        fails: Some(3),
        events: 1,
        after: &[(4, 0, b"\x0F"), (6, 0, b"\xFF")],
    },
];

// Whether all is as the row says.
fn are_taken(alloc: Global, row: &Steps) -> bool {
    let call = row.fails.unwrap_or(NEVER);
    let before = if row.with_file { WITH_FILE } else { BEFORE };
    let Ok(mut disks) = disk_with(alloc, 8408, before, row.changes, call) else {
        return false;
    };
    let fault = take_all(&mut disks, row.steps);
    fault == row.fails.map(|_| ZoneFault::Device)
        && disks.disks.events() == row.events
        && has(&mut disks, row.after)
}

// What the last step was refused for.
fn take_all(disks: &mut Untold, steps: &[Step]) -> Option<ZoneFault> {
    let mut fault = None;
    for step in steps {
        fault = take(disks, *step);
    }
    fault
}

#[test]
fn steps_write_their_own(rt: HostRuntime) {
    for (at, row) in STEPS.iter().enumerate() {
        assert!(rt; are_taken(rt.alloc(), row), "{at}");
    }
}
