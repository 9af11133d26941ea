// A file that is made, where each call of the disk fails in turn.
use crate::calls::SHORT;
use crate::disk::{NEVER, Piece, attach, disk_with, has};
use minix_choice::{Taken, Wish, WriteFault};
use minix_create::{choose, create};
use std::alloc::Global;
use std::mem::drop;
use test_disks::Untold;

// Three blocks with a hole in the middle: zones 7 and 8 of the short volume, whose root gets a third place.
const WISH: Wish<'static> = Wish {
    mode: 0o100644,
    length: 3000,
    holes: &[1],
    time: 7,
    directory: 1,
    name: b"new",
};

const BLOCKS: [[u8; 1024]; 3] = [[b'a'; 1024], [0; 1024], [b'c'; 1024]];

// Past the root's size are bytes of an older name.
const OLDER: &[Piece] = &[(12, 32, b"\x09\0older\0\0\0\0\0\0\0\0\0")];

// How many events there were before each call. These are read: the superblock; the root's inode and both halves of its
// zone, and a sector of each bitmap, by the choice; each bitmap again where bits are set, and the inode; then the root three
// times, the place and the root, the root, and the place, before each of these is written.
const EVENTS: &[u32] = &[
    0, 0, 0, 0, 0, 0, 0, 0, 1, 1, 2, 3, 4, 5, 6, 7, 7, 8, 9, 9, 9, 9, 10, 11, 11, 12, 13, 13, 13,
    14,
];

// From how many events on, and up to how many, a piece is there. The bits take three events, two zones with the inode and
// a flush six, the place four, and the entry two.
const LEFT: &[(u32, u32, Piece)] = &[
    (0, 0, (4, 0, b"\x03\0")),
    (1, 15, (4, 0, b"\x07\0")),
    (0, 1, (6, 0, b"\x03\0")),
    (2, 15, (6, 0, b"\x0F\0")),
    (0, 3, (14, 0, &[0; 512])),
    (4, 15, (14, 0, &[b'a'; 512])),
    (0, 4, (15, 0, &[0; 512])),
    (5, 15, (15, 0, &[b'a'; 512])),
    (0, 5, (16, 0, &[0; 512])),
    (6, 15, (16, 0, &[b'c'; 512])),
    (0, 6, (17, 0, &[0; 512])),
    (7, 15, (17, 0, &[b'c'; 512])),
    (0, 7, (8, 64, &[0; 64])),
    (
        8,
        15,
        (
            8,
            64,
            b"\xA4\x81\x01\0\0\0\0\0\xB8\x0B\0\0\x07\0\0\0\x07\0\0\0\x07\0\0\0\x07\0\0\0\0\0\0\0\x08\0\0\0\0",
        ),
    ),
    (0, 9, (12, 32, b"\x09\0older")),
    (10, 13, (12, 32, &[0; 16])),
    (14, 15, (12, 32, b"\x02\0new\0\0\0\0\0\0\0\0\0\0\0")),
    (0, 11, (8, 0, b"\xED\x41\x02\0\0\0\0\0\x20\0")),
    (12, 15, (8, 0, b"\xED\x41\x02\0\0\0\0\0\x30\0")),
    // Other zones, and what is before the place and after it.
    (0, 15, (13, 0, &[0; 512])),
    (0, 15, (18, 0, &[0; 512])),
    (0, 15, (12, 0, b"\x01\0.")),
    (0, 15, (12, 16, b"\x01\0..")),
    (0, 15, (12, 48, &[0; 464])),
];

// Makes the file.
#[tactic(auto, unfolding(disk_trait::specs::Moments::IsTold, disk_trait::specs::Moments::MayLeave))]
fn make(alloc: Global, disks: &mut Untold) -> Result<(), WriteFault> {
    let Some(mut volume) = attach(disks) else {
        return Err(WriteFault::Device);
    };
    if volume.layout().inodes < 1 {
        return Err(WriteFault::NoInode);
    }
    let mut taken = Taken::new(alloc, &volume)?;
    let chosen = choose(alloc, &mut volume, &WISH, &mut taken);
    drop(taken);
    let chosen = chosen?;
    if chosen.blocks().len() > 3 {
        return Err(WriteFault::Exists);
    }
    match create(volume, chosen, &BLOCKS) {
        Ok(_) => Ok(()),
        Err(halt) => Err(halt.fault),
    }
}

// Whether a disk has what it should have after so many events.
fn is_left(disks: &mut Untold, events: u32) -> bool {
    for (first, last, piece) in LEFT {
        if *first <= events && events <= *last && !has(disks, &[*piece]) {
            return false;
        }
    }
    disks.disks.events() == events
}

// Whether this comes where a call fails, and then there were so many events.
fn comes(alloc: Global, call: u64, wanted: Result<(), WriteFault>, events: u32) -> bool {
    match disk_with(alloc, 88, SHORT, OLDER, call) {
        Ok(mut disks) => make(alloc, &mut disks) == wanted && is_left(&mut disks, events),
        Err(_) => false,
    }
}

// Whether the call of this number isn't made.
fn is_past(alloc: Global, call: u64) -> bool {
    match disk_with(alloc, 88, SHORT, OLDER, call) {
        Ok(mut disks) => make(alloc, &mut disks) == Ok(()),
        Err(_) => false,
    }
}

#[test]
fn each_call_of_a_creation_fails(rt: HostRuntime) {
    for (call, events) in EVENTS.iter().enumerate() {
        let fault = Err(WriteFault::Device);
        assert!(rt; comes(rt.alloc(), call as u64, fault, *events), "{call}");
    }
    assert!(rt; comes(rt.alloc(), NEVER, Ok(()), 15));
    assert!(rt; is_past(rt.alloc(), 30));
}
