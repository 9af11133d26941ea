// Volumes that are made, what is chosen for a file, and names that are removed and renamed.
ghost use Rattle.std.specs.Prelude.{◌≡◌, ◌<◌, All};
ghost use Rattle.lilo_model.specs.MinixParts.{blocks_for};

use crate::disk::{NEVER, Piece, attach, disk_with, has};
use disk_trait::{Disks, Span};
use minix_choice::{Choice, Taken, Wish, WriteFault, choose};
use minix_format::{FormatFault, format};
use minix_layout::FsKind;
use minix_remove::{remove, replace_name};
use minix_tree::TreeFault;
use minix_zones::Volume;
use std::alloc::Global;
use test_disks::{Untold, has_no_zero};

// A volume of so many sectors and inodes is made: its refusal, and how many events there were.
fn made(alloc: Global, sectors: u32, inodes: u16, call: u64) -> Option<(Option<FormatFault>, u32)> {
    if sectors > 5000 {
        return None;
    }
    let span = Span {
        disk: 0,
        start: 8,
        count: u64::from(sectors),
    };
    let mut disks = disk_with(alloc, 8 + sectors, &[], &[], call).ok()?;
    if disks.size(0) < 8 + span.count {
        return None;
    }
    let refused = format(&mut disks, span, FsKind::V1Short, inodes, 7).err();
    Some((refused, disks.disks.events()))
}

// Sectors and inodes that don't do, as a device and a command line never have them.
const UNFIT: &[(u32, u16)] = &[(2048, 0), (0, 1), (0, 0)];

// Whether it comes to this where the call with this number fails: it is made in the least room.
fn comes(alloc: Global, call: u64, wanted: Option<FormatFault>, count: u32) -> bool {
    match made(alloc, 12, 1, call) {
        Some((refused, events)) => refused == wanted && events == count,
        None => false,
    }
}

fn is_unfit(alloc: Global, sectors: u32, inodes: u16) -> bool {
    match made(alloc, sectors, inodes, NEVER) {
        Some((refused, events)) => refused == Some(FormatFault::NoSpace) && events == 0,
        None => false,
    }
}

// Each of ten sectors is written once, and then all are flushed.
#[test]
fn an_empty_volume_is_made(rt: HostRuntime) {
    for call in 0..11 {
        let fault = Some(FormatFault::Device);
        assert!(rt; comes(rt.alloc(), u64::from(call), fault, call), "{call}");
    }
    assert!(rt; comes(rt.alloc(), 11, None, 11));
    for (sectors, inodes) in UNFIT {
        assert!(rt; is_unfit(rt.alloc(), *sectors, *inodes), "{sectors}");
    }
}

// Version 2: 32 inodes in blocks 4 and 5, 40 zones, the first data zone 6. The root alone is on it.
pub(crate) const SHORT: &[Piece] = &[
    (
        2,
        0,
        b"\x20\0\0\0\x01\0\x01\0\x06\0\0\0\0\0\0\0\x68\x24\0\0\x28",
    ),
    (4, 0, b"\x03"),
    (6, 0, b"\x03"),
    (8, 0, b"\xED\x41\x02\0\0\0\0\0\x20"),
    (8, 24, b"\x06"),
    (12, 0, b"\x01\0."),
    (12, 16, b"\x01\0.."),
];

const LONG: &[Piece] = &[
    (
        2,
        0,
        b"\x20\0\0\0\x01\0\x01\0\x06\0\0\0\0\0\0\0\x78\x24\0\0\x28",
    ),
    (4, 0, b"\x03"),
    (6, 0, b"\x03"),
    (8, 0, b"\xED\x41\x02\0\0\0\0\0\x40"),
    (8, 24, b"\x06"),
    (12, 0, b"\x01\0."),
    (12, 32, b"\x01\0.."),
];

// What is chosen, on the long volume or the short one, for a file of this name, of three blocks with a hole in the
// middle, or of sixty: the inode, the place, the zones of the first blocks and of growth.
struct Chosen {
    long: bool,
    changes: &'static [Piece],
    name: &'static [u8],
    large: bool,
    found: [u32; 6],
    refused: Option<WriteFault>,
}

const CHOSEN: &[Chosen] = &[
    Chosen {
        long: false,
        changes: &[],
        name: b"new",
        large: false,
        found: [2, 2, 7, 0, 8, 0],
        refused: None,
    },
    // The root has no zone: its first place is free, and comes to be there by one zone more.
    Chosen {
        long: false,
        changes: &[(8, 24, b"\0")],
        name: b"new",
        large: false,
        found: [2, 0, 7, 0, 8, 9],
        refused: None,
    },
    Chosen {
        long: false,
        changes: &[(6, 0, b"\x07")],
        name: &[97; 14],
        large: false,
        found: [2, 2, 8, 0, 9, 0],
        refused: None,
    },
    Chosen {
        long: false,
        changes: &[],
        name: &[97; 15],
        large: false,
        found: [0; 6],
        refused: Some(WriteFault::NameTooLong),
    },
    Chosen {
        long: true,
        changes: &[],
        name: &[97; 30],
        large: false,
        found: [2, 2, 7, 0, 8, 0],
        refused: None,
    },
    Chosen {
        long: true,
        changes: &[],
        name: &[97; 31],
        large: false,
        found: [0; 6],
        refused: Some(WriteFault::NameTooLong),
    },
    Chosen {
        long: false,
        changes: &[],
        name: b"..",
        large: false,
        found: [0; 6],
        refused: Some(WriteFault::Exists),
    },
    // Sixty blocks want an indirect zone too, and of the 34 data zones the root has one.
    Chosen {
        long: true,
        changes: &[],
        name: b"new",
        large: true,
        found: [0; 6],
        refused: Some(WriteFault::NoSpace {
            need: 61,
            found: 33,
        }),
    },
    Chosen {
        long: true,
        changes: &[(4, 0, b"\xFF\xFF\xFF\xFF\x01")],
        name: b"new",
        large: true,
        found: [0; 6],
        refused: Some(WriteFault::NoInode),
    },
];

fn wish_of(name: &[u8], large: bool) -> Wish<'_>
    ensures holes { All (λ hole. hole < blocks_for result.length) result.holes.now }
    ensures directory { result.directory ≡ 1 }
{
    let wish = Wish {
        mode: 0o100644,
        length: 3000,
        holes: &[1],
        time: 0,
        directory: 1,
        name,
    };
    if large {
        return Wish {
            length: 61_440,
            holes: &[],
            ..wish
        };
    }
    wish
}

fn at(list: &[u32], place: usize) -> u32 {
    list.get(place).copied().unwrap_or(0)
}

// The inode and the place, the zones of three blocks, and the first one of growth.
fn six_of(choice: Result<Choice, WriteFault>) -> Result<[u32; 6], WriteFault> {
    match choice {
        Ok(choice) => Ok([
            choice.inode(),
            choice.place(),
            at(choice.blocks(), 0),
            at(choice.blocks(), 1),
            at(choice.blocks(), 2),
            at(choice.growth(), 0),
        ]),
        Err(fault) => Err(fault),
    }
}

fn choice_on(
    alloc: Global,
    volume: &mut Volume<'_, Untold>,
    row: &Chosen,
) -> Result<[u32; 6], WriteFault> {
    if volume.layout().inodes < 1 {
        return Err(WriteFault::Device);
    }
    let mut taken = Taken::new(alloc, volume)?;
    let wish = wish_of(row.name, row.large);
    six_of(choose(alloc, volume, &wish, &mut taken))
}

fn choice_of(alloc: Global, row: &Chosen) -> Result<[u32; 6], WriteFault> {
    let before = if row.long { LONG } else { SHORT };
    let mut disks = disk_with(alloc, 88, before, row.changes, NEVER)?;
    match attach(&mut disks) {
        Some(mut volume) => choice_on(alloc, &mut volume, row),
        None => Err(WriteFault::Device),
    }
}

fn is_chosen(alloc: Global, row: &Chosen) -> bool {
    match choice_of(alloc, row) {
        Ok(six) => row.refused == None && six == row.found,
        Err(fault) => row.refused == Some(fault),
    }
}

#[test]
fn inode_place_and_zones_are_chosen(rt: HostRuntime) {
    for (at, row) in CHOSEN.iter().enumerate() {
        assert!(rt; is_chosen(rt.alloc(), row), "{at}");
    }
}

// 16 inodes, 24 zones, the first data zone 5. The root has the files a (2), which is c too, and b (3), the link l (4) and
// the directory d (5), each with one zone, 5 to 9. Of version 1 with names of 14 bytes, and of version 2 with 30.
const V1: &[Piece] = &[
    (2, 0, b"\x10\0\x18\0\x01\0\x01\0\x05\0\0\0\0\0\0\0\x7F\x13"),
    (4, 0, b"\x3F"),
    (6, 0, b"\x3F"),
    (8, 0, b"\xED\x41\0\0\x70\0\0\0\0\0\0\0\0\x03\x05"),
    (8, 32, b"\xA4\x81\0\0\x00\x04\0\0\0\0\0\0\0\x02\x06"),
    (8, 64, b"\xA4\x81\0\0\xE8\x03\0\0\0\0\0\0\0\x01\x07"),
    (8, 96, b"\xFF\xA1\0\0\x02\0\0\0\0\0\0\0\0\x01\x08"),
    (8, 128, b"\xED\x41\0\0\x20\0\0\0\0\0\0\0\0\x02\x09"),
    (10, 0, b"\x01\0."),
    (10, 16, b"\x01\0.."),
    (10, 32, b"\x02\0a"),
    (10, 48, b"\x03\0b"),
    (10, 64, b"\x04\0l"),
    (10, 80, b"\x05\0d"),
    (10, 96, b"\x02\0c"),
    (16, 0, b"/a"),
    (18, 0, b"\x05\0."),
    (18, 16, b"\x01\0.."),
];

const V2: &[Piece] = &[
    (
        2,
        0,
        b"\x10\0\0\0\x01\0\x01\0\x05\0\0\0\0\0\0\0\x78\x24\0\0\x18",
    ),
    (4, 0, b"\x3F"),
    (6, 0, b"\x3F"),
    (8, 0, b"\xED\x41\x03\0\0\0\0\0\xE0"),
    (8, 24, b"\x05"),
    (8, 64, b"\xA4\x81\x02\0\0\0\0\0\x00\x04"),
    (8, 88, b"\x06"),
    (8, 128, b"\xA4\x81\x01\0\0\0\0\0\xE8\x03"),
    (8, 152, b"\x07"),
    (8, 192, b"\xFF\xA1\x01\0\0\0\0\0\x02"),
    (8, 216, b"\x08"),
    (8, 256, b"\xED\x41\x02\0\0\0\0\0\x40"),
    (8, 280, b"\x09"),
    (10, 0, b"\x01\0."),
    (10, 32, b"\x01\0.."),
    (10, 64, b"\x02\0a"),
    (10, 96, b"\x03\0b"),
    (10, 128, b"\x04\0l"),
    (10, 160, b"\x05\0d"),
    (10, 192, b"\x02\0c"),
    (16, 0, b"/a"),
    (18, 0, b"\x05\0."),
    (18, 32, b"\x01\0.."),
];

// A name of the root, and the one that it becomes, or none where it is removed; the answer, how many events there were,
// and what is there then.
struct Call {
    is_v1: bool,
    changes: &'static [Piece],
    fails: u64,
    from: &'static [u8],
    to: &'static [u8],
    refused: Option<WriteFault>,
    events: u32,
    after: &'static [Piece],
}

// The reads before it are of the superblock, the root, its entries and the inode.
const FIRST_WRITE: u64 = 6;

const REMOVED: &[Call] = &[
    // The entry two events; the inode of zeros two, a bit of each bitmap and a flush.
    Call {
        is_v1: true,
        changes: &[],
        fails: NEVER,
        from: b"b",
        to: b"",
        refused: None,
        events: 7,
        after: &[
            (10, 32, b"\x02\0a"),
            (10, 48, b"\0\0"),
            (8, 64, &[0; 32]),
            (4, 0, b"\x37"),
            (6, 0, b"\x37"),
        ],
    },
    Call {
        is_v1: false,
        changes: &[],
        fails: NEVER,
        from: b"l",
        to: b"",
        refused: None,
        events: 7,
        after: &[
            (10, 128, b"\0\0"),
            (10, 160, b"\x05\0d"),
            (8, 192, &[0; 64]),
            (4, 0, b"\x2F"),
            (6, 0, b"\x2F"),
        ],
    },
    // The entry, and the links.
    Call {
        is_v1: false,
        changes: &[],
        fails: NEVER,
        from: b"a",
        to: b"",
        refused: None,
        events: 4,
        after: &[
            (10, 64, b"\0\0"),
            (10, 192, b"\x02\0c"),
            (8, 64, b"\xA4\x81\x01"),
            (4, 0, b"\x3F"),
            (6, 0, b"\x3F"),
        ],
    },
    // The same where `c` is another name of `b`: the inode before it in the sector stays.
    Call {
        is_v1: false,
        changes: &[(8, 66, b"\x01"), (8, 130, b"\x02"), (10, 192, b"\x03")],
        fails: NEVER,
        from: b"c",
        to: b"",
        refused: None,
        events: 4,
        after: &[
            (10, 192, b"\0\0"),
            (8, 64, b"\xA4\x81\x01\0\0\0\0\0\x00\x04"),
            (8, 128, b"\xA4\x81\x01\0\0\0\0\0\xE8\x03"),
            (8, 192, b"\xFF\xA1\x01"),
        ],
    },
];

fn removed() -> &'static [Call] {
    REMOVED
}

const RENAMED: &[Call] = &[
    // The name alone.
    Call {
        is_v1: true,
        changes: &[],
        fails: NEVER,
        from: b"a",
        to: b"n",
        refused: None,
        events: 2,
        after: &[
            (10, 32, b"\x02\0n\0"),
            (10, 96, b"\x02\0c\0"),
            (8, 45, b"\x02"),
            (4, 0, b"\x3F"),
            (6, 0, b"\x3F"),
        ],
    },
    // The entry, and the links.
    Call {
        is_v1: true,
        changes: &[],
        fails: NEVER,
        from: b"a",
        to: b"c",
        refused: None,
        events: 4,
        after: &[
            (10, 32, b"\0\0"),
            (10, 96, b"\x02\0c\0"),
            (8, 45, b"\x01"),
            (4, 0, b"\x3F"),
            (6, 0, b"\x3F"),
        ],
    },
    // The links, both entries, the links again, and those of the inode that has another name.
    Call {
        is_v1: false,
        changes: &[],
        fails: NEVER,
        from: b"b",
        to: b"a",
        refused: None,
        events: 10,
        after: &[
            (10, 64, b"\x03\0a\0"),
            (10, 96, b"\0\0"),
            (10, 192, b"\x02\0c\0"),
            (8, 64, b"\xA4\x81\x01"),
            (8, 128, b"\xA4\x81\x01"),
            (4, 0, b"\x3F"),
            (6, 0, b"\x3F"),
        ],
    },
    // The same, and the inode is freed.
    Call {
        is_v1: false,
        changes: &[],
        fails: NEVER,
        from: b"a",
        to: b"b",
        refused: None,
        events: 13,
        after: &[
            (10, 64, b"\0\0"),
            (10, 96, b"\x02\0b\0"),
            (10, 192, b"\x02\0c\0"),
            (8, 64, b"\xA4\x81\x02"),
            (8, 128, &[0; 64]),
            (4, 0, b"\x37"),
            (6, 0, b"\x37"),
        ],
    },
];

fn renamed() -> &'static [Call] {
    RENAMED
}

const REFUSED: &[Call] = &[
    // What is refused writes nothing, and is judged in this order.
    Call {
        is_v1: false,
        changes: &[],
        fails: NEVER,
        from: b"x",
        to: b"",
        refused: Some(WriteFault::Tree(TreeFault::NotFound(0))),
        events: 0,
        after: &[],
    },
    Call {
        is_v1: false,
        changes: &[],
        fails: NEVER,
        from: b"d",
        to: b"",
        refused: Some(WriteFault::Tree(TreeFault::NotFile)),
        events: 0,
        after: &[],
    },
    Call {
        is_v1: false,
        changes: &[],
        fails: NEVER,
        from: b"x",
        to: &[b'x'; 31],
        refused: Some(WriteFault::Tree(TreeFault::NotFound(0))),
        events: 0,
        after: &[],
    },
    Call {
        is_v1: false,
        changes: &[],
        fails: NEVER,
        from: b"a",
        to: &[b'x'; 31],
        refused: Some(WriteFault::NameTooLong),
        events: 0,
        after: &[],
    },
    Call {
        is_v1: true,
        changes: &[],
        fails: NEVER,
        from: b"d",
        to: &[b'x'; 15],
        refused: Some(WriteFault::NameTooLong),
        events: 0,
        after: &[],
    },
    Call {
        is_v1: true,
        changes: &[],
        fails: NEVER,
        from: b"d",
        to: b"n",
        refused: Some(WriteFault::Tree(TreeFault::NotFile)),
        events: 0,
        after: &[],
    },
    Call {
        is_v1: false,
        changes: &[],
        fails: NEVER,
        from: b"l",
        to: b"n",
        refused: Some(WriteFault::Tree(TreeFault::NotFile)),
        events: 0,
        after: &[],
    },
    Call {
        is_v1: false,
        changes: &[],
        fails: NEVER,
        from: b"a",
        to: b"d",
        refused: Some(WriteFault::Tree(TreeFault::NotFile)),
        events: 0,
        after: &[],
    },
    Call {
        is_v1: false,
        changes: &[],
        fails: NEVER,
        from: b"a",
        to: b"l",
        refused: Some(WriteFault::Tree(TreeFault::NotFile)),
        events: 0,
        after: &[],
    },
];

fn refused() -> &'static [Call] {
    REFUSED
}

const MOST_LINKS: &[Call] = &[
    // A link more than the most is needed only over another inode.
    Call {
        is_v1: true,
        changes: &[(8, 45, b"\xFF")],
        fails: NEVER,
        from: b"a",
        to: b"b",
        refused: Some(WriteFault::Links),
        events: 0,
        after: &[(8, 45, b"\xFF")],
    },
    Call {
        is_v1: false,
        changes: &[(8, 66, b"\xFF\xFF")],
        fails: NEVER,
        from: b"a",
        to: b"b",
        refused: Some(WriteFault::Links),
        events: 0,
        after: &[(8, 66, b"\xFF\xFF")],
    },
    Call {
        is_v1: true,
        changes: &[(8, 45, b"\xFF")],
        fails: NEVER,
        from: b"a",
        to: b"n",
        refused: None,
        events: 2,
        after: &[(8, 45, b"\xFF"), (10, 32, b"\x02\0n")],
    },
    Call {
        is_v1: false,
        changes: &[(8, 66, b"\xFE\xFF")],
        fails: NEVER,
        from: b"a",
        to: b"b",
        refused: None,
        events: 13,
        after: &[(8, 66, b"\xFE\xFF"), (10, 96, b"\x02\0b")],
    },
    // The superblock is read by call 0, and the entry of `b` is cleared by the first write.
    Call {
        is_v1: true,
        changes: &[],
        fails: FIRST_WRITE,
        from: b"b",
        to: b"",
        refused: Some(WriteFault::Device),
        events: 0,
        after: &[],
    },
];

fn most_links() -> &'static [Call] {
    MOST_LINKS
}

// Takes a call, and says why it was refused. `Exists` stands for what isn't asked for.
#[tactic(auto, unfolding(disk_trait::specs::Moments::IsTold, disk_trait::specs::Moments::MayLeave))]
fn refusal(disks: &mut Untold, from: &[u8], to: &[u8]) -> Option<WriteFault> {
    let Some(volume) = attach(disks) else {
        return Some(WriteFault::Exists);
    };
    if volume.layout().inodes < 1 || from == to || !has_no_zero(to) {
        return Some(WriteFault::Exists);
    }
    let answer = if to.is_empty() {
        remove(volume, 1, from)
    } else {
        replace_name(volume, 1, from, to)
    };
    match answer {
        Ok(_) => None,
        Err(halt) => Some(halt.fault),
    }
}

fn is_refusal(refused: Option<WriteFault>, row: &Call) -> bool {
    refused == row.refused
}

// Whether all is as the row says.
fn is_called(alloc: Global, row: &Call) -> bool {
    let before = if row.is_v1 { V1 } else { V2 };
    let Ok(mut disks) = disk_with(alloc, 56, before, row.changes, row.fails) else {
        return false;
    };
    is_refusal(refusal(&mut disks, row.from, row.to), row)
        && disks.disks.events() == row.events
        && has(&mut disks, row.after)
}

// The table and the row of the first call that comes to something else. What a proof of a function costs rises more
// than with the square of the references in its constants, so a table has few rows, and a function of its own.
fn first_wrong(alloc: Global, tables: &[&[Call]]) -> Option<(usize, usize)> {
    for (table, rows) in tables.iter().enumerate() {
        for (at, row) in rows.iter().enumerate() {
            if !is_called(alloc, row) {
                return Some((table, at));
            }
        }
    }
    None
}

#[test]
fn names_are_removed_and_renamed(rt: HostRuntime) {
    let tables = [removed(), renamed(), refused(), most_links()];
    assert_eq!(rt; first_wrong(rt.alloc(), &tables), None);
}
