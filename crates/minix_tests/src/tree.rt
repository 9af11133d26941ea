// Paths, entries and files on a volume that is written piece by piece.
use crate::disk::{NEVER, Piece, attach, disk_with};
use minix_layout::FsKind;
use minix_tree::{DirEntry, TreeFault, entries_in, lookup, lookup_name, read_file};
use minix_zones::ZoneFault;
use std::alloc::Global;
use test_disks::Untold;

// Version 2 with names of 14 bytes: 32 inodes of 64 bytes in blocks 4 and 5, 40 zones, the first data zone 6.
const TREE: &[Piece] = &[
    (
        2,
        0,
        b"\x20\0\0\0\x01\0\x01\0\x06\0\0\0\0\0\0\0\x68\x24\0\0\x28",
    ),
    // The root 1 in zone 6, whose size ends in the middle of its entry `cut`; and the directory `boot` 2 in zone 7, whose
    // first block is a hole.
    (8, 0, b"\xED\x41\0\0\0\0\0\0\x48"),
    (8, 24, b"\x06"),
    (8, 64, b"\xED\x41\0\0\0\0\0\0\x60\x04"),
    (8, 92, b"\x07"),
    // The file 3 of 1027 bytes, the empty one 4, and the links 5, 6 and 7, of which the last leads to itself.
    (8, 128, b"\xA4\x81\0\0\0\0\0\0\x03\x04"),
    (8, 152, b"\x08\0\0\0\x09"),
    (8, 192, b"\xA4\x81"),
    (8, 256, b"\xFF\xA1\0\0\0\0\0\0\x0C"),
    (8, 280, b"\x0A"),
    (8, 320, b"\xFF\xA1\0\0\0\0\0\0\x04"),
    (8, 344, b"\x0B"),
    (8, 384, b"\xFF\xA1\0\0\0\0\0\0\x02"),
    (8, 408, b"\x0C"),
    (12, 0, b"\x01\0."),
    (12, 16, b"\x01\0.."),
    (12, 32, b"\x02\0boot"),
    (12, 48, b"\x06\0d"),
    (12, 64, b"\x03\0cut"),
    // The inode of `ghost` isn't there.
    (14, 0, b"\x01\0.."),
    (14, 16, b"\x03\0file"),
    (14, 32, b"\x04\0empty"),
    (14, 48, b"\x21\0ghost"),
    (14, 64, b"\x05\0up"),
    (14, 80, b"\x07\0me"),
    (16, 0, b"abc"),
    (18, 0, b"defghi"),
    (20, 0, b"../boot/file"),
    (22, 0, b"boot"),
    (24, 0, b"me"),
];

// A path, whether a link in its last component is followed, and the inode that is found.
struct Path {
    path: &'static [u8],
    followed: bool,
    found: Result<u32, TreeFault>,
}

const PATHS: &[Path] = &[
    Path {
        path: b"/",
        followed: true,
        found: Ok(1),
    },
    Path {
        path: b"/..",
        followed: true,
        found: Ok(1),
    },
    Path {
        path: b"//boot//file/",
        followed: true,
        found: Ok(3),
    },
    Path {
        path: b"/d",
        followed: true,
        found: Ok(2),
    },
    Path {
        path: b"/d/",
        followed: false,
        found: Ok(6),
    },
    Path {
        path: b"/d/empty",
        followed: true,
        found: Ok(4),
    },
    Path {
        path: b"/d/empty",
        followed: false,
        found: Ok(4),
    },
    Path {
        path: b"/boot/up",
        followed: true,
        found: Ok(3),
    },
    Path {
        path: b"/boot/up",
        followed: false,
        found: Ok(5),
    },
    Path {
        path: b"/boot/me",
        followed: true,
        found: Err(TreeFault::TooManyLinks),
    },
    Path {
        path: b"/boot/me",
        followed: false,
        found: Ok(7),
    },
    Path {
        path: &[b'/'; 1024],
        followed: true,
        found: Ok(1),
    },
    Path {
        path: &[b'/'; 1025],
        followed: true,
        found: Err(TreeFault::PathTooLong),
    },
    Path {
        path: b"boot",
        followed: true,
        found: Err(TreeFault::NotFound(0)),
    },
    Path {
        path: b"",
        followed: true,
        found: Err(TreeFault::NotFound(0)),
    },
    Path {
        path: b"/boot/none",
        followed: true,
        found: Err(TreeFault::NotFound(1)),
    },
    Path {
        path: b"/cut",
        followed: true,
        found: Err(TreeFault::NotFound(0)),
    },
    Path {
        path: b"/boot/file/x",
        followed: true,
        found: Err(TreeFault::NotDirectory(2)),
    },
    Path {
        path: b"/boot/ghost",
        followed: true,
        found: Err(TreeFault::BadEntry(2)),
    },
];

fn number(alloc: Global, path: &[u8], followed: bool, call: u64) -> Option<Result<u32, TreeFault>> {
    match disk_with(alloc, 88, TREE, &[], call) {
        Ok(mut disks) => number_on(&mut disks, path, followed),
        Err(_) => None,
    }
}

fn number_on(disks: &mut Untold, path: &[u8], followed: bool) -> Option<Result<u32, TreeFault>> {
    let mut volume = attach(disks)?;
    let found = if followed {
        lookup(&mut volume, path)
    } else {
        lookup_name(&mut volume, path)
    };
    match found {
        Ok(stat) => Some(Ok(stat.inode)),
        Err(fault) => Some(Err(fault)),
    }
}

// Whether a path leads where it should.
fn leads(alloc: Global, row: &Path) -> bool {
    match number(alloc, row.path, row.followed, NEVER) {
        Some(found) => found == row.found,
        None => false,
    }
}

// Whether the failure of a call is told on the way to `boot`, its inode being found else.
fn is_told(alloc: Global, call: u64) -> Option<bool> {
    match number(alloc, b"/boot", true, call) {
        Some(Ok(2)) => Some(false),
        Some(Err(TreeFault::Zone(ZoneFault::Device))) => Some(true),
        _ => None,
    }
}

#[test]
fn paths_lead_somewhere_or_nowhere(rt: HostRuntime) {
    for (at, row) in PATHS.iter().enumerate() {
        assert!(rt; leads(rt.alloc(), row), "{at}");
    }
    // The superblock is read first, then the root's inode, the two halves of its block, and the inode of `boot`.
    for call in 1..6 {
        assert!(rt; is_told(rt.alloc(), call) == Some(call < 5), "{call}");
    }
}

fn block_of_names() -> [u8; 1024] {
    let mut block = [0; 1024];
    block[32] = 2;
    block[34..48].copy_from_slice(b"fourteen-bytes");
    block[992..997].copy_from_slice(b"\x01\x01end");
    block
}

fn are_lent(block: &[u8; 1024]) -> bool {
    let mut entries = entries_in(block, FsKind::V1Short);
    let first = DirEntry {
        inode: 2,
        name: b"fourteen-bytes",
        at: 32,
    };
    let last = DirEntry {
        inode: 257,
        name: b"end",
        at: 992,
    };
    entries.next() == Some(first) && entries.next() == Some(last) && entries.next() == None
}

// Free entries are passed, and a name that fills its field has no zero after it.
#[test]
fn names_lent_from_a_block(rt: HostRuntime) {
    assert!(rt; are_lent(&block_of_names()));
}

// The length of a file, its first bytes and its last ones.
fn length(alloc: Global, path: &[u8], first: &[u8], last: &[u8]) -> Option<usize> {
    match disk_with(alloc, 88, TREE, &[], NEVER) {
        Ok(mut disks) => length_on(alloc, &mut disks, path, first, last),
        Err(_) => None,
    }
}

fn length_on(
    alloc: Global,
    disks: &mut Untold,
    path: &[u8],
    first: &[u8],
    last: &[u8],
) -> Option<usize> {
    let mut volume = attach(disks)?;
    match read_file(alloc, &mut volume, path) {
        Ok(text) => length_between(text.bytes(), first, last),
        Err(_) => None,
    }
}

fn length_between(bytes: &[u8], first: &[u8], last: &[u8]) -> Option<usize> {
    if bytes.starts_with(first) && bytes.ends_with(last) {
        Some(bytes.len())
    } else {
        None
    }
}

#[test]
fn files_are_read(rt: HostRuntime) {
    let alloc = rt.alloc();
    assert!(rt; length(alloc, b"/d/up", b"abc\0", b"\0def") == Some(1027));
    assert!(rt; length(alloc, b"/boot/empty", b"", b"") == Some(0));
    assert!(rt; length(alloc, b"/boot", b"", b"") == None);
}
