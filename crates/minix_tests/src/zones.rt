// Zones at each level of indirect zones, and how often a sector is read.
ghost use Rattle.std.specs.Prelude.{◌≢◌};
ghost use Rattle.minix_zones.specs.Held.{AreHeld};
ghost use Rattle.lilo_model.specs.MinixLayout.{super_sector};

use crate::disk::{NEVER, Piece, attach, disk_with};
use minix_layout::{FsKind, Inode};
use minix_zones::{HeldZones, Volume, Walk, ZoneAt, ZoneFault, reach, read_at, zone_at};
use sector_parts::Sector;
use std::alloc::Global;
use test_disks::Untold;

// 16 inodes, 40 zones, the first data zone 5. A zone is two sectors of 128 numbers, or of 256 in version 1.
const V1: &[Piece] = &[
    (2, 0, b"\x10\0\x28\0\x01\0\x01\0\x05\0\0\0\0\0\0\0\x7F\x13"),
    // Zone 7 has number 300 at its byte 600.
    (15, 88, b"\x09"),
];

// Zone 7 has number 8 at 0 and number 10 at 200, in its other half. Zone 11 leads by 2 to zone 12, and that by 5 to
// zone 13. Zone 14 leads through 15 and 16 to 17. Zone 18 has at 1 and zone 19 at 3 what is no data zone.
const V2: &[Piece] = &[
    (
        2,
        0,
        b"\x10\0\0\0\x01\0\x01\0\x05\0\0\0\0\0\0\0\x78\x24\0\0\x28",
    ),
    (14, 0, b"\x08"),
    (15, 288, b"\x0A"),
    (22, 8, b"\x0C"),
    (24, 20, b"\x0D"),
    (28, 0, b"\x0F"),
    (30, 0, b"\x10"),
    (32, 0, b"\x11"),
    (36, 4, b"\x28"),
    (38, 12, b"\x04"),
    (16, 0, b"\x01"),
    (16, 511, b"\x02"),
    (17, 0, b"\x03"),
    (17, 511, b"\x04"),
];

const INODE: Inode = Inode {
    mode: 0o100644,
    links: 1,
    uid: 0,
    gid: 0,
    size: 2_147_483_647,
    times: [0; 3],
    zones: [5, 0, 6, 0, 0, 0, 0, 7, 11, 14],
};

const ONE: Inode = Inode {
    zones: [5, 0, 0, 0, 0, 0, 0, 0, 0, 0],
    ..INODE
};

const OUTSIDE: Inode = Inode {
    zones: [4, 40, 39, 0, 0, 0, 0, 18, 19, 41],
    ..INODE
};

// What is at an index of a file on a volume.
struct At {
    is_v1: bool,
    inode: Inode,
    index: u32,
    found: Result<ZoneAt, ZoneFault>,
}

const AT: &[At] = &[
    At {
        is_v1: false,
        inode: INODE,
        index: 0,
        found: Ok(ZoneAt::Zone(5)),
    },
    At {
        is_v1: false,
        inode: INODE,
        index: 1,
        found: Ok(ZoneAt::Hole),
    },
    At {
        is_v1: false,
        inode: INODE,
        index: 7,
        found: Ok(ZoneAt::Zone(8)),
    },
    At {
        is_v1: false,
        inode: INODE,
        index: 8,
        found: Ok(ZoneAt::Hole),
    },
    At {
        is_v1: false,
        inode: INODE,
        index: 207,
        found: Ok(ZoneAt::Zone(10)),
    },
    At {
        is_v1: false,
        inode: INODE,
        index: 263,
        found: Ok(ZoneAt::Hole),
    },
    At {
        is_v1: false,
        inode: INODE,
        index: 780,
        found: Ok(ZoneAt::Zone(13)),
    },
    At {
        is_v1: false,
        inode: INODE,
        index: 781,
        found: Ok(ZoneAt::Hole),
    },
    At {
        is_v1: false,
        inode: INODE,
        index: 65_799,
        found: Ok(ZoneAt::Zone(17)),
    },
    At {
        is_v1: false,
        inode: INODE,
        index: 65_800,
        found: Ok(ZoneAt::Hole),
    },
    // Indirect zones that are holes are holes for all that they would name.
    At {
        is_v1: false,
        inode: ONE,
        index: 2_097_151,
        found: Ok(ZoneAt::Hole),
    },
    At {
        is_v1: false,
        inode: OUTSIDE,
        index: 0,
        found: Err(ZoneFault::ZoneOutside(4)),
    },
    At {
        is_v1: false,
        inode: OUTSIDE,
        index: 1,
        found: Err(ZoneFault::ZoneOutside(40)),
    },
    At {
        is_v1: false,
        inode: OUTSIDE,
        index: 2,
        found: Ok(ZoneAt::Zone(39)),
    },
    At {
        is_v1: false,
        inode: OUTSIDE,
        index: 8,
        found: Err(ZoneFault::ZoneOutside(40)),
    },
    At {
        is_v1: false,
        inode: OUTSIDE,
        index: 1040,
        found: Err(ZoneFault::ZoneOutside(4)),
    },
    At {
        is_v1: false,
        inode: OUTSIDE,
        index: 65_799,
        found: Err(ZoneFault::ZoneOutside(41)),
    },
    At {
        is_v1: true,
        inode: INODE,
        index: 307,
        found: Ok(ZoneAt::Zone(9)),
    },
    At {
        is_v1: true,
        inode: INODE,
        index: 306,
        found: Ok(ZoneAt::Hole),
    },
];

fn is_found(alloc: Global, row: &At) -> bool {
    let pieces = if row.is_v1 { V1 } else { V2 };
    match disk_with(alloc, 88, pieces, &[], NEVER) {
        Ok(mut disks) => is_found_on(&mut disks, row),
        Err(_) => false,
    }
}

fn is_found_on(disks: &mut Untold, row: &At) -> bool {
    match attach(disks) {
        Some(mut volume) => {
            row.index < reach(volume.layout().kind)
                && zone_at(&mut volume, &row.inode, row.index) == row.found
        }
        None => false,
    }
}

#[test]
fn zones_at_each_level(rt: HostRuntime) {
    for (at, row) in AT.iter().enumerate() {
        assert!(rt; is_found(rt.alloc(), row), "{at}");
    }
}

// The first and the last byte of each half of a block.
fn ends(alloc: Global, index: u32) -> Option<[u8; 4]> {
    match disk_with(alloc, 88, V2, &[], NEVER) {
        Ok(mut disks) => ends_on(&mut disks, index),
        Err(_) => None,
    }
}

fn ends_on(disks: &mut Untold, index: u32) -> Option<[u8; 4]> {
    let mut volume = attach(disks)?;
    let mut bytes = [7; 1024];
    if index < reach(volume.layout().kind)
        && read_at(&mut volume, &INODE, index, &mut bytes).is_ok()
    {
        return Some([bytes[0], bytes[511], bytes[512], bytes[1023]]);
    }
    None
}

#[test]
fn bytes_of_a_zone_and_of_a_hole(rt: HostRuntime) {
    assert!(rt; ends(rt.alloc(), 7) == Some([1, 2, 3, 4]));
    assert!(rt; ends(rt.alloc(), 8) == Some([0; 4]));
}

// The zones of the inode, each with the index of its block and whether it is indirect.
const WALK: &[(u32, u32, bool)] = &[
    (5, 0, false),
    (6, 2, false),
    (7, 7, true),
    (8, 7, false),
    (10, 207, false),
    (11, 263, true),
    (12, 775, true),
    (13, 780, false),
    (14, 65_799, true),
    (15, 65_799, true),
    (16, 65_799, true),
    (17, 65_799, false),
];

// How many zones are met one after the other as they should be, and whether nothing else is met then.
fn walked(volume: &mut Volume<'_, Untold>, held: &mut HeldZones) -> (usize, bool)
    requires { AreHeld volume.old held.old }
{
    let mut walk = Walk::new(&INODE, FsKind::V2Long);
    for (count, wanted) in WALK.iter().enumerate() {
        match walk.next_held(volume, held) {
            Ok(Some(visit)) if (visit.zone, visit.index, visit.indirect) == *wanted => {}
            _ => return (count, false),
        }
    }
    (WALK.len(), walk.next_held(volume, held) == Ok(None))
}

// A walk on a disk of which one call fails.
fn walk(alloc: Global, call: u64) -> Option<(usize, bool)> {
    match disk_with(alloc, 88, V2, &[], call) {
        Ok(mut disks) => walk_on(&mut disks),
        Err(_) => None,
    }
}

fn walk_on(disks: &mut Untold) -> Option<(usize, bool)> {
    let mut volume = attach(disks)?;
    let mut held = HeldZones::of(&volume);
    Some(walked(&mut volume, &mut held))
}

// The superblock is call 0, and each of six indirect zones is read once, by two calls.
#[test]
fn each_indirect_zone_is_read_once(rt: HostRuntime) {
    for (call, met) in [(3, (6, false)), (12, (11, false)), (13, (12, true))] {
        assert!(rt; walk(rt.alloc(), call) == Some(met), "{call}");
    }
}

// The first byte of a sector, where it can be read.
fn first_byte(volume: &mut Volume<'_, Untold>, number: u64) -> Option<u8> {
    let mut sector: Sector = [1; 512];
    if number < volume.span().count && volume.read_sector(number, &mut sector).is_ok() {
        Some(sector[0])
    } else {
        None
    }
}

fn write(volume: &mut Volume<'_, Untold>, number: u64, bytes: &Sector) -> bool
    requires { number ≢ super_sector }
{
    number < volume.span().count && volume.write_sector(number, bytes).is_ok()
}

// Call 1 reads the sector, call 2 writes it, and call 3 reads it again.
fn held_reads(volume: &mut Volume<'_, Untold>) -> [Option<u8>; 6] {
    volume.hold_sectors();
    let first = first_byte(volume, 79);
    let again = first_byte(volume, 79);
    let _is_written = write(volume, 79, &[5; 512]);
    let written = first_byte(volume, 79);
    volume.hold_sectors();
    [
        first,
        again,
        written,
        first_byte(volume, 79),
        first_byte(volume, 79),
        first_byte(volume, 78),
    ]
}

fn held_reads_on(disks: &mut Untold) -> [Option<u8>; 6] {
    match attach(disks) {
        Some(mut volume) => held_reads(&mut volume),
        None => [None; 6],
    }
}

fn are_held(alloc: Global, call: u64) -> bool {
    match disk_with(alloc, 88, V2, &[], call) {
        Ok(mut disks) => {
            held_reads_on(&mut disks) == [Some(0), Some(0), Some(5), Some(5), Some(5), None]
        }
        Err(_) => false,
    }
}

#[test]
fn held_sectors_are_read_once(rt: HostRuntime) {
    assert!(rt; are_held(rt.alloc(), 5));
}
