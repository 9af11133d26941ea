// Where a volume is found, and who owns its zones.
use crate::disk::{NEVER, Piece, attach, disk_with};
use disk_trait::{Disks, Failing, Geometry, MemDisk, MemDisks};
use mbr_table::{Device, TableFault};
use minix_search::{Located, VolumeFault, find_volume};
use minix_survey::{Findings, survey};
use sector_parts::{Sector, put_part};
use std::alloc::{AllocError, Global};
use test_disks::{Untold, made_again};

// Disks of so many sectors, of which the last has these pieces by their sectors, and a named partition, if any.
struct Search {
    sizes: &'static [u32],
    pieces: &'static [Piece],
    named: Option<(u8, u8)>,
    found: Found,
}

// The disk, the partition, the start and the count of a volume.
type Found = Result<(u8, u8, u64, u64), VolumeFault>;

// A table of one partition from sector 64 on, of 4032 sectors, or of 37.
const ENTRY: Piece = (0, 450, b"\x81\0\0\0\x40\0\0\0\xC0\x0F");

const FAR: Piece = (0, 450, b"\x81\0\0\0\x40\0\0\0\x25");

const END: Piece = (0, 510, b"\x55\xAA");

const SEARCHES: &[Search] = &[
    Search {
        sizes: &[],
        pieces: &[],
        named: None,
        found: Err(VolumeFault::NoVolume),
    },
    // Each magic number, and another one.
    Search {
        sizes: &[4],
        pieces: &[(2, 16, b"\x7F\x13")],
        named: None,
        found: Ok((0, 0, 0, 4)),
    },
    Search {
        sizes: &[4],
        pieces: &[(2, 16, b"\x8F\x13")],
        named: None,
        found: Ok((0, 0, 0, 4)),
    },
    Search {
        sizes: &[4],
        pieces: &[(2, 16, b"\x68\x24")],
        named: None,
        found: Ok((0, 0, 0, 4)),
    },
    Search {
        sizes: &[4],
        pieces: &[(2, 16, b"\x78\x24")],
        named: None,
        found: Ok((0, 0, 0, 4)),
    },
    Search {
        sizes: &[4],
        pieces: &[(2, 16, b"\x5A\x4D")],
        named: None,
        found: Err(VolumeFault::NoVolume),
    },
    // Three sectors have none.
    Search {
        sizes: &[3],
        pieces: &[(2, 16, b"\x7F\x13")],
        named: None,
        found: Err(VolumeFault::NoVolume),
    },
    Search {
        sizes: &[3],
        pieces: &[(2, 16, b"\x7F\x13")],
        named: Some((0, 0)),
        found: Err(VolumeFault::NoVolume),
    },
    // A disk without a table is passed over.
    Search {
        sizes: &[100, 4096],
        pieces: &[ENTRY, END, (66, 16, b"\x8F\x13")],
        named: None,
        found: Ok((1, 1, 64, 4032)),
    },
    // The whole disk comes before its table, which is refused.
    Search {
        sizes: &[100],
        pieces: &[FAR, END],
        named: None,
        found: Err(VolumeFault::Place(TableFault::OutsideDisk(1))),
    },
    Search {
        sizes: &[100],
        pieces: &[FAR, END, (2, 16, b"\x68\x24")],
        named: None,
        found: Ok((0, 0, 0, 100)),
    },
    // What is named needs no magic number.
    Search {
        sizes: &[4096],
        pieces: &[ENTRY, END],
        named: Some((0, 1)),
        found: Ok((0, 1, 64, 4032)),
    },
    Search {
        sizes: &[4096],
        pieces: &[ENTRY, END],
        named: Some((0, 2)),
        found: Err(VolumeFault::Place(TableFault::NoPartition(2))),
    },
    Search {
        sizes: &[4096],
        pieces: &[ENTRY, END],
        named: Some((2, 0)),
        found: Err(VolumeFault::Place(TableFault::NoDisk(2))),
    },
];

fn put(disks: &mut MemDisks, disk: u8, pieces: &[Piece]) {
    for (sector, at, bytes) in pieces {
        let mut whole: Sector = [0; 512];
        if *at < 512 && bytes.len() <= 512 - *at {
            let read = disks.read(disk, *sector, &mut whole).is_ok();
            put_part(&mut whole, *at, bytes);
            let _written = read && disks.write(disk, *sector, &whole).is_ok();
        }
    }
}

// At most two disks of so many sectors.
fn disks_of(alloc: Global, sizes: &[u32]) -> Result<MemDisks, AllocError> {
    let Ok(geometry) = Geometry::new(16, 63) else {
        return Err(AllocError);
    };
    let first = sizes.first().copied().unwrap_or(0);
    let last = sizes.last().copied().unwrap_or(0);
    let disks = [first, last].map(|sectors| MemDisk { sectors, geometry });
    MemDisks::new(alloc, &disks[..sizes.len().min(2)], 9, &[])
}

// At most two disks of so many sectors, the last with these pieces, of which the call with this number fails.
fn disks_with(
    alloc: Global,
    sizes: &[u32],
    pieces: &[Piece],
    call: u64,
) -> Result<Untold, AllocError> {
    let mut disks = disks_of(alloc, sizes)?;
    put(&mut disks, (sizes.len() > 1) as u8, pieces);
    let failing = [Failing { call, made: false }];
    let disks = made_again(alloc, &disks, 0, &failing)?;
    Ok(Untold { disks })
}

fn found_on(disks: &mut Untold, named: Option<(u8, u8)>) -> Option<Found> {
    let named = match named {
        Some((disk, partition)) => Some(Device { disk, partition }),
        None => None,
    };
    match find_volume(disks, named) {
        Ok(Located { device, span }) if device.disk == span.disk => {
            Some(Ok((device.disk, device.partition, span.start, span.count)))
        }
        Ok(_) => None,
        Err(fault) => Some(Err(fault)),
    }
}

fn is_found(alloc: Global, row: &Search, call: u64) -> bool {
    match disks_with(alloc, row.sizes, row.pieces, call) {
        Ok(mut disks) => found_on(&mut disks, row.named) == Some(row.found),
        Err(_) => false,
    }
}

// Each of the first three calls may fail.
const FAILED: Search = Search {
    sizes: &[4096],
    pieces: &[ENTRY, END],
    named: None,
    found: Err(VolumeFault::Place(TableFault::Device)),
};

#[test]
fn a_volume_is_searched(rt: HostRuntime) {
    for (at, row) in SEARCHES.iter().enumerate() {
        assert!(rt; is_found(rt.alloc(), row, NEVER), "{at}");
    }
    for call in 0..3 {
        assert!(rt; is_found(rt.alloc(), &FAILED, call), "{call}");
    }
}

// Version 1 with names of 30 bytes, 64 inodes and the first data zone 6. The root has the directories boot (2) and etc
// (3), boot has the files vmlinuz (4), initrd (5) and boot.b (6), and etc has lilo.conf (7). The zones are 6 to 13 in
// this order, vmlinuz has two.
const BOOT: &[Piece] = &[
    (2, 0, b"\x40\0\x80\0\x01\0\x01\0\x06"),
    (2, 13, b"\x1c\x08\x10\x8f\x13\x01"),
    (4, 0, b"\xff"),
    (6, 0, b"\xff\x01"),
    (8, 0, b"\xedA\0\0\x80"),
    (8, 13, b"\x04\x06"),
    (8, 32, b"\xedA\0\0\xa0"),
    (8, 45, b"\x02\x07"),
    (8, 64, b"\xedA\0\0\x60"),
    (8, 77, b"\x02\x08"),
    (8, 96, b"\xa4\x81\0\0\x05\x04"),
    (8, 109, b"\x01\x09\0\x0a"),
    (8, 128, b"\xa4\x81\0\0\xbc\x02"),
    (8, 141, b"\x01\x0b"),
    (8, 160, b"\xa4\x81\0\0\0\x02"),
    (8, 173, b"\x01\x0c"),
    (8, 192, b"\xa4\x81\0\0\xb4"),
    (8, 205, b"\x01\x0d"),
    (12, 0, b"\x01\0."),
    (12, 32, b"\x01\0.."),
    (12, 64, b"\x02\0boot"),
    (12, 96, b"\x03\0etc"),
    (14, 0, b"\x02\0."),
    (14, 32, b"\x01\0.."),
    (14, 64, b"\x04\0vmlinuz"),
    (14, 96, b"\x05\0initrd"),
    (14, 128, b"\x06\0boot.b"),
    (16, 0, b"\x03\0."),
    (16, 32, b"\x01\0.."),
    (16, 64, b"\x07\0lilo.conf"),
];

// initrd has two names, and a zone of numbers.
const TWICE: &[Piece] = &[
    (6, 1, b"\x03"),
    (8, 141, b"\x02\0"),
    (8, 156, b"\x0b"),
    (8, 64, b"\xedA\0\0\x80"),
    (16, 96, b"\x05\0initrd"),
    (22, 0, b"\x0e"),
];

// The owner of a zone, 0 where it has none, and 100 more where the zone has numbers.
fn owner(found: &Findings, zone: u32) -> u32 {
    let numbers = if found.indirect(zone) { 100 } else { 0 };
    found.owner(zone).unwrap_or(0).saturating_add(numbers)
}

// The owners of zones 6, 9, 10, 11 and 14, and how many names the inodes 4, 5 and 8 have.
fn owners(alloc: Global, changes: &[Piece], call: u64) -> Option<[u32; 8]> {
    match disk_with(alloc, 264, BOOT, changes, call) {
        Ok(mut disks) => owners_on(alloc, &mut disks),
        Err(_) => None,
    }
}

fn owners_on(alloc: Global, disks: &mut Untold) -> Option<[u32; 8]> {
    let mut volume = attach(disks)?;
    match survey(alloc, &mut volume) {
        Ok(found) => Some(owners_in(&found)),
        Err(_) => None,
    }
}

fn owners_in(found: &Findings) -> [u32; 8] {
    [
        owner(found, 6),
        owner(found, 9),
        owner(found, 10),
        owner(found, 11),
        owner(found, 14),
        found.names(4),
        found.names(5),
        found.names(8),
    ]
}

#[test]
fn owners_and_names_are_found(rt: HostRuntime) {
    let alloc = rt.alloc();
    assert!(rt; owners(alloc, &[], NEVER) == Some([1, 4, 4, 5, 0, 1, 1, 0]));
    assert!(rt; owners(alloc, TWICE, NEVER) == Some([1, 4, 4, 105, 5, 1, 2, 0]));
    assert!(rt; owners(alloc, &[], 3) == None);
}
