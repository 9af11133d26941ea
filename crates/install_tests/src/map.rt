// The map that is installed: the zones in which a boot looks at it, whether it is clear, and which file holds it.
use crate::pieces::{Piece, disk_of};
use disk_trait::{Disks, Failing, MemDisks, Span};
use minix_survey::survey;
use minix_tree::stat_of;
use minix_zones::Volume;
use present_map::{OldMap, OldMapFault, holds_table, is_clear, read_old_map};
use std::alloc::Global;
use std::mem::drop;
use std::test::Fail;

// A volume of version 1 from sector 20 on, of 128 zones with 16 inodes: zone z has the sectors 20 + 2 z and 21 + 2 z.
// The root's one file, inode 2, has the zones 37 and 38, in which the table lies.
//
// The map's boot sector is sector 0. It has one name: the line in 94, the table in 95 to 97, the options in 99, the
// kernel's section in 100 and its three sectors 82 to 84. The slots are of numbers that are read as they are.
const DISK: &[Piece] = &[
    (22, 0, b"\x10\0\x80\0\x01\0\x01\0\x05"),
    (22, 13, b"\x1c\x08\x10\x8f\x13\x01"),
    (24, 0, b"\x07"),
    (26, 0, b"\x03\0\0\0\x06"),
    (28, 0, b"\xedA\0\0\x60"),
    (28, 13, b"\x02\x05"),
    (28, 32, b"\xa4\x81\0\0\0\x08"),
    (28, 45, b"\x01\x25\0\x26"),
    (30, 0, b"\x01\0."),
    (30, 32, b"\x01\0.."),
    (30, 64, b"\x02\0map"),
    (0, 0, b"\xEB\x7ELILO\x01\0"),
    (0, 0x10, b"\xFF\xFF\x01\0"),
    (0, 0x18, b"\x03\x80\x01\0\x5E\0\0\0\x03\x80\x01\0\x62\0\0\0"),
    (0, 0x30, b"\x03\x80\x01\0\x5F\0\0\0\x03\x80\x01\0\x60\0\0\0"),
    (0, 0x40, b"\x03\x80\x01\0\x61\0\0\0"),
    (0, 0x1FE, b"\x55\xAA"),
    (95, 0, b"linux"),
    (95, 20, b"\x05\x04\0\0"),
    (95, 28, b"\x03\x80\x01\0\x63\0\0\0\x03\x80\x01\0\x64\0\0\0"),
    (95, 52, b"\x01\0"),
    (100, 0, b"\x03\x80\x02\0\x52\0\0\0\x03\x80\x01\0\x54\0\0\0"),
];

// The same with an initrd whose section is 104, of the one sector 106; extra texts in 108; and a message whose
// section is 110, of the one sector 112.
const MORE: &[Piece] = &[
    (95, 16, b"\x52"),
    (95, 24, b"\x09\0\0\0"),
    (95, 44, b"\x03\x80\x01\0\x68\0\0\0"),
    (95, 54, b"\x01\0\x03\x80\x01\0\x6C\0\0\0"),
    (104, 0, b"\x03\x80\x01\0\x6A\0\0\0"),
    (0, 0x14, b"\x05\0\x01\0"),
    (0, 0x28, b"\x03\x80\x01\0\x6E\0\0\0"),
    (110, 0, b"\x03\x80\x01\0\x70\0\0\0"),
];

const FOREIGN: &[Piece] = &[(0, 0, b"\xEB\x3C")];

const VOLUME: Span = Span {
    disk: 0,
    start: 20,
    count: 256,
};

const BOOT: Span = Span {
    disk: 0,
    start: 0,
    count: 512,
};

// Changes of the disk, whether the boot sector is another system's then, and the zones.
struct Zones {
    changes: &'static [Piece],
    is_foreign: bool,
    zones: &'static [u32],
}

// Each list is followed up to its first refusal. The zones of the whole are those of 82 and 83, 84, 94 and 95, 96 and
// 97, 99, and 100.
const ZONES: &[Zones] = &[
    Zones {
        changes: &[],
        is_foreign: false,
        zones: &[31, 32, 37, 38, 39, 40],
    },
    Zones {
        changes: MORE,
        is_foreign: false,
        zones: &[31, 32, 37, 38, 39, 40, 42, 43, 44, 45, 46],
    },
    Zones {
        changes: FOREIGN,
        is_foreign: true,
        zones: &[],
    },
    // A flag that isn't known.
    Zones {
        changes: &[(0, 0x0C, b"\x02")],
        is_foreign: false,
        zones: &[],
    },
    // The second slot of the section is none, names a sector past the disk, or is absent.
    Zones {
        changes: &[(100, 8, b"\x09")],
        is_foreign: false,
        zones: &[31, 37, 38, 39, 40],
    },
    Zones {
        changes: &[(100, 12, b"\0\x02")],
        is_foreign: false,
        zones: &[31, 37, 38, 39, 40],
    },
    Zones {
        changes: &[(100, 8, b"\0\0\0\0\0\0\0\0")],
        is_foreign: false,
        zones: &[31, 37, 38, 39, 40],
    },
    // A sector of the table past the disk, and an entry without a name.
    Zones {
        changes: &[(0, 0x3C, b"\0\x02")],
        is_foreign: false,
        zones: &[37],
    },
    Zones {
        changes: &[(95, 0, b"\0")],
        is_foreign: false,
        zones: &[37, 38],
    },
];

fn has_zones(old: &OldMap, zones: &[u32]) -> bool {
    for zone in 0..256 {
        if old.has_zone(zone) != zones.contains(&zone) {
            return false;
        }
    }
    true
}

// Whether what is read is of another system, and whether its zones are these; or why it isn't read.
fn read(alloc: Global, disks: &mut MemDisks, zones: &[u32]) -> Result<(bool, bool), OldMapFault> {
    if disks.size(0) < 512 {
        return Err(OldMapFault::Memory);
    }
    let Ok(mut volume) = Volume::attach(disks, VOLUME) else {
        return Err(OldMapFault::Device);
    };
    match read_old_map(alloc, &mut volume, BOOT) {
        Ok(old) => Ok((old.is_foreign(), has_zones(&old, zones))),
        Err(fault) => Err(fault),
    }
}

// A call that is never made.
const NONE: Failing = Failing {
    call: 99,
    made: false,
};

#[test]
fn zones_of_a_map_are_found(rt: HostRuntime) -> Result<(), Fail> {
    for row in ZONES {
        let mut disks = disk_of(rt.alloc(), DISK, row.changes, NONE)?;
        let found = read(rt.alloc(), &mut disks, row.zones);
        assert!(rt; found == Ok((row.is_foreign, true)), "{:?}", row.changes);
    }
    Ok(())
}

// The boot sector, three sectors of the table and one of the section are read, after the volume's superblock.
const READS: &[(u64, Result<(bool, bool), OldMapFault>)] = &[
    (1, Err(OldMapFault::Device)),
    (2, Err(OldMapFault::Device)),
    (4, Err(OldMapFault::Device)),
    (5, Err(OldMapFault::Device)),
    (6, Ok((false, true))),
];

#[test]
fn a_failing_disk_is_reported(rt: HostRuntime) -> Result<(), Fail> {
    for (call, wanted) in READS {
        let failing = Failing {
            call: *call,
            made: false,
        };
        let mut disks = disk_of(rt.alloc(), DISK, &[], failing)?;
        let found = read(rt.alloc(), &mut disks, &[31, 32, 37, 38, 39, 40]);
        assert!(rt; found == *wanted, "call {call}");
    }
    Ok(())
}

// Changes of the disk, whether the map is clear then, the number of an inode, and whether that holds the table.
struct Judged {
    changes: &'static [Piece],
    clear: Option<bool>,
    number: u32,
    holds: bool,
}

// A line in the superblock or in a directory's zone isn't clear, one in the block before the superblock is; a table's
// sector in another zone isn't held.
const JUDGED: &[Judged] = &[
    Judged {
        changes: &[],
        clear: Some(true),
        number: 2,
        holds: true,
    },
    Judged {
        changes: &[],
        clear: Some(true),
        number: 1,
        holds: false,
    },
    Judged {
        changes: FOREIGN,
        clear: None,
        number: 2,
        holds: false,
    },
    Judged {
        changes: &[(0, 0x1C, b"\x15")],
        clear: Some(true),
        number: 2,
        holds: true,
    },
    Judged {
        changes: &[(0, 0x1C, b"\x16")],
        clear: Some(false),
        number: 2,
        holds: true,
    },
    Judged {
        changes: &[(0, 0x1C, b"\x1E")],
        clear: Some(false),
        number: 2,
        holds: true,
    },
    Judged {
        changes: &[(0, 0x44, b"\x62")],
        clear: Some(true),
        number: 2,
        holds: false,
    },
];

// Whether the map is clear, where all that is asked for it can be had.
fn clear_of(alloc: Global, disks: &mut MemDisks) -> Option<Option<bool>> {
    if disks.size(0) < 512 {
        return None;
    }
    let Ok(mut volume) = Volume::attach(disks, VOLUME) else {
        return None;
    };
    let Ok(old) = read_old_map(alloc, &mut volume, BOOT) else {
        return None;
    };
    let Ok(findings) = survey(alloc, &mut volume) else {
        drop(old);
        return None;
    };
    let clear = is_clear(&mut volume, &old, &findings).ok();
    drop(findings);
    drop(old);
    clear
}

// Whether an inode holds the table, where that can be told.
fn holder_of(disks: &mut MemDisks, number: u32) -> Option<bool> {
    if disks.size(0) < 512 {
        return None;
    }
    let Ok(mut volume) = Volume::attach(disks, VOLUME) else {
        return None;
    };
    if number == 0 || number > volume.layout().inodes {
        return None;
    }
    let Ok(stat) = stat_of(&mut volume, number) else {
        return None;
    };
    holds_table(&mut volume, BOOT, &stat).ok()
}

#[test]
fn a_map_is_judged(rt: HostRuntime) -> Result<(), Fail> {
    for row in JUDGED {
        let mut disks = disk_of(rt.alloc(), DISK, row.changes, NONE)?;
        let clear = clear_of(rt.alloc(), &mut disks);
        let holds = holder_of(&mut disks, row.number);
        assert!(rt; clear == Some(row.clear), "{:?}", row.changes);
        assert!(rt; holds == Some(row.holds), "{:?}", row.changes);
    }
    Ok(())
}
