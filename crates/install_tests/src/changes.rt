// Calls that write one sector of what is installed, in which a disk fails.
use crate::pieces::{Piece, disk_of};
use boot_backup::{RestoreFault, restore};
use disk_trait::{Disks, Failing, MemDisks, Phase, Span};
use mbr_table::Device;
use one_shot::{ShotFault, clear_line, set_line};
use sector_parts::Sector;
use std::test::Fail;

// A boot sector of one name, whose line is in sector 94 and is kept. From sector 0 on too a Minix volume of version 1
// with names of 14 bytes, 16 inodes and 32 zones, of which the first data zone is 5: inode 2 is `/boot`, and inode 3
// the backup of the disk.
const DISK: &[Piece] = &[
    (0, 0, b"\xEB\x7ELILO\x01\0"),
    (0, 0x10, b"\xFF\xFF\x01\0"),
    (0, 0x18, b"\x03\x80\x01\0\x5E\0\0\0\x03\x80\x01\0\x62\0\0\0"),
    (0, 0x30, b"\x03\x80\x01\0\x5F\0\0\0\x03\x80\x01\0\x60\0\0\0"),
    (0, 0x40, b"\x03\x80\x01\0\x61\0\0\0"),
    (0, 0x1FE, b"\x55\xAA"),
    (2, 0, b"\x10\0\x20\0\x01\0\x01\0\x05\0"),
    (2, 16, b"\x7F\x13"),
    (8, 0, b"\xED\x41\0\0\x30\0\0\0"),
    (8, 14, b"\x05"),
    (8, 32, b"\xED\x41\0\0\x30\0\0\0"),
    (8, 46, b"\x06"),
    (8, 64, b"\xA4\x81\0\0\0\x02\0\0"),
    (8, 78, b"\x07"),
    (10, 0, b"\x01\0."),
    (10, 32, b"\x02\0boot"),
    (12, 32, b"\x03\0boot.0300"),
    (14, 0, &[0xB7; 512]),
    (94, 0, b"LINE\x02\0\x05\0linux"),
];

// The whole disk, which boots.
const BOOT: Span = Span {
    disk: 0,
    start: 0,
    count: 512,
};

const HDA: Device = Device {
    disk: 0,
    partition: 0,
};

// The sector of the line, and the boot sector.
const LINE: u64 = 94;

const FIRST: u64 = 0;

#[derive(Clone, Copy)]
enum Change {
    Set,
    Clear,
    Restore,
}

// A change in which a call of the disk fails, of which a write is made or not; its answer: 0, or 8, 9 and 10 where the
// disk failed before the commit, in it and after it; and what its sector begins with then.
struct Row {
    change: Change,
    call: u64,
    made: bool,
    answer: u8,
    sector: u64,
    head: &'static [u8],
}

const KEPT: Row = Row {
    change: Change::Set,
    call: 0,
    made: false,
    answer: 8,
    sector: LINE,
    head: b"LINE\x02\0\x05\0linux\0",
};

const ONCE: Row = Row {
    head: b"LINE\x01\0\x05\0other\0",
    answer: 9,
    ..KEPT
};

const CLEARED: Row = Row {
    change: Change::Clear,
    head: b"LINE\0\0\0\0\0\0\0\0\0\0",
    answer: 9,
    ..KEPT
};

const PRESENT: Row = Row {
    change: Change::Restore,
    sector: FIRST,
    head: b"\xEB\x7ELILO\x01\0",
    ..KEPT
};

const RESTORED: Row = Row {
    head: &[0xB7; 440],
    answer: 9,
    ..PRESENT
};

// A call that is never made.
const NEVER: u64 = 99;

const ROWS: &[Row] = &[
    // The boot sector is read, and the line's sector is written and flushed.
    KEPT,
    Row {
        call: 1,
        answer: 9,
        ..KEPT
    },
    Row {
        call: 1,
        made: true,
        ..ONCE
    },
    Row { call: 2, ..ONCE },
    Row {
        call: NEVER,
        answer: 0,
        ..ONCE
    },
    Row {
        change: Change::Clear,
        ..KEPT
    },
    Row {
        change: Change::Clear,
        call: 1,
        answer: 9,
        ..KEPT
    },
    Row {
        call: 1,
        made: true,
        ..CLEARED
    },
    Row { call: 2, ..CLEARED },
    Row {
        call: NEVER,
        answer: 0,
        ..CLEARED
    },
    // Call 0 reads the boot sector, call 1 finds the volume, and calls 2 to 11 read its superblock, three inodes, two
    // directories and the backup; then come the write and the flush.
    PRESENT,
    Row { call: 1, ..PRESENT },
    Row { call: 2, ..PRESENT },
    Row {
        call: 11,
        ..PRESENT
    },
    Row {
        call: 12,
        answer: 9,
        ..PRESENT
    },
    Row {
        call: 12,
        made: true,
        ..RESTORED
    },
    Row {
        call: 13,
        ..RESTORED
    },
    Row {
        call: NEVER,
        answer: 0,
        ..RESTORED
    },
];

fn number_of(phase: Phase) -> u8 {
    match phase {
        Phase::Before => 8,
        Phase::Commit => 9,
        Phase::After => 10,
    }
}

// What setting or clearing the line answers; 1 is of another refusal.
fn shot_answer(answer: Result<(), ShotFault>) -> u8 {
    match answer {
        Ok(()) => 0,
        Err(ShotFault::Device(phase)) => number_of(phase),
        Err(_) => 1,
    }
}

// What a change answers.
fn answer_of(disks: &mut MemDisks, change: Change) -> u8 {
    if disks.size(0) == 0 {
        return 2;
    }
    match change {
        Change::Set => shot_answer(set_line(disks, BOOT, b"other")),
        Change::Clear => shot_answer(clear_line(disks, BOOT)),
        Change::Restore => match restore(disks, None, HDA, BOOT) {
            Ok(()) => 0,
            Err(RestoreFault::Device(phase)) => number_of(phase),
            Err(_) => 1,
        },
    }
}

// What a sector of the disk holds.
fn held(disks: &mut MemDisks, number: u64) -> Sector {
    let mut sector = [0xEE; 512];
    let _ = disk_trait::read(disks, 0, number, &mut sector);
    sector
}

#[test]
fn a_failing_disk_has_a_phase(rt: HostRuntime) -> Result<(), Fail> {
    for row in ROWS {
        let failing = Failing {
            call: row.call,
            made: row.made,
        };
        let mut disks = disk_of(rt.alloc(), DISK, &[], failing)?;
        let answer = answer_of(&mut disks, row.change);
        let sector = held(&mut disks, row.sector);
        assert!(rt; answer == row.answer, "call {}", row.call);
        assert!(rt; sector.starts_with(row.head), "call {}", row.call);
    }
    Ok(())
}
