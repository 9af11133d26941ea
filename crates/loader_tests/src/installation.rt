// An installation of one name, byte by byte.
use crate::boot::Boot;
use sector_parts::{Sector, put_part};

/// Bytes of a sector from an offset on.
pub type Edit = (usize, usize, &'static [u8]);

// The name `linux`, whose command line goes on with ` ro root=301`; and its kernel of protocol 2.06 with 1029 bytes, one
// setup sector and `HELLO` as its protected-mode part. All other bytes are zeros.
const INSTALLATION: &[Edit] = &[
    (0, 0, b"\xEB\x7ELILO\x01\0"),
    (0, 0x10, b"\xFF\xFF\x01\0"),
    (0, 0x18, b"\x03\x80\x01\0\x5E\0\0\0\x03\x80\x01\0\x62\0\0\0"),
    (
        0,
        0x30,
        b"\x03\x80\x01\0\x5F\0\0\0\x03\x80\x01\0\x60\0\0\0\x03\x80\x01\0\x61\0\0\0",
    ),
    (0, 0x1FE, b"\x55\xAA"),
    (94, 0, b"LINE"),
    (95, 0, b"linux"),
    (95, 20, b"\x05\x04\0\0"),
    (95, 28, b"\x03\x80\x01\0\x63\0\0\0\x03\x80\x01\0\x64\0\0\0"),
    (95, 52, b"\x01\0"),
    (99, 0, b"\x0C\0\0\0\0\0\0\0 ro root=301"),
    (
        100,
        0,
        b"\x03\x80\x01\0\x52\0\0\0\x03\x80\x01\0\x53\0\0\0\x03\x80\x01\0\x54\0\0\0",
    ),
    (82, 0x1F1, b"\x01"),
    (82, 0x1FE, b"\x55\xAA"),
    (83, 0x02, b"HdrS\x06\x02"),
    (83, 0x11, b"\x01"),
    (83, 0x2C, b"\xFF\xFF\xFF\x37"),
    (83, 0x38, b"\xFF\0\0\0"),
    (84, 0, b"HELLO"),
];

/// A sector of the installation that a boot is from.
pub fn sector_of(boot: &Boot, number: usize) -> Sector {
    let mut sector = [0; 512];
    if boot.is_long {
        sector = long_sector(number);
    }
    edit(&mut sector, number, INSTALLATION);
    edit(&mut sector, number, boot.base);
    for (full, byte) in boot.full {
        if *full == number {
            sector = [*byte; 512];
        }
    }
    edit(&mut sector, number, boot.edits);
    sector
}

fn edit(sector: &mut Sector, number: usize, edits: &[Edit]) {
    for (edited, at, bytes) in edits {
        if *edited == number && bytes.len() <= 512 && *at <= 512 - bytes.len() {
            put_part(sector, *at, bytes);
        }
    }
}

// A sector beside a kernel of 256 sectors: each from 128 on is full of its number's low byte. The sectors from 110 on are
// this kernel's section with a slot for each sector, 63 in each of them before the slot of the next.
fn long_sector(number: usize) -> Sector {
    if number >= 128 {
        return [(number % 256) as u8; 512];
    }
    let mut sector = [0; 512];
    if number >= 110 && number <= 114 {
        for place in 0..63_usize {
            let index = (number - 110) * 63 + place;
            if index < 256 {
                put_slot(
                    &mut sector,
                    place,
                    if index < 2 { 82 + index } else { 126 + index },
                );
            }
        }
        if number < 114 {
            put_slot(&mut sector, 63, number + 1);
        }
    }
    sector
}

// The slot of one sector, by its number below 65536.
fn put_slot(sector: &mut Sector, place: usize, number: usize) {
    let [low, high, ..] = number.to_le_bytes();
    if place < 64 {
        put_part(sector, place * 8, &[3, 0x80, 1, 0, low, high, 0, 0]);
    }
}
