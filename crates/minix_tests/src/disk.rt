// A volume on a disk in memory, written piece by piece.
use disk_trait::{Disks, Failing, Geometry, MemDisk, MemDisks, Span};
use minix_zones::Volume;
use sector_parts::{Sector, part, put_part};
use std::alloc::{AllocError, Global};
use test_disks::{Untold, made_again};

/// Bytes at an offset of a sector, which is counted from the volume's start.
pub(crate) type Piece = (u64, usize, &'static [u8]);

/// Where it starts.
const START: u64 = 8;

/// No call has this number.
pub(crate) const NEVER: u64 = u64::MAX;

fn zero_disk(alloc: Global, sectors: u32) -> Result<MemDisks, AllocError> {
    let Ok(geometry) = Geometry::new(16, 63) else {
        return Err(AllocError);
    };
    MemDisks::new(alloc, &[MemDisk { sectors, geometry }], 200, &[])
}

/// A disk of so many sectors with these pieces on it, then those, and zeros else. The call with this number fails.
pub(crate) fn disk_with(
    alloc: Global,
    sectors: u32,
    pieces: &[Piece],
    changes: &[Piece],
    call: u64,
) -> Result<Untold, AllocError> {
    let mut disks = zero_disk(alloc, sectors)?;
    put_all(&mut disks, pieces);
    put_all(&mut disks, changes);
    let failing = [Failing { call, made: false }];
    let disks = made_again(alloc, &disks, 1200, &failing)?;
    Ok(Untold { disks })
}

fn put_all(disks: &mut MemDisks, pieces: &[Piece]) {
    for (sector, at, bytes) in pieces {
        put(disks, *sector, *at, bytes);
    }
}

fn put(disks: &mut MemDisks, sector: u64, at: usize, bytes: &[u8]) {
    let mut whole: Sector = [0; 512];
    if sector < 10_000 && at < 512 && bytes.len() <= 512 - at {
        let read = disks.read(0, START + sector, &mut whole).is_ok();
        put_part(&mut whole, at, bytes);
        let _written = read && disks.write(0, START + sector, &whole).is_ok();
    }
}

/// Whether a disk has these pieces.
pub(crate) fn has(disks: &mut Untold, pieces: &[Piece]) -> bool {
    for (sector, at, bytes) in pieces {
        if !has_piece(disks, *sector, *at, bytes) {
            return false;
        }
    }
    true
}

fn has_piece(disks: &mut Untold, sector: u64, at: usize, bytes: &[u8]) -> bool {
    let mut whole: Sector = [0; 512];
    if sector >= 10_000 || disks.read(0, START + sector, &mut whole).is_err() {
        return false;
    }
    at < 512 && bytes.len() <= 512 - at && part(&whole, at, bytes.len()) == bytes
}

/// The volume, which ends with the disk.
pub(crate) fn attach<'d>(disks: &'d mut Untold) -> Option<Volume<'d, Untold>> {
    let size = disks.size(0);
    if size < START + 4 {
        return None;
    }
    let span = Span {
        disk: 0,
        start: START,
        count: size - START,
    };
    match Volume::attach(disks, span) {
        Ok(volume) => Some(volume),
        Err(_) => None,
    }
}
