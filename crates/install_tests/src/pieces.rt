// Disks in memory that are written by hand.
use disk_trait::{Disks, Failing, Geometry, MemDisk, MemDisks};
use sector_parts::{Sector, put_part};
use std::alloc::{AllocError, Global};

// Bytes of a sector from an offset on.
pub(crate) type Piece = (u32, usize, &'static [u8]);

const GEOMETRY: Geometry = Geometry {
    heads: 16,
    sectors: 63,
};

fn put_all(sector: &mut Sector, number: u32, pieces: &[Piece]) {
    for (other, at, bytes) in pieces {
        if *other == number && bytes.len() <= 512 && *at <= 512 - bytes.len() {
            put_part(sector, *at, bytes);
        }
    }
}

// A disk of 512 sectors with these pieces, the later ones over the earlier ones, of which a call fails.
pub(crate) fn disk_of(
    alloc: Global,
    pieces: &[Piece],
    changes: &[Piece],
    failing: Failing,
) -> Result<MemDisks, AllocError> {
    let disk = MemDisk {
        sectors: 512,
        geometry: GEOMETRY,
    };
    let mut disks = MemDisks::new(alloc, &[disk], 4, &[failing])?;
    for number in 0..128 {
        let mut bytes = [0; 512];
        put_all(&mut bytes, number, pieces);
        put_all(&mut bytes, number, changes);
        let free = disks.events() == 0;
        if free && u64::from(number) < disks.size(0) {
            disks.set(0, number, &bytes);
        }
    }
    Ok(disks)
}
