// A small volume on disks in memory.
ghost use Rattle.std.specs.Prelude.{◌≡◌, ◌<◌, ℕ, [], ◌∷◌, IfOk, IfSome};
ghost use Rattle.disk_trait.specs.MemDisks.{sizes_of, image_of, past_of};
ghost use Rattle.disk_trait.specs.Moments.{now, IsQuiet};
ghost use Rattle.disk_trait.specs.Past.{with_sector};
ghost use Rattle.lilo_model.specs.Bytes.{with_part};
ghost use Rattle.lilo_model.specs.MinixEntries.{here_name, above_name};
ghost use Rattle.lilo_model.specs.MinixLayout.{entry_size, super_bytes, inode_bytes};
ghost use Rattle.lilo_model.specs.MinixNames.{IsSound};
ghost use Rattle.minix_laws.specs.RootVolume.{root_inode};
ghost use Rattle.minix_layout.specs.View.{kind_view};
ghost use Rattle.minix_stops.specs.Laws.{HasSectorsOf};
ghost use Rattle.minix_stops.specs.Small.{small_layout, small_volume, small_image, with_root_entry, zeros, IsOpen};
ghost use Rattle.minix_zones.specs.Volume.{past_of as past_of_volume};

use disk_trait::{Geometry, MemDisk, MemDisks, Span};
use minix_layout::{FsKind, Inode, Super};
use minix_steps::put_inode;
use minix_tree::entry_size;
use minix_zones::Volume;
use sector_parts::{Sector, put_name, put_part, put_u16};
use std::alloc::{AllocError, Global};

/// Where the small volume lies.
pub const SMALL_SPAN: Span = Span {
    disk: 0,
    start: 8,
    count: 48,
};

/// A disk of 64 sectors with the small volume of a kind, and with room for some events.
pub fn small_disks(alloc: Global, kind: FsKind, room: u32) -> Result<MemDisks, AllocError>
    ensures sectors { IfOk result (λ made. HasSectorsOf (small_volume (kind_view kind))
        (small_image (kind_view kind)) (now (past_of made))) }
    ensures sound { IfOk result (λ made. IsSound (small_volume (kind_view kind)) (now (past_of made))) }
    ensures quiet { IfOk result (λ made. IsQuiet (past_of made)) }
    ensures size { IfOk result (λ made. sizes_of made.start 0 ≡ 64) }
{
    let mut disks = zero_disk(alloc, room)?;
    put(&mut disks, 10, &superblock(kind));
    put(&mut disks, 12, &two_bits());
    put(&mut disks, 14, &two_bits());
    put(&mut disks, 16, &inodes(kind));
    put(&mut disks, 18, &entries(kind));
    Ok(disks)
}

// A disk of 64 sectors of zeros.
fn zero_disk(alloc: Global, room: u32) -> Result<MemDisks, AllocError>
    ensures image { IfOk result (λ made. (sector : ℕ) → image_of made.start 0 sector ≡ zeros) }
    ensures empty { IfOk result (λ made. made.events ≡ []) }
    ensures size { IfOk result (λ made. sizes_of made.start 0 ≡ 64) }
{
    let Ok(geometry) = Geometry::new(16, 63) else {
        return Err(AllocError);
    };
    let disk = MemDisk {
        sectors: 64,
        geometry,
    };
    MemDisks::new(alloc, &[disk], room, &[])
}

// Changes a sector of it.
fn put(disks: &mut MemDisks, sector: u32, bytes: &Sector)
    requires empty { disks.old.events ≡ [] }
    requires size { sizes_of disks.old.start 0 ≡ 64 }
    requires inside { sector < 64 }
    ensures image { image_of disks.new.start ≡ with_sector (image_of disks.old.start) 0 sector bytes.now }
    ensures empty { disks.new.events ≡ [] }
    ensures size { sizes_of disks.new.start 0 ≡ 64 }
{
    disks.set(0, sector, bytes);
}

// The sector with the superblock.
fn superblock(kind: FsKind) -> Sector
    ensures { result ≡ super_bytes (small_layout (kind_view kind)) zeros }
{
    let mut sector = [0; 512];
    let layout = Super {
        kind,
        inodes: 16,
        zones: 24,
        imap: 1,
        zmap: 1,
        first: 5,
        max_size: 268_966_912,
        state: 1,
    };
    layout.write_into(&mut sector);
    sector
}

// A bitmap's sector with the reserved bit and the first one.
fn two_bits() -> Sector
    ensures { result ≡ with_part zeros 0 (3 ∷ []) }
{
    let mut sector = [0; 512];
    put_part(&mut sector, 0, &[3]);
    sector
}

// The sector with the root's inode.
fn inodes(kind: FsKind) -> Sector
    ensures { result ≡ with_part zeros 0 (inode_bytes (kind_view kind) (root_inode (kind_view kind))) }
{
    let mut sector = [0; 512];
    let root = Inode {
        mode: 0o40755,
        links: 2,
        uid: 0,
        gid: 0,
        size: 2 * u32::from(entry_size(kind)),
        times: [0; 3],
        zones: [5, 0, 0, 0, 0, 0, 0, 0, 0, 0],
    };
    put_inode(&mut sector, 0, &root, kind);
    sector
}

// The sector with the root's entries.
fn entries(kind: FsKind) -> Sector
    ensures { result ≡ with_root_entry (kind_view kind) (entry_size (kind_view kind)) above_name
        (with_root_entry (kind_view kind) 0 here_name zeros) }
{
    let mut sector = [0; 512];
    let size = usize::from(entry_size(kind));
    put_u16(&mut sector, 0, 1);
    put_name(&mut sector, 2, size - 2, b".");
    put_u16(&mut sector, size, 1);
    put_name(&mut sector, size + 2, size - 2, b"..");
    sector
}

/// The small volume on disks that hold it: steps may be taken.
pub fn open_small<'d>(disks: &'d mut MemDisks, kind: FsKind) -> Option<Volume<'d, MemDisks>>
    requires sectors { HasSectorsOf (small_volume (kind_view kind)) (small_image (kind_view kind))
        (now (past_of disks.old)) }
    requires quiet { IsQuiet (past_of disks.old) }
    requires size { sizes_of disks.old.start 0 ≡ 64 }
    ensures open { IfSome result (λ volume. IsOpen volume) }
    ensures quiet { IfSome result (λ volume. IsQuiet (past_of_volume volume)) }
{
    match Volume::attach(disks, SMALL_SPAN) {
        Ok(volume) => Some(volume),
        Err(_) => None,
    }
}
