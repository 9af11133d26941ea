// The sectors of an empty volume.
ghost use Rattle.std.specs.Prelude.{◌≡◌};
ghost use Rattle.lilo_model.specs.Bytes.{filled_bytes};
ghost use Rattle.lilo_model.specs.MinixLayout.{super_bytes, inode_bytes};
ghost use Rattle.minix_layout.specs.View.{kind_view, super_view, inode_view};
ghost use Rattle.ldisk_model.specs.MinixFormat.{zeros, first_inode, root_entries, formatted_sector};
ghost use Rattle.minix_format.specs.Laid.{IsLaid};

use crate::bitmap::map_sector;
use minix_layout::{FsKind, Inode, Super, where_zone};
use minix_steps::put_inode;
use minix_tree::entry_size;
use sector_parts::{Sector, put_name, put_u16};

/// The sector of block 1 that has the superblock.
pub(crate) const SUPER_SECTOR: u64 = 2;

/// The first sector of the inode bitmap.
const INODE_MAP: u64 = 4;

/// The mode of the root: a directory that its owner may write.
const ROOT_MODE: u16 = 0o040755;

// A sector of an empty volume that is made at a time.
#[tactic(auto, unfolding(ldisk_model::specs::MinixFormat::formatted_sector))]
pub(crate) fn sector_at(layout: &Super, time: u32, sector: u64) -> Sector
    requires { IsLaid (super_view layout.now) }
    ensures { result ≡ formatted_sector (super_view layout.now) time sector }
{
    let zone_map = INODE_MAP + 2 * u64::from(layout.imap);
    let table = zone_map + 2 * u64::from(layout.zmap);
    if sector == SUPER_SECTOR {
        super_sector(layout)
    } else if sector < INODE_MAP {
        [0; 512]
    } else if sector < zone_map {
        map_sector(layout.inodes, sector - INODE_MAP)
    } else if sector < table {
        map_sector(layout.zones - layout.first, sector - zone_map)
    } else if sector == table {
        table_sector(layout, time)
    } else if sector == where_zone(layout.first) {
        root_sector(layout.kind)
    } else {
        [0; 512]
    }
}

// The sector with the superblock.
fn super_sector(layout: &Super) -> Sector
    requires { IsLaid (super_view layout.now) }
    ensures { result ≡ super_bytes (super_view layout.now) zeros }
{
    let mut bytes = [0; 512];
    layout.write_into(&mut bytes);
    bytes
}

// The first sector of the table of inodes, which has the root's.
fn table_sector(layout: &Super, time: u32) -> Sector
    requires { IsLaid (super_view layout.now) }
    ensures { result ≡ filled_bytes 512
        (inode_bytes (kind_view layout.now.kind) (first_inode (super_view layout.now) time)) }
{
    let mut bytes = [0; 512];
    put_inode(&mut bytes, 0, &root_inode(layout, time), layout.kind);
    bytes
}

// The root.
fn root_inode(layout: &Super, time: u32) -> Inode
    ensures { inode_view result ≡ first_inode (super_view layout.now) time }
{
    Inode {
        mode: ROOT_MODE,
        links: 2,
        uid: 0,
        gid: 0,
        size: 2 * u32::from(entry_size(layout.kind)),
        times: [time; 3],
        zones: [layout.first, 0, 0, 0, 0, 0, 0, 0, 0, 0],
    }
}

// The first sector of the root's zone, which has its two entries.
fn root_sector(kind: FsKind) -> Sector
    ensures { result ≡ filled_bytes 512 (root_entries (kind_view kind)) }
{
    let size = usize::from(entry_size(kind));
    let mut bytes = [0; 512];
    put_u16(&mut bytes, 0, 1);
    put_name(&mut bytes, 2, size - 2, b".");
    put_u16(&mut bytes, size, 1);
    put_name(&mut bytes, size + 2, size - 2, b"..");
    bytes
}
