// Where inodes and zones lie.
ghost use Rattle.std.specs.Prelude.{◌≡◌, ◌+◌, ◌*◌, ◌<◌, ◌≤◌, ◌^◌};
ghost use Rattle.lilo_model.specs.MinixLayout.{inode_place, inode_size, zone_sector};
ghost use Rattle.minix_layout.specs.View.{kind_view, place_view, super_view};

use crate::superblock::Super;

/// The bytes of a sector.
const SECTOR: u64 = 512;

/// Bytes of a volume: a sector, and an offset in it.
#[derive(Clone, Copy, Debug, PartialEq, Eq)]
pub struct Place {
    pub sector: u64,
    pub at: u16,
}

/// Where the inode with a number lies, whole in one sector. The numbers begin at 1.
#[tactic(auto, unfolding(lilo_model::specs::MinixLayout::inode_place))]
pub fn where_inode(volume: &Super, inode: u32) -> Place
    requires some { 1 ≤ inode }
    requires there { inode ≤ volume.now.inodes }
    ensures place { place_view result ≡ inode_place (super_view volume.now) inode }
    ensures inside { result.at + inode_size (kind_view volume.now.kind) ≤ 512 }
{
    let table = 2 * (2 + u64::from(volume.imap) + u64::from(volume.zmap));
    let bytes = u64::from(inode - 1) * u64::from(volume.kind.inode_size());
    Place {
        sector: table + bytes / SECTOR,
        at: (bytes % SECTOR) as u16,
    }
}

/// The first of the two sectors of a zone.
pub fn where_zone(zone: u32) -> u64
    ensures { result ≡ zone_sector zone }
{
    2 * u64::from(zone)
}
