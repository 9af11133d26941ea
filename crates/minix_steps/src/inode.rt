// The bytes of an inode.
ghost use Rattle.std.specs.Prelude.{◌≡◌, ◌+◌, ◌≤◌, ◌<◌, ◌^◌, length, All, OnOk};
ghost use Rattle.disk_trait.specs.Moments.{IsTold};
ghost use Rattle.lilo_model.specs.Bytes.{with_part};
ghost use Rattle.lilo_model.specs.MinixLayout.{inode_size, inode_bytes, inode_place, most_links, number_size};
ghost use Rattle.minix_layout.specs.View.{kind_view, super_view, inode_view};
ghost use Rattle.minix_zones.specs.Volume.{volume_view, past_of, WritesSector};
ghost use Rattle.minix_steps.specs.StepLaws.{OneInode};
ghost use Rattle.minix_steps.specs.Steps.{IsReady, IsUnnamedInode, Steps};
ghost use Rattle.minix_steps.specs.Written.{inode_rewritten, parts_now};

use crate::write::write_beside;
use disk_trait::Disks;
use minix_layout::{FsKind, Inode, where_inode};
use minix_zones::{Volume, ZoneFault};
use sector_parts::{FieldMut, Sector, part_mut};

/// Writes an inode that was neither the root nor had a name at the last flush; its neighbours in the sector stay.
/// The numbers begin at 1. It isn't flushed.
///
/// # Errors
///
/// `Device` alone.
pub fn write_inode<D: Disks>(
    volume: &mut Volume<'_, D>,
    number: u32,
    inode: &Inode,
) -> Result<(), ZoneFault>
    requires some { 1 ≤ number }
    requires there { number ≤ volume.old.layout.inodes }
    requires links { inode.now.links ≤ most_links (kind_view volume.old.layout.kind) }
    requires gid { inode.now.gid ≤ most_links (kind_view volume.old.layout.kind) }
    requires zones { All (λ zone. zone < 256 ^ number_size (kind_view volume.old.layout.kind)) inode.now.zones }
    requires ready { IsReady volume.old }
    requires unnamed { IsUnnamedInode volume.old number }
    ensures steps { Steps volume.old volume.new }
    ensures writes { WritesSector volume.old volume.new (inode_place (super_view volume.old.layout) number).sector
        (inode_rewritten volume.old number (inode_view inode.now)) ZoneFault.Device result }
    ensures parts { IsTold (past_of volume.old) → OnOk result (OneInode (volume_view volume.old)
        (parts_now volume.old) (parts_now volume.new) number
        (inode_bytes (kind_view volume.old.layout.kind) (inode_view inode.now))) }
{
    let kind = volume.layout().kind;
    let place = where_inode(volume.layout(), number);
    let mut bytes = [0; 512];
    volume.read_sector(place.sector, &mut bytes)?;
    put_inode(&mut bytes, usize::from(place.at), inode, kind);
    write_beside(volume, place.sector, &bytes)
}

/// Writes the bytes of an inode into a sector from an offset on; all others stay.
pub fn put_inode(sector: &mut Sector, at: usize, inode: &Inode, kind: FsKind)
    requires inside { at + inode_size (kind_view kind) ≤ 512 }
    requires links { inode.now.links ≤ most_links (kind_view kind) }
    requires gid { inode.now.gid ≤ most_links (kind_view kind) }
    requires zones { All (λ zone. zone < 256 ^ number_size (kind_view kind)) inode.now.zones }
    ensures bytes { sector.new ≡ with_part sector.old at (inode_bytes (kind_view kind) (inode_view inode.now)) }
    ensures length { length (inode_bytes (kind_view kind) (inode_view inode.now)) ≡ inode_size (kind_view kind) }
{
    let field = part_mut(sector, at, usize::from(kind.inode_size()));
    inode.write_into(&mut FieldMut { bytes: field }, kind);
}
