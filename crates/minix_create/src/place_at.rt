// Where a place of a directory lies.
ghost use Rattle.std.specs.Prelude.{◌≡◌, ◌≢◌, ◌≤◌, true, IfOk, IfErr};
ghost use Rattle.lilo_model.specs.MinixLayout.{FitsInode, is_size};
ghost use Rattle.minix_create.specs.Brought.{GivesPlace};
ghost use Rattle.minix_layout.specs.View.{kind_view, inode_view};
ghost use Rattle.minix_choice.specs.View.{HasWriteCause};
ghost use Rattle.minix_zones.specs.View.{IsDataZone};
ghost use Rattle.minix_zones.specs.Volume.{faults_of, SameVolume};

use disk_trait::Disks;
use minix_choice::WriteFault;
use minix_layout::Inode;
use minix_tree::{entries_per_block, stat_of};
use minix_zones::{Volume, ZoneAt, reach, zone_at};

/// The inode of a directory, and the zone with the entry at a place of it, 0 in a hole.
#[derive(Clone, Copy)]
pub(crate) struct PlaceAt {
    pub(crate) node: Inode,
    pub(crate) zone: u32,
}

/// Where a place of a directory lies, whether it is below the size or not.
///
/// # Errors
///
/// `Device`, and on disks that report no past others: that the directory can't be read, or can't have the place.
pub(crate) fn place_at<D: Disks>(
    volume: &mut Volume<'_, D>,
    directory: u32,
    place: u32,
) -> Result<PlaceAt, WriteFault>
    requires some { 1 ≤ directory }
    requires there { directory ≤ volume.old.layout.inodes }
    ensures finds { GivesPlace volume.old directory place result }
    ensures data { IfOk result (λ at. at.zone ≢ 0 → IsDataZone volume.old.layout at.zone) }
    ensures sized { IfOk result (λ at. is_size (kind_view volume.old.layout.kind) at.node.size ≡ true) }
    ensures fits { IfOk result (λ at. FitsInode (kind_view volume.old.layout.kind) (inode_view at.node)) }
    ensures cause { IfErr result (HasWriteCause (faults_of volume.old) (faults_of volume.new)) }
    ensures later { faults_of volume.old ≤ faults_of volume.new }
    ensures same { SameVolume volume.old volume.new }
{
    let kind = volume.layout().kind;
    let stat = stat_of(volume, directory)?;
    let block = place / u32::from(entries_per_block(kind));
    if block >= reach(kind) {
        return Err(WriteFault::NoSpace { need: 1, found: 0 });
    }
    match zone_at(volume, &stat.node, block)? {
        ZoneAt::Zone(zone) => Ok(PlaceAt {
            node: stat.node,
            zone,
        }),
        ZoneAt::Hole => Ok(PlaceAt {
            node: stat.node,
            zone: 0,
        }),
    }
}
