// An inode of which a name is gone.
ghost use Rattle.std.specs.Prelude.{◌≤◌, ◌<◌, ◌-◌, OnOk};
ghost use Rattle.disk_trait.specs.Moments.{IsTold, IsQuiet};
ghost use Rattle.lilo_model.specs.MinixLayout.{FitsInode};
ghost use Rattle.minix_layout.specs.View.{kind_view, inode_view};
ghost use Rattle.minix_remove.specs.Released.{MayRelease, Releases};
ghost use Rattle.minix_change_laws.specs.Sees.{with_links};
ghost use Rattle.minix_turns.specs.Inode.{TurnsInode};
ghost use Rattle.minix_turns.specs.Joined.{Unseen};
ghost use Rattle.minix_zones.specs.Volume.{past_of};

use disk_trait::Disks;
use minix_fill::free_file;
use minix_layout::Inode;
use minix_turns::turn_links;
use minix_zones::{Volume, ZoneFault};

/// Lowers the links of an inode by one, or frees it where it has no more than one. The inode is given as it is now, and
/// the numbers begin at 1.
///
/// # Errors
///
/// `Device`, and on disks that report no past `ZoneOutside`.
pub(crate) fn release<D: Disks>(
    volume: &mut Volume<'_, D>,
    number: u32,
    inode: &Inode,
) -> Result<(), ZoneFault>
    requires some { 1 ≤ number }
    requires there { number ≤ volume.old.layout.inodes }
    requires fits { FitsInode (kind_view volume.old.layout.kind) (inode_view inode.now) }
    requires quiet { IsQuiet (past_of volume.old) }
    requires may { IsTold (past_of volume.old) → MayRelease volume.old number (inode_view inode.now) }
    ensures releases { Releases volume.old volume.new number (inode_view inode.now) result }
    ensures quiet { OnOk result (IsQuiet (past_of volume.new)) }
{
    if inode.links > 1 {
        lower_links(volume, number, inode)
    } else {
        free_file(volume, number, inode)
    }
}

/// Lowers the links of an inode by one, and makes that durable: whether it has a name left isn't asked.
fn lower_links<D: Disks>(
    volume: &mut Volume<'_, D>,
    number: u32,
    inode: &Inode,
) -> Result<(), ZoneFault>
    requires some { 1 ≤ number }
    requires there { number ≤ volume.old.layout.inodes }
    requires fits { FitsInode (kind_view volume.old.layout.kind) (inode_view inode.now) }
    requires links { 1 < inode.now.links }
    requires quiet { IsQuiet (past_of volume.old) }
    requires may { IsTold (past_of volume.old) → MayRelease volume.old number (inode_view inode.now) }
    ensures turns { TurnsInode volume.old volume.new number (with_links (inode_view inode.now) (inode.now.links - 1))
        ZoneFault.Device result }
    ensures unseen { Unseen volume.old volume.new }
{
    turn_links(volume, number, inode, inode.links - 1)
}
