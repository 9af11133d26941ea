// Inodes that are freed.
ghost use Rattle.std.specs.Prelude.{◌≡◌, ◌≤◌, OnOk};
ghost use Rattle.disk_trait.specs.Moments.{IsTold, now, begun, IsQuiet};
ghost use Rattle.minix_layout.specs.View.{inode_view};
ghost use Rattle.minix_steps.specs.Steps.{IsReady, IsUnnamedInode};
ghost use Rattle.minix_zones.specs.Volume.{past_of};
ghost use Rattle.minix_fill.specs.Changes.{Changes};
ghost use Rattle.minix_fill.specs.Freed.{no_inode, IsOffFile, ZeroesInode, ClearsFile, MayClear, MayFree, FreesFile};

use crate::clear::clear_zones;
use disk_trait::Disks;
use minix_layout::Inode;
use minix_steps::{settle, write_inode};
use minix_zones::{Volume, ZoneFault};

/// Frees an inode that was neither the root nor had a name at the last flush, and the zones that it has, to which no
/// named inode referred. Its bytes become zeros, and that is made durable; then its bit and those of its zones are
/// cleared, each once per pointer, and that is made durable. The inode is given as it is now; the numbers begin at 1.
/// No memory is taken.
///
/// # Errors
///
/// `Device`, and on disks that report no past `ZoneOutside`, where a number that is followed is neither 0 nor that of
/// a data zone. Then the inode may be zeros, and then some of the bits may be cleared.
pub fn free_file<D: Disks>(
    volume: &mut Volume<'_, D>,
    number: u32,
    inode: &Inode,
) -> Result<(), ZoneFault>
    requires some { 1 ≤ number }
    requires there { number ≤ volume.old.layout.inodes }
    requires ready { IsReady volume.old }
    requires unnamed { IsUnnamedInode volume.old number }
    requires may { IsTold (past_of volume.old) → MayFree volume.old number (inode_view inode.now) }
    ensures frees { Changes volume.old volume.new (IsOffFile volume.old number) (FreesFile number) result }
    ensures quiet { OnOk result (IsQuiet (past_of volume.new)) }
    ensures durable { OnOk result (begun (past_of volume.new) ≡ now (past_of volume.new)) }
{
    zero_inode(volume, number)?;
    clear_file(volume, number, inode)
}

// The inode of which each byte is 0.
fn no_inode() -> Inode
    ensures { inode_view result ≡ no_inode }
{
    Inode {
        mode: 0,
        links: 0,
        uid: 0,
        gid: 0,
        size: 0,
        times: [0; 3],
        zones: [0; 10],
    }
}

// Makes the bytes of an inode zeros, and makes that durable.
fn zero_inode<D: Disks>(volume: &mut Volume<'_, D>, number: u32) -> Result<(), ZoneFault>
    requires some { 1 ≤ number }
    requires there { number ≤ volume.old.layout.inodes }
    requires ready { IsReady volume.old }
    requires unnamed { IsUnnamedInode volume.old number }
    ensures { Changes volume.old volume.new (IsOffFile volume.old number) (ZeroesInode number) result }
{
    write_inode(volume, number, &no_inode())?;
    settle(volume)
}

// Clears the bits of an inode and of its zones, and makes that durable.
fn clear_file<D: Disks>(
    volume: &mut Volume<'_, D>,
    number: u32,
    inode: &Inode,
) -> Result<(), ZoneFault>
    requires some { 1 ≤ number }
    requires there { number ≤ volume.old.layout.inodes }
    requires ready { IsReady volume.old }
    requires unnamed { IsUnnamedInode volume.old number }
    requires may { IsTold (past_of volume.old) → MayClear volume.old (inode_view inode.now) }
    ensures clears { Changes volume.old volume.new (IsOffFile volume.old number)
        (ClearsFile number (inode_view inode.now)) result }
    ensures quiet { OnOk result (IsQuiet (past_of volume.new)) }
    ensures durable { OnOk result (begun (past_of volume.new) ≡ now (past_of volume.new)) }
{
    clear_zones(volume, inode)?;
    minix_steps::free_inode(volume, number)?;
    settle(volume)
}
