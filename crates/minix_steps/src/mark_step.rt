// The bitmap bits of zones and inodes.
ghost use Rattle.std.specs.Prelude.{◌≤◌, ◌<◌, true, false, OnOk};
ghost use Rattle.disk_trait.specs.Moments.{IsTold};
ghost use Rattle.lilo_model.specs.MinixParts.{inode_mark_sector, zone_mark_sector};
ghost use Rattle.minix_steps.specs.BitLaws.{OneZoneMark, OneInodeMark};
ghost use Rattle.minix_steps.specs.Mark.{zone_remarked, inode_remarked};
ghost use Rattle.minix_layout.specs.View.{super_view};
ghost use Rattle.minix_zones.specs.Volume.{volume_view, past_of, WritesSector};
ghost use Rattle.minix_steps.specs.Steps.{IsReady, IsUnusedZone, IsUnnamedInode, Steps};
ghost use Rattle.minix_steps.specs.Written.{parts_now};

use crate::mark::{clear_inode, clear_zone, mark_inode, mark_zone};
use disk_trait::Disks;
use minix_zones::{Volume, ZoneFault};

/// Marks a data zone as used, whatever it is. It isn't flushed.
///
/// # Errors
///
/// `Device` alone.
pub fn put_zone_mark<D: Disks>(volume: &mut Volume<'_, D>, zone: u32) -> Result<(), ZoneFault>
    requires from { volume.old.layout.first ≤ zone }
    requires below { zone < volume.old.layout.zones }
    requires ready { IsReady volume.old }
    ensures steps { Steps volume.old volume.new }
    ensures writes { WritesSector volume.old volume.new (zone_mark_sector (super_view volume.old.layout) zone)
        (zone_remarked volume.old zone true) ZoneFault.Device result }
    ensures parts { IsTold (past_of volume.old) → OnOk result (OneZoneMark (volume_view volume.old)
        (parts_now volume.old) (parts_now volume.new) zone true) }
{
    match mark_zone(volume, zone) {
        Ok(()) => Ok(()),
        Err(_) => Err(ZoneFault::Device),
    }
}

/// Clears the bitmap bit of a data zone to which no named inode referred at the last flush. It isn't flushed.
///
/// # Errors
///
/// `Device` alone.
pub fn free_zone<D: Disks>(volume: &mut Volume<'_, D>, zone: u32) -> Result<(), ZoneFault>
    requires from { volume.old.layout.first ≤ zone }
    requires below { zone < volume.old.layout.zones }
    requires ready { IsReady volume.old }
    requires unused { IsUnusedZone volume.old zone }
    ensures steps { Steps volume.old volume.new }
    ensures writes { WritesSector volume.old volume.new (zone_mark_sector (super_view volume.old.layout) zone)
        (zone_remarked volume.old zone false) ZoneFault.Device result }
    ensures parts { IsTold (past_of volume.old) → OnOk result (OneZoneMark (volume_view volume.old)
        (parts_now volume.old) (parts_now volume.new) zone false) }
{
    match clear_zone(volume, zone) {
        Ok(()) => Ok(()),
        Err(_) => Err(ZoneFault::Device),
    }
}

/// Marks an inode as used, whatever it is. The numbers begin at 1. It isn't flushed.
///
/// # Errors
///
/// `Device` alone.
pub fn put_inode_mark<D: Disks>(volume: &mut Volume<'_, D>, number: u32) -> Result<(), ZoneFault>
    requires some { 1 ≤ number }
    requires there { number ≤ volume.old.layout.inodes }
    requires ready { IsReady volume.old }
    ensures steps { Steps volume.old volume.new }
    ensures writes { WritesSector volume.old volume.new (inode_mark_sector number)
        (inode_remarked volume.old number true) ZoneFault.Device result }
    ensures parts { IsTold (past_of volume.old) → OnOk result (OneInodeMark (volume_view volume.old)
        (parts_now volume.old) (parts_now volume.new) number true) }
{
    match mark_inode(volume, number) {
        Ok(()) => Ok(()),
        Err(_) => Err(ZoneFault::Device),
    }
}

/// Clears the bitmap bit of an inode that was neither the root nor had a name at the last flush. The numbers begin at
/// 1. It isn't flushed.
///
/// # Errors
///
/// `Device` alone.
pub fn free_inode<D: Disks>(volume: &mut Volume<'_, D>, number: u32) -> Result<(), ZoneFault>
    requires some { 1 ≤ number }
    requires there { number ≤ volume.old.layout.inodes }
    requires ready { IsReady volume.old }
    requires unnamed { IsUnnamedInode volume.old number }
    ensures steps { Steps volume.old volume.new }
    ensures writes { WritesSector volume.old volume.new (inode_mark_sector number)
        (inode_remarked volume.old number false) ZoneFault.Device result }
    ensures parts { IsTold (past_of volume.old) → OnOk result (OneInodeMark (volume_view volume.old)
        (parts_now volume.old) (parts_now volume.new) number false) }
{
    match clear_inode(volume, number) {
        Ok(()) => Ok(()),
        Err(_) => Err(ZoneFault::Device),
    }
}
