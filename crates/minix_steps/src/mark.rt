// The bitmap bits of zones and inodes.
ghost use Rattle.std.specs.Prelude.{◌≡◌, ◌≢◌, ◌≤◌, ◌<◌, true, false, OnOk};
ghost use Rattle.disk_trait.specs.Past.{Told};
ghost use Rattle.lilo_model.specs.MinixLayout.{super_sector};
ghost use Rattle.lilo_model.specs.MinixParts.{sector_of, inode_mark_sector, zone_mark_sector, with_bit};
ghost use Rattle.minix_layout.specs.View.{super_view};
ghost use Rattle.minix_zones.specs.Volume.{volume_view, past_of, faults_of, SameVolume, HasDeviceCause, WritesSector};
ghost use Rattle.minix_steps.specs.Mark.{remarked, zone_remarked, inode_remarked};

use crate::bit_fault::BitFault;
use crate::bitmap::{SECTOR_BITS, inode_bitmap, zone_bitmap};
use crate::bits::put_bit;
use disk_trait::Disks;
use minix_zones::Volume;
use sector_parts::Sector;

/// Marks a data zone as used: one bit of one sector of the zone bitmap. Until the next flush a stop may leave
/// that sector written or not, and a call that failed has written it or hasn't.
///
/// # Errors
///
/// `Device` where the read or the write failed.
pub fn mark_zone<D: Disks>(volume: &mut Volume<'_, D>, n: u32) -> Result<(), BitFault>
    requires from { volume.old.layout.first ≤ n }
    requires below { n < volume.old.layout.zones }
    ensures writes { WritesSector volume.old volume.new (zone_mark_sector (super_view volume.old.layout) n)
        (zone_remarked volume.old n true) BitFault.Device result }
{
    put_zone_mark(volume, n, true)
}

/// Clears a data zone's bitmap bit: one bit of one sector of the zone bitmap. Until the next flush a stop may leave
/// that sector written or not, and a call that failed has written it or hasn't.
///
/// # Errors
///
/// `Device` where the read or the write failed.
pub fn clear_zone<D: Disks>(volume: &mut Volume<'_, D>, n: u32) -> Result<(), BitFault>
    requires from { volume.old.layout.first ≤ n }
    requires below { n < volume.old.layout.zones }
    ensures writes { WritesSector volume.old volume.new (zone_mark_sector (super_view volume.old.layout) n)
        (zone_remarked volume.old n false) BitFault.Device result }
{
    put_zone_mark(volume, n, false)
}

/// Marks an inode as used: one bit of one sector of the inode bitmap. Until the next flush a stop may leave
/// that sector written or not, and a call that failed has written it or hasn't.
///
/// # Errors
///
/// `Device` where the read or the write failed.
pub fn mark_inode<D: Disks>(volume: &mut Volume<'_, D>, n: u32) -> Result<(), BitFault>
    requires some { 1 ≤ n }
    requires there { n ≤ volume.old.layout.inodes }
    ensures writes { WritesSector volume.old volume.new (inode_mark_sector n)
        (inode_remarked volume.old n true) BitFault.Device result }
{
    put_inode_mark(volume, n, true)
}

/// Clears an inode's bitmap bit: one bit of one sector of the inode bitmap. Until the next flush a stop may leave
/// that sector written or not, and a call that failed has written it or hasn't.
///
/// # Errors
///
/// `Device` where the read or the write failed.
pub fn clear_inode<D: Disks>(volume: &mut Volume<'_, D>, n: u32) -> Result<(), BitFault>
    requires some { 1 ≤ n }
    requires there { n ≤ volume.old.layout.inodes }
    ensures writes { WritesSector volume.old volume.new (inode_mark_sector n)
        (inode_remarked volume.old n false) BitFault.Device result }
{
    put_inode_mark(volume, n, false)
}

// Sets or clears a zone's bitmap bit.
fn put_zone_mark<D: Disks>(volume: &mut Volume<'_, D>, n: u32, value: bool) -> Result<(), BitFault>
    requires from { volume.old.layout.first ≤ n }
    requires below { n < volume.old.layout.zones }
    ensures writes { WritesSector volume.old volume.new (zone_mark_sector (super_view volume.old.layout) n)
        (zone_remarked volume.old n value) BitFault.Device result }
{
    let bitmap = zone_bitmap(volume);
    let bit = n - bitmap.origin;
    let sector = bitmap.sector + u64::from(bit / SECTOR_BITS);
    put_mark(volume, sector, bit % SECTOR_BITS, value)
}

// Sets or clears an inode's bitmap bit.
fn put_inode_mark<D: Disks>(volume: &mut Volume<'_, D>, n: u32, value: bool) -> Result<(), BitFault>
    requires some { 1 ≤ n }
    requires there { n ≤ volume.old.layout.inodes }
    ensures writes { WritesSector volume.old volume.new (inode_mark_sector n)
        (inode_remarked volume.old n value) BitFault.Device result }
{
    let bitmap = inode_bitmap(volume);
    let sector = bitmap.sector + u64::from(n / SECTOR_BITS);
    put_mark(volume, sector, n % SECTOR_BITS, value)
}

// Sets or clears a bit of a sector, counted from the start of the volume.
fn put_mark<D: Disks>(
    volume: &mut Volume<'_, D>,
    sector: u64,
    at: u32,
    value: bool,
) -> Result<(), BitFault>
    requires inside { sector < volume.old.span.count }
    requires no_super { sector ≢ super_sector }
    requires at { at < 4096 }
    ensures writes { WritesSector volume.old volume.new sector (remarked volume.old sector at value)
        BitFault.Device result }
{
    let mut bytes = [0; 512];
    read_with_bit(volume, sector, at, value, &mut bytes)?;
    match volume.write_sector(sector, &bytes) {
        Ok(()) => Ok(()),
        Err(_) => Err(BitFault::Device),
    }
}

// Reads a sector, and sets or clears a bit of its bytes.
fn read_with_bit<D: Disks>(
    volume: &mut Volume<'_, D>,
    sector: u64,
    at: u32,
    value: bool,
    into: &mut Sector,
) -> Result<(), BitFault>
    requires inside { sector < volume.old.span.count }
    requires at { at < 4096 }
    ensures bytes { OnOk result (Told (past_of volume.old)
        (λ now. into.new ≡ with_bit (sector_of (volume_view volume.old) now sector) at value)) }
    ensures device { HasDeviceCause volume.old volume.new BitFault.Device result }
    ensures later { faults_of volume.old ≤ faults_of volume.new }
    ensures same { SameVolume volume.old volume.new }
{
    match volume.read_sector(sector, into) {
        Ok(()) => {
            put_bit(into, at as usize, value);
            Ok(())
        }
        Err(_) => Err(BitFault::Device),
    }
}
