// Whether zones and inodes are marked.
ghost use Rattle.std.specs.Prelude.{◌≡◌, ◌<◌, ◌≤◌, IfErr, IfOk};
ghost use Rattle.lilo_model.specs.Faults.{Rose};
ghost use Rattle.disk_trait.specs.Past.{Told};
ghost use Rattle.lilo_model.specs.MinixParts.{parts_of, sector_of, bit};
ghost use Rattle.minix_zones.specs.Volume.{volume_view, past_of, faults_of, SameVolume};

use crate::bit_fault::BitFault;
use crate::bitmap::{SECTOR_BITS, inode_bitmap, zone_bitmap};
use crate::bits::byte_has;
use disk_trait::Disks;
use minix_zones::Volume;

/// Whether a data zone is marked as used. Reads one sector.
///
/// # Errors
///
/// `Device` where the read failed.
#[tactic(auto, unfolding(lilo_model::specs::MinixParts::parts_of))]
pub fn zone_is_marked<D: Disks>(volume: &mut Volume<'_, D>, n: u32) -> Result<bool, BitFault>
    requires from { volume.old.layout.first ≤ n }
    requires below { n < volume.old.layout.zones }
    ensures value { IfOk result (λ marked. Told (past_of volume.old)
        (λ now. marked ≡ (parts_of (volume_view volume.old) now).has_zone n)) }
    ensures device { IfErr result (λ fault. (fault ≡ BitFault.Device)
        × Rose (faults_of volume.old) (faults_of volume.new)) }
    ensures later { faults_of volume.old ≤ faults_of volume.new }
    ensures same { SameVolume volume.old volume.new }
{
    let bitmap = zone_bitmap(volume);
    let bit = n - bitmap.origin;
    let sector = bitmap.sector + u64::from(bit / SECTOR_BITS);
    has_mark(volume, sector, bit % SECTOR_BITS)
}

/// Whether an inode is marked as used. Reads one sector.
///
/// # Errors
///
/// `Device` where the read failed.
#[tactic(auto, unfolding(lilo_model::specs::MinixParts::parts_of))]
pub fn inode_is_marked<D: Disks>(volume: &mut Volume<'_, D>, n: u32) -> Result<bool, BitFault>
    requires some { 1 ≤ n }
    requires there { n ≤ volume.old.layout.inodes }
    ensures value { IfOk result (λ marked. Told (past_of volume.old)
        (λ now. marked ≡ (parts_of (volume_view volume.old) now).has_inode n)) }
    ensures device { IfErr result (λ fault. (fault ≡ BitFault.Device)
        × Rose (faults_of volume.old) (faults_of volume.new)) }
    ensures later { faults_of volume.old ≤ faults_of volume.new }
    ensures same { SameVolume volume.old volume.new }
{
    let bitmap = inode_bitmap(volume);
    let sector = bitmap.sector + u64::from(n / SECTOR_BITS);
    has_mark(volume, sector, n % SECTOR_BITS)
}

// Whether a bit of a sector, counted from the start of the volume, is set.
#[tactic(auto, unfolding(lilo_model::specs::MinixParts::bit))]
fn has_mark<D: Disks>(volume: &mut Volume<'_, D>, sector: u64, at: u32) -> Result<bool, BitFault>
    requires inside { sector < volume.old.span.count }
    requires at { at < 4096 }
    ensures value { IfOk result (λ marked. Told (past_of volume.old)
        (λ now. marked ≡ bit (sector_of (volume_view volume.old) now sector) at)) }
    ensures device { IfErr result (λ fault. (fault ≡ BitFault.Device)
        × Rose (faults_of volume.old) (faults_of volume.new)) }
    ensures later { faults_of volume.old ≤ faults_of volume.new }
    ensures same { SameVolume volume.old volume.new }
{
    match volume.read_byte(sector, (at / 8) as usize) {
        Ok(byte) => Ok(byte_has(byte, (at % 8) as usize)),
        Err(_) => Err(BitFault::Device),
    }
}
