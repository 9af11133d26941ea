// The lowest free zones and inodes of a volume.
ghost use Rattle.std.specs.Prelude.{◌≡◌, ◌-◌, ◌<◌, ◌≤◌, ◌++◌, All, IfOk, IfErr, IfSome, OnOk, length, take};
ghost use Rattle.lilo_model.specs.Faults.{Rose};
ghost use Rattle.disk_trait.specs.Past.{Told};
ghost use Rattle.lilo_model.specs.MinixParts.{parts_of, sector_of};
ghost use Rattle.minix_layout.specs.View.{super_view};
ghost use Rattle.minix_zones.specs.View.{IsDataZone};
ghost use Rattle.minix_zones.specs.Volume.{volume_view, past_of, faults_of, SameVolume};
ghost use Rattle.minix_steps.specs.Bitmap.{IsBitmapIn, IsNumberOf, end_of, sector_with};
ghost use Rattle.minix_steps.specs.Free.{is_free_on, free_from, IsLowest, lowest_zones, lowest_inode};
ghost use Rattle.minix_steps.specs.Find.{Gives, HasBitCause, HasSectorCause};

use crate::bit_fault::BitFault;
use crate::bitmap::{Bitmap, SECTOR_BITS, inode_bitmap, zone_bitmap};
use crate::number_list::NumberList;
use crate::number_set::NumberSet;
use crate::scan::{first_free, take_free};
use disk_trait::Disks;
use minix_zones::Volume;
use sector_parts::Sector;
use std::alloc::Global;

/// The lowest data zones, `need` of them, that aren't marked and aren't in `avoid`, in rising order.
///
/// # Errors
///
/// `NoSpace` where fewer are free, with their number; `Device` where a read of the bitmap failed; `Memory` where
/// there is no memory for the list.
pub fn find_free<D: Disks>(
    alloc: Global,
    volume: &mut Volume<'_, D>,
    need: u32,
    avoid: &NumberSet,
) -> Result<NumberList, BitFault>
    requires { volume.old.layout.zones ≤ avoid.now.below }

    // What is answered.
    ensures zones { Told (past_of volume.old) (λ now. Gives result
        (lowest_zones (super_view volume.old.layout) (parts_of (volume_view volume.old) now) avoid.now.numbers need)) }
    ensures many { IfOk result (λ zones. length zones ≡ need) }
    ensures data { IfOk result (All (IsDataZone volume.old.layout)) }

    // When it is refused.
    ensures cause { IfErr result (HasBitCause need (faults_of volume.old) (faults_of volume.new)) }
    ensures later { faults_of volume.old ≤ faults_of volume.new }
    ensures same { SameVolume volume.old volume.new }
{
    let bitmap = zone_bitmap(volume);
    let mut found = Vec::new(alloc);
    let mut at = bitmap.origin + 1;
    while at < bitmap.end && found.len() < need as usize {
        take_in_sector(volume, &bitmap, at, need, avoid, &mut found)?;
        at = bitmap.end_of(at);
    }
    if found.len() < need as usize {
        let found = found.len() as u32;
        return Err(BitFault::NoSpace { need, found });
    }
    Ok(NumberList::new(found))
}

/// The lowest inode that isn't marked and isn't in `avoid`, or None where there is none. Takes no memory.
///
/// # Errors
///
/// `Device` where a read of the bitmap failed.
pub fn find_inode<D: Disks>(
    volume: &mut Volume<'_, D>,
    avoid: &NumberSet,
) -> Result<Option<u32>, BitFault>
    requires { volume.old.layout.inodes < avoid.now.below }

    // What is answered.
    ensures inode { IfOk result (λ found. Told (past_of volume.old) (λ now. found
        ≡ lowest_inode (super_view volume.old.layout) (parts_of (volume_view volume.old) now) avoid.now.numbers)) }
    ensures inside { IfOk result (λ found. IfSome found (λ n. (1 ≤ n) × (n ≤ volume.old.layout.inodes))) }

    // When it is refused.
    ensures device { IfErr result (λ fault. (fault ≡ BitFault.Device)
        × Rose (faults_of volume.old) (faults_of volume.new)) }
    ensures later { faults_of volume.old ≤ faults_of volume.new }
    ensures same { SameVolume volume.old volume.new }
{
    let bitmap = inode_bitmap(volume);
    let mut at = 1;
    while at < bitmap.end {
        let found = first_in_sector(volume, &bitmap, at, avoid)?;
        if found.is_some() {
            return Ok(found);
        }
        at = bitmap.end_of(at);
    }
    Ok(None)
}

// Appends the free numbers from `at` on whose bits are in the sector of its bit, until there are `need`.
fn take_in_sector<D: Disks>(
    volume: &mut Volume<'_, D>,
    bitmap: &Bitmap,
    at: u32,
    need: u32,
    avoid: &NumberSet,
    found: &mut Vec<u32>,
) -> Result<(), BitFault>
    requires inside { IsBitmapIn bitmap.now volume.old.span.count }
    requires from { bitmap.now.origin < at }
    requires below { at < bitmap.now.end }
    requires numbers { bitmap.now.end ≤ avoid.now.below }
    requires few { length found.old.items ≤ need }
    ensures taken { OnOk result (Told (past_of volume.old) (λ now. found.new.items ≡ take need (found.old.items
        ++ free_from (is_free_on (volume_view volume.old) now bitmap.now avoid.now.numbers) at
        (end_of bitmap.now at - at)))) }
    ensures few { OnOk result (length found.new.items ≤ need) }
    ensures inside { All (IsNumberOf bitmap.now) found.old.items
        → OnOk result (All (IsNumberOf bitmap.now) found.new.items) }
    ensures cause { IfErr result (HasSectorCause (faults_of volume.old) (faults_of volume.new)) }
    ensures later { faults_of volume.old ≤ faults_of volume.new }
    ensures same { SameVolume volume.old volume.new }
{
    let mut bytes = [0; 512];
    read_bits(volume, bitmap, at, &mut bytes)?;
    let base = bitmap.base_of(at);
    let end = bitmap.end_of(at);
    take_free(&bytes, base, at, end, need, avoid, found)?;
    Ok(())
}

// The lowest free number from `at` on whose bit is in the sector of its bit.
fn first_in_sector<D: Disks>(
    volume: &mut Volume<'_, D>,
    bitmap: &Bitmap,
    at: u32,
    avoid: &NumberSet,
) -> Result<Option<u32>, BitFault>
    requires inside { IsBitmapIn bitmap.now volume.old.span.count }
    requires from { bitmap.now.origin ≤ at }
    requires below { at < bitmap.now.end }
    requires numbers { bitmap.now.end ≤ avoid.now.below }
    ensures lowest { IfOk result (λ found. Told (past_of volume.old) (λ now.
        IsLowest (is_free_on (volume_view volume.old) now bitmap.now avoid.now.numbers) at
        (end_of bitmap.now at) found)) }
    ensures inside { IfOk result (λ found. IfSome found (λ n. (at ≤ n) × (n < bitmap.now.end))) }
    ensures device { IfErr result (λ fault. (fault ≡ BitFault.Device)
        × Rose (faults_of volume.old) (faults_of volume.new)) }
    ensures later { faults_of volume.old ≤ faults_of volume.new }
    ensures same { SameVolume volume.old volume.new }
{
    let mut bytes = [0; 512];
    read_bits(volume, bitmap, at, &mut bytes)?;
    let base = bitmap.base_of(at);
    let end = bitmap.end_of(at);
    Ok(first_free(&bytes, base, at, end, avoid))
}

// Reads the sector with a number's bit.
#[tactic(auto, using(crate::proofs::BitmapLemmas::sector_inside))]
fn read_bits<D: Disks>(
    volume: &mut Volume<'_, D>,
    bitmap: &Bitmap,
    at: u32,
    into: &mut Sector,
) -> Result<(), BitFault>
    requires inside { IsBitmapIn bitmap.now volume.old.span.count }
    requires from { bitmap.now.origin ≤ at }
    requires below { at < bitmap.now.end }
    ensures bytes { OnOk result (Told (past_of volume.old)
        (λ now. into.new ≡ sector_of (volume_view volume.old) now (sector_with bitmap.now at))) }
    ensures device { IfErr result (λ fault. (fault ≡ BitFault.Device)
        × Rose (faults_of volume.old) (faults_of volume.new)) }
    ensures later { faults_of volume.old ≤ faults_of volume.new }
    ensures same { SameVolume volume.old volume.new }
{
    let sector = bitmap.sector + u64::from((at - bitmap.origin) / SECTOR_BITS);
    match volume.read_sector(sector, into) {
        Ok(()) => Ok(()),
        Err(_) => Err(BitFault::Device),
    }
}
