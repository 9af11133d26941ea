// Waste is freed.
ghost use Rattle.std.specs.Prelude.{◌≡◌};
ghost use Rattle.minix_reclaim.specs.Reclaim.{ReclaimsBy, Reclaims, end_of, answer_of};

use crate::bitmap::{inode_bitmap, zone_bitmap};
use crate::fault::{ReclaimFault, ReclaimHalt, reclaim_fault};
use crate::free::free_unused;
use disk_trait::Disks;
use minix_survey::{Findings, survey};
use minix_zones::Volume;
use std::alloc::Global;

/// How many zones and inodes were freed.
#[derive(Clone, Copy, Debug, PartialEq, Eq)]
pub struct Freed {
    pub zones: u32,
    pub inodes: u32,
}

/// Clears the bits of the zones that are marked and to which no named inode refers, and of the inodes that are marked
/// and are neither the root nor have a name. Each sector of the bitmaps is read once, and written once where it has such
/// a bit; then all is made durable.
///
/// # Errors
///
/// `Survey` where the volume isn't sound, and `Memory`: then nothing was done. `Device`: then some of the bits may be
/// cleared.
pub fn reclaim<'d, D: Disks>(
    alloc: Global,
    volume: Volume<'d, D>,
) -> Result<(Volume<'d, D>, Freed), ReclaimHalt<'d, D>>
    ensures reclaims { Reclaims volume.entry (end_of result) (answer_of result) }
{
    let mut volume = volume;
    match reclaim_held(alloc, &mut volume) {
        Ok(freed) => Ok((volume, freed)),
        Err(fault) => Err(ReclaimHalt { volume, fault }),
    }
}

// The same of a volume that is lent.
fn reclaim_held<D: Disks>(alloc: Global, volume: &mut Volume<'_, D>) -> Result<Freed, ReclaimFault>
    ensures { Reclaims volume.old volume.new result }
{
    match survey(alloc, volume) {
        Ok(found) => free_waste(volume, &found),
        Err(fault) => Err(reclaim_fault(fault)),
    }
}

// Frees what has no use, by what a survey found.
fn free_waste<D: Disks>(volume: &mut Volume<'_, D>, found: &Findings) -> Result<Freed, ReclaimFault>
    ensures { ReclaimsBy volume.old volume.new found.now result }
{
    let bitmap = zone_bitmap(volume);
    let zones = free_unused(volume, &bitmap, found)?;
    let bitmap = inode_bitmap(volume);
    let inodes = free_unused(volume, &bitmap, found)?;
    volume.sync()?;
    Ok(Freed { zones, inodes })
}
