// The bits of one bitmap.
ghost use Rattle.std.specs.Prelude.{◌≡◌, ◌<◌, ◌+◌, ◌-◌, ◌*◌};
ghost use Rattle.minix_layout.specs.View.{super_view};
ghost use Rattle.minix_reclaim.specs.Bitmap.{IsBitmapOf};
ghost use Rattle.minix_reclaim.specs.Frees.{FreesSector, FreesMap, first_in, sectors_of};

use crate::bitmap::{Bitmap, SECTOR_BITS};
use crate::bits::clear_unused;
use disk_trait::Disks;
use minix_survey::Findings;
use minix_zones::{Volume, ZoneFault};

/// Clears the bits of a bitmap whose zones or inodes have no use, by what a survey found, and counts them: each of its
/// sectors is read once, and written once where it has such a bit. They aren't flushed.
///
/// # Errors
///
/// `Device` alone. Then some of the bits may be cleared.
pub(crate) fn free_unused<D: Disks>(
    volume: &mut Volume<'_, D>,
    bitmap: &Bitmap,
    found: &Findings,
) -> Result<u32, ZoneFault>
    requires { IsBitmapOf (super_view volume.old.layout) bitmap.now }
    ensures { FreesMap volume.old volume.new bitmap.now found.now (sectors_of bitmap.now) result }
{
    let sectors = (bitmap.end - bitmap.origin).div_ceil(SECTOR_BITS);
    let mut freed = 0;
    for index in 0..sectors {
        freed += free_in_sector(volume, bitmap, found, index)?;
    }
    Ok(freed)
}

// The same of one of its sectors.
fn free_in_sector<D: Disks>(
    volume: &mut Volume<'_, D>,
    bitmap: &Bitmap,
    found: &Findings,
    index: u32,
) -> Result<u32, ZoneFault>
    requires bitmap { IsBitmapOf (super_view volume.old.layout) bitmap.now }
    requires inside { bitmap.now.origin + 4096 * index < bitmap.now.end }
    ensures { FreesSector volume.old volume.new bitmap.now found.now index result }
{
    let sector = bitmap.sector + u64::from(index);
    let base = bitmap.origin + SECTOR_BITS * index;
    let from = first_bit(index);
    let to = (bitmap.end - base).min(SECTOR_BITS);
    let mut bytes = [0; 512];
    volume.read_sector(sector, &mut bytes)?;
    let freed = clear_unused(&mut bytes, bitmap, found, base, from, to);
    if freed != 0 {
        volume.write_sector(sector, &bytes)?;
    }
    Ok(freed)
}

// The first bit of a sector that is for a number: the first of the first one is for none.
fn first_bit(index: u32) -> u32
    ensures { result ≡ first_in index - 4096 * index }
{
    if index == 0 { 1 } else { 0 }
}
