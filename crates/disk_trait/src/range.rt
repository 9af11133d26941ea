// Neighbouring sectors of one disk, written in order.
ghost use Rattle.std.specs.Prelude.{◌≡◌, ◌<◌, ◌≤◌, ◌+◌, ◌↔◌, length, IsTrue, IsErrOf};
ghost use Rattle.disk_trait.specs.Moments.{begun};
ghost use Rattle.disk_trait.specs.Range.{IsPastEnd};
ghost use Rattle.disk_trait.specs.Calls.{HasFlushCauseOf, HasRangeCauseOf, WritesRange, EndsWithFlush};

use crate::{DiskFault, Disks, flush, write};
use sector_parts::Sector;

/// Writes neighbouring sectors, the first of them first, and makes them durable, with all writes before them.
/// Nothing is written where one of them isn't there.
pub fn write_range<D: Disks>(
    disks: &mut D,
    disk: u8,
    start: u64,
    sectors: &[Sector],
) -> Result<(), DiskFault>
    ensures cause { HasRangeCauseOf D.Disks disks.old disks.new disk start (length sectors.now) result }
    ensures out_of_range { IsErrOf result DiskFault.OutOfRange → D.past disks.new ≡ D.past disks.old }
    ensures writes { WritesRange D.Disks disks.old disks.new disk start sectors.now result }
    ensures flushed { EndsWithFlush D.Disks disks.old disks.new result }
{
    write_sectors(disks, disk, start, sectors)?;
    flush(disks)
}

/// Writes neighbouring sectors, the first of them first. Until the next flush a stop may leave any of them
/// written. Nothing is written where one of them isn't there.
pub fn write_sectors<D: Disks>(
    disks: &mut D,
    disk: u8,
    start: u64,
    sectors: &[Sector],
) -> Result<(), DiskFault>
    ensures cause { HasRangeCauseOf D.Disks disks.old disks.new disk start (length sectors.now) result }
    ensures out_of_range { IsErrOf result DiskFault.OutOfRange → D.past disks.new ≡ D.past disks.old }
    ensures writes { WritesRange D.Disks disks.old disks.new disk start sectors.now result }
    ensures begun { begun (D.past disks.new) ≡ begun (D.past disks.old) }
{
    if is_past_end(disks.size(disk), start, sectors.len()) {
        return Err(DiskFault::OutOfRange);
    }
    write_each(disks, disk, start, sectors)
}

// Whether one of some neighbouring sectors lies past the end of a disk of that size.
fn is_past_end(size: u64, start: u64, count: usize) -> bool
    ensures { IsTrue result ↔ IsPastEnd size start count }
{
    count > 0 && (start > size || count as u64 > size - start)
}

// Writes neighbouring sectors that are there.
fn write_each<D: Disks>(
    disks: &mut D,
    disk: u8,
    start: u64,
    sectors: &[Sector],
) -> Result<(), DiskFault>
    requires there { 0 < length sectors.now → start + length sectors.now ≤ D.size_of disks.old disk }
    requires fits { start + length sectors.now ≤ u64.MAX }
    ensures cause { HasFlushCauseOf D.Disks disks.old disks.new result }
    ensures writes { WritesRange D.Disks disks.old disks.new disk start sectors.now result }
    ensures begun { begun (D.past disks.new) ≡ begun (D.past disks.old) }
{
    for (i, sector) in sectors.iter().enumerate() {
        write(disks, disk, start + i as u64, sector)?;
    }
    Ok(())
}
