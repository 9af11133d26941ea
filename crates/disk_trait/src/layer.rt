// The calls of disks, in terms of moments.
ghost use Rattle.std.specs.Prelude.{◌≡◌, OnOk, OnErr, IsErrOf};
ghost use Rattle.disk_trait.specs.Moments.{IsTold, now, begun};
ghost use Rattle.disk_trait.specs.Calls.{HasCauseOf, HasFlushCauseOf, Reads, Writes, Flushes, EndsWithFlush};

use crate::{DiskFault, Disks};
use sector_parts::Sector;

/// Reads a sector, and changes no disk. A refusal leaves `into` as it was.
pub fn read<D: Disks>(
    disks: &mut D,
    disk: u8,
    sector: u64,
    into: &mut Sector,
) -> Result<(), DiskFault>
    ensures cause { HasCauseOf D.Disks disks.old disks.new disk sector result }
    ensures bytes { IsTold (D.past disks.old) → OnOk result (into.new ≡ now (D.past disks.old) disk sector) }
    ensures refused { OnErr result (into.new ≡ into.old) }
    ensures reads { Reads D.Disks disks.old disks.new }
{
    disks.read(disk, sector, into)
}

/// Writes a sector. Until the next flush a stop may leave it written or not. A write that failed was made or
/// wasn't.
pub fn write<D: Disks>(disks: &mut D, disk: u8, sector: u64, from: &Sector) -> Result<(), DiskFault>
    ensures cause { HasCauseOf D.Disks disks.old disks.new disk sector result }
    ensures out_of_range { IsErrOf result DiskFault.OutOfRange → D.past disks.new ≡ D.past disks.old }
    ensures writes { Writes D.Disks disks.old disks.new disk sector from.now result }
    ensures begun { begun (D.past disks.new) ≡ begun (D.past disks.old) }
{
    disks.write(disk, sector, from)
}

/// Makes all writes so far durable, on all disks. A flush that failed did nothing.
pub fn flush<D: Disks>(disks: &mut D) -> Result<(), DiskFault>
    ensures cause { HasFlushCauseOf D.Disks disks.old disks.new result }
    ensures flushes { Flushes D.Disks disks.old disks.new result }
{
    disks.flush()
}

/// Writes a sector and makes it durable, with all writes before it.
pub fn write_and_flush<D: Disks>(
    disks: &mut D,
    disk: u8,
    sector: u64,
    from: &Sector,
) -> Result<(), DiskFault>
    ensures cause { HasCauseOf D.Disks disks.old disks.new disk sector result }
    ensures out_of_range { IsErrOf result DiskFault.OutOfRange → D.past disks.new ≡ D.past disks.old }
    ensures writes { Writes D.Disks disks.old disks.new disk sector from.now result }
    ensures flushed { EndsWithFlush D.Disks disks.old disks.new result }
{
    write(disks, disk, sector, from)?;
    flush(disks)
}
