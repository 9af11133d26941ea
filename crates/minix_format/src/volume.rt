// An empty volume is written.
ghost use Rattle.std.specs.Prelude.{◌≡◌, ◌≤◌, ◌<◌, ◌+◌, ◌^◌, ◌↔◌, ℕ, Some, None, OnOk, IsErrOf};
ghost use Rattle.disk_trait.specs.Moments.{IsTold, now, IsQuiet, IsWholeImage, LeavesOnly};
ghost use Rattle.disk_trait.specs.Calls.{HasFlushCauseOf, WritesRange, GoesOn};
ghost use Rattle.disk_trait.specs.NotWritten.{NotWritten};
ghost use Rattle.disk_trait.specs.Range.{IsOutside};
ghost use Rattle.lilo_model.specs.Faults.{Rose};
ghost use Rattle.minix_layout.specs.View.{kind_view, super_view};
ghost use Rattle.minix_zones.specs.View.{span_view};
ghost use Rattle.ldisk_model.specs.MinixFormat.{format_layout, formatted_count, formatted_sectors, format_at};
ghost use Rattle.minix_format.specs.Laid.{IsLaid};
ghost use Rattle.minix_format.specs.Laws.{IsEmptyVolume};
ghost use Rattle.minix_format.specs.Left.{LeftOrPartlyMade};

use crate::format_fault::FormatFault;
use crate::layout::format_layout;
use crate::sector::{SUPER_SECTOR, sector_at};
use disk_trait::{DiskFault, Disks, Span, flush, write};
use minix_layout::{FsKind, Super, where_zone};

/// Makes an empty volume in a span of a disk, with so many inodes, at a time: its sectors from the superblock's on are
/// written in order, up to the root's zone, and then made durable. The boot block stays. Each sector that a stop before
/// that leaves is as before or as it is to be.
///
/// # Errors
///
/// `NoSpace` exactly where there is no room for the tables and the root, and then nothing is written; `Device`.
pub fn format<D: Disks>(
    disks: &mut D,
    span: Span,
    kind: FsKind,
    inodes: u16,
    time: u32,
) -> Result<(), FormatFault>
    requires on_disk { span.start + span.count ≤ D.size_of disks.old span.disk }

    // What was made.
    ensures made { IsTold (D.past disks.old)
        → OnOk result (format_at (span_view span) (kind_view kind) inodes time (now (D.past disks.old))
        ≡ Some (now (D.past disks.new))) }
    ensures empty { IsTold (D.past disks.old) → IsWholeImage (D.size_of disks.old) (now (D.past disks.old))
        → OnOk result (IsEmptyVolume (span_view span) (kind_view kind) inodes (now (D.past disks.new))) }
    ensures quiet { OnOk result (IsQuiet (D.past disks.new)) }
    ensures any_moment { LeavesOnly (D.past disks.old) (D.past disks.new)
        (LeftOrPartlyMade (D.past disks.old) (format_at (span_view span) (kind_view kind) inodes time)) }

    // What was not.
    ensures no_space { IsErrOf result FormatFault.NoSpace ↔ (format_layout (kind_view kind) span.count inodes ≡ None) }
    ensures unchanged { IsErrOf result FormatFault.NoSpace → D.past disks.new ≡ D.past disks.old }
    ensures device { IsErrOf result FormatFault.Device → Rose (D.faults disks.old) (D.faults disks.new) }
    ensures outside { (d s : ℕ) → IsOutside span.disk span.start span.count d s
        → NotWritten (D.past disks.old) (D.past disks.new) d s }
    ensures goes_on { GoesOn D.Disks disks.old disks.new }
{
    let size = disks.size(span.disk);
    let on_disk = span.count <= size && span.start <= size - span.count;
    prove!(on_disk);
    let Some(layout) = format_layout(kind, span.count, inodes) else {
        return Err(FormatFault::NoSpace);
    };
    write_volume(disks, span, &layout, time)?;
    Ok(())
}

// Writes the sectors of an empty volume and makes them durable.
fn write_volume<D: Disks>(
    disks: &mut D,
    span: Span,
    layout: &Super,
    time: u32,
) -> Result<(), DiskFault>
    requires laid { IsLaid (super_view layout.now) }
    requires there { span.start + 2 + formatted_count (super_view layout.now) ≤ D.size_of disks.old span.disk }
    requires numbered { span.start + 2 + formatted_count (super_view layout.now) < 2 ^ 64 }
    ensures cause { HasFlushCauseOf D.Disks disks.old disks.new result }
    ensures writes { WritesRange D.Disks disks.old disks.new span.disk (span.start + 2)
        (formatted_sectors (super_view layout.now) time) result }
    ensures quiet { OnOk result (IsQuiet (D.past disks.new)) }
{
    write_each(disks, span, layout, time)?;
    flush(disks)
}

// Writes the sectors of an empty volume, the first of them first.
fn write_each<D: Disks>(
    disks: &mut D,
    span: Span,
    layout: &Super,
    time: u32,
) -> Result<(), DiskFault>
    requires laid { IsLaid (super_view layout.now) }
    requires there { span.start + 2 + formatted_count (super_view layout.now) ≤ D.size_of disks.old span.disk }
    requires numbered { span.start + 2 + formatted_count (super_view layout.now) < 2 ^ 64 }
    ensures cause { HasFlushCauseOf D.Disks disks.old disks.new result }
    ensures writes { WritesRange D.Disks disks.old disks.new span.disk (span.start + 2)
        (formatted_sectors (super_view layout.now) time) result }
{
    let start = span.start + SUPER_SECTOR;
    let count = where_zone(layout.first);
    for index in 0..count {
        write(
            disks,
            span.disk,
            start + index,
            &sector_at(layout, time, SUPER_SECTOR + index),
        )?;
    }
    Ok(())
}
