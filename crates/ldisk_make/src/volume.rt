// An empty volume is made on a device.
ghost use Rattle.std.specs.Prelude.{◌≡◌, ◌≢◌, ℕ, ◌≤◌, ◌+◌, Some, None, true, false, Err, OnOk, IfOk, IfErr};
ghost use Rattle.disk_trait.specs.Moments.{IsTold, now, IsQuiet, IsWholeImage, LeavesOnly};
ghost use Rattle.disk_trait.specs.Calls.{GoesOn, SameOf};
ghost use Rattle.disk_trait.specs.NotWritten.{NotWritten};
ghost use Rattle.sector_address.specs.Machine.{OnDisks};
ghost use Rattle.lilo_model.specs.Partitions.{span_of};
ghost use Rattle.ldisk_model.specs.Verdict.{status_of, place_check, mkfs_check, formatted_on, is_in_found};
ghost use Rattle.mbr_table.specs.View.{device_view};
ghost use Rattle.minix_layout.specs.View.{kind_view};
ghost use Rattle.ldisk_make.specs.Answer.{
  Answers,
  Finds,
  IsPlaceFault,
  IsFormatted,
  is_refusal,
  HasMakeCause,
  HasEmptyVolume,
};
ghost use Rattle.disk_trait.specs.Range.{IsOutside};
ghost use Rattle.ldisk_model.specs.MinixFormat.{format_layout, format_at};
ghost use Rattle.minix_format.specs.Laws.{IsEmptyVolume};
ghost use Rattle.minix_format.specs.Left.{LeftOrPartlyMade};
ghost use Rattle.minix_zones.specs.View.{span_view};

use crate::fault::MakeFault;
use disk_trait::{Disks, Span};
use mbr_table::{Device, TableFault, place_of};
use minix_format::{FormatFault, format};
use minix_layout::FsKind;

/// Makes an empty volume on a device, with so many inodes, at a time, and makes it durable. Each sector that a stop before
/// that leaves is as before or as it is to be.
///
/// # Errors
///
/// `NoPlace` and `NoSpace`, in this order: then nothing is written. `Device`. Where a check refuses nothing is written
/// whatever is answered, `Device` too.
pub fn mkfs<D: Disks>(
    disks: &mut D,
    device: Device,
    kind: FsKind,
    inodes: u16,
    time: u32,
) -> Result<(), MakeFault>
    ensures status { OnDisks D.Disks disks.old (λ now machine.
        Answers (mkfs_check now machine (device_view device) (kind_view kind) inodes) result) }
    ensures never { result ≢ Err MakeFault.Misplaced }
    ensures no_disk { D.size_of disks.old 0 ≡ 0 → result ≡ Err MakeFault.NoPlace }
    ensures made { OnOk result (OnDisks D.Disks disks.old (λ old machine.
        formatted_on (span_of old machine (device_view device)) (kind_view kind) inodes time old
        ≡ Some (now (D.past disks.new)))) }
    ensures empty { OnOk result (OnDisks D.Disks disks.old (λ old machine. IsWholeImage (D.size_of disks.old) old
        → HasEmptyVolume (span_of old machine (device_view device)) (kind_view kind) inodes (now (D.past disks.new)))) }
    ensures quiet { OnOk result (IsQuiet (D.past disks.new)) }
    ensures any_moment { OnDisks D.Disks disks.old (λ old machine. LeavesOnly (D.past disks.old) (D.past disks.new)
        (LeftOrPartlyMade (D.past disks.old) (formatted_on (span_of old machine (device_view device)) (kind_view kind)
        inodes time))) }
    ensures refused { IfErr result (λ fault. is_refusal fault ≡ true → D.past disks.new ≡ D.past disks.old) }
    ensures unwritten { OnDisks D.Disks disks.old (λ now machine.
        status_of (mkfs_check now machine (device_view device) (kind_view kind) inodes) ≢ 0
        → D.past disks.new ≡ D.past disks.old) }
    ensures cause { IfErr result (HasMakeCause (D.faults disks.old) (D.faults disks.new)) }
    ensures outside { OnDisks D.Disks disks.old (λ old machine. (d s : ℕ)
        → is_in_found (span_of old machine (device_view device)) d s ≡ false
        → NotWritten (D.past disks.old) (D.past disks.new) d s) }
    ensures goes_on { GoesOn D.Disks disks.old disks.new }
{
    match find_place(disks, device) {
        Ok(span) => format_in(disks, span, kind, inodes, time),
        Err(fault) => Err(fault),
    }
}

/// Makes an empty volume in a span.
fn format_in<D: Disks>(
    disks: &mut D,
    span: Span,
    kind: FsKind,
    inodes: u16,
    time: u32,
) -> Result<(), MakeFault>
    requires { span.start + span.count ≤ D.size_of disks.old span.disk }
    ensures fits { IsFormatted (format_layout (kind_view kind) span.count inodes) result }
    ensures never { result ≢ Err MakeFault.Misplaced }
    ensures made { IsTold (D.past disks.old)
        → OnOk result (format_at (span_view span) (kind_view kind) inodes time (now (D.past disks.old))
        ≡ Some (now (D.past disks.new))) }
    ensures empty { IsTold (D.past disks.old) → IsWholeImage (D.size_of disks.old) (now (D.past disks.old))
        → OnOk result (IsEmptyVolume (span_view span) (kind_view kind) inodes (now (D.past disks.new))) }
    ensures quiet { OnOk result (IsQuiet (D.past disks.new)) }
    ensures any_moment { LeavesOnly (D.past disks.old) (D.past disks.new)
        (LeftOrPartlyMade (D.past disks.old) (format_at (span_view span) (kind_view kind) inodes time)) }
    ensures refused { IfErr result (λ fault. is_refusal fault ≡ true → D.past disks.new ≡ D.past disks.old) }
    ensures unwritten { format_layout (kind_view kind) span.count inodes ≡ None → D.past disks.new ≡ D.past disks.old }
    ensures cause { IfErr result (HasMakeCause (D.faults disks.old) (D.faults disks.new)) }
    ensures outside { (d s : ℕ) → IsOutside span.disk span.start span.count d s
        → NotWritten (D.past disks.old) (D.past disks.new) d s }
    ensures goes_on { GoesOn D.Disks disks.old disks.new }
{
    match format(disks, span, kind, inodes, time) {
        Ok(()) => Ok(()),
        Err(FormatFault::NoSpace) => Err(MakeFault::NoSpace),
        Err(FormatFault::Device) => Err(MakeFault::Device),
    }
}

/// The sectors of a device, where disk 0 is there.
fn find_place<D: Disks>(disks: &mut D, device: Device) -> Result<Span, MakeFault>
    ensures place { OnDisks D.Disks disks.old
        (λ now machine. Finds result (place_check now machine (device_view device))
        (span_of now machine (device_view device))) }
    ensures never { result ≢ Err MakeFault.Misplaced }
    ensures no_disk { D.size_of disks.old 0 ≡ 0 → result ≡ Err MakeFault.NoPlace }
    ensures on_disk { IfOk result (λ span. span.start + span.count ≤ D.size_of disks.old span.disk) }
    ensures cause { IfErr result (HasMakeCause (D.faults disks.old) (D.faults disks.new)) }
    ensures later { D.faults disks.old ≤ D.faults disks.new }
    ensures same { SameOf D.Disks disks.old disks.new }
{
    if disks.size(0) == 0 {
        return Err(MakeFault::NoPlace);
    }
    match place_of(disks, device) {
        Ok(span) => Ok(span),
        Err(fault) => Err(place_fault(fault)),
    }
}

/// How it is reported that a device can't be found.
fn place_fault(fault: TableFault) -> MakeFault
    ensures { IsPlaceFault fault result }
{
    match fault {
        TableFault::Device => MakeFault::Device,
        _ => MakeFault::NoPlace,
    }
}
