// A partition table is written.
ghost use Rattle.std.specs.Prelude.{◌≡◌, ◌↔◌, ◌≤◌, length, map, true, false, Err, OnOk, IfErr};
ghost use Rattle.disk_trait.specs.Moments.{IsTold, now, IsQuiet, LeftOrWritten, LeavesOnly};
ghost use Rattle.disk_trait.specs.Calls.{GoesOn};
ghost use Rattle.disk_trait.specs.NotWritten.{WritesNoOther};
ghost use Rattle.disk_trait.specs.Past.{with_sector};
ghost use Rattle.sector_address.specs.Machine.{machine_of};
ghost use Rattle.ldisk_model.specs.DiskTable.{entry_bytes, table_sector, are_placed};
ghost use Rattle.ldisk_model.specs.Verdict.{make_check};
ghost use Rattle.ldisk_words.specs.View.{part_view};
ghost use Rattle.ldisk_make.specs.Answer.{Answers, is_refusal, HasMakeCause};

use crate::fault::MakeFault;
use crate::place::are_placed;
use disk_trait::{Disks, write_and_flush};
use ldisk_words::PartWish;
use sector_parts::{FieldMut, Sector, put_part, put_u16};

/// Writes the table of at most four partitions into the first sector of disk 0, which had so many sectors when it was
/// made, and makes it durable.
///
/// # Errors
///
/// `Misplaced` and `NoPlace`, in this order: then nothing is written. `Device`: the sector is written or as before, as a
/// stop at any moment leaves it.
pub fn make<D: Disks>(disks: &mut D, sectors: u32, parts: &[PartWish]) -> Result<(), MakeFault>
    requires { length parts.now ≤ 4 }
    ensures status { Answers (make_check (machine_of D.Disks disks.old) sectors (map part_view parts.now)) result }
    ensures misplaced { (result ≡ Err MakeFault.Misplaced)
        ↔ (are_placed sectors (map part_view parts.now) ≡ false) }
    ensures no_disk { D.size_of disks.old 0 ≡ 0 → are_placed sectors (map part_view parts.now) ≡ true
        → result ≡ Err MakeFault.NoPlace }
    ensures made { IsTold (D.past disks.old) → OnOk result (now (D.past disks.new)
        ≡ with_sector (now (D.past disks.old)) 0 0 (table_sector (map part_view parts.now))) }
    ensures quiet { OnOk result (IsQuiet (D.past disks.new)) }
    ensures any_moment { LeavesOnly (D.past disks.old) (D.past disks.new)
        (LeftOrWritten (D.past disks.old) 0 0 (table_sector (map part_view parts.now))) }
    ensures refused { IfErr result (λ fault. is_refusal fault ≡ true → D.past disks.new ≡ D.past disks.old) }
    ensures cause { IfErr result (HasMakeCause (D.faults disks.old) (D.faults disks.new)) }
    ensures others { WritesNoOther 0 0 (D.past disks.old) (D.past disks.new) }
    ensures goes_on { GoesOn D.Disks disks.old disks.new }
{
    if !are_placed(sectors, parts) {
        return Err(MakeFault::Misplaced);
    }
    if disks.size(0) == 0 {
        return Err(MakeFault::NoPlace);
    }
    write_and_flush(disks, 0, 0, &table_sector(parts))?;
    Ok(())
}

/// The sector of a table.
fn table_sector(parts: &[PartWish]) -> Sector
    requires { length parts.now ≤ 4 }
    ensures { result ≡ table_sector (map part_view parts.now) }
{
    let mut sector = [0; 512];
    for (at, part) in parts.iter().enumerate() {
        put_part(&mut sector, 446 + 16 * at, &entry_bytes(part));
    }
    put_u16(&mut sector, 510, 0xAA55);
    sector
}

/// The entry of a partition.
#[tactic(auto, unfolding(ldisk_model::specs::DiskTable::entry_bytes))]
fn entry_bytes(part: &PartWish) -> [u8; 16]
    ensures { result ≡ entry_bytes (part_view part.now) }
{
    let mut bytes = [0; 16];
    let mut fields = FieldMut { bytes: &mut bytes };
    fields.put_u8(4, part.kind);
    fields.put_u32(8, part.start);
    fields.put_u32(12, part.count);
    bytes
}
