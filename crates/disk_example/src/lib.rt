//! Updates of disks that a stop may interrupt, in terms of moments.
#![tactic(auto)]

ghost use Rattle.std.specs.Prelude.{◌≡◌, ◌⊎◌, ◌<◌, ◌≤◌, ℕ, List, length, EachIndex, SomeIndex, slice_index};
ghost use Rattle.std.specs.Prelude.{OnOk, IsErrOf};
ghost use Rattle.disk_trait.specs.Past.{Image, with_sector};
ghost use Rattle.disk_trait.specs.Moments.{IsTold, now, MayLeave, IsQuiet, LeavesOnly};
ghost use Rattle.lilo_model.specs.Faults.{Rose};
ghost use Rattle.disk_trait.specs.Calls.{HasCauseOf, HasRangeCauseOf};
ghost use Rattle.disk_trait.specs.NotWritten.{NotWritten};
ghost use Rattle.disk_trait.specs.Range.{IsPastEnd, SameOutside, IsWritten};
ghost use Rattle.disk_example.specs.Example.{IsOldFirstOrBoth, IsWithOrWithout, BootsAsBeforeOr};
ghost use Rattle.disk_example.specs.Example.{filled, IsNoneOf, IsFreeOf, BringsAbout};

use disk_trait::{DiskFault, Disks, flush, write, write_and_flush, write_range};
use sector_parts::Sector;

/// Writes two sectors, the second once the first is durable. A stop at any moment leaves the disks as they
/// were, or with the first alone, or with both.
pub fn write_in_turn<D: Disks>(
    disks: &mut D,
    disk: u8,
    a: u64,
    first: &Sector,
    b: u64,
    second: &Sector,
) -> Result<(), DiskFault>
    requires { IsQuiet (D.past disks.old) }
    ensures failed { IsErrOf result DiskFault.Failed → Rose (D.faults disks.old) (D.faults disks.new) }
    ensures out_of_range { IsErrOf result DiskFault.OutOfRange
        → (D.size_of disks.old disk ≤ a) ⊎ (D.size_of disks.old disk ≤ b) }
    ensures any_moment { IsTold (D.past disks.old) → LeavesOnly (D.past disks.old) (D.past disks.new)
        (IsOldFirstOrBoth (now (D.past disks.old)) disk a first.now b second.now) }
    ensures both { IsTold (D.past disks.old)
        → OnOk result (now (D.past disks.new)
        ≡ with_sector (with_sector (now (D.past disks.old)) disk a first.now) disk b second.now) }
{
    write(disks, disk, a, first)?;
    flush(disks)?;
    write(disks, disk, b, second)
}

/// Writes neighbouring sectors. A stop at any moment leaves all others as they were.
pub fn stage<D: Disks>(
    disks: &mut D,
    disk: u8,
    start: u64,
    sectors: &[Sector],
) -> Result<(), DiskFault>
    requires { IsQuiet (D.past disks.old) }
    ensures cause { HasRangeCauseOf D.Disks disks.old disks.new disk start (length sectors.now) result }
    ensures any_moment { LeavesOnly (D.past disks.old) (D.past disks.new)
        (SameOutside disk start (length sectors.now) (now (D.past disks.old))) }
    ensures size { D.size_of disks.new ≡ D.size_of disks.old }
    ensures staged { IsTold (D.past disks.old) → OnOk result (IsWritten disk start sectors.now
        (length sectors.now) (now (D.past disks.old)) (now (D.past disks.new))) }
    ensures quiet { OnOk result (IsQuiet (D.past disks.new)) }
    ensures told { IsTold (D.past disks.old) → IsTold (D.past disks.new) }
{
    write_range(disks, disk, start, sectors)
}

/// Writes one sector. A stop at any moment leaves the disks with it or without.
pub fn commit<D: Disks>(
    disks: &mut D,
    disk: u8,
    sector: u64,
    from: &Sector,
) -> Result<(), DiskFault>
    requires { IsQuiet (D.past disks.old) }
    ensures cause { HasCauseOf D.Disks disks.old disks.new disk sector result }
    ensures any_moment { LeavesOnly (D.past disks.old) (D.past disks.new)
        (IsWithOrWithout (now (D.past disks.old)) disk sector from.now) }
    ensures committed { IsTold (D.past disks.old)
        → OnOk result (now (D.past disks.new) ≡ with_sector (now (D.past disks.old)) disk sector from.now) }
    ensures quiet { OnOk result (IsQuiet (D.past disks.new)) }
{
    write_and_flush(disks, disk, sector, from)
}

/// How a machine boots from disks.
pub trait Boot {
    /// What boots from an image, by what is typed.
    ghost boots: { Image → List ℕ → ℕ };
}

/// Writes the same bytes into sectors that no boot depends on, and makes them durable. A stop at any moment
/// leaves what boots as before, whatever is typed.
#[tactic(auto, using(disk_trait::proofs::MomentLemmas::at_entry))]
pub fn fill<D: Disks, B: Boot>(
    disks: &mut D,
    disk: u8,
    places: &[u64],
    from: &Sector,
) -> Result<(), DiskFault>
    requires quiet { IsQuiet (D.past disks.old) }
    requires free { EachIndex places.now (λ k. (c : Image)
        → B.boots (with_sector c disk (slice_index places.now k) from.now) ≡ B.boots c) }
    ensures failed { IsErrOf result DiskFault.Failed → Rose (D.faults disks.old) (D.faults disks.new) }
    ensures out_of_range { IsErrOf result DiskFault.OutOfRange
        → SomeIndex places.now (λ k. D.size_of disks.old disk ≤ slice_index places.now k) }
    ensures in_range { OnOk result (EachIndex places.now (λ k. slice_index places.now k < D.size_of disks.old disk)) }
    ensures filled { IsTold (D.past disks.old)
        → OnOk result (now (D.past disks.new) ≡ filled disk places.now from.now (now (D.past disks.old))) }
    ensures others { (d s : ℕ) → IsNoneOf disk places.now d s → NotWritten (D.past disks.old) (D.past disks.new) d s }
    ensures any_moment { LeavesOnly (D.past disks.old) (D.past disks.new)
        (λ c. B.boots c ≡ B.boots (now (D.past disks.old))) }
    ensures quiet { OnOk result (IsQuiet (D.past disks.new)) }
{
    for place in places {
        write(disks, disk, *place, from)?;
    }
    flush(disks)
}

/// Stages neighbouring sectors, and then writes the one sector that makes the change. A stop at any moment
/// leaves what boots as before or as meant, whatever is typed; after `Ok` only as meant.
pub fn install<D: Disks, B: Boot>(
    disks: &mut D,
    disk: u8,
    start: u64,
    sectors: &[Sector],
    last: u64,
    from: &Sector,
) -> Result<(), DiskFault>
    requires quiet { IsQuiet (D.past disks.old) }
    requires free { IsFreeOf B.boots (now (D.past disks.old)) disk start (length sectors.now) }
    ensures failed { IsErrOf result DiskFault.Failed → Rose (D.faults disks.old) (D.faults disks.new) }
    ensures out_of_range { IsErrOf result DiskFault.OutOfRange
        → IsPastEnd (D.size_of disks.old disk) start (length sectors.now) ⊎ (D.size_of disks.old disk ≤ last) }
    ensures any_moment { (meant : List ℕ → ℕ)
        → BringsAbout B.boots (now (D.past disks.old)) disk start sectors.now last from.now meant
        → IsTold (D.past disks.old)
        → LeavesOnly (D.past disks.old) (D.past disks.new) (BootsAsBeforeOr B.boots (now (D.past disks.old)) meant) }
    ensures after { (meant : List ℕ → ℕ)
        → BringsAbout B.boots (now (D.past disks.old)) disk start sectors.now last from.now meant
        → IsTold (D.past disks.old)
        → OnOk result ((c : Image) → MayLeave (D.past disks.new) c → B.boots c ≡ meant) }
{
    stage(disks, disk, start, sectors)?;
    commit(disks, disk, last, from)
}
