// `make` and `mkfs`: a partition table and an empty volume are written.
ghost use Rattle.std.specs.Prelude.{◌≡◌, ◌≢◌, ◌↔◌, ℕ, ◌≤◌, List, IsTrue, length, map, true, false};
ghost use Rattle.sector_address.specs.Machine.{OnDisks};
ghost use Rattle.ldisk_model.specs.Arguments.{Make, Mkfs};
ghost use Rattle.ldisk_model.specs.DiskTable.{are_placed};
ghost use Rattle.ldisk_model.specs.Verdict.{command_verdict};
ghost use Rattle.mbr_table.specs.View.{device_view};
ghost use Rattle.minix_layout.specs.View.{kind_view};
ghost use Rattle.ldisk_words.specs.View.{part_view};
ghost use Rattle.ldisk_run.specs.Left.{AnswersAs, LeavesBy};
ghost use Rattle.ldisk_run.specs.Made.{made_status};
ghost use Rattle.ldisk_run.specs.Run.{is_command_status};

use disk_trait::Disks;
use ldisk_make::MakeFault;
use ldisk_words::PartWish;
use mbr_table::Device;
use minix_layout::FsKind;

/// Writes the partition table of a new image that has so many sectors, and answers the status.
#[tactic(auto, unfolding(ldisk_model::specs::Verdict::command_verdict))]
pub(crate) fn make<D: Disks>(disks: &mut D, sectors: u32, parts: &[PartWish]) -> u8
    requires { length parts.now ≤ 4 }
    ensures answers { (given : List ℕ) → OnDisks D.Disks disks.old (λ now machine.
        AnswersAs (command_verdict now machine given sectors (Make (map part_view parts.now))) result) }
    ensures known { IsTrue (is_command_status result) }
    ensures memory { result ≢ 13 }
    ensures usage { (result ≡ 1) ↔ (are_placed sectors (map part_view parts.now) ≡ false) }
    ensures no_disk { D.size_of disks.old 0 ≡ 0 → are_placed sectors (map part_view parts.now) ≡ true → result ≡ 3 }
    ensures leaves { (time : ℕ) (given : List ℕ)
        → LeavesBy D.Disks disks.old disks.new time given sectors (Make (map part_view parts.now)) result }
{
    status_of(ldisk_make::make(disks, sectors, parts))
}

/// Makes an empty volume on a device at a time, and answers the status.
#[tactic(auto, unfolding(ldisk_model::specs::Verdict::command_verdict))]
pub(crate) fn mkfs<D: Disks>(
    disks: &mut D,
    device: Device,
    kind: FsKind,
    inodes: u16,
    time: u32,
) -> u8
    ensures answers { (given : List ℕ) (sectors : ℕ) → OnDisks D.Disks disks.old (λ now machine. AnswersAs
        (command_verdict now machine given sectors (Mkfs (device_view device) (kind_view kind) inodes)) result) }
    ensures known { IsTrue (is_command_status result) }
    ensures memory { result ≢ 13 }
    ensures usage { result ≢ 1 }
    ensures no_disk { D.size_of disks.old 0 ≡ 0 → result ≡ 3 }
    ensures leaves { (given : List ℕ) (sectors : ℕ) → LeavesBy D.Disks disks.old disks.new time given sectors
        (Mkfs (device_view device) (kind_view kind) inodes) result }
{
    status_of(ldisk_make::mkfs(disks, device, kind, inodes, time))
}

/// The status of what was made.
fn status_of(made: Result<(), MakeFault>) -> u8
    ensures { result ≡ made_status made }
{
    match made {
        Ok(()) => 0,
        Err(fault) => fault.status(),
    }
}
