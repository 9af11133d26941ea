// A boot sector, restored from its backup.
ghost use Rattle.std.specs.Prelude.{◌≡◌, ◌<◌, ◌≤◌, option_map, Err, IfErr};
ghost use Rattle.lilo_model.specs.Faults.{Rose};
ghost use Rattle.lilo_model.specs.Settled.{is_foreign};
ghost use Rattle.disk_trait.specs.Calls.{GoesOn, SameOf};
ghost use Rattle.sector_address.specs.Machine.{OnDisks};
ghost use Rattle.mbr_table.specs.View.{device_view, span_view};
ghost use Rattle.bios_model.specs.Writes.{WritesPlace};
ghost use Rattle.boot_backup.specs.Restore.{restored_in, boot_place};
ghost use Rattle.boot_backup.specs.View.{Gives, HasCause, Restores};

use crate::backup::read_backup;
use crate::restore_fault::RestoreFault;
use boot_map::{BootSector, MapFault};
use disk_trait::{Disks, Phase, Span, write_and_flush};
use mbr_table::{Device, TableFault};
use sector_parts::Sector;

/// Restores the boot sector of a device, which is the first of these sectors: bytes 0 to 439 and the signature from the
/// backup, `/boot/boot.NNNN` with the device's number in four hexadecimal digits, and bytes 440 to 509, with the
/// partition table, as they are. The volume is that of the device `root`, where one is given, else the first that is
/// found. The backup stays. A boot sector of this format that is broken is restored too.
///
/// # Errors
///
/// In this order: the boot sector is foreign, there is no volume, its superblock is refused, there is no backup of 512
/// bytes; nothing is written then. `Device` is for a disk that failed: `Before` in a read, and nothing is written;
/// `Commit` in the write or flush of the boot sector, which was written then or wasn't.
pub fn restore<D: Disks>(
    disks: &mut D,
    root: Option<Device>,
    device: Device,
    boot: Span,
) -> Result<(), RestoreFault>
    requires { boot.start < D.size_of disks.old boot.disk }
    ensures sector { OnDisks D.Disks disks.old (λ now machine. Restores D.Disks disks.old disks.new
        (boot_place (span_view boot))
        (restored_in now machine (option_map device_view root) (device_view device) (span_view boot)) result) }
    ensures before { result ≡ Err (RestoreFault.Device Phase.Before) → SameOf D.Disks disks.old disks.new }
    ensures failed { (phase : _) → result ≡ Err (RestoreFault.Device phase)
        → Rose (D.faults disks.old) (D.faults disks.new) }
    ensures place { result ≡ Err (RestoreFault.Place TableFault.Device) → ⊥ }
    ensures goes_on { GoesOn D.Disks disks.old disks.new }
{
    match restored(disks, root, device, boot) {
        Ok(sector) => write_boot_sector(disks, &boot, &sector),
        Err(fault) => Err(fault),
    }
}

// What is to be written as a device's boot sector.
#[tactic(auto, unfolding(crate::specs::Restore::restored_in))]
fn restored<D: Disks>(
    disks: &mut D,
    root: Option<Device>,
    device: Device,
    boot: Span,
) -> Result<Sector, RestoreFault>
    requires { boot.start < D.size_of disks.old boot.disk }
    ensures sector { OnDisks D.Disks disks.old (λ now machine. Gives result
        (restored_in now machine (option_map device_view root) (device_view device) (span_view boot))) }
    ensures cause { IfErr result (HasCause (D.faults disks.old) (D.faults disks.new)) }
    ensures later { D.faults disks.old ≤ D.faults disks.new }
    ensures same { SameOf D.Disks disks.old disks.new }
{
    let mut present = [0; 512];
    if disks.read(boot.disk, boot.start, &mut present).is_err() {
        return Err(RestoreFault::Device(Phase::Before));
    }
    if is_foreign(&present) {
        return Err(RestoreFault::NotOurs);
    }
    match read_backup(disks, root, device) {
        Ok(backup) => {
            let mut sector = [0; 512];
            boot_map::restore(&backup, &present, &mut sector);
            Ok(sector)
        }
        Err(fault) => Err(fault),
    }
}

// Writes a boot sector and makes it durable.
fn write_boot_sector<D: Disks>(
    disks: &mut D,
    boot: &Span,
    from: &Sector,
) -> Result<(), RestoreFault>
    requires { boot.now.start < D.size_of disks.old boot.now.disk }
    ensures writes { WritesPlace D.Disks disks.old disks.new (boot_place (span_view boot.now)) from.now result }
    ensures failed { IfErr result (λ fault. (fault ≡ RestoreFault.Device Phase.Commit)
        × Rose (D.faults disks.old) (D.faults disks.new)) }
{
    match write_and_flush(disks, boot.disk, boot.start, from) {
        Ok(()) => Ok(()),
        Err(_) => Err(RestoreFault::Device(Phase::Commit)),
    }
}

// Whether a boot sector is of another system, or of another version.
#[tactic(auto, unfolding(lilo_model::specs::Settled::is_foreign))]
fn is_foreign(sector: &Sector) -> bool
    ensures { result ≡ is_foreign sector.now }
{
    match BootSector::read(sector) {
        Ok(_) | Err(MapFault::BadTable(_) | MapFault::BadLine) => false,
        Err(MapFault::NotOurs | MapFault::BadVersion(_)) => true,
    }
}
