// The present map.
ghost use Rattle.std.specs.Prelude.{◌≡◌, ◌<◌, ◌≤◌, IfOk, IfErr, IsErr, OnOk};
ghost use Rattle.lilo_model.specs.BootSector.{boot_at};
ghost use Rattle.lilo_model.specs.Mapped.{behind_sector, mapped_sectors};
ghost use Rattle.lilo_model.specs.Settled.{is_foreign};
ghost use Rattle.bios_model.specs.Reads.{OnlyReads};
ghost use Rattle.disk_trait.specs.Calls.{SameOf};
ghost use Rattle.minix_layout.specs.View.{super_view};
ghost use Rattle.minix_zones.specs.View.{span_view};
ghost use Rattle.minix_zones.specs.Volume.{volume_view, sizes_of, faults_of, SameVolume};
ghost use Rattle.sector_address.specs.Machine.{machine_of, OnDisks};
ghost use Rattle.present_map.specs.Old.{IsOldMap, HasOldMapCause};
ghost use Rattle.present_map.specs.Zones.{Meets};

use crate::map::meet_map;
use crate::met_zones::MetZones;
use crate::place::{DiskFailed, read_place};
use boot_map::{BootSector, MapFault};
use disk_trait::{DiskFault, Disks, Span};
use minix_layout::Super;
use minix_zones::Volume;
use sector_parts::Sector;
use slot_lists::DiskSector;
use std::alloc::Global;
use std::marker::Model;

/// Why the present map isn't read.
#[derive(Clone, Copy, Debug, PartialEq, Eq)]
pub enum OldMapFault {
    /// A disk failed.
    Device,
    /// There is no memory for the bits of the zones.
    Memory,
}

impl From<DiskFault> for OldMapFault {
    ghost use Rattle.std.specs.Prelude.{◌≡◌};
    ghost use Rattle.present_map.specs.declared.old_map.OldMapFault.{OldMapFault};

    ghost from_gives = { λ _ fault. fault ≡ OldMapFault.Device };

    fn from(_: DiskFault) -> OldMapFault {
        OldMapFault::Device
    }
}

/// What a boot of the present map may look at, as far as it lies on a volume. To a contract it is whether the boot
/// sector is another system's, and the volume with the list of its zones that have a sector that a boot may look at.
#[derive(Drop)]
pub struct OldMap {
    foreign: bool,
    met: MetZones,
}

impl Model for OldMap {
    ghost use Rattle.present_map.specs.Old.{Old};

    ghost Value = { Old };

    ghost view = { λ old. record { foreign = old.foreign; met = old.met } };
}

impl OldMap {
    ghost use Rattle.std.specs.Prelude.{◌≡◌};
    ghost use Rattle.minix_steps.specs.Numbers.{has_number};

    /// Whether the boot sector is of another system, or of another version of this format.
    pub fn is_foreign(&self) -> bool
        ensures { result ≡ self.now.foreign }
    {
        self.foreign
    }

    /// Whether a boot may look at a sector of a zone of the volume.
    pub fn has_zone(&self, zone: u32) -> bool
        ensures { result ≡ has_number self.now.met.zones zone }
    {
        self.met.has(zone)
    }
}

/// Reads what a boot from the first sector of a span may look at, for any keys and any memory, each list of sectors
/// up to its first refusal. The boot sector is read once, and of a map of this format the three sectors of its table,
/// if they are there, and each section sector, once for each time that it is come to. It takes a bit for each zone of
/// the volume.
///
/// # Errors
///
/// `Device`, or `Memory` before anything is read.
pub fn read_old_map<D: Disks>(
    alloc: Global,
    volume: &mut Volume<'_, D>,
    boot: Span,
) -> Result<OldMap, OldMapFault>
    requires { boot.start < sizes_of volume.old boot.disk }

    // What is read.
    ensures map { IfOk result (λ old. OnDisks D.Disks volume.old.disks.now (λ now machine.
        IsOldMap (volume_view volume.old) now machine (span_view boot) old)) }

    // When it is refused.
    ensures cause { IfErr result (HasOldMapCause (faults_of volume.old) (faults_of volume.new)) }
    ensures later { faults_of volume.old ≤ faults_of volume.new }

    // Nothing else happens.
    ensures same { SameVolume volume.old volume.new }
{
    let span = volume.span();
    let layout = *volume.layout();
    volume.ask_disks(|disks| read_on(alloc, disks, span, layout, boot))
}

// Reads the same, of a volume in a span of disks. The boot sector of the caller lies on its disk.
fn read_on<D: Disks>(
    alloc: Global,
    disks: &mut D,
    span: Span,
    layout: Super,
    boot: Span,
) -> Result<OldMap, OldMapFault>
    ensures map { IfOk result (λ old. OnDisks D.Disks disks.old (λ now machine.
        IsOldMap (record { span = span_view span; layout = super_view layout }) now machine (span_view boot) old)) }
    ensures cause { boot.start < D.size_of disks.old boot.disk
        → IfErr result (HasOldMapCause (D.faults disks.old) (D.faults disks.new)) }
    ensures later { D.faults disks.old ≤ D.faults disks.new }
    ensures same { SameOf D.Disks disks.old disks.new }
{
    if disks.size(boot.disk) <= boot.start {
        return Err(OldMapFault::Device);
    }
    let Ok(mut met) = MetZones::new(alloc, span, layout) else {
        return Err(OldMapFault::Memory);
    };
    match meet_all(disks, &mut met, boot) {
        Ok(foreign) => Ok(OldMap { foreign, met }),
        Err(DiskFailed) => Err(OldMapFault::Device),
    }
}

// Meets all sectors that a boot from the first sector of a span may look at, and reports whether that sector is of
// another system.
#[tactic(auto, unfolding(lilo_model::specs::Mapped::mapped_sectors))]
fn meet_all<D: Disks>(disks: &mut D, met: &mut MetZones, boot: Span) -> Result<bool, DiskFailed>
    requires { boot.start < D.size_of disks.old boot.disk }
    ensures met { OnOk result (OnDisks D.Disks disks.old (λ now machine.
        Meets met.old met.new (mapped_sectors now machine (span_view boot)))) }
    ensures foreign { IfOk result (λ foreign. OnDisks D.Disks disks.old (λ now machine.
        foreign ≡ is_foreign (now boot.disk boot.start))) }
    ensures reads { OnlyReads D.Disks disks.old disks.new (IsErr result) }
{
    let first = DiskSector {
        disk: boot.disk,
        sector: boot.start,
    };
    met.meet(first);
    let mut sector = [0; 512];
    read_place(disks, first, &mut sector)?;
    meet_behind(disks, met, &sector)
}

// Meets the sectors that a boot sector leads to, and reports whether it is of another system.
#[tactic(auto, unfolding(lilo_model::specs::Settled::is_foreign))]
fn meet_behind<D: Disks>(
    disks: &mut D,
    met: &mut MetZones,
    sector: &Sector,
) -> Result<bool, DiskFailed>
    ensures met { OnOk result (OnDisks D.Disks disks.old (λ now machine.
        Meets met.old met.new (behind_sector now machine (boot_at sector.now)))) }
    ensures foreign { IfOk result (λ foreign. foreign ≡ is_foreign sector.now) }
    ensures reads { OnlyReads D.Disks disks.old disks.new (IsErr result) }
{
    match BootSector::read(sector) {
        Ok(boot) => {
            meet_map(disks, met, &boot)?;
            Ok(false)
        }
        Err(MapFault::NotOurs | MapFault::BadVersion(_)) => Ok(true),
        Err(MapFault::BadTable(_) | MapFault::BadLine) => Ok(false),
    }
}
