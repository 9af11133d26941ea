// Whether a file holds the present map.
ghost use Rattle.std.specs.Prelude.{◌≡◌, ℕ, ◌<◌, ◌≤◌, map, All, IfOk, IfErr, OnOk, OnSome, Some};
ghost use Rattle.std.specs.List.{list_all};
ghost use Rattle.disk_trait.specs.Past.{Told};
ghost use Rattle.lilo_model.specs.BootSector.{boot_at};
ghost use Rattle.lilo_model.specs.MinixParts.{parts_of};
ghost use Rattle.lilo_model.specs.MinixWalk.{visits};
ghost use Rattle.lilo_model.specs.Slots.{place_at};
ghost use Rattle.boot_map.specs.Ranges.{IsOneSector};
ghost use Rattle.minix_layout.specs.View.{super_view, inode_view};
ghost use Rattle.minix_tree.specs.View.{IsNode};
ghost use Rattle.minix_zones.specs.Held.{AreHeld};
ghost use Rattle.minix_zones.specs.Volume.{volume_view, past_of, sizes_of, faults_of, SameVolume, HasDeviceCause};
ghost use Rattle.minix_zones.specs.Walk.{rest_of, turns_left};
ghost use Rattle.sector_address.specs.Machine.{machine_of, OnDisks};
ghost use Rattle.sector_address.specs.View.{slot_view};
ghost use Rattle.install_laws.specs.InstallVerdict.{is_in_walk, holds_table};
ghost use Rattle.present_map.specs.Holder.{meets_zone, Seeks, zone_of_place};

use crate::met_zones::zone_in;
use crate::old_map::OldMapFault;
use crate::place::place_of;
use boot_map::BootSector;
use disk_trait::{Disks, Span};
use minix_layout::Inode;
use minix_tree::{Stat, is_file};
use minix_zones::{HeldZones, Visit, Volume, Walk, ZoneFault};
use sector_address::Slot;
use sector_parts::Sector;

/// Whether a file holds the table of the present map: it is a regular file, and each sector of the table that the boot
/// sector names lies in one of its zones, be it one of its data or one with numbers of zones. None does where the boot
/// sector is another system's, or broken. The boot sector is read once, and the zones with numbers of zones once for
/// each sector of the table.
///
/// # Errors
///
/// `Device` alone.
pub fn holds_table<D: Disks>(
    volume: &mut Volume<'_, D>,
    boot: Span,
    stat: &Stat,
) -> Result<bool, OldMapFault>
    requires on_disk { boot.start < sizes_of volume.old boot.disk }
    requires node { IsNode volume.old stat.now }
    ensures holds { OnDisks D.Disks volume.old.disks.now (λ now machine. IfOk result (λ holds. holds
        ≡ holds_table now machine (volume_view volume.old)
        (visits (super_view volume.old.layout) (parts_of (volume_view volume.old) now))
        (boot_at (now boot.disk boot.start)) (Some stat.now.inode))) }
    ensures device { HasDeviceCause volume.old volume.new OldMapFault.Device result }
    ensures later { faults_of volume.old ≤ faults_of volume.new }
    ensures same { SameVolume volume.old volume.new }
{
    let mut sector = [0; 512];
    read_first(volume, boot, &mut sector)?;
    holds_by(volume, &sector, stat)
}

// Reads the first sector of a span.
fn read_first<D: Disks>(
    volume: &mut Volume<'_, D>,
    span: Span,
    into: &mut Sector,
) -> Result<(), OldMapFault>
    requires { span.start < sizes_of volume.old span.disk }
    ensures bytes { OnOk result (Told (past_of volume.old) (λ now. into.new ≡ now span.disk span.start)) }
    ensures device { HasDeviceCause volume.old volume.new OldMapFault.Device result }
    ensures later { faults_of volume.old ≤ faults_of volume.new }
    ensures same { SameVolume volume.old volume.new }
{
    volume.read(span.disk, span.start, into)?;
    Ok(())
}

// Whether a file holds the table that a boot sector names.
fn holds_by<D: Disks>(
    volume: &mut Volume<'_, D>,
    sector: &Sector,
    stat: &Stat,
) -> Result<bool, OldMapFault>
    requires { IsNode volume.old stat.now }
    ensures holds { OnDisks D.Disks volume.old.disks.now (λ now machine. IfOk result (λ holds. holds
        ≡ holds_table now machine (volume_view volume.old)
        (visits (super_view volume.old.layout) (parts_of (volume_view volume.old) now))
        (boot_at sector.now) (Some stat.now.inode))) }
    ensures device { HasDeviceCause volume.old volume.new OldMapFault.Device result }
    ensures later { faults_of volume.old ≤ faults_of volume.new }
    ensures same { SameVolume volume.old volume.new }
{
    let Ok(boot) = BootSector::read(sector) else {
        return Ok(false);
    };
    if !is_file(&stat.node) {
        return Ok(false);
    }
    are_in_file(volume, boot.table.as_slice(), &stat.node)
}

// Whether the sectors of some slots all lie in zones of a file.
fn are_in_file<D: Disks>(
    volume: &mut Volume<'_, D>,
    slots: &[Slot],
    node: &Inode,
) -> Result<bool, OldMapFault>
    requires { All IsOneSector slots.now }
    ensures all { OnDisks D.Disks volume.old.disks.now (λ now machine. IfOk result (λ all. all
        ≡ list_all (λ slot. is_in_walk (volume_view volume.old)
        (visits (super_view volume.old.layout) (parts_of (volume_view volume.old) now) (inode_view node.now))
        (place_at machine slot 0)) (map slot_view slots.now))) }
    ensures device { HasDeviceCause volume.old volume.new OldMapFault.Device result }
    ensures later { faults_of volume.old ≤ faults_of volume.new }
    ensures same { SameVolume volume.old volume.new }
{
    for slot in slots {
        if !is_in_file(volume, slot, node)? {
            return Ok(false);
        }
    }
    Ok(true)
}

// Whether the sector of a slot lies in a zone of a file.
fn is_in_file<D: Disks>(
    volume: &mut Volume<'_, D>,
    slot: &Slot,
    node: &Inode,
) -> Result<bool, OldMapFault>
    requires { IsOneSector slot.now }
    ensures within { OnDisks D.Disks volume.old.disks.now (λ now machine. IfOk result (λ within. within
        ≡ is_in_walk (volume_view volume.old)
        (visits (super_view volume.old.layout) (parts_of (volume_view volume.old) now) (inode_view node.now))
        (place_at machine (slot_view slot.now) 0))) }
    ensures device { HasDeviceCause volume.old volume.new OldMapFault.Device result }
    ensures later { faults_of volume.old ≤ faults_of volume.new }
    ensures same { SameVolume volume.old volume.new }
{
    match zone_of(volume, slot) {
        None => Ok(false),
        Some(zone) => has_zone(volume, node, zone),
    }
}

// The zone of a volume in which the sector of a slot lies.
fn zone_of<D: Disks>(volume: &Volume<'_, D>, slot: &Slot) -> Option<u32>
    requires { IsOneSector slot.now }
    ensures { result ≡ zone_of_place (volume_view volume.now)
        (place_at (machine_of D.Disks volume.now.disks.now) (slot_view slot.now) 0) }
{
    match place_of(volume, slot, 0) {
        None => None,
        Some(place) => zone_in(volume.span(), *volume.layout(), place),
    }
}

// Whether a walk over an inode's zones meets a zone.
fn has_zone<D: Disks>(
    volume: &mut Volume<'_, D>,
    node: &Inode,
    zone: u32,
) -> Result<bool, OldMapFault>
    ensures has { Told (past_of volume.old) (λ now. IfOk result (λ has. has ≡ meets_zone zone
        (visits (super_view volume.old.layout) (parts_of (volume_view volume.old) now) (inode_view node.now)))) }
    ensures device { HasDeviceCause volume.old volume.new OldMapFault.Device result }
    ensures later { faults_of volume.old ≤ faults_of volume.new }
    ensures same { SameVolume volume.old volume.new }
{
    let mut walk = Walk::new(node, volume.layout().kind);
    let mut held = HeldZones::of(volume);
    while let Some(visit) = next_zone(volume, &mut walk, &mut held)? {
        if visit.zone == zone {
            return Ok(true);
        }
    }
    Ok(false)
}

// The next zone of a walk, or none after the last or where a number is refused.
fn next_zone<D: Disks>(
    volume: &mut Volume<'_, D>,
    walk: &mut Walk,
    held: &mut HeldZones,
) -> Result<Option<Visit>, OldMapFault>
    requires { AreHeld volume.old held.old }
    ensures seeks { IfOk result (λ met. Told (past_of volume.old) (λ now. Seeks met
        (rest_of (super_view volume.old.layout) (parts_of (volume_view volume.old) now) walk.old)
        (rest_of (super_view volume.old.layout) (parts_of (volume_view volume.old) now) walk.new))) }
    ensures held { AreHeld volume.new held.new }
    ensures fewer { IfOk result (λ met. OnSome met (turns_left walk.new < turns_left walk.old)) }
    ensures device { HasDeviceCause volume.old volume.new OldMapFault.Device result }
    ensures later { faults_of volume.old ≤ faults_of volume.new }
    ensures same { SameVolume volume.old volume.new }
{
    match walk.next_held(volume, held) {
        Ok(visit) => Ok(visit),
        Err(ZoneFault::Device) => Err(OldMapFault::Device),
        Err(ZoneFault::Layout(_)) => Ok(None),
        Err(ZoneFault::ZoneOutside(_)) => Ok(None),
    }
}
