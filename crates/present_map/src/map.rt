// The sectors of a map.
ghost use Rattle.std.specs.Prelude.{◌≡◌, ◌≤◌, ◌*◌, true, false, map, flat_map, length, All, IfOk, IfSome, IsErr, OnOk};
ghost use Rattle.std.specs.Option.{option_map};
ghost use Rattle.lilo_model.specs.Disks.{bytes_at};
ghost use Rattle.lilo_model.specs.Checks.{each, seen};
ghost use Rattle.lilo_model.specs.Slots.{place_at};
ghost use Rattle.lilo_model.specs.Section.{file_listing};
ghost use Rattle.lilo_model.specs.Mapped.{found_places, slot_places, optional_places, file_places, entry_places};
ghost use Rattle.lilo_model.specs.Mapped.{table_places, behind_table, map_places};
ghost use Rattle.bios_model.specs.Reads.{OnlyReads};
ghost use Rattle.boot_map.specs.Ranges.{IsOneSector, HasSectors};
ghost use Rattle.boot_map.specs.View.{boot_view, descriptor_view, table_view, map_fault_view};
ghost use Rattle.sector_address.specs.Machine.{machine_of, OnDisks};
ghost use Rattle.sector_address.specs.View.{slot_view};
ghost use Rattle.present_map.specs.Map.{AreThere, HasMapSectors};
ghost use Rattle.present_map.specs.Zones.{Meets, MeetsListing};

use crate::follow::meet_section;
use crate::met_zones::MetZones;
use crate::place::{DiskFailed, place_of};
use bios_model::{BiosFault, read_slots};
use boot_map::{BootSector, Descriptor, MapFault, Table};
use disk_trait::Disks;
use sector_address::Slot;
use sector_parts::Sector;

/// The bytes of a sector.
const SECTOR: u32 = 512;

/// Meets the sectors of a map: the default line's, the table's, and those that it leads to.
#[tactic(auto, unfolding(lilo_model::specs::Mapped::map_places))]
pub(crate) fn meet_map<D: Disks>(
    disks: &mut D,
    met: &mut MetZones,
    boot: &BootSector,
) -> Result<(), DiskFailed>
    requires { HasMapSectors boot.now }
    ensures met { OnOk result (OnDisks D.Disks disks.old (λ now machine.
        Meets met.old met.new (map_places now machine (boot_view boot.now)))) }
    ensures reads { OnlyReads D.Disks disks.old disks.new (IsErr result) }
{
    meet_slot(disks, met, &boot.line);
    if meet_slots(disks, met, boot.table.as_slice()) {
        meet_behind(disks, met, boot)?;
    }
    Ok(())
}

// Meets what a table leads to, whose sectors are all there.
fn meet_behind<D: Disks>(
    disks: &mut D,
    met: &mut MetZones,
    boot: &BootSector,
) -> Result<(), DiskFailed>
    requires sectors { HasMapSectors boot.now }
    requires there { AreThere (machine_of D.Disks disks.old) (map slot_view boot.now.table.items) }
    ensures met { OnOk result (OnDisks D.Disks disks.old (λ now machine. Meets met.old met.new
        (behind_table now machine (boot_view boot.now)
        (each (map (λ slot. place_at machine slot 0) (map slot_view boot.now.table.items)))))) }
    ensures reads { OnlyReads D.Disks disks.old disks.new (IsErr result) }
{
    let mut sectors = [[0; 512]; 3];
    read_table(disks, boot.table.as_slice(), &mut sectors)?;
    match Table::read(boot, &sectors) {
        Ok(table) => meet_table(disks, met, boot, &table),
        Err(_) => Ok(()),
    }
}

// Reads the sectors of a table, which are all there.
fn read_table<D: Disks>(
    disks: &mut D,
    slots: &[Slot],
    into: &mut [Sector],
) -> Result<(), DiskFailed>
    requires room { length slots.now ≡ length into.old }
    requires slots { All IsOneSector slots.now }
    requires there { AreThere (machine_of D.Disks disks.old) (map slot_view slots.now) }
    ensures bytes { OnOk result (OnDisks D.Disks disks.old (λ now machine. (places : _)
        → each (map (λ slot. place_at machine slot 0) (map slot_view slots.now)) ≡ Ok places
        → into.new ≡ map (bytes_at now) places)) }
    ensures reads { OnlyReads D.Disks disks.old disks.new (IsErr result) }
{
    match read_slots(disks, slots, into) {
        Ok(()) => Ok(()),
        Err(BiosFault::Timeout) => Err(DiskFailed),
        Err(BiosFault::NotFound) => unreachable!(),
        Err(BiosFault::KeysFault) => unreachable!(),
        Err(BiosFault::OutsideRam) => unreachable!(),
    }
}

// Meets the sectors of the message and of the entries of a table.
fn meet_table<D: Disks>(
    disks: &mut D,
    met: &mut MetZones,
    boot: &BootSector,
    table: &Table,
) -> Result<(), DiskFailed>
    requires message { IfSome boot.now.message IsOneSector }
    requires entries { All HasSectors table.now.entries.items }
    ensures met { OnOk result (OnDisks D.Disks disks.old (λ now machine.
        Meets met.old met.new (table_places now machine (boot_view boot.now) (Ok (table_view table.now))))) }
    ensures reads { OnlyReads D.Disks disks.old disks.new (IsErr result) }
{
    let length = u32::from(boot.message_length);
    meet_some_file(disks, met, &boot.message, length, boot.message_chain)?;
    meet_entries(disks, met, table.entries.as_slice())
}

// Meets the sectors of entries.
fn meet_entries<D: Disks>(
    disks: &mut D,
    met: &mut MetZones,
    entries: &[Descriptor],
) -> Result<(), DiskFailed>
    requires { All HasSectors entries.now }
    ensures met { OnOk result (OnDisks D.Disks disks.old (λ now machine.
        Meets met.old met.new (flat_map (entry_places now machine) (map descriptor_view entries.now)))) }
    ensures reads { OnlyReads D.Disks disks.old disks.new (IsErr result) }
{
    for entry in entries {
        meet_entry(disks, met, entry)?;
    }
    Ok(())
}

// Meets the sectors of an entry: of its options and its extra texts, of its main file and of its initrd.
#[tactic(auto, unfolding(lilo_model::specs::Mapped::entry_places))]
fn meet_entry<D: Disks>(
    disks: &mut D,
    met: &mut MetZones,
    entry: &Descriptor,
) -> Result<(), DiskFailed>
    requires { HasSectors entry.now }
    ensures met { OnOk result (OnDisks D.Disks disks.old (λ now machine.
        Meets met.old met.new (entry_places now machine (descriptor_view entry.now)))) }
    ensures reads { OnlyReads D.Disks disks.old disks.new (IsErr result) }
{
    meet_slot(disks, met, &entry.options);
    meet_some_slot(disks, met, &entry.extra);
    meet_file(disks, met, &entry.first, entry.length, entry.chain)?;
    meet_some_file(
        disks,
        met,
        &entry.initrd,
        entry.initrd_length,
        entry.initrd_chain,
    )
}

// Meets the sectors of a file that may be absent.
fn meet_some_file<D: Disks>(
    disks: &mut D,
    met: &mut MetZones,
    first: &Option<Slot>,
    length: u32,
    chain: u16,
) -> Result<(), DiskFailed>
    requires { IfSome first.now IsOneSector }
    ensures met { OnOk result (OnDisks D.Disks disks.old (λ now machine. Meets met.old met.new
        (file_places (λ slot. file_listing now machine slot length chain) (option_map slot_view first.now)))) }
    ensures reads { OnlyReads D.Disks disks.old disks.new (IsErr result) }
{
    match first {
        Some(slot) => meet_file(disks, met, slot, length, chain),
        None => Ok(()),
    }
}

// Meets the sectors of a file of so many bytes, and those of its section.
fn meet_file<D: Disks>(
    disks: &mut D,
    met: &mut MetZones,
    first: &Slot,
    length: u32,
    chain: u16,
) -> Result<(), DiskFailed>
    requires { IsOneSector first.now }
    ensures met { OnOk result (OnDisks D.Disks disks.old (λ now machine.
        MeetsListing met.old met.new (file_listing now machine (slot_view first.now) length chain))) }
    ensures reads { OnlyReads D.Disks disks.old disks.new (IsErr result) }
{
    meet_section(disks, met, first, length.div_ceil(SECTOR), chain)
}

// Meets the sectors of slots, up to the first that isn't there: true where all of them are.
fn meet_slots<D: Disks>(disks: &D, met: &mut MetZones, slots: &[Slot]) -> bool
    requires { All IsOneSector slots.now }
    ensures met { Meets met.old met.new
        (found_places (map (λ slot. place_at (machine_of D.Disks disks.now) slot 0) (map slot_view slots.now))) }
    ensures there { result ≡ true → AreThere (machine_of D.Disks disks.now) (map slot_view slots.now) }
    ensures lost { result ≡ false
        → IsErr (each (map (λ slot. place_at (machine_of D.Disks disks.now) slot 0) (map slot_view slots.now))) }
{
    for slot in slots {
        match place_of(disks, slot, 0) {
            Some(place) => met.meet(place),
            None => return false,
        }
    }
    true
}

// Meets the sector of a slot that may be absent.
fn meet_some_slot<D: Disks>(disks: &D, met: &mut MetZones, slot: &Option<Slot>)
    requires { IfSome slot.now IsOneSector }
    ensures { Meets met.old met.new
        (optional_places (machine_of D.Disks disks.now) (option_map slot_view slot.now)) }
{
    if let Some(slot) = slot {
        meet_slot(disks, met, slot);
    }
}

// Meets the sector of a slot.
fn meet_slot<D: Disks>(disks: &D, met: &mut MetZones, slot: &Slot)
    requires { IsOneSector slot.now }
    ensures { Meets met.old met.new (slot_places (machine_of D.Disks disks.now) (slot_view slot.now)) }
{
    if let Some(place) = place_of(disks, slot, 0) {
        met.meet(place);
    }
}
