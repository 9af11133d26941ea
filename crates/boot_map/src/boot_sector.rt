ghost use Rattle.std.specs.Prelude.{◌≡◌, ◌<◌, ◌≤◌, true, length, map, Ok, All, IfSome, IfOk};
ghost use Rattle.std.specs.List.{concat};
ghost use Rattle.lilo_model.specs.Bytes.{with_part};
ghost use Rattle.lilo_model.specs.Slots.{slot_bytes};
ghost use Rattle.lilo_model.specs.BootSector.{has_signature, has_options, has_names, has_slots, has_no_message};
ghost use Rattle.lilo_model.specs.BootSector.{has_whole_message, has_message, has_zeros, is_whole, timeout_of};
ghost use Rattle.lilo_model.specs.BootSector.{table_slots, boot_of, boot_at};
ghost use Rattle.lilo_model.specs.BootSector.{flag_number, timeout_number, merged_sector};
ghost use Rattle.lilo_model.specs.Restored.{restored_sector};
ghost use Rattle.map_again_laws.specs.Fits.{FitsBoot};
ghost use Rattle.lilo_model.specs.Checks.{seen};
ghost use Rattle.sector_address.specs.View.{slot_view};
ghost use Rattle.boot_map.specs.View.{boot_view, map_fault_view};
ghost use Rattle.boot_map.specs.Ranges.{IsOneSector, IsWritable, HasMapSlots};

use crate::map_fault::MapFault;
use crate::one_slot::{is_one_slot, is_zero, put_some_slot, slot_of, some_slot};
use arrayvec::ArrayVec;
use sector_address::Slot;
use sector_parts::{Sector, part, put_part, put_u16, put_u32, u16_at, u32_at};

/// The fields of a boot sector.
#[derive(Clone, Debug, PartialEq, Eq, Drop)]
pub struct BootSector {
    /// The version of the format, 1.
    pub version: u16,
    /// The time of the installation.
    pub time: u32,
    /// Whether the user is always asked.
    pub prompt: bool,
    /// How long a key is waited for, in tenths of a second.
    pub delay: u16,
    /// How long the prompt waits, in tenths of a second, or `None` for without end.
    pub timeout: Option<u16>,
    /// The number of names in the table, 1 to 19.
    pub names: u16,
    /// The entry that starts by default, below the number of names.
    pub default_entry: u16,
    /// The length of the message in bytes, or 0 for none.
    pub message_length: u16,
    /// The section sectors of the message, 0 to 3.
    pub message_chain: u16,
    /// Where the default line lies.
    pub line: Slot,
    /// Where the zero sector lies.
    pub zero: Slot,
    /// Where the message's first section sector lies, if there is a message.
    pub message: Option<Slot>,
    /// Where the three sectors of the table lie.
    pub table: ArrayVec<Slot, 6>,
}

impl BootSector {
    /// Reads a boot sector. `NotOurs` is for one without the signature, `BadVersion` for one of another
    /// version, and `BadTable(255)` for one with any other field that breaks the format.
    #[tactic(auto, unfolding(lilo_model::specs::BootSector::boot_at))]
    pub fn read(sector: &Sector) -> Result<BootSector, MapFault>
        ensures read { seen boot_view map_fault_view result ≡ boot_at sector.now }
        ensures names { IfOk result (λ boot. (1 ≤ boot.names) × (boot.names ≤ 19)) }
        ensures default_entry { IfOk result (λ boot. boot.default_entry < boot.names) }
        ensures table { IfOk result (λ boot. length boot.table.items ≡ 3) }
        ensures table_slots { IfOk result (λ boot. All IsOneSector boot.table.items) }
        ensures slots { IfOk result (λ boot. IsOneSector boot.line × IsOneSector boot.zero) }
        ensures message { IfOk result (λ boot. IfSome boot.message IsOneSector) }
    {
        if !has_signature(sector) {
            return Err(MapFault::NotOurs);
        }
        let version = u16_at(sector, 6);
        if version != 1 {
            return Err(MapFault::BadVersion(version));
        }
        if !is_whole(sector) {
            return Err(MapFault::BadTable(255));
        }
        Ok(boot_of(sector))
    }

    /// Writes the boot sector: the fields, bytes 128 to 439 of a sector with code, and bytes 440 to 509, with the
    /// partition table, of the sector that is there.
    #[tactic(auto, unfolding(lilo_model::specs::BootSector::merged_sector, lilo_model::specs::BootSector::field_bytes))]
    pub fn merge(&self, code: &Sector, present: &Sector, into: &mut Sector)
        requires slots { HasMapSlots self.now }
        ensures bytes { into.new ≡ merged_sector (boot_view self.now) code.now present.now }
        ensures again { FitsBoot (boot_view self.now) → boot_at into.new ≡ Ok (boot_view self.now) }
    {
        put_part(into, 0, b"\xEB\x7ELILO");
        put_u16(into, 6, self.version);
        put_u32(into, 8, self.time);
        put_u16(into, 0x0C, flag_number(self.prompt));
        put_u16(into, 0x0E, self.delay);
        put_u16(into, 0x10, timeout_number(self.timeout));
        put_u16(into, 0x12, self.names);
        put_u16(into, 0x14, self.message_length);
        put_u16(into, 0x16, self.message_chain);
        self.line.put(into, 0x18);
        self.zero.put(into, 0x20);
        put_some_slot(self.message, into, 0x28);
        put_table_slots(&self.table, into);
        put_part(into, 0x48, &[0; 24]);
        put_u16(into, 0x60, self.default_entry);
        put_part(into, 0x62, &[0; 30]);
        put_part(into, 128, part(code, 128, 312));
        put_part(into, 440, part(present, 440, 70));
        put_part(into, 510, b"\x55\xAA");
    }
}

/// Writes the sector that was there before the first installation: a backup, with bytes 440 to 509, where the
/// partition table is, of the sector that is there now.
#[tactic(auto, unfolding(lilo_model::specs::Restored::restored_sector))]
pub fn restore(backup: &Sector, present: &Sector, into: &mut Sector)
    ensures { into.new ≡ restored_sector backup.now present.now }
{
    *into = *backup;
    put_part(into, 440, part(present, 440, 70));
}

// Writes the slots of the three table sectors.
fn put_table_slots(slots: &[Slot], sector: &mut Sector)
    requires three { length slots.now ≡ 3 }
    requires whole { All IsWritable slots.now }
    ensures { sector.new ≡ with_part sector.old 0x30 (concat (map slot_bytes (map slot_view slots.now))) }
{
    slots[0].put(sector, 0x30);
    slots[1].put(sector, 0x38);
    slots[2].put(sector, 0x40);
}

// The number of the prompt's flag.
fn flag_number(prompt: bool) -> u16
    ensures { result ≡ flag_number prompt }
{
    u16::from(prompt)
}

// The number of a timeout, 0xFFFF for none.
fn timeout_number(timeout: Option<u16>) -> u16
    ensures { result ≡ timeout_number timeout }
{
    match timeout {
        None => 0xFFFF,
        Some(tenths) => tenths,
    }
}

// Whether the sector begins and ends as one of this format.
#[tactic(auto, unfolding(lilo_model::specs::BootSector::has_signature, lilo_model::specs::BootSector::is_bootable))]
fn has_signature(sector: &Sector) -> bool
    ensures { result ≡ has_signature sector.now }
{
    part(sector, 0, 6) == b"\xEB\x7ELILO".as_slice()
        && part(sector, 0x1FE, 2) == b"\x55\xAA".as_slice()
}

// Whether each field after the version is as the format has it.
#[tactic(auto, unfolding(lilo_model::specs::BootSector::is_whole))]
fn is_whole(sector: &Sector) -> bool
    ensures { result ≡ is_whole sector.now }
{
    has_options(sector)
        && has_names(sector)
        && has_slots(sector)
        && has_message(sector)
        && has_zeros(sector)
}

// Whether flags and delay are in their ranges.
#[tactic(auto, unfolding(lilo_model::specs::BootSector::has_options))]
fn has_options(sector: &Sector) -> bool
    ensures { result ≡ has_options sector.now }
{
    u16_at(sector, 0x0C) <= 1 && u16_at(sector, 0x0E) < 0xFFFF
}

// Whether there are 1 to 19 names, and the default entry is one of them.
#[tactic(auto, unfolding(lilo_model::specs::BootSector::has_names))]
fn has_names(sector: &Sector) -> bool
    ensures { result ≡ has_names sector.now }
{
    let names = u16_at(sector, 0x12);
    matches!(names, 1..=19) && u16_at(sector, 0x60) < names
}

// Whether the slots are there that each boot sector has.
#[tactic(auto, unfolding(lilo_model::specs::BootSector::has_slots))]
fn has_slots(sector: &Sector) -> bool
    ensures { result ≡ has_slots sector.now }
{
    is_one_slot(part(sector, 0x18, 8))
        && is_one_slot(part(sector, 0x20, 8))
        && is_one_slot(part(sector, 0x30, 8))
        && is_one_slot(part(sector, 0x38, 8))
        && is_one_slot(part(sector, 0x40, 8))
}

// Whether the message is there as a whole, or not at all.
#[tactic(auto, unfolding(lilo_model::specs::BootSector::has_message))]
fn has_message(sector: &Sector) -> bool
    ensures { result ≡ has_message sector.now }
{
    has_no_message(sector) || has_whole_message(sector)
}

#[tactic(auto, unfolding(lilo_model::specs::BootSector::has_no_message))]
fn has_no_message(sector: &Sector) -> bool
    ensures { result ≡ has_no_message sector.now }
{
    u16_at(sector, 0x14) == 0 && u16_at(sector, 0x16) == 0 && is_zero(part(sector, 0x28, 8))
}

#[tactic(auto, unfolding(lilo_model::specs::BootSector::has_whole_message))]
fn has_whole_message(sector: &Sector) -> bool
    ensures { result ≡ has_whole_message sector.now }
{
    u16_at(sector, 0x14) != 0
        && matches!(u16_at(sector, 0x16), 1..=3)
        && is_one_slot(part(sector, 0x28, 8))
}

// Whether the bytes that the format leaves zero are so.
#[tactic(auto, unfolding(lilo_model::specs::BootSector::has_zeros))]
fn has_zeros(sector: &Sector) -> bool
    ensures { result ≡ has_zeros sector.now }
{
    is_zero(part(sector, 0x48, 24)) && is_zero(part(sector, 0x62, 30))
}

// The fields of a whole boot sector.
#[tactic(auto, unfolding(lilo_model::specs::BootSector::boot_of))]
fn boot_of(sector: &Sector) -> BootSector
    requires { is_whole sector.now ≡ true }
    ensures value { boot_view result ≡ boot_of sector.now }
    ensures names { (1 ≤ result.names) × (result.names ≤ 19) }
    ensures default_entry { result.default_entry < result.names }
    ensures table { length result.table.items ≡ 3 }
    ensures table_slots { All IsOneSector result.table.items }
    ensures slots { IsOneSector result.line × IsOneSector result.zero }
    ensures message { IfSome result.message IsOneSector }
{
    BootSector {
        version: u16_at(sector, 6),
        time: u32_at(sector, 8),
        prompt: u16_at(sector, 0x0C) == 1,
        delay: u16_at(sector, 0x0E),
        timeout: timeout_of(sector),
        names: u16_at(sector, 0x12),
        default_entry: u16_at(sector, 0x60),
        message_length: u16_at(sector, 0x14),
        message_chain: u16_at(sector, 0x16),
        line: slot_of(part(sector, 0x18, 8)),
        zero: slot_of(part(sector, 0x20, 8)),
        message: some_slot(part(sector, 0x28, 8)),
        table: table_slots(sector),
    }
}

#[tactic(auto, unfolding(lilo_model::specs::BootSector::timeout_of))]
fn timeout_of(sector: &Sector) -> Option<u16>
    ensures { result ≡ timeout_of sector.now }
{
    let timeout = u16_at(sector, 0x10);
    if timeout == 0xFFFF {
        None
    } else {
        Some(timeout)
    }
}

// The slots of the three table sectors.
#[tactic(auto, unfolding(lilo_model::specs::BootSector::has_slots, lilo_model::specs::BootSector::table_slots))]
fn table_slots(sector: &Sector) -> ArrayVec<Slot, 6>
    requires { has_slots sector.now ≡ true }
    ensures value { map slot_view result.items ≡ table_slots sector.now }
    ensures count { length result.items ≡ 3 }
    ensures slots { All IsOneSector result.items }
{
    let mut slots = ArrayVec::new();
    slots.push(slot_of(part(sector, 0x30, 8)));
    slots.push(slot_of(part(sector, 0x38, 8)));
    slots.push(slot_of(part(sector, 0x40, 8)));
    slots
}
