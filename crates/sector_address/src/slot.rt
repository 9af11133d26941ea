// Slots: eight bytes that say where neighbouring sectors lie on a disk.
ghost use Rattle.std.specs.Prelude.{◌≡◌, ◌+◌, ◌^◌, ◌%◌, ◌≤◌, ◌<◌, true, length, slice_index, take, ◌++◌, IfOk, IfSome};
ghost use Rattle.std.specs.Option.{option_map};
ghost use Rattle.lilo_model.specs.Bytes.{is_zero, with_part};
ghost use Rattle.lilo_model.specs.Checks.{seen};
ghost use Rattle.lilo_model.specs.Slots.{is_slot, has_ranges, has_address, address_of, chs_of, slot_of};
ghost use Rattle.lilo_model.specs.Slots.{slot_at, slot_make, slot_bytes, sector_at, number_at, address_in};
ghost use Rattle.lilo_model.specs.Slots.{address_bytes, mode_number};
ghost use Rattle.lilo_model.specs.Slots as model;
ghost use Rattle.sector_address.specs.View.{geometry_view, chs_view, address_view};
ghost use Rattle.sector_address.specs.View.{mode_view, slot_view, address_fault_view};
ghost use Rattle.sector_address.specs.Whole.{IsAddress, IsSlot};

use crate::track::{self, LAST_CYLINDER};
use disk_trait::Geometry;
use sector_parts::{FieldMut, FieldRef, Sector, part_mut};

/// An address of INT 13h: cylinder 0 to 1023, head 0 to 255, sector 1 to 63.
#[derive(Clone, Copy, Debug, PartialEq, Eq, Default)]
pub struct Chs {
    pub cylinder: u16,
    pub head: u8,
    pub sector: u8,
}

/// Where the first sector of a slot lies, as the slot's mode has it.
#[derive(Clone, Copy, Debug, PartialEq, Eq)]
pub enum Address {
    /// By cylinder, head and sector.
    Chs(Chs),
    /// By a sector number that the BIOS is given as cylinder, head and sector.
    Linear(u32),
    /// By a sector number that the BIOS is given as it is.
    Lba32(u32),
}

impl Default for Address {
    ghost use Rattle.sector_address.specs.declared.slot.Address.TheVariants.{Lba32};

    ghost is_default = { λ address. address ≡ Lba32 0 };

    fn default() -> Self {
        Address::Lba32(0)
    }
}

/// How a slot is to say where its sectors lie.
#[derive(Clone, Copy, Debug, PartialEq, Eq)]
pub enum Mode {
    /// By cylinder, head and sector.
    Chs,
    /// By number, and read by cylinder, head and sector.
    Linear,
    /// By number, and read so.
    Lba32,
}

/// A run of sectors on a disk.
#[derive(Clone, Copy, Debug, PartialEq, Eq, Default)]
pub struct Slot {
    /// The disk, 0 to 3, which is the BIOS device 0x80 to 0x83.
    pub disk: u8,
    /// How many sectors, 1 to 127.
    pub count: u8,
    pub address: Address,
}

/// Why a slot can't be followed.
#[derive(Clone, Copy, Debug, PartialEq, Eq)]
pub enum AddressFault {
    /// This cylinder is above those that INT 13h can name.
    Cylinder(u64),
    /// This sector number is above those that the slot's mode can name.
    TooFar(u64),
    /// The eight bytes are no slot.
    BadSlot,
    /// The BIOS has no such sector.
    NotFound,
}

impl Slot {
    /// Names `count` sectors of a disk from a sector number on. `Cylinder` reports a last sector on a
    /// cylinder above 1023, where the mode speaks of cylinders, and `TooFar` one whose number takes more
    /// than 32 bits.
    #[tactic(auto, unfolding(lilo_model::specs::Slots::slot_make))]
    pub fn make(
        mode: Mode,
        geometry: Geometry,
        disk: u8,
        sector: u64,
        count: u8,
    ) -> Result<Slot, AddressFault>
        requires disk { disk ≤ 3 }
        requires some { 1 ≤ count }
        requires few { count ≤ 127 }
        requires last { sector + count ≤ 2 ^ 64 }
        requires track { mode ≡ Mode.Chs → sector % geometry.sectors + count ≤ geometry.sectors }
        ensures made { seen slot_view address_fault_view result
            ≡ slot_make (mode_view mode) (geometry_view geometry) disk sector count }
        ensures whole { IfOk result (λ slot. IsSlot (slot_view slot)) }
    {
        let last = sector + u64::from(count - 1);
        let cylinder = track::cylinder_of(geometry, last);
        if mode != Mode::Lba32 && cylinder > LAST_CYLINDER {
            return Err(AddressFault::Cylinder(cylinder));
        }
        if last > u64::from(u32::MAX) {
            return Err(AddressFault::TooFar(last));
        }
        let address = address_in(mode, geometry, sector)?;
        Ok(Slot {
            disk,
            count,
            address,
        })
    }

    /// Reads eight bytes: a slot, or `None` for the end, eight zero bytes. `BadSlot` is for all else:
    /// a mode, device or count out of its range, a byte that should be zero, or a sector 0 of INT 13h.
    #[tactic(auto, unfolding(lilo_model::specs::Slots::slot_at))]
    pub fn decode(part: &FieldRef<'_>) -> Result<Option<Slot>, AddressFault>
        requires { length part.now.bytes.now ≡ 8 }
        ensures read { seen (option_map slot_view) address_fault_view result ≡ slot_at part.now.bytes.now }
        ensures whole { IfOk result (λ found. IfSome found (λ slot. IsSlot (slot_view slot))) }
    {
        if is_zero(part.bytes) {
            Ok(None)
        } else if is_slot(part.bytes) {
            Ok(Some(slot_of(part.bytes)))
        } else {
            Err(AddressFault::BadSlot)
        }
    }

    /// Writes the eight bytes.
    #[tactic(auto, unfolding(lilo_model::specs::Slots::slot_bytes))]
    pub fn encode(&self, into: &mut FieldMut<'_>)
        requires length { length into.old.bytes.now ≡ 8 }
        requires whole { IsSlot (slot_view self.now) }
        ensures bytes { into.new.bytes.now ≡ slot_bytes (slot_view self.now) }
        ensures same_reference { into.new.bytes.ghost_name ≡ into.old.bytes.ghost_name }
    {
        into.put_u8(0, mode_number(&self.address));
        into.put_u8(1, 0x80 + self.disk);
        into.put_u8(2, self.count);
        into.put_u8(3, 0);
        put_address(into, &self.address);
    }

    /// Writes the eight bytes from offset `at` of a sector. All others stay.
    pub fn put(&self, sector: &mut Sector, at: usize)
        requires inside { at + 8 ≤ 512 }
        requires whole { IsSlot (slot_view self.now) }
        ensures { sector.new ≡ with_part sector.old at (slot_bytes (slot_view self.now)) }
    {
        let bytes = part_mut(sector, at, 8);
        self.encode(&mut FieldMut { bytes });
    }

    /// The number on the disk of the sector at `index`, which is below the count. `NotFound` is for a
    /// sector that a BIOS can't be asked for: one past the track of a `Chs` slot, a head or a sector that
    /// the disk doesn't have, or one of a `Linear` slot on a cylinder above 1023.
    #[tactic(auto, unfolding(lilo_model::specs::Slots::sector_at))]
    pub fn sector(&self, geometry: Geometry, index: u8) -> Result<u64, AddressFault>
        requires { index < self.now.count }
        ensures { seen (λ number. number) address_fault_view result
            ≡ sector_at (geometry_view geometry) (slot_view self.now) index }
    {
        match self.address {
            Address::Chs(at) => sector_on_track(geometry, at, index),
            Address::Linear(number) => sector_by_cylinder(geometry, number, index),
            Address::Lba32(number) => Ok(u64::from(number) + u64::from(index)),
        }
    }
}

// The address of a sector number that the mode reaches.
fn address_in(mode: Mode, geometry: Geometry, sector: u64) -> Result<Address, AddressFault>
    requires { sector < 2 ^ 32 }
    ensures { seen address_view address_fault_view result
        ≡ address_in (mode_view mode) (geometry_view geometry) sector }
{
    match mode {
        Mode::Chs => Ok(Address::Chs(track::to_chs(geometry, sector)?)),
        Mode::Linear => Ok(Address::Linear(sector as u32)),
        Mode::Lba32 => Ok(Address::Lba32(sector as u32)),
    }
}

// The sector some sectors on along the track.
#[tactic(auto, unfolding(lilo_model::specs::Slots::to_lba))]
fn sector_on_track(geometry: Geometry, at: Chs, index: u8) -> Result<u64, AddressFault>
    ensures { seen (λ number. number) address_fault_view result
        ≡ number_at (geometry_view geometry) (chs_view at) index }
{
    if at.sector == 0 || u16::from(at.sector) + u16::from(index) > u16::from(geometry.sectors) {
        return Err(AddressFault::NotFound);
    }
    let sector = at.sector + index;
    track::to_lba(geometry, Chs { sector, ..at })
}

// The sector some sectors on, which the BIOS is asked for by cylinder, head and sector.
fn sector_by_cylinder(geometry: Geometry, number: u32, index: u8) -> Result<u64, AddressFault>
    ensures { seen (λ number. number) address_fault_view result
        ≡ number_at (geometry_view geometry) (model.Linear number) index }
{
    let sector = u64::from(number) + u64::from(index);
    if track::cylinder_of(geometry, sector) <= LAST_CYLINDER {
        Ok(sector)
    } else {
        Err(AddressFault::NotFound)
    }
}

// The number of the address's mode.
fn mode_number(address: &Address) -> u8
    ensures { result ≡ mode_number (address_view address.now) }
{
    match address {
        Address::Chs(_) => 1,
        Address::Linear(_) => 2,
        Address::Lba32(_) => 3,
    }
}

// Writes the four bytes of the address after the four that come before it.
fn put_address(into: &mut FieldMut<'_>, address: &Address)
    requires length { length into.old.bytes.now ≡ 8 }
    requires whole { IsAddress (address_view address.now) }
    ensures bytes { into.new.bytes.now ≡ take 4 into.old.bytes.now ++ address_bytes (address_view address.now) }
    ensures same_reference { into.new.bytes.ghost_name ≡ into.old.bytes.ghost_name }
{
    match address {
        Address::Chs(at) => put_chs(into, at),
        Address::Linear(number) | Address::Lba32(number) => into.put_u32(4, *number),
    }
}

// Writes a cylinder, head and sector.
fn put_chs(into: &mut FieldMut<'_>, at: &Chs)
    requires length { length into.old.bytes.now ≡ 8 }
    requires whole { IsAddress (chs_view at.now) }
    ensures bytes { into.new.bytes.now ≡ take 4 into.old.bytes.now ++ address_bytes (chs_view at.now) }
    ensures same_reference { into.new.bytes.ghost_name ≡ into.old.bytes.ghost_name }
{
    into.put_u8(4, (at.cylinder / 256) as u8 * 64 + at.sector);
    into.put_u8(5, (at.cylinder % 256) as u8);
    into.put_u8(6, at.head);
    into.put_u8(7, 0);
}

// Whether all bytes are zero.
#[tactic(auto, unfolding(lilo_model::specs::Bytes::is_zero))]
fn is_zero(bytes: &[u8]) -> bool
    ensures { result ≡ is_zero bytes.now }
{
    bytes.iter().all(|byte| *byte == 0)
}

// The slot in eight bytes that are known to be one.
#[tactic(auto, unfolding(lilo_model::specs::Slots::slot_of))]
fn slot_of(bytes: &[u8]) -> Slot
    requires length { length bytes.now ≡ 8 }
    requires good { is_slot bytes.now ≡ true }
    ensures read { slot_view result ≡ slot_of bytes.now }
    ensures whole { IsSlot (slot_view result) }
{
    Slot {
        disk: bytes[1].saturating_sub(0x80),
        count: bytes[2],
        address: address_of(bytes),
    }
}

// Whether eight bytes are a slot.
#[tactic(auto, unfolding(lilo_model::specs::Slots::is_slot))]
fn is_slot(bytes: &[u8]) -> bool
    requires { length bytes.now ≡ 8 }
    ensures { result ≡ is_slot bytes.now }
{
    has_ranges(bytes) && has_address(bytes)
}

// Whether mode, device and count are in their ranges, and the byte after them is zero.
#[tactic(auto, unfolding(lilo_model::specs::Slots::has_ranges))]
fn has_ranges(bytes: &[u8]) -> bool
    requires { length bytes.now ≡ 8 }
    ensures { result ≡ has_ranges bytes.now }
{
    matches!(bytes[0], 1..=3)
        && matches!(bytes[1], 0x80..=0x83)
        && matches!(bytes[2], 1..=127)
        && bytes[3] == 0
}

// Whether the address is one of its mode.
#[tactic(auto, unfolding(lilo_model::specs::Slots::has_address))]
fn has_address(bytes: &[u8]) -> bool
    requires { length bytes.now ≡ 8 }
    ensures { result ≡ has_address bytes.now }
{
    bytes[0] != 1 || (bytes[4] % 64 != 0 && bytes[7] == 0)
}

#[tactic(auto, unfolding(lilo_model::specs::Slots::address_of))]
fn address_of(bytes: &[u8]) -> Address
    requires length { length bytes.now ≡ 8 }
    requires good { is_slot bytes.now ≡ true }
    ensures read { address_view result ≡ address_of bytes.now }
    ensures whole { IsAddress (address_view result) }
{
    let number = FieldRef { bytes }.u32_at(4);
    match bytes[0] {
        1 => Address::Chs(chs_of(bytes)),
        2 => Address::Linear(number),
        _ => Address::Lba32(number),
    }
}

// The first address byte has the sector in bits 0 to 5, and the cylinder's bits 8 and 9 above it.
#[tactic(auto, unfolding(lilo_model::specs::Slots::chs_of))]
fn chs_of(bytes: &[u8]) -> Chs
    requires length { length bytes.now ≡ 8 }
    requires sector { 1 ≤ slice_index bytes.now 4 % 64 }
    ensures read { chs_view result ≡ chs_of bytes.now }
    ensures whole { IsAddress (chs_view result) }
{
    Chs {
        cylinder: u16::from(bytes[4] / 64) * 256 + u16::from(bytes[5]),
        head: bytes[6],
        sector: bytes[4] % 64,
    }
}
