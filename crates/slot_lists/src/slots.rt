// Slots of the sectors of a list.
ghost use Rattle.std.specs.Prelude.{◌≡◌, ◌≤◌, map, All, Ok, IfOk, IfErr};
ghost use Rattle.lilo_model.specs.Slots.{could_be_one, follows};
ghost use Rattle.lilo_model.specs.Plan.{compact_slots};
ghost use Rattle.lilo_model.specs.Checks.{seen};
ghost use Rattle.sector_address.specs.View.{geometry_view, mode_view, slot_view, address_view, address_fault_view};
ghost use Rattle.slot_lists.specs.Made.{place_view, IsWritable, IsFaultOf, made_slots, compact_made, places_check};
ghost use Rattle.slot_lists.specs.Made.{one_geometry};

use disk_trait::Geometry;
use sector_address::{Address, AddressFault, Mode, Slot};
use std::alloc::{AllocError, AllocFailed, Global};

/// A sector of a disk.
#[derive(Clone, Copy, Debug, PartialEq, Eq)]
pub struct DiskSector {
    /// The disk, 0 to 3.
    pub disk: u8,
    /// Its number on the disk.
    pub sector: u64,
}

/// Why sectors get no slots.
#[derive(Clone, Copy, Debug, PartialEq, Eq)]
pub enum CompactFault {
    /// No slot can name a sector.
    Address(AddressFault),
    /// Out of memory.
    Memory,
}

impl From<AddressFault> for CompactFault {
    ghost use Rattle.std.specs.Prelude.{◌≡◌};
    ghost use Rattle.slot_lists.specs.declared.slots.CompactFault.{CompactFault};

    ghost from_gives = { λ given fault. fault ≡ CompactFault.Address given };

    fn from(fault: AddressFault) -> CompactFault {
        CompactFault::Address(fault)
    }
}

impl From<AllocError> for CompactFault {
    ghost use Rattle.std.specs.Prelude.{◌≡◌};
    ghost use Rattle.slot_lists.specs.declared.slots.CompactFault.{CompactFault};

    ghost from_gives = { λ _ fault. fault ≡ CompactFault.Memory };

    fn from(_: AllocError) -> CompactFault {
        CompactFault::Memory
    }
}

impl<T: Drop> From<AllocFailed<T>> for CompactFault {
    ghost use Rattle.std.specs.Prelude.{◌≡◌};
    ghost use Rattle.slot_lists.specs.declared.slots.CompactFault.{CompactFault};

    ghost from_gives = { λ _ fault. fault ≡ CompactFault.Memory };

    fn from(_: AllocFailed<T>) -> CompactFault {
        CompactFault::Memory
    }
}

/// A slot for each sector, in order. The first sector that no slot can name is reported.
pub fn plain_slots(
    alloc: Global,
    places: &[DiskSector],
    mode: Mode,
    geometry: Geometry,
) -> Result<Vec<Slot>, CompactFault>
    requires { All (λ place. place.disk ≤ 3) places.now }
    ensures made { IfOk result (λ slots.
        made_slots (mode_view mode) (geometry_view geometry) (map place_view places.now)
        ≡ Ok (map slot_view slots.items)) }
    ensures writable { IfOk result (λ slots. All IsWritable slots.items) }
    ensures refused { IfErr result
        (IsFaultOf (made_slots (mode_view mode) (geometry_view geometry) (map place_view places.now))) }
{
    let mut slots = Vec::new(alloc);
    for place in places {
        let slot = Slot::make(mode, geometry, place.disk, place.sector, 1)?;
        slots.push(slot)?;
    }
    Ok(slots)
}

/// Whether each sector has a slot of its own: the first that no slot can name is reported. It takes no memory.
pub fn check_places(
    places: &[DiskSector],
    mode: Mode,
    geometry: Geometry,
) -> Result<(), AddressFault>
    requires { All (λ place. place.disk ≤ 3) places.now }
    ensures { seen (λ done. tt) address_fault_view result
        ≡ places_check (mode_view mode) (geometry_view geometry) (map place_view places.now) }
{
    for place in places {
        match Slot::make(mode, geometry, place.disk, place.sector, 1) {
            Ok(_) => {}
            Err(fault) => return Err(fault),
        }
    }
    Ok(())
}

/// Slots that name the sectors in order, each as many as it can: no two neighbours could be one. The first sector that
/// no slot can name is reported.
pub fn compact(
    alloc: Global,
    places: &[DiskSector],
    mode: Mode,
    geometry: Geometry,
) -> Result<Vec<Slot>, CompactFault>
    requires { All (λ place. place.disk ≤ 3) places.now }
    ensures made { IfOk result (λ slots.
        compact_made (mode_view mode) (geometry_view geometry) (map place_view places.now)
        ≡ Ok (map slot_view slots.items)) }
    ensures writable { IfOk result (λ slots. All IsWritable slots.items) }
    ensures refused { IfErr result
        (IsFaultOf (compact_made (mode_view mode) (geometry_view geometry) (map place_view places.now))) }
{
    let slots = plain_slots(alloc, places, mode, geometry)?;
    Ok(joined(alloc, &slots, geometry)?)
}

// Slots, of which neighbours that could be one are one.
fn joined(alloc: Global, slots: &[Slot], geometry: Geometry) -> Result<Vec<Slot>, AllocError>
    requires { All IsWritable slots.now }
    ensures joined { IfOk result (λ joined. map slot_view joined.items
        ≡ compact_slots (one_geometry (geometry_view geometry)) (map slot_view slots.now)) }
    ensures writable { IfOk result (λ joined. All IsWritable joined.items) }
{
    let mut all = Vec::new(alloc);
    if slots.is_empty() {
        return Ok(all);
    }
    let mut held = slots[0];
    for next in &slots[1..] {
        if could_be_one(geometry, &held, next) {
            held.count += next.count;
        } else {
            all.push(held)?;
            held = *next;
        }
    }
    all.push(held)?;
    Ok(all)
}

/// Whether one slot could name the sectors of two neighbours.
#[tactic(auto, unfolding(lilo_model::specs::Slots::could_be_one))]
pub fn could_be_one(geometry: Geometry, slot: &Slot, other: &Slot) -> bool
    ensures { result ≡ could_be_one (geometry_view geometry) (slot_view slot.now) (slot_view other.now) }
{
    slot.disk == other.disk
        && u16::from(slot.count) + u16::from(other.count) <= 127
        && follows(
            geometry,
            slot.address,
            slot.count,
            other.address,
            other.count,
        )
}

// Whether an address follows so many sectors at another of its mode and, by cylinder, head and sector, more sectors
// from it on stay on the track.
fn follows(geometry: Geometry, address: Address, count: u8, other: Address, more: u8) -> bool
    ensures { result
        ≡ follows (geometry_view geometry) (address_view address) count (address_view other) more }
{
    match (address, other) {
        (Address::Chs(at), Address::Chs(next)) => {
            at.cylinder == next.cylinder
                && at.head == next.head
                && u16::from(at.sector) + u16::from(count) == u16::from(next.sector)
                && u16::from(next.sector) + u16::from(more) <= u16::from(geometry.sectors) + 1
        }
        (Address::Linear(number), Address::Linear(next))
        | (Address::Lba32(number), Address::Lba32(next)) => {
            u64::from(number) + u64::from(count) == u64::from(next)
        }
        _ => false,
    }
}
