// Slots of one sector, and fields that are all zero.
ghost use Rattle.std.specs.Prelude.{◌≡◌, ◌+◌, ◌≤◌, ◌||◌, if◌then◌else◌, true, length, Some, None, IfSome};
ghost use Rattle.std.specs.Option.{option_map};
ghost use Rattle.lilo_model.specs.Bytes.{is_zero, with_part};
ghost use Rattle.lilo_model.specs.Slots.{is_slot, is_one_slot, slot_of, some_slot, optional_bytes};
ghost use Rattle.sector_address.specs.View.{slot_view};
ghost use Rattle.sector_address.specs.Whole.{IsSlot};
ghost use Rattle.boot_map.specs.Ranges.{IsOneSector};

use sector_address::Slot;
use sector_parts::{FieldRef, Sector, put_part};

// Whether all bytes are zero.
#[tactic(auto, unfolding(lilo_model::specs::Bytes::is_zero))]
pub(crate) fn is_zero(bytes: &[u8]) -> bool
    ensures { result ≡ is_zero bytes.now }
{
    bytes.iter().all(|byte| *byte == 0)
}

// The slot in eight bytes, if they are one.
fn slot_in(bytes: &[u8]) -> Option<Slot>
    requires { length bytes.now ≡ 8 }
    ensures { option_map slot_view result ≡ (if is_slot bytes.now then Some (slot_of bytes.now) else None) }
{
    match Slot::decode(&FieldRef { bytes }) {
        Ok(slot) => slot,
        Err(_) => None,
    }
}

// Whether eight bytes are a slot of one sector.
pub(crate) fn is_one_slot(bytes: &[u8]) -> bool
    requires { length bytes.now ≡ 8 }
    ensures { result ≡ is_one_slot bytes.now }
{
    match slot_in(bytes) {
        Some(slot) => slot.count == 1,
        None => false,
    }
}

// The slot in eight bytes that are known to be one of one sector.
pub(crate) fn slot_of(bytes: &[u8]) -> Slot
    requires eight { length bytes.now ≡ 8 }
    requires one { is_one_slot bytes.now ≡ true }
    ensures value { slot_view result ≡ slot_of bytes.now }
    ensures one_sector { IsOneSector result }
{
    match slot_in(bytes) {
        Some(slot) => slot,
        None => unreachable!(),
    }
}

// The slot in eight bytes that are known to be zeros, or one of one sector.
#[tactic(auto, unfolding(lilo_model::specs::Slots::some_slot))]
pub(crate) fn some_slot(bytes: &[u8]) -> Option<Slot>
    requires eight { length bytes.now ≡ 8 }
    requires one { (is_zero bytes.now || is_one_slot bytes.now) ≡ true }
    ensures value { option_map slot_view result ≡ some_slot bytes.now }
    ensures one_sector { IfSome result IsOneSector }
{
    if is_zero(bytes) {
        None
    } else {
        Some(slot_of(bytes))
    }
}

// Writes the eight bytes of a slot, zeros for none, from an offset on.
pub(crate) fn put_some_slot(slot: Option<Slot>, sector: &mut Sector, at: usize)
    requires inside { at + 8 ≤ 512 }
    requires whole { IfSome slot (λ slot. IsSlot (slot_view slot)) }
    ensures { sector.new ≡ with_part sector.old at (optional_bytes (option_map slot_view slot)) }
{
    match slot {
        None => put_part(sector, at, &[0; 8]),
        Some(slot) => slot.put(sector, at),
    }
}
