// The parts of a section sector.
ghost use Rattle.std.specs.Prelude.{◌≡◌, ℕ, ◌*◌, ◌≤◌, ◌<◌, length, map, All, Ok, IfOk, IfSome};
ghost use Rattle.std.specs.Option.{option_map};
ghost use Rattle.lilo_model.specs.Bytes.{part_of};
ghost use Rattle.lilo_model.specs.Checks.{seen};
ghost use Rattle.lilo_model.specs.Section.{link_at, slot_parts, section_bytes};
ghost use Rattle.lilo_model.specs.Lays.{slots_of};
ghost use Rattle.lilo_model.specs.Slots.{slot_at};
ghost use Rattle.sector_address.specs.View.{slot_view, address_fault_view};
ghost use Rattle.sector_address.specs.Whole.{IsSlot};
ghost use Rattle.map_section.specs.Reader.{IsLink};
ghost use Rattle.map_section.specs.View.{section_fault_view, lent_view, IsWritable};

use crate::SectionFault;
use sector_address::{AddressFault, Slot};
use sector_parts::{FieldRef, Sector, part};

/// How many slots a section sector has.
pub(crate) const SLOTS: u8 = 63;

/// How many section sectors hold so many slots.
pub fn section_sectors(slots: u32) -> u32
    ensures enough { slots ≤ 63 * result }
    ensures least { (sectors : ℕ) → slots ≤ 63 * sectors → result ≤ sectors }
{
    slots.div_ceil(u32::from(SLOTS))
}

/// Fills a section sector with up to 63 slots, zeros after the last, and the link to the next section sector, if there
/// is one.
pub fn write_section(slots: &[Slot], link: Option<&Slot>, into: &mut Sector)
    requires few { length slots.now ≤ 63 }
    requires slots { All IsWritable slots.now }
    requires link { IfSome link (λ link. IsWritable link.now) }
    ensures bytes { into.new ≡ section_bytes (map slot_view slots.now) (lent_view link.entry) }
    ensures slots { slots_of (slot_parts into.new) ≡ map slot_view slots.now }
    ensures link { IfSome link.entry (λ link. link.now.count ≡ 1)
        → (number : ℕ) → link_at number into.new ≡ Ok (lent_view link.entry) }
{
    *into = [0; 512];
    for (index, slot) in slots.iter().enumerate() {
        slot.put(into, 8 * index);
    }
    match link {
        Some(link) => link.put(into, 504),
        None => {}
    }
}

/// The slot at an index below 64; the one at 63 is the link.
pub(crate) fn slot_in(sector: &Sector, index: u8) -> Result<Option<Slot>, AddressFault>
    requires { index < 64 }
    ensures whole { IfOk result (λ found. IfSome found (λ slot. IsSlot (slot_view slot))) }
    ensures read { seen (option_map slot_view) address_fault_view result
        ≡ slot_at (part_of sector.now (8 * index) 8) }
{
    let bytes = part(sector, 8 * usize::from(index), 8);
    Slot::decode(&FieldRef { bytes })
}

/// The link of a section sector, `None` for the end of the chain. `BadSlot` is for a link that is no slot
/// of one sector.
#[tactic(auto, unfolding(lilo_model::specs::Section::link_at))]
pub(crate) fn link_in(sector: &Sector, number: u16) -> Result<Option<Slot>, SectionFault>
    ensures link { IfOk result (λ found. IfSome found (λ link. IsLink (slot_view link))) }
    ensures read { seen (option_map slot_view) section_fault_view result ≡ link_at number sector.now }
{
    let refusal = Err(SectionFault::BadSlot(u32::from(number) * 64 + 63));
    match slot_in(sector, SLOTS) {
        Ok(None) => Ok(None),
        Ok(Some(link)) if link.count == 1 => Ok(Some(link)),
        Ok(Some(_)) | Err(_) => refusal,
    }
}
