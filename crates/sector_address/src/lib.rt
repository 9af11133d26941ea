//! Where sectors lie on a disk, as a BIOS is asked for them: by cylinder, head and sector, or by number.
//!
//! A slot names up to 127 neighbouring sectors in eight bytes. Cylinders, heads and sectors are those of
//! INT 13h; the eight bytes are this project's own. No call here takes memory.
#![tactic(auto)]

mod laws;
mod slot;
mod track;

pub use laws::{
    cylinder_of_its_number, encoded_slot_decodes, made_slot_is_whole, made_slot_names_its_sectors,
    number_of_its_cylinder, one_spelling,
};
pub use slot::{Address, AddressFault, Chs, Mode, Slot};
pub use track::{to_chs, to_lba};
