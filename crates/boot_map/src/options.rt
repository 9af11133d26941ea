ghost use Rattle.std.specs.Prelude.{◌≡◌, ◌≤◌, length, Ok, IfOk};
ghost use Rattle.lilo_model.specs.Checks.{seen};
ghost use Rattle.lilo_model.specs.Options.{text_limit, options_at, options_bytes};
ghost use Rattle.boot_map.specs.View.{options_view, map_fault_view};

use crate::map_fault::MapFault;
use crate::text::copy_of;
use arrayvec::ArrayVec;
use sector_parts::{Sector, part, put_name, put_part, put_u16, u16_at};

/// The options sector of an entry.
#[derive(Clone, Debug, PartialEq, Eq, Drop)]
pub struct Options {
    /// The middle of the entry's command line, at most 255 bytes.
    pub middle: ArrayVec<u8, 500>,
}

impl Options {
    /// Reads an options sector. `BadTable(255)` is for a length above 255 bytes.
    #[tactic(auto, unfolding(lilo_model::specs::Options::options_at))]
    pub fn read(sector: &Sector) -> Result<Options, MapFault>
        ensures read { seen options_view map_fault_view result ≡ options_at sector.now }
        ensures limit { IfOk result (λ options. length options.middle.items ≤ 255) }
    {
        let length = u16_at(sector, 0);
        if length > 255 {
            return Err(MapFault::BadTable(255));
        }
        let middle = copy_of(part(sector, 8, usize::from(length)));
        Ok(Options { middle })
    }

    /// Writes the options sector.
    #[tactic(auto, unfolding(lilo_model::specs::Options::options_bytes))]
    pub fn write_into(&self, sector: &mut Sector)
        ensures bytes { sector.new ≡ options_bytes (options_view self.now) }
        ensures again { length self.now.middle.items ≤ text_limit
            → options_at sector.new ≡ Ok (options_view self.now) }
    {
        put_u16(sector, 0, self.middle.len() as u16);
        put_part(sector, 2, &[0; 6]);
        put_name(sector, 8, 504, &self.middle);
    }
}
