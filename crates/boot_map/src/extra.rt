ghost use Rattle.std.specs.Prelude.{◌≡◌, ◌≤◌, length, Ok, IfOk};
ghost use Rattle.lilo_model.specs.Checks.{seen};
ghost use Rattle.lilo_model.specs.Options.{text_limit, password_limit, extra_at, extra_bytes};
ghost use Rattle.boot_map.specs.View.{extra_view, map_fault_view};

use crate::map_fault::MapFault;
use crate::text::copy_of;
use arrayvec::ArrayVec;
use sector_parts::{Sector, part, put_name, put_u16, u16_at};

/// The extra sector of an entry.
#[derive(Clone, Debug, PartialEq, Eq, Drop)]
pub struct Extra {
    /// The line that is the default one after the entry's start, at most 255 bytes.
    pub fallback: ArrayVec<u8, 470>,
    /// The entry's password, at most 31 bytes.
    pub password: ArrayVec<u8, 31>,
}

impl Extra {
    /// Reads an extra sector. `BadTable(255)` is for a fallback whose length is above 255 bytes, or a
    /// password whose length is above 31.
    #[tactic(auto, unfolding(lilo_model::specs::Options::extra_at))]
    pub fn read(sector: &Sector) -> Result<Extra, MapFault>
        ensures read { seen extra_view map_fault_view result ≡ extra_at sector.now }
        ensures fallback { IfOk result (λ extra. length extra.fallback.items ≤ 255) }
        ensures password { IfOk result (λ extra. length extra.password.items ≤ 31) }
    {
        let fallback = u16_at(sector, 0);
        let password = u16_at(sector, 2);
        if fallback > 255 || password > 31 {
            return Err(MapFault::BadTable(255));
        }
        Ok(Extra {
            fallback: copy_of(part(sector, 4, usize::from(fallback))),
            password: copy_of(part(sector, 480, usize::from(password))),
        })
    }

    /// Writes the extra sector.
    #[tactic(auto, unfolding(lilo_model::specs::Options::extra_bytes))]
    pub fn write_into(&self, sector: &mut Sector)
        ensures bytes { sector.new ≡ extra_bytes (extra_view self.now) }
        ensures again { length self.now.fallback.items ≤ text_limit → length self.now.password.items ≤ password_limit
            → extra_at sector.new ≡ Ok (extra_view self.now) }
    {
        put_u16(sector, 0, self.fallback.len() as u16);
        put_u16(sector, 2, self.password.len() as u16);
        put_name(sector, 4, 476, &self.fallback);
        put_name(sector, 480, 32, &self.password);
    }
}
