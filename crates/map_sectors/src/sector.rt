// The sectors of a map, by their index.
ghost use Rattle.std.specs.Prelude.{◌≡◌, replicate};

use crate::map::MapPlan;
use crate::places::{after, place_at};
use boot_map::DefaultLine;
use sector_parts::Sector;
use slot_lists::DiskSector;

impl MapPlan {
    ghost use Rattle.std.specs.Prelude.{◌≡◌, ◌<◌, [], All, length, map, slice_index_or};
    ghost use Rattle.lilo_model.specs.Disks.{Machine};
    ghost use Rattle.lilo_model.specs.Plan.{plan_sectors, sectors_after};
    ghost use Rattle.slot_lists.specs.Made.{place_view};
    ghost use Rattle.map_sectors.specs.Accepted.{IsFor};
    ghost use Rattle.map_sectors.specs.Map.{plan_view};
    ghost use Rattle.map_sectors.specs.Places.{AreOwnPlaces};
    ghost use Rattle.map_sectors.specs.Sectors.{sectors_after_line};

    /// Makes the sector of the map with an index, counted from 0: each sector has its place, at which it is to lie, and
    /// `check_places` accepted those. It takes no memory; where neighbours are joined its time grows with the files.
    pub fn sector(&self, index: u32, places: &[DiskSector], into: &mut Sector)
        requires disk { All (λ place. place.disk ≡ self.now.disk) places.now }
        requires index { index < length places.now }
        ensures { (machine : Machine) → IsFor machine self.now → AreOwnPlaces machine self.now places.now
            → into.new ≡ slice_index_or (plan_sectors (plan_view self.now) machine
            (map place_view places.now)) index [] }
    {
        if index == 0 {
            DefaultLine::Empty.write_into(into);
        } else {
            self.write_after_line(index - 1, places, into);
        }
    }

    // Writes one of those after the sector of the default line: of the table, the zero sector, and those of files.
    fn write_after_line(&self, index: u32, places: &[DiskSector], into: &mut Sector)
        requires { All (λ place. place.disk ≡ self.now.disk) places.now }
        ensures { (machine : Machine) → IsFor machine self.now → AreOwnPlaces machine self.now places.now
            → into.new ≡ slice_index_or (sectors_after_line (plan_view self.now) machine
            (map place_view places.now)) index into.old }
    {
        if index < 3 {
            self.write_table(index, places, into);
        } else if index == 3 {
            clear(into);
        } else {
            self.write_mapped(index - 4, places, into);
        }
    }

    // Writes one of those of files: the message's, then the sections'.
    fn write_mapped(&self, index: u32, places: &[DiskSector], into: &mut Sector)
        requires { All (λ place. place.disk ≡ self.now.disk) places.now }
        ensures { (machine : Machine) → IsFor machine self.now → AreOwnPlaces machine self.now places.now
            → into.new ≡ slice_index_or (sectors_after (plan_view self.now) machine
            (map place_view places.now)) index into.old }
    {
        let zero = place_at(places, 4);
        let chain = u32::from(self.optional_chain(&self.files.message));
        let others = after(places, 5);
        if index < chain {
            self.write_optional(&self.files.message, index, zero, others, into);
        } else {
            let others = after(others, chain as usize);
            let sections = self.files.sections.as_slice();
            self.write_sections(sections, index - chain, zero, others, into);
        }
    }
}

// Makes a sector of zeros.
fn clear(into: &mut Sector)
    ensures { into.new ≡ replicate 512 0 }
{
    *into = [0; 512];
}
