// The places of a map's own sectors: each part takes its own from the head of a list.
ghost use Rattle.std.specs.Prelude.{◌≡◌, drop, map};
ghost use Rattle.lilo_model.specs.Plan as model;
ghost use Rattle.lilo_model.specs.Plan.{place_of_sector};
ghost use Rattle.lilo_conf.specs.View.{section_view};
ghost use Rattle.slot_lists.specs.Made.{place_view};

use crate::chains::extra_count;
use crate::map::MapPlan;
use lilo_conf::Section;
use map_plan::PlannedSection;
use sector_address::{Address, Slot};
use slot_lists::DiskSector;

impl MapPlan {
    ghost use Rattle.std.specs.Prelude.{◌≡◌, ◌≤◌, drop, map};
    ghost use Rattle.std.specs.Option.{option_map};
    ghost use Rattle.lilo_model.specs.Disks.{Machine};
    ghost use Rattle.lilo_model.specs.Plan as model;
    ghost use Rattle.lilo_model.specs.Plan.{place_of_sector, slot_to};
    ghost use Rattle.sector_address.specs.View.{slot_view};
    ghost use Rattle.lilo_conf.specs.View.{config_view};
    ghost use Rattle.slot_lists.specs.Made.{place_view, IsWritable};
    ghost use Rattle.map_plan.specs.Sections.{planned_view};
    ghost use Rattle.map_sectors.specs.Accepted.{IsAccepted, IsFor};
    ghost use Rattle.map_sectors.specs.Kept.{IsKept};
    ghost use Rattle.map_sectors.specs.Map.{plan_view, HasGeometries};
    ghost use Rattle.map_sectors.specs.Places.{LieOnFour};

    // The slot of a place among some.
    pub(crate) fn slot_at(&self, places: &[DiskSector], index: usize) -> Slot
        ensures value { (machine : Machine) → HasGeometries machine self.now.geometries
            → LieOnFour (map place_view places.now)
            → slot_view result ≡ slot_to (config_view self.now.config).mode machine
            (place_of_sector (map place_view places.now) index) }
        ensures whole { IsWritable result }
    {
        self.slot(place_at(places, index))
    }

    // The slot of a place, or that of no sector where it has none.
    #[tactic(auto, unfolding(lilo_model::specs::Plan::slot_to))]
    pub(crate) fn slot(&self, place: DiskSector) -> Slot
        ensures value { (machine : Machine) → HasGeometries machine self.now.geometries → place.disk ≤ 3
            → slot_view result ≡ slot_to (config_view self.now.config).mode machine (place_view place) }
        ensures whole { IsWritable result }
    {
        if place.disk > 3 {
            return NO_SLOT;
        }
        match Slot::make(
            self.config.mode,
            self.geometry(place.disk),
            place.disk,
            place.sector,
            1,
        ) {
            Ok(slot) => slot,
            Err(_) => NO_SLOT,
        }
    }

    // The places of the initial ramdisk's section sectors, and of all after them.
    pub(crate) fn initrd_places<'a>(
        &self,
        planned: &PlannedSection,
        places: &'a [DiskSector],
    ) -> &'a [DiskSector]
        requires { IsKept planned.now }
        ensures { (machine : Machine) → HasGeometries machine self.now.geometries
            → IsAccepted machine self.now planned.now
            → map place_view result.now ≡ model.initrd_places (config_view self.now.config) machine
            (planned_view planned.now) (map place_view places.now) }
    {
        let main = main_places(&planned.section, places);
        after(main, usize::from(self.main_chain(&planned.files)))
    }

    // The places after those of a section.
    pub(crate) fn places_after<'a>(
        &self,
        planned: &PlannedSection,
        places: &'a [DiskSector],
    ) -> &'a [DiskSector]
        requires { IsKept planned.now }
        ensures { (machine : Machine) → HasGeometries machine self.now.geometries
            → IsAccepted machine self.now planned.now
            → map place_view result.now ≡ model.places_after (config_view self.now.config) machine
            (planned_view planned.now) (map place_view places.now) }
    {
        let initrd = self.initrd_places(planned, places);
        after(initrd, usize::from(self.initrd_chain(&planned.files)))
    }

    // The places of the sections.
    pub(crate) fn sections_places<'a>(&self, places: &'a [DiskSector]) -> &'a [DiskSector]
        ensures { (machine : Machine) → IsFor machine self.now
            → map place_view result.now ≡ model.sections_places (plan_view self.now) machine
            (map place_view places.now) }
    {
        let message = after(places, 5);
        after(
            message,
            usize::from(self.optional_chain(&self.files.message)),
        )
    }
}

// The slot that names no sector.
const NO_SLOT: Slot = Slot {
    disk: 0,
    count: 1,
    address: Address::Lba32(0),
};

// The places of the main file's section sectors, and of all after them.
pub(crate) fn main_places<'a>(section: &Section, places: &'a [DiskSector]) -> &'a [DiskSector]
    ensures { map place_view result.now ≡ model.main_places (section_view section.now) (map place_view places.now) }
{
    after(after(places, 1), extra_count(section) as usize)
}

// The places after so many.
pub(crate) fn after(places: &[DiskSector], count: usize) -> &[DiskSector]
    ensures { map place_view result.now ≡ drop count (map place_view places.now) }
{
    if count > places.len() {
        &[]
    } else {
        &places[count..]
    }
}

// One of some places, or the first sector of the first disk past their end.
pub(crate) fn place_at(places: &[DiskSector], index: usize) -> DiskSector
    ensures { place_view result ≡ place_of_sector (map place_view places.now) index }
{
    if index < places.len() {
        places[index]
    } else {
        DiskSector { disk: 0, sector: 0 }
    }
}
