// The section sectors of a plan's files, by their index: where there is no such sector, nothing is written.
ghost use Rattle.std.specs.Prelude.{◌≡◌, ◌*◌, ◌≤◌, All, IfSome, List, Ok, drop, take};
ghost use Rattle.std.specs.Option.{option_map};
ghost use Rattle.lilo_model.specs.Slots as slots;
ghost use Rattle.lilo_model.specs.Section.{section_bytes};
ghost use Rattle.lilo_model.specs.Plan.{filled_places};
ghost use Rattle.sector_address.specs.View.{mode_view, geometry_view, slot_view};
ghost use Rattle.slot_lists.specs.Made.{place_view, IsWritable};
ghost use Rattle.slot_lists.specs.Runs.{IsRun, places_in};
ghost use Rattle.run_sections.specs.Made.{slots_made};

use crate::map::MapPlan;
use file_runs::FileRuns;
use run_sections::{Naming, write_section_at};
use sector_address::Slot;
use sector_parts::Sector;
use slot_lists::{DiskSector, RunList};

impl MapPlan {
    ghost use Rattle.std.specs.Prelude.{◌≡◌, ◌≤◌, ◌-◌, ◌+◌, ◌<◌, All, IfSome, drop, map, slice_index_or};
    ghost use Rattle.std.specs.Option.{option_map};
    ghost use Rattle.lilo_model.specs.Disks.{Machine};
    ghost use Rattle.lilo_model.specs.Plan.{file_sectors, link_to, optional_sectors, slot_to};
    ghost use Rattle.lilo_conf.specs.View.{config_view};
    ghost use Rattle.sector_address.specs.View.{slot_view};
    ghost use Rattle.slot_lists.specs.Made.{place_view, IsWritable};
    ghost use Rattle.file_runs.specs.Mapped.{file_view};
    ghost use Rattle.map_plan.specs.Files.{HasFewPlaces, HasRuns};
    ghost use Rattle.map_sectors.specs.Accepted.{IsNamed};
    ghost use Rattle.map_sectors.specs.Map.{HasGeometries};
    ghost use Rattle.map_sectors.specs.Places.{HasPlaces, LieOnFour};

    // Writes one of a file that may be absent.
    pub(crate) fn write_optional(
        &self,
        file: &Option<FileRuns>,
        index: u32,
        zero: DiskSector,
        places: &[DiskSector],
        into: &mut Sector,
    )
        requires few { IfSome file.now HasFewPlaces }
        requires runs { IfSome file.now HasRuns }
        requires zero { zero.disk ≤ 3 }
        ensures { (machine : Machine) → HasPlaces machine self.now (place_view zero) (map place_view places.now)
            → IfSome (option_map file_view file.now) (IsNamed machine self.now)
            → into.new ≡ slice_index_or (optional_sectors (config_view self.now.config) machine (place_view zero)
            (option_map file_view file.now) (map place_view places.now)) index into.old }
    {
        match file {
            Some(file) => self.write_file(file, index, zero, places, into),
            None => {}
        }
    }

    // Writes one of a file: its slots, and the link to the next one.
    pub(crate) fn write_file(
        &self,
        file: &FileRuns,
        index: u32,
        zero: DiskSector,
        places: &[DiskSector],
        into: &mut Sector,
    )
        requires few { HasFewPlaces file.now }
        requires runs { HasRuns file.now }
        requires zero { zero.disk ≤ 3 }
        ensures { (machine : Machine) → HasPlaces machine self.now (place_view zero) (map place_view places.now)
            → IsNamed machine self.now (file_view file.now)
            → into.new ≡ slice_index_or (file_sectors (config_view self.now.config) machine (place_view zero)
            (file_view file.now) (map place_view places.now)) index into.old }
    {
        let chain = u32::from(self.file_chain(file));
        if index >= chain {
            return;
        }
        let link = self.link_in(chain, index, places);
        write_linked(self.naming(), &file.runs, zero, index, link, into);
    }

    // The link of one of so many section sectors, the first of which lies at the first of the places.
    fn link_in(&self, chain: u32, index: u32, places: &[DiskSector]) -> Option<Slot>
        requires index { index < chain }
        ensures link { (machine : Machine) → HasGeometries machine self.now.geometries
            → LieOnFour (map place_view places.now)
            → option_map slot_view result ≡ link_to (slot_to (config_view self.now.config).mode machine)
            (chain - 1 - index) (drop (index + 1) (map place_view places.now)) }
        ensures writable { IfSome result IsWritable }
    {
        if index + 1 < chain {
            Some(self.slot_at(places, index as usize + 1))
        } else {
            None
        }
    }
}

// Writes the section sector with an index of the section that lists the sectors of runs, with a link.
fn write_linked(
    naming: Naming,
    runs: &RunList,
    zero: DiskSector,
    index: u32,
    link: Option<Slot>,
    into: &mut Sector,
)
    requires runs { All IsRun runs.now }
    requires zero { zero.disk ≤ 3 }
    requires link { IfSome link IsWritable }
    ensures { (slots : List slots.Slot) → slots_made (mode_view naming.mode) (geometry_view naming.geometry)
        naming.compact (filled_places (place_view zero) (places_in runs.now)) ≡ Ok slots
        → into.new ≡ section_bytes (take 63 (drop (63 * index) slots)) (option_map slot_view link) }
{
    match link {
        Some(link) => write_section_at(naming, runs, zero, index, Some(&link), into),
        None => write_section_at(naming, runs, zero, index, None, into),
    }
}
