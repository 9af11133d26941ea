// The table of a planned map.
ghost use Rattle.std.specs.Prelude.{◌≡◌, ◌≤◌, ◌<◌, ◌++◌, ◌∷◌, [], All, length, slice_index_or};
ghost use Rattle.lilo_model.specs.Plan.{sectors_of_table};
ghost use Rattle.boot_map.specs.Ranges.{HasEntrySlots};
ghost use Rattle.boot_map.specs.View.{table_view};

use crate::map::MapPlan;
use arrayvec::ArrayVec;
use boot_map::{Descriptor, Table};
use map_plan::PlannedSection;
use sector_parts::Sector;
use slot_lists::DiskSector;

impl MapPlan {
    ghost use Rattle.std.specs.Prelude.{◌≡◌, ◌≤◌, ◌+◌, ◌*◌, ◌++◌, All, length, map, slice_index_or};
    ghost use Rattle.std.specs.List.{AllByRecursion};
    ghost use Rattle.lilo_model.specs.Disks.{Machine};
    ghost use Rattle.lilo_model.specs.ConfLawful.{names_of_section};
    ghost use Rattle.lilo_model.specs.Plan.{descriptor_for, plan_entries, sections_entries, sectors_of_table};
    ghost use Rattle.lilo_conf.specs.View.{config_view, section_view};
    ghost use Rattle.boot_map.specs.Ranges.{HasEntrySlots};
    ghost use Rattle.boot_map.specs.View.{descriptor_view};
    ghost use Rattle.slot_lists.specs.Made.{place_view};
    ghost use Rattle.map_plan.specs.Sections.{planned_view, planned_views};
    ghost use Rattle.map_sectors.specs.Accepted.{IsAccepted, IsFor};
    ghost use Rattle.map_sectors.specs.Kept.{IsKept};
    ghost use Rattle.map_sectors.specs.Map.{plan_view, HasGeometries};
    ghost use Rattle.map_sectors.specs.Places.{LieOnFour};

    // Writes one of the three sectors of the table; another index leaves the sector as it is.
    pub(crate) fn write_table(&self, index: u32, places: &[DiskSector], into: &mut Sector)
        ensures { (machine : Machine) → IsFor machine self.now → LieOnFour (map place_view places.now)
            → into.new ≡ slice_index_or (sectors_of_table
            (plan_entries (plan_view self.now) machine (map place_view places.now))) index into.old }
    {
        write_sector(&self.table(places), index, into);
    }

    // The table.
    #[tactic(auto, unfolding(lilo_model::specs::Plan::plan_entries))]
    fn table(&self, places: &[DiskSector]) -> Table
        ensures entries { (machine : Machine) → IsFor machine self.now → LieOnFour (map place_view places.now)
            → map descriptor_view result.entries.items
            ≡ plan_entries (plan_view self.now) machine (map place_view places.now) }
        ensures slots { All HasEntrySlots result.entries.items }
    {
        let mut entries = ArrayVec::new();
        let sections = self.files.sections.as_slice();
        self.add_sections(sections, self.sections_places(places), &mut entries);
        Table { entries }
    }

    // Adds the entries of sections, whose sectors lie at places.
    fn add_sections(
        &self,
        sections: &[PlannedSection],
        places: &[DiskSector],
        entries: &mut ArrayVec<Descriptor, 48>,
    )
        requires kept { AllByRecursion IsKept sections.now }
        requires room { length entries.old.items + 2 * length sections.now ≤ 48 }
        requires slots { All HasEntrySlots entries.old.items }
        ensures entries { (machine : Machine) → HasGeometries machine self.now.geometries
            → AllByRecursion (IsAccepted machine self.now) sections.now
            → LieOnFour (map place_view places.now) → map descriptor_view entries.new.items
            ≡ map descriptor_view entries.old.items
            ++ sections_entries (config_view self.now.config) machine (planned_views sections.now)
            (map place_view places.now) }
        ensures slots { All HasEntrySlots entries.new.items }
    {
        if sections.is_empty() {
            return;
        }
        let planned = &sections[0];
        self.add_entries(planned, places, entries);
        self.add_sections(&sections[1..], self.places_after(planned, places), entries);
    }

    // Adds the entries of a section: that of its label, and that of its alias, if it has one.
    #[tactic(auto, unfolding(lilo_model::specs::ConfLawful::names_of_section))]
    fn add_entries(
        &self,
        planned: &PlannedSection,
        places: &[DiskSector],
        entries: &mut ArrayVec<Descriptor, 48>,
    )
        requires kept { IsKept planned.now }
        requires room { length entries.old.items + 2 ≤ 48 }
        requires slots { All HasEntrySlots entries.old.items }
        ensures entries { (machine : Machine) → HasGeometries machine self.now.geometries
            → IsAccepted machine self.now planned.now
            → LieOnFour (map place_view places.now) → map descriptor_view entries.new.items
            ≡ map descriptor_view entries.old.items
            ++ map (descriptor_for (config_view self.now.config) machine (planned_view planned.now)
            (map place_view places.now)) (names_of_section (section_view planned.now.section)) }
        ensures slots { All HasEntrySlots entries.new.items }
        ensures few { length entries.new.items ≤ length entries.old.items + 2 }
    {
        let section = &planned.section;
        add(
            entries,
            self.descriptor(planned, places, section.label.bytes()),
        );
        if let Some(alias) = &section.alias {
            add(entries, self.descriptor(planned, places, alias.bytes()));
        }
    }
}

// Adds an entry.
fn add(entries: &mut ArrayVec<Descriptor, 48>, entry: Descriptor)
    requires room { length entries.old.items < 48 }
    requires slots { All HasEntrySlots entries.old.items }
    requires slot { HasEntrySlots entry }
    ensures items { entries.new.items ≡ entries.old.items ++ (entry ∷ []) }
    ensures slots { All HasEntrySlots entries.new.items }
{
    entries.push(entry);
}

// Writes one of the three sectors of a table; another index leaves the sector as it is.
#[tactic(auto, unfolding(lilo_model::specs::Plan::sectors_of_table))]
fn write_sector(table: &Table, index: u32, into: &mut Sector)
    requires { All HasEntrySlots table.now.entries.items }
    ensures { length table.now.entries.items ≤ 24 → into.new
        ≡ slice_index_or (sectors_of_table (table_view table.now)) index into.old }
{
    if index > 2 {
        return;
    }
    if table.entries.len() > 24 {
        return;
    }
    let mut sectors = [[0; 512]; 3];
    table.write_into(&mut sectors);
    *into = sectors[index as usize];
}
