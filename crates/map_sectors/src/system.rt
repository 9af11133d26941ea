// The section sector of another system.
ghost use Rattle.std.specs.Prelude.{◌≡◌};

use crate::map::MapPlan;
use map_plan::SystemSectors;
use map_section::write_section;
use run_sections::{Naming, both_slots};
use sector_address::Slot;
use sector_parts::Sector;

impl MapPlan {
    ghost use Rattle.std.specs.Prelude.{◌≡◌, ◌∷◌, [], None, if◌then◌else◌};
    ghost use Rattle.lilo_model.specs.Disks as disks;
    ghost use Rattle.lilo_model.specs.Disks.{Machine};
    ghost use Rattle.lilo_model.specs.Section.{section_bytes};
    ghost use Rattle.lilo_model.specs.Plan.{compact_slots, file_slots};
    ghost use Rattle.lilo_conf.specs.View.{config_view};
    ghost use Rattle.sector_address.specs.View.{slot_view};
    ghost use Rattle.slot_lists.specs.Made.{IsWritable};
    ghost use Rattle.map_plan.specs.Devices.{sectors_view, system_file, HasDisks};
    ghost use Rattle.map_sectors.specs.Map.{HasGeometries};

    // Writes it: its slots are those of its own sector and of the table's.
    pub(crate) fn write_system(&self, sectors: &SystemSectors, into: &mut Sector)
        requires { HasDisks sectors.now }
        ensures { (machine : Machine) (zero : disks.DiskSector) → HasGeometries machine self.now.geometries
            → into.new ≡ section_bytes (file_slots (config_view self.now.config) machine zero
            (system_file (sectors_view sectors.now))) None }
    {
        let first = self.slot(sectors.first);
        match sectors.table {
            Some(table) => self.write_two(first, self.slot(table), into),
            None => write_section(&[first], None, into),
        }
    }

    // Writes two slots, or the one that they are.
    fn write_two(&self, first: Slot, next: Slot, into: &mut Sector)
        requires first { IsWritable first }
        requires next { IsWritable next }
        ensures { (machine : Machine) → HasGeometries machine self.now.geometries → into.new ≡ section_bytes
            (let slots = slot_view first ∷ (slot_view next ∷ []) in
            if self.now.config.compact then compact_slots machine slots else slots) None }
    {
        match both_slots(self.naming_on(first.disk), first, next) {
            Some(both) => write_section(&[both], None, into),
            None => write_section(&[first, next], None, into),
        }
    }
}
