// The sectors of sections, by their index: where there is no such sector, nothing is written.
use crate::chains::extra_count;
use crate::map::MapPlan;
use crate::places::after;
use crate::texts::{write_extra, write_options};
use map_plan::{PlannedSection, SectionFiles};
use sector_parts::Sector;
use slot_lists::DiskSector;

impl MapPlan {
    ghost use Rattle.std.specs.Prelude.{◌≡◌, ◌≤◌, ◌++◌, All, length, map, slice_index_or};
    ghost use Rattle.std.specs.List.{AllByRecursion};
    ghost use Rattle.lilo_model.specs.Disks.{Machine};
    ghost use Rattle.lilo_model.specs.Plan.{file_sectors, optional_sectors, section_sectors_at, sections_sectors};
    ghost use Rattle.lilo_conf.specs.View.{config_view, section_view};
    ghost use Rattle.slot_lists.specs.Made.{place_view};
    ghost use Rattle.map_plan.specs.Sections.{initrd_view, main_view, planned_view, planned_views};
    ghost use Rattle.map_sectors.specs.Accepted.{AreNamed, IsAccepted};
    ghost use Rattle.map_sectors.specs.Kept.{AreKept, IsKept};
    ghost use Rattle.map_sectors.specs.Map.{HasGeometries};
    ghost use Rattle.map_sectors.specs.Places.{HasPlaces};
    ghost use Rattle.map_sectors.specs.Sectors.{sectors_after_options, sectors_of_files};

    // Writes one of some sections, which lie one after the other.
    pub(crate) fn write_sections(
        &self,
        sections: &[PlannedSection],
        index: u32,
        zero: DiskSector,
        places: &[DiskSector],
        into: &mut Sector,
    )
        requires kept { AllByRecursion IsKept sections.now }
        requires zero { zero.disk ≤ 3 }
        ensures { (machine : Machine) → HasPlaces machine self.now (place_view zero) (map place_view places.now)
            → AllByRecursion (IsAccepted machine self.now) sections.now
            → into.new ≡ slice_index_or (sections_sectors (config_view self.now.config) machine (place_view zero)
            (planned_views sections.now) (map place_view places.now)) index into.old }
    {
        if sections.is_empty() {
            return;
        }
        let planned = &sections[0];
        let size = self.section_size(planned);
        if index < size {
            self.write_section(planned, index, zero, places, into);
        } else {
            let places = after(places, size as usize);
            self.write_sections(&sections[1..], index - size, zero, places, into);
        }
    }

    // Writes one of a section: the options sector, and those after it.
    fn write_section(
        &self,
        planned: &PlannedSection,
        index: u32,
        zero: DiskSector,
        places: &[DiskSector],
        into: &mut Sector,
    )
        requires kept { IsKept planned.now }
        requires zero { zero.disk ≤ 3 }
        ensures { (machine : Machine) → HasPlaces machine self.now (place_view zero) (map place_view places.now)
            → IsAccepted machine self.now planned.now
            → into.new ≡ slice_index_or (section_sectors_at (config_view self.now.config) machine (place_view zero)
            (planned_view planned.now) (map place_view places.now)) index into.old }
    {
        if index == 0 {
            write_options(planned.middle.bytes(), into);
        } else {
            self.write_after_options(planned, index - 1, zero, after(places, 1), into);
        }
    }

    // Writes one of those after the options sector: the extra sector, where there is one, and those of the files.
    fn write_after_options(
        &self,
        planned: &PlannedSection,
        index: u32,
        zero: DiskSector,
        places: &[DiskSector],
        into: &mut Sector,
    )
        requires kept { IsKept planned.now }
        requires zero { zero.disk ≤ 3 }
        ensures { (machine : Machine) → HasPlaces machine self.now (place_view zero) (map place_view places.now)
            → IsAccepted machine self.now planned.now
            → into.new ≡ slice_index_or (sectors_after_options (config_view self.now.config) machine (place_view zero)
            (planned_view planned.now) (map place_view places.now)) index into.old }
    {
        let extras = extra_count(&planned.section);
        if index < extras {
            write_extra(&planned.section, into);
        } else {
            let places = after(places, extras as usize);
            self.write_files(&planned.files, index - extras, zero, places, into);
        }
    }

    // Writes one of those of its files: the main one's, then the initial ramdisk's.
    fn write_files(
        &self,
        files: &SectionFiles,
        index: u32,
        zero: DiskSector,
        places: &[DiskSector],
        into: &mut Sector,
    )
        requires kept { AreKept files.now }
        requires zero { zero.disk ≤ 3 }
        ensures { (machine : Machine) → HasPlaces machine self.now (place_view zero) (map place_view places.now)
            → AreNamed machine self.now files.now
            → into.new ≡ slice_index_or (sectors_of_files (config_view self.now.config) machine (place_view zero)
            (main_view files.now) (initrd_view files.now) (map place_view places.now)) index into.old }
    {
        let chain = u32::from(self.main_chain(files));
        if index < chain {
            self.write_main(files, index, zero, places, into);
        } else {
            let places = after(places, chain as usize);
            self.write_initrd(files, index - chain, zero, places, into);
        }
    }

    // Writes one of the main file, or of another system.
    fn write_main(
        &self,
        files: &SectionFiles,
        index: u32,
        zero: DiskSector,
        places: &[DiskSector],
        into: &mut Sector,
    )
        requires kept { AreKept files.now }
        requires zero { zero.disk ≤ 3 }
        ensures { (machine : Machine) → HasPlaces machine self.now (place_view zero) (map place_view places.now)
            → AreNamed machine self.now files.now
            → into.new ≡ slice_index_or (file_sectors (config_view self.now.config) machine (place_view zero)
            (main_view files.now) (map place_view places.now)) index into.old }
    {
        match files {
            SectionFiles::Kernel(files) => self.write_file(&files.main, index, zero, places, into),
            SectionFiles::System(sectors) => {
                if index == 0 {
                    self.write_system(sectors, into);
                }
            }
        }
    }

    // Writes one of the initial ramdisk.
    fn write_initrd(
        &self,
        files: &SectionFiles,
        index: u32,
        zero: DiskSector,
        places: &[DiskSector],
        into: &mut Sector,
    )
        requires kept { AreKept files.now }
        requires zero { zero.disk ≤ 3 }
        ensures { (machine : Machine) → HasPlaces machine self.now (place_view zero) (map place_view places.now)
            → AreNamed machine self.now files.now
            → into.new ≡ slice_index_or (optional_sectors (config_view self.now.config) machine (place_view zero)
            (initrd_view files.now) (map place_view places.now)) index into.old }
    {
        match files {
            SectionFiles::Kernel(files) => {
                self.write_optional(&files.initrd, index, zero, places, into);
            }
            SectionFiles::System(_) => {}
        }
    }
}
