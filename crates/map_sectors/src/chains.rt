// How many sectors of the map the files of a plan take.
ghost use Rattle.std.specs.Prelude.{◌≡◌, ◌≤◌, ◌<◌, ◌^◌, length};
ghost use Rattle.lilo_model.specs.Plan as model;
ghost use Rattle.lilo_conf.specs.View.{section_view};
ghost use Rattle.slot_lists.specs.Runs.{places_in, run_count};

use crate::map::MapPlan;
use file_runs::FileRuns;
use lilo_conf::Section;
use map_plan::{PlannedSection, SectionFiles};
use run_sections::count_slots;
use slot_lists::{Run, RunList};

impl MapPlan {
    ghost use Rattle.std.specs.Prelude.{◌≡◌, ◌≤◌, ◌<◌, ◌+◌, ◌*◌, ◌^◌, All, IfSome, length, map, sum};
    ghost use Rattle.std.specs.Option.{option_map};
    ghost use Rattle.std.specs.List.{AllByRecursion};
    ghost use Rattle.lilo_model.specs.Disks.{Machine};
    ghost use Rattle.lilo_model.specs.Plan as model;
    ghost use Rattle.lilo_model.specs.Plan.{chain_for, map_size, optional_chain, section_size, slots_for, MappedFile};
    ghost use Rattle.lilo_conf.specs.View.{config_view};
    ghost use Rattle.slot_lists.specs.Runs.{IsRun, places_in};
    ghost use Rattle.file_runs.specs.Mapped.{file_view};
    ghost use Rattle.map_plan.specs.Files.{HasFewPlaces, HasRuns};
    ghost use Rattle.map_plan.specs.Sections.{initrd_view, main_view, planned_view, planned_views};
    ghost use Rattle.map_sectors.specs.Accepted.{AreNamed, IsAccepted, IsFor, IsNamed};
    ghost use Rattle.map_sectors.specs.Kept.{AreKept, IsKept};
    ghost use Rattle.map_sectors.specs.Map.{plan_view, HasGeometries};

    /// How many bytes the map has: 512 for each of its sectors.
    pub fn length(&self) -> u32
        ensures { (machine : Machine) → IsFor machine self.now → result ≡ 512 * map_size (plan_view self.now) machine }
    {
        512 * self.size()
    }

    // How many sectors it has.
    #[tactic(auto, unfolding(lilo_model::specs::Plan::map_size))]
    fn size(&self) -> u32
        ensures size { (machine : Machine) → IsFor machine self.now → result ≡ map_size (plan_view self.now) machine }
        ensures room { result ≤ 5 + 65535 + 19 * 131072 }
    {
        5 + u32::from(self.optional_chain(&self.files.message))
            + self.sections_size(self.files.sections.as_slice())
    }

    // How many sectors of it are those of sections.
    fn sections_size(&self, sections: &[PlannedSection]) -> u32
        requires kept { AllByRecursion IsKept sections.now }
        requires few { length sections.now ≤ 19 }
        ensures size { (machine : Machine) → HasGeometries machine self.now.geometries
            → AllByRecursion (IsAccepted machine self.now) sections.now
            → result ≡ sum (map (section_size (config_view self.now.config) machine) (planned_views sections.now)) }
        ensures room { result ≤ 131072 * length sections.now }
    {
        if sections.is_empty() {
            return 0;
        }
        let others = self.sections_size(&sections[1..]);
        self.section_size(&sections[0]) + others
    }

    // How many sectors a section takes.
    pub(crate) fn section_size(&self, planned: &PlannedSection) -> u32
        requires { IsKept planned.now }
        ensures size { (machine : Machine) → HasGeometries machine self.now.geometries
            → IsAccepted machine self.now planned.now
            → result ≡ section_size (config_view self.now.config) machine (planned_view planned.now) }
        ensures room { result ≤ 131072 }
    {
        1 + extra_count(&planned.section)
            + u32::from(self.main_chain(&planned.files))
            + u32::from(self.initrd_chain(&planned.files))
    }

    // How many section sectors the main file of a section takes.
    pub(crate) fn main_chain(&self, files: &SectionFiles) -> u16
        requires { AreKept files.now }
        ensures { (machine : Machine) → HasGeometries machine self.now.geometries → AreNamed machine self.now files.now
            → result ≡ chain_for (config_view self.now.config) machine (main_view files.now) }
    {
        match files {
            SectionFiles::Kernel(files) => self.file_chain(&files.main),
            SectionFiles::System(_) => 1,
        }
    }

    // The same of its initial ramdisk.
    pub(crate) fn initrd_chain(&self, files: &SectionFiles) -> u16
        requires { AreKept files.now }
        ensures { (machine : Machine) → HasGeometries machine self.now.geometries → AreNamed machine self.now files.now
            → result ≡ optional_chain (config_view self.now.config) machine (initrd_view files.now) }
    {
        match files {
            SectionFiles::Kernel(files) => self.optional_chain(&files.initrd),
            SectionFiles::System(_) => 0,
        }
    }

    // The same of a file that may be absent.
    pub(crate) fn optional_chain(&self, file: &Option<FileRuns>) -> u16
        requires few { IfSome file.now HasFewPlaces }
        requires runs { IfSome file.now HasRuns }
        ensures { (machine : Machine) → HasGeometries machine self.now.geometries
            → IfSome (option_map file_view file.now) (IsNamed machine self.now)
            → result ≡ optional_chain (config_view self.now.config) machine (option_map file_view file.now) }
    {
        match file {
            Some(file) => self.file_chain(file),
            None => 0,
        }
    }

    // The same of a file that is there, at most 65,535.
    pub(crate) fn file_chain(&self, file: &FileRuns) -> u16
        requires few { HasFewPlaces file.now }
        requires runs { HasRuns file.now }
        ensures { (machine : Machine) → HasGeometries machine self.now.geometries
            → IsNamed machine self.now (file_view file.now)
            → result ≡ chain_for (config_view self.now.config) machine (file_view file.now) }
    {
        capped(section_sectors(self.slots_of(file.size, &file.runs)))
    }

    // How many slots a file of some bytes takes, where each of its sectors has one.
    fn slots_of(&self, size: u32, runs: &RunList) -> u32
        requires runs { All IsRun runs.now }
        requires room { length (places_in runs.now) < 2 ^ 32 }
        ensures { (machine : Machine) → HasGeometries machine self.now.geometries
            → IsNamed machine self.now (record { size = size; places = places_in runs.now })
            → result ≡ slots_for (config_view self.now.config) machine
            (record { size = size; places = places_in runs.now }) }
    {
        if !self.config.compact {
            return sectors_of(runs.items());
        }
        match count_slots(self.naming(), runs) {
            Ok(count) => count,
            Err(_) => 0,
        }
    }
}

// How many extra sectors a section has, one or none.
pub(crate) fn extra_count(section: &Section) -> u32
    ensures count { result ≡ length (model.extra_sectors (section_view section.now)) }
    ensures few { result ≤ 1 }
{
    if section.password.is_some() || section.fallback.is_some() {
        1
    } else {
        0
    }
}

// How many section sectors so many slots take.
fn section_sectors(slots: u32) -> u32
    ensures { result ≡ model.section_sectors slots }
{
    slots.div_ceil(63)
}

// A number, 65,535 where it is above that.
pub(crate) fn capped(sectors: u32) -> u16
    ensures { sectors ≤ 65535 → result ≡ sectors }
{
    if sectors > 0xFFFF {
        0xFFFF
    } else {
        sectors as u16
    }
}

// How many sectors runs have.
fn sectors_of(runs: &[Run]) -> u32
    requires { length (places_in runs.now) < 2 ^ 32 }
    ensures { result ≡ length (places_in runs.now) }
{
    let mut sectors = 0;
    for run in runs {
        sectors += count_of(run);
    }
    sectors
}

// How many a run has.
pub(crate) fn count_of(run: &Run) -> u32
    ensures { result ≡ run_count run.now }
{
    match run {
        Run::Stretch { count, .. } | Run::Hole { count } => *count,
    }
}
