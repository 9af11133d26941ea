// How many runs the files of a plan take at least.
ghost use Rattle.std.specs.Prelude.{◌≡◌, ◌≤◌, ◌<◌, ◌+◌, ◌++◌, ◌*◌, ◌^◌, List, Option, All, IfSome, length, map, sum};
ghost use Rattle.std.specs.Option.{option_map};
ghost use Rattle.std.specs.List.{AllByRecursion};
ghost use Rattle.lilo_model.specs.Disks as disks;
ghost use Rattle.slot_lists.specs.declared.runs.Run.TheVariants.{Stretch, Hole};
ghost use Rattle.slot_lists.specs.Made.{place_view};
ghost use Rattle.slot_lists.specs.Runs.{places_in, run_count, run_places};
ghost use Rattle.file_runs.specs.Mapped.{file_view};
ghost use Rattle.file_runs.specs.Needed.{adjoins, runs_needed};
ghost use Rattle.map_plan.specs.Devices.{sectors_view};
ghost use Rattle.map_plan.specs.Files.{HasFewPlaces};
ghost use Rattle.map_plan.specs.Sections.{initrd_view, main_view, planned_view, planned_views};
ghost use Rattle.map_sectors.specs.Kept.{AreKept, IsKept};
ghost use Rattle.map_sectors.specs.Runs.{run_start, run_end, needed_after, later_run, optional_runs, section_runs};

use crate::chains::count_of;
use crate::map::MapPlan;
use file_runs::FileRuns;
use map_plan::{PlannedSection, SectionFiles, SystemSectors};
use slot_lists::Run;

impl MapPlan {
    ghost use Rattle.std.specs.Prelude.{◌≡◌};
    ghost use Rattle.map_sectors.specs.Map.{plan_view};
    ghost use Rattle.map_sectors.specs.Runs.{plan_runs};

    /// How many runs the sectors of what it maps take at least, each file or device list by itself.
    pub fn runs(&self) -> u32
        ensures { result ≡ plan_runs (plan_view self.now) }
    {
        optional_runs(&self.files.message) + runs_of_sections(self.files.sections.as_slice())
    }
}

// Those of sections.
fn runs_of_sections(sections: &[PlannedSection]) -> u32
    requires kept { AllByRecursion IsKept sections.now }
    requires few { length sections.now ≤ 19 }
    ensures value { result ≡ sum (map section_runs (planned_views sections.now)) }
    ensures room { result ≤ 2 ^ 24 * length sections.now }
{
    if sections.is_empty() {
        return 0;
    }
    let others = runs_of_sections(&sections[1..]);
    section_runs(&sections[0].files) + others
}

// Those of a section's files, or of its devices.
fn section_runs(files: &SectionFiles) -> u32
    requires { AreKept files.now }
    ensures value { result ≡ runs_needed (main_view files.now).places + optional_runs (initrd_view files.now) }
    ensures room { result ≤ 2 ^ 24 }
{
    match files {
        SectionFiles::Kernel(files) => file_runs(&files.main) + optional_runs(&files.initrd),
        SectionFiles::System(sectors) => system_runs(sectors),
    }
}

// Those of another system's sectors: the table's may lie right after the first.
fn system_runs(sectors: &SystemSectors) -> u32
    ensures value { result ≡ runs_needed (sectors_view sectors.now) }
    ensures room { result ≤ 2 }
{
    match sectors.table {
        Some(table) => {
            let first = sectors.first;
            if table.disk == first.disk
                && table.sector > first.sector
                && table.sector - first.sector == 1
            {
                1
            } else {
                2
            }
        }
        None => 1,
    }
}

// Those of a file that may be absent.
fn optional_runs(file: &Option<FileRuns>) -> u32
    requires { IfSome file.now HasFewPlaces }
    ensures value { result ≡ optional_runs (option_map file_view file.now) }
    ensures room { result ≤ 2 ^ 23 }
{
    match file {
        Some(file) => file_runs(file),
        None => 0,
    }
}

// Those of a file that is there.
fn file_runs(file: &FileRuns) -> u32
    requires { HasFewPlaces file.now }
    ensures value { result ≡ runs_needed (file_view file.now).places }
    ensures room { result ≤ 2 ^ 23 }
{
    let _size = file.size;
    needed(file.runs.items())
}

// How many runs the sectors of some runs take at least.
fn needed(runs: &[Run]) -> u32
    requires { length (places_in runs.now) < 2 ^ 32 }
    ensures value { result ≡ runs_needed (places_in runs.now) }
    ensures few { result ≤ length (places_in runs.now) }
{
    let mut needed = 0;
    let mut last = Run::Hole { count: 0 };
    for run in runs {
        needed += begun(&last, run);
        last = later(last, *run);
    }
    needed
}

// How many runs a run begins after another one, one or none.
fn begun(last: &Run, run: &Run) -> u32
    ensures value { (rest : List (Option disks.DiskSector)) → needed_after last.now (run_places run.now ++ rest)
        ≡ result + needed_after (later_run last.now run.now) rest }
    ensures few { result ≤ run_count run.now }
{
    if count_of(run) == 0 {
        return 0;
    }
    if count_of(last) == 0 {
        return 1;
    }
    if goes_on(last, run) {
        return 0;
    }
    1
}

// Whether a run goes on where another one ends; both have sectors.
fn goes_on(last: &Run, run: &Run) -> bool
    requires { 0 < run_count last.now }
    ensures { result ≡ adjoins (run_end last.now) (run_start run.now) }
{
    match last {
        Run::Hole { .. } => is_hole(run),
        Run::Stretch { disk, start, count } => starts_at(run, *disk, *start, *count),
    }
}

fn is_hole(run: &Run) -> bool
    ensures { (count : _) → result ≡ adjoins (run_end (Hole count)) (run_start run.now) }
{
    match run {
        Run::Hole { .. } => true,
        Run::Stretch { .. } => false,
    }
}

// Whether a run starts after so many sectors from a number on.
fn starts_at(run: &Run, disk: u8, start: u64, count: u32) -> bool
    requires { 0 < count }
    ensures { result ≡ adjoins (run_end (Stretch disk start count)) (run_start run.now) }
{
    match run {
        Run::Hole { .. } => false,
        Run::Stretch {
            disk: other,
            start: from,
            ..
        } => *other == disk && *from >= start && *from - start == u64::from(count),
    }
}

// The later of two runs that has sectors.
fn later(last: Run, run: Run) -> Run
    ensures { result ≡ later_run last run }
{
    if count_of(&run) == 0 { last } else { run }
}
