// The value of a plan.
ghost use Rattle.std.specs.Prelude.{◌≡◌, ◌≤◌, length, IfSome};
ghost use Rattle.std.specs.List.{AllByRecursion};
ghost use Rattle.map_plan.specs.Files.{HasFewPlaces, HasRuns};
ghost use Rattle.map_plan.specs.Names.{names_of};
ghost use Rattle.map_plan.specs.Sections.{planned_views};
ghost use Rattle.map_sectors.specs.Kept.{IsKept, IsKept-prop, few-prop, some-prop};

use disk_trait::Geometry;
use lilo_conf::Config;
use map_plan::PlanFiles;

/// What a map is made of: what a configuration plans for a time. Its readers take no memory.
#[derive(Drop)]
pub struct MapPlan {
    pub(crate) config: Config,
    pub(crate) time: u32,
    // The disk of the volume.
    pub(crate) disk: u8,
    // Those of the disks 0 to 3.
    pub(crate) geometries: [Geometry; 4],
    pub(crate) files: PlanFiles,
    ghost disk_is: { disk ≤ 3 },
    ghost few: { length files.sections.items ≤ 19 },
    ghost kept: { AllByRecursion IsKept files.sections.items } by { IsKept-prop files.sections.items },
    ghost message_few: { IfSome files.message HasFewPlaces } by { few-prop files.message },
    ghost message_runs: { IfSome files.message HasRuns } by { some-prop files.message },
    ghost named: { files.names ≡ names_of (planned_views files.sections.items) },
}
