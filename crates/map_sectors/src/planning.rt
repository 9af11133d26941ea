// The plan of a map.
ghost use Rattle.std.specs.Prelude.{◌≡◌, ◌≤◌, IfErr, IfOk};
ghost use Rattle.lilo_model.specs.ConfLawful.{IsLawful};
ghost use Rattle.lilo_model.specs.PlanRefusal.{plan_at};
ghost use Rattle.lilo_conf.specs.View.{config_view, sections_view};
ghost use Rattle.mbr_table.specs.View.{span_view};
ghost use Rattle.minix_zones.specs.Volume.{volume_view, faults_of, SameVolume};
ghost use Rattle.map_plan.specs.Skipped.{skipped_paths};
ghost use Rattle.map_plan.specs.Sound.{OnSound, machine_for};
ghost use Rattle.map_plan.specs.View.{Gives, HasPlanCause};
ghost use Rattle.map_sectors.specs.Accepted.{IsFor};
ghost use Rattle.map_sectors.specs.Map.{plan_view, HasGeometries};

use crate::map::MapPlan;
use disk_trait::{Disks, Geometry, Span};
use lilo_conf::Config;
use map_plan::{PlanFault, disk_of, plan_files};
use minix_zones::Volume;
use std::alloc::Global;

/// Plans the map of a configuration for the boot device that lies in a span.
///
/// # Errors
///
/// The first that is met: of files and devices in the order of the configuration, then of what they hold, then of their
/// addresses.
pub fn plan<D: Disks>(
    alloc: Global,
    config: Config,
    volume: &mut Volume<'_, D>,
    boot: Span,
    now: u32,
) -> Result<MapPlan, PlanFault>
    requires { IsLawful (config_view config) }

    // What is planned.
    ensures plan { OnSound volume.old (λ image machine. Gives plan_view result
        (plan_at image machine (volume_view volume.old) (span_view boot) (config_view config) now)) }
    ensures skipped { IfOk result (λ plan. OnSound volume.old (λ image machine. plan.files.skipped
        ≡ skipped_paths image machine (volume_view volume.old) (sections_view config.sections))) }
    ensures machine { IfOk result (λ plan. OnSound volume.old (λ image machine. IsFor machine plan)) }
    ensures geometries { IfOk result (λ plan. HasGeometries (machine_for volume.old) plan.geometries) }
    ensures disk { IfOk result (λ plan. plan.disk ≡ volume.old.span.disk) }
    ensures config { IfOk result (λ plan. plan.config ≡ config) }

    // When it is refused.
    ensures cause { IfErr result (HasPlanCause (faults_of volume.old) (faults_of volume.new)) }
    ensures later { faults_of volume.old ≤ faults_of volume.new }
    ensures same { SameVolume volume.old volume.new }
{
    let disk = disk_of(volume);
    let geometries = geometries_of(volume);
    match plan_files(alloc, &config, volume, boot, now) {
        Ok(files) => Ok(MapPlan {
            config,
            time: now,
            disk,
            geometries,
            files,
        }),
        Err(fault) => Err(fault),
    }
}

// How the disks 0 to 3 are divided.
fn geometries_of<D: Disks>(volume: &Volume<'_, D>) -> [Geometry; 4]
    ensures { HasGeometries (machine_for volume.now) result }
{
    [
        volume.geometry(0),
        volume.geometry(1),
        volume.geometry(2),
        volume.geometry(3),
    ]
}
