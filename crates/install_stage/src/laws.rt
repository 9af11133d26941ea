// What is staged once files were made: functions that only say so, and do nothing.
ghost use Rattle.install_stage.specs.Staged.{RoomStagedLaw, StagedLaw};

use disk_trait::Disks;
use install_room::Room;
use map_sectors::MapPlan;
use minix_create::Chosen;
use minix_zones::Volume;
use slot_lists::DiskSector;

/// Once the map of what a plan's checks accepted was made, all is staged for the boot sector that was planned.
pub fn made_map_is_staged<D: Disks>(
    start: &Volume<'_, D>,
    volume: &Volume<'_, D>,
    chosen: &Chosen,
    plan: &MapPlan,
    places: &[DiskSector],
)
    ensures { StagedLaw start.now volume.now chosen.now plan.now places.now }
{}

/// Once both files of what a plan's checks accepted were staged, all is staged for the boot sector that was planned,
/// and the map is under its name with `~`.
pub fn room_is_staged<D: Disks>(
    start: &Volume<'_, D>,
    volume: &Volume<'_, D>,
    plan: &MapPlan,
    room: &Room,
)
    ensures { RoomStagedLaw start.now volume.now plan.now room.now }
{}
