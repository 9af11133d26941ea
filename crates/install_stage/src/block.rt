// The blocks of a map's file.
ghost use Rattle.std.specs.Prelude.{◌≡◌, ◌<◌, ◌+◌, ◌*◌, ◌^◌, All, length};
ghost use Rattle.lilo_model.specs.Disks.{Machine};
ghost use Rattle.install_stage.specs.Blocks.{MayLieAt, block_of_sectors, sector_or_zeros, sectors_of_map};

use crate::halves::block_of;
use map_sectors::MapPlan;
use sector_parts::Sector;
use slot_lists::DiskSector;

// A sector of the map, or zeros after its last one.
fn map_sector(plan: &MapPlan, places: &[DiskSector], index: u32) -> Sector
    requires { All (λ place. place.disk ≡ plan.now.disk) places.now }
    ensures { (machine : Machine) → MayLieAt machine plan.now places.now
        → result ≡ sector_or_zeros (sectors_of_map machine plan.now places.now) index }
{
    let mut sector = [0; 512];
    if (index as usize) < places.len() {
        plan.sector(index, places, &mut sector);
    }
    sector
}

/// A block of the map: two of its sectors.
pub(crate) fn map_block(plan: &MapPlan, places: &[DiskSector], index: u32) -> [u8; 1024]
    requires disk { All (λ place. place.disk ≡ plan.now.disk) places.now }
    requires fits { 2 * index + 1 < 2 ^ 32 }
    ensures { (machine : Machine) → MayLieAt machine plan.now places.now
        → result ≡ block_of_sectors (sectors_of_map machine plan.now places.now) index }
{
    block_of(
        &map_sector(plan, places, 2 * index),
        &map_sector(plan, places, 2 * index + 1),
    )
}
