// That what is chosen may be made: a function that only says so, and does nothing.
ghost use Rattle.install_room.specs.Making.{MayMakeWhereSound};

use crate::room::Room;
use disk_trait::Disks;
use minix_zones::Volume;

/// Where their names lie on a sound volume and none is overlooked, the backup and the map that are chosen may be made.
pub fn room_may_be_made<D: Disks>(volume: &Volume<'_, D>, room: &Room)
    ensures { MayMakeWhereSound volume.now room.now }
{}
