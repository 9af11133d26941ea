// The room that an installation takes.
ghost use Rattle.std.specs.Prelude.{◌≡◌, ◌≤◌, ◌*◌, ◌^◌, ◌<◌, List, IfOk, IfErr, IfSome, map};
ghost use Rattle.disk_trait.specs.Moments.{IsTold};
ghost use Rattle.disk_trait.specs.Past.{Told};
ghost use Rattle.lilo_model.specs.Disks as disks;
ghost use Rattle.lilo_model.specs.MinixParts.{parts_of};
ghost use Rattle.lilo_model.specs.Settled as model;
ghost use Rattle.minix_create.specs.Chosen.{Suits};
ghost use Rattle.minix_layout.specs.View.{kind_view, super_view};
ghost use Rattle.minix_choice.specs.View.{taken_view, Gives, HasWriteCause};
ghost use Rattle.minix_zones.specs.Volume.{volume_view, past_of, faults_of, SameVolume};
ghost use Rattle.minix_zones.specs.View.{span_view};
ghost use Rattle.slot_lists.specs.Made.{place_view};
ghost use Rattle.write_model.specs.Places.{most_size};
ghost use Rattle.install_laws.specs.InstallVerdict.{sectors_of_blocks};
ghost use Rattle.install_apart.specs.Own.{AreInside};
ghost use Rattle.install_room.specs.Names.{AreCalled, AreNamesOf};
ghost use Rattle.install_room.specs.Room.{HasRoomFor, HasNoHoles, IsRoomFor, IsRoomFree, AvoidPlaces, KeepsOut};
ghost use Rattle.install_room.specs.Room.{SuitRoom, first_of, places_view, room_for};

use crate::avoid::{overlook_stale, taken_first};
use crate::choices::{choose_backup, choose_for};
use crate::places::places_of;
use disk_trait::Disks;
use install_apart::OwnNames;
use minix_choice::{Taken, WriteFault};
use minix_create::Chosen;
use minix_zones::Volume;
use present_map::OldMap;
use slot_lists::DiskSector;
use std::alloc::Global;

/// What an installation asks room for.
#[derive(Clone, Copy)]
pub struct RoomWish {
    /// A backup is made under its name with `~`, whatever is there.
    pub forced: bool,
    /// The names that settling would take away are there still, and don't count.
    pub unsettled: bool,
    /// How many sectors the map has.
    pub sectors: u32,
    /// Seconds since 1970.
    pub time: u32,
}

/// What is chosen for the files that an installation makes: its backup, where one is made, and its map; and where the
/// sectors of the map will lie.
#[derive(Drop)]
pub struct Room {
    pub backup: Option<Chosen>,
    pub map: Chosen,
    pub places: Vec<DiskSector>,
}

// What may not be chosen.
fn first_taken<D: Disks>(
    alloc: Global,
    volume: &Volume<'_, D>,
    old: &OldMap,
    own: &OwnNames,
    wish: RoomWish,
) -> Result<Taken, WriteFault>
    ensures taken { IfOk result (λ taken. (places : List disks.DiskSector)
        → KeepsOut (volume_view volume.now) places old.now
        → taken_view taken ≡ first_of (volume_view volume.now) places wish.unsettled wish.forced own.now) }
    ensures room { IfOk result (HasRoomFor volume.now.layout) }
    ensures memory { IfErr result (λ fault. fault ≡ WriteFault.Memory) }
{
    let mut taken = taken_first(alloc, volume, old)?;
    if wish.unsettled {
        overlook_stale(alloc, &mut taken, own, wish.forced)?;
    }
    Ok(taken)
}

/// Finds room for the files that an installation makes, by the names that were found: first for the backup, where one
/// is made, then for the map, both outside the zones in which a boot of the present map may look at a sector. All
/// memory for them is taken. Nothing is written.
///
/// # Errors
///
/// Those of minix_create's `choose`, of the backup before the map; `Device` and `Memory`.
pub fn find_room<D: Disks>(
    alloc: Global,
    volume: &mut Volume<'_, D>,
    old: &OldMap,
    own: &OwnNames,
    wish: RoomWish,
) -> Result<Room, WriteFault>
    requires inside { AreInside volume.old.layout own.now }
    requires called { AreCalled own.now }
    requires fits { 512 * wish.sectors ≤ most_size (kind_view volume.old.layout.kind) }

    // What is found.
    ensures room { Told (past_of volume.old) (λ now. (names : model.OwnNames) (places : List disks.DiskSector)
        → KeepsOut (volume_view volume.old) places old.now
        → AreNamesOf (super_view volume.old.layout) (parts_of (volume_view volume.old) now) names own.now
        → Gives places_view result
        (room_for (volume_view volume.old) (parts_of (volume_view volume.old) now) places names wish)) }
    ensures suits { IfOk result (SuitRoom volume.old.layout volume.old.span) }
    ensures places { IfOk result (λ room. places_view room
        ≡ sectors_of_blocks (span_view volume.old.span) room.map.choice.blocks wish.sectors) }

    // What may be done with it.
    ensures made { IfOk result (IsRoomFor own.now wish) }
    ensures whole { IsTold (past_of volume.old) → IfOk result HasNoHoles }
    ensures free { IfOk result (λ room. (places : List disks.DiskSector)
        → KeepsOut (volume_view volume.old) places old.now
        → IsRoomFree volume.new (first_of (volume_view volume.old) places wish.unsettled wish.forced own.now) room) }
    ensures avoids { IsTold (past_of volume.old) → IfOk result (λ room. (places : List disks.DiskSector)
        → KeepsOut (volume_view volume.old) places old.now → AvoidPlaces (volume_view volume.old) places room) }

    // When it is refused.
    ensures cause { IfErr result (HasWriteCause (faults_of volume.old) (faults_of volume.new)) }
    ensures later { faults_of volume.old ≤ faults_of volume.new }
    ensures same { SameVolume volume.old volume.new }
{
    let mut taken = first_taken(alloc, volume, old, own, wish)?;
    let backup = choose_backup(
        alloc,
        volume,
        &mut taken,
        &own.backup,
        wish.forced,
        wish.time,
    )?;
    let tilde = &own.map.tilde;
    let map = choose_for(
        alloc,
        volume,
        &mut taken,
        tilde,
        512 * wish.sectors,
        wish.time,
    )?;
    let places = places_of(alloc, volume.span(), map.blocks(), wish.sectors)?;
    Ok(Room {
        backup,
        map,
        places,
    })
}
