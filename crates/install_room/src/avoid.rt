// What is taken before anything is chosen.
ghost use Rattle.std.specs.Prelude.{◌≡◌, ◌≤◌, ◌+◌, ◌++◌, ◌&&◌, nat_lt, ℕ, List, [], IfOk, OnOk};
ghost use Rattle.lilo_model.specs.Disks.{DiskSector};
ghost use Rattle.minix_steps.specs.Numbers.{has_number};
ghost use Rattle.minix_choice.specs.View.{taken_view};
ghost use Rattle.minix_zones.specs.Volume.{volume_view};
ghost use Rattle.install_laws.specs.InstallVerdict.{taken_first};
ghost use Rattle.install_room.specs.Names.{stale_of};
ghost use Rattle.install_room.specs.Room.{KeepsOut, HasRoomFor};

use disk_trait::Disks;
use install_apart::OwnNames;
use minix_choice::Taken;
use minix_zones::Volume;
use present_map::OldMap;
use std::alloc::{AllocError, Global};

// Keeps the zones out in which a boot of the present map may look at a sector.
fn keep_out(taken: &mut Taken, old: &OldMap, zones: u32)
    requires below { zones ≤ taken.old.zones.below }
    requires none { taken.old.zones.numbers ≡ [] }
    ensures kept { (zone : ℕ) → has_number taken.new.zones.numbers zone
        ≡ (nat_lt zone zones && has_number old.now.met.zones zone) }
    ensures rest { taken.new ≡ record taken.old
        { zones = record taken.old.zones { numbers = taken.new.zones.numbers } } }
{
    for zone in 0..zones {
        if old.has_zone(zone) {
            taken.avoid_zone(zone);
        }
    }
}

/// What is kept out at first: these zones.
pub(crate) fn taken_first<D: Disks>(
    alloc: Global,
    volume: &Volume<'_, D>,
    old: &OldMap,
) -> Result<Taken, AllocError>
    ensures taken { (places : List DiskSector) → KeepsOut (volume_view volume.now) places old.now
        → IfOk result (λ taken. taken_view taken ≡ taken_first (volume_view volume.now) places []) }
    ensures room { IfOk result (HasRoomFor volume.now.layout) }
{
    let mut taken = Taken::new(alloc, volume)?;
    keep_out(&mut taken, old, volume.layout().zones);
    Ok(taken)
}

/// The names that settling would take away don't count as there: `map~`, and under a forced backup its name with `~`.
pub(crate) fn overlook_stale(
    alloc: Global,
    taken: &mut Taken,
    own: &OwnNames,
    forced: bool,
) -> Result<(), AllocError>
    ensures { OnOk result (taken.new ≡ record taken.old
        { overlooked = taken.old.overlooked ++ stale_of forced own.now }) }
{
    let tilde = &own.map.tilde;
    taken.overlook(alloc, tilde.directory, tilde.name.bytes())?;
    match &own.backup {
        Some(pair) if forced => {
            taken.overlook(alloc, pair.tilde.directory, pair.tilde.name.bytes())
        }
        _ => Ok(()),
    }
}
