// An entry of a directory, and a flush.
ghost use Rattle.std.specs.Prelude.{◌≡◌, ◌*◌, ◌≤◌, ◌<◌, length, OnOk};
ghost use Rattle.disk_trait.specs.Moments.{IsTold, now, IsQuiet, LeavesOnly};
ghost use Rattle.lilo_model.specs.MinixEntries.{entries_per_block};
ghost use Rattle.lilo_model.specs.MinixLayout.{name_size, entry_size};
ghost use Rattle.minix_change_laws.specs.Written.{entry_bytes};
ghost use Rattle.minix_layout.specs.View.{kind_view};
ghost use Rattle.minix_turns.specs.Names.{PastFree, PastUnseen, MakesName, MakesDirectory, RedirectsName, RemovesName};
ghost use Rattle.minix_turns.specs.Part.{TurnsNamedEntry, TurnsFreeEntry, HasEntryPart, WithOrWithoutEntry, IsEntry};
ghost use Rattle.minix_change_laws.specs.Part.{free_bytes};
ghost use Rattle.minix_zones.specs.Volume.{past_of, HasDeviceCause};

use crate::part::turn_part;
use disk_trait::Disks;
use minix_layout::FsKind;
use minix_zones::{Volume, ZoneFault};
use sector_parts::{Sector, part, put_name, put_u16};

/// Fills an entry of a block with zeros, so that it is free, and makes that durable, from a quiet moment on. The
/// other entries of the block stay.
///
/// # Errors
///
/// `Device` alone.
pub fn turn_free<D: Disks>(
    volume: &mut Volume<'_, D>,
    zone: u32,
    index: u16,
) -> Result<(), ZoneFault>
    requires from { volume.old.layout.first ≤ zone }
    requires below { zone < volume.old.layout.zones }
    requires there { index < entries_per_block (kind_view volume.old.layout.kind) }
    requires quiet { IsQuiet (past_of volume.old) }
    ensures turns { TurnsFreeEntry volume.old volume.new zone index ZoneFault.Device result }
    ensures any_moment { LeavesOnly (past_of volume.old) (past_of volume.new)
        (WithOrWithoutEntry volume.old zone index (free_bytes (kind_view volume.old.layout.kind))) }
    ensures entry { IsTold (past_of volume.old) → OnOk result (HasEntryPart volume.old (now (past_of volume.new))
        zone index (free_bytes (kind_view volume.old.layout.kind))) }
    ensures quiet { OnOk result (IsQuiet (past_of volume.new)) }
    ensures device { HasDeviceCause volume.old volume.new ZoneFault.Device result }

    // At a place past a directory's size no name sees it, and the entry is free; at one below, it takes a name away.
    ensures past { PastUnseen volume.old volume.new zone index }
    ensures past_free { PastFree volume.old volume.new zone index result }
    ensures removes { RemovesName volume.old volume.new zone index result }
{
    write_free(volume, zone, index)
}

// The same, by the kind.
fn write_free<D: Disks>(volume: &mut Volume<'_, D>, zone: u32, index: u16) -> Result<(), ZoneFault>
    requires from { volume.old.layout.first ≤ zone }
    requires below { zone < volume.old.layout.zones }
    requires there { index < entries_per_block (kind_view volume.old.layout.kind) }
    requires quiet { IsQuiet (past_of volume.old) }
    ensures { TurnsFreeEntry volume.old volume.new zone index ZoneFault.Device result }
{
    match volume.layout().kind {
        FsKind::V1Short | FsKind::V2Short => turn_part(volume, zone, 16 * index, &[0; 16]),
        FsKind::V1Long | FsKind::V2Long => turn_part(volume, zone, 32 * index, &[0; 32]),
    }
}

/// Writes the inode and the name of an entry of a block, and makes them durable, from a quiet moment on. The
/// other entries of the block stay.
///
/// # Errors
///
/// `Device` alone.
pub fn turn_entry<D: Disks>(
    volume: &mut Volume<'_, D>,
    zone: u32,
    index: u16,
    number: u16,
    name: &[u8],
) -> Result<(), ZoneFault>
    requires from { volume.old.layout.first ≤ zone }
    requires below { zone < volume.old.layout.zones }
    requires there { index < entries_per_block (kind_view volume.old.layout.kind) }
    requires short { length name.now ≤ name_size (kind_view volume.old.layout.kind) }
    requires quiet { IsQuiet (past_of volume.old) }
    ensures turns { TurnsNamedEntry volume.old volume.new zone index number name.now ZoneFault.Device result }
    ensures any_moment { LeavesOnly (past_of volume.old) (past_of volume.new)
        (WithOrWithoutEntry volume.old zone index (entry_bytes (kind_view volume.old.layout.kind) number name.now)) }
    ensures entry { IsTold (past_of volume.old) → OnOk result (HasEntryPart volume.old (now (past_of volume.new))
        zone index (entry_bytes (kind_view volume.old.layout.kind) number name.now)) }
    ensures quiet { OnOk result (IsQuiet (past_of volume.new)) }
    ensures device { HasDeviceCause volume.old volume.new ZoneFault.Device result }

    // What it does to names.
    ensures makes { MakesName volume.old volume.new zone index number name.now result }
    ensures makes_directory { MakesDirectory volume.old volume.new zone index number name.now result }
    ensures redirects { RedirectsName volume.old volume.new zone index number name.now result }
{
    write_entry(volume, zone, index, number, name)
}

// The same, by the kind.
fn write_entry<D: Disks>(
    volume: &mut Volume<'_, D>,
    zone: u32,
    index: u16,
    number: u16,
    name: &[u8],
) -> Result<(), ZoneFault>
    requires from { volume.old.layout.first ≤ zone }
    requires below { zone < volume.old.layout.zones }
    requires there { index < entries_per_block (kind_view volume.old.layout.kind) }
    requires short { length name.now ≤ name_size (kind_view volume.old.layout.kind) }
    requires quiet { IsQuiet (past_of volume.old) }
    ensures { TurnsNamedEntry volume.old volume.new zone index number name.now ZoneFault.Device result }
{
    match volume.layout().kind {
        FsKind::V1Short | FsKind::V2Short => {
            turn_part(
                volume,
                zone,
                16 * index,
                part(&short_entry(number, name), 0, 16),
            )
        }
        FsKind::V1Long | FsKind::V2Long => {
            turn_part(
                volume,
                zone,
                32 * index,
                part(&long_entry(number, name), 0, 32),
            )
        }
    }
}

// An entry with a name of at most 14 bytes, at the start of a sector.
#[tactic(auto, using(crate::proofs::EntryLemmas::entry_made))]
fn short_entry(number: u16, name: &[u8]) -> Sector
    requires { length name.now ≤ 14 }
    ensures { IsEntry result number 14 name.now }
{
    let mut sector = [0; 512];
    put_u16(&mut sector, 0, number);
    put_name(&mut sector, 2, 14, name);
    sector
}

// One with a name of at most 30.
#[tactic(auto, using(crate::proofs::EntryLemmas::entry_made))]
fn long_entry(number: u16, name: &[u8]) -> Sector
    requires { length name.now ≤ 30 }
    ensures { IsEntry result number 30 name.now }
{
    let mut sector = [0; 512];
    put_u16(&mut sector, 0, number);
    put_name(&mut sector, 2, 30, name);
    sector
}
