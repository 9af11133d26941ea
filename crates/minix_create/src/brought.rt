// Places of a directory that get below its size before a name is made there.
ghost use Rattle.std.specs.Prelude.{◌≡◌, ◌≢◌, ◌+◌, ◌≤◌, ◌<◌, OnOk, IfErr};
ghost use Rattle.disk_trait.specs.Moments.{IsTold, IsQuiet};
ghost use Rattle.lilo_model.specs.MinixLayout.{FitsInode};
ghost use Rattle.minix_create.specs.Brought.{MayBring, IsNextAt, Brings};
ghost use Rattle.minix_grow.specs.Places.{size_to};
ghost use Rattle.minix_layout.specs.View.{kind_view, inode_view};
ghost use Rattle.minix_zones.specs.View.{IsDataZone};
ghost use Rattle.minix_choice.specs.View.{HasWriteCause};
ghost use Rattle.minix_zones.specs.Volume.{past_of, faults_of, KeepsVolume, SameVolume, HasDeviceCause};
ghost use Rattle.write_model.specs.Places.{most_places};

use crate::place_at::{PlaceAt, place_at};
use disk_trait::Disks;
use minix_choice::WriteFault;
use minix_grow::slot_of;
use minix_layout::FsKind;
use minix_tree::{entry_size, places};
use minix_turns::{turn_free, turn_size};
use minix_zones::{Volume, ZoneFault};

/// How many places a directory can have.
pub(crate) fn most_places(kind: FsKind) -> u32
    ensures { result ≡ most_places (kind_view kind) }
{
    let size = if kind.is_v1() { 268966912 } else { 4294967295 };
    size / u32::from(entry_size(kind))
}

/// The size of a directory whose last place is this one.
fn size_to(kind: FsKind, place: u32) -> u32
    requires { place < most_places (kind_view kind) }
    ensures { result ≡ size_to (kind_view kind) place }
{
    (place + 1) * u32::from(entry_size(kind))
}

/// Brings the first place past a directory's size below it: where it lies in a zone it is filled with zeros first.
fn write_next<D: Disks>(
    volume: &mut Volume<'_, D>,
    directory: u32,
    at: &PlaceAt,
    place: u32,
) -> Result<(), ZoneFault>
    requires some { 1 ≤ directory }
    requires there { directory ≤ volume.old.layout.inodes }
    requires data { at.now.zone ≢ 0 → IsDataZone volume.old.layout at.now.zone }
    requires fits { FitsInode (kind_view volume.old.layout.kind) (inode_view at.now.node) }
    requires room { place < most_places (kind_view volume.old.layout.kind) }
    requires quiet { IsQuiet (past_of volume.old) }
    ensures brings { (IsTold (past_of volume.old)
        → IsNextAt volume.old directory (inode_view at.now.node) place at.now.zone)
        → Brings volume.old volume.new directory (place + 1) ZoneFault.Device result }
    ensures quiet { OnOk result (IsQuiet (past_of volume.new)) }
    ensures device { HasDeviceCause volume.old volume.new ZoneFault.Device result }
    ensures later { faults_of volume.old ≤ faults_of volume.new }
    ensures kept { KeepsVolume volume.old volume.new }
{
    let kind = volume.layout().kind;
    let size = size_to(kind, place);
    if at.zone == 0 {
        return turn_size(volume, directory, &at.node, size);
    }
    turn_free(volume, at.zone, slot_of(kind, place))?;
    turn_size(volume, directory, &at.node, size)
}

/// Brings a place of a directory below its size, where those before it lie there.
fn bring_next<D: Disks>(
    volume: &mut Volume<'_, D>,
    directory: u32,
    place: u32,
) -> Result<(), WriteFault>
    requires some { 1 ≤ directory }
    requires there { directory ≤ volume.old.layout.inodes }
    requires room { place < most_places (kind_view volume.old.layout.kind) }
    requires quiet { IsQuiet (past_of volume.old) }
    ensures brings { (IsTold (past_of volume.old) → MayBring volume.old directory place)
        → Brings volume.old volume.new directory (place + 1) WriteFault.Device result }
    ensures quiet { OnOk result (IsQuiet (past_of volume.new)) }
    ensures cause { IfErr result (HasWriteCause (faults_of volume.old) (faults_of volume.new)) }
    ensures later { faults_of volume.old ≤ faults_of volume.new }
    ensures kept { KeepsVolume volume.old volume.new }
{
    let at = place_at(volume, directory, place)?;
    if place < places(&at.node, volume.layout().kind) {
        return Ok(());
    }
    match write_next(volume, directory, &at, place) {
        Ok(()) => Ok(()),
        Err(_) => Err(WriteFault::Device),
    }
}

/// Brings all places of a directory before one below its size, where so many lie there: others lie past it where files
/// whose names were to be made there weren't made.
pub(crate) fn bring<D: Disks>(
    volume: &mut Volume<'_, D>,
    directory: u32,
    have: u32,
    place: u32,
) -> Result<(), WriteFault>
    requires some { 1 ≤ directory }
    requires there { directory ≤ volume.old.layout.inodes }
    requires quiet { IsQuiet (past_of volume.old) }
    ensures brings { (IsTold (past_of volume.old) → MayBring volume.old directory have)
        → (IsTold (past_of volume.old) → have ≤ place → place < most_places (kind_view volume.old.layout.kind))
        → Brings volume.old volume.new directory place WriteFault.Device result }
    ensures none { place < have → SameVolume volume.old volume.new }
    ensures quiet { OnOk result (IsQuiet (past_of volume.new)) }
    ensures cause { IfErr result (HasWriteCause (faults_of volume.old) (faults_of volume.new)) }
    ensures later { faults_of volume.old ≤ faults_of volume.new }
    ensures kept { KeepsVolume volume.old volume.new }
{
    if place < have {
        return Ok(());
    }
    if place >= most_places(volume.layout().kind) {
        return Err(WriteFault::NoSpace { need: 1, found: 0 });
    }
    for next in have..place {
        bring_next(volume, directory, next)?;
    }
    Ok(())
}
