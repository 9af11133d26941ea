// A name that becomes another.
ghost use Rattle.std.specs.Prelude.{◌≡◌, ◌≢◌, ◌≤◌, ◌<◌, ◌%◌, ◌^◌, length, Some, None, OnOk, IfErr};
ghost use Rattle.disk_trait.specs.Moments.{IsTold, IsQuiet};
ghost use Rattle.lilo_model.specs.MinixEntries.{entries_per_block};
ghost use Rattle.lilo_model.specs.MinixLayout.{name_size};
ghost use Rattle.minix_layout.specs.View.{kind_view};
ghost use Rattle.minix_remove.specs.Renamed.{FitsRenaming, IsSomeRenaming, CarriesOut};
ghost use Rattle.minix_zones.specs.View.{HasZoneCause};
ghost use Rattle.minix_zones.specs.Volume.{past_of, faults_of};

use crate::release::release;
use crate::renaming::Renaming;
use crate::take::take_away;
use crate::target::Target;
use disk_trait::Disks;
use minix_grow::slot_of;
use minix_layout::{FsKind, Inode, Super};
use minix_turns::{EntryPlace, turn_entry, turn_links, turn_replace};
use minix_zones::{Volume, ZoneFault};

/// Puts a name in the place of another: each sector is made durable before the next is written.
///
/// # Errors
///
/// `Device`, and on disks that report no past `ZoneOutside`.
pub(crate) fn carry_out<D: Disks>(
    volume: &mut Volume<'_, D>,
    renaming: &Renaming,
    to: &[u8],
) -> Result<(), ZoneFault>
    requires fits { FitsRenaming volume.old.layout renaming.now.moved renaming.now.former }
    requires short { length to.now ≤ name_size (kind_view volume.old.layout.kind) }
    requires quiet { IsQuiet (past_of volume.old) }
    requires may { IsTold (past_of volume.old)
        → IsSomeRenaming volume.old to.now renaming.now.moved renaming.now.former }
    ensures carries { CarriesOut volume.old volume.new to.now renaming.now.moved renaming.now.former result }
    ensures quiet { OnOk result (IsQuiet (past_of volume.new)) }
    ensures cause { IfErr result (HasZoneCause (faults_of volume.old) (faults_of volume.new)) }
{
    let Some(former) = renaming.former else {
        return rename_entry(volume, &renaming.moved, to);
    };
    if former.inode == renaming.moved.inode {
        take_away(volume, &renaming.moved)
    } else {
        replace_file(volume, &renaming.moved, &former, to)
    }
}

/// Writes another name into an entry, and makes that durable.
fn rename_entry<D: Disks>(
    volume: &mut Volume<'_, D>,
    moved: &Target,
    to: &[u8],
) -> Result<(), ZoneFault>
    requires fits { FitsRenaming volume.old.layout moved.now None }
    requires short { length to.now ≤ name_size (kind_view volume.old.layout.kind) }
    requires quiet { IsQuiet (past_of volume.old) }
    requires may { IsTold (past_of volume.old) → IsSomeRenaming volume.old to.now moved.now None }
    ensures carries { CarriesOut volume.old volume.new to.now moved.now None result }
    ensures quiet { OnOk result (IsQuiet (past_of volume.new)) }
    ensures cause { IfErr result (HasZoneCause (faults_of volume.old) (faults_of volume.new)) }
{
    let place = place_of(volume.layout().kind, moved);
    let number = number_of(volume.layout(), moved);
    turn_entry(volume, place.zone, place.index, number, to)
}

/// Puts a name in the place of that of another inode: a link more, the entry of the other name, the entry of the name,
/// the link again, and the inode that lost its name.
fn replace_file<D: Disks>(
    volume: &mut Volume<'_, D>,
    moved: &Target,
    former: &Target,
    to: &[u8],
) -> Result<(), ZoneFault>
    requires apart { former.now.inode ≢ moved.now.inode }
    requires fits { FitsRenaming volume.old.layout moved.now (Some former.now) }
    requires short { length to.now ≤ name_size (kind_view volume.old.layout.kind) }
    requires quiet { IsQuiet (past_of volume.old) }
    requires may { IsTold (past_of volume.old) → IsSomeRenaming volume.old to.now moved.now (Some former.now) }
    ensures carries { CarriesOut volume.old volume.new to.now moved.now (Some former.now) result }
    ensures quiet { OnOk result (IsQuiet (past_of volume.new)) }
    ensures cause { IfErr result (HasZoneCause (faults_of volume.old) (faults_of volume.new)) }
{
    let raised = Inode {
        links: moved.node.links + 1,
        ..moved.node
    };
    turn_links(volume, moved.inode, &moved.node, raised.links)?;
    let over = place_of(volume.layout().kind, former);
    let place = place_of(volume.layout().kind, moved);
    let number = number_of(volume.layout(), moved);
    turn_replace(volume, over, place, number, to)?;
    release(volume, moved.inode, &raised)?;
    release(volume, former.inode, &former.node)
}

/// Where an entry lies.
fn place_of(kind: FsKind, target: &Target) -> EntryPlace
    ensures zone { result.zone ≡ target.now.zone }
    ensures slot { result.index ≡ target.now.place % entries_per_block (kind_view kind) }
    ensures low { result.index < entries_per_block (kind_view kind) }
{
    EntryPlace {
        zone: target.zone,
        index: slot_of(kind, target.place),
    }
}

/// The inode's number, as an entry has it.
fn number_of(layout: &Super, target: &Target) -> u16
    requires few { layout.now.inodes < 2 ^ 16 }
    requires there { target.now.inode ≤ layout.now.inodes }
    ensures { result ≡ target.now.inode }
{
    target.inode as u16
}
