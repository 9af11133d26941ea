// One name in the place of another in the same directory.
ghost use Rattle.std.specs.Prelude.{◌≤◌, ◌<◌, length, OnOk};
ghost use Rattle.disk_trait.specs.Moments.{IsTold, now, IsQuiet};
ghost use Rattle.lilo_model.specs.MinixEntries.{entries_per_block};
ghost use Rattle.lilo_model.specs.MinixLayout.{name_size};
ghost use Rattle.minix_layout.specs.View.{kind_view};
ghost use Rattle.minix_turns.specs.Replace.{IsEntryPlace, ReplacesName, HasBothEntries, WritesEntriesAlone};
ghost use Rattle.minix_zones.specs.Volume.{past_of, HasDeviceCause};

use crate::entry::{turn_entry, turn_free};
use disk_trait::Disks;
use minix_zones::{Volume, ZoneFault};

/// Where an entry lies: a data zone, and which of its entries it is.
#[derive(Clone, Copy, Debug, PartialEq, Eq)]
pub struct EntryPlace {
    pub zone: u32,
    pub index: u16,
}

/// Leads a name to the inode of another name, makes that durable, and then takes the other name away, from a quiet
/// moment on. In between both names lead to the one inode.
///
/// # Errors
///
/// `Device` alone.
pub fn turn_replace<D: Disks>(
    volume: &mut Volume<'_, D>,
    to: EntryPlace,
    from: EntryPlace,
    number: u16,
    name: &[u8],
) -> Result<(), ZoneFault>
    requires to { IsEntryPlace volume.old.layout to }
    requires from { IsEntryPlace volume.old.layout from }
    requires short { length name.now ≤ name_size (kind_view volume.old.layout.kind) }
    requires quiet { IsQuiet (past_of volume.old) }
    ensures replaces { ReplacesName volume.old volume.new to from number name.now result }
    ensures entries { IsTold (past_of volume.old)
        → OnOk result (HasBothEntries volume.old (now (past_of volume.new)) to from number name.now) }
    ensures others { WritesEntriesAlone volume.old volume.new to from }
    ensures quiet { OnOk result (IsQuiet (past_of volume.new)) }
    ensures device { HasDeviceCause volume.old volume.new ZoneFault.Device result }
{
    turn_entry(volume, to.zone, to.index, number, name)?;
    turn_free(volume, from.zone, from.index)
}
