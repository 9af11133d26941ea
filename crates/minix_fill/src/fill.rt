// Indirect zones and the inode.
ghost use Rattle.std.specs.Prelude.{◌≡◌, ◌+◌, ◌≤◌, ◌<◌, ◌^◌, true, length};
ghost use Rattle.disk_trait.specs.Moments.{IsTold};
ghost use Rattle.lilo_model.specs.MinixLayout.{FitsInode, is_size, reach};
ghost use Rattle.minix_choice_laws.specs.FillLaws.{MayBeFile};
ghost use Rattle.minix_layout.specs.View.{kind_view, inode_view};
ghost use Rattle.minix_steps.specs.Steps.{IsReady, IsUnnamedInode};
ghost use Rattle.minix_zones.specs.Volume.{past_of};
ghost use Rattle.minix_fill.specs.Numbers.{zones_view};
ghost use Rattle.minix_fill.specs.Fill.{MayHoldFile, WritesNumbers, FillsFile, MayGetName, IsFitThen};

use crate::numbers::{FileZones, put_numbers, with_zones};
use disk_trait::Disks;
use minix_layout::Inode;
use minix_steps::{settle, write_inode, write_zone};
use minix_zones::{Volume, ZoneFault};

/// Writes the indirect zones of a file whose blocks are there, and its inode with their numbers in place of its own,
/// and makes all that durable. No named inode referred to these zones, nor had the inode a name, at the last flush.
/// The numbers of inodes begin at 1.
///
/// # Errors
///
/// `Device` alone.
pub fn fill_file<D: Disks>(
    volume: &mut Volume<'_, D>,
    number: u32,
    inode: &Inode,
    zones: &FileZones<'_>,
) -> Result<(), ZoneFault>
    requires some { 1 ≤ number }
    requires there { number ≤ volume.old.layout.inodes }
    requires fits { FitsInode (kind_view volume.old.layout.kind) (inode_view inode.now) }
    requires size { is_size (kind_view volume.old.layout.kind) inode.now.size ≡ true }
    requires few { length zones.now.indirect.now ≤ reach (kind_view volume.old.layout.kind) }
    requires may { IsTold (past_of volume.old)
        → MayBeFile (kind_view volume.old.layout.kind) (zones_view zones.now) }
    requires free { MayHoldFile volume.old (zones_view zones.now) }
    requires ready { IsReady volume.old }
    requires unnamed { IsUnnamedInode volume.old number }
    ensures fills { FillsFile volume.old volume.new number (inode_view inode.now) (zones_view zones.now) result }
    ensures fit { IsFitThen volume.old volume.new number (inode_view inode.now) (zones_view zones.now) result }
    ensures stands { MayGetName volume.old volume.new number (inode_view inode.now) (zones_view zones.now) result }
{
    write_indirect(volume, zones)?;
    let filled = with_zones(inode, volume.layout().kind, zones);
    write_inode(volume, number, &filled)?;
    settle(volume)
}

// Writes the indirect zones that are made.
fn write_indirect<D: Disks>(
    volume: &mut Volume<'_, D>,
    zones: &FileZones<'_>,
) -> Result<(), ZoneFault>
    requires few { length zones.now.indirect.now ≤ reach (kind_view volume.old.layout.kind) }
    requires may { IsTold (past_of volume.old)
        → MayBeFile (kind_view volume.old.layout.kind) (zones_view zones.now) }
    requires free { MayHoldFile volume.old (zones_view zones.now) }
    requires ready { IsReady volume.old }
    ensures { WritesNumbers volume.old volume.new (zones_view zones.now) 0 (length zones.now.indirect.now) result }
{
    for place in 0..zones.indirect.len() {
        write_place(volume, zones, place)?;
    }
    Ok(())
}

// Writes the indirect zone at a place, where it is made.
fn write_place<D: Disks>(
    volume: &mut Volume<'_, D>,
    zones: &FileZones<'_>,
    place: usize,
) -> Result<(), ZoneFault>
    requires there { place < length zones.now.indirect.now }
    requires few { place < 2 ^ 32 }
    requires free { MayHoldFile volume.old (zones_view zones.now) }
    requires ready { IsReady volume.old }
    ensures { WritesNumbers volume.old volume.new (zones_view zones.now) place (place + 1) result }
{
    let zone = zones.indirect[place];
    if zone == 0 {
        return Ok(());
    }
    let mut bytes = [0; 1024];
    put_numbers(volume.layout().kind, zones, place, &mut bytes);
    write_zone(volume, zone, &bytes)
}
