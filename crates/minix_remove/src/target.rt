// What is removed by a name.
ghost use Rattle.std.specs.Prelude.{◌≡◌, ◌≢◌, ◌≤◌, ◌<◌, true, IfOk, IfErr};
ghost use Rattle.lilo_model.specs.MinixEntries.{places};
ghost use Rattle.lilo_model.specs.MinixLayout.{FitsInode, reach};
ghost use Rattle.lilo_model.specs.MinixParts.{blocks_for};
ghost use Rattle.minix_layout.specs.View.{kind_view, inode_view};
ghost use Rattle.minix_remove.specs.Target.{FitsTarget, GivesFile, GivesTarget, GivesZone};
ghost use Rattle.minix_remove_laws.specs.Held.{is_removable};
ghost use Rattle.minix_tree.specs.View.{HasTreeCause};
ghost use Rattle.minix_zones.specs.View.{IsDataZone};
ghost use Rattle.minix_zones.specs.Volume.{faults_of, SameVolume};

use crate::find::find_name;
use disk_trait::Disks;
use minix_layout::Inode;
use minix_tree::{TreeFault, entries_per_block, is_file, is_link, stat_of};
use minix_zones::{Volume, ZoneAt, zone_at};

/// The entry of a name, and the inode that it leads to.
#[derive(Clone, Copy)]
pub(crate) struct Target {
    /// The place of the entry in its directory, and the zone with it.
    pub(crate) place: u32,
    pub(crate) zone: u32,
    pub(crate) inode: u32,
    pub(crate) node: Inode,
}

/// What a name in a directory leads to, which is a regular file or a symbolic link. Nothing is written.
///
/// # Errors
///
/// `NotFound(0)` and `NotFile`, or the disk failed; on disks that report no past others.
pub(crate) fn find_target<D: Disks>(
    volume: &mut Volume<'_, D>,
    directory: u32,
    name: &[u8],
) -> Result<Target, TreeFault>
    requires some { 1 ≤ directory }
    requires there { directory ≤ volume.old.layout.inodes }
    ensures finds { GivesTarget volume.old directory name.now result }
    ensures fits { IfOk result (FitsTarget volume.old.layout) }
    ensures cause { IfErr result (HasTreeCause (faults_of volume.old) (faults_of volume.new)) }
    ensures later { faults_of volume.old ≤ faults_of volume.new }
    ensures same { SameVolume volume.old volume.new }
{
    let stat = stat_of(volume, directory)?;
    let Some(found) = find_name(volume, &stat.node, name)? else {
        return Err(TreeFault::NotFound(0));
    };
    let node = file_of(volume, directory, found.inode)?;
    let zone = zone_with(volume, &stat.node, found.place)?;
    Ok(Target {
        place: found.place,
        zone,
        inode: found.inode,
        node,
    })
}

/// The inode of a file or a link that an entry of a directory leads to.
fn file_of<D: Disks>(
    volume: &mut Volume<'_, D>,
    directory: u32,
    number: u32,
) -> Result<Inode, TreeFault>
    requires { 1 ≤ number }
    ensures gives { GivesFile volume.old number result }
    ensures there { IfOk result (λ node. number ≤ volume.old.layout.inodes) }
    ensures fits { IfOk result (λ node. FitsInode (kind_view volume.old.layout.kind) (inode_view node)) }
    ensures cause { IfErr result (HasTreeCause (faults_of volume.old) (faults_of volume.new)) }
    ensures later { faults_of volume.old ≤ faults_of volume.new }
    ensures same { SameVolume volume.old volume.new }
{
    if number > volume.layout().inodes {
        return Err(TreeFault::BadEntry(directory));
    }
    let stat = stat_of(volume, number)?;
    if is_removable(&stat.node) {
        Ok(stat.node)
    } else {
        Err(TreeFault::NotFile)
    }
}

/// Whether an inode is a regular file or a symbolic link.
fn is_removable(inode: &Inode) -> bool
    ensures { result ≡ is_removable (inode_view inode.now) }
{
    is_file(inode) || is_link(inode)
}

/// The zone with the entry at a place of a directory. In a hole there is none.
fn zone_with<D: Disks>(
    volume: &mut Volume<'_, D>,
    directory: &Inode,
    place: u32,
) -> Result<u32, TreeFault>
    requires below { place < places (kind_view volume.old.layout.kind) directory.now.size }
    requires reached { blocks_for directory.now.size ≤ reach (kind_view volume.old.layout.kind) }
    ensures gives { GivesZone volume.old (inode_view directory.now) place result }
    ensures data { IfOk result (IsDataZone volume.old.layout) }
    ensures cause { IfErr result (HasTreeCause (faults_of volume.old) (faults_of volume.new)) }
    ensures later { faults_of volume.old ≤ faults_of volume.new }
    ensures same { SameVolume volume.old volume.new }
{
    let block = place / u32::from(entries_per_block(volume.layout().kind));
    match zone_at(volume, directory, block) {
        Ok(ZoneAt::Zone(zone)) => Ok(zone),
        Ok(ZoneAt::Hole) => Err(TreeFault::NotFound(0)),
        Err(fault) => Err(TreeFault::Zone(fault)),
    }
}
