// Links of the directory above a new one.
ghost use Rattle.std.specs.Prelude.{◌≡◌, ◌≤◌, OnOk, IfErr};
ghost use Rattle.disk_trait.specs.Moments.{IsTold, IsQuiet};
ghost use Rattle.lilo_model.specs.MinixLayout.{most_links};
ghost use Rattle.minix_create.specs.Entered.{IsDirectoryNow, RaisesLinks};
ghost use Rattle.minix_layout.specs.View.{kind_view};
ghost use Rattle.minix_choice.specs.View.{HasWriteCause};
ghost use Rattle.minix_zones.specs.Volume.{past_of, faults_of, KeepsVolume};

use disk_trait::Disks;
use minix_choice::WriteFault;
use minix_layout::FsKind;
use minix_tree::stat_of;
use minix_turns::turn_links;
use minix_zones::Volume;

/// The most links that an inode can have.
fn most_links(kind: FsKind) -> u16
    ensures { result ≡ most_links (kind_view kind) }
{
    if kind.is_v1() { 255 } else { 65535 }
}

/// Raises the links of a directory by one, unless they are the most that it can have, and makes that durable.
pub(crate) fn raise_links<D: Disks>(
    volume: &mut Volume<'_, D>,
    directory: u32,
) -> Result<(), WriteFault>
    requires some { 1 ≤ directory }
    requires there { directory ≤ volume.old.layout.inodes }
    requires quiet { IsQuiet (past_of volume.old) }
    ensures raises { (IsTold (past_of volume.old) → IsDirectoryNow volume.old directory)
        → RaisesLinks volume.old volume.new directory WriteFault.Device result }
    ensures quiet { OnOk result (IsQuiet (past_of volume.new)) }
    ensures cause { IfErr result (HasWriteCause (faults_of volume.old) (faults_of volume.new)) }
    ensures later { faults_of volume.old ≤ faults_of volume.new }
    ensures kept { KeepsVolume volume.old volume.new }
{
    let stat = stat_of(volume, directory)?;
    if stat.node.links >= most_links(volume.layout().kind) {
        return Ok(());
    }
    match turn_links(volume, directory, &stat.node, stat.node.links + 1) {
        Ok(()) => Ok(()),
        Err(_) => Err(WriteFault::Device),
    }
}
