// The steps of a creation.
ghost use Rattle.std.specs.Prelude.{◌≡◌, ◌≤◌, ◌<◌, ◌^◌, OnOk, IfErr};
ghost use Rattle.disk_trait.specs.Moments.{IsTold, IsQuiet};
ghost use Rattle.lilo_model.specs.MinixParts.{is_directory};
ghost use Rattle.minix_choice_laws.specs.Choice.{file_of};
ghost use Rattle.minix_create.specs.Chosen.{Suits, new_inode};
ghost use Rattle.minix_create.specs.Created.{MarksChosen, IsOpen};
ghost use Rattle.minix_create.specs.Entered.{IsDirectoryNow, Readies, EntersFilled};
ghost use Rattle.minix_create.specs.Grown.{MayGrowNow};
ghost use Rattle.minix_create.specs.Linked.{LinksFilled};
ghost use Rattle.minix_fill.specs.Fill.{FillsFile, MayGetName, IsFitThen};
ghost use Rattle.minix_layout.specs.View.{inode_view};
ghost use Rattle.minix_steps.specs.Steps.{IsReady};
ghost use Rattle.minix_choice.specs.View.{HasWriteCause};
ghost use Rattle.minix_zones.specs.View.{IsDataZone};
ghost use Rattle.minix_zones.specs.Volume.{past_of, faults_of, KeepsVolume};

use crate::chosen::Chosen;
use crate::grown::grow_chosen;
use crate::place_at::place_at;
use crate::raised::raise_links;
use disk_trait::Disks;
use minix_choice::WriteFault;
use minix_fill::{FileZones, fill_file, mark_zones};
use minix_grow::slot_of;
use minix_layout::{Inode, Super};
use minix_steps::{put_inode_mark, settle};
use minix_turns::turn_entry;
use minix_zones::{Volume, ZoneFault};

/// Sets the bits of what was chosen, and makes that durable.
pub(crate) fn mark_chosen<D: Disks>(
    volume: &mut Volume<'_, D>,
    chosen: &Chosen,
) -> Result<(), ZoneFault>
    requires suits { Suits volume.old.layout volume.old.span chosen.now }
    requires ready { IsReady volume.old }
    ensures { MarksChosen volume.old volume.new chosen.now result }
{
    put_inode_mark(volume, chosen.choice.inode())?;
    mark_zones(volume, chosen.choice.zones())?;
    settle(volume)
}

/// Writes the indirect zones and the inode of a file whose blocks are there, and makes that durable.
pub(crate) fn fill_chosen<D: Disks>(
    volume: &mut Volume<'_, D>,
    chosen: &Chosen,
) -> Result<(), ZoneFault>
    requires { IsOpen volume.old chosen.now }
    ensures fills { FillsFile volume.old volume.new chosen.now.choice.inode (new_inode chosen.now)
        (file_of chosen.now.choice) result }
    ensures fit { IsFitThen volume.old volume.new chosen.now.choice.inode (new_inode chosen.now)
        (file_of chosen.now.choice) result }
    ensures stands { MayGetName volume.old volume.new chosen.now.choice.inode (new_inode chosen.now)
        (file_of chosen.now.choice) result }
{
    let zones = FileZones {
        blocks: chosen.choice.blocks(),
        indirect: chosen.choice.indirect(),
    };
    fill_file(volume, chosen.choice.inode(), &new_inode(chosen), &zones)
}

/// The inode of a new file, without its zones.
fn new_inode(chosen: &Chosen) -> Inode
    ensures { inode_view result ≡ new_inode chosen.now }
{
    Inode {
        mode: chosen.mode,
        links: if is_directory(chosen) { 2 } else { 1 },
        uid: 0,
        gid: 0,
        size: chosen.length,
        times: [chosen.time; 3],
        zones: [0; 10],
    }
}

/// Brings the place of what is filled below the directory's size, makes its name, and makes that durable.
pub(crate) fn link_chosen<D: Disks>(
    volume: &mut Volume<'_, D>,
    chosen: &Chosen,
) -> Result<(), WriteFault>
    requires suits { Suits volume.old.layout volume.old.span chosen.now }
    requires quiet { IsQuiet (past_of volume.old) }
    requires grows { IsTold (past_of volume.old) → MayGrowNow volume.old chosen.now }
    ensures links { LinksFilled volume.old volume.new chosen.now result }
    ensures quiet { OnOk result (IsQuiet (past_of volume.new)) }
    ensures cause { IfErr result (HasWriteCause (faults_of volume.old) (faults_of volume.new)) }
{
    grow_chosen(volume, chosen)?;
    let at = place_at(volume, chosen.directory, chosen.choice.place())?;
    if at.zone == 0 {
        return Err(WriteFault::NoSpace { need: 1, found: 0 });
    }
    enter_chosen(volume, chosen, at.zone)
}

/// Writes the entry of what is filled, and makes it durable. Before the name of a directory the links of the one above
/// are raised.
fn enter_chosen<D: Disks>(
    volume: &mut Volume<'_, D>,
    chosen: &Chosen,
    zone: u32,
) -> Result<(), WriteFault>
    requires suits { Suits volume.old.layout volume.old.span chosen.now }
    requires data { IsDataZone volume.old.layout zone }
    requires quiet { IsQuiet (past_of volume.old) }
    ensures enters { EntersFilled volume.old volume.new chosen.now zone result }
    ensures quiet { OnOk result (IsQuiet (past_of volume.new)) }
    ensures cause { IfErr result (HasWriteCause (faults_of volume.old) (faults_of volume.new)) }
{
    ready_links(volume, chosen)?;
    let index = slot_of(volume.layout().kind, chosen.choice.place());
    let number = number_of(volume.layout(), chosen);
    match turn_entry(volume, zone, index, number, chosen.name.bytes()) {
        Ok(()) => Ok(()),
        Err(_) => Err(WriteFault::Device),
    }
}

/// Raises the links of the directory above, where a directory is made.
fn ready_links<D: Disks>(volume: &mut Volume<'_, D>, chosen: &Chosen) -> Result<(), WriteFault>
    requires suits { Suits volume.old.layout volume.old.span chosen.now }
    requires quiet { IsQuiet (past_of volume.old) }
    ensures readies { (IsTold (past_of volume.old) → IsDirectoryNow volume.old chosen.now.directory)
        → Readies volume.old volume.new chosen.now result }
    ensures quiet { OnOk result (IsQuiet (past_of volume.new)) }
    ensures cause { IfErr result (HasWriteCause (faults_of volume.old) (faults_of volume.new)) }
    ensures later { faults_of volume.old ≤ faults_of volume.new }
    ensures kept { KeepsVolume volume.old volume.new }
{
    if is_directory(chosen) {
        raise_links(volume, chosen.directory)
    } else {
        Ok(())
    }
}

/// Whether a directory is made.
fn is_directory(chosen: &Chosen) -> bool
    ensures { result ≡ is_directory (new_inode chosen.now) }
{
    chosen.mode / 4096 == 4
}

/// The inode's number, as an entry has it.
fn number_of(layout: &Super, chosen: &Chosen) -> u16
    requires few { layout.now.inodes < 2 ^ 16 }
    requires there { chosen.now.choice.inode ≤ layout.now.inodes }
    ensures { result ≡ chosen.now.choice.inode }
{
    chosen.choice.inode() as u16
}
