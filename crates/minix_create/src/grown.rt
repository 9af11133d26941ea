// A directory that grows so that the place of what is chosen lies below its size.
ghost use Rattle.std.specs.Prelude.{◌≡◌, ◌≤◌, ◌↔◌, true, length, IfOk, IfErr, OnOk};
ghost use Rattle.disk_trait.specs.Moments.{IsTold, IsQuiet};
ghost use Rattle.lilo_model.specs.MinixEntries.{places};
ghost use Rattle.lilo_model.specs.MinixLayout.{FitsInode, is_size};
ghost use Rattle.minix_create.specs.Chosen.{Suits};
ghost use Rattle.minix_create.specs.Grown.{MayGrowNow, LiesNow, IsLastNow, IsAmong, HasRoom, MayGoTo, GrowsChosen};
ghost use Rattle.minix_grow.specs.Zones.{AreData};
ghost use Rattle.minix_layout.specs.View.{kind_view, inode_view};
ghost use Rattle.minix_choice.specs.View.{HasWriteCause};
ghost use Rattle.minix_zones.specs.Volume.{past_of, faults_of, SameVolume};

use crate::brought::{bring, most_places};
use crate::chosen::Chosen;
use crate::place_at::place_at;
use disk_trait::Disks;
use minix_choice::{WriteFault, WriteHalt};
use minix_layout::{Inode, Super};
use minix_tree::places;
use minix_zones::Volume;

/// Whether a zone is among the first of some.
fn is_among(zones: &[u32], count: usize, zone: u32) -> bool
    requires { count ≤ length zones.now }
    ensures { result ≡ true ↔ IsAmong zones.now count zone }
{
    for at in 0..count {
        if zones[at] == zone {
            return true;
        }
    }
    false
}

/// Whether zones are data zones, each another one.
fn are_data(layout: &Super, zones: &[u32]) -> bool
    ensures { result ≡ true ↔ AreData layout.now zones.now }
{
    for at in 0..zones.len() {
        let zone = zones[at];
        if zone < layout.first || zone >= layout.zones || is_among(zones, at, zone) {
            return false;
        }
    }
    true
}

/// Whether a directory can have the place of what is chosen, all before it lie below its size, and the zones of growth
/// are data zones. So it is on disks that report their past.
fn has_room(layout: &Super, chosen: &Chosen, node: &Inode) -> bool
    ensures { result ≡ true ↔ HasRoom layout.now chosen.now node.now }
{
    let kind = layout.kind;
    let place = chosen.choice.place();
    place < most_places(kind)
        && place <= places(node, kind)
        && are_data(layout, chosen.choice.growth())
}

/// Brings the place of what is chosen below the directory's size, where all before it lie there, with the zones that
/// are missing on the way to it.
fn grow_last<D: Disks>(
    volume: &mut Volume<'_, D>,
    chosen: &Chosen,
    node: &Inode,
) -> Result<(), WriteFault>
    requires suits { Suits volume.old.layout volume.old.span chosen.now }
    requires quiet { IsQuiet (past_of volume.old) }
    requires fits { FitsInode (kind_view volume.old.layout.kind) (inode_view node.now) }
    requires sized { is_size (kind_view volume.old.layout.kind) node.now.size ≡ true }
    requires last { IsTold (past_of volume.old) → IsLastNow volume.old chosen.now (inode_view node.now) }
    ensures grows { GrowsChosen volume.old volume.new chosen.now result }
    ensures quiet { OnOk result (IsQuiet (past_of volume.new)) }
    ensures cause { IfErr result (HasWriteCause (faults_of volume.old) (faults_of volume.new)) }
{
    if !has_room(volume.layout(), chosen, node) {
        return Err(WriteFault::NoSpace { need: 1, found: 0 });
    }
    minix_grow::grow_directory(
        volume,
        chosen.directory,
        node,
        chosen.choice.place(),
        chosen.choice.growth(),
    )?;
    Ok(())
}

/// Brings a place of the directory below its size, with all before it, where so many lie there. So many are more than
/// one where files whose names were to be made there weren't made.
fn grow_to<D: Disks>(
    volume: &mut Volume<'_, D>,
    chosen: &Chosen,
    have: u32,
) -> Result<(), WriteFault>
    requires suits { Suits volume.old.layout volume.old.span chosen.now }
    requires quiet { IsQuiet (past_of volume.old) }
    requires may { IsTold (past_of volume.old) → MayGoTo volume.old chosen.now have }
    ensures grows { GrowsChosen volume.old volume.new chosen.now result }
    ensures quiet { OnOk result (IsQuiet (past_of volume.new)) }
    ensures cause { IfErr result (HasWriteCause (faults_of volume.old) (faults_of volume.new)) }
{
    let place = chosen.choice.place();
    bring(volume, chosen.directory, have, place)?;
    let at = place_at(volume, chosen.directory, place)?;
    grow_last(volume, chosen, &at.node)
}

/// Brings the place of what is chosen below the directory's size, in a zone that the directory has.
pub(crate) fn grow_chosen<D: Disks>(
    volume: &mut Volume<'_, D>,
    chosen: &Chosen,
) -> Result<(), WriteFault>
    requires suits { Suits volume.old.layout volume.old.span chosen.now }
    requires quiet { IsQuiet (past_of volume.old) }
    requires may { IsTold (past_of volume.old) → MayGrowNow volume.old chosen.now }
    ensures grows { GrowsChosen volume.old volume.new chosen.now result }
    ensures none { IsTold (past_of volume.old) → LiesNow volume.old chosen.now → SameVolume volume.old volume.new }
    ensures quiet { OnOk result (IsQuiet (past_of volume.new)) }
    ensures cause { IfErr result (HasWriteCause (faults_of volume.old) (faults_of volume.new)) }
{
    let place = chosen.choice.place();
    let at = place_at(volume, chosen.directory, place)?;
    let have = places(&at.node, volume.layout().kind);
    if place < have && at.zone != 0 {
        return Ok(());
    }
    grow_to(volume, chosen, have)
}

/// Brings the place of what is chosen below its directory's size, in a zone that the directory has: with the places
/// before it, and with the zones that were chosen for growth where they are missing. No name sees it at any moment.
///
/// # Errors
///
/// `Device` where the disk failed, and where the disks report their past no other. Where they don't, `NoSpace` or
/// `Tree` too: the directory can't be read, isn't as chosen, or has a zone outside.
pub fn grow_directory<'d, D: Disks>(
    volume: Volume<'d, D>,
    chosen: &Chosen,
) -> Result<Volume<'d, D>, WriteHalt<'d, D>>
    requires suits { Suits volume.layout volume.span chosen.now }
    requires quiet { IsQuiet (past_of volume) }
    requires may { IsTold (past_of volume) → MayGrowNow volume chosen.now }
    ensures grown { IfOk result (λ new. GrowsChosen volume.entry new chosen.now (Ok tt)) }
    ensures quiet { IfOk result (λ new. IsQuiet (past_of new)) }
    ensures halted { IfErr result (λ halt. GrowsChosen volume.entry halt.volume chosen.now (Err halt.fault)) }
    ensures cause { IfErr result (λ halt.
        HasWriteCause (faults_of volume.entry) (faults_of halt.volume) halt.fault) }
{
    let mut volume = volume;
    match grow_chosen(&mut volume, chosen) {
        Ok(()) => Ok(volume),
        Err(fault) => Err(WriteHalt { volume, fault }),
    }
}
