// The walk of a survey.
ghost use Rattle.std.specs.Prelude.{◌≡◌, ◌≤◌, ◌<◌, ◌*◌, ◌≢◌, ◌==◌, ◌&&◌, ◌||◌, nat_lt, true, false, Ok};
ghost use Rattle.std.specs.Prelude.{IfOk, IfErr, IfSome, OnOk, OnSome};
ghost use Rattle.disk_trait.specs.Past.{Told};
ghost use Rattle.lilo_model.specs.MinixLayout.{is_size, reach};
ghost use Rattle.lilo_model.specs.MinixFind.{readable};
ghost use Rattle.lilo_model.specs.MinixParts.{parts_of, is_directory, has_zones, block_at};
ghost use Rattle.lilo_model.specs.MinixEntries.{is_dots, entries_per_block};
ghost use Rattle.lilo_model.specs.MinixSurvey.{Reaches, Refers, Stands, Ends, with_zones, zones_of, right_inode};
ghost use Rattle.minix_layout.specs.View.{kind_view, super_view, inode_view};
ghost use Rattle.minix_zones.specs.Held.{AreHeld};
ghost use Rattle.minix_zones.specs.View.{IsDataZone};
ghost use Rattle.minix_zones.specs.Volume.{volume_view, past_of, faults_of, SameVolume};
ghost use Rattle.minix_zones.specs.Walk.{visit_view, rest_of, turns_left};
ghost use Rattle.minix_survey.specs.Step.{Steps, StepsAlone, Finds, OfVolume, IsNodeOf, IsNodeAt, AreGiven};
ghost use Rattle.minix_survey.specs.Step.{IsFailed, IsReadRefusal, IsBlockRefusal, WalksOn, seen_in, block_seen, done};
ghost use Rattle.minix_survey.specs.Step.{entry_seen, all_from, inode_from, zones_from, zone_from, entry_from};
ghost use Rattle.minix_survey.specs.Step.{entries_from, entry_alone, end_alone, directory_from};
ghost use Rattle.minix_survey.specs.Sound.{SaysSound};
ghost use Rattle.minix_survey.specs.Tables.{reached_in};
ghost use Rattle.minix_survey.specs.View.{spot_view, HasSurveyCause};

use crate::findings::Findings;
use crate::spot::{ROOT, Spot};
use crate::survey_fault::SurveyFault;
use crate::tables::Tables;
use disk_trait::Disks;
use minix_layout::Inode;
use minix_steps::{inode_is_marked, zone_is_marked};
use minix_tree::{
    DirEntry, TreeFault, directory_blocks, entries_per_block, entry_at, is_directory, is_dots,
    is_file, is_link, places, stat_of,
};
use minix_zones::{HeldZones, Visit, Volume, Walk, ZoneFault, read_at};
use std::alloc::Global;

/// Directories are nested below at most so many others, the root counted.
const DEPTH: u32 = 64;

/// What is found on a volume with which nothing is wrong: a sound one.
///
/// # Errors
///
/// The first thing that is wrong, as `SurveyFault` says; or the disk failed, or there is no memory.
pub fn survey<D: Disks>(alloc: Global, volume: &mut Volume<'_, D>) -> Result<Findings, SurveyFault>
    ensures found { OfVolume volume.old (Finds result) }
    ensures sound { OfVolume volume.old (SaysSound result) }
    ensures cause { IfErr result (HasSurveyCause (faults_of volume.old) (faults_of volume.new)) }
    ensures later { faults_of volume.old ≤ faults_of volume.new }
    ensures same { SameVolume volume.old volume.new }
{
    volume.hold_sectors();
    survey_root(alloc, volume)
}

/// The root, and all from it on.
fn survey_root<D: Disks>(alloc: Global, volume: &mut Volume<'_, D>) -> Result<Findings, SurveyFault>
    ensures found { OfVolume volume.old (Finds result) }
    ensures cause { IfErr result (HasSurveyCause (faults_of volume.old) (faults_of volume.new)) }
    ensures later { faults_of volume.old ≤ faults_of volume.new }
    ensures same { SameVolume volume.old volume.new }
{
    let marked = is_marked_inode(volume, ROOT.inode)?;
    if !marked {
        return Err(SurveyFault::UnmarkedInode(ROOT.inode));
    }
    let root = read_inode(volume, ROOT.inode)?;
    if !is_directory(&root) {
        return Err(SurveyFault::Tree(TreeFault::NotDirectory(0)));
    }
    let mut tables = Tables::new(alloc);
    meet_all(alloc, volume, &mut tables, ROOT, &root)?;
    Ok(tables.found())
}

/// An inode, and all below it.
#[cycle(below)]
fn meet_all<D: Disks>(
    alloc: Global,
    volume: &mut Volume<'_, D>,
    tables: &mut Tables,
    spot: Spot,
    node: &Inode,
) -> Result<(), SurveyFault>
    requires level { spot.level ≤ 65 }
    requires node { IsNodeOf volume.old spot node.now }
    ensures { Steps volume.old volume.new tables.old tables.new result (all_from spot) }
{
    meet_inode(volume, tables, spot, node)?;
    meet_zones(volume, tables, spot.inode, node)?;
    if is_directory(node) {
        meet_directory(alloc, volume, tables, spot, node)?;
    }
    Ok(())
}

/// An inode that is reached.
fn meet_inode<D: Disks>(
    volume: &mut Volume<'_, D>,
    tables: &mut Tables,
    spot: Spot,
    node: &Inode,
) -> Result<(), SurveyFault>
    requires node { IsNodeOf volume.old spot node.now }
    ensures steps { Steps volume.old volume.new tables.old tables.new result (inode_from spot) }
    ensures level { OnOk result (is_directory (inode_view node.now) ≡ true → spot.level ≤ 64) }
{
    let marked = is_marked_inode(volume, spot.inode)?;
    if !marked {
        return Err(SurveyFault::UnmarkedInode(spot.inode));
    }
    let deep = is_too_deep(spot, node);
    if deep {
        return Err(SurveyFault::TooDeep);
    }
    tables.reach(spot)?;
    Ok(())
}

/// The zones of an inode.
fn meet_zones<D: Disks>(
    volume: &mut Volume<'_, D>,
    tables: &mut Tables,
    inode: u32,
    node: &Inode,
) -> Result<(), SurveyFault>
    requires { IsNodeAt volume.old inode node.now }
    ensures steps { Steps volume.old volume.new tables.old tables.new result (zones_from inode) }
    ensures given { OnOk result (has_zones (inode_view node.now) ≡ true
        → Told (past_of volume.old) (λ now. AreGiven (seen_in volume.old now) inode)) }
{
    if !has_zones(node) {
        return Ok(());
    }
    let mut walk = Walk::new(node, volume.layout().kind);
    let mut held = HeldZones::of(volume);
    while let Some(visit) = next_zone(volume, &mut walk, &mut held)? {
        meet_zone(volume, tables, inode, visit)?;
    }
    Ok(())
}

/// A zone of an inode.
fn meet_zone<D: Disks>(
    volume: &mut Volume<'_, D>,
    tables: &mut Tables,
    inode: u32,
    visit: Visit,
) -> Result<(), SurveyFault>
    requires { IsDataZone volume.old.layout visit.zone }
    ensures { Steps volume.old volume.new tables.old tables.new result (zone_from inode visit) }
{
    let marked = is_marked_zone(volume, visit.zone)?;
    if !marked {
        return Err(SurveyFault::Unmarked(visit.zone));
    }
    match tables.refer(inode, visit)? {
        Some(first) => Err(SurveyFault::Crossed(visit.zone, first, inode)),
        None => Ok(()),
    }
}

/// The entries of a directory, and its end.
#[cycle(below)]
fn meet_directory<D: Disks>(
    alloc: Global,
    volume: &mut Volume<'_, D>,
    tables: &mut Tables,
    spot: Spot,
    node: &Inode,
) -> Result<(), SurveyFault>
    requires level { spot.level ≤ 64 }
    requires node { IsNodeOf volume.old spot node.now }
    requires given { Told (past_of volume.old) (λ now. AreGiven (seen_in volume.old now) spot.inode) }
    ensures { Steps volume.old volume.new tables.old tables.new result (directory_from spot) }
{
    let kind = volume.layout().kind;
    let places = places(node, kind);
    let per = u32::from(entries_per_block(kind));
    for index in 0..directory_blocks(node, kind) {
        let count = places.saturating_sub(per * index).min(per);
        meet_block(alloc, volume, tables, spot, node, index, count as u16)?;
    }
    meet_end(alloc, tables, spot, places)
}

/// The first entries of a block of a directory.
#[cycle(below)]
fn meet_block<D: Disks>(
    alloc: Global,
    volume: &mut Volume<'_, D>,
    tables: &mut Tables,
    spot: Spot,
    node: &Inode,
    index: u32,
    count: u16,
) -> Result<(), SurveyFault>
    requires level { spot.level ≤ 64 }
    requires node { IsNodeOf volume.old spot node.now }
    requires given { Told (past_of volume.old) (λ now. AreGiven (seen_in volume.old now) spot.inode) }
    requires index { index < reach (kind_view volume.old.layout.kind) }
    requires count { count ≤ entries_per_block (kind_view volume.old.layout.kind) }
    ensures { Steps volume.old volume.new tables.old tables.new result
        (entries_from spot (entries_per_block (kind_view volume.old.layout.kind) * index) count) }
{
    let kind = volume.layout().kind;
    let mut block = [0; 1024];
    read_block(volume, node, index, &mut block)?;
    for at in 0..count {
        let place = u32::from(entries_per_block(kind)) * index + u32::from(at);
        let entry = entry_at(&block, kind, at);
        meet_entry(alloc, volume, tables, spot, place, &entry)?;
    }
    Ok(())
}

/// An entry, and what is below it.
#[cycle(below)]
fn meet_entry<D: Disks>(
    alloc: Global,
    volume: &mut Volume<'_, D>,
    tables: &mut Tables,
    spot: Spot,
    place: u32,
    entry: &DirEntry<'_>,
) -> Result<(), SurveyFault>
    requires level { spot.level ≤ 64 }
    ensures { Steps volume.old volume.new tables.old tables.new result (entry_from spot place (entry_seen entry.now)) }
{
    if entry.inode == 0 {
        return Ok(());
    }
    if is_dots(entry.name) {
        return meet_dots(alloc, tables, spot, place, entry);
    }
    let known = tables.has_reached(entry.inode);
    let node = meet_name(alloc, volume, tables, spot, place, entry)?;
    if !known {
        meet_all(alloc, volume, tables, spot.below(entry.inode), &node)?;
    }
    Ok(())
}

/// An entry whose name is `.` or `..`.
fn meet_dots(
    alloc: Global,
    tables: &mut Tables,
    spot: Spot,
    place: u32,
    entry: &DirEntry<'_>,
) -> Result<(), SurveyFault>
    requires some { entry.now.inode ≢ 0 }
    requires dots { is_dots entry.now.name.now ≡ true }
    ensures { StepsAlone tables.old tables.new result (entry_alone spot place entry.now) }
{
    let right = right_inode(spot, entry.name);
    if entry.inode != right {
        return Err(SurveyFault::BadLink(spot.inode, place));
    }
    let added = tables.stand(alloc, spot.inode, entry.name)?;
    if !added {
        return Err(SurveyFault::BadLink(spot.inode, place));
    }
    Ok(())
}

/// Another entry, with the inode that it names.
fn meet_name<D: Disks>(
    alloc: Global,
    volume: &mut Volume<'_, D>,
    tables: &mut Tables,
    spot: Spot,
    place: u32,
    entry: &DirEntry<'_>,
) -> Result<Inode, SurveyFault>
    requires some { entry.now.inode ≢ 0 }
    requires plain { is_dots entry.now.name.now ≡ false }
    ensures steps { Steps volume.old volume.new tables.old tables.new (done result)
        (λ seen. entry_alone spot place entry.now) }
    ensures there { OnOk result (entry.now.inode ≤ volume.old.layout.inodes) }
    ensures no_root { OnOk result (entry.now.inode ≢ 1) }
    ensures sized { IfOk result (λ node. is_size (kind_view volume.old.layout.kind) node.size ≡ true) }
    ensures node { IfOk result (IsNodeAt volume.old entry.now.inode) }
{
    if entry.inode > u32::from(volume.layout().inodes) {
        return Err(SurveyFault::BadLink(spot.inode, place));
    }
    let node = read_inode(volume, entry.inode)?;
    let bad = is_bad_name(tables, entry.inode, &node);
    if bad {
        return Err(SurveyFault::BadLink(spot.inode, place));
    }
    let added = tables.stand(alloc, spot.inode, entry.name)?;
    if !added {
        return Err(SurveyFault::BadLink(spot.inode, place));
    }
    let names = tables.names(entry.inode);
    if names >= u32::from(node.links) {
        return Err(SurveyFault::FewLinks(entry.inode));
    }
    tables.set_names(entry.inode, names + 1)?;
    Ok(node)
}

/// The end of a directory of so many places: `.` and `..` are in it.
fn meet_end(alloc: Global, tables: &Tables, spot: Spot, places: u32) -> Result<(), SurveyFault>
    ensures { StepsAlone tables.now tables.now result (end_alone spot places) }
{
    let here = tables.has_entry(alloc, spot.inode, b".")?;
    if !here {
        return Err(SurveyFault::BadLink(spot.inode, places));
    }
    let above = tables.has_entry(alloc, spot.inode, b"..")?;
    if !above {
        return Err(SurveyFault::BadLink(spot.inode, places));
    }
    Ok(())
}

/// The inode that `.` or `..` names.
fn right_inode(spot: Spot, name: &[u8]) -> u32
    ensures { result ≡ right_inode (spot_view spot) name.now }
{
    if b".".as_slice() == name {
        spot.inode
    } else {
        spot.above
    }
}

/// Whether an inode is a directory that is nested below too many others.
fn is_too_deep(spot: Spot, node: &Inode) -> bool
    ensures { result ≡ (is_directory (inode_view node.now) && nat_lt 64 spot.level) }
{
    is_directory(node) && spot.level > DEPTH
}

/// Whether an entry other than `.` and `..` names an inode without a mode, the root, or a directory that has a name.
fn is_bad_name(tables: &Tables, inode: u32, node: &Inode) -> bool
    ensures { result ≡ (((node.now.mode == 0) || (inode == 1)) || (is_directory (inode_view node.now)
        && reached_in tables.now inode)) }
{
    node.mode == 0 || inode == ROOT.inode || is_directory(node) && tables.has_reached(inode)
}

/// Whether the numbers in an inode are zones: a device has none.
fn has_zones(node: &Inode) -> bool
    ensures { result ≡ has_zones (inode_view node.now) }
{
    is_directory(node) || is_file(node) || is_link(node)
}

/// Whether an inode is marked.
fn is_marked_inode<D: Disks>(volume: &mut Volume<'_, D>, inode: u32) -> Result<bool, SurveyFault>
    requires some { 1 ≤ inode }
    requires there { inode ≤ volume.old.layout.inodes }
    ensures value { IfOk result (λ marked. Told (past_of volume.old)
        (λ now. marked ≡ (parts_of (volume_view volume.old) now).has_inode inode)) }
    ensures failed { IfErr result (IsFailed (faults_of volume.old) (faults_of volume.new)) }
    ensures later { faults_of volume.old ≤ faults_of volume.new }
    ensures same { SameVolume volume.old volume.new }
{
    match inode_is_marked(volume, inode) {
        Ok(marked) => Ok(marked),
        Err(_) => Err(SurveyFault::Tree(TreeFault::Zone(ZoneFault::Device))),
    }
}

/// Whether a data zone is marked.
fn is_marked_zone<D: Disks>(volume: &mut Volume<'_, D>, zone: u32) -> Result<bool, SurveyFault>
    requires from { volume.old.layout.first ≤ zone }
    requires below { zone < volume.old.layout.zones }
    ensures value { IfOk result (λ marked. Told (past_of volume.old)
        (λ now. marked ≡ (parts_of (volume_view volume.old) now).has_zone zone)) }
    ensures failed { IfErr result (IsFailed (faults_of volume.old) (faults_of volume.new)) }
    ensures later { faults_of volume.old ≤ faults_of volume.new }
    ensures same { SameVolume volume.old volume.new }
{
    match zone_is_marked(volume, zone) {
        Ok(marked) => Ok(marked),
        Err(_) => Err(SurveyFault::Tree(TreeFault::Zone(ZoneFault::Device))),
    }
}

/// Reads an inode.
fn read_inode<D: Disks>(volume: &mut Volume<'_, D>, inode: u32) -> Result<Inode, SurveyFault>
    requires some { 1 ≤ inode }
    requires there { inode ≤ volume.old.layout.inodes }
    ensures node { IfOk result (IsNodeAt volume.old inode) }
    ensures sized { IfOk result (λ node. is_size (kind_view volume.old.layout.kind) node.size ≡ true) }
    ensures refused { IfErr result (λ fault. Told (past_of volume.old) (λ now. IsReadRefusal fault
        (readable (super_view volume.old.layout) (parts_of (volume_view volume.old) now) inode))) }
    ensures cause { IfErr result (HasSurveyCause (faults_of volume.old) (faults_of volume.new)) }
    ensures later { faults_of volume.old ≤ faults_of volume.new }
    ensures same { SameVolume volume.old volume.new }
{
    Ok(stat_of(volume, inode)?.node)
}

/// Reads a block of a directory.
fn read_block<D: Disks>(
    volume: &mut Volume<'_, D>,
    node: &Inode,
    index: u32,
    into: &mut [u8; 1024],
) -> Result<(), SurveyFault>
    requires { index < reach (kind_view volume.old.layout.kind) }
    ensures bytes { OnOk result (Told (past_of volume.old)
        (λ now. block_seen volume.old now node.now index ≡ Ok into.new)) }
    ensures refused { IfErr result (λ fault. Told (past_of volume.old)
        (λ now. IsBlockRefusal fault (block_seen volume.old now node.now index))) }
    ensures cause { IfErr result (HasSurveyCause (faults_of volume.old) (faults_of volume.new)) }
    ensures later { faults_of volume.old ≤ faults_of volume.new }
    ensures same { SameVolume volume.old volume.new }
{
    read_at(volume, node, index, into)?;
    Ok(())
}

/// The next zone of a walk.
fn next_zone<D: Disks>(
    volume: &mut Volume<'_, D>,
    walk: &mut Walk,
    held: &mut HeldZones,
) -> Result<Option<Visit>, SurveyFault>
    requires { AreHeld volume.old held.old }
    ensures meets { Told (past_of volume.old) (λ now. WalksOn result
        (rest_of (super_view volume.old.layout) (parts_of (volume_view volume.old) now) walk.old)
        (rest_of (super_view volume.old.layout) (parts_of (volume_view volume.old) now) walk.new)) }
    ensures data { IfOk result (λ met. IfSome met (λ visit. IsDataZone volume.old.layout visit.zone)) }
    ensures held { AreHeld volume.new held.new }
    ensures fewer { IfOk result (λ met. OnSome met (turns_left walk.new < turns_left walk.old)) }
    ensures cause { IfErr result (HasSurveyCause (faults_of volume.old) (faults_of volume.new)) }
    ensures later { faults_of volume.old ≤ faults_of volume.new }
    ensures same { SameVolume volume.old volume.new }
{
    Ok(walk.next_held(volume, held)?)
}
