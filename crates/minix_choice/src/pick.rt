// What is chosen for a file.
ghost use Rattle.std.specs.Prelude.{◌≡◌, ◌≤◌, ◌<◌, ◌^◌, length, All, IfOk, IfErr, OnOk, OnErr};
ghost use Rattle.disk_trait.specs.Past.{Told};
ghost use Rattle.lilo_model.specs.MinixLayout.{numbers_in_zone, name_size};
ghost use Rattle.lilo_model.specs.MinixParts.{parts_of, blocks_for};
ghost use Rattle.minix_layout.specs.View.{kind_view, super_view};
ghost use Rattle.minix_zones.specs.View.{IsDataZone};
ghost use Rattle.minix_zones.specs.Volume.{volume_view, past_of, faults_of, SameVolume};
ghost use Rattle.minix_tree.specs.View.{IsStat, IsNode};
ghost use Rattle.minix_choice.specs.View.{taken_view, wish_view, Gives, HasWriteCause};
ghost use Rattle.write_model.specs.Places.{most_places};
ghost use Rattle.write_model.specs.FileZones.{made_indirect};
ghost use Rattle.write_model.specs.Choice.{choose, choice_with, file_need};
ghost use Rattle.minix_choice.specs.Taken.{with_choice};
ghost use Rattle.minix_choice.specs.Chosen.{free_for, spot_for, spot_view, zones_for, found_view};
ghost use Rattle.minix_choice.specs.Suits.{IsFileOf, SuitsWish};

use crate::directory::look;
use crate::file_zones::{FileZones, block_zones, file_zones, indirect_zones, zones_behind};
use crate::growth::{completed, count_fresh, missing_on_way, promised_zones};
use crate::taken::Taken;
use crate::wish::Wish;
use crate::write_fault::WriteFault;
use disk_trait::Disks;
use minix_layout::FsKind;
use minix_steps::NumberList;
use minix_tree::{Stat, entries_per_block, entry_size, places, stat_of};
use minix_zones::Volume;
use std::alloc::{AllocError, Global};
use std::marker::Model;

/// How many places a directory can have.
fn most_places(kind: FsKind) -> u32
    ensures { result ≡ most_places (kind_view kind) }
{
    let size = if kind.is_v1() { 268966912 } else { 4294967295 };
    size / u32::from(entry_size(kind))
}

/// A directory that may have the name, and its first free place.
#[derive(Drop)]
struct Free {
    stat: Stat,
    free: Option<u32>,
}

/// Whether the directory may have the name, and its first free place that wasn't promised.
fn free_for<D: Disks>(
    volume: &mut Volume<'_, D>,
    wish: &Wish<'_>,
    taken: &Taken,
) -> Result<Free, WriteFault>
    requires some { 1 ≤ wish.now.directory }
    requires there { wish.now.directory ≤ volume.old.layout.inodes }
    ensures free { Told (past_of volume.old) (λ now. Gives (λ found. found.free) result
        (free_for (super_view volume.old.layout) (parts_of (volume_view volume.old) now) (taken_view taken.now)
        wish.now.directory wish.now.name.now)) }
    ensures number { IfOk result (λ found. found.stat.inode ≡ wish.now.directory) }
    ensures node { IfOk result (λ found. IsNode volume.old found.stat) }
    ensures fits { IfOk result (λ found. IsStat volume.old.layout found.stat) }
    ensures short { OnOk result (length wish.now.name.now ≤ name_size (kind_view volume.old.layout.kind)) }
    ensures cause { IfErr result (HasWriteCause (faults_of volume.old) (faults_of volume.new)) }
    ensures later { faults_of volume.old ≤ faults_of volume.new }
    ensures same { SameVolume volume.old volume.new }
{
    let kind = volume.layout().kind;
    if wish.name.len() > usize::from(entry_size(kind) - 2) {
        return Err(WriteFault::NameTooLong);
    }
    let stat = stat_of(volume, wish.directory)?;
    let seen = look(volume, &stat.node, wish, taken)?;
    if seen.named && !taken.overlooks(wish.directory, wish.name) {
        return Err(WriteFault::Exists);
    }
    Ok(Free {
        stat,
        free: seen.free,
    })
}

/// A free inode and a place in the directory.
#[derive(Drop)]
struct Spot {
    stat: Stat,
    inode: u32,
    place: u32,
}

/// The free inode and the place for a name.
fn spot_for<D: Disks>(
    volume: &mut Volume<'_, D>,
    wish: &Wish<'_>,
    taken: &Taken,
) -> Result<Spot, WriteFault>
    requires some { 1 ≤ wish.now.directory }
    requires there { wish.now.directory ≤ volume.old.layout.inodes }
    requires inodes { volume.old.layout.inodes < taken.now.inodes.below }
    ensures spot { Told (past_of volume.old) (λ now. Gives spot_view result
        (spot_for (super_view volume.old.layout) (parts_of (volume_view volume.old) now) (taken_view taken.now)
        wish.now.directory wish.now.name.now)) }
    ensures number { IfOk result (λ spot. spot.stat.inode ≡ wish.now.directory) }
    ensures short { OnOk result (length wish.now.name.now ≤ name_size (kind_view volume.old.layout.kind)) }
    ensures some { IfOk result (λ spot. 1 ≤ spot.inode) }
    ensures inode { IfOk result (λ spot. spot.inode ≤ volume.old.layout.inodes) }
    ensures node { IfOk result (λ spot. IsNode volume.old spot.stat) }
    ensures fits { IfOk result (λ spot. IsStat volume.old.layout spot.stat) }
    ensures cause { IfErr result (HasWriteCause (faults_of volume.old) (faults_of volume.new)) }
    ensures later { faults_of volume.old ≤ faults_of volume.new }
    ensures same { SameVolume volume.old volume.new }
{
    let found = free_for(volume, wish, taken)?;
    let Some(inode) = taken.free_inode(volume)? else {
        return Err(WriteFault::NoInode);
    };
    let kind = volume.layout().kind;
    let has = places(&found.stat.node, kind);
    let Some(place) = taken.place_or_behind(wish.directory, found.free, has, most_places(kind))
    else {
        return Err(WriteFault::NoSpace { need: 1, found: 0 });
    };
    Ok(Spot {
        stat: found.stat,
        inode,
        place,
    })
}

/// Free zones, and for each level at which the directory grows the zone that was promised.
#[derive(Drop)]
struct Found {
    promised: Vec<Option<u32>>,
    zones: NumberList,
}

/// The free zones for a file of so many, whose directory grows up to a place.
fn zones_for<D: Disks>(
    alloc: Global,
    volume: &mut Volume<'_, D>,
    stat: &Stat,
    place: u32,
    need: u32,
    taken: &Taken,
) -> Result<Found, WriteFault>
    requires few { need < 2 ^ 31 }
    requires zones { volume.old.layout.zones ≤ taken.now.zones.below }
    requires node { IsNode volume.old stat.now }
    ensures zones { Told (past_of volume.old) (λ now. Gives found_view result
        (zones_for (super_view volume.old.layout) (parts_of (volume_view volume.old) now) (taken_view taken.now)
        stat.now.inode need place)) }
    ensures data { IfOk result (λ found. All (IsDataZone volume.old.layout) found.zones) }
    ensures cause { IfErr result (HasWriteCause (faults_of volume.old) (faults_of volume.new)) }
    ensures later { faults_of volume.old ≤ faults_of volume.new }
    ensures same { SameVolume volume.old volume.new }
{
    let kind = volume.layout().kind;
    let block = place / u32::from(entries_per_block(kind));
    let missing = missing_on_way(volume, &stat.node, block)?;
    let promised = promised_zones(alloc, taken, kind, stat.inode, block, missing)?;
    let fresh = count_fresh(&promised) as u32;
    let zones = taken.free_zones(alloc, volume, need + fresh)?;
    Ok(Found { promised, zones })
}

/// What is chosen for a file.
#[derive(Drop)]
pub struct Choice {
    inode: u32,
    place: u32,
    zones: NumberList,
    blocks: Vec<u32>,
    indirect: Vec<u32>,
    growth: Vec<u32>,
}

impl Model for Choice {
    ghost use Rattle.write_model.specs.Choice as model;

    ghost Value = { model.Choice };

    ghost view = { λ choice. record {
      inode = choice.inode;
      place = choice.place;
      zones = choice.zones;
      blocks = choice.blocks.items;
      indirect = choice.indirect.items;
      growth = choice.growth.items;
    } };
}

impl Choice {
    ghost use Rattle.std.specs.Prelude.{◌≡◌};

    /// The inode.
    pub fn inode(&self) -> u32
        ensures { result ≡ self.now.inode }
    {
        self.inode
    }

    /// The place in the directory.
    pub fn place(&self) -> u32
        ensures { result ≡ self.now.place }
    {
        self.place
    }

    /// The zones that are chosen, the lowest first.
    pub fn zones(&self) -> &[u32]
        ensures { result.now ≡ self.now.zones }
    {
        self.zones.items()
    }

    /// For each block of the file its zone, 0 for a hole.
    pub fn blocks(&self) -> &[u32]
        ensures { result.now ≡ self.now.blocks }
    {
        self.blocks.as_slice()
    }

    /// For each indirect zone of the file, in the order of a walk, its zone, 0 where it isn't made.
    pub fn indirect(&self) -> &[u32]
        ensures { result.now ≡ self.now.indirect }
    {
        self.indirect.as_slice()
    }

    /// The zones by which the directory grows, that of the place's block first.
    pub fn growth(&self) -> &[u32]
        ensures { result.now ≡ self.now.growth }
    {
        self.growth.as_slice()
    }
}

/// What is chosen, once all of it is known.
#[tactic(auto, unfolding(write_model::specs::Choice::choice_with))]
fn choice_with(
    alloc: Global,
    kind: FsKind,
    file: &FileZones,
    inode: u32,
    place: u32,
    found: Found,
) -> Result<Choice, AllocError>
    requires indirect { file.now.indirect.items
        ≡ made_indirect (numbers_in_zone (kind_view kind)) file.now.blocks.items }
    requires need { file.now.need ≡ file_need (kind_view kind) file.now.blocks.items }
    ensures choice { IfOk result (λ choice. choice ≡ choice_with (kind_view kind) file.now.blocks.items inode place
        found.promised.items found.zones) }
    ensures zones { IfOk result (λ choice. choice.zones ≡ found.zones) }
    ensures inode { IfOk result (λ choice. choice.inode ≡ inode) }
    ensures file { IfOk result (λ choice. IsFileOf (kind_view kind) file.now.blocks.items choice) }
{
    let blocks = block_zones(alloc, file, found.zones.items())?;
    let indirect = indirect_zones(alloc, file, found.zones.items())?;
    let behind = zones_behind(file, found.zones.items());
    let growth = completed(alloc, &found.promised, behind)?;
    Ok(Choice {
        inode,
        place,
        zones: found.zones,
        blocks,
        indirect,
        growth,
    })
}

/// What is chosen for a wish, or the first refusal. Nothing is promised.
fn pick<D: Disks>(
    alloc: Global,
    volume: &mut Volume<'_, D>,
    wish: &Wish<'_>,
    taken: &Taken,
) -> Result<Choice, WriteFault>
    requires some { 1 ≤ wish.now.directory }
    requires there { wish.now.directory ≤ volume.old.layout.inodes }
    requires inodes { volume.old.layout.inodes < taken.now.inodes.below }
    requires zones { volume.old.layout.zones ≤ taken.now.zones.below }
    requires holes { All (λ hole. hole < blocks_for wish.now.length) wish.now.holes.now }
    ensures choice { Told (past_of volume.old) (λ now. Gives (λ choice. choice) result
        (choose (super_view volume.old.layout) (parts_of (volume_view volume.old) now) (taken_view taken.now)
        (wish_view wish.now))) }
    ensures suits { IfOk result (SuitsWish volume.old.layout wish.now) }
    ensures cause { IfErr result (HasWriteCause (faults_of volume.old) (faults_of volume.new)) }
    ensures later { faults_of volume.old ≤ faults_of volume.new }
    ensures same { SameVolume volume.old volume.new }
{
    let kind = volume.layout().kind;
    let file = file_zones(alloc, kind, wish.length, wish.holes)?;
    let spot = spot_for(volume, wish, taken)?;
    let found = zones_for(alloc, volume, &spot.stat, spot.place, file.need, taken)?;
    let choice = choice_with(alloc, kind, &file, spot.inode, spot.place, found)?;
    Ok(choice)
}

/// What is chosen for a wish: the lowest free inode and zones that aren't taken, and a place in the directory. It is
/// taken then. Nothing is written.
///
/// # Errors
///
/// The first of these, in this order: the name is too long, the directory can't be read, it has the name, no inode is
/// free, the directory has no free place and can't grow, too few zones are free; or the disk failed, or there is no
/// memory. Nothing more is taken then.
pub fn choose<D: Disks>(
    alloc: Global,
    volume: &mut Volume<'_, D>,
    wish: &Wish<'_>,
    taken: &mut Taken,
) -> Result<Choice, WriteFault>
    requires some { 1 ≤ wish.now.directory }
    requires there { wish.now.directory ≤ volume.old.layout.inodes }
    requires inodes { volume.old.layout.inodes < taken.old.inodes.below }
    requires zones { volume.old.layout.zones ≤ taken.old.zones.below }
    requires holes { All (λ hole. hole < blocks_for wish.now.length) wish.now.holes.now }

    // What is answered.
    ensures choice { Told (past_of volume.old) (λ now. Gives (λ choice. choice) result
        (choose (super_view volume.old.layout) (parts_of (volume_view volume.old) now) (taken_view taken.old)
        (wish_view wish.now))) }
    ensures taken { IfOk result (λ choice. taken.new ≡ with_choice taken.old wish.now.directory choice) }
    ensures suits { IfOk result (SuitsWish volume.old.layout wish.now) }

    // When it is refused.
    ensures refused { OnErr result (taken.new ≡ taken.old) }
    ensures cause { IfErr result (HasWriteCause (faults_of volume.old) (faults_of volume.new)) }
    ensures later { faults_of volume.old ≤ faults_of volume.new }
    ensures same { SameVolume volume.old volume.new }
{
    let choice = pick(alloc, volume, wish, taken)?;
    taken.promise(alloc, wish.directory, &choice)?;
    Ok(choice)
}
