// What is taken already.
ghost use Rattle.std.specs.Prelude.{◌≡◌, ◌<◌, All};
ghost use Rattle.minix_choice.specs.Taken.{with_numbers};

use crate::growth::growth_zone;
use crate::pick::Choice;
use conf_text::Text;
use disk_trait::Disks;
use minix_layout::FsKind;
use minix_steps::{BitFault, NumberList, NumberSet, find_free, find_inode};
use minix_zones::Volume;
use std::alloc::{AllocError, Global};
use std::marker::Model;

/// A place in a directory that was promised, and the zones by which the directory grows so that it is there: that of
/// the place's own block first.
#[derive(Drop)]
pub(crate) struct Promise {
    directory: u32,
    place: u32,
    growth: Vec<u32>,
}

impl Model for Promise {
    ghost use Rattle.write_model.specs.Wish as model;

    ghost Value = { model.Promise };

    ghost view = { λ promise. record {
      directory = promise.directory;
      place = promise.place;
      growth = promise.growth.items;
    } };
}

impl Promise {
    ghost use Rattle.std.specs.Prelude.{◌≡◌, ◌&&◌, ◌==◌};

    /// A promise.
    pub(crate) fn new(directory: u32, place: u32, growth: Vec<u32>) -> Promise
        ensures { result ≡ record { directory = directory; place = place; growth = growth.items } }
    {
        Promise {
            directory,
            place,
            growth,
        }
    }

    /// Whether it is of a place.
    pub(crate) fn is_of(&self, directory: u32, place: u32) -> bool
        ensures { result ≡ ((self.now.directory == directory) && (self.now.place == place)) }
    {
        self.directory == directory && self.place == place
    }

    /// The directory's inode.
    pub(crate) fn directory(&self) -> u32
        ensures { result ≡ self.now.directory }
    {
        self.directory
    }

    /// The place.
    pub(crate) fn place(&self) -> u32
        ensures { result ≡ self.now.place }
    {
        self.place
    }

    /// The zones by which the directory grows.
    pub(crate) fn growth(&self) -> &[u32]
        ensures { result.now ≡ self.now.growth }
    {
        self.growth.as_slice()
    }
}

/// A name in a directory that doesn't count as there.
#[derive(Drop)]
struct Overlooked {
    directory: u32,
    name: Text,
}

impl Model for Overlooked {
    ghost use Rattle.write_model.specs.Wish as model;

    ghost Value = { model.Overlooked };

    ghost view = { λ other. record { directory = other.directory; name = other.name } };
}

impl Overlooked {
    ghost use Rattle.std.specs.Prelude.{◌≡◌, ◌&&◌, ◌==◌, bytes_eq};

    /// Whether it is this name.
    fn is(&self, directory: u32, name: &[u8]) -> bool
        ensures { result ≡ ((self.now.directory == directory) && bytes_eq self.now.name name.now) }
    {
        self.directory == directory && self.name.bytes() == name
    }
}

/// Adds numbers to a set.
fn add_all(set: &mut NumberSet, numbers: &[u32])
    requires { All (λ number. number < set.old.below) numbers.now }
    ensures { set.new ≡ record set.old { numbers = with_numbers set.old.numbers numbers.now } }
{
    for number in numbers {
        set.add(*number);
    }
}

/// What was promised to files that were chosen before, and what is kept out: zones, inodes, places in directories, and
/// names that are overlooked.
#[derive(Drop)]
pub struct Taken {
    zones: NumberSet,
    inodes: NumberSet,
    promises: Vec<Promise>,
    overlooked: Vec<Overlooked>,
}

impl Model for Taken {
    ghost use Rattle.minix_choice.specs.View.{Promised};

    ghost Value = { Promised };

    ghost view = { λ taken. record {
      zones = taken.zones;
      inodes = taken.inodes;
      promises = taken.promises.items;
      overlooked = taken.overlooked.items;
    } };
}

impl Taken {
    ghost use Rattle.std.specs.Prelude.{◌≡◌, ◌+◌, ◌<◌, ◌≤◌, ◌++◌, [], ◌∷◌, length};
    ghost use Rattle.std.specs.Prelude.{All, OnOk, OnErr, IfOk, IfErr, IfSome};
    ghost use Rattle.minix_steps.specs.Numbers.{with_number};
    ghost use Rattle.minix_layout.specs.View.{kind_view};
    ghost use Rattle.write_model.specs.Places.{is_promised, is_overlooked, first_from, within};
    ghost use Rattle.write_model.specs.Growth.{promised_zone};
    ghost use Rattle.write_model.specs.Choice.{free_inode};
    ghost use Rattle.disk_trait.specs.Past.{Told};
    ghost use Rattle.lilo_model.specs.Faults.{Rose};
    ghost use Rattle.lilo_model.specs.MinixParts.{parts_of};
    ghost use Rattle.minix_layout.specs.View.{super_view};
    ghost use Rattle.minix_zones.specs.View.{IsDataZone};
    ghost use Rattle.minix_zones.specs.Volume.{volume_view, past_of, faults_of, SameVolume};
    ghost use Rattle.minix_steps.specs.Free.{lowest_zones};
    ghost use Rattle.minix_steps.specs.Find.{Gives, HasBitCause};
    ghost use Rattle.minix_choice.specs.View.{taken_view};
    ghost use Rattle.minix_choice.specs.Taken.{with_choice};

    /// Nothing is taken of a volume.
    ///
    /// # Errors
    ///
    /// There is no memory for it.
    pub fn new<D: Disks>(alloc: Global, volume: &Volume<'_, D>) -> Result<Taken, AllocError>
        ensures zones { IfOk result (λ taken. taken.zones ≡ record { below = volume.now.layout.zones; numbers = [] }) }
        ensures inodes { IfOk result (λ taken. taken.inodes
            ≡ record { below = volume.now.layout.inodes + 1; numbers = [] }) }
        ensures promises { IfOk result (λ taken. taken.promises ≡ []) }
        ensures overlooked { IfOk result (λ taken. taken.overlooked ≡ []) }
    {
        let layout = volume.layout();
        Ok(Taken {
            zones: NumberSet::new(alloc, layout.zones)?,
            inodes: NumberSet::new(alloc, layout.inodes + 1)?,
            promises: Vec::new(alloc),
            overlooked: Vec::new(alloc),
        })
    }

    /// Keeps a zone out.
    pub fn avoid_zone(&mut self, zone: u32)
        requires { zone < self.old.zones.below }
        ensures { self.new ≡ record self.old
            { zones = record self.old.zones { numbers = with_number self.old.zones.numbers zone } } }
    {
        self.zones.add(zone);
    }

    /// From now on a name in a directory doesn't count as there.
    ///
    /// # Errors
    ///
    /// There is no memory for it. Nothing has changed then.
    pub fn overlook(&mut self, alloc: Global, directory: u32, name: &[u8]) -> Result<(), AllocError>
        ensures added { OnOk result (self.new ≡ record self.old
            { overlooked = self.old.overlooked ++ (record { directory = directory; name = name.now } ∷ []) }) }
        ensures refused { OnErr result (self.new ≡ self.old) }
    {
        let name = Text::new(alloc, name)?;
        self.overlooked.push(Overlooked { directory, name })?;
        Ok(())
    }

    /// Promises what was chosen for a file in a directory: its zones and its inode, and the place with its growth.
    ///
    /// # Errors
    ///
    /// There is no memory for it. Nothing has changed then.
    pub(crate) fn promise(
        &mut self,
        alloc: Global,
        directory: u32,
        choice: &Choice,
    ) -> Result<(), AllocError>
        requires zones { All (λ zone. zone < self.old.zones.below) choice.now.zones }
        requires inode { choice.now.inode < self.old.inodes.below }
        ensures added { OnOk result (self.new ≡ with_choice self.old directory choice.now) }
        ensures refused { OnErr result (self.new ≡ self.old) }
    {
        let growth = Vec::from_slice(alloc, choice.growth())?;
        self.promises
            .push(Promise::new(directory, choice.place(), growth))?;
        add_all(&mut self.zones, choice.zones());
        self.inodes.add(choice.inode());
        Ok(())
    }

    /// Whether a name is overlooked.
    #[tactic(auto, unfolding(write_model::specs::Places::is_overlooked))]
    pub(crate) fn overlooks(&self, directory: u32, name: &[u8]) -> bool
        ensures { result ≡ is_overlooked self.now.overlooked directory name.now }
    {
        self.overlooked
            .iter()
            .any(|other| other.is(directory, name))
    }

    /// Whether a place was promised.
    #[tactic(auto, unfolding(write_model::specs::Places::is_promised))]
    pub(crate) fn has_promised(&self, directory: u32, place: u32) -> bool
        ensures { result ≡ is_promised self.now.promises directory place }
    {
        self.promises
            .iter()
            .any(|promise| promise.is_of(directory, place))
    }

    /// The zone so many levels above a block of a directory, where it was promised.
    #[tactic(auto, unfolding(write_model::specs::Growth::promised_zone))]
    pub(crate) fn promised_zone(
        &self,
        kind: FsKind,
        directory: u32,
        block: u32,
        level: u32,
    ) -> Option<u32>
        requires { level ≤ 3 }
        ensures { result ≡ promised_zone (kind_view kind) self.now.promises directory block level }
    {
        for promise in &self.promises {
            let zone = growth_zone(kind, directory, block, level, promise);
            if zone.is_some() {
                return zone;
            }
        }
        None
    }

    /// The place of a new entry in a directory that has so many places, of which this one is free, or none is.
    pub(crate) fn place_behind(&self, directory: u32, has: u32, most: u32) -> Option<u32>
        ensures { result ≡ within most (first_from (is_promised self.now.promises directory) has
            (length self.now.promises)) }
    {
        let mut place = has;
        let mut left = self.promises.len();
        while left > 0 {
            if place >= most {
                return None;
            }
            if !self.has_promised(directory, place) {
                return Some(place);
            }
            place += 1;
            left -= 1;
        }
        if place < most { Some(place) } else { None }
    }

    /// The place that was found free, or else the first after the places that a directory has.
    pub(crate) fn place_or_behind(
        &self,
        directory: u32,
        free: Option<u32>,
        has: u32,
        most: u32,
    ) -> Option<u32>
        ensures none { free ≡ None → result ≡ within most (first_from (is_promised self.now.promises directory) has
            (length self.now.promises)) }
        ensures some { IfSome free (λ place. result ≡ Some place) }
    {
        match free {
            Some(place) => Some(place),
            None => self.place_behind(directory, has, most),
        }
    }

    /// The lowest free inode that isn't taken.
    #[tactic(auto, using(crate::proofs::ChooseLemmas::inode_told))]
    pub(crate) fn free_inode<D: Disks>(
        &self,
        volume: &mut Volume<'_, D>,
    ) -> Result<Option<u32>, BitFault>
        requires { volume.old.layout.inodes < self.now.inodes.below }
        ensures inode { IfOk result (λ found. Told (past_of volume.old) (λ now. found
            ≡ free_inode (super_view volume.old.layout) (parts_of (volume_view volume.old) now)
            (taken_view self.now).has_inode)) }
        ensures inside { IfOk result (λ found. IfSome found (λ inode.
            (1 ≤ inode) × (inode ≤ volume.old.layout.inodes))) }
        ensures device { IfErr result (λ fault. (fault ≡ BitFault.Device)
            × Rose (faults_of volume.old) (faults_of volume.new)) }
        ensures later { faults_of volume.old ≤ faults_of volume.new }
        ensures same { SameVolume volume.old volume.new }
    {
        find_inode(volume, &self.inodes)
    }

    /// The lowest free zones that aren't taken, so many.
    pub(crate) fn free_zones<D: Disks>(
        &self,
        alloc: Global,
        volume: &mut Volume<'_, D>,
        need: u32,
    ) -> Result<NumberList, BitFault>
        requires { volume.old.layout.zones ≤ self.now.zones.below }
        ensures zones { Told (past_of volume.old) (λ now. Gives result (lowest_zones (super_view volume.old.layout)
            (parts_of (volume_view volume.old) now) self.now.zones.numbers need)) }
        ensures data { IfOk result (All (IsDataZone volume.old.layout)) }
        ensures cause { IfErr result (HasBitCause need (faults_of volume.old) (faults_of volume.new)) }
        ensures later { faults_of volume.old ≤ faults_of volume.new }
        ensures same { SameVolume volume.old volume.new }
    {
        find_free(alloc, volume, need, &self.zones)
    }
}
