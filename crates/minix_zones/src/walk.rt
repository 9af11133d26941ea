// A walk over the zones of an inode.
ghost use Rattle.std.specs.Prelude.{◌≤◌};

use crate::held::HeldZones;
use crate::visit::Visit;
use crate::volume::Volume;
use crate::zone::{begins, blocks_under, reach};
use crate::zone_fault::ZoneFault;
use disk_trait::Disks;
use minix_layout::{FsKind, Inode};

/// Three levels of indirect zones lead to a block at most.
const LEVELS: u32 = 3;

/// A walk over the zones of an inode: each once per pointer, an indirect zone before what it names. `next` keeps no
/// zone's bytes, and so each answer is of the volume as it is then.
#[derive(Clone, Copy, Debug)]
pub struct Walk {
    inode: Inode,
    // The next block, and how many levels above it the pointers may be that are still to come.
    index: u32,
    level: u32,
    // The block after the last one.
    end: u32,
    ghost few: { end ≤ 16843015 },
    ghost low: { level ≤ 3 },
}

impl Walk {
    ghost use Rattle.std.specs.Prelude.{◌≡◌, ◌+◌, ◌-◌, ◌<◌, ◌≤◌, true, false, None, Ok, IfOk, IfErr, IfSome, IfNone, OnOk};
    ghost use Rattle.std.specs.Prelude.{OnErr, OnSome};
    ghost use Rattle.disk_trait.specs.Past.{Told};
    ghost use Rattle.lilo_model.specs.MinixLayout.{Super as SuperOf, numbers_in_zone};
    ghost use Rattle.lilo_model.specs.MinixParts.{Parts, parts_of};
    ghost use Rattle.lilo_model.specs.MinixWalk.{visits, begins};
    ghost use Rattle.minix_layout.specs.View.{kind_view, super_view, inode_view};
    ghost use Rattle.minix_zones.specs.View.{HasZoneCause, IsDataZone};
    ghost use Rattle.minix_zones.specs.Volume.{volume_view, past_of, faults_of, SameVolume};
    ghost use Rattle.minix_zones.specs.Held.{AreHeld};
    ghost use Rattle.minix_zones.specs.Walk.{number_of, rest_of, IsEnded, turns_left, HasCome, Meets, Turns, Passes};

    /// A walk over the zones of an inode of a volume of this kind.
    pub fn new(inode: &Inode, kind: FsKind) -> Walk
        ensures { (super : SuperOf) (parts : Parts) → super.kind ≡ kind_view kind
            → rest_of super parts result ≡ visits super parts (inode_view inode.now) }
    {
        Walk {
            inode: *inode,
            index: 0,
            level: LEVELS,
            end: reach(kind),
        }
    }
    /// The next zone, or None at the end.
    ///
    /// # Errors
    ///
    /// `ZoneOutside` with a number that is neither 0 nor a data zone's, or `Device`. The walk has ended then.
    pub fn next<D: Disks>(&mut self, volume: &mut Volume<'_, D>) -> Result<Option<Visit>, ZoneFault>
        // What is met.
        ensures meets { Told (past_of volume.old) (λ now. Meets result
            (rest_of (super_view volume.old.layout) (parts_of (volume_view volume.old) now) self.old)
            (rest_of (super_view volume.old.layout) (parts_of (volume_view volume.old) now) self.new)) }
        ensures data { IfOk result (λ met. IfSome met (λ visit. IsDataZone volume.old.layout visit.zone)) }

        // When it ends.
        ensures fewer { IfOk result (λ met. OnSome met (turns_left self.new < turns_left self.old)) }
        ensures none { IfOk result (λ met. IfNone met (IsEnded self.new)) }
        ensures refused { OnErr result (IsEnded self.new) }
        ensures ended { IsEnded self.old → (result ≡ Ok None) × (self.new ≡ self.old) }

        // When it is refused.
        ensures cause { IfErr result (HasZoneCause (faults_of volume.old) (faults_of volume.new)) }
        ensures later { faults_of volume.old ≤ faults_of volume.new }
        ensures same { SameVolume volume.old volume.new }
    {
        let mut held = HeldZones::of(volume);
        self.next_held(volume, &mut held)
    }

    /// The next zone, as `next` answers it. The indirect zones on the way to it are held, so that a walk over an inode
    /// reads each of them once.
    ///
    /// # Errors
    ///
    /// As `next`.
    #[tactic(auto, unfolding(crate::specs::Walk::rest_of))]
    pub fn next_held<D: Disks>(
        &mut self,
        volume: &mut Volume<'_, D>,
        held: &mut HeldZones,
    ) -> Result<Option<Visit>, ZoneFault>
        requires held { AreHeld volume.old held.old }

        // What is met, and held.
        ensures meets { Told (past_of volume.old) (λ now. Meets result
            (rest_of (super_view volume.old.layout) (parts_of (volume_view volume.old) now) self.old)
            (rest_of (super_view volume.old.layout) (parts_of (volume_view volume.old) now) self.new)) }
        ensures data { IfOk result (λ met. IfSome met (λ visit. IsDataZone volume.old.layout visit.zone)) }
        ensures held { AreHeld volume.new held.new }

        // When it ends.
        ensures fewer { IfOk result (λ met. OnSome met (turns_left self.new < turns_left self.old)) }
        ensures none { IfOk result (λ met. IfNone met (IsEnded self.new)) }
        ensures refused { OnErr result (IsEnded self.new) }
        ensures ended { IsEnded self.old → (result ≡ Ok None) × (self.new ≡ self.old) }

        // When it is refused.
        ensures cause { IfErr result (HasZoneCause (faults_of volume.old) (faults_of volume.new)) }
        ensures later { faults_of volume.old ≤ faults_of volume.new }
        ensures same { SameVolume volume.old volume.new }
    {
        while self.index < self.end {
            if let Some(visit) = self.turn(volume, held)? {
                return Ok(Some(visit));
            }
        }
        Ok(None)
    }

    // One stop: the zone there, or nothing at a hole, after which all its blocks are passed.
    fn turn<D: Disks>(
        &mut self,
        volume: &mut Volume<'_, D>,
        held: &mut HeldZones,
    ) -> Result<Option<Visit>, ZoneFault>
        requires more { self.old.index < self.old.end }
        requires held { AreHeld volume.old held.old }
        ensures turns { Told (past_of volume.old) (λ now. Turns result
            (rest_of (super_view volume.old.layout) (parts_of (volume_view volume.old) now) self.old)
            (rest_of (super_view volume.old.layout) (parts_of (volume_view volume.old) now) self.new)) }
        ensures data { IfOk result (λ met. IfSome met (λ visit. IsDataZone volume.old.layout visit.zone)) }
        ensures fewer { OnOk result (turns_left self.new < turns_left self.old) }
        ensures refused { OnErr result (IsEnded self.new) }
        ensures come { HasCome self.old self.new self.new.index self.new.level }
        ensures held { AreHeld volume.new held.new }
        ensures cause { IfErr result (HasZoneCause (faults_of volume.old) (faults_of volume.new)) }
        ensures later { faults_of volume.old ≤ faults_of volume.new }
        ensures same { SameVolume volume.old volume.new }
    {
        let kind = volume.layout().kind;
        if !begins(kind, self.index, self.level) {
            self.descend(kind);
            return Ok(None);
        }
        match held.number_above(volume, &self.inode, self.index, self.level) {
            Ok(0) => {
                self.pass_holes(volume, held)?;
                Ok(None)
            }
            Ok(zone) => {
                let visit = Visit {
                    zone,
                    index: self.index,
                    indirect: self.level > 0,
                };
                self.step();
                Ok(Some(visit))
            }
            Err(fault) => {
                self.stop();
                Err(fault)
            }
        }
    }

    // Goes down where its block isn't the first that is found through a number at its level: to the next lower level, or
    // to the block itself where it is the first of no indirect zone.
    fn descend(&mut self, kind: FsKind)
        requires none { begins (numbers_in_zone (kind_view kind)) self.old.index self.old.level ≡ false }
        ensures rest { (super : SuperOf) (parts : Parts) → super.kind ≡ kind_view kind
            → rest_of super parts self.old ≡ rest_of super parts self.new }
        ensures lower { self.new.level < self.old.level }
        ensures come { HasCome self.old self.new self.old.index self.new.level }
    {
        if begins(kind, self.index, 1) {
            self.lower();
        } else {
            self.level = 0;
        }
    }

    // Passes the blocks that are found through a hole, and where that is a block itself also those after it that are
    // holes in a row, as far as the zone with their numbers says.
    fn pass_holes<D: Disks>(
        &mut self,
        volume: &mut Volume<'_, D>,
        held: &mut HeldZones,
    ) -> Result<(), ZoneFault>
        requires more { self.old.index < self.old.end }
        requires begun { begins (numbers_in_zone (kind_view volume.old.layout.kind))
            self.old.index self.old.level ≡ true }
        requires hole { Told (past_of volume.old) (λ now. number_of (super_view volume.old.layout)
            (parts_of (volume_view volume.old) now) self.old ≡ Ok 0) }
        requires held { AreHeld volume.old held.old }
        ensures passed { Told (past_of volume.old) (λ now. Passes result
            (rest_of (super_view volume.old.layout) (parts_of (volume_view volume.old) now) self.old)
            (rest_of (super_view volume.old.layout) (parts_of (volume_view volume.old) now) self.new)) }
        ensures fewer { OnOk result (turns_left self.new < turns_left self.old) }
        ensures refused { OnErr result (IsEnded self.new) }
        ensures come { HasCome self.old self.new self.new.index self.new.level }
        ensures held { AreHeld volume.new held.new }
        ensures cause { IfErr result (HasZoneCause (faults_of volume.old) (faults_of volume.new)) }
        ensures later { faults_of volume.old ≤ faults_of volume.new }
        ensures same { SameVolume volume.old volume.new }
    {
        if self.level > 0 {
            self.pass(blocks_under(volume.layout().kind, self.level));
            return Ok(());
        }
        match held.holes_from(volume, &self.inode, self.index) {
            Ok(holes) => {
                self.pass(holes.max(1));
                Ok(())
            }
            Err(fault) => {
                self.stop();
                Err(fault)
            }
        }
    }

    // Passes so many blocks.
    fn pass(&mut self, blocks: u32)
        requires some { 0 < blocks }
        requires few { blocks ≤ 134217728 }
        requires more { self.old.index < self.old.end }
        ensures { HasCome self.old self.new (self.old.index + blocks) 3 }
    {
        self.index += blocks;
        self.level = LEVELS;
    }

    // Goes on after a stop where there was a zone: to what it names, or to the next block.
    fn step(&mut self)
        requires { self.old.index < self.old.end }
        ensures below { 0 < self.old.level
            → HasCome self.old self.new self.old.index (self.old.level - 1) }
        ensures behind { self.old.level ≡ 0
            → HasCome self.old self.new (self.old.index + 1) 3 }
    {
        if self.level > 0 {
            self.lower();
        } else {
            self.pass(1);
        }
    }

    // Goes on to the next lower level.
    fn lower(&mut self)
        requires { 0 < self.old.level }
        ensures { HasCome self.old self.new self.old.index (self.old.level - 1) }
    {
        self.level -= 1;
    }

    // Goes to the end.
    fn stop(&mut self)
        ensures { HasCome self.old self.new self.old.end self.old.level }
    {
        self.index = self.end;
    }
}
