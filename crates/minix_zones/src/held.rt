// The indirect zones on the way to a block.
ghost use Rattle.std.specs.Prelude.{◌≡◌, ◌+◌, ◌<◌, ◌≤◌, slice_index, OnOk, OnErr, IfOk, IfErr};
ghost use Rattle.lilo_model.specs.Faults.{Rose};
ghost use Rattle.disk_trait.specs.Past.{Told};
ghost use Rattle.lilo_model.specs.MinixLayout.{numbers_in_zone, reach};
ghost use Rattle.lilo_model.specs.MinixParts.{parts_of, number_below, follow_at, trail_of, inside, zone_at, block_at};
ghost use Rattle.lilo_model.specs.MinixParts.{at_pointer};
ghost use Rattle.lilo_model.specs.MinixWalk.{stop_pointer};
ghost use Rattle.minix_layout.specs.View.{kind_view, super_view, inode_view};
ghost use Rattle.minix_zones.specs.View.{Gives, HasZoneCause, zone_number, IsZoneAt, IsInside};
ghost use Rattle.minix_zones.specs.Volume.{volume_view, past_of, faults_of, SameVolume};
ghost use Rattle.minix_zones.specs.Held.{AreHeld, IsHeld, AreZeros, FindsHoles};

use crate::volume::Volume;
use crate::zone::{
    ZoneAt, blocks_under, inside, number_in, numbers_in_zone, put_hole, way_to, zeros_from,
    zone_or_hole,
};
use crate::zone_fault::ZoneFault;
use disk_trait::Disks;
use minix_layout::Inode;

/// An indirect zone that was read, or zone 0 where none was.
#[derive(Clone, Copy)]
struct HeldZone {
    zone: u32,
    bytes: [u8; 1024],
}

/// The indirect zones on the way to the block that was looked up last, one a level. The way to the next block
/// mostly leads through the same ones, so that blocks that are looked up in order have each indirect zone read
/// once. What is held is of use for as long as nothing is written to the volume.
#[derive(Drop)]
pub struct HeldZones {
    levels: [HeldZone; 3],
}

impl HeldZone {
    /// Holds a zone: it is read unless it's held already. A refusal leaves what was held.
    fn hold<D: Disks>(&mut self, volume: &mut Volume<'_, D>, zone: u32) -> Result<(), ZoneFault>
        requires some { 0 < zone }
        requires below { zone < volume.old.layout.zones }
        requires held { IsHeld volume.old self.old }
        ensures bytes { OnOk result (Told (past_of volume.old)
            (λ now. self.new.bytes ≡ (parts_of (volume_view volume.old) now).zone zone)) }
        ensures held { IsHeld volume.new self.new }
        ensures device { IfErr result (λ fault. (fault ≡ ZoneFault.Device)
            × Rose (faults_of volume.old) (faults_of volume.new)) }
        ensures later { faults_of volume.old ≤ faults_of volume.new }
        ensures same { SameVolume volume.old volume.new }
    {
        if self.zone == zone {
            return Ok(());
        }
        volume.read_zone(zone, &mut self.bytes)?;
        self.zone = zone;
        Ok(())
    }

    /// The number at an index of an indirect zone, 0 where that zone is a hole.
    #[tactic(auto, unfolding(lilo_model::specs::MinixParts::inside))]
    fn number_below<D: Disks>(
        &mut self,
        volume: &mut Volume<'_, D>,
        zone: u32,
        index: u32,
    ) -> Result<u32, ZoneFault>
        requires zone { IsInside volume.old.layout zone }
        requires index { index < numbers_in_zone (kind_view volume.old.layout.kind) }
        requires held { IsHeld volume.old self.old }
        ensures number { Told (past_of volume.old) (λ now. Gives (λ found. found) result
            (inside (super_view volume.old.layout) (number_below (kind_view volume.old.layout.kind)
            (parts_of (volume_view volume.old) now).zone zone index))) }
        ensures inside { IfOk result (IsInside volume.old.layout) }
        ensures held { IsHeld volume.new self.new }
        ensures cause { IfErr result (HasZoneCause (faults_of volume.old) (faults_of volume.new)) }
        ensures later { faults_of volume.old ≤ faults_of volume.new }
        ensures same { SameVolume volume.old volume.new }
    {
        if zone == 0 {
            return Ok(0);
        }
        self.hold(volume, zone)?;
        let number = number_in(volume.layout().kind, &self.bytes, index);
        inside(volume.layout(), number)
    }

    /// How many numbers are 0 in a row, from an index of an indirect zone on: all of them where that zone is a hole.
    fn zeros_below<D: Disks>(
        &mut self,
        volume: &mut Volume<'_, D>,
        zone: u32,
        index: u32,
    ) -> Result<u32, ZoneFault>
        requires zone { IsInside volume.old.layout zone }
        requires index { index < numbers_in_zone (kind_view volume.old.layout.kind) }
        requires held { IsHeld volume.old self.old }
        ensures zeros { IfOk result (λ count. Told (past_of volume.old) (λ now. AreZeros
            (kind_view volume.old.layout.kind) (parts_of (volume_view volume.old) now).zone zone index count)) }
        ensures within { IfOk result (λ count. index + count ≤ numbers_in_zone (kind_view volume.old.layout.kind)) }
        ensures held { IsHeld volume.new self.new }
        ensures device { IfErr result (λ fault. (fault ≡ ZoneFault.Device)
            × Rose (faults_of volume.old) (faults_of volume.new)) }
        ensures later { faults_of volume.old ≤ faults_of volume.new }
        ensures same { SameVolume volume.old volume.new }
    {
        let kind = volume.layout().kind;
        if zone == 0 {
            return Ok(numbers_in_zone(kind) - index);
        }
        self.hold(volume, zone)?;
        Ok(zeros_from(kind, &self.bytes, index))
    }
}

impl HeldZones {
    /// None of a volume's zones is held yet.
    pub fn of<D: Disks>(_volume: &Volume<'_, D>) -> HeldZones
        ensures { AreHeld _volume.now result }
    {
        let none = HeldZone {
            zone: 0,
            bytes: [0; 1024],
        };
        HeldZones { levels: [none; 3] }
    }

    /// What is at an index of a file, as `zone_at` answers it.
    ///
    /// # Errors
    ///
    /// As `zone_at`.
    #[tactic(auto, unfolding(lilo_model::specs::MinixParts::zone_at))]
    pub fn zone_at<D: Disks>(
        &mut self,
        volume: &mut Volume<'_, D>,
        inode: &Inode,
        index: u32,
    ) -> Result<ZoneAt, ZoneFault>
        requires index { index < reach (kind_view volume.old.layout.kind) }
        requires held { AreHeld volume.old self.old }

        // What is answered, and held.
        ensures zone { Told (past_of volume.old) (λ now. Gives zone_number result
            (zone_at (super_view volume.old.layout) (parts_of (volume_view volume.old) now)
            (inode_view inode.now) index)) }
        ensures data { IfOk result (IsZoneAt volume.old.layout) }
        ensures held { AreHeld volume.new self.new }

        // A number of the inode's own is judged without reading.
        ensures direct { index < 7 → Gives zone_number result
            (inside (super_view volume.old.layout) (slice_index inode.now.zones index)) }
        ensures outside { index < 7 →
            IfErr result (λ fault. fault ≡ ZoneFault.ZoneOutside (slice_index inode.now.zones index)) }

        // When it is refused.
        ensures cause { IfErr result (HasZoneCause (faults_of volume.old) (faults_of volume.new)) }
        ensures later { faults_of volume.old ≤ faults_of volume.new }
        ensures same { SameVolume volume.old volume.new }
    {
        let way = way_to(volume.layout().kind, index);
        let zone = self.follow(volume, inode.zones[way.top], way.depth, way.index)?;
        Ok(zone_or_hole(zone))
    }

    /// The bytes of the block with an index, as `read_at` gives them. A refusal leaves `into` as it was.
    ///
    /// # Errors
    ///
    /// As `zone_at`.
    #[tactic(auto, unfolding(lilo_model::specs::MinixParts::block_at))]
    pub fn read_at<D: Disks>(
        &mut self,
        volume: &mut Volume<'_, D>,
        inode: &Inode,
        index: u32,
        into: &mut [u8; 1024],
    ) -> Result<(), ZoneFault>
        requires index { index < reach (kind_view volume.old.layout.kind) }
        requires held { AreHeld volume.old self.old }

        // What is read, and held.
        ensures bytes { Told (past_of volume.old) (λ now. Gives (λ _. into.new) result
            (block_at (super_view volume.old.layout) (parts_of (volume_view volume.old) now)
            (inode_view inode.now) index)) }
        ensures refused { OnErr result (into.new ≡ into.old) }
        ensures held { AreHeld volume.new self.new }

        // When it is refused.
        ensures cause { IfErr result (HasZoneCause (faults_of volume.old) (faults_of volume.new)) }
        ensures later { faults_of volume.old ≤ faults_of volume.new }
        ensures same { SameVolume volume.old volume.new }
    {
        match self.zone_at(volume, inode, index)? {
            ZoneAt::Hole => {
                put_hole(into);
                Ok(())
            }
            ZoneAt::Zone(zone) => volume.read_zone(zone, into),
        }
    }

    /// The number that is this many levels above a block.
    #[tactic(auto, unfolding(lilo_model::specs::MinixWalk::stop_pointer))]
    pub(crate) fn number_above<D: Disks>(
        &mut self,
        volume: &mut Volume<'_, D>,
        inode: &Inode,
        index: u32,
        level: u32,
    ) -> Result<u32, ZoneFault>
        requires level { level ≤ 3 }
        requires held { AreHeld volume.old self.old }
        ensures number { Told (past_of volume.old) (λ now. Gives (λ found. found) result
            (at_pointer (super_view volume.old.layout) (parts_of (volume_view volume.old) now)
            (inode_view inode.now) (stop_pointer (numbers_in_zone (kind_view volume.old.layout.kind))
            (record { index = index; level = level })))) }
        ensures inside { IfOk result (IsInside volume.old.layout) }
        ensures held { AreHeld volume.new self.new }
        ensures cause { IfErr result (HasZoneCause (faults_of volume.old) (faults_of volume.new)) }
        ensures later { faults_of volume.old ≤ faults_of volume.new }
        ensures same { SameVolume volume.old volume.new }
    {
        let kind = volume.layout().kind;
        let way = way_to(kind, index);
        let index = way.index / blocks_under(kind, level);
        self.follow(
            volume,
            inode.zones[way.top],
            way.depth.saturating_sub(level),
            index,
        )
    }

    /// How many blocks are holes in a row, from one on, as far as the zone with their numbers says; at least 1 where
    /// its own number is 0. An inode's own numbers say nothing of the next.
    pub(crate) fn holes_from<D: Disks>(
        &mut self,
        volume: &mut Volume<'_, D>,
        inode: &Inode,
        index: u32,
    ) -> Result<u32, ZoneFault>
        requires held { AreHeld volume.old self.old }
        ensures holes { Told (past_of volume.old) (λ now. FindsHoles result (super_view volume.old.layout)
            (parts_of (volume_view volume.old) now) (inode_view inode.now) index) }
        ensures few { IfOk result (λ count. count ≤ 512) }
        ensures held { AreHeld volume.new self.new }
        ensures cause { IfErr result (HasZoneCause (faults_of volume.old) (faults_of volume.new)) }
        ensures later { faults_of volume.old ≤ faults_of volume.new }
        ensures same { SameVolume volume.old volume.new }
    {
        let kind = volume.layout().kind;
        let way = way_to(kind, index);
        if way.depth == 0 {
            return Ok(0);
        }
        let per = numbers_in_zone(kind);
        match self.follow(volume, inode.zones[way.top], way.depth - 1, way.index / per) {
            Ok(above) => {
                let held = &mut self.levels[(way.depth - 1) as usize];
                held.zeros_below(volume, above, way.index % per)
            }
            Err(fault) => Err(fault),
        }
    }

    // The number that is this many levels of indirect zones below another one, on the way to a block that
    // is counted from the first one found by it.
    #[tactic(auto, unfolding(lilo_model::specs::MinixParts::follow_at), using(crate::proofs::ZoneLemmas::follow_at_below))]
    fn follow<D: Disks>(
        &mut self,
        volume: &mut Volume<'_, D>,
        zone: u32,
        depth: u32,
        index: u32,
    ) -> Result<u32, ZoneFault>
        requires depth { depth ≤ 3 }
        requires held { AreHeld volume.old self.old }
        ensures number { Told (past_of volume.old) (λ now. Gives (λ found. found) result
            (follow_at (super_view volume.old.layout) (parts_of (volume_view volume.old) now).zone zone
            (trail_of (numbers_in_zone (kind_view volume.old.layout.kind)) depth index))) }
        ensures itself { depth ≡ 0 → Gives (λ found. found) result (inside (super_view volume.old.layout) zone) }
        ensures outside { depth ≡ 0 → IfErr result (λ fault. fault ≡ ZoneFault.ZoneOutside zone) }
        ensures inside { IfOk result (IsInside volume.old.layout) }
        ensures held { AreHeld volume.new self.new }
        ensures cause { IfErr result (HasZoneCause (faults_of volume.old) (faults_of volume.new)) }
        ensures later { faults_of volume.old ≤ faults_of volume.new }
        ensures same { SameVolume volume.old volume.new }
    {
        if depth == 0 {
            return inside(volume.layout(), zone);
        }
        let per = numbers_in_zone(volume.layout().kind);
        let above = self.follow(volume, zone, depth - 1, index / per)?;
        let held = &mut self.levels[(depth - 1) as usize];
        held.number_below(volume, above, index % per)
    }
}
