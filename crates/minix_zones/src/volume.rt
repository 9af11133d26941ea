// Volumes.
ghost use Rattle.std.specs.Prelude.{◌≡◌, ◌+◌, ◌*◌, ◌<◌, ◌≤◌, ◌^◌, ◌++◌, true};
ghost use Rattle.minix_zones.specs.Sectors.{AreNow};
ghost use Rattle.minix_layout.specs.View.{super_view};
ghost use Rattle.lilo_model.specs.MinixLayout.{IsSuper};

use crate::held_sectors::HeldSectors;
use crate::zone_fault::ZoneFault;
use disk_trait::{DiskFault, Disks, Geometry, Span};
use minix_layout::{Super, where_zone};
use sector_parts::Sector;

/// The sector of block 1 of a volume that has the superblock.
const SUPER_SECTOR: u64 = 2;

/// A span of a disk that holds a Minix volume. It is itself disks: those that it holds.
#[derive(Drop)]
pub struct Volume<'d, D: Disks> {
    disks: &'d mut D,
    span: Span,
    layout: Super,
    // Whether sectors that are read are held, and those that are.
    holds: bool,
    held: HeldSectors,
    ghost on_disk: { span.start + span.count ≤ D.size_of disks.now span.disk },
    ghost numbered: { span.start + span.count < 2 ^ 64 },
    ghost whole: { IsSuper (super_view layout) span.count },
    ghost are_held: { holds ≡ true → AreNow (D.past disks.now) span.disk held },
}

impl<'d, D: Disks> Volume<'d, D> {
    ghost use Rattle.std.specs.Prelude.{◌≡◌, ◌≢◌, ◌+◌, ◌≤◌, ◌<◌, ℕ, slice_index, OnOk, OnErr, IfOk, IsErrOf};
    ghost use Rattle.std.specs.Fn.{FnOnceReturnsAtMut};
    ghost use Rattle.disk_trait.specs.Past.{Told};
    ghost use Rattle.disk_trait.specs.Calls.{EndsWithFlush, HasCauseOf, SameOf, Writes};
    ghost use Rattle.lilo_model.specs.Faults.{Rose};
    ghost use Rattle.lilo_model.specs.MinixLayout.{IsSuper, super_at, super_sector};
    ghost use Rattle.lilo_model.specs.MinixParts.{volume_at, sector_of, parts_of};
    ghost use Rattle.minix_layout.specs.View.{super_view};
    ghost use Rattle.minix_zones.specs.View.{span_view, Gives};
    ghost use Rattle.minix_zones.specs.Volume.{volume_view, past_of, faults_of, KeepsVolume, SameVolume};
    ghost use Rattle.minix_zones.specs.Volume.{HasDeviceCause, WritesSector, Syncs, attached, disks_in};

    /// Reads the superblock of the volume in a span of a disk, and takes the disks.
    ///
    /// # Errors
    ///
    /// `Layout` with the first check of the superblock that fails, or `Device`; either hands the disks back.
    #[tactic(auto, unfolding(lilo_model::specs::MinixParts::volume_at))]
    pub fn attach(disks: &'d mut D, span: Span) -> Result<Volume<'d, D>, (&'d mut D, ZoneFault)>
        requires on_disk { span.start + span.count ≤ D.size_of disks.old span.disk }
        requires room { 4 ≤ span.count }

        // What is answered.
        ensures volume { Told (D.past disks.old) (λ now. Gives volume_view (attached result)
            (volume_at now (span_view span))) }
        ensures span { IfOk result (λ volume. volume.span ≡ span) }

        // When the disk failed.
        ensures device { IsErrOf (attached result) ZoneFault.Device
            → Rose (D.faults disks.old) (D.faults (disks_in result).now) }
        ensures later { D.faults disks.old ≤ D.faults (disks_in result).now }
        ensures no_zone { (zone : ℕ) → IsErrOf (attached result) (ZoneFault.ZoneOutside zone) → ⊥ }

        // The disks, held or handed back.
        ensures same { SameOf D.Disks disks.old (disks_in result).now }
        ensures same_reference { (disks_in result).ghost_name ≡ disks.entry.ghost_name }
    {
        let size = disks.size(span.disk);
        let on_disk = span.count <= size && span.start <= size - span.count;
        prove!(on_disk);
        let mut sector = [0; 512];
        if disks
            .read(span.disk, span.start + SUPER_SECTOR, &mut sector)
            .is_err()
        {
            return Err((disks, ZoneFault::Device));
        }
        match Super::read(&sector, span.count) {
            Ok(layout) => Ok(Volume {
                disks,
                span,
                layout,
                holds: false,
                held: HeldSectors::none(),
            }),
            Err(fault) => Err((disks, ZoneFault::Layout(fault))),
        }
    }

    /// Gives the disks back.
    pub fn detach(self) -> &'d mut D
        ensures same { result.now ≡ self.entry.disks.now }
        ensures same_reference { result.ghost_name ≡ self.entry.disks.ghost_name }
    {
        let Volume {
            disks,
            span: _,
            layout: _,
            holds: _,
            held: _,
        } = self;
        disks
    }

    /// From now on sectors that are read are held, and read once, until something is written.
    pub fn hold_sectors(&mut self)
        ensures faults { faults_of self.new ≡ faults_of self.old }
        ensures same { SameVolume self.old self.new }
    {
        self.held = HeldSectors::none();
        self.holds = true;
    }

    /// Its superblock, which passed the checks.
    pub fn layout(&self) -> &Super
        ensures value { result.now ≡ self.now.layout }
        ensures whole { IsSuper (super_view result.now) self.now.span.count }
    {
        &self.layout
    }

    /// What a work answers on the disks that are held, which changes none of them: one that reads what lies outside the
    /// volume, as a partition table.
    pub fn ask_disks<T, F: FnOnce(&mut D) -> T>(&mut self, work: F) -> T
        requires may { F.IsAlwaysCallable work }
        requires reads { (old new : D) (answer : T)
            → FnOnceReturnsAtMut F.FnOnce work old answer new → SameOf D.Disks old new }
        ensures answer { FnOnceReturnsAtMut F.FnOnce work self.old.disks.now result self.new.disks.now }
        ensures same { SameVolume self.old self.new }
    {
        work(self.disks)
    }

    /// Where it lies.
    pub fn span(&self) -> Span
        ensures value { result ≡ self.now.span }
        ensures on_disk { result.start + result.count ≤ D.size_of self.now.disks.now result.disk }
    {
        self.span
    }

    /// Reads a sector, counted from the start of the volume. A refusal leaves `into` as it was.
    ///
    /// # Errors
    ///
    /// `Device` alone.
    pub fn read_sector(&mut self, sector: u64, into: &mut Sector) -> Result<(), ZoneFault>
        requires { sector < self.old.span.count }
        ensures bytes { OnOk result (Told (past_of self.old)
            (λ now. into.new ≡ sector_of (volume_view self.old) now sector)) }
        ensures refused { OnErr result (into.new ≡ into.old) }
        ensures device { HasDeviceCause self.old self.new ZoneFault.Device result }
        ensures later { faults_of self.old ≤ faults_of self.new }
        ensures same { SameVolume self.old self.new }
    {
        let at = self.span.start + sector;
        if self.holds && self.held.get(at, into) {
            return Ok(());
        }
        self.disks.read(self.span.disk, at, into)?;
        self.held.hold(at, into);
        Ok(())
    }

    /// Reads a byte of a sector, counted from the start of the volume. Where the sector is held, nothing is copied.
    ///
    /// # Errors
    ///
    /// `Device` alone.
    pub fn read_byte(&mut self, sector: u64, at: usize) -> Result<u8, ZoneFault>
        requires inside { sector < self.old.span.count }
        requires at { at < 512 }
        ensures byte { IfOk result (λ byte. Told (past_of self.old)
            (λ now. byte ≡ slice_index (sector_of (volume_view self.old) now sector) at)) }
        ensures device { HasDeviceCause self.old self.new ZoneFault.Device result }
        ensures later { faults_of self.old ≤ faults_of self.new }
        ensures same { SameVolume self.old self.new }
    {
        if self.holds {
            if let Some(byte) = self.held.byte_of(self.span.start + sector, at) {
                return Ok(byte);
            }
        }
        let mut bytes = [0; 512];
        self.read_sector(sector, &mut bytes)?;
        Ok(bytes[at])
    }

    /// Writes a sector, counted from the start of the volume, as `disk_trait::write` does: until the next
    /// flush a stop may leave it written or not, and a write that failed was made or wasn't. The superblock's
    /// sector isn't written.
    ///
    /// # Errors
    ///
    /// `Device` alone.
    pub fn write_sector(&mut self, sector: u64, from: &Sector) -> Result<(), ZoneFault>
        requires inside { sector < self.old.span.count }
        requires no_super { sector ≢ super_sector }
        ensures writes { WritesSector self.old self.new sector from.now ZoneFault.Device result }
    {
        let sector = self.span.start + sector;
        self.holds = false;
        disk_trait::write(self.disks, self.span.disk, sector, from)?;
        Ok(())
    }

    /// Makes all writes so far durable, as `disk_trait::flush` does. A flush that failed did nothing.
    ///
    /// # Errors
    ///
    /// `Device` alone.
    pub fn sync(&mut self) -> Result<(), ZoneFault>
        ensures syncs { Syncs self.old self.new ZoneFault.Device result }
    {
        self.holds = false;
        disk_trait::flush(self.disks)?;
        Ok(())
    }

    /// Writes a sector of any disk, which may lie outside the volume, and makes it durable with all writes before it,
    /// as `disk_trait::write_and_flush` does. Where it is the superblock's, the volume goes on with the one that it
    /// read.
    ///
    /// # Errors
    ///
    /// `OutOfRange` exactly where there is no such disk or sector, and then nothing is written; `Failed`.
    pub fn write_durably(&mut self, disk: u8, sector: u64, from: &Sector) -> Result<(), DiskFault>
        ensures cause { HasCauseOf D.Disks self.old.disks.now self.new.disks.now disk sector result }
        ensures out_of_range { IsErrOf result DiskFault.OutOfRange → past_of self.new ≡ past_of self.old }
        ensures writes { Writes D.Disks self.old.disks.now self.new.disks.now disk sector from.now result }
        ensures flushed { EndsWithFlush D.Disks self.old.disks.now self.new.disks.now result }
        ensures kept { KeepsVolume self.old self.new }
    {
        self.holds = false;
        disk_trait::write_and_flush(self.disks, disk, sector, from)
    }

    /// Reads the 1024 bytes of a zone. A refusal leaves `into` as it was.
    ///
    /// # Errors
    ///
    /// `Device` alone.
    #[tactic(auto, unfolding(lilo_model::specs::MinixParts::parts_of), using(crate::proofs::ZoneLemmas::zones_fit))]
    pub fn read_zone(&mut self, zone: u32, into: &mut [u8; 1024]) -> Result<(), ZoneFault>
        requires { zone < self.old.layout.zones }
        ensures bytes { OnOk result (Told (past_of self.old)
            (λ now. into.new ≡ (parts_of (volume_view self.old) now).zone zone)) }
        ensures refused { OnErr result (into.new ≡ into.old) }
        ensures device { HasDeviceCause self.old self.new ZoneFault.Device result }
        ensures later { faults_of self.old ≤ faults_of self.new }
        ensures same { SameVolume self.old self.new }
    {
        let sector = where_zone(zone);
        let mut front = [0; 512];
        self.read_sector(sector, &mut front)?;
        let mut back = [0; 512];
        self.read_sector(sector + 1, &mut back)?;
        put_halves(into, &front, &back);
        Ok(())
    }
}

// Writes the two sectors of a zone.
fn put_halves(into: &mut [u8; 1024], front: &Sector, back: &Sector)
    ensures { into.new ≡ front.now ++ back.now }
{
    let (first, second) = into.split_at_mut(512);
    first.copy_from_slice(front);
    second.copy_from_slice(back);
}

impl<'d, D: Disks> Disks for Volume<'d, D> {
    ghost use Rattle.std.specs.Prelude.{◌≡◌, ◌⊎◌, OnOk, OnErr, IsErrOf};
    ghost use Rattle.disk_trait.specs.declared.event.Event.TheVariants.{Write, Flush};
    ghost use Rattle.disk_trait.specs.Past.{Told, appended};
    ghost use Rattle.disk_trait.specs.Cause.{HasCause, HasFlushCause};
    ghost use Rattle.minix_zones.specs.Volume.{past_of, faults_of, sizes_of, count_of, geometries_of, KeepsVolume};

    ghost past = { past_of };

    ghost faults = { faults_of };

    ghost size_of = { sizes_of };

    ghost count_of = { count_of };

    ghost geometry_of = { geometries_of };

    fn read(&mut self, disk: u8, sector: u64, into: &mut Sector) -> Result<(), DiskFault>
        ensures cause { HasCause (sizes_of self.old disk) sector (faults_of self.old) (faults_of self.new) result }
        ensures bytes { OnOk result (Told (past_of self.old) (λ now. into.new ≡ now disk sector)) }
        ensures refused { OnErr result (into.new ≡ into.old) }
        ensures past { past_of self.new ≡ past_of self.old }
        ensures size { sizes_of self.new ≡ sizes_of self.old }
        ensures count { count_of self.new ≡ count_of self.old }
        ensures geometry { geometries_of self.new ≡ geometries_of self.old }
        ensures kept { KeepsVolume self.old self.new }
    {
        self.disks.read(disk, sector, into)
    }

    fn write(&mut self, disk: u8, sector: u64, from: &Sector) -> Result<(), DiskFault>
        ensures cause { HasCause (sizes_of self.old disk) sector (faults_of self.old) (faults_of self.new) result }
        ensures ok { OnOk result (past_of self.new ≡ appended (Write disk sector from.now) (past_of self.old)) }
        ensures event { (past_of self.new ≡ appended (Write disk sector from.now) (past_of self.old))
            ⊎ (past_of self.new ≡ past_of self.old) }
        ensures out_of_range { IsErrOf result DiskFault.OutOfRange → past_of self.new ≡ past_of self.old }
        ensures size { sizes_of self.new ≡ sizes_of self.old }
        ensures count { count_of self.new ≡ count_of self.old }
        ensures geometry { geometries_of self.new ≡ geometries_of self.old }
        ensures kept { KeepsVolume self.old self.new }
    {
        self.holds = false;
        self.disks.write(disk, sector, from)
    }

    fn flush(&mut self) -> Result<(), DiskFault>
        ensures cause { HasFlushCause (faults_of self.old) (faults_of self.new) result }
        ensures ok { OnOk result (past_of self.new ≡ appended Flush (past_of self.old)) }
        ensures failed { OnErr result (past_of self.new ≡ past_of self.old) }
        ensures size { sizes_of self.new ≡ sizes_of self.old }
        ensures count { count_of self.new ≡ count_of self.old }
        ensures geometry { geometries_of self.new ≡ geometries_of self.old }
        ensures kept { KeepsVolume self.old self.new }
    {
        self.holds = false;
        self.disks.flush()
    }

    fn count(&self) -> u8 {
        self.disks.count()
    }

    fn size(&self, disk: u8) -> u64 {
        self.disks.size(disk)
    }

    fn geometry(&self, disk: u8) -> Geometry {
        self.disks.geometry(disk)
    }
}
