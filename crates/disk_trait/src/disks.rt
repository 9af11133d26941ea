// The trait of disks.
ghost use Rattle.std.specs.Prelude.{◌≡◌, ◌≤◌, ◌⊎◌, ℕ, Option, OnOk, OnErr, IsErrOf};
ghost use Rattle.disk_trait.specs.declared.geometry.Geometry.{Geometry as GeometryOf};
ghost use Rattle.disk_trait.specs.declared.event.Event.TheVariants.{Write, Flush};
ghost use Rattle.disk_trait.specs.Past.{Past, Told, appended};
ghost use Rattle.disk_trait.specs.Cause.{HasCause, HasFlushCause};

use crate::Geometry;
use sector_parts::Sector;

/// Neighbouring sectors of one disk.
#[derive(Clone, Copy, Debug, PartialEq, Eq)]
pub struct Span {
    pub disk: u8,
    /// The first sector.
    pub start: u64,
    /// How many sectors there are.
    pub count: u64,
}

/// Why a call on a disk was refused.
#[derive(Clone, Copy, Debug, PartialEq, Eq)]
pub enum DiskFault {
    /// The device failed.
    Failed,
    /// There is no such disk, or no such sector of it.
    OutOfRange,
}

/// Where a command is that changes what boots: before, in, or after the one write that does it.
#[derive(Clone, Copy, Debug, PartialEq, Eq)]
pub enum Phase {
    /// No such write was begun.
    Before,
    /// It was begun, and isn't known to be durable.
    Commit,
    /// It is durable.
    After,
}

/// Up to four disks. Their number, sizes and geometries never change.
pub trait Disks {
    /// What the disks held at first and what was done since, where they report it.
    ghost past: { Self → Option Past };

    /// How often a device has failed. It never falls, and stays at its last value.
    ghost faults: { Self → ℕ };

    /// The sectors of each disk, 0 for one that isn't there.
    ghost size_of: { Self → ℕ → ℕ };

    /// How many disks there are room for.
    ghost count_of: { Self → ℕ };

    /// The division of each disk into tracks.
    ghost geometry_of: { Self → ℕ → GeometryOf };

    /// Reads a sector. A refusal leaves `into` as it was.
    ///
    /// # Errors
    ///
    /// `OutOfRange` where there is no such sector, and then the device isn't tried; `Failed` where it failed.
    fn read(&mut self, disk: u8, sector: u64, into: &mut Sector) -> Result<(), DiskFault>
        ensures cause { HasCause (size_of self.old disk) sector (faults self.old) (faults self.new) result }
        ensures bytes { OnOk result (Told (past self.old) (λ now. into.new ≡ now disk sector)) }
        ensures refused { OnErr result (into.new ≡ into.old) }
        ensures past { past self.new ≡ past self.old }
        ensures size { size_of self.new ≡ size_of self.old }
        ensures count { count_of self.new ≡ count_of self.old }
        ensures geometry { geometry_of self.new ≡ geometry_of self.old };

    /// Writes a sector. A write that failed was made or wasn't.
    ///
    /// # Errors
    ///
    /// As for a read. What is out of range changes nothing.
    fn write(&mut self, disk: u8, sector: u64, from: &Sector) -> Result<(), DiskFault>
        ensures cause { HasCause (size_of self.old disk) sector (faults self.old) (faults self.new) result }
        ensures ok { OnOk result (past self.new ≡ appended (Write disk sector from.now) (past self.old)) }
        ensures event { (past self.new ≡ appended (Write disk sector from.now) (past self.old))
            ⊎ (past self.new ≡ past self.old) }
        ensures out_of_range { IsErrOf result DiskFault.OutOfRange → past self.new ≡ past self.old }
        ensures size { size_of self.new ≡ size_of self.old }
        ensures count { count_of self.new ≡ count_of self.old }
        ensures geometry { geometry_of self.new ≡ geometry_of self.old };

    /// Makes all writes so far durable, on all disks. A flush that failed did nothing.
    ///
    /// # Errors
    ///
    /// `Failed` alone, where a device failed.
    fn flush(&mut self) -> Result<(), DiskFault>
        ensures cause { HasFlushCause (faults self.old) (faults self.new) result }
        ensures ok { OnOk result (past self.new ≡ appended Flush (past self.old)) }
        ensures failed { OnErr result (past self.new ≡ past self.old) }
        ensures size { size_of self.new ≡ size_of self.old }
        ensures count { count_of self.new ≡ count_of self.old }
        ensures geometry { geometry_of self.new ≡ geometry_of self.old };

    /// How many disks there are room for, at most 4.
    fn count(&self) -> u8
        ensures count { result ≡ count_of self.now }
        ensures few { result ≤ 4 };

    /// The sectors of a disk, 0 for one that isn't there.
    fn size(&self, disk: u8) -> u64
        ensures size { result ≡ size_of self.now disk }
        ensures absent { count_of self.now ≤ disk → result ≡ 0 };

    /// The heads and the sectors per track of a disk.
    fn geometry(&self, disk: u8) -> Geometry
        ensures { result ≡ geometry_of self.now disk };
}
