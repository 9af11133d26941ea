// Disks without a past.
use disk_trait::{DiskFault, Disks, Geometry, MemDisks};
use sector_parts::Sector;

/// Disks in memory that report no past: so what a call asks of a past that is told holds of them, whatever they hold.
/// What is found on them is looked at, and not proved.
#[derive(Drop)]
pub struct Untold {
    pub disks: MemDisks,
}

impl Disks for Untold {
    ghost use Rattle.std.specs.Prelude.{None, length};
    ghost use Rattle.disk_trait.specs.MemDisks.{sizes_of, geometries_of};

    ghost past = { λ _. None };

    ghost faults = { λ untold. untold.disks.faults };

    ghost size_of = { λ untold. sizes_of untold.disks.start };

    ghost count_of = { λ untold. length untold.disks.start };

    ghost geometry_of = { λ untold. geometries_of untold.disks.start };

    fn read(&mut self, disk: u8, sector: u64, into: &mut Sector) -> Result<(), DiskFault> {
        self.disks.read(disk, sector, into)
    }

    fn write(&mut self, disk: u8, sector: u64, from: &Sector) -> Result<(), DiskFault> {
        self.disks.write(disk, sector, from)
    }

    fn flush(&mut self) -> Result<(), DiskFault> {
        self.disks.flush()
    }

    fn count(&self) -> u8 {
        self.disks.count()
    }

    fn size(&self, disk: u8) -> u64 {
        self.disks.size(disk)
    }

    fn geometry(&self, disk: u8) -> Geometry {
        self.disks.geometry(disk)
    }
}
