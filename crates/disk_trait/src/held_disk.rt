// One disk in memory.
ghost use Rattle.std.specs.Prelude.{◌≡◌, ◌<◌, IfOk, length, slice_set, slice_index_or};
ghost use Rattle.disk_trait.specs.MemDisks.{StartDisk, zero_disk, zero_sector};

use crate::{Geometry, MemDisk};
use sector_parts::Sector;
use std::alloc::{AllocError, Global};
use std::marker::Model;

/// A disk in memory, as it was at first.
#[derive(Drop)]
pub(crate) struct HeldDisk {
    sectors: Vec<Sector>,
    geometry: Geometry,
}

impl Model for HeldDisk {
    ghost Value = { StartDisk };

    ghost view = { λ disk. record { sectors = disk.sectors.items; geometry = disk.geometry } };
}

impl HeldDisk {
    /// A disk of zero bytes.
    pub(crate) fn new(alloc: Global, disk: &MemDisk) -> Result<HeldDisk, AllocError>
        ensures { IfOk result (λ held. held ≡ zero_disk disk.now) }
    {
        let mut sectors = Vec::new(alloc);
        sectors.resize(disk.sectors as usize, zero_sector())?;
        Ok(HeldDisk {
            sectors,
            geometry: disk.geometry,
        })
    }

    /// Another disk with the same bytes.
    pub(crate) fn copy(&self, alloc: Global) -> Result<HeldDisk, AllocError>
        ensures { IfOk result (λ made. made ≡ self.now) }
    {
        Ok(HeldDisk {
            sectors: Vec::from_slice(alloc, &self.sectors)?,
            geometry: self.geometry,
        })
    }

    /// How many sectors there are.
    pub(crate) fn size(&self) -> u64
        ensures { result ≡ length self.now.sectors }
    {
        self.sectors.len() as u64
    }

    pub(crate) fn geometry(&self) -> Geometry
        ensures { result ≡ self.now.geometry }
    {
        self.geometry
    }

    /// The bytes of a sector.
    pub(crate) fn sector(&self, sector: u64) -> &Sector
        requires { sector < length self.now.sectors }
        ensures { result.now ≡ slice_index_or self.now.sectors sector zero_sector }
    {
        &self.sectors[sector as usize]
    }

    /// Changes the bytes of a sector.
    pub(crate) fn set(&mut self, sector: u64, bytes: &Sector)
        requires { sector < length self.old.sectors }
        ensures { self.new ≡ record self.old { sectors = slice_set self.old.sectors sector bytes.now } }
    {
        self.sectors[sector as usize] = *bytes;
    }
}

#[tactic(auto, unfolding(crate::specs::MemDisks::zero_sector))]
fn zero_sector() -> Sector
    ensures { result ≡ zero_sector }
{
    [0; 512]
}
