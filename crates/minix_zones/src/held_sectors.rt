// Sectors that were read.
ghost use Rattle.std.specs.Prelude.{◌≡◌, ◌<◌, ℕ, true, false, slice_index, IfSome};
ghost use Rattle.disk_trait.specs.Past.{Image};
ghost use Rattle.minix_zones.specs.Sectors.{HaveSectors};

use sector_parts::Sector;

/// A sector of a disk that was read.
#[derive(Clone, Copy)]
struct HeldSector {
    full: bool,
    sector: u64,
    bytes: Sector,
}

/// Sectors of one disk, each in the place of its number.
#[derive(Drop)]
pub(crate) struct HeldSectors {
    places: [HeldSector; 32],
}

// The place of a sector.
fn place_of(sector: u64) -> usize
    ensures { result < 32 }
{
    (sector % 32) as usize
}

impl HeldSectors {
    /// None is held.
    pub(crate) fn none() -> HeldSectors
        ensures { (disk : ℕ) (now : Image) → HaveSectors disk now result }
    {
        let none = HeldSector {
            full: false,
            sector: 0,
            bytes: [0; 512],
        };
        HeldSectors { places: [none; 32] }
    }

    /// Writes the bytes of a sector, and answers whether it is held.
    pub(crate) fn get(&self, sector: u64, into: &mut Sector) -> bool
        ensures held { result ≡ true → (disk : ℕ) (now : Image) → HaveSectors disk now self.now
            → into.new ≡ now disk sector }
        ensures other { result ≡ false → into.new ≡ into.old }
    {
        let place = &self.places[place_of(sector)];
        if place.full && place.sector == sector {
            *into = place.bytes;
            return true;
        }
        false
    }

    /// A byte of a sector that is held.
    pub(crate) fn byte_of(&self, sector: u64, at: usize) -> Option<u8>
        requires { at < 512 }
        ensures { IfSome result (λ byte. (disk : ℕ) (now : Image) → HaveSectors disk now self.now
            → byte ≡ slice_index (now disk sector) at) }
    {
        let place = &self.places[place_of(sector)];
        if place.full && place.sector == sector {
            return Some(place.bytes[at]);
        }
        None
    }

    /// Holds a sector.
    pub(crate) fn hold(&mut self, sector: u64, bytes: &Sector)
        ensures { (disk : ℕ) (now : Image) → HaveSectors disk now self.old → bytes.now ≡ now disk sector
            → HaveSectors disk now self.new }
    {
        self.places[place_of(sector)] = HeldSector {
            full: true,
            sector,
            bytes: *bytes,
        };
    }
}
