// Where the bits of zones and inodes lie, and which of them have a use.
ghost use Rattle.std.specs.Prelude.{◌≡◌};
ghost use Rattle.minix_layout.specs.View.{super_view};
ghost use Rattle.minix_reclaim.specs.Bitmap.{zone_bitmap, inode_bitmap};

use disk_trait::Disks;
use minix_survey::Findings;
use minix_zones::Volume;

/// The bits of a sector.
pub(crate) const SECTOR_BITS: u32 = 4096;

/// The first sector of the inode bitmap, that of block 2.
const FIRST_SECTOR: u64 = 4;

/// The inode of the root, which has a use without a name.
const ROOT: u32 = 1;

/// What has a bit.
#[derive(Clone, Copy)]
pub(crate) enum Marked {
    Zones,
    Inodes,
}

/// A bitmap of a volume. Its first bit is for no number.
#[derive(Clone, Copy)]
pub(crate) struct Bitmap {
    pub(crate) of: Marked,
    /// Its first sector, counted from the start of the volume.
    pub(crate) sector: u64,
    /// The number whose bit would be the first one.
    pub(crate) origin: u32,
    /// The number after the last one.
    pub(crate) end: u32,
}

impl Bitmap {
    ghost use Rattle.minix_reclaim.specs.Bitmap.{is_used};

    /// Whether a zone or an inode has a use, by what a survey found.
    pub(crate) fn is_used(&self, found: &Findings, number: u32) -> bool
        ensures { result ≡ is_used self.now.of found.now number }
    {
        match self.of {
            Marked::Zones => found.owner(number).is_some(),
            Marked::Inodes => number == ROOT || found.names(number) != 0,
        }
    }
}

/// The bitmap of the data zones.
#[tactic(auto, using(minix_steps::proofs::BitmapLemmas::first_some))]
pub(crate) fn zone_bitmap<D: Disks>(volume: &Volume<'_, D>) -> Bitmap
    ensures { result ≡ zone_bitmap (super_view volume.now.layout) }
{
    let layout = volume.layout();
    Bitmap {
        of: Marked::Zones,
        sector: FIRST_SECTOR + 2 * u64::from(layout.imap),
        origin: layout.first - 1,
        end: layout.zones,
    }
}

/// The bitmap of the inodes.
pub(crate) fn inode_bitmap<D: Disks>(volume: &Volume<'_, D>) -> Bitmap
    ensures { result ≡ inode_bitmap (super_view volume.now.layout) }
{
    Bitmap {
        of: Marked::Inodes,
        sector: FIRST_SECTOR,
        origin: 0,
        end: volume.layout().inodes + 1,
    }
}
