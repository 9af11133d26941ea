// Where the bits of zones and inodes lie.
ghost use Rattle.std.specs.Prelude.{◌≡◌, ◌+◌, ◌<◌, ◌≤◌};
ghost use Rattle.minix_layout.specs.View.{super_view};
ghost use Rattle.minix_steps.specs.Bitmap.{IsBitmapIn, base_of, end_of, zone_bitmap, inode_bitmap};

use disk_trait::Disks;
use minix_zones::Volume;

/// The bits of a sector.
pub(crate) const SECTOR_BITS: u32 = 4096;

/// The first sector of the inode bitmap, that of block 2.
const FIRST_SECTOR: u64 = 4;

/// A bitmap of a volume. Its first bit is for no number.
#[derive(Clone, Copy)]
pub(crate) struct Bitmap {
    /// Its first sector, counted from the start of the volume.
    pub(crate) sector: u64,
    /// The number whose bit would be the first one.
    pub(crate) origin: u32,
    /// The number after the last one.
    pub(crate) end: u32,
}

impl Bitmap {
    /// The number whose bit is the first in the sector with that of `at`.
    pub(crate) fn base_of(&self, at: u32) -> u32
        requires { self.now.origin ≤ at }
        ensures { result ≡ base_of self.now at }
    {
        at - (at - self.origin) % SECTOR_BITS
    }

    /// The number after the last one whose bit is in the sector with that of `at`.
    pub(crate) fn end_of(&self, at: u32) -> u32
        requires from { self.now.origin ≤ at }
        requires below { at < self.now.end }
        ensures value { result ≡ end_of self.now at }
        ensures behind { at < result }
        ensures within { result ≤ self.now.end }
    {
        let base = self.base_of(at);
        base + (self.end - base).min(SECTOR_BITS)
    }
}

/// The bitmap of the data zones.
#[tactic(auto, using(crate::proofs::BitmapLemmas::zone_bitmap_in, crate::proofs::BitmapLemmas::first_some))]
pub(crate) fn zone_bitmap<D: Disks>(volume: &Volume<'_, D>) -> Bitmap
    ensures value { result ≡ zone_bitmap (super_view volume.now.layout) }
    ensures inside { IsBitmapIn result volume.now.span.count }
    ensures origin { result.origin + 1 ≡ volume.now.layout.first }
{
    let layout = volume.layout();
    Bitmap {
        sector: FIRST_SECTOR + 2 * u64::from(layout.imap),
        origin: layout.first - 1,
        end: layout.zones,
    }
}

/// The bitmap of the inodes.
#[tactic(auto, using(crate::proofs::BitmapLemmas::inode_bitmap_in))]
pub(crate) fn inode_bitmap<D: Disks>(volume: &Volume<'_, D>) -> Bitmap
    ensures value { result ≡ inode_bitmap (super_view volume.now.layout) }
    ensures inside { IsBitmapIn result volume.now.span.count }
{
    Bitmap {
        sector: FIRST_SECTOR,
        origin: 0,
        end: volume.layout().inodes + 1,
    }
}
