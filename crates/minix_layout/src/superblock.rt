// The superblock.
ghost use Rattle.std.specs.Prelude.{◌≡◌, ◌+◌, ◌*◌, ◌<◌, ◌≤◌, ◌^◌, if◌then◌else◌, IfOk};
ghost use Rattle.lilo_model.specs.Bytes.{number16, number32};
ghost use Rattle.lilo_model.specs.Checks.{seen};
ghost use Rattle.lilo_model.specs.MinixLayout.{super_of, super_checks, super_at, super_bytes, with_counts, table_start};
ghost use Rattle.lilo_model.specs.MinixLayout.{table_blocks, number_size, is_v1, IsSuper};
ghost use Rattle.minix_layout.specs.View.{kind_view, layout_fault_view, super_view};

use crate::kind::FsKind;
use crate::layout_fault::{LayoutFault, SizeField};
use sector_parts::{Sector, put_u16, put_u32, u16_at, u32_at};

/// The bits of one block of a bitmap.
const BLOCK_BITS: u32 = 8192;

/// What a superblock says. Numbers of blocks, inodes and zones.
#[derive(Clone, Copy, Debug, PartialEq, Eq)]
pub struct Super {
    pub kind: FsKind,
    pub inodes: u32,
    /// The zones of the volume, from block 0 on.
    pub zones: u32,
    /// The blocks of the inode bitmap.
    pub imap: u32,
    /// The blocks of the zone bitmap.
    pub zmap: u32,
    /// The first data zone.
    pub first: u32,
    /// The greatest size of a file, which isn't judged.
    pub max_size: u32,
    /// The state, which isn't judged.
    pub state: u16,
}

impl Super {
    /// Reads the first sector of block 1 of a volume of `sectors` sectors: the first fault of the magic
    /// number, the zone size, and then the fields in the order of `SizeField`.
    #[tactic(auto, unfolding(lilo_model::specs::MinixLayout::super_at, lilo_model::specs::MinixLayout::super_in))]
    pub fn read(sector: &Sector, sectors: u64) -> Result<Super, LayoutFault>
        ensures read { seen super_view layout_fault_view result ≡ super_at sector.now sectors }
        ensures whole { IfOk result (λ superblock. IsSuper (super_view superblock) sectors) }
    {
        let Some(kind) = FsKind::of_magic(u16_at(sector, 16)) else {
            return Err(LayoutFault::BadMagic);
        };
        if u16_at(sector, 10) != 0 {
            return Err(LayoutFault::ZoneSize);
        }
        let superblock = super_of(sector, kind);
        superblock.check(sectors)?;
        Ok(superblock)
    }

    /// Writes the fields into a sector. All other bytes stay, among them the number of zones of the other
    /// version.
    #[tactic(auto, unfolding(lilo_model::specs::MinixLayout::super_bytes))]
    pub fn write_into(&self, sector: &mut Sector)
        requires inodes { self.now.inodes < 2 ^ 16 }
        requires zones { self.now.zones < 256 ^ number_size (kind_view self.now.kind) }
        requires imap { self.now.imap < 2 ^ 16 }
        requires zmap { self.now.zmap < 2 ^ 16 }
        requires first { self.now.first < 2 ^ 16 }
        ensures { sector.new ≡ super_bytes (super_view self.now) sector.old }
    {
        self.put_counts(sector);
        put_u16(sector, 4, self.imap as u16);
        put_u16(sector, 6, self.zmap as u16);
        put_u16(sector, 8, self.first as u16);
        put_u16(sector, 10, 0);
        put_u32(sector, 12, self.max_size);
        put_u16(sector, 16, self.kind.magic());
        put_u16(sector, 18, self.state);
    }

    // Writes the numbers of inodes and zones.
    #[tactic(auto, unfolding(lilo_model::specs::MinixLayout::with_counts))]
    fn put_counts(&self, sector: &mut Sector)
        requires inodes { self.now.inodes < 2 ^ 16 }
        requires zones { self.now.zones < 256 ^ number_size (kind_view self.now.kind) }
        ensures { sector.new ≡ with_counts (super_view self.now) sector.old }
    {
        put_u16(sector, 0, self.inodes as u16);
        if self.kind.is_v1() {
            put_u16(sector, 2, self.zones as u16);
        } else {
            put_u32(sector, 20, self.zones);
        }
    }

    // The first field that is out of its range.
    #[tactic(auto, unfolding(lilo_model::specs::MinixLayout::super_checks))]
    fn check(&self, sectors: u64) -> Result<(), LayoutFault>
        requires { (self.now.inodes < 2 ^ 16) × (self.now.imap < 2 ^ 16) × (self.now.zmap < 2 ^ 16) }
        ensures { seen (λ _. tt) layout_fault_view result ≡ super_checks (super_view self.now) sectors }
    {
        if self.inodes < 1 {
            Err(LayoutFault::BadSize(SizeField::Inodes))
        } else if self.zones < 1 || 2 * u64::from(self.zones) > sectors {
            Err(LayoutFault::BadSize(SizeField::Zones))
        } else if BLOCK_BITS * self.imap <= self.inodes {
            Err(LayoutFault::BadSize(SizeField::InodeMap))
        } else if self.first <= self.zones && BLOCK_BITS * self.zmap <= self.zones - self.first {
            Err(LayoutFault::BadSize(SizeField::ZoneMap))
        } else if self.first < self.table_end() || self.zones <= self.first {
            Err(LayoutFault::BadSize(SizeField::FirstZone))
        } else {
            Ok(())
        }
    }

    // The block after the table of inodes.
    fn table_end(&self) -> u32
        requires { (self.now.inodes < 2 ^ 16) × (self.now.imap < 2 ^ 16) × (self.now.zmap < 2 ^ 16) }
        ensures { result ≡ table_start (super_view self.now) + table_blocks (super_view self.now) }
    {
        let table_bytes = self.inodes * u32::from(self.kind.inode_size());
        2 + self.imap + self.zmap + table_bytes.div_ceil(1024)
    }
}

// The fields of a superblock of a kind.
#[tactic(auto, unfolding(lilo_model::specs::MinixLayout::super_of))]
fn super_of(sector: &Sector, kind: FsKind) -> Super
    ensures view { super_view result ≡ super_of (kind_view kind) sector.now }
    ensures small { (result.inodes < 2 ^ 16) × (result.imap < 2 ^ 16)
        × (result.zmap < 2 ^ 16) × (result.first < 2 ^ 16) }
    ensures zones { result.zones < 256 ^ number_size (kind_view result.kind) }
{
    Super {
        kind,
        inodes: u32::from(u16_at(sector, 0)),
        zones: zones_of(sector, kind),
        imap: u32::from(u16_at(sector, 4)),
        zmap: u32::from(u16_at(sector, 6)),
        first: u32::from(u16_at(sector, 8)),
        max_size: u32_at(sector, 12),
        state: u16_at(sector, 18),
    }
}

// The number of zones: version 2 has it in a field of its own.
fn zones_of(sector: &Sector, kind: FsKind) -> u32
    ensures value { result ≡
        (if is_v1 (kind_view kind) then number16 sector.now 2 else number32 sector.now 20) }
    ensures range { result < 256 ^ number_size (kind_view kind) }
{
    if kind.is_v1() {
        u32::from(u16_at(sector, 2))
    } else {
        u32_at(sector, 20)
    }
}
