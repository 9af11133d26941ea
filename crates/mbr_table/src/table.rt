// One partition table.
ghost use Rattle.std.specs.Prelude.{◌≡◌, ◌+◌, ◌≤◌, option_map, IfErr, IfSome, IsTrue};
ghost use Rattle.lilo_model.specs.Checks.{seen};
ghost use Rattle.lilo_model.specs.BootSector.{is_bootable};
ghost use Rattle.lilo_model.specs.Partitions.{is_used, is_extended, entry_at, entries_of, table_entries, is_link};
ghost use Rattle.lilo_model.specs.Partitions.{is_plain, link_of, logical_of};
ghost use Rattle.mbr_table.specs.View.{entry_view, table_view, table_fault_view};

use crate::table_fault::TableFault;
use sector_parts::{FieldRef, Sector, part};

/// An entry of a partition table. Its cylinders, heads and sectors aren't used.
#[derive(Clone, Copy, Debug, PartialEq, Eq)]
pub struct Entry {
    pub status: u8,
    /// The type, 0 for no partition.
    pub kind: u8,
    /// The first sector.
    pub start: u32,
    /// How many sectors there are.
    pub count: u32,
}

/// A partition table.
#[derive(Clone, Copy, Debug, PartialEq, Eq)]
pub struct Table4 {
    pub entries: [Entry; 4],
}

/// Reads the partition table in a sector. `NoSignature` has the sector's number.
#[tactic(auto, unfolding(lilo_model::specs::Partitions::table_entries))]
pub fn read_table(sector: &Sector, number: u64) -> Result<Table4, TableFault>
    ensures table { seen table_view table_fault_view result ≡ table_entries number sector.now }
    ensures refusal { IfErr result (λ fault. fault ≡ TableFault.NoSignature number) }
{
    if !has_signature(sector) {
        return Err(TableFault::NoSignature(number));
    }
    Ok(unsigned_table(sector))
}

// Whether a sector ends in 55 AA.
#[tactic(auto, unfolding(lilo_model::specs::BootSector::is_bootable))]
fn has_signature(sector: &Sector) -> bool
    ensures { result ≡ is_bootable sector.now }
{
    part(sector, 0x1FE, 2) == [0x55, 0xAA].as_slice()
}

/// The table in a sector, whether or not it has a signature.
#[tactic(auto, unfolding(lilo_model::specs::Partitions::entries_of))]
pub(crate) fn unsigned_table(sector: &Sector) -> Table4
    ensures { table_view result ≡ entries_of sector.now }
{
    Table4 {
        entries: [
            entry_at(sector, 0x1BE),
            entry_at(sector, 0x1CE),
            entry_at(sector, 0x1DE),
            entry_at(sector, 0x1EE),
        ],
    }
}

// The entry in the 16 bytes from an offset on.
#[tactic(auto, unfolding(lilo_model::specs::Partitions::entry_at))]
fn entry_at(sector: &Sector, at: usize) -> Entry
    requires { at + 16 ≤ 512 }
    ensures { entry_view result ≡ entry_at sector.now at }
{
    let fields = FieldRef { bytes: sector };
    Entry {
        status: fields.u8_at(at),
        kind: fields.u8_at(at + 4),
        start: fields.u32_at(at + 8),
        count: fields.u32_at(at + 12),
    }
}

impl Entry {
    /// Whether it isn't empty.
    pub(crate) fn is_used(&self) -> bool
        ensures { result ≡ is_used (entry_view self.now) }
    {
        self.kind != 0 && self.count != 0
    }

    /// Whether its type is that of an extended partition.
    pub(crate) fn is_extended(&self) -> bool
        ensures { result ≡ is_extended self.now.kind }
    {
        matches!(self.kind, 0x05 | 0x0F | 0x85)
    }

    // Whether it is an extended partition.
    #[tactic(auto, unfolding(lilo_model::specs::Partitions::is_link))]
    fn is_link(&self) -> bool
        ensures { result ≡ is_link (entry_view self.now) }
    {
        self.is_used() && self.is_extended()
    }

    // Whether it is another partition.
    #[tactic(auto, unfolding(lilo_model::specs::Partitions::is_plain))]
    fn is_plain(&self) -> bool
        ensures plain { result ≡ is_plain (entry_view self.now) }
        ensures used { IsTrue result → 1 ≤ self.now.count }
    {
        self.is_used() && !self.is_extended()
    }
}

impl Table4 {
    /// The first entry that is an extended partition: the one that is followed, or a link.
    #[tactic(auto, unfolding(lilo_model::specs::Partitions::link_of))]
    pub(crate) fn link(&self) -> Option<Entry>
        ensures { option_map entry_view result ≡ link_of (table_view self.now) }
    {
        for entry in &self.entries {
            if entry.is_link() {
                return Some(*entry);
            }
        }
        None
    }

    /// The first entry that is another partition.
    #[tactic(auto, unfolding(lilo_model::specs::Partitions::logical_of))]
    pub(crate) fn logical(&self) -> Option<Entry>
        ensures entry { option_map entry_view result ≡ logical_of (table_view self.now) }
        ensures used { IfSome result (λ entry. 1 ≤ entry.count) }
    {
        for entry in &self.entries {
            if entry.is_plain() {
                return Some(*entry);
            }
        }
        None
    }
}
