// Partitions of a disk, as entries of its tables say.
ghost use Rattle.std.specs.Prelude.{◌≡◌, ◌^◌, ◌+◌, ◌≤◌, ◌<◌, option_map, IfOk, IfErr, IfSome, IsTrue};
ghost use Rattle.lilo_model.specs.Checks.{seen};
ghost use Rattle.lilo_model.specs.Partitions.{is_used, listed, listed_from, logical_at, logical_of};
ghost use Rattle.mbr_table.specs.Gives.{is_of_tables};
ghost use Rattle.mbr_table.specs.Listed.{IsOnDisk, AreListed};
ghost use Rattle.mbr_table.specs.View.{entry_view, table_view, partition_view, partitions_view, table_fault_view};

use crate::table::{Entry, Table4};
use crate::table_fault::TableFault;
use arrayvec::ArrayVec;
use disk_trait::Span;

/// A partition of a disk.
#[derive(Clone, Copy, Debug, PartialEq, Eq)]
pub struct Partition {
    /// 1 to 4 for an entry of the table in sector 0, and 5 to 63 for a logical partition.
    pub number: u8,
    /// The type.
    pub kind: u8,
    pub span: Span,
}

/// A partition that is none, for the places of an array that aren't used.
impl Default for Partition {
    fn default() -> Self {
        let span = Span {
            disk: 0,
            start: 0,
            count: 0,
        };
        Partition {
            number: 0,
            kind: 0,
            span,
        }
    }
}

/// A disk, and its sectors.
#[derive(Clone, Copy)]
pub struct SizedDisk {
    pub disk: u8,
    pub size: u64,
}

impl SizedDisk {
    // An entry as a partition: its start counts from a sector.
    #[tactic(auto, unfolding(lilo_model::specs::Partitions::listed))]
    fn listed(self, base: u64, number: u8, entry: &Entry) -> Result<Partition, TableFault>
        requires base { base < 2 ^ 34 }
        requires used { 1 ≤ entry.now.count }
        ensures partition { seen partition_view table_fault_view result
            ≡ listed self.size self.disk base number (entry_view entry.now) }
        ensures number { IfOk result (λ partition. partition.number ≡ number) }
        ensures span { IfOk result (λ partition. IsOnDisk self.disk self.size partition.span) }
        ensures refusal { IfErr result (λ fault. IsTrue (is_of_tables fault)) }
    {
        let start = base + u64::from(entry.start);
        let count = u64::from(entry.count);
        if start + count > self.size {
            return Err(TableFault::OutsideDisk(number));
        }
        let span = Span {
            disk: self.disk,
            start,
            count,
        };
        Ok(Partition {
            number,
            kind: entry.kind,
            span,
        })
    }

    /// The partitions that a table's entries are, 1 to 4.
    pub(crate) fn primary(self, table: &Table4) -> Result<ArrayVec<Partition, 4>, TableFault>
        ensures partitions { seen (λ found. partitions_view found.items) table_fault_view result
            ≡ listed_from self.size self.disk 1 (table_view table.now) }
        ensures listed { IfOk result (λ found. AreListed self.disk self.size 1 5 found.items) }
        ensures refusal { IfErr result (λ fault. IsTrue (is_of_tables fault)) }
    {
        let mut found = ArrayVec::new();
        let mut number = 1;
        for entry in &table.entries {
            if entry.is_used() {
                found.push(self.listed(0, number, entry)?);
            }
            number += 1;
        }
        Ok(found)
    }

    /// The logical partition of a table of the chain, if there is one. Its start counts from the table's sector.
    pub(crate) fn logical(
        self,
        sector: u64,
        number: u8,
        table: &Table4,
    ) -> Result<Option<Partition>, TableFault>
        requires sector { sector < 2 ^ 34 }
        ensures partition { seen (option_map partition_view) table_fault_view result
            ≡ logical_at self.size self.disk sector number (logical_of (table_view table.now)) }
        ensures number { IfOk result (λ found. IfSome found (λ partition. partition.number ≡ number)) }
        ensures few { IfOk result (λ found. IfSome found (λ partition. number ≤ 63)) }
        ensures span { IfOk result (λ found. IfSome found (λ partition.
            IsOnDisk self.disk self.size partition.span)) }
        ensures refusal { IfErr result (λ fault. IsTrue (is_of_tables fault)) }
    {
        let Some(entry) = table.logical() else {
            return Ok(None);
        };
        if number > 63 {
            return Err(TableFault::TooMany);
        }
        Ok(Some(self.listed(sector, number, &entry)?))
    }
}
