// The chain of tables inside an extended partition.
ghost use Rattle.std.specs.Prelude.{◌≡◌, ◌^◌, ◌≤◌, ◌<◌, [], ◌++◌, nat_eq, ◌+◌, length, All, option_map, option_to_list};
ghost use Rattle.std.specs.Prelude.{IfOk, IfErr, IfSome, IsErrOf, IsTrue};
ghost use Rattle.std.specs.List.{list_any};
ghost use Rattle.disk_trait.specs.Past.{Told};
ghost use Rattle.disk_trait.specs.Calls.{SameOf};
ghost use Rattle.lilo_model.specs.Faults.{Rose};
ghost use Rattle.lilo_model.specs.Partitions.{table_entries, link_of, linked_sector, chain_entries, logical_from};
ghost use Rattle.lilo_model.specs.Partitions.{chain_tables};
ghost use Rattle.mbr_table.specs.Chain.{first_tables};
ghost use Rattle.mbr_table.specs.Gives.{Gives, is_of_disk};
ghost use Rattle.mbr_table.specs.Listed.{AreListed};
ghost use Rattle.mbr_table.specs.View.{table_view, partitions_view};

use crate::partition::{Partition, SizedDisk};
use crate::table::{Table4, read_table, unsigned_table};
use crate::table_fault::TableFault;
use arrayvec::ArrayVec;
use disk_trait::{DiskFault, Disks};

/// Reads the table in a sector of a disk.
pub(crate) fn table_at<D: Disks>(disks: &mut D, disk: u8, sector: u64) -> Result<Table4, TableFault>
    requires { sector < D.size_of disks.old disk }
    ensures table { Told (D.past disks.old) (λ now. Gives table_view result (table_entries sector (now disk sector))) }
    ensures refusal { IfErr result (λ fault. IsTrue (is_of_disk fault)) }
    ensures same { SameOf D.Disks disks.old disks.new }
    ensures later { D.faults disks.old ≤ D.faults disks.new }
    ensures device { IsErrOf result TableFault.Device → Rose (D.faults disks.old) (D.faults disks.new) }
{
    let mut bytes = [0; 512];
    if disks.read(disk, sector, &mut bytes).is_err() {
        return Err(TableFault::Device);
    }
    read_table(&bytes, sector)
}

/// The tables inside an extended partition. No sector is kept but the highest: a table above all those before it isn't
/// one of them. For any other the chain is followed again from its first table on. So where the tables rise, as they do
/// on a disk that was partitioned in order, each is read once; else a table is read once more for each table after it
/// that doesn't rise.
#[derive(Clone, Copy)]
pub struct Chain {
    pub disk: SizedDisk,
    /// The first sector of the extended partition.
    pub outer: u32,
}

impl Chain {
    // The sector to which the link of a table leads.
    fn link_in(self, table: &Table4) -> Option<u64>
        ensures link { result ≡ option_map (λ entry. self.outer + entry.start) (link_of (table_view table.now)) }
        ensures small { IfSome result (λ sector. sector < 2 ^ 34) }
    {
        let entry = table.link()?;
        Some(u64::from(self.outer) + u64::from(entry.start))
    }

    // The sector to which the link of the table in a sector leads. After a table past the disk's end there is none.
    #[tactic(auto, unfolding(lilo_model::specs::Partitions::linked_sector))]
    fn linked<D: Disks>(self, disks: &mut D, sector: u64) -> Result<Option<u64>, TableFault>
        requires { self.disk.size ≡ D.size_of disks.old self.disk.disk }
        ensures linked { IfOk result (λ linked. Told (D.past disks.old) (λ now.
            linked ≡ linked_sector (now self.disk.disk) self.disk.size self.outer sector)) }
        ensures refusal { IfErr result (λ fault. fault ≡ TableFault.Device) }
        ensures same { SameOf D.Disks disks.old disks.new }
        ensures later { D.faults disks.old ≤ D.faults disks.new }
        ensures device { IsErrOf result TableFault.Device → Rose (D.faults disks.old) (D.faults disks.new) }
    {
        let mut bytes = [0; 512];
        match disks.read(self.disk.disk, sector, &mut bytes) {
            Ok(()) => Ok(self.link_in(&unsigned_table(&bytes))),
            Err(DiskFault::OutOfRange) => Ok(None),
            Err(DiskFault::Failed) => Err(TableFault::Device),
        }
    }

    // Whether a sector is that of one of the first so many tables.
    fn is_among<D: Disks>(self, disks: &mut D, tables: u64, sector: u64) -> Result<bool, TableFault>
        requires { self.disk.size ≡ D.size_of disks.old self.disk.disk }
        ensures found { IfOk result (λ found. Told (D.past disks.old) (λ now.
            found ≡ list_any (nat_eq sector) (first_tables now self tables))) }
        ensures refusal { IfErr result (λ fault. fault ≡ TableFault.Device) }
        ensures same { SameOf D.Disks disks.old disks.new }
        ensures later { D.faults disks.old ≤ D.faults disks.new }
        ensures device { IsErrOf result TableFault.Device → Rose (D.faults disks.old) (D.faults disks.new) }
    {
        let mut at = u64::from(self.outer);
        for _ in 0..tables {
            if at == sector {
                return Ok(true);
            }
            match self.linked(disks, at)? {
                Some(next) => at = next,
                None => return Ok(false),
            }
        }
        Ok(false)
    }

    // The same, where the highest sector of these tables is known.
    fn is_earlier<D: Disks>(
        self,
        disks: &mut D,
        tables: u64,
        highest: u64,
        sector: u64,
    ) -> Result<bool, TableFault>
        requires size { self.disk.size ≡ D.size_of disks.old self.disk.disk }
        requires highest { Told (D.past disks.old) (λ now.
            All (λ earlier. earlier ≤ highest) (first_tables now self tables)) }
        ensures found { IfOk result (λ found. Told (D.past disks.old) (λ now.
            found ≡ list_any (nat_eq sector) (first_tables now self tables))) }
        ensures refusal { IfErr result (λ fault. fault ≡ TableFault.Device) }
        ensures same { SameOf D.Disks disks.old disks.new }
        ensures later { D.faults disks.old ≤ D.faults disks.new }
        ensures device { IsErrOf result TableFault.Device → Rose (D.faults disks.old) (D.faults disks.new) }
    {
        if sector > highest {
            return Ok(false);
        }
        self.is_among(disks, tables, sector)
    }

    // The table in a sector, which comes after so many tables of the chain.
    #[tactic(auto, unfolding(lilo_model::specs::Partitions::chain_entries))]
    fn table<D: Disks>(
        self,
        disks: &mut D,
        tables: u64,
        highest: u64,
        sector: u64,
    ) -> Result<Table4, TableFault>
        requires size { self.disk.size ≡ D.size_of disks.old self.disk.disk }
        requires highest { Told (D.past disks.old) (λ now.
            All (λ earlier. earlier ≤ highest) (first_tables now self tables)) }
        ensures table { Told (D.past disks.old) (λ now. Gives table_view result
            (chain_entries (now self.disk.disk) self.disk.size (first_tables now self tables) sector)) }
        ensures inside { IfOk result (λ table. sector < self.disk.size) }
        ensures refusal { IfErr result (λ fault. IsTrue (is_of_disk fault)) }
        ensures same { SameOf D.Disks disks.old disks.new }
        ensures later { D.faults disks.old ≤ D.faults disks.new }
        ensures device { IsErrOf result TableFault.Device → Rose (D.faults disks.old) (D.faults disks.new) }
    {
        if sector == 0 || self.is_earlier(disks, tables, highest, sector)? {
            return Err(TableFault::LoopedChain(sector));
        }
        if sector >= self.disk.size {
            return Err(TableFault::OutsideDisk(0));
        }
        table_at(disks, self.disk.disk, sector)
    }

    /// The logical partitions.
    #[tactic(auto, unfolding(lilo_model::specs::Partitions::chain_tables))]
    pub(crate) fn logical<D: Disks>(
        self,
        disks: &mut D,
    ) -> Result<ArrayVec<Partition, 59>, TableFault>
        requires { self.disk.size ≡ D.size_of disks.old self.disk.disk }
        ensures partitions { Told (D.past disks.old) (λ now. Gives (λ found. partitions_view found.items) result
            (logical_from (now self.disk.disk) self.disk.size self.disk.disk 5 []
            (chain_tables (now self.disk.disk) self.disk.size self.outer))) }
        ensures listed { IfOk result (λ found. AreListed self.disk.disk self.disk.size 5 64 found.items) }
        ensures refusal { IfErr result (λ fault. IsTrue (is_of_disk fault)) }
        ensures same { SameOf D.Disks disks.old disks.new }
        ensures later { D.faults disks.old ≤ D.faults disks.new }
        ensures device { IsErrOf result TableFault.Device → Rose (D.faults disks.old) (D.faults disks.new) }
    {
        let mut found = ArrayVec::new();
        let mut sector = u64::from(self.outer);
        let mut highest = 0;
        for tables in 0..self.disk.size {
            let table = self.table(disks, tables, highest, sector)?;
            let number = found.len() as u8 + 5;
            let partition = self.disk.logical(sector, number, &table)?;
            add(&mut found, partition);
            highest = highest.max(sector);
            match self.link_in(&table) {
                Some(next) => sector = next,
                None => return Ok(found),
            }
        }
        Ok(found)
    }
}

// Adds a partition to those that were found, if there is one.
fn add(found: &mut ArrayVec<Partition, 59>, partition: Option<Partition>)
    requires { IfSome partition (λ partition. length found.old.items ≤ 58) }
    ensures { found.new.items ≡ found.old.items ++ option_to_list partition }
{
    if let Some(partition) = partition {
        found.push(partition);
    }
}
