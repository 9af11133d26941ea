// The partitions of a disk, and where a device lies.
ghost use Rattle.std.specs.Prelude.{◌≡◌, ℕ, ◌↔◌, ◌≤◌, ◌++◌, Ok, All, IfOk, IfErr, IsErrOf, IsTrue};
ghost use Rattle.disk_trait.specs.Past.{Told};
ghost use Rattle.disk_trait.specs.Calls.{SameOf};
ghost use Rattle.sector_address.specs.Machine.{OnDisks};
ghost use Rattle.lilo_model.specs.Faults.{Rose};
ghost use Rattle.lilo_model.specs.Checks.{seen};
ghost use Rattle.lilo_model.specs.Partitions.{partitions_of, logical_partitions, link_of, numbered_span, span_of};
ghost use Rattle.mbr_table.specs.Gives.{Gives, is_of_disk, is_of_device};
ghost use Rattle.mbr_table.specs.Listed.{IsOnDisk, AreListed, disk_span};
ghost use Rattle.mbr_table.specs.View.{device_view, table_view, span_view, partitions_view, table_fault_view};

use crate::chain::{Chain, table_at};
use crate::device::Device;
use crate::partition::{Partition, SizedDisk};
use crate::table::Table4;
use crate::table_fault::TableFault;
use arrayvec::ArrayVec;
use disk_trait::{Disks, Span};

/// The partitions of a disk in order of number: 1 to 4 are the entries of the table in sector 0 that aren't empty,
/// and from 5 on come the logical ones inside the first of these that is extended.
///
/// The first refusal that is met is answered. A table is read once where the tables of the logical partitions rise;
/// else it is read once more for each table after it that doesn't rise.
#[tactic(auto, unfolding(lilo_model::specs::Partitions::partitions_of))]
pub fn partitions<D: Disks>(disks: &mut D, disk: u8) -> Result<ArrayVec<Partition, 63>, TableFault>
    // What is listed.
    ensures partitions { OnDisks D.Disks disks.old (λ now machine. Gives (λ found. partitions_view found.items) result
        (partitions_of now machine disk)) }
    ensures listed { IfOk result (λ found. AreListed disk (D.size_of disks.old disk) 1 64 found.items) }

    // When it is refused.
    ensures no_disk { IsErrOf result (TableFault.NoDisk disk) ↔ (D.size_of disks.old disk ≡ 0) }
    ensures refusal { 1 ≤ D.size_of disks.old disk → IfErr result (λ fault. IsTrue (is_of_disk fault)) }
    ensures device { IsErrOf result TableFault.Device → Rose (D.faults disks.old) (D.faults disks.new) }
    ensures later { D.faults disks.old ≤ D.faults disks.new }
    ensures unread { D.size_of disks.old disk ≡ 0 → D.faults disks.new ≡ D.faults disks.old }

    // Nothing else happens.
    ensures same { SameOf D.Disks disks.old disks.new }
{
    let size = disks.size(disk);
    if size == 0 {
        return Err(TableFault::NoDisk(disk));
    }
    partitions_on(disks, SizedDisk { disk, size })
}

// The partitions of a disk that is there.
#[tactic(auto, unfolding(lilo_model::specs::Partitions::partitions_of))]
fn partitions_on<D: Disks>(
    disks: &mut D,
    disk: SizedDisk,
) -> Result<ArrayVec<Partition, 63>, TableFault>
    requires size { disk.size ≡ D.size_of disks.old disk.disk }
    requires some { 1 ≤ disk.size }
    ensures partitions { OnDisks D.Disks disks.old (λ now machine. Gives (λ found. partitions_view found.items) result
        (partitions_of now machine disk.disk)) }
    ensures listed { IfOk result (λ found. AreListed disk.disk disk.size 1 64 found.items) }
    ensures refusal { IfErr result (λ fault. IsTrue (is_of_disk fault)) }
    ensures same { SameOf D.Disks disks.old disks.new }
    ensures later { D.faults disks.old ≤ D.faults disks.new }
    ensures device { IsErrOf result TableFault.Device → Rose (D.faults disks.old) (D.faults disks.new) }
{
    let table = table_at(disks, disk.disk, 0)?;
    let primary = disk.primary(&table)?;
    let logical = logical_in(disks, disk, &table)?;
    Ok(joined(&primary, &logical))
}

// The logical partitions inside the first extended partition of a table, if there is one.
fn logical_in<D: Disks>(
    disks: &mut D,
    disk: SizedDisk,
    table: &Table4,
) -> Result<ArrayVec<Partition, 59>, TableFault>
    requires { disk.size ≡ D.size_of disks.old disk.disk }
    ensures partitions { Told (D.past disks.old) (λ now. Gives (λ found. partitions_view found.items) result
        (logical_partitions (now disk.disk) disk.size disk.disk (link_of (table_view table.now)))) }
    ensures listed { IfOk result (λ found. AreListed disk.disk disk.size 5 64 found.items) }
    ensures refusal { IfErr result (λ fault. IsTrue (is_of_disk fault)) }
    ensures same { SameOf D.Disks disks.old disks.new }
    ensures later { D.faults disks.old ≤ D.faults disks.new }
    ensures device { IsErrOf result TableFault.Device → Rose (D.faults disks.old) (D.faults disks.new) }
{
    match table.link() {
        Some(entry) => {
            let chain = Chain {
                disk,
                outer: entry.start,
            };
            chain.logical(disks)
        }
        None => Ok(ArrayVec::new()),
    }
}

fn joined(
    primary: &ArrayVec<Partition, 4>,
    logical: &ArrayVec<Partition, 59>,
) -> ArrayVec<Partition, 63>
    ensures { result.items ≡ primary.now.items ++ logical.now.items }
{
    let mut found = ArrayVec::new();
    let _ = found.try_extend_from_slice(primary.as_slice());
    let _ = found.try_extend_from_slice(logical.as_slice());
    found
}

/// The sectors of a device. Partition 0 is the whole disk, for which nothing is read.
#[tactic(auto, unfolding(lilo_model::specs::Partitions::span_of))]
pub fn place_of<D: Disks>(disks: &mut D, device: Device) -> Result<Span, TableFault>
    // Where it lies.
    ensures place { OnDisks D.Disks disks.old (λ now machine. Gives span_view result
        (span_of now machine (device_view device))) }
    ensures whole { device.partition ≡ 0 → 1 ≤ D.size_of disks.old device.disk
        → result ≡ Ok (disk_span device.disk (D.size_of disks.old device.disk)) }
    ensures inside { IfOk result (λ span. IsOnDisk device.disk (D.size_of disks.old device.disk) span) }

    // When it is refused.
    ensures no_disk { IsErrOf result (TableFault.NoDisk device.disk) ↔ (D.size_of disks.old device.disk ≡ 0) }
    ensures refusal { 1 ≤ D.size_of disks.old device.disk
        → IfErr result (λ fault. IsTrue (is_of_device device.partition fault)) }
    ensures device { IsErrOf result TableFault.Device → Rose (D.faults disks.old) (D.faults disks.new) }
    ensures later { D.faults disks.old ≤ D.faults disks.new }
    ensures unread { device.partition ≡ 0 → D.faults disks.new ≡ D.faults disks.old }

    // Nothing else happens.
    ensures same { SameOf D.Disks disks.old disks.new }
{
    let size = disks.size(device.disk);
    if size == 0 {
        return Err(TableFault::NoDisk(device.disk));
    }
    if device.partition == 0 {
        return Ok(Span {
            disk: device.disk,
            start: 0,
            count: size,
        });
    }
    let found = partitions(disks, device.disk)?;
    numbered(found.as_slice(), device.partition)
}

// The span of the partition of a number.
#[tactic(auto, unfolding(lilo_model::specs::Partitions::numbered_span))]
fn numbered(partitions: &[Partition], number: u8) -> Result<Span, TableFault>
    ensures span { seen span_view table_fault_view result ≡ numbered_span number (partitions_view partitions.now) }
    ensures inside { (disk size : ℕ) → All (λ partition. IsOnDisk disk size partition.span) partitions.now
        → IfOk result (λ span. IsOnDisk disk size span) }
    ensures refusal { IfErr result (λ fault. fault ≡ TableFault.NoPartition number) }
{
    for partition in partitions {
        if partition.number == number {
            return Ok(partition.span);
        }
    }
    Err(TableFault::NoPartition(number))
}
