// The search for a volume.
ghost use Rattle.std.specs.Prelude.{◌≡◌, ◌∷◌, [], ◌+◌, ◌≤◌, nat_le, true, Ok, option_map, find, All};
ghost use Rattle.std.specs.Prelude.{IfOk, IfErr, IsErrOf, IfSome};
ghost use Rattle.disk_trait.specs.Past.{Told};
ghost use Rattle.disk_trait.specs.Calls.{SameOf};
ghost use Rattle.sector_address.specs.Machine.{OnDisks};
ghost use Rattle.lilo_model.specs.Faults.{Rose};
ghost use Rattle.lilo_model.specs.Devices.{last_partition};
ghost use Rattle.lilo_model.specs.Partitions.{partitions_of};
ghost use Rattle.lilo_model.specs.VolumeSearch.{has_magic, holds_volume, searched_partitions, searched_on};
ghost use Rattle.lilo_model.specs.VolumeSearch.{ends_search, first_volume, named_volume, volume_place};
ghost use Rattle.mbr_table.specs.View.{device_view, span_view, partition_view, partitions_view};
ghost use Rattle.mbr_table.specs.Listed.{IsOnDisk};
ghost use Rattle.minix_search.specs.View.{Gives, Ends, HasRoom, has_no_table};

use crate::volume_fault::VolumeFault;
use disk_trait::{Disks, Span};
use mbr_table::{Device, Partition, TableFault, partitions, place_of};
use minix_layout::{LayoutFault, Super};
use sector_parts::Sector;

/// The fewest sectors in which block 1 lies whole.
const LEAST_SECTORS: u64 = 4;
/// The sector of block 1 that has the superblock.
const SUPER_SECTOR: u64 = 2;
/// The disks that are searched.
const DISKS: u8 = 4;

/// A device, and where it lies.
#[derive(Clone, Copy, Debug, PartialEq, Eq)]
pub struct Located {
    pub device: Device,
    pub span: Span,
}

/// Where the volume lies: on the device `root`, where one is given, which must have four sectors; else on the first
/// device whose block 1 has a magic number of a Minix superblock. For each disk from 0 these are the whole disk, and
/// then by number those of its partitions that have a name. A disk that is absent is passed over, and one without a
/// partition table in its sector 0 is searched as a whole alone; a table that is refused otherwise ends the search.
///
/// Each candidate's sector 2 is read once, and a disk's tables once where they rise.
///
/// # Errors
///
/// There is no volume, or `root` has no room for one; `root` isn't found, or a table is refused; a disk failed.
#[tactic(auto, unfolding(lilo_model::specs::VolumeSearch::volume_place))]
pub fn find_volume<D: Disks>(disks: &mut D, root: Option<Device>) -> Result<Located, VolumeFault>
    // What is found.
    ensures volume { OnDisks D.Disks disks.old (λ now machine. Gives result
        (volume_place now machine (option_map device_view root))) }
    ensures room { IfOk result (λ found. HasRoom (D.size_of disks.old found.span.disk) found.span) }

    // When it is refused.
    ensures device { IsErrOf result (VolumeFault.Place TableFault.Device)
        → Rose (D.faults disks.old) (D.faults disks.new) }
    ensures later { D.faults disks.old ≤ D.faults disks.new }

    // Nothing else happens.
    ensures same { SameOf D.Disks disks.old disks.new }
{
    match root {
        Some(device) => named_volume(disks, device),
        None => first_volume(disks),
    }
}

// A device that is named, where it has room for a volume.
#[tactic(auto, unfolding(lilo_model::specs::VolumeSearch::named_volume))]
fn named_volume<D: Disks>(disks: &mut D, device: Device) -> Result<Located, VolumeFault>
    ensures volume { OnDisks D.Disks disks.old (λ now machine. Gives result
        (named_volume now machine (device_view device))) }
    ensures room { IfOk result (λ found. HasRoom (D.size_of disks.old found.span.disk) found.span) }
    ensures device { IsErrOf result (VolumeFault.Place TableFault.Device)
        → Rose (D.faults disks.old) (D.faults disks.new) }
    ensures later { D.faults disks.old ≤ D.faults disks.new }
    ensures same { SameOf D.Disks disks.old disks.new }
{
    match place_of(disks, device) {
        Ok(span) => {
            if span.count < LEAST_SECTORS {
                return Err(VolumeFault::NoVolume);
            }
            Ok(Located { device, span })
        }
        Err(fault) => Err(VolumeFault::Place(fault)),
    }
}

// The first device that has a volume.
fn first_volume<D: Disks>(disks: &mut D) -> Result<Located, VolumeFault>
    ensures volume { OnDisks D.Disks disks.old (λ now machine. Gives result
        (first_volume now machine)) }
    ensures room { IfOk result (λ found. HasRoom (D.size_of disks.old found.span.disk) found.span) }
    ensures device { IsErrOf result (VolumeFault.Place TableFault.Device)
        → Rose (D.faults disks.old) (D.faults disks.new) }
    ensures later { D.faults disks.old ≤ D.faults disks.new }
    ensures same { SameOf D.Disks disks.old disks.new }
{
    for disk in 0..DISKS {
        match volume_on(disks, disk) {
            Ok(Some(found)) => return Ok(found),
            Ok(None) => {}
            Err(fault) => return Err(VolumeFault::Place(fault)),
        }
    }
    Err(VolumeFault::NoVolume)
}

// The first device of a disk that has a volume: the whole disk, or a partition.
#[tactic(auto, unfolding(lilo_model::specs::VolumeSearch::searched_on))]
fn volume_on<D: Disks>(disks: &mut D, disk: u8) -> Result<Option<Located>, TableFault>
    ensures volume { OnDisks D.Disks disks.old (λ now machine. Ends result (find (ends_search now)
        (searched_on now machine disk))) }
    ensures room { IfOk result (λ found. IfSome found
        (λ found. HasRoom (D.size_of disks.old found.span.disk) found.span)) }
    ensures device { IsErrOf result TableFault.Device → Rose (D.faults disks.old) (D.faults disks.new) }
    ensures later { D.faults disks.old ≤ D.faults disks.new }
    ensures same { SameOf D.Disks disks.old disks.new }
{
    let count = disks.size(disk);
    if count == 0 {
        return Ok(None);
    }
    let span = Span {
        disk,
        start: 0,
        count,
    };
    if holds_volume(disks, &span)? {
        let device = Device { disk, partition: 0 };
        return Ok(Some(Located { device, span }));
    }
    volume_in_table(disks, disk)
}

// The first partition of a disk that has a volume.
#[tactic(auto, unfolding(lilo_model::specs::VolumeSearch::searched_partitions))]
fn volume_in_table<D: Disks>(disks: &mut D, disk: u8) -> Result<Option<Located>, TableFault>
    requires { 1 ≤ D.size_of disks.old disk }
    ensures volume { OnDisks D.Disks disks.old (λ now machine. Ends result (find (ends_search now)
        (searched_partitions disk (partitions_of now machine disk)))) }
    ensures room { IfOk result (λ found. IfSome found
        (λ found. HasRoom (D.size_of disks.old found.span.disk) found.span)) }
    ensures device { IsErrOf result TableFault.Device → Rose (D.faults disks.old) (D.faults disks.new) }
    ensures later { D.faults disks.old ≤ D.faults disks.new }
    ensures same { SameOf D.Disks disks.old disks.new }
{
    match partitions(disks, disk) {
        Ok(found) => volume_among(disks, disk, found.as_slice()),
        Err(fault) => {
            if has_no_table(fault) {
                Ok(None)
            } else {
                Err(fault)
            }
        }
    }
}

// Whether a refusal says that a disk's sector 0 is no table.
fn has_no_table(fault: TableFault) -> bool
    ensures { result ≡ has_no_table fault }
{
    match fault {
        TableFault::NoSignature(sector) => sector == 0,
        TableFault::OutsideDisk(_)
        | TableFault::LoopedChain(_)
        | TableFault::TooMany
        | TableFault::UnknownDevice
        | TableFault::NoPartition(_)
        | TableFault::NoDisk(_)
        | TableFault::Device => false,
    }
}

// The first of some partitions that has a name and a volume.
fn volume_among<D: Disks>(
    disks: &mut D,
    disk: u8,
    partitions: &[Partition],
) -> Result<Option<Located>, TableFault>
    requires { All (λ partition. IsOnDisk disk (D.size_of disks.old disk) partition.span) partitions.now }
    ensures volume { Told (D.past disks.old) (λ now. Ends result (find (ends_search now)
        (searched_partitions disk (Ok (partitions_view partitions.now))))) }
    ensures room { IfOk result (λ found. IfSome found
        (λ found. HasRoom (D.size_of disks.old found.span.disk) found.span)) }
    ensures device { IsErrOf result TableFault.Device → Rose (D.faults disks.old) (D.faults disks.new) }
    ensures later { D.faults disks.old ≤ D.faults disks.new }
    ensures same { SameOf D.Disks disks.old disks.new }
{
    for partition in partitions {
        match volume_at(disks, disk, partition) {
            Ok(Some(found)) => return Ok(Some(found)),
            Ok(None) => {}
            Err(fault) => return Err(fault),
        }
    }
    Ok(None)
}

// A partition, where it has a name and a volume.
#[tactic(auto, unfolding(lilo_model::specs::VolumeSearch::searched_partitions))]
fn volume_at<D: Disks>(
    disks: &mut D,
    disk: u8,
    partition: &Partition,
) -> Result<Option<Located>, TableFault>
    requires { IsOnDisk disk (D.size_of disks.old disk) partition.now.span }
    ensures volume { Told (D.past disks.old) (λ now. Ends result (find (ends_search now)
        (searched_partitions disk (Ok (partition_view partition.now ∷ []))))) }
    ensures room { IfOk result (λ found. IfSome found
        (λ found. HasRoom (D.size_of disks.old found.span.disk) found.span)) }
    ensures device { IsErrOf result TableFault.Device → Rose (D.faults disks.old) (D.faults disks.new) }
    ensures later { D.faults disks.old ≤ D.faults disks.new }
    ensures same { SameOf D.Disks disks.old disks.new }
{
    if !has_name(disk, partition.number) {
        return Ok(None);
    }
    let span = partition.span;
    if !holds_volume(disks, &span)? {
        return Ok(None);
    }
    let device = Device {
        disk,
        partition: partition.number,
    };
    Ok(Some(Located { device, span }))
}

// Whether a partition of a disk has a name.
#[tactic(auto, unfolding(lilo_model::specs::Devices::last_partition))]
fn has_name(disk: u8, number: u8) -> bool
    ensures { result ≡ nat_le number (last_partition disk) }
{
    number <= if disk <= 1 { 63 } else { 15 }
}

// Whether a volume begins where some sectors lie.
#[tactic(auto, unfolding(lilo_model::specs::VolumeSearch::holds_volume))]
fn holds_volume<D: Disks>(disks: &mut D, span: &Span) -> Result<bool, TableFault>
    requires { span.now.start + span.now.count ≤ D.size_of disks.old span.now.disk }
    ensures holds { Told (D.past disks.old) (λ now.
        IfOk result (λ found. found ≡ holds_volume now (span_view span.now))) }
    ensures room { IfOk result (λ found. found ≡ true → HasRoom (D.size_of disks.old span.now.disk) span.now) }
    ensures refused { IfErr result (λ fault. fault ≡ TableFault.Device) }
    ensures device { IsErrOf result TableFault.Device → Rose (D.faults disks.old) (D.faults disks.new) }
    ensures later { D.faults disks.old ≤ D.faults disks.new }
    ensures same { SameOf D.Disks disks.old disks.new }
{
    let size = disks.size(span.disk);
    let on_disk = span.count <= size && span.start <= size - span.count;
    prove!(on_disk);
    if span.count < LEAST_SECTORS {
        return Ok(false);
    }
    let mut sector = [0; 512];
    match disks.read(span.disk, span.start + SUPER_SECTOR, &mut sector) {
        Ok(()) => Ok(has_magic(&sector, span.count)),
        Err(_) => Err(TableFault::Device),
    }
}

// Whether a sector has a magic number of a superblock.
fn has_magic(sector: &Sector, sectors: u64) -> bool
    ensures { result ≡ has_magic sector.now }
{
    !matches!(Super::read(sector, sectors), Err(LayoutFault::BadMagic))
}
