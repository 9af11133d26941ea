// Names and numbers of devices.
ghost use Rattle.std.specs.Prelude.{◌≡◌, ℕ, ◌≤◌, Some, None, IfOk, IfSome, OnErr, option_map};
ghost use Rattle.lilo_model.specs.Checks.{seen};
ghost use Rattle.lilo_model.specs.Devices as model;
ghost use Rattle.lilo_model.specs.Devices.{IsDevice, disk_name, device_name, device_at, device_number};
ghost use Rattle.lilo_model.specs.Partitions.{named_device};
ghost use Rattle.mbr_table.specs.Names.{one_digit, two_digits, partition_at};
ghost use Rattle.mbr_table.specs.View.{device_view, table_fault_view};

use crate::table_fault::TableFault;

/// A disk, or a partition of one.
#[derive(Clone, Copy, Debug, PartialEq, Eq, Default)]
pub struct Device {
    /// The disk: 0 and 1 are hda and hdb, 2 and 3 are sda and sdb.
    pub disk: u8,
    /// The partition, or 0 for the whole disk.
    pub partition: u8,
}

/// The device of a name: `/dev/` with hda, hdb, sda or sdb, and then the number of a partition, 1 to 63
/// of the first two and 1 to 15 of the others, or nothing. All else is an `UnknownDevice`.
pub fn device_of(name: &[u8]) -> Result<Device, TableFault>
    ensures device { seen device_view table_fault_view result ≡ named_device name.now }
    ensures found { IfOk result (λ device. device_at name.now ≡ Some (device_view device)) }
    ensures unknown { OnErr result (device_at name.now ≡ None) }

    // In terms of names.
    ensures named { IfOk result (λ device. IsDevice (device_view device)) }
    ensures name { IfOk result (λ device. name.now ≡ device_name (device_view device)) }
{
    match read_name(name) {
        Some(device) => Ok(device),
        None => Err(TableFault::UnknownDevice),
    }
}

/// The number of a device: 0x300, 0x340, 0x800 or 0x810 for the disk, plus that of the partition.
#[tactic(auto, unfolding(lilo_model::specs::Devices::device_number, lilo_model::specs::Devices::disk_number))]
pub fn number_of(device: Device) -> u16
    ensures { result ≡ device_number (device_view device) }
{
    let disk: u16 = match device.disk {
        0 => 0x300,
        1 => 0x340,
        2 => 0x800,
        _ => 0x810,
    };
    disk + u16::from(device.partition)
}

// The device of a name, if it has one.
fn read_name(name: &[u8]) -> Option<Device>
    ensures { option_map device_view result ≡ device_at name.now }
{
    if name.len() < 8 {
        return None;
    }
    let disk = disk_of(&name[..8])?;
    let partition = partition_of(&name[8..])?;
    if partition > last_partition(disk) {
        return None;
    }
    Some(Device { disk, partition })
}

// The disk of a name.
#[tactic(auto, unfolding(lilo_model::specs::Devices::disk_name))]
fn disk_of(name: &[u8]) -> Option<u8>
    ensures found { IfSome result (λ disk. (disk ≤ 3) × (name.now ≡ disk_name disk)) }
    ensures every { (disk : ℕ) → disk ≤ 3 → name.now ≡ disk_name disk → result ≡ Some disk }
{
    if name == b"/dev/hda".as_slice() {
        Some(0)
    } else if name == b"/dev/hdb".as_slice() {
        Some(1)
    } else if name == b"/dev/sda".as_slice() {
        Some(2)
    } else if name == b"/dev/sdb".as_slice() {
        Some(3)
    } else {
        None
    }
}

// The partition whose number comes after a disk's name, or 0 for nothing.
fn partition_of(number: &[u8]) -> Option<u8>
    ensures { result ≡ partition_at number.now }
{
    match number {
        [] => Some(0),
        [unit] => one_digit(*unit),
        [ten, unit] => two_digits(*ten, *unit),
        _ => None,
    }
}

#[tactic(auto, unfolding(crate::specs::Names::one_digit))]
fn one_digit(unit: u8) -> Option<u8>
    ensures { result ≡ one_digit unit }
{
    match unit {
        b'1'..=b'9' => Some(unit - b'0'),
        _ => None,
    }
}

#[tactic(auto, unfolding(crate::specs::Names::two_digits))]
fn two_digits(ten: u8, unit: u8) -> Option<u8>
    ensures { result ≡ two_digits ten unit }
{
    match (ten, unit) {
        (b'1'..=b'9', b'0'..=b'9') => Some((ten - b'0') * 10 + (unit - b'0')),
        _ => None,
    }
}

// The last partition of a disk that has a name.
#[tactic(auto, unfolding(lilo_model::specs::Devices::last_partition))]
fn last_partition(disk: u8) -> u8
    ensures { result ≡ model.last_partition disk }
{
    if disk <= 1 { 63 } else { 15 }
}
