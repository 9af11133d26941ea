//! Partition tables of disks, and where a device lies.
//!
//! The format is the IBM PC partition table. Names and numbers of devices are those of Linux for the first two
//! IDE and the first two SCSI disks. Disks 0 to 3 are hda, hdb, sda and sdb. No call takes memory.
#![tactic(auto)]

mod chain;
mod device;
mod laws;
mod partition;
mod place;
mod table;
mod table_fault;

pub use device::{Device, device_of, number_of};
pub use laws::{chain_ends, names};
pub use partition::Partition;
pub use place::{partitions, place_of};
pub use table::{Entry, Table4, read_table};
pub use table_fault::TableFault;
