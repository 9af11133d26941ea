// What is said of disks.
use mbr_table::Device;
use std::marker::Model;

/// What is said of a disk.
#[derive(Clone, Copy, Debug, PartialEq, Eq)]
pub struct DiskSection {
    pub device: Device,
    /// The number that a BIOS gives to it.
    pub bios: Option<u8>,
    /// How many sectors a track has.
    pub sectors: Option<u8>,
    pub heads: Option<u16>,
    /// The line of its `disk`.
    pub line: u32,
}

/// What is said of disks, in order. To a contract it is the list of it.
#[derive(Drop)]
pub struct DiskList {
    disks: Vec<DiskSection>,
}

impl Model for DiskList {
    ghost use Rattle.std.specs.Prelude.{List};
    ghost use Rattle.lilo_conf.specs.declared.disk.DiskSection.{DiskSection};

    ghost Value = { List DiskSection };

    ghost view = { λ list. list.disks.items };
}

impl DiskList {
    ghost use Rattle.std.specs.Prelude.{◌≡◌};

    /// The list of these.
    pub fn new(items: Vec<DiskSection>) -> DiskList
        ensures { result ≡ items.items }
    {
        DiskList { disks: items }
    }

    /// What is said, disk by disk.
    pub fn items(&self) -> &[DiskSection]
        ensures { result.now ≡ self.now }
    {
        self.disks.as_slice()
    }
}
