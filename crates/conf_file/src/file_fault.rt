use mbr_table::TableFault;
use minix_tree::TreeFault;
use minix_zones::ZoneFault;

/// Why the file of a configuration can't be read.
#[derive(Clone, Copy, Debug, PartialEq, Eq)]
pub enum FileFault {
    /// No device has a volume, or the one that is named has no room for one.
    NoVolume,
    /// The device isn't found, a table of partitions that would be searched is refused, or a disk failed meanwhile.
    Place(TableFault),
    /// A disk failed where the volume lies.
    Device,
    /// The volume's superblock is refused, or a zone or an inode on the way to the file.
    Layout,
    /// There is no file of this path.
    Missing,
    /// The path leads to no regular file, or can't be followed.
    BadPath,
    /// There is no memory for the file.
    Memory,
}

impl From<TreeFault> for FileFault {
    ghost use Rattle.std.specs.Prelude.{◌≡◌};
    ghost use Rattle.minix_tree.specs.declared.tree_fault.TreeFault.TheVariants as trees;
    ghost use Rattle.conf_file.specs.declared.file_fault.FileFault.TheVariants as faults;
    ghost use Rattle.conf_file.specs.View.{IsTreeFault};

    ghost from_gives = { λ fault told. IsTreeFault fault told × (told ≡ faults.Memory → fault ≡ trees.Memory) };

    fn from(fault: TreeFault) -> FileFault {
        match fault {
            TreeFault::NotFound(_) => FileFault::Missing,
            TreeFault::Zone(ZoneFault::Device) => FileFault::Device,
            TreeFault::Zone(_) => FileFault::Layout,
            TreeFault::Memory => FileFault::Memory,
            TreeFault::NotDirectory(_)
            | TreeFault::NotFile
            | TreeFault::TooManyLinks
            | TreeFault::BadEntry(_)
            | TreeFault::PathTooLong => FileFault::BadPath,
        }
    }
}
