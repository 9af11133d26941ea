// Why a command ends before it is done.
ghost use Rattle.std.specs.Prelude.{◌≡◌};
ghost use Rattle.ldisk_run.specs.Run.{IsTableHalt, IsZoneHalt, IsTreeHalt, status_of};

use mbr_table::TableFault;
use minix_tree::TreeFault;
use minix_zones::ZoneFault;

/// Why a command ends before it is done.
#[derive(Clone, Copy, Debug, PartialEq, Eq)]
pub(crate) enum Halt {
    /// The disk failed.
    Device,
    /// A disk, a table, a volume, a path or a kind is refused.
    Refused,
}

/// How a refusal of partition tables is reported.
pub(crate) fn table_halt(fault: TableFault) -> Halt
    ensures { IsTableHalt fault result }
{
    match fault {
        TableFault::Device => Halt::Device,
        _ => Halt::Refused,
    }
}

/// How a refusal of a superblock, an inode or a zone is reported.
pub(crate) fn zone_halt(fault: ZoneFault) -> Halt
    ensures { IsZoneHalt fault result }
{
    match fault {
        ZoneFault::Device => Halt::Device,
        _ => Halt::Refused,
    }
}

/// How a refusal of a path or a file is reported.
pub(crate) fn tree_halt(fault: TreeFault) -> Halt
    ensures { IsTreeHalt fault result }
{
    match fault {
        TreeFault::Zone(fault) => zone_halt(fault),
        _ => Halt::Refused,
    }
}

/// The status of a command.
pub(crate) fn status_of(ended: Result<(), Halt>) -> u8
    ensures { result ≡ status_of ended }
{
    match ended {
        Ok(()) => 0,
        Err(Halt::Refused) => 3,
        Err(Halt::Device) => 8,
    }
}
