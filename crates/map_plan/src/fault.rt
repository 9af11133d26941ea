// Refusals.
ghost use Rattle.std.specs.Prelude.{ℕ, Result};
ghost use Rattle.lilo_model.specs.Checks.{with_fault};
ghost use Rattle.lilo_model.specs.Plan.{MappedFile};
ghost use Rattle.lilo_model.specs.MinixFind as model;
ghost use Rattle.lilo_model.specs.PlanRefusal.{path_fault};
ghost use Rattle.minix_tree.specs.View as trees;
ghost use Rattle.minix_tree.specs.View.{HasFileCause};
ghost use Rattle.map_plan.specs.Starts.{FileStart};
ghost use Rattle.map_plan.specs.View.{Refuses, HasPlanCause};

use conf_settings::Opt;
use conf_text::Text;
use mbr_table::TableFault;
use minix_tree::TreeFault;
use minix_zones::ZoneFault;
use sector_address::AddressFault;
use setup_header::SetupFault;
use std::alloc::{AllocError, AllocFailed, Global};

/// Why no map is planned.
#[derive(Drop)]
pub enum PlanFault {
    /// A file that is named isn't there, or the default is a name of a section that is omitted.
    Missing(Text),
    /// Every section is omitted.
    NoImagesLeft,
    /// The kernel of this path, its initrd or its command line.
    Header(Text, SetupFault),
    /// No slot names a sector of the file or device that this option names.
    Address(Opt, AddressFault),
    /// The file that this option names takes so many slots, more than 4,128,705.
    TooManySlots(Opt, u32),
    /// What is said of a disk by this option isn't so: it has this many.
    GeometryDiffers(Opt, u32),
    /// The first sector of the other system of this name is that of the boot device.
    OtherIsBoot(Text),
    /// It doesn't end with the bytes 55 AA.
    NoSignature(Text),
    /// The message has so many bytes, more than 65,535.
    MessageTooLong(u32),
    /// A device isn't found.
    Table(TableFault),
    /// This path can't be followed, or leads to no regular file.
    Tree(Text, TreeFault),
    /// The disk failed.
    Device,
    /// Out of memory.
    Memory,
}

impl From<AllocError> for PlanFault {
    ghost use Rattle.std.specs.Prelude.{◌≡◌};
    ghost use Rattle.map_plan.specs.declared.fault.PlanFault.{PlanFault};

    ghost from_gives = { λ _ fault. fault ≡ PlanFault.Memory };

    fn from(_: AllocError) -> PlanFault {
        PlanFault::Memory
    }
}

impl<T: Drop> From<AllocFailed<T>> for PlanFault {
    ghost use Rattle.std.specs.Prelude.{◌≡◌};
    ghost use Rattle.map_plan.specs.declared.fault.PlanFault.{PlanFault};

    ghost from_gives = { λ _ fault. fault ≡ PlanFault.Memory };

    fn from(_: AllocFailed<T>) -> PlanFault {
        PlanFault::Memory
    }
}

// How a path's refusal is reported.
pub(crate) fn path_fault(alloc: Global, path: &[u8], fault: TreeFault) -> PlanFault
    ensures fault { (found : Result MappedFile model.TreeFault) → trees.Refuses fault found
        → Refuses result (with_fault (path_fault path.now) found) }
    ensures start { (found : Result FileStart model.TreeFault) → trees.Refuses fault found
        → Refuses result (with_fault (path_fault path.now) found) }
    ensures cause { (before now : ℕ) → HasFileCause before now fault → HasPlanCause before now result }
{
    match fault {
        TreeFault::Zone(ZoneFault::Device) => PlanFault::Device,
        TreeFault::Memory => PlanFault::Memory,
        TreeFault::NotFound(_) => match Text::new(alloc, path) {
            Ok(path) => PlanFault::Missing(path),
            Err(_) => PlanFault::Memory,
        },
        fault => match Text::new(alloc, path) {
            Ok(path) => PlanFault::Tree(path, fault),
            Err(_) => PlanFault::Memory,
        },
    }
}
