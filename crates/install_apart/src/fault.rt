// Refusals.
ghost use Rattle.std.specs.Prelude.{◌≡◌, ℕ};
ghost use Rattle.minix_tree.specs.View.{HasFileCause};
ghost use Rattle.install_apart.specs.Apart.{judged, unless_stopped};
ghost use Rattle.install_apart.specs.Faults.{RefusesPath, HasNameCause};

use conf_settings::Opt;
use conf_text::Text;
use minix_tree::TreeFault;
use minix_zones::ZoneFault;
use std::alloc::Global;

/// Why names may not be replaced.
#[derive(Drop)]
pub enum NameFault {
    /// The path of the map, as it is configured, or the place of the backup is refused: it can't be followed, or what
    /// is there is no regular file.
    Path(Text, TreeFault),
    /// The disk failed.
    Device,
    /// Out of memory.
    Memory,
}

// The refusal of a path.
pub(crate) fn refused_path(alloc: Global, path: &[u8], fault: TreeFault) -> NameFault
    ensures path { RefusesPath path.now fault result }
    ensures cause { (before now : ℕ) → HasFileCause before now fault → HasNameCause before now result }
{
    match fault {
        TreeFault::Zone(ZoneFault::Device) => NameFault::Device,
        TreeFault::Memory => NameFault::Memory,
        fault => match Text::new(alloc, path) {
            Ok(path) => NameFault::Path(path, fault),
            Err(_) => NameFault::Memory,
        },
    }
}

/// Why a configuration can't be installed as it is.
#[derive(Debug, Drop, PartialEq, Eq)]
pub enum ApartFault {
    /// What this option names isn't apart from what an installation writes.
    NotApart(Opt),
    /// The disk failed.
    Device,
    /// Out of memory.
    Memory,
}

/// Accepted, or refused for what an option names.
pub(crate) fn judged(apart: bool, option: Opt) -> Result<(), ApartFault>
    ensures { result ≡ judged apart option }
{
    if apart {
        Ok(())
    } else {
        Err(ApartFault::NotApart(option))
    }
}

/// A path that leads nowhere is apart, unless the disk failed or memory ended.
pub(crate) fn unless_stopped(fault: TreeFault) -> Result<(), ApartFault>
    ensures { result ≡ unless_stopped fault }
{
    match fault {
        TreeFault::Zone(ZoneFault::Device) => Err(ApartFault::Device),
        TreeFault::Memory => Err(ApartFault::Memory),
        _ => Ok(()),
    }
}
