// The boot sector is written.
ghost use Rattle.std.specs.Prelude.{◌<◌};
ghost use Rattle.minix_zones.specs.Volume.{sizes_of};
ghost use Rattle.install_order.specs.Commits.{Commits};

use disk_trait::{DiskFault, Disks, Span};
use minix_zones::Volume;
use sector_parts::Sector;

/// Writes the boot sector, the first of a span, and makes it durable: one write and one flush. The volume is kept; its
/// superblock isn't read again.
///
/// # Errors
///
/// `Failed` alone: the sector was written or it wasn't.
#[tactic(auto, using(crate::proofs::CommitLemmas::commits))]
pub fn commit<D: Disks>(
    volume: &mut Volume<'_, D>,
    boot: Span,
    bytes: &Sector,
) -> Result<(), DiskFault>
    requires { boot.start < sizes_of volume.old boot.disk }
    ensures commits { Commits volume.old volume.new boot bytes.now result }
{
    volume.write_durably(boot.disk, boot.start, bytes)
}
