// What a renaming leaves of what was chosen for a file.
ghost use Rattle.minix_create.specs.Chosen.{Suits};
ghost use Rattle.minix_remove.specs.Replaced.{WasRenamed, StaysFree};

use disk_trait::Disks;
use minix_create::Chosen;
use minix_zones::Volume;

/// What was chosen for a file can be reserved, filled and linked still, once a name took the place of another.
pub fn other_is_left_free_by_renaming<D: Disks>(
    start: &Volume<'_, D>,
    volume: &Volume<'_, D>,
    directory: u32,
    from: &[u8],
    to: &[u8],
    other: &Chosen,
)
    requires suits { Suits start.now.layout start.now.span other.now }
    requires renamed { WasRenamed start.now volume.now directory from.now to.now }
    ensures { StaysFree start.now volume.now directory to.now other.now }
{}
