// Files that are chosen on one image, and made one after the other: a function that only says so, and does nothing.
ghost use Rattle.minix_create.specs.Chosen.{Suits};
ghost use Rattle.minix_create.specs.Several.{AreApartOn, WasMade, IsLeftFree};

use crate::chosen::Chosen;
use disk_trait::Disks;
use minix_zones::Volume;

/// What was chosen for another file can be reserved, filled and linked still, once the one chosen before it was made.
pub fn other_is_left_free<D: Disks>(
    start: &Volume<'_, D>,
    volume: &Volume<'_, D>,
    one: &Chosen,
    other: &Chosen,
)
    requires suits { Suits start.now.layout start.now.span other.now }
    requires apart { AreApartOn start.now one.now other.now }
    requires made { WasMade start.now volume.now one.now }
    ensures { IsLeftFree start.now volume.now one.now other.now }
{}
