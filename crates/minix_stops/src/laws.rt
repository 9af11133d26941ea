// What disks in memory need for steps to be taken on them.
ghost use Rattle.disk_trait.specs.MemDisks.{sizes_of, past_of};
ghost use Rattle.disk_trait.specs.Moments.{IsWhole};
ghost use Rattle.minix_stops.specs.Laws.{OwnSectorsLaw, OwnNamesLaw};

use disk_trait::MemDisks;

/// A volume is sound in an image by its own sectors alone: whatever the others are, it is sound in both of two images
/// that have the same bytes there, or in neither, and has the same Names.
pub fn soundness_is_of_own_sectors()
    ensures both { OwnSectorsLaw }
    ensures names { OwnNamesLaw }
{}

/// Whatever was done with disks in memory, a stop leaves only sectors of 512 bytes.
pub fn whole_disks(disks: &MemDisks)
    ensures { IsWhole (sizes_of disks.now.start) (past_of disks.now) }
{
    let _events = disks.events();
    disk_trait::whole();
}
