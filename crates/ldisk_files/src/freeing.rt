// What stopped writers left marked without a use is freed.
ghost use Rattle.std.specs.Prelude.{◌≡◌, ◌≤◌, ◌+◌};
ghost use Rattle.disk_trait.specs.Moments.{IsWhole};
ghost use Rattle.minix_zones.specs.View.{span_view};
ghost use Rattle.ldisk_files.specs.Freed.{FreesOn, FreesWaste, reclaim_fault};

use crate::ended::refused;
use crate::fault::FileFault;
use disk_trait::{Disks, Span};
use minix_reclaim::{Freed, ReclaimFault};
use minix_zones::Volume;
use std::alloc::Global;

/// A volume, and what was freed of it.
#[derive(Drop)]
struct Freeing<'d, D: Disks> {
    volume: Volume<'d, D>,
    result: Result<Freed, FileFault>,
}

// Frees the waste of a volume.
fn reclaim_on<'d, D: Disks>(alloc: Global, volume: Volume<'d, D>) -> Freeing<'d, D>
    ensures frees { FreesOn volume.entry result.volume result.result }
    ensures same_reference { result.volume.disks.ghost_name ≡ volume.entry.disks.ghost_name }
{
    match minix_reclaim::reclaim(alloc, volume) {
        Ok((volume, freed)) => Freeing {
            volume,
            result: Ok(freed),
        },
        Err(halt) => Freeing {
            volume: halt.volume,
            result: Err(reclaim_fault(halt.fault)),
        },
    }
}

/// Frees the zones and inodes of the volume in a span that are marked and that nothing with a name uses, and answers how
/// many. The volume and a survey of it are checked before anything is written; each sector of the two bitmaps is written
/// once at most, and all is durable at the end.
///
/// # Errors
///
/// `Refused` and `Memory`: then nothing was done. `Device`: then none, some or all are freed, and where a check refuses
/// nothing was done.
pub fn reclaim<D: Disks>(alloc: Global, disks: &mut D, span: Span) -> Result<Freed, FileFault>
    requires on_disk { span.start + span.count ≤ D.size_of disks.old span.disk }
    requires room { 4 ≤ span.count }
    requires whole { IsWhole (D.size_of disks.old) (D.past disks.old) }
    ensures { FreesWaste D.Disks disks.old disks.new (span_view span) result }
{
    match Volume::attach(disks, span) {
        Ok(volume) => reclaim_on(alloc, volume).result,
        Err((disks, fault)) => Err(refused(disks, fault)),
    }
}

/// How a refusal is reported.
fn reclaim_fault(fault: ReclaimFault) -> FileFault
    ensures { result ≡ reclaim_fault fault }
{
    match fault {
        ReclaimFault::Survey(_) => FileFault::Refused,
        ReclaimFault::Device => FileFault::Device,
        ReclaimFault::Memory => FileFault::Memory,
    }
}
