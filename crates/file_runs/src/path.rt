// Files by their paths.
ghost use Rattle.std.specs.Prelude.{◌≡◌, ◌≤◌, ◌*◌, All, IfOk, IfErr, length};
ghost use Rattle.disk_trait.specs.Past.{Told};
ghost use Rattle.lilo_model.specs.MinixParts.{parts_of, blocks_for};
ghost use Rattle.minix_zones.specs.Volume.{volume_view, past_of, faults_of, SameVolume};
ghost use Rattle.minix_tree.specs.View.{Gives, HasFileCause};
ghost use Rattle.slot_lists.specs.Runs.{IsRun, places_in};
ghost use Rattle.file_runs.specs.Mapped.{file_view, file_mapped};
ghost use Rattle.file_runs.specs.Needed.{runs_needed};

use crate::file::runs_of;
use crate::mapped::FileRuns;
use disk_trait::Disks;
use minix_tree::{TreeFault, is_file, lookup};
use minix_zones::Volume;
use std::alloc::Global;

/// The regular file that a path leads to.
///
/// # Errors
///
/// As `lookup` and `runs_of`; `NotFile` where the path leads to no regular file.
pub fn map_file<D: Disks>(
    alloc: Global,
    volume: &mut Volume<'_, D>,
    path: &[u8],
) -> Result<FileRuns, TreeFault>
    // What is answered.
    ensures file { Told (past_of volume.old) (λ now. Gives file_view result
        (file_mapped (volume_view volume.old) (parts_of (volume_view volume.old) now) path.now)) }
    ensures least { IfOk result (λ file. length file.runs ≡ runs_needed (places_in file.runs)) }
    ensures few { IfOk result (λ file. length (places_in file.runs) ≤ 2 * blocks_for file.size) }
    ensures runs { volume.old.span.disk ≤ 3 → IfOk result (λ file. All IsRun file.runs) }

    // When it is refused.
    ensures cause { IfErr result (HasFileCause (faults_of volume.old) (faults_of volume.new)) }
    ensures later { faults_of volume.old ≤ faults_of volume.new }
    ensures same { SameVolume volume.old volume.new }
{
    let stat = lookup(volume, path)?;
    if !is_file(&stat.node) {
        return Err(TreeFault::NotFile);
    }
    let runs = runs_of(alloc, volume, &stat.node)?;
    Ok(FileRuns {
        size: stat.node.size,
        runs,
    })
}
