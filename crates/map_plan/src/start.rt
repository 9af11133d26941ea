// The first bytes of files.
ghost use Rattle.std.specs.Prelude.{◌≡◌, ◌≤◌, ◌++◌, ◌-◌, length, take, replicate, IfErr};
ghost use Rattle.lilo_model.specs.MinixParts.{parts_of};
ghost use Rattle.minix_zones.specs.Volume.{volume_view, faults_of, SameVolume};
ghost use Rattle.minix_tree.specs.View as trees;
ghost use Rattle.minix_tree.specs.View.{HasFileCause};
ghost use Rattle.map_plan.specs.Sound.{OnSound};
ghost use Rattle.map_plan.specs.Starts.{start_view, start_found, start_planned, block_start};
ghost use Rattle.map_plan.specs.View.{Gives, HasPlanCause};

use crate::fault::{PlanFault, path_fault};
use disk_trait::Disks;
use minix_tree::{TreeFault, lookup, read_block};
use minix_zones::Volume;
use sector_parts::{Sector, half};
use std::alloc::Global;

// How many bytes a file has, and its first two sectors, with zeros after its end.
#[derive(Clone, Copy)]
pub(crate) struct FileStart {
    pub(crate) size: u32,
    pub(crate) first: Sector,
    pub(crate) second: Sector,
}

// The start of the regular file that a path leads to.
pub(crate) fn read_start<D: Disks>(
    alloc: Global,
    volume: &mut Volume<'_, D>,
    path: &[u8],
) -> Result<FileStart, PlanFault>
    ensures start { OnSound volume.old (λ now machine. Gives start_view result
        (start_planned (volume_view volume.old) (parts_of (volume_view volume.old) now) path.now)) }
    ensures cause { IfErr result (HasPlanCause (faults_of volume.old) (faults_of volume.new)) }
    ensures later { faults_of volume.old ≤ faults_of volume.new }
    ensures same { SameVolume volume.old volume.new }
{
    match start_at(volume, path) {
        Ok(start) => Ok(start),
        Err(fault) => Err(path_fault(alloc, path, fault)),
    }
}

// The same, or why the path is refused.
fn start_at<D: Disks>(volume: &mut Volume<'_, D>, path: &[u8]) -> Result<FileStart, TreeFault>
    ensures start { OnSound volume.old (λ now machine. trees.Gives start_view result
        (start_found (volume_view volume.old) (parts_of (volume_view volume.old) now) path.now)) }
    ensures cause { IfErr result (HasFileCause (faults_of volume.old) (faults_of volume.new)) }
    ensures later { faults_of volume.old ≤ faults_of volume.new }
    ensures same { SameVolume volume.old volume.new }
{
    let stat = lookup(volume, path)?;
    let mut block = [0; 1024];
    let count = read_block(volume, &stat, 0, &mut block)?;
    Ok(start_with(stat.node.size, &block, count))
}

// A start whose first bytes are those of a block, and whose others are zeros.
fn start_with(size: u32, block: &[u8; 1024], count: u16) -> FileStart
    requires { count ≤ 1024 }
    ensures { start_view result ≡ block_start size (take count block.now) }
{
    let mut bytes = *block;
    clear_after(&mut bytes, count);
    FileStart {
        size,
        first: *half(&bytes, false),
        second: *half(&bytes, true),
    }
}

// Zeros after the first bytes of a block.
fn clear_after(block: &mut [u8; 1024], count: u16)
    requires { count ≤ 1024 }
    ensures bytes { block.new ≡ take count block.old ++ replicate (1024 - count) 0 }
    ensures size { length block.new ≡ 1024 }
{
    block[usize::from(count)..].fill(0);
}
