// A name that is removed.
ghost use Rattle.std.specs.Prelude.{◌≤◌, Ok, Err, OnOk, IfOk, IfErr};
ghost use Rattle.disk_trait.specs.Moments.{IsTold, IsQuiet};
ghost use Rattle.minix_remove.specs.Removed.{Removes};
ghost use Rattle.minix_remove.specs.Target.{IsDirectoryNow};
ghost use Rattle.minix_choice.specs.View.{HasWriteCause};
ghost use Rattle.minix_zones.specs.Volume.{past_of, faults_of};

use crate::take::take_away;
use crate::target::find_target;
use disk_trait::Disks;
use minix_choice::{WriteFault, WriteHalt};
use minix_zones::Volume;

/// Removes the name of a regular file or a symbolic link from a directory that is the root or has a name, on a sound
/// volume, from a quiet moment on. The entry is cleared, and that is made durable; then the links of the inode are
/// lowered, or, where they come to 0, it is freed with its zones, and that is made durable. No memory is taken.
///
/// # Errors
///
/// `Tree(NotFound(0))` where the name isn't there, and `Tree(NotFile)` where it is neither: then nothing was done. Else
/// `Device`: then the name is there or gone.
pub fn remove<'d, D: Disks>(
    volume: Volume<'d, D>,
    directory: u32,
    name: &[u8],
) -> Result<Volume<'d, D>, WriteHalt<'d, D>>
    requires some { 1 ≤ directory }
    requires there { directory ≤ volume.layout.inodes }
    requires quiet { IsQuiet (past_of volume) }
    requires may { IsTold (past_of volume) → IsDirectoryNow volume directory }
    ensures removed { IfOk result (λ new. Removes volume.entry new directory name.now (Ok tt)) }
    ensures quiet { IfOk result (λ new. IsQuiet (past_of new)) }
    ensures halted { IfErr result (λ halt. Removes volume.entry halt.volume directory name.now (Err halt.fault)) }
    ensures cause { IfErr result (λ halt.
        HasWriteCause (faults_of volume.entry) (faults_of halt.volume) halt.fault) }
{
    let mut volume = volume;
    match remove_name(&mut volume, directory, name) {
        Ok(()) => Ok(volume),
        Err(fault) => Err(WriteHalt { volume, fault }),
    }
}

/// The same, of a volume that is kept.
fn remove_name<D: Disks>(
    volume: &mut Volume<'_, D>,
    directory: u32,
    name: &[u8],
) -> Result<(), WriteFault>
    requires some { 1 ≤ directory }
    requires there { directory ≤ volume.old.layout.inodes }
    requires quiet { IsQuiet (past_of volume.old) }
    requires may { IsTold (past_of volume.old) → IsDirectoryNow volume.old directory }
    ensures removes { Removes volume.old volume.new directory name.now result }
    ensures quiet { OnOk result (IsQuiet (past_of volume.new)) }
    ensures cause { IfErr result (HasWriteCause (faults_of volume.old) (faults_of volume.new)) }
{
    let target = find_target(volume, directory, name)?;
    take_away(volume, &target)?;
    Ok(())
}
