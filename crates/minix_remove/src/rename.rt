// A name that takes the place of another.
ghost use Rattle.std.specs.Prelude.{◌≢◌, ◌≤◌, length, All, Ok, Err, OnOk, IfOk, IfErr};
ghost use Rattle.disk_trait.specs.Moments.{IsTold, IsQuiet};
ghost use Rattle.minix_remove.specs.Renamed.{Renames};
ghost use Rattle.minix_remove.specs.Target.{IsDirectoryNow};
ghost use Rattle.minix_choice.specs.View.{HasWriteCause};
ghost use Rattle.minix_zones.specs.Volume.{past_of, faults_of};

use crate::renaming::find_renaming;
use crate::replace::carry_out;
use disk_trait::Disks;
use minix_choice::{WriteFault, WriteHalt};
use minix_zones::Volume;

/// Renames a regular file in a directory that is the root or has a name, on a sound volume, from a quiet moment on. The
/// new name may be there: it leads to its old file until it leads to this one, whole, and in between both names lead
/// there. The inode that it led to has then a link less, or is freed with its zones where it had no other name.
/// Everything is made durable in this order. No memory is taken.
///
/// # Errors
///
/// In this order: `Tree(NotFound(0))` where the name isn't there; `NameTooLong` where the new one has more bytes than
/// the names of the volume; `Tree(NotFile)` where either is there and no regular file; `Links` where the new one is
/// that of another inode, and the inode of the name has as many links as it can have. Then nothing was done. Else
/// `Device`: then the name is the old one, both are there, or the new one.
pub fn replace_name<'d, D: Disks>(
    volume: Volume<'d, D>,
    directory: u32,
    from: &[u8],
    to: &[u8],
) -> Result<Volume<'d, D>, WriteHalt<'d, D>>
    requires some { 1 ≤ directory }
    requires there { directory ≤ volume.layout.inodes }
    requires names { from.now ≢ to.now }
    requires name { 1 ≤ length to.now }
    requires no_zero { All (λ byte. byte ≢ 0) to.now }
    requires quiet { IsQuiet (past_of volume) }
    requires may { IsTold (past_of volume) → IsDirectoryNow volume directory }
    ensures renamed { IfOk result (λ new. Renames volume.entry new directory from.now to.now (Ok tt)) }
    ensures quiet { IfOk result (λ new. IsQuiet (past_of new)) }
    ensures halted { IfErr result (λ halt.
        Renames volume.entry halt.volume directory from.now to.now (Err halt.fault)) }
    ensures cause { IfErr result (λ halt.
        HasWriteCause (faults_of volume.entry) (faults_of halt.volume) halt.fault) }
{
    let mut volume = volume;
    match rename(&mut volume, directory, from, to) {
        Ok(()) => Ok(volume),
        Err(fault) => Err(WriteHalt { volume, fault }),
    }
}

/// The same, of a volume that is kept.
fn rename<D: Disks>(
    volume: &mut Volume<'_, D>,
    directory: u32,
    from: &[u8],
    to: &[u8],
) -> Result<(), WriteFault>
    requires some { 1 ≤ directory }
    requires there { directory ≤ volume.old.layout.inodes }
    requires names { from.now ≢ to.now }
    requires no_zero { All (λ byte. byte ≢ 0) to.now }
    requires quiet { IsQuiet (past_of volume.old) }
    requires may { IsTold (past_of volume.old) → IsDirectoryNow volume.old directory }
    ensures renames { Renames volume.old volume.new directory from.now to.now result }
    ensures quiet { OnOk result (IsQuiet (past_of volume.new)) }
    ensures cause { IfErr result (HasWriteCause (faults_of volume.old) (faults_of volume.new)) }
{
    let renaming = find_renaming(volume, directory, from, to)?;
    carry_out(volume, &renaming, to)?;
    Ok(())
}
