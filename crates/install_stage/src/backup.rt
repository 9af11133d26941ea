// A backup of a boot sector.
ghost use Rattle.std.specs.Prelude.{◌≡◌, ◌≤◌, length, Ok, Err, IfOk, IfErr};
ghost use Rattle.disk_trait.specs.Moments.{IsTold, IsQuiet};
ghost use Rattle.minix_create.specs.Chosen.{Suits, IsFreeNow, block_of, new_inode};
ghost use Rattle.minix_fill.specs.Fill.{IsOfFile};
ghost use Rattle.minix_choice.specs.View.{HasWriteCause};
ghost use Rattle.minix_zones.specs.Volume.{past_of, faults_of};
ghost use Rattle.install_stage.specs.Halves.{backup_blocks};
ghost use Rattle.install_stage.specs.Files.{MakesFile};

use crate::halves::block_of;
use disk_trait::Disks;
use minix_choice::WriteHalt;
use minix_create::{Chosen, create};
use minix_zones::Volume;
use sector_parts::Sector;

/// Makes a file of a boot sector, of one block.
///
/// # Errors
///
/// `Device` alone, where the disks report their past. Then the file isn't there, or the whole of it is.
pub fn make_backup<'d, D: Disks>(
    volume: Volume<'d, D>,
    chosen: Chosen,
    present: &Sector,
) -> Result<Volume<'d, D>, WriteHalt<'d, D>>
    requires suits { Suits volume.layout volume.span chosen }
    requires file { IsOfFile (new_inode chosen) }
    requires one { length chosen.choice.blocks ≤ 1 }
    requires quiet { IsQuiet (past_of volume) }
    requires free { IsTold (past_of volume) → IsFreeNow volume chosen }
    ensures made { IfOk result (λ new.
        MakesFile volume.entry new chosen (block_of (backup_blocks present.now)) (Ok tt)) }
    ensures halted { IfErr result (λ halt.
        MakesFile volume.entry halt.volume chosen (block_of (backup_blocks present.now)) (Err halt.fault)) }
    ensures cause { IfErr result (λ halt.
        HasWriteCause (faults_of volume.entry) (faults_of halt.volume) halt.fault) }
{
    let block = block_of(present, &[0; 512]);
    let (volume, _) = create(volume, chosen, &[block])?;
    Ok(volume)
}
