// A file from its blocks.
ghost use Rattle.std.specs.Prelude.{◌≡◌, ◌≤◌, ℕ, List, length, IfOk, IfErr};
ghost use Rattle.disk_trait.specs.Moments.{IsTold, IsQuiet};
ghost use Rattle.minix_create.specs.Chosen.{Suits, IsFreeNow, MayBeMade, block_of};
ghost use Rattle.minix_create.specs.States.{CreatesFile, CreationHalts};
ghost use Rattle.minix_layout.specs.View.{kind_view};
ghost use Rattle.minix_choice.specs.View.{HasWriteCause};
ghost use Rattle.minix_zones.specs.Volume.{past_of, faults_of};

use crate::chosen::Chosen;
use crate::linked::Linked;
use disk_trait::Disks;
use minix_choice::WriteHalt;
use minix_zones::Volume;

/// Makes a file of what was chosen, or a directory with nothing in it but `.` and `..`. Its blocks are given, also
/// those of holes, which aren't written.
///
/// # Errors
///
/// `Device` where the disk failed, and then the file isn't there, or the whole of it is; where the disks report their
/// past no other comes. Where they don't, those of [`grow_directory`](crate::grow_directory) too.
pub fn create<'d, D: Disks>(
    volume: Volume<'d, D>,
    chosen: Chosen,
    blocks: &[[u8; 1024]],
) -> Result<(Volume<'d, D>, Linked), WriteHalt<'d, D>>
    requires suits { Suits volume.layout volume.span chosen }
    requires whole { IsTold (past_of volume)
        → MayBeMade (kind_view volume.layout.kind) chosen (block_of blocks.now) }
    requires all { length chosen.choice.blocks ≤ length blocks.now }
    requires quiet { IsQuiet (past_of volume) }
    requires free { IsTold (past_of volume) → IsFreeNow volume chosen }
    ensures created { IfOk result (CreatesFile volume.entry chosen (block_of blocks.now)) }
    ensures halted { IfErr result (CreationHalts volume.entry chosen (block_of blocks.now)) }
    ensures cause { IfErr result (λ halt.
        HasWriteCause (faults_of volume.entry) (faults_of halt.volume) halt.fault) }
{
    let mut reserved = chosen.reserve(volume)?;
    while let Some(index) = reserved.next_index() {
        if let Err(fault) = reserved.block(&blocks[index]) {
            return Err(WriteHalt {
                volume: reserved.leave(),
                fault,
            });
        }
    }
    let filled = reserved.fill()?;
    filled.link()
}
