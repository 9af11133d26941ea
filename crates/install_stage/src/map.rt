// A map's file.
ghost use Rattle.std.specs.Prelude.{◌≡◌, ◌≤◌, ◌<◌, ◌*◌, ◌^◌, ℕ, List, All, length, Ok, Err, IfOk, IfErr};
ghost use Rattle.disk_trait.specs.Moments.{IsTold, IsQuiet};
ghost use Rattle.install_laws.specs.InstallVerdict.{file_mode};
ghost use Rattle.lilo_model.specs.Disks.{Machine};
ghost use Rattle.minix_create.specs.Chosen.{Suits, IsFreeNow, new_inode};
ghost use Rattle.minix_create.specs.States.{CreatesOn};
ghost use Rattle.minix_fill.specs.Fill.{IsOfFile};
ghost use Rattle.minix_choice.specs.View.{HasWriteCause};
ghost use Rattle.minix_zones.specs.Volume.{past_of, faults_of};
ghost use Rattle.install_stage.specs.Blocks.{AreMapBlocks};
ghost use Rattle.install_stage.specs.MapFile.{IsMapRoom, MakesMap};

use crate::block::map_block;
use disk_trait::Disks;
use map_sectors::MapPlan;
use minix_choice::WriteHalt;
use minix_create::Chosen;
use minix_zones::Volume;
use slot_lists::DiskSector;

// Makes the file a block at a time.
fn write_map<'d, D: Disks>(
    volume: Volume<'d, D>,
    chosen: Chosen,
    plan: &MapPlan,
    places: &[DiskSector],
) -> Result<Volume<'d, D>, WriteHalt<'d, D>>
    requires suits { Suits volume.layout volume.span chosen }
    requires file { IsOfFile (new_inode chosen) }
    requires disk { All (λ place. place.disk ≡ plan.now.disk) places.now }
    requires fits { 2 * length chosen.choice.blocks < 2 ^ 32 }
    requires quiet { IsQuiet (past_of volume) }
    requires free { IsTold (past_of volume) → IsFreeNow volume chosen }
    ensures made { (given : ℕ → List ℕ) → (IsTold (past_of volume.entry) → AreMapBlocks plan.now places.now given)
        → IfOk result (λ new. CreatesOn volume.entry new chosen given (Ok tt)) }
    ensures quiet { IfOk result (λ new. IsQuiet (past_of new)) }
    ensures halted { (given : ℕ → List ℕ) → (IsTold (past_of volume.entry) → AreMapBlocks plan.now places.now given)
        → IfErr result (λ halt. CreatesOn volume.entry halt.volume chosen given (Err halt.fault)) }
    ensures cause { IfErr result (λ halt.
        HasWriteCause (faults_of volume.entry) (faults_of halt.volume) halt.fault) }
{
    let mut reserved = chosen.reserve(volume)?;
    while let Some(index) = reserved.next_index() {
        let block = map_block(plan, places, index as u32);
        if let Err(fault) = reserved.block(&block) {
            return Err(WriteHalt {
                volume: reserved.leave(),
                fault,
            });
        }
    }
    let filled = reserved.fill()?;
    let (volume, _) = filled.link()?;
    Ok(volume)
}

/// Makes a map's file of its plan at the path of `map` with `~`, a block at a time: each of its sectors is written
/// once, and none is kept in memory.
///
/// # Errors
///
/// `Device` alone, where the disks report their past. Then the file isn't there, or the whole of it is.
pub fn make_map<'d, D: Disks>(
    volume: Volume<'d, D>,
    chosen: Chosen,
    plan: &MapPlan,
    places: &[DiskSector],
) -> Result<Volume<'d, D>, WriteHalt<'d, D>>
    requires suits { Suits volume.layout volume.span chosen }
    requires mode { chosen.mode ≡ file_mode }
    requires disk { All (λ place. place.disk ≡ plan.now.disk) places.now }
    requires quiet { IsQuiet (past_of volume) }
    requires free { IsTold (past_of volume) → IsFreeNow volume chosen }
    ensures made { (machine : Machine) (path : List (List ℕ))
        → (IsTold (past_of volume.entry) → IsMapRoom volume.entry machine path chosen plan.now places.now)
        → IfOk result (λ new. MakesMap volume.entry new machine path chosen plan.now places.now (Ok tt)) }
    ensures quiet { IfOk result (λ new. IsQuiet (past_of new)) }
    ensures halted { (machine : Machine) (path : List (List ℕ))
        → (IsTold (past_of volume.entry) → IsMapRoom volume.entry machine path chosen plan.now places.now)
        → IfErr result (λ halt.
        MakesMap volume.entry halt.volume machine path chosen plan.now places.now (Err halt.fault)) }
    ensures cause { IfErr result (λ halt.
        HasWriteCause (faults_of volume.entry) (faults_of halt.volume) halt.fault) }
{
    write_map(volume, chosen, plan, places)
}
