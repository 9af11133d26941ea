// The files of an installation, staged.
ghost use Rattle.std.specs.Prelude.{◌≡◌, ℕ, List, All, IfSome, Option, Ok, Err, IfOk, IfErr};
ghost use Rattle.disk_trait.specs.Moments.{IsTold, IsQuiet};
ghost use Rattle.install_apart.specs.Own.{IsBackupInside, IsBackupNamed, IsBackupTwins};
ghost use Rattle.install_stage.specs.BackupStages.{IsForSome};
ghost use Rattle.install_laws.specs.InstallVerdict.{file_mode};
ghost use Rattle.install_room.specs.Room.{HasNoHole, SuitRoom};
ghost use Rattle.lilo_model.specs.Disks.{Machine};
ghost use Rattle.minix_choice.specs.View.{HasWriteCause};
ghost use Rattle.minix_zones.specs.Volume.{past_of, faults_of};
ghost use Rattle.install_stage.specs.Stages.{MayStageRoom, MayStageSomeRoom, StagesRoom};

use crate::backup_stage::stage_backup;
use crate::map::make_map;
use disk_trait::Disks;
use install_apart::NamePair;
use install_room::Room;
use map_sectors::MapPlan;
use minix_choice::WriteHalt;
use minix_zones::Volume;
use sector_parts::Sector;

/// Makes what an installation needs before its commit, on a sound volume: first the backup of the present boot sector,
/// where one was chosen, then the new map under its name with `~`, each whole and durable before the next. What boots
/// is left alone.
///
/// # Errors
///
/// `Device` alone, where the disks report their past: then a part of it is done.
pub fn stage_files<'d, D: Disks>(
    volume: Volume<'d, D>,
    room: Room,
    plan: &MapPlan,
    pair: &Option<NamePair>,
    forced: bool,
    present: &Sector,
) -> Result<Volume<'d, D>, WriteHalt<'d, D>>
    // What was chosen.
    requires suits { SuitRoom volume.layout volume.span room }
    requires holes { IsTold (past_of volume) → IfSome room.backup HasNoHole }
    requires wished { IsForSome forced pair.now room.backup }
    requires mode { room.map.mode ≡ file_mode }
    requires disk { All (λ place. place.disk ≡ plan.now.disk) room.places.items }

    // The backup's names.
    requires inside { IsBackupInside volume.layout pair.now }
    requires twins { IsBackupTwins pair.now }
    requires called { IsBackupNamed pair.now }
    requires quiet { IsQuiet (past_of volume) }
    requires may { IsTold (past_of volume) → MayStageSomeRoom volume forced plan.now room }

    // What is done.
    ensures staged { IfOk result (λ new.
        (machine : Machine) (backup : Option (List (List ℕ))) (map : List (List ℕ))
        → (IsTold (past_of volume.entry) → MayStageRoom volume.entry machine backup map forced plan.now room)
        → StagesRoom volume.entry new machine forced backup present.now map plan.now room (Ok tt)) }
    ensures quiet { IfOk result (λ new. IsQuiet (past_of new)) }
    ensures halted { IfErr result (λ halt.
        (machine : Machine) (backup : Option (List (List ℕ))) (map : List (List ℕ))
        → (IsTold (past_of volume.entry) → MayStageRoom volume.entry machine backup map forced plan.now room)
        → StagesRoom volume.entry halt.volume machine forced backup present.now map plan.now room (Err halt.fault)) }
    ensures cause { IfErr result (λ halt.
        HasWriteCause (faults_of volume.entry) (faults_of halt.volume) halt.fault) }
{
    let Room {
        backup,
        map,
        places,
    } = room;
    let volume = stage_backup(volume, backup, pair, forced, present)?;
    make_map(volume, map, plan, &places)
}
