// The backup of an installation, staged.
ghost use Rattle.std.specs.Prelude.{ℕ, true, List, IfSome, Some, Ok, Err, IfOk, IfErr};
ghost use Rattle.disk_trait.specs.Moments.{IsTold, IsQuiet};
ghost use Rattle.minix_create.specs.Chosen.{Suits};
ghost use Rattle.minix_names.specs.Component.{IsFileName};
ghost use Rattle.minix_choice.specs.View.{HasWriteCause};
ghost use Rattle.minix_zones.specs.Volume.{past_of, faults_of};
ghost use Rattle.install_apart.specs.Names.{ArePairsInside, AreTwins};
ghost use Rattle.install_apart.specs.Own.{IsBackupInside, IsBackupNamed, IsBackupTwins};
ghost use Rattle.install_room.specs.Room.{HasNoHole, IsForName};
ghost use Rattle.install_stage.specs.BackupStages.{
  IsForSome,
  MayStage,
  MayStageFile,
  MayStageSome,
  StagesBackup,
  StagesFile,
};

use crate::backup::make_backup;
use disk_trait::Disks;
use install_apart::NamePair;
use minix_choice::WriteHalt;
use minix_create::Chosen;
use minix_remove::replace_name;
use minix_zones::Volume;
use sector_parts::Sector;

// Makes a backup under its name with `~`, and puts it in the place of the one that is there.
fn replace_backup<'d, D: Disks>(
    volume: Volume<'d, D>,
    chosen: Chosen,
    pair: &NamePair,
    present: &Sector,
) -> Result<Volume<'d, D>, WriteHalt<'d, D>>
    requires suits { Suits volume.layout volume.span chosen }
    requires holes { IsTold (past_of volume) → HasNoHole chosen }
    requires wished { (time : ℕ) × IsForName pair.now.tilde 512 time chosen }
    requires inside { ArePairsInside volume.layout pair.now }
    requires twins { AreTwins pair.now }
    requires called { IsFileName pair.now.plain.name }
    requires quiet { IsQuiet (past_of volume) }
    requires may { IsTold (past_of volume) → MayStageSome volume true (Some chosen) }
    ensures staged { IfOk result (λ new. (path : List (List ℕ))
        → (IsTold (past_of volume.entry) → MayStageFile volume.entry path true chosen)
        → StagesFile volume.entry new path true present.now chosen (Ok tt)) }
    ensures quiet { IfOk result (λ new. IsQuiet (past_of new)) }
    ensures halted { IfErr result (λ halt. (path : List (List ℕ))
        → (IsTold (past_of volume.entry) → MayStageFile volume.entry path true chosen)
        → StagesFile volume.entry halt.volume path true present.now chosen (Err halt.fault)) }
    ensures cause { IfErr result (λ halt.
        HasWriteCause (faults_of volume.entry) (faults_of halt.volume) halt.fault) }
{
    let volume = make_backup(volume, chosen, present)?;
    let from = pair.tilde.name.bytes();
    replace_name(volume, pair.tilde.directory, from, pair.plain.name.bytes())
}

/// Makes a backup of a boot sector on a sound volume, of what was chosen for it, where anything was: a regular file
/// with its 512 bytes. Where it is forced it is made under its name with `~`, and takes the place of the file that is
/// there, whose inode is freed where it has no other name; else it is made under its own name. Everything is made
/// durable in this order. Where nothing was chosen, nothing is done. No memory is taken.
///
/// # Errors
///
/// `Device` alone, where the disks report their past: then a part of it is done.
pub fn stage_backup<'d, D: Disks>(
    volume: Volume<'d, D>,
    backup: Option<Chosen>,
    pair: &Option<NamePair>,
    forced: bool,
    present: &Sector,
) -> Result<Volume<'d, D>, WriteHalt<'d, D>>
    // What was chosen.
    requires suits { IfSome backup (Suits volume.layout volume.span) }
    requires holes { IsTold (past_of volume) → IfSome backup HasNoHole }
    requires wished { IsForSome forced pair.now backup }
    requires inside { IsBackupInside volume.layout pair.now }
    requires twins { IsBackupTwins pair.now }
    requires called { IsBackupNamed pair.now }
    requires quiet { IsQuiet (past_of volume) }
    requires may { IsTold (past_of volume) → MayStageSome volume forced backup }

    // What is done.
    ensures staged { IfOk result (λ new. (path : List (List ℕ))
        → (IsTold (past_of volume.entry) → MayStage volume.entry path forced backup)
        → StagesBackup volume.entry new path forced present.now backup (Ok tt)) }
    ensures quiet { IfOk result (λ new. IsQuiet (past_of new)) }
    ensures halted { IfErr result (λ halt. (path : List (List ℕ))
        → (IsTold (past_of volume.entry) → MayStage volume.entry path forced backup)
        → StagesBackup volume.entry halt.volume path forced present.now backup (Err halt.fault)) }
    ensures cause { IfErr result (λ halt.
        HasWriteCause (faults_of volume.entry) (faults_of halt.volume) halt.fault) }
{
    match backup {
        None => Ok(volume),
        Some(chosen) => match pair {
            Some(pair) if forced => replace_backup(volume, chosen, pair, present),
            _ => make_backup(volume, chosen, present),
        },
    }
}
