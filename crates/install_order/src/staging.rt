// The files of an installation are made.
ghost use Rattle.std.specs.Prelude.{◌≡◌, ◌<◌, true, List, ℕ, All, IfSome, IfOk, IfErr, Ok, Err, is_some};
ghost use Rattle.disk_trait.specs.Moments.{IsTold, IsQuiet};
ghost use Rattle.install_apart.specs.Own.{IsBackupInside, IsBackupNamed, IsBackupTwins};
ghost use Rattle.install_stage.specs.BackupStages.{IsForSome};
ghost use Rattle.install_laws.specs.InstallVerdict.{file_mode};
ghost use Rattle.install_laws.specs.Writes.{IsApartSector};
ghost use Rattle.install_room.specs.Room.{HasNoHole, SuitRoom};
ghost use Rattle.install_stage.specs.Stages.{MayStageSomeRoom};
ghost use Rattle.minix_choice.specs.View.{HasWriteCause};
ghost use Rattle.minix_zones.specs.Volume.{volume_view, past_of, faults_of, sizes_of};
ghost use Rattle.install_order.specs.Faults.{HasInstallCause};
ghost use Rattle.install_order.specs.Stageable.{IsReady};
ghost use Rattle.install_order.specs.States.{HaltsStaging, IsStagedFor, MayBeCommitted, StagesFrom, StopsStaging};

use crate::fault::write_refusal;
use crate::halt::Halt;
use crate::planned::Planned;
use crate::staged::Staged;
use disk_trait::{Disks, Phase};
use install_apart::{NamePair, OwnNames};
use install_room::Room;
use install_stage::stage_files;
use map_sectors::MapPlan;
use minix_choice::{WriteFault, WriteHalt};
use minix_zones::Volume;
use sector_parts::Sector;
use std::mem::drop;

// The files of a plan are made, once all that was written before is durable.
fn stage_flushed<'d, D: Disks>(
    volume: Volume<'d, D>,
    room: Room,
    plan: &MapPlan,
    pair: &Option<NamePair>,
    forced: bool,
    present: &Sector,
) -> Result<Volume<'d, D>, WriteHalt<'d, D>>
    requires suits { SuitRoom volume.layout volume.span room }
    requires holes { IsTold (past_of volume) → IfSome room.backup HasNoHole }
    requires wished { IsForSome forced pair.now room.backup }
    requires mode { room.map.mode ≡ file_mode }
    requires disk { All (λ place. place.disk ≡ plan.now.disk) room.places.items }
    requires inside { IsBackupInside volume.layout pair.now }
    requires twins { IsBackupTwins pair.now }
    requires called { IsBackupNamed pair.now }
    requires may { IsTold (past_of volume) → MayStageSomeRoom volume forced plan.now room }
    ensures staged { IfOk result (λ new. StagesFrom volume.entry new forced present.now plan.now room (Ok tt)) }
    ensures quiet { IfOk result (λ new. IsQuiet (past_of new)) }
    ensures halted { IfErr result (StopsStaging volume.entry forced present.now plan.now room) }
    ensures cause { IfErr result (λ halt.
        HasWriteCause (faults_of volume.entry) (faults_of halt.volume) halt.fault) }
{
    let mut volume = volume;
    match volume.sync() {
        Ok(()) => stage_files(volume, room, plan, pair, forced, present),
        Err(_) => Err(WriteHalt {
            volume,
            fault: WriteFault::Device,
        }),
    }
}

impl<'d, D: Disks> Planned<'d, D> {
    /// Makes what an installation needs before its commit, on a volume whose names are settled: all that was written
    /// before is made durable; then the backup of the boot sector, where one is made, and the new map under its name
    /// with `~` are made, each whole and durable. What boots is left alone. No memory is taken.
    ///
    /// # Errors
    ///
    /// `Device` alone, where the disks report their past: then a part of it is done. The phase is `Before`.
    pub fn stage(self) -> Result<Staged<'d, D>, Halt<'d, D>>
        requires ready { IsReady self }
        requires settled { self.settled ≡ true }
        ensures staged { IfOk result (IsStagedFor self.entry) }
        ensures quiet { IfOk result (λ staged. IsQuiet (past_of staged.volume)) }
        ensures ready { (IsTold (past_of self.entry.volume)
            → IsApartSector (volume_view self.entry.volume) self.entry.boot.disk self.entry.boot.start)
            → IfOk result MayBeCommitted }
        ensures halted { IfErr result (HaltsStaging self.entry) }
        ensures cause { IfErr result (λ halt.
            HasInstallCause (faults_of self.entry.volume) (faults_of halt.volume) halt.fault) }
        ensures phase { IfErr result (λ halt. halt.phase ≡ Phase.Before) }
    {
        let Planned {
            volume,
            device: _,
            boot,
            time: _,
            own: OwnNames { map, backup },
            plan,
            room,
            present,
            settled: _,
        } = self;
        let mut sector = [0; 512];
        plan.boot_sector(room.places.as_slice(), &present, &mut sector);
        let forced = plan.config().force_backup.is_some();
        let staged = stage_flushed(volume, room, &plan, &backup, forced, &present);
        drop(plan);
        drop(backup);
        match staged {
            Ok(volume) => Ok(Staged {
                volume,
                boot,
                map,
                sector,
            }),
            Err(WriteHalt { volume, fault }) => {
                drop(map);
                Err(Halt {
                    volume,
                    phase: Phase::Before,
                    fault: write_refusal(fault),
                })
            }
        }
    }
}
