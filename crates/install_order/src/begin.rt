// An installation begins.
ghost use Rattle.std.specs.Prelude.{
  ◌≡◌,
  ◌≢◌,
  ◌<◌,
  ◌≤◌,
  true,
  false,
  is_some,
  IfOk,
  IfErr,
  IfSome,
  Some,
};
ghost use Rattle.disk_trait.specs.Moments.{IsTold, IsQuiet};
ghost use Rattle.disk_trait.specs.Past.{Told};
ghost use Rattle.lilo_model.specs.ConfLawful.{IsLawful};
ghost use Rattle.lilo_conf.specs.View.{config_view};
ghost use Rattle.mbr_table.specs.View.{device_view};
ghost use Rattle.minix_zones.specs.View.{span_view};
ghost use Rattle.minix_zones.specs.Volume.{volume_view, past_of, sizes_of, faults_of, SameVolume};
ghost use Rattle.sector_address.specs.Machine.{OnDisks};
ghost use Rattle.install_settle.specs.Found.{is_anything};
ghost use Rattle.install_order.specs.Answers.{
  volume_in,
  found_in,
  IsFor,
  IsKnown,
  IsLookedAt,
  Leaves,
  Promises,
  SaysClear,
  Settled,
};
ghost use Rattle.install_order.specs.Begins.{HasNothingLeft};
ghost use Rattle.install_order.specs.Checks.{IsLaid, GivesExamined, StaysRefused};
ghost use Rattle.install_order.specs.Faults.{HasInstallCause};
ghost use Rattle.install_order.specs.Plans.{Surveys};
ghost use Rattle.install_order.specs.View.{begun_of};

use crate::examination::examine;
use crate::fault::{InstallFault, write_refusal};
use crate::halt::Halt;
use crate::surveyed::Surveyed;
use disk_trait::{Disks, Phase, Span};
use install_settle::settle;
use lilo_conf::Config;
use mbr_table::Device;
use minix_choice::WriteHalt;
use minix_zones::Volume;
use std::alloc::Global;
use std::mem::drop;

// The device that a configuration boots, which it has.
fn boot_device(config: &Config) -> Device
    requires { is_some config.now.boot ≡ true }
    ensures { config.now.boot ≡ Some result }
{
    match config.boot {
        Some(device) => device,
        None => Device {
            disk: 0,
            partition: 0,
        },
    }
}

// An end before the commit.
fn stopped<'d, D: Disks>(volume: Volume<'d, D>, fault: InstallFault) -> Halt<'d, D>
    ensures volume { result.volume ≡ volume.entry }
    ensures phase { result.phase ≡ Phase.Before }
    ensures fault { result.fault ≡ fault }
{
    Halt {
        volume,
        phase: Phase::Before,
        fault,
    }
}

impl<'d, D: Disks> Surveyed<'d, D> {
    /// Surveys a volume for a configuration, and looks what there is to settle, as `begin` does, but settles nothing.
    ///
    /// # Errors
    ///
    /// `Survey`, `NotApart`, `Path` and `Write(Links)`, in this order; `Device` and `Memory`. The phase is `Before`.
    pub fn look(
        alloc: Global,
        volume: Volume<'d, D>,
        config: Config,
        boot: Span,
        now: u32,
    ) -> Result<Surveyed<'d, D>, Halt<'d, D>>
        requires laid { Told (past_of volume) (IsLaid (volume_view volume)) }
        requires on_disk { boot.start < sizes_of volume boot.disk }
        requires device { is_some config.boot ≡ true }
        requires lawful { IsLawful (config_view config) }

        // What is found, or the first refusal.
        ensures found { IfSome config.boot (λ device. OnDisks D.Disks volume.entry.disks.now (λ image machine.
            GivesExamined image machine (volume_view volume.entry) (config_view config) (device_view device)
            (span_view boot) (found_in result))) }
        ensures held { IfOk result (IsFor config boot now false) }
        ensures known { IfOk result IsKnown }
        ensures clear { IfSome config.boot (λ device.
            IfOk result (SaysClear volume.entry (begun_of volume.entry config device boot))) }
        ensures cause { IfErr result (λ halt.
            HasInstallCause (faults_of volume.entry) (faults_of halt.volume) halt.fault) }
        ensures phase { IfErr result (λ halt. halt.phase ≡ Phase.Before) }
        ensures later { faults_of volume.entry ≤ faults_of (volume_in result) }

        // Nothing is written.
        ensures same { SameVolume volume.entry (volume_in result) }
    {
        let mut volume = volume;
        let device = boot_device(&config);
        match examine(alloc, &mut volume, &config, device, boot) {
            Ok(found) => Ok(Surveyed {
                volume,
                config,
                device,
                boot,
                time: now,
                found,
                settled: false,
            }),
            Err(fault) => {
                drop(config);
                Err(stopped(volume, fault))
            }
        }
    }

    // Settles the names that were looked at.
    fn settle_names(self) -> Result<Surveyed<'d, D>, Halt<'d, D>>
        requires looked { self.settled ≡ false }
        requires known { IsKnown self }
        ensures nothing { is_anything self.entry.found.settling ≡ false
            → past_of (volume_in result) ≡ past_of self.entry.volume }
        ensures leaves { Leaves self.entry.volume (volume_in result)
            (begun_of self.entry.volume self.entry.config self.entry.device self.entry.boot) }
        ensures settled { IfOk result (Settled self.entry.volume
            (begun_of self.entry.volume self.entry.config self.entry.device self.entry.boot)) }
        ensures quiet { IsQuiet (past_of self.entry.volume)
            → IfOk result (λ surveyed. IsQuiet (past_of surveyed.volume)) }
        ensures held { IfOk result (IsLookedAt self.entry) }
        ensures known { IfOk result IsKnown }
        ensures device { IsTold (past_of self.entry.volume)
            → IfErr result (λ halt. halt.fault ≡ InstallFault.Device) }
        ensures cause { IfErr result (λ halt.
            HasInstallCause (faults_of self.entry.volume) (faults_of halt.volume) halt.fault) }
        ensures phase { IfErr result (λ halt. halt.phase ≡ Phase.Before) }
    {
        let Surveyed {
            volume,
            config,
            device,
            boot,
            time,
            found,
            settled: _,
        } = self;
        match settle(volume, &found.own, found.settling) {
            Ok(volume) => Ok(Surveyed {
                volume,
                config,
                device,
                boot,
                time,
                found,
                settled: true,
            }),
            Err(WriteHalt { volume, fault }) => {
                drop(config);
                drop(found);
                Err(stopped(volume, write_refusal(fault)))
            }
        }
    }

    /// Begins an installation: surveys a volume for a configuration, tests that this is apart from what is written, and
    /// settles what an earlier installation left behind, where there is anything, once all that was written before is
    /// durable. The boot device lies in the span, as the caller found it. The time is in seconds since 1970.
    ///
    /// # Errors
    ///
    /// `Survey`, `NotApart`, `Path` and `Write(Links)`, in this order, before anything is written; `Memory`, likewise;
    /// `Device`, and then some of it may be settled. The phase is `Before`.
    pub fn begin(
        alloc: Global,
        volume: Volume<'d, D>,
        config: Config,
        boot: Span,
        now: u32,
    ) -> Result<Surveyed<'d, D>, Halt<'d, D>>
        requires laid { Told (past_of volume) (IsLaid (volume_view volume)) }
        requires on_disk { boot.start < sizes_of volume boot.disk }
        requires device { is_some config.boot ≡ true }
        requires lawful { IsLawful (config_view config) }

        // What is found, or the first refusal, and then nothing is written.
        ensures found { IfSome config.boot (λ device. OnDisks D.Disks volume.entry.disks.now (λ image machine.
            GivesExamined image machine (volume_view volume.entry) (config_view config) (device_view device)
            (span_view boot) (found_in result))) }
        ensures refused { IfErr result (λ halt. halt.fault ≢ InstallFault.Device
            → past_of halt.volume ≡ past_of volume.entry) }
        ensures unbegun { IfSome config.boot (λ device. OnDisks D.Disks volume.entry.disks.now (λ image machine.
            StaysRefused image machine (begun_of volume.entry config device boot) (past_of volume.entry)
            (past_of (volume_in result)))) }
        ensures cause { IfErr result (λ halt.
            HasInstallCause (faults_of volume.entry) (faults_of halt.volume) halt.fault) }
        ensures phase { IfErr result (λ halt. halt.phase ≡ Phase.Before) }

        // What is settled, at any moment and in the end. Where nothing is left to settle, nothing is written.
        ensures nothing { IfSome config.boot (λ device. OnDisks D.Disks volume.entry.disks.now (λ image _.
            HasNothingLeft image (begun_of volume.entry config device boot)
            → past_of (volume_in result) ≡ past_of volume.entry)) }
        ensures leaves { IfSome config.boot (λ device.
            Leaves volume.entry (volume_in result) (begun_of volume.entry config device boot)) }
        ensures settled { IfSome config.boot (λ device.
            IfOk result (Settled volume.entry (begun_of volume.entry config device boot))) }
        ensures promises { IsQuiet (past_of volume.entry) → IfSome config.boot (λ device.
            IfOk result (Promises volume.entry (begun_of volume.entry config device boot))) }
        ensures quiet { IsQuiet (past_of volume.entry)
            → IfOk result (λ surveyed. IsQuiet (past_of surveyed.volume)) }
        ensures held { IfOk result (IsFor config boot now true) }
        ensures known { IfOk result IsKnown }
        ensures surveyed { IfSome config.boot (λ device.
            IfOk result (Surveys volume.entry (begun_of volume.entry config device boot))) }
        ensures clear { IfSome config.boot (λ device.
            IfOk result (SaysClear volume.entry (begun_of volume.entry config device boot))) }
    {
        let looked = Surveyed::look(alloc, volume, config, boot, now)?;
        looked.settle_names()
    }
}
