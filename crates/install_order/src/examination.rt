// What an installation finds before it writes anything.
ghost use Rattle.std.specs.Prelude.{◌≡◌, ◌<◌, ◌≤◌, ◌&&◌, List, is_some, IfOk, IfErr, IfSome};
ghost use Rattle.disk_trait.specs.Past.{Told};
ghost use Rattle.lilo_model.specs.MinixNames.{IsSound};
ghost use Rattle.lilo_model.specs.MinixParts.{parts_of};
ghost use Rattle.lilo_model.specs.MinixSurvey.{Met};
ghost use Rattle.lilo_model.specs.Settled as model;
ghost use Rattle.lilo_conf.specs.View.{config_view};
ghost use Rattle.mbr_table.specs.View.{device_view};
ghost use Rattle.minix_layout.specs.View.{kind_view, super_view};
ghost use Rattle.minix_names.specs.Component.{HasNoZero, IsFileName};
ghost use Rattle.minix_tree.specs.View.{IsNode};
ghost use Rattle.minix_zones.specs.View.{span_view};
ghost use Rattle.minix_zones.specs.Volume.{volume_view, past_of, sizes_of, faults_of, SameVolume};
ghost use Rattle.sector_address.specs.Machine.{OnDisks};
ghost use Rattle.install_apart.specs.Own.{AreInside, AreOwnTwins, AreReplaceable, IsBackupNamed};
ghost use Rattle.install_settle.specs.Found.{AreFound, IsCopyLeft, IsLeft, has_copy};
ghost use Rattle.present_map.specs.Clear.{IsFound};
ghost use Rattle.present_map.specs.Old.{IsOldMap};
ghost use Rattle.install_order.specs.Checks.{IsLaid, GivesApart, GivesPresent, GivesRest, GivesExamined};
ghost use Rattle.install_order.specs.Faults.{HasInstallCause};

use crate::fault::{
    InstallFault, apart_refusal, name_refusal, old_refusal, settle_refusal, survey_refusal,
};
use disk_trait::{Disks, Span};
use install_apart::{OwnNames, check_apart, own_names};
use install_settle::{Settling, find_settling};
use lilo_conf::Config;
use mbr_table::Device;
use minix_survey::{Findings, survey};
use minix_zones::Volume;
use present_map::{OldMap, is_clear, read_old_map};
use std::alloc::Global;
use std::mem::drop;

/// What an installation finds: the names that it replaces, what a boot of the present map may look at, what there is to
/// settle, and whether the present map is Clear, where it is of this format.
#[derive(Drop)]
pub struct Examined {
    pub own: OwnNames,
    pub old: OldMap,
    pub settling: Settling,
    pub clear: Option<bool>,
}

// What a survey finds of a sound volume, from which a configuration is apart.
fn find_apart<D: Disks>(
    alloc: Global,
    volume: &mut Volume<'_, D>,
    config: &Config,
    device: Device,
) -> Result<Findings, InstallFault>
    requires laid { Told (past_of volume.old) (IsLaid (volume_view volume.old)) }
    ensures found { OnDisks D.Disks volume.old.disks.now (λ now machine.
        GivesApart now machine (volume_view volume.old) (config_view config.now) (device_view device) result) }
    ensures cause { IfErr result (HasInstallCause (faults_of volume.old) (faults_of volume.new)) }
    ensures later { faults_of volume.old ≤ faults_of volume.new }
    ensures same { SameVolume volume.old volume.new }
{
    let findings = match survey(alloc, volume) {
        Ok(findings) => findings,
        Err(fault) => return Err(survey_refusal(fault)),
    };
    match check_apart(alloc, volume, config, device) {
        Ok(()) => Ok(findings),
        Err(fault) => {
            drop(findings);
            Err(apart_refusal(fault))
        }
    }
}

/// The present map, and the names that an installation replaces.
#[derive(Drop)]
struct Present {
    old: OldMap,
    own: OwnNames,
}

// These, on a sound volume.
fn find_present<D: Disks>(
    alloc: Global,
    volume: &mut Volume<'_, D>,
    config: &Config,
    device: Device,
    boot: Span,
) -> Result<Present, InstallFault>
    requires on_disk { boot.start < sizes_of volume.old boot.disk }
    ensures found { OnDisks D.Disks volume.old.disks.now (λ now machine. IsSound (volume_view volume.old) now
        → GivesPresent now machine (volume_view volume.old) (config_view config.now) (device_view device)
        (span_view boot) result) }
    ensures files { IfOk result (λ found. AreReplaceable (is_some config.now.force_backup) found.own) }
    ensures inside { IfOk result (λ found. AreInside volume.old.layout found.own) }
    ensures twins { IfOk result (λ found. AreOwnTwins found.own) }
    ensures called { HasNoZero config.now.map → IfOk result (λ found. IsFileName found.own.map.plain.name) }
    ensures backup_called { IfSome config.now.backup HasNoZero → IfSome config.now.force_backup HasNoZero
        → IfOk result (λ found. IsBackupNamed found.own.backup) }
    ensures cause { IfErr result (HasInstallCause (faults_of volume.old) (faults_of volume.new)) }
    ensures later { faults_of volume.old ≤ faults_of volume.new }
    ensures same { SameVolume volume.old volume.new }
{
    let old = match read_old_map(alloc, volume, boot) {
        Ok(old) => old,
        Err(fault) => return Err(old_refusal(fault)),
    };
    match own_names(alloc, volume, config, device, old.is_foreign()) {
        Ok(own) => Ok(Present { old, own }),
        Err(fault) => {
            drop(old);
            Err(name_refusal(fault))
        }
    }
}

// What there is to settle, and whether the present map is Clear.
fn find_rest<D: Disks>(
    volume: &mut Volume<'_, D>,
    present: Present,
    findings: &Findings,
    boot: Span,
    forced: bool,
) -> Result<Examined, InstallFault>
    requires on_disk { boot.start < sizes_of volume.old boot.disk }
    requires plain { IfSome present.own.map.plain.there (IsNode volume.old) }
    requires tilde { IfSome present.own.map.tilde.there (IsNode volume.old) }
    requires files { AreReplaceable forced present.own }
    ensures found { OnDisks D.Disks volume.old.disks.now (λ now machine. (names : model.OwnNames) (met : List Met)
        → IsSound (volume_view volume.old) now
        → AreFound (super_view volume.old.layout) (parts_of (volume_view volume.old) now) names present.own
        → IsOldMap (volume_view volume.old) now machine (span_view boot) present.old
        → IsFound (volume_view volume.old) now findings.now met
        → GivesRest now machine (volume_view volume.old) (span_view boot) names met forced result) }
    ensures kept { IfOk result (λ found. (found.own ≡ present.own) × (found.old ≡ present.old)) }
    ensures left { IfOk result (λ found.
        IsLeft (kind_view volume.old.layout.kind) found.own.map found.settling.map) }
    ensures copy { IfOk result (λ found. IsCopyLeft found.own.backup found.settling.copy) }
    ensures copies { IfOk result (λ found. found.settling.copy ≡ (forced && has_copy found.own.backup)) }
    ensures cause { IfErr result (HasInstallCause (faults_of volume.old) (faults_of volume.new)) }
    ensures later { faults_of volume.old ≤ faults_of volume.new }
    ensures same { SameVolume volume.old volume.new }
{
    let settling = match find_settling(volume, boot, &present.own, forced) {
        Ok(settling) => settling,
        Err(fault) => {
            drop(present);
            return Err(settle_refusal(fault));
        }
    };
    match is_clear(volume, &present.old, findings) {
        Ok(clear) => Ok(Examined {
            own: present.own,
            old: present.old,
            settling,
            clear,
        }),
        Err(fault) => {
            drop(present);
            Err(old_refusal(fault))
        }
    }
}

/// What an installation finds before it writes anything: a survey finds the volume sound, the configuration is apart
/// from what is written, the names that it replaces may be, and a rename that is to be finished has a link left.
/// Nothing is written.
///
/// # Errors
///
/// `Survey`, `NotApart`, `Path` and `Write(Links)`, in this order; `Device` and `Memory`.
pub fn examine<D: Disks>(
    alloc: Global,
    volume: &mut Volume<'_, D>,
    config: &Config,
    device: Device,
    boot: Span,
) -> Result<Examined, InstallFault>
    requires laid { Told (past_of volume.old) (IsLaid (volume_view volume.old)) }
    requires on_disk { boot.start < sizes_of volume.old boot.disk }
    ensures found { OnDisks D.Disks volume.old.disks.now (λ now machine.
        GivesExamined now machine (volume_view volume.old) (config_view config.now) (device_view device)
        (span_view boot) result) }
    ensures files { IfOk result (λ found. AreReplaceable (is_some config.now.force_backup) found.own) }
    ensures inside { IfOk result (λ found. AreInside volume.old.layout found.own) }
    ensures twins { IfOk result (λ found. AreOwnTwins found.own) }
    ensures called { HasNoZero config.now.map → IfOk result (λ found. IsFileName found.own.map.plain.name) }
    ensures backup_called { IfSome config.now.backup HasNoZero → IfSome config.now.force_backup HasNoZero
        → IfOk result (λ found. IsBackupNamed found.own.backup) }
    ensures left { IfOk result (λ found.
        IsLeft (kind_view volume.old.layout.kind) found.own.map found.settling.map) }
    ensures copy { IfOk result (λ found. IsCopyLeft found.own.backup found.settling.copy) }
    ensures copies { IfOk result (λ found.
        found.settling.copy ≡ (is_some config.now.force_backup && has_copy found.own.backup)) }
    ensures cause { IfErr result (HasInstallCause (faults_of volume.old) (faults_of volume.new)) }
    ensures later { faults_of volume.old ≤ faults_of volume.new }
    ensures same { SameVolume volume.old volume.new }
{
    let findings = find_apart(alloc, volume, config, device)?;
    let present = find_present(alloc, volume, config, device, boot)?;
    find_rest(
        volume,
        present,
        &findings,
        boot,
        config.force_backup.is_some(),
    )
}
