// The directories of the names that an installation replaces, as they are.
ghost use Rattle.std.specs.Prelude.{◌≡◌, ◌≤◌, ℕ, Result, OnOk, IfErr, IsErr};
ghost use Rattle.disk_trait.specs.Past.{Told};
ghost use Rattle.lilo_model.specs.MinixFind as finds;
ghost use Rattle.lilo_model.specs.MinixParts.{parts_of};
ghost use Rattle.minix_layout.specs.View.{super_view};
ghost use Rattle.minix_tree.specs.View.{Refuses, HasTreeCause};
ghost use Rattle.minix_zones.specs.Volume.{volume_view, past_of, faults_of, SameVolume};
ghost use Rattle.install_apart.specs.Names.{ArePairsInside, AreTwins};
ghost use Rattle.install_apart.specs.Own.{AreInside, AreOwnTwins, IsBackupInside, IsBackupTwins};
ghost use Rattle.install_order.specs.Faults.{HasInstallCause};
ghost use Rattle.install_order.specs.Stageable.{
  BackupLiesWhereSound,
  IsSmallWhereRead,
  LieWhereSound,
  PairLiesWhereSound,
};

use crate::fault::InstallFault;
use disk_trait::Disks;
use install_apart::{NamePair, OwnNames};
use minix_tree::{TreeFault, stat_of};
use minix_zones::{Volume, ZoneFault};

// Whether the disk failed. What else is refused of a directory is refused where a place is chosen in it.
fn unless_failed(fault: TreeFault) -> Result<(), InstallFault>
    ensures fault { IfErr result (λ why. why ≡ InstallFault.Device) }
    ensures cause { (before now : ℕ) → HasTreeCause before now fault → IfErr result (HasInstallCause before now) }
    ensures refused { (before now : ℕ) (found : Result ℕ finds.TreeFault)
        → HasTreeCause before now fault → Refuses fault found → OnOk result (IsErr found) }
{
    match fault {
        TreeFault::Zone(ZoneFault::Device) => Err(InstallFault::Device),
        TreeFault::Zone(ZoneFault::Layout(_) | ZoneFault::ZoneOutside(_))
        | TreeFault::NotFound(_)
        | TreeFault::NotDirectory(_)
        | TreeFault::NotFile
        | TreeFault::TooManyLinks
        | TreeFault::BadEntry(_)
        | TreeFault::PathTooLong
        | TreeFault::Memory => Ok(()),
    }
}

// A directory is read again: its size has 32 bits.
fn look_at<D: Disks>(volume: &mut Volume<'_, D>, directory: u32) -> Result<(), InstallFault>
    requires some { 1 ≤ directory }
    requires there { directory ≤ volume.old.layout.inodes }
    ensures small { Told (past_of volume.old) (λ image. OnOk result
        (IsSmallWhereRead (super_view volume.old.layout) (parts_of (volume_view volume.old) image) directory)) }
    ensures fault { IfErr result (λ fault. fault ≡ InstallFault.Device) }
    ensures cause { IfErr result (HasInstallCause (faults_of volume.old) (faults_of volume.new)) }
    ensures later { faults_of volume.old ≤ faults_of volume.new }
    ensures same { SameVolume volume.old volume.new }
{
    match stat_of(volume, directory) {
        Ok(_) => Ok(()),
        Err(fault) => unless_failed(fault),
    }
}

// That of a pair of names, which is one.
fn look_at_pair<D: Disks>(volume: &mut Volume<'_, D>, pair: &NamePair) -> Result<(), InstallFault>
    requires inside { ArePairsInside volume.old.layout pair.now }
    requires twins { AreTwins pair.now }
    ensures lies { OnOk result (PairLiesWhereSound volume.new pair.now) }
    ensures fault { IfErr result (λ fault. fault ≡ InstallFault.Device) }
    ensures cause { IfErr result (HasInstallCause (faults_of volume.old) (faults_of volume.new)) }
    ensures later { faults_of volume.old ≤ faults_of volume.new }
    ensures same { SameVolume volume.old volume.new }
{
    look_at(volume, pair.plain.directory)
}

// That of a backup's names, where one may be made.
fn look_at_backup<D: Disks>(
    volume: &mut Volume<'_, D>,
    backup: &Option<NamePair>,
) -> Result<(), InstallFault>
    requires inside { IsBackupInside volume.old.layout backup.now }
    requires twins { IsBackupTwins backup.now }
    ensures lies { OnOk result (BackupLiesWhereSound volume.new backup.now) }
    ensures fault { IfErr result (λ fault. fault ≡ InstallFault.Device) }
    ensures cause { IfErr result (HasInstallCause (faults_of volume.old) (faults_of volume.new)) }
    ensures later { faults_of volume.old ≤ faults_of volume.new }
    ensures same { SameVolume volume.old volume.new }
{
    match backup {
        Some(pair) => look_at_pair(volume, pair),
        None => Ok(()),
    }
}

// Those of all names that are replaced.
pub(crate) fn look_at_names<D: Disks>(
    volume: &mut Volume<'_, D>,
    own: &OwnNames,
) -> Result<(), InstallFault>
    requires inside { AreInside volume.old.layout own.now }
    requires twins { AreOwnTwins own.now }
    ensures lie { OnOk result (LieWhereSound volume.new own.now) }
    ensures fault { IfErr result (λ fault. fault ≡ InstallFault.Device) }
    ensures cause { IfErr result (HasInstallCause (faults_of volume.old) (faults_of volume.new)) }
    ensures later { faults_of volume.old ≤ faults_of volume.new }
    ensures same { SameVolume volume.old volume.new }
{
    look_at_pair(volume, &own.map)?;
    look_at_backup(volume, &own.backup)
}
