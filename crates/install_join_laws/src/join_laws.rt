// What an installation leaves at every moment.
ghost use Rattle.install_join_laws.specs.JoinLaws.{
  BeginningStopsLaw,
  InstallationCommitEndsLaw,
  InstallationLaw,
  InstallationMeansLaw,
  StagingPreparesLaw,
  StagingStopsLaw,
};
ghost use Rattle.install_join_laws.specs.KeptLaws.{
  BeginningKeepsLaw,
  CommitKeepsLaw,
  CommitMapLaw,
  CommittedBackupLaw,
  InstallationKeepsLaw,
  InstalledLaw,
  PlanKeepsLaw,
  StagingKeepsLaw,
  StagingMapLaw,
};
ghost use Rattle.install_join_laws.specs.LaidLaws.{CommittedLaysLaw, InstalledLaysLaw};

use disk_trait::Disks;

/// At every moment a stop of a beginning, also of one that was refused, leaves what boots as before, where the old map
/// is Clear.
pub fn stopped_beginning_leaves_what_boots_as_before<D: Disks>()
    ensures { BeginningStopsLaw D.Disks }
{}

/// What is staged, or a part of it, promises what the headline asks of an installation until its commit.
pub fn staging_prepares<D: Disks>()
    ensures { StagingPreparesLaw D.Disks }
{}

/// So at every moment a stop of a staging that was refused leaves what boots as before, where the old map is Clear.
pub fn stopped_staging_leaves_what_boots_as_before<D: Disks>()
    ensures { StagingStopsLaw D.Disks }
{}

/// Once the boot sector is written over what was staged, the image means the configuration and its files.
pub fn staged_installation_means_its_configuration<D: Disks>()
    ensures { InstallationMeansLaw D.Disks }
{}

/// An installation that ended in its commit leaves at every moment what boots as before or as is meant.
pub fn commit_ends_an_installation<D: Disks>()
    ensures { InstallationCommitEndsLaw D.Disks }
{}

/// One that is committed has the headline, whether or not its tidying was refused: at every moment a stop leaves what
/// boots as before or as is meant, the same of the two for all keys and any memory, and from the commit on only as is
/// meant.
pub fn installation_is_the_headline<D: Disks>()
    ensures { InstallationLaw D.Disks }
{}

/// At every moment a beginning, also one that was refused, leaves a sound volume sound, a Held image Held and all names
/// as before but those that settling changes, and these as before or as in Settled.
pub fn beginning_keeps_names<D: Disks>()
    ensures { BeginningKeepsLaw D.Disks }
{}

/// So does an installation whose plan was refused, with the backup as before.
pub fn stopped_plan_keeps_names<D: Disks>()
    ensures { PlanKeepsLaw D.Disks }
{}

/// An installation that ended in its staging keeps a sound volume sound and a Held image Held, at every moment, and
/// every name as before but the map's and the backup's, which are as before, settled or whole.
pub fn stopped_staging_keeps_names<D: Disks>()
    ensures { StagingKeepsLaw D.Disks }
{}

/// So does one that ended in its commit.
pub fn stopped_commit_keeps_names<D: Disks>()
    ensures { CommitKeepsLaw D.Disks }
{}

/// So does one that is committed, whether or not its tidying was refused.
pub fn installation_keeps_names<D: Disks>()
    ensures { InstallationKeepsLaw D.Disks }
{}

/// Until its commit an installation leaves at `map`, at every moment, what was there, or what is in Settled.
pub fn staging_keeps_the_old_map<D: Disks>()
    ensures { StagingMapLaw D.Disks }
{}

/// So it does in the commit.
pub fn commit_keeps_the_old_map<D: Disks>()
    ensures { CommitMapLaw D.Disks }
{}

/// From the commit on the backup is the whole old boot sector, where one was to be made, and else as before.
pub fn committed_installation_has_its_backup<D: Disks>()
    ensures { CommittedBackupLaw D.Disks }
{}

/// Once it is done, the map is the whole new map, its backup is there, and nothing is at their names with `~`.
pub fn done_installation_has_its_map<D: Disks>()
    ensures { InstalledLaw D.Disks }
{}

/// From the commit on, also where tidying was refused, the map lies as it was planned, in the file at the path of `map`
/// or at that with `~`, and what stays of the boot sector that was there is there.
pub fn committed_map_lies_as_planned<D: Disks>()
    ensures { CommittedLaysLaw D.Disks }
{}

/// Once it is done, the map lies so in the file at the path of `map` itself.
pub fn done_map_lies_as_planned<D: Disks>()
    ensures { InstalledLaysLaw D.Disks }
{}
