// What is staged of an installation.
ghost use Rattle.install_stage_laws.specs.ClearMap.{
  AddedKeepsLaw,
  KeepsAllLaw,
  KeepsButJoinedLaw,
  KeepsJoinedLaw,
  SeenKeepsLaw,
};
ghost use Rattle.install_stage_laws.specs.Committed.{
  CommitHoldsLaw,
  CommitSeenLaw,
  HoldsMapStaysLaw,
  SectorsSeenLaw,
  StagedLaysLaw,
  StagedTidiesLaw,
  TidiedLaysLaw,
};
ghost use Rattle.install_stage_laws.specs.Devices.{ApartDevicesLaw};
ghost use Rattle.install_stage_laws.specs.Mapped.{
  ButKeepMappedLaw,
  FilesKeepMappedLaw,
  MappedJoinedLaw,
  StagedClearLaw,
};
ghost use Rattle.install_stage_laws.specs.StageLaws.{
  ApartKeptLaw,
  HolderStaysLaw,
  HoldsBesideLaw,
  KeepsRestLaw,
  SeenHeldLaw,
  StagedHeldLaw,
  StagedMeansLaw,
  StagedWrittenLaw,
  StagesLaw,
};

/// A sector outside a volume, or of its block 0, is none that a writer of files may write, where what it chose are data
/// zones.
pub fn apart_sectors_are_not_written()
    ensures { ApartKeptLaw }
{}

/// A run that writes only what a writer of files may leaves all else as it was, in whatever a stop leaves and in what
/// is held.
pub fn unwritten_rest_is_kept()
    ensures { KeepsRestLaw }
{}

/// So such a run into free zones that the present map avoids promises what the headline asks of staging.
pub fn staging_promises_what_the_headline_asks()
    ensures { StagesLaw }
{}

/// Where a configuration is apart, the devices that it names are.
pub fn apart_configuration_has_apart_devices()
    ensures { ApartDevicesLaw }
{}

/// Once the boot sector is written over what was staged, what a plan's checks accepted is written, with an empty
/// default line.
pub fn staged_map_is_written()
    ensures { StagedWrittenLaw }
{}

/// And so that image means what the configuration and its files do.
pub fn staged_map_means_its_configuration()
    ensures { StagedMeansLaw }
{}

/// A file that holds the table of the boot sector holds it by each path that leads to it, where named files stay.
pub fn holder_stays()
    ensures { HolderStaysLaw }
{}

/// So it holds it by a name still where another path changed.
pub fn holder_stays_by_its_name()
    ensures { HoldsBesideLaw }
{}

/// And an image is Held as before where one path changed that is neither of the map's names, or that led nowhere.
pub fn staged_image_is_held()
    ensures { StagedHeldLaw }
{}

/// So it is where what has a name is seen as before.
pub fn image_seen_as_before_is_held()
    ensures { SeenHeldLaw }
{}

/// Where one path changed that led nowhere, each inode that was named is so still, and stays.
pub fn added_name_keeps_files()
    ensures { AddedKeepsLaw }
{}

/// And so they do where what has a name is seen as before.
pub fn image_seen_as_before_keeps_files()
    ensures { SeenKeepsLaw }
{}

/// Such changes join.
pub fn files_are_kept_in_a_row()
    ensures { KeepsJoinedLaw }
{}

/// Where all stay but what one path alone named, and it led nowhere, all do.
pub fn files_but_none_are_kept()
    ensures { KeepsAllLaw }
{}

/// So they do over a later change that keeps them.
pub fn files_but_one_are_kept_in_a_row()
    ensures { KeepsButJoinedLaw }
{}

/// Then the files that a configuration maps are kept.
pub fn mapped_files_are_kept()
    ensures { FilesKeepMappedLaw }
{}

/// And where all stay but what one path alone named, which is none of them.
pub fn mapped_files_are_kept_but_none()
    ensures { ButKeepMappedLaw }
{}

/// So they are over a later change that keeps files.
pub fn mapped_files_are_kept_in_a_row()
    ensures { MappedJoinedLaw }
{}

/// There the sectors that a planned map lies in, and those that it was planned from, are Clear, where its own are those
/// of a file of its own.
pub fn staged_map_is_clear()
    ensures { StagedClearLaw }
{}

/// Where a volume's sectors past its block 0 are as they were, and all are whole, what has a name is seen as before.
pub fn volume_past_block_0_is_seen()
    ensures { SectorsSeenLaw }
{}

/// So it is once a boot sector is written that is none of these.
pub fn committed_volume_is_seen_as_before()
    ensures { CommitSeenLaw }
{}

/// A map's places are those of its file still where named files stay, by whichever of its two names leads there.
pub fn map_stays_in_its_file()
    ensures { HoldsMapStaysLaw }
{}

/// So they are once that boot sector is written.
pub fn committed_map_is_held()
    ensures { CommitHoldsLaw }
{}

/// So with the boot sector written the disks have Lays of what was planned, where the map was staged in a file of its
/// own.
pub fn staged_map_has_lays()
    ensures { StagedLaysLaw }
{}

/// And a run from there that writes only what a writer of files may, in no new zone, leaves at every moment what means
/// the configuration.
pub fn tidying_of_a_staged_map_leaves_what_is_meant()
    ensures { StagedTidiesLaw }
{}

/// Each image that such a run leaves has Lays, where the map's places are still those of its file.
pub fn tidied_map_has_lays()
    ensures { TidiedLaysLaw }
{}
