// How an installation begins.
ghost use Rattle.install_stage_laws.specs.BeginLaws.{ApartBackupLaw, ApartBootLaw, OutsideStaysLaw, SparedLaw};
ghost use Rattle.install_stage_laws.specs.BeginLaws.{ClearAgainLaw, BeginsLaw};

/// The names of a backup, with `~` and without, are none of the map's, where a configuration is apart.
pub fn apart_backup_is_none_of_the_map()
    ensures { ApartBackupLaw }
{}

/// Then the first sector of the boot device isn't one of the volume's past its block 0.
pub fn apart_boot_sector_is_outside()
    ensures { ApartBootLaw }
{}

/// A run that begins quiet and writes nothing outside the volume leaves all that as it was, at every moment.
pub fn outside_is_left()
    ensures { OutsideStaysLaw }
{}

/// Where only what a writer of files may write differs, or the boot sector is another system's and as before, the
/// sectors of a Clear map are as before.
pub fn present_map_is_spared()
    ensures { SparedLaw }
{}

/// Where they are and no inode refers to another zone, the map is Clear again.
pub fn clear_map_is_clear_again()
    ensures { ClearAgainLaw }
{}

/// So such a run promises what the headline asks of the beginning of an installation.
pub fn beginning_promises_what_the_headline_asks()
    ensures { BeginsLaw }
{}
