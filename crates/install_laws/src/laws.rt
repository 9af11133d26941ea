// What follows of the promises of an installation's steps.
ghost use Rattle.install_laws.specs.Answered.{AnsweredLaw, RefusedLaw};
ghost use Rattle.install_laws.specs.ClearTest.{ClearTestLaw};
ghost use Rattle.install_laws.specs.Headline.{HeadlineLaw};
ghost use Rattle.install_laws.specs.Planned.{AcceptedMeansLaw, MeansLaw};
ghost use Rattle.install_laws.specs.Stopped.{CommitEndsLaw, PreparesLaw};
ghost use Rattle.install_laws.specs.Writes.{ApartWriteLaw, OutsideLaw, SparesLaw, UnwrittenLaw, WritesOnlyLaw};

/// At every moment of an installation whose steps promise what is stated, a stop leaves what boots as before or as is
/// meant, the same of the two for all keys and any memory; and from the commit on only as is meant.
pub fn stop_leaves_what_boots_as_before_or_as_meant()
    ensures { HeadlineLaw }
{}

/// An installation that ends before its commit leaves at every moment what boots as before, where the old map is Clear.
pub fn stop_before_the_commit_leaves_what_boots_as_before()
    ensures { PreparesLaw }
{}

/// One that ends in its commit leaves what boots as before or as is meant, the same of the two for all keys and any
/// memory.
pub fn stop_in_the_commit_leaves_one_of_the_two()
    ensures { CommitEndsLaw }
{}

/// Where what a configuration plans lies, and its default line is empty, an image means the configuration and its
/// files: it boots so, and with each other default line too.
pub fn planned_map_means_its_configuration()
    ensures { MeansLaw }
{}

/// So does an image where what the checks of a plan accept on a sound volume is written.
pub fn accepted_plan_means_its_configuration()
    ensures { AcceptedMeansLaw }
{}

/// A run that writes only where a writer of files may spares the sectors of a Clear map that its chosen zones avoid.
pub fn clear_map_is_spared()
    ensures { SparesLaw }
{}

/// A run that begins quiet leaves in each sector that it doesn't write what it found there, at every moment.
pub fn unwritten_sectors_stay()
    ensures { UnwrittenLaw }
{}

/// So one whose events write nothing but what a writer of files may writes only there.
pub fn unwritten_rest_is_a_writer_of_files()
    ensures { WritesOnlyLaw }
{}

/// A write to a sector that isn't a volume's leaves it sound, with the same Names.
pub fn write_outside_keeps_a_volume()
    ensures { OutsideLaw }
{}

/// So does one to its block 0, where a boot sector may lie.
pub fn write_to_a_boot_block_keeps_a_volume()
    ensures { ApartWriteLaw }
{}

/// An installation that is answered passed each of its checks: it is sound and apart, its names may be replaced, what
/// it maps and the map's own places are accepted, and there is room.
pub fn answered_installation_passed_its_checks()
    ensures { AnsweredLaw }
{}

/// One that is refused has a status from 2 to 5.
pub fn refused_installation_has_a_status_of_its_checks()
    ensures { RefusedLaw }
{}

/// The test of Clear by which an installation warns passes exactly where the present map is Clear.
pub fn clear_test_is_clear()
    ensures { ClearTestLaw }
{}
