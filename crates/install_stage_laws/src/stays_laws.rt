// What stays where nothing is written.
ghost use Rattle.install_stage_laws.specs.StaysLaws.{ClearStaysLaw, MeansStaysLaw, TidyLaw};

/// Where what a configuration plans lies in one image, another one with the same bytes in its boot sector, in the map
/// and in all that is mapped means what the configuration does.
pub fn planned_map_means_what_it_did()
    ensures { MeansStaysLaw }
{}

/// A run that writes only what a writer of files may, in no new zone, leaves the bytes of each place that is Clear.
pub fn clear_places_are_left()
    ensures { ClearStaysLaw }
{}

/// So where what was planned lies, and what it lies in is Clear, such a run leaves at every moment what means what the
/// configuration does: what an installation promises of tidying.
pub fn tidying_leaves_what_is_meant()
    ensures { TidyLaw }
{}
