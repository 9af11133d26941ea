// What an installation's new map keeps of a session.
ghost use Rattle.session_install_laws.specs.Planned.{CommittedKeepsLaw, CommittedMeansLaw, LineApartLaw, MappedLiesLaw};
ghost use Rattle.session_install_laws.specs.Runs.{FileRunLaw, TidiedKeepsLaw};

/// What a boot of a planned map may look at is its boot sector, the map's sectors, or those of its files.
pub fn mapped_sectors_of_a_planned_map_are_its_own()
    ensures { MappedLiesLaw }
{}

/// Its default line's sector is no other of them.
pub fn default_line_of_a_planned_map_is_apart()
    ensures { LineApartLaw }
{}

/// Once its boot sector is written, a staged map is Clear, and all is kept that each image of a session keeps.
pub fn committed_map_keeps_what_a_session_does()
    ensures { CommittedKeepsLaw }
{}

/// Its body boots as the configuration and its files mean, with each default line, and the line is empty.
pub fn committed_map_is_a_new_body()
    ensures { CommittedMeansLaw }
{}

/// A run that writes only what a writer of files may, and gains no zone with a Mapped sector, keeps what a session
/// keeps, with body and line, at every moment.
pub fn runs_beside_a_map_keep_what_a_session_does()
    ensures { FileRunLaw }
{}

/// After a commit it keeps the new map.
pub fn runs_after_a_commit_keep_the_new_map()
    ensures { TidiedKeepsLaw }
{}
