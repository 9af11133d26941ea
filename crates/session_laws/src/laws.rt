// What follows for every list of commands and stops.
ghost use Rattle.session_laws.specs.Bodies.{BodyMeansLaw, OtherLineLaw, SparedLaw, StateBootsLaw};
ghost use Rattle.session_laws.specs.FileData.{DataLaw};
ghost use Rattle.session_laws.specs.Given.{BackupLaw, BootLineLaw, GivenLineLaw, PresentLineLaw, RestoreLaw};
ghost use Rattle.session_laws.specs.Kept.{ForeignLaw, RestoredLaw, WriterLaw};
ghost use Rattle.session_laws.specs.Leads.{NamePathLaw};
ghost use Rattle.session_laws.specs.LineWrites.{LineWriteLaw};
ghost use Rattle.session_laws.specs.Origins.{BodyLaw, BootsLaw, DevicesAtEntryLaw, ForeignBootsLaw, LineLaw};
ghost use Rattle.session_laws.specs.Sessions.{HeldLaw, JoinedLaw, SessionLaw, TurnLaw};
ghost use Rattle.session_laws.specs.Turns.{BootMakesLaw, BootStaysLaw, HeldLineLaw, OneTurnLaw, RestoreMakesLaw, ShotMakesLaw, StillTurnLaw, UnchangedLaw};
ghost use Rattle.session_laws.specs.Writers.{WriterRunLaw};

/// Each image of a session keeps what the first one did, and its state is reached by Step.
pub fn sessions_are_reached_by_step()
    ensures { SessionLaw }
{}

/// Each is Held, where the first one is and each command leaves the map at its name.
pub fn held_sessions_stay_held()
    ensures { HeldLaw }
{}

/// Sessions in a row are one.
pub fn sessions_join()
    ensures { JoinedLaw }
{}

/// A call that leaves what its command may leave goes on a session, at any moment and from its exit on.
pub fn calls_go_on_sessions()
    ensures { TurnLaw }
{}

/// The body is of the beginning, of the last acknowledged command that makes one, or of one stopped since.
pub fn bodies_are_of_the_last_that_makes_one()
    ensures { BodyLaw }
{}

/// The default line likewise.
pub fn lines_are_of_the_last_that_makes_one()
    ensures { LineLaw }
{}

/// So is what boots: as the beginning does, as the configuration means, or the restored sector.
pub fn what_boots_is_of_the_last_that_makes_it()
    ensures { BootsLaw }
{}

/// A body of one sector of another system boots that sector.
pub fn foreign_bodies_are_handed_over()
    ensures { ForeignBootsLaw }
{}

/// Devices that are found outside the volume are, once names are settled, those at the entry.
pub fn outside_devices_are_those_at_the_entry()
    ensures { DevicesAtEntryLaw }
{}

/// Two images of one body and one line boot the same.
pub fn states_decide_what_boots()
    ensures { StateBootsLaw }
{}

/// Where the Mapped sectors are as they were, so are body and line.
pub fn spared_sectors_keep_the_state()
    ensures { SparedLaw }
{}

/// Another default line in its sector leaves the body.
pub fn another_line_keeps_the_body()
    ensures { OtherLineLaw }
{}

/// Where an image boots as is meant with each default line, so does each image with its body.
pub fn bodies_mean_what_their_images_do()
    ensures { BodyMeansLaw }
{}

/// A writer of files that writes no Mapped sector keeps what a session keeps, and body and line.
pub fn writers_keep_what_a_session_does()
    ensures { WriterLaw }
{}

/// So it is of each image that a run of a writer of files leaves.
pub fn runs_of_writers_keep_what_a_session_does()
    ensures { WriterRunLaw }
{}

/// Another system's boot sector keeps what a session keeps, and is the body.
pub fn foreign_sectors_keep_what_a_session_does()
    ensures { ForeignLaw }
{}

/// What is restored of a backup is another system's boot sector exactly where the backup is one.
pub fn restored_sectors_are_as_foreign_as_the_backup()
    ensures { RestoredLaw }
{}

/// Other bytes in a zone of a file's data leave a sound volume, with the same Names but for that file's bytes.
pub fn other_data_keeps_a_volume_sound()
    ensures { DataLaw }
{}

/// A write of the default line keeps what a session keeps, and changes the line alone.
pub fn written_lines_keep_what_a_session_does()
    ensures { LineWriteLaw }
{}

/// A boot gives the present default line, or one that differs from it.
pub fn boots_give_the_present_line_or_another()
    ensures { BootLineLaw }
{}

/// Where no default line is written, the line is the present one, and else the state is as before.
pub fn unwritten_lines_stay()
    ensures { PresentLineLaw }
{}

/// A boot sector that is restored of another system's keeps what a session keeps, and is what `-u` makes.
pub fn restored_sectors_keep_what_a_session_does()
    ensures { RestoreLaw }
{}

/// On a sound volume a backup of one sector, as it is read, is the file that Names have at its path.
pub fn read_backups_are_the_named_ones()
    ensures { BackupLaw }
{}

/// The default line that a boot gives is one that its sector can say.
pub fn given_lines_can_be_said()
    ensures { GivenLineLaw }
{}

/// A text leads to the name that it led to, where each directory and each link is one still.
pub fn texts_lead_where_directories_and_links_stay()
    ensures { NamePathLaw }
{}

/// Where nothing was written, the image is left by a command that isn't answered that it was done.
pub fn unwritten_images_are_left()
    ensures { UnchangedLaw }
{}

/// A write of the default line leaves the map with its Holder.
pub fn written_lines_keep_the_holder()
    ensures { HeldLineLaw }
{}

/// A boot that gives the present line leaves the image as it is.
pub fn boots_that_keep_the_line_leave_the_image()
    ensures { BootStaysLaw }
{}

/// A boot leaves the line that it gives in the line's sector.
pub fn boots_leave_the_line_that_they_give()
    ensures { BootMakesLaw }
{}

/// `-R` leaves the line of its text there.
pub fn shots_leave_the_line_of_their_text()
    ensures { ShotMakesLaw }
{}

/// `-u` leaves the boot sector that is restored of another system's backup.
pub fn restored_backups_are_left()
    ensures { RestoreMakesLaw }
{}

/// A call that wrote nothing, and isn't answered that it was done, leaves what its command may leave.
pub fn calls_that_write_nothing_are_turns()
    ensures { StillTurnLaw }
{}

/// So does one that leaves what was held or what its command makes, by how far it came.
pub fn calls_that_write_a_sector_are_turns()
    ensures { OneTurnLaw }
{}
