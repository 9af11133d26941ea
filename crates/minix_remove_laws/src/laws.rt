// What the removal of a name does to a sound Minix volume.
ghost use Rattle.minix_remove_laws.specs.Files.{KeptFilesLaw};
ghost use Rattle.minix_remove_laws.specs.Laws.{AbsentLaw, AnyLinksLaw, EntryLaw, HeldLaw, ReleasedLaw};

/// An inode of which a directory has an entry has a name or is the root.
pub fn entry_leads_to_a_named_inode()
    ensures { EntryLaw }
{}

/// A name of a file or a link that a directory holds may go.
pub fn held_name_may_go()
    ensures { HeldLaw }
{}

/// A name that a directory doesn't hold is neither `.` nor `..`, and isn't found there.
pub fn name_that_is_not_held_is_absent()
    ensures { AbsentLaw }
{}

/// Once its entry is free, its inode may have a link less, or is left without a name.
pub fn removed_name_releases_its_inode()
    ensures { ReleasedLaw }
{}

/// No name sees that the links of an inode change which stay enough, whether it has a name or not.
pub fn links_may_change_without_a_name()
    ensures { AnyLinksLaw }
{}

/// Each inode with a name but a directory is as before, and points where it pointed, where only bytes of the
/// directory's zones are others.
pub fn files_stay_beside_a_directory()
    ensures { KeptFilesLaw }
{}
