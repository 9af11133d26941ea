// What a change of one entry of a directory does to a sound Minix volume.
ghost use Rattle.minix_change_laws.specs.EntryLaws.{
  ChangedLaw,
  EnterDirectoryLaw,
  EnterLaw,
  FileLaw,
  FitLaw,
  KeepsNamedLaw,
  NewDirectoryLaw,
  NewFileLaw,
  RedirectLastLaw,
  RedirectLaw,
  RemoveLastLaw,
  RemoveLaw,
  RemoveLowerLaw,
  ReplaceLaw,
  StoodLaw,
  RenameLaw,
};

/// Where an entry that may go becomes one that may come, a sound volume stays sound.
pub fn changed_entry_keeps_a_volume_sound()
    ensures { ChangedLaw }
{}

/// Where one entry changes, what has a name before and after stays.
pub fn named_inodes_stay()
    ensures { KeepsNamedLaw }
{}

/// An inode with a name is fit for another.
pub fn named_inode_is_fit()
    ensures { FitLaw }
{}

/// One that is no directory stays as it is where one entry changes.
pub fn named_file_stays()
    ensures { FileLaw }
{}

/// A directory without a name, with nothing in it but `.` and `..`, is new.
pub fn directory_with_dots_is_new()
    ensures { NewDirectoryLaw }
{}

/// An entry that is made adds one name.
pub fn made_entry_adds_a_name()
    ensures { EnterLaw }
{}

/// And so does that of a new directory.
pub fn new_directory_adds_a_name()
    ensures { EnterDirectoryLaw }
{}

/// An entry that becomes free takes one name away.
pub fn freed_entry_takes_a_name_away()
    ensures { RemoveLaw }
{}

/// An entry of another inode leads its name to that one.
pub fn redirected_entry_leads_its_name()
    ensures { RedirectLaw }
{}

/// An entry with another name leads that one to where the former one led.
pub fn renamed_entry_moves_a_name()
    ensures { RenameLaw }
{}

/// An inode whose only name goes is left without one.
pub fn last_name_leaves_an_inode()
    ensures { RemoveLastLaw }
{}

/// And so is one whose only name is led to another.
pub fn redirected_last_name_leaves_an_inode()
    ensures { RedirectLastLaw }
{}

/// Where an entry lies that may go, its name leads to its inode.
pub fn standing_entry_leads_its_name()
    ensures { StoodLaw }
{}

/// Once an entry is free, the links of its inode may be lowered by one.
pub fn removed_name_leaves_a_link()
    ensures { RemoveLowerLaw }
{}

/// A name replaces another, both leading to the one inode in between.
pub fn name_replaces_another()
    ensures { ReplaceLaw }
{}

/// A new file may get its name.
pub fn new_file_may_stand()
    ensures { NewFileLaw }
{}
