// What the bytes of one entry of a directory do to a sound Minix volume.
ghost use Rattle.minix_change_laws.specs.EntryBytesLaws.{
  EnterBytesLaw,
  EnterDirectoryBytesLaw,
  EntryBytesLaw,
  RedirectBytesLaw,
  RedirectLastBytesLaw,
  RemoveBytesLaw,
  RemoveLastBytesLaw,
  RemoveLowerBytesLaw,
  RenameBytesLaw,
  ReplaceBytesLaw,
  SampleLaw,
  StillLaw,
  WriteEntryLaw,
  WrittenLaw,
};

/// The bytes of an entry say its inode and its name.
pub fn entry_bytes_say_an_entry()
    ensures { EntryBytesLaw }
{}

/// Other bytes of one entry are a change of that entry alone.
pub fn written_entry_changes_alone()
    ensures { WrittenLaw }
{}

/// One write of a sector leaves them.
pub fn one_write_leaves_an_entry()
    ensures { WriteEntryLaw }
{}

/// The bytes of an entry that is made add one name.
pub fn bytes_of_an_entry_add_a_name()
    ensures { EnterBytesLaw }
{}

/// And so do those of the entry of a new directory.
pub fn bytes_of_a_directory_add_a_name()
    ensures { EnterDirectoryBytesLaw }
{}

/// Those of a free entry take one name away.
pub fn bytes_of_a_free_entry_take_a_name_away()
    ensures { RemoveBytesLaw }
{}

/// Those of an entry of another inode lead its name to that one.
pub fn bytes_of_another_inode_lead_a_name()
    ensures { RedirectBytesLaw }
{}

/// Those of an entry with another name lead that one to where the former one led.
pub fn bytes_of_another_name_move_a_name()
    ensures { RenameBytesLaw }
{}

/// There are sound volumes on which a name may be made, removed and changed.
pub fn names_may_be_made()
    ensures { SampleLaw }
{}

/// An inode whose only name goes by the bytes of its entry is left without one.
pub fn bytes_of_a_last_name_leave_an_inode()
    ensures { RemoveLastBytesLaw }
{}

/// And so is one whose only name they lead to another.
pub fn bytes_of_a_redirected_last_name_leave_an_inode()
    ensures { RedirectLastBytesLaw }
{}

/// What may be done to entries may be done after writes that no name sees.
pub fn what_may_be_done_still_may()
    ensures { StillLaw }
{}

/// Once an entry is free by its bytes, the links of its inode may be lowered by one.
pub fn bytes_of_a_free_entry_leave_a_link()
    ensures { RemoveLowerBytesLaw }
{}

/// A name replaces another by the bytes of two entries, both leading to the one inode in between.
pub fn bytes_of_two_entries_replace_a_name()
    ensures { ReplaceBytesLaw }
{}
