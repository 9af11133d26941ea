// What may be written on a sound Minix volume without touching what has a name.
ghost use Rattle.minix_change_laws.specs.BesideLaws.{
  BesideLaw,
  ChangeLaw,
  ClearInodeLaw,
  ClearZoneLaw,
  EntryLaw,
  JoinLaw,
  KeepsLaw,
  NamedLaw,
  RegionLaw,
  SameLaw,
  SetBitLaw,
  UnnamedInodeLaw,
  UnusedZoneLaw,
  WriteLaw,
};

/// Parts that keep what has a name stay sound, with the same Names.
pub fn kept_parts_stay_sound()
    ensures { KeepsLaw }
{}

/// An image that differs from a sound one by harmless bytes alone is sound, with the same Names.
pub fn harmless_bytes_keep_names()
    ensures { BesideLaw }
{}

/// It has the same named inodes, which refer to the same zones.
pub fn harmless_bytes_keep_what_is_named()
    ensures { NamedLaw }
{}

/// What is there is harmless.
pub fn what_stands_is_harmless()
    ensures { SameLaw }
{}

/// Harmless changes of an image that harmless changes left are harmless changes of the first one.
pub fn harmless_changes_join()
    ensures { JoinLaw }
{}

/// One more sector with harmless bytes leaves harmless changes.
pub fn harmless_writes_join()
    ensures { WriteLaw }
{}

/// Inodes, data zones and bitmap bits lie in sectors of the volume.
pub fn parts_stand_on_the_volume()
    ensures { RegionLaw }
{}

/// In a zone to which no named inode refers any bytes are harmless.
pub fn unused_zone_may_be_written()
    ensures { UnusedZoneLaw }
{}

/// An inode without a name may become any other, its neighbours as they were.
pub fn unnamed_inode_may_be_written()
    ensures { UnnamedInodeLaw }
{}

/// In the bitmaps each bit may be set.
pub fn marks_may_be_set()
    ensures { SetBitLaw }
{}

/// In the bitmap of inodes the bit of one without a name may be cleared.
pub fn unnamed_inode_may_be_freed()
    ensures { ClearInodeLaw }
{}

/// In the bitmap of zones the bit of one to which no named inode refers may be cleared.
pub fn unused_zone_may_be_freed()
    ensures { ClearZoneLaw }
{}

/// Where one entry of a directory is another, the directory finds by its names what it says, and else what it found.
pub fn change_of_an_entry_is_of_its_names()
    ensures { EntryLaw }
{}

/// Where one directory finds other inodes than before, with nothing below them, the paths of its names change
/// and no other.
pub fn change_in_a_directory_is_of_its_names()
    ensures { ChangeLaw }
{}
