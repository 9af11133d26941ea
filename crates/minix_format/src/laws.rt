// What an empty volume is: laws, which no code needs to call.
ghost use Rattle.minix_format.specs.Laws.{FormatLaw, MapLaw};

/// An empty volume is sound, its root alone has a name, and no other inode or zone is marked.
pub fn empty_volume_has_the_root_alone()
    ensures { FormatLaw }
{}

/// The bits of numbers 0 and 1 and those past the last number are set, and no others.
pub fn bits_of_a_bitmap()
    ensures { MapLaw }
{}
