// A law on where walks end, which no code needs to call.
ghost use Rattle.minix_names.specs.Laws.{ApartLaw};

/// On a sound volume a path is apart from a name exactly where its walk doesn't end there: neither at the inode of what
/// is there nor, where nothing is, at the name itself.
pub fn path_is_apart_by_its_end()
    ensures { ApartLaw }
{}
