// A law on directories, which no code needs to call.
ghost use Rattle.minix_tree.specs.Laws.{DirectoryLaw};

/// The entries of a directory are those of its blocks, one after the other.
pub fn directory_is_its_blocks()
    ensures { DirectoryLaw }
{}
