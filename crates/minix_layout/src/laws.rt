// What was written is read again: laws, which no code needs to call.
ghost use Rattle.minix_layout.specs.Laws.{SuperLaw, InodeLaw, KeptLaw};

/// A sector with the fields of a superblock has that superblock.
pub fn written_super_is_read()
    ensures { SuperLaw }
{}

/// The bytes of an inode have that inode, but for what version 1 doesn't keep.
pub fn written_inode_is_read()
    ensures { InodeLaw }
{}

/// An inode that was read is kept whole.
pub fn inode_that_was_read_is_kept()
    ensures { KeptLaw }
{}
