// Which links are enough: laws, which no code needs to call.
ghost use Rattle.minix_turns.specs.Inode.{LoweredLinksLaw, RaisedLinksLaw};

/// The links of an inode on a sound volume are enough, and so are more.
pub fn raised_links_are_enough()
    ensures { RaisedLinksLaw }
{}

/// One less is enough where an inode had a link more than names.
pub fn lowered_links_are_enough()
    ensures { LoweredLinksLaw }
{}
