// What a written zone and a written inode change: laws, which no code needs to call.
ghost use Rattle.minix_steps.specs.StepLaws.{ZoneBytesLaw, InodeBytesLaw, KeptInodeLaw};

/// A zone that is written changes no other zone, no inode and no bitmap bit.
pub fn written_zone_is_one_zone()
    ensures { ZoneBytesLaw }
{}

/// An inode that is written changes no other inode, no zone's bytes and no bitmap bit.
pub fn written_inode_is_one_inode()
    ensures { InodeBytesLaw }
{}

/// The bytes of an inode are those of what its volume's kind keeps of it.
pub fn written_inode_is_kept()
    ensures { KeptInodeLaw }
{}
