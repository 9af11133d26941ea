// What one bitmap bit changes: laws, which no code needs to call.
ghost use Rattle.minix_steps.specs.BitLaws.{OneBitLaw, ZoneMarkLaw, InodeMarkLaw};

/// A bit that is set or cleared changes no other, and no length.
pub fn mark_is_one_bit()
    ensures { OneBitLaw }
{}

/// A zone's bitmap bit changes no other bitmap bit, no inode and no zone's bytes.
pub fn zone_mark_is_one_bit()
    ensures { ZoneMarkLaw }
{}

/// An inode's bitmap bit changes no other bitmap bit, no inode and no zone's bytes.
pub fn inode_mark_is_one_bit()
    ensures { InodeMarkLaw }
{}
