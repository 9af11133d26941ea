// What directories that grow do to a sound Minix volume.
ghost use Rattle.minix_change_laws.specs.ChangeLaws.{FillLaw, LinksChangeLaw, NumberLaw, SizeChangeLaw, TopLaw};
ghost use Rattle.minix_change_laws.specs.GrowthLaws.{ExtendsLaw, GrowsLaw, HoleLaw};

/// No name sees that a directory gets places in zones that it has.
pub fn extended_directory_is_unseen()
    ensures { ExtendsLaw }
{}

/// Nor that it gets a zone full of zeros, by itself or below new indirect zones.
pub fn grown_directory_is_unseen()
    ensures { GrowsLaw }
{}

/// An entry in a hole is free.
pub fn entry_in_a_hole_is_free()
    ensures { HoleLaw }
{}

/// No name sees that the links of one inode change which stay enough.
pub fn links_of_an_inode_may_change()
    ensures { LinksChangeLaw }
{}

/// Nor that a directory gets places by its size.
pub fn size_of_a_directory_may_rise()
    ensures { SizeChangeLaw }
{}

/// Nor what bytes are past its entries.
pub fn bytes_past_the_entries_are_unseen()
    ensures { FillLaw }
{}

/// Nor that it gets zones by a number in an indirect zone.
pub fn number_in_an_indirect_zone_is_unseen()
    ensures { NumberLaw }
{}

/// Nor that it gets zones by a number in its inode, be it with another size.
pub fn number_in_the_inode_is_unseen()
    ensures { TopLaw }
{}
