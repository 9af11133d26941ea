// What waste is, and what freeing it leaves: laws, which no code needs to call.
ghost use Rattle.minix_reclaim.specs.Laws.{ClearLaw, ReclaimingLaw, WasteLaw};

/// Where a survey is Ok, what it met says which zones and inodes are waste.
pub fn waste_is_what_a_survey_leaves()
    ensures { WasteLaw }
{}

/// An image of which the bitmaps have each bit as before, or clear where it is that of waste, is sound, with the same
/// Names.
pub fn freed_waste_keeps_names()
    ensures { ReclaimingLaw }
{}

/// Where the map of a boot sector is clear, none of the sectors that a boot may look at is one of the bitmaps, which
/// alone are written.
pub fn clear_map_is_off_the_bitmaps()
    ensures { ClearLaw }
{}
