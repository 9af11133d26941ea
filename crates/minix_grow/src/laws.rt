// What is chosen for a directory's growth: laws, which no code needs to call.
ghost use Rattle.minix_grow.specs.Missing.{GrowthLaw, MissingLaw};

/// Where a number on the way to a block is 0 more zones are missing than there are levels below it.
pub fn missing_zones_are_the_lowest()
    ensures { MissingLaw }
{}

/// The zones that are chosen for a directory's growth are enough for the way to the place that is chosen.
pub fn chosen_growth_is_enough()
    ensures { GrowthLaw }
{}
