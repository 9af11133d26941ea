// What holds of a choice.
ghost use Rattle.minix_choice_laws.specs.Apart.{HeldLaw, HeldStaysLaw, ApartLaw};
ghost use Rattle.minix_choice_laws.specs.Growth.{FreeGrowthLaw, PromisesLaw};
ghost use Rattle.minix_choice_laws.specs.ChoiceLaws.{ChoiceLaw, FileLaw, PlaceLaw, PlaceStaysLaw, MayHaveStaysLaw};
ghost use Rattle.minix_choice_laws.specs.ChoiceLaws.{PlaceLiesLaw};

/// What is chosen is free, and it is enough.
pub fn choice_is_free()
    ensures { ChoiceLaw }
{}

/// The zones that are chosen for a file's blocks may be its zones.
pub fn choice_may_be_a_file()
    ensures { FileLaw }
{}

/// On a sound volume the name may be made at the place that is chosen.
pub fn place_may_get_the_name()
    ensures { PlaceLaw }
{}

/// And it may be made there still after what no name sees.
pub fn place_stays()
    ensures { PlaceStaysLaw }
{}

/// So it is of a place that needn't lie below the size yet.
pub fn place_still_may_be_had()
    ensures { MayHaveStaysLaw }
{}

/// Once that lies below the size and in a zone, the name may be made.
pub fn place_lies_there()
    ensures { PlaceLiesLaw }
{}

/// The zones that are chosen for a directory's growth are free, and none of the file's.
pub fn growth_is_free()
    ensures { FreeGrowthLaw }
{}

/// What was promised stays so with one choice more.
pub fn promises_stay()
    ensures { PromisesLaw }
{}

/// What is chosen is held, once it is taken.
pub fn choice_is_held()
    ensures { HeldLaw }
{}

/// And it still is with one choice more.
pub fn held_choice_stays()
    ensures { HeldStaysLaw }
{}

/// What is chosen has nothing in common with an earlier choice that is held, but for zones of growth of the same step.
pub fn choices_are_apart()
    ensures { ApartLaw }
{}
