// What a file that is made leaves of what was chosen for another.
ghost use Rattle.minix_create.specs.MadeLaws.{SeenPlacesLaw, EntryPlacesLaw, JoinPlacesLaw, OtherPlaceLaw};
ghost use Rattle.minix_create.specs.MadeLaws.{OtherGrowthLaw};

/// What no name sees keeps all places of directories.
pub fn unseen_change_keeps_places()
    ensures { SeenPlacesLaw }
{}

/// One entry that changes keeps all places but its own.
pub fn changed_entry_keeps_places()
    ensures { EntryPlacesLaw }
{}

/// What keeps places in two changes in a row keeps them.
pub fn kept_places_join()
    ensures { JoinPlacesLaw }
{}

/// Where a name may be made at a place, it still may once another name was made at another place.
pub fn place_of_another_may_be_had()
    ensures { OtherPlaceLaw }
{}

/// A zone by which a directory is to grow for another file is unused still, or its step of the way is there.
pub fn growth_of_another_is_unused()
    ensures { OtherGrowthLaw }
{}
