// What a cursor gives over all its calls, and what the check of places is: laws, which no code needs to call.
ghost use Rattle.slot_lists.specs.Cursor.{CursorLaw};
ghost use Rattle.slot_lists.specs.OwnPlaces.{OwnPlacesLaw};

/// Over its calls a cursor gives what `plain_slots` or `compact` makes of all its sectors, or the same refusal.
pub fn cursor_gives_all_slots()
    ensures { CursorLaw }
{}

/// Whether each sector has a slot of its own is what the model asks of a map's own places.
pub fn checked_places_are_the_maps()
    ensures { OwnPlacesLaw }
{}
