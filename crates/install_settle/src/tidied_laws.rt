// What tidying leaves of a new map.
ghost use Rattle.install_settle.specs.Tidied.{TidiedHoldsLaw, TidiedMapLaw};

/// A map that was staged at `map~`, with its boot sector written, means its configuration, has Lays and is Held in each
/// image that tidying leaves, at any moment.
pub fn tidied_map_means_its_configuration()
    ensures { TidiedMapLaw }
{}

/// In such an image, where nothing is at `map~`, the file at `map` holds the boot sector's table.
pub fn tidied_map_holds_the_table()
    ensures { TidiedHoldsLaw }
{}
