// What the definitions of slots say: laws, which no code needs to call.
ghost use Rattle.sector_address.specs.Laws.{NumberLaw, CylinderLaw, MadeSectorsLaw, MakeLaw, EncodeLaw, OneSpellingLaw};

/// The cylinder, head and sector of a sector's number have that number.
pub fn number_of_its_cylinder()
    ensures { NumberLaw }
{}

/// A cylinder up to 1023, a head and a sector are those of their number.
pub fn cylinder_of_its_number()
    ensures { CylinderLaw }
{}

/// A slot that is made names the sectors that it was made for.
pub fn made_slot_names_its_sectors()
    ensures { MadeSectorsLaw }
{}

/// A slot that is made is one that eight bytes can name.
pub fn made_slot_is_whole()
    ensures { MakeLaw }
{}

/// The eight bytes of a slot that eight bytes can name are decoded to that slot.
pub fn encoded_slot_decodes()
    ensures { EncodeLaw }
{}

/// No two lists of eight bytes are decoded to the same slot.
pub fn one_spelling()
    ensures { OneSpellingLaw }
{}
