// What is written of a map is read again.
ghost use Rattle.map_again_laws.specs.Laws.{BootAgainLaw, ExtraAgainLaw, LineAgainLaw};
ghost use Rattle.map_again_laws.specs.Laws.{LinkAgainLaw, OptionsAgainLaw, SlotsAgainLaw, TableAgainLaw};

/// A boot sector that is written is read again, whatever else its sector has.
pub fn written_boot_sector_is_read()
    ensures { BootAgainLaw }
{}

/// A table of at most 24 entries that is written is read again.
pub fn written_table_is_read()
    ensures { TableAgainLaw }
{}

/// A middle text that is written is read again.
pub fn written_options_are_read()
    ensures { OptionsAgainLaw }
{}

/// A fallback and a password that are written are read again.
pub fn written_extra_is_read()
    ensures { ExtraAgainLaw }
{}

/// A default line that is written is read again.
pub fn written_line_is_read()
    ensures { LineAgainLaw }
{}

/// The slots of a section sector that are written are read again.
pub fn written_slots_are_read()
    ensures { SlotsAgainLaw }
{}

/// So is its link.
pub fn written_link_is_read()
    ensures { LinkAgainLaw }
{}
