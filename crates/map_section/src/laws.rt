// What a reader of a section gives: laws, which no code needs to call.
ghost use Rattle.map_section.specs.Laws.{SectionLaw, EnoughTurnsLaw, TurnsLaw, DoneLaw, RefusedLaw};

/// A reader that is fed the section sectors that it asks for gives the section, whatever they hold.
pub fn reads_the_section()
    ensures { SectionLaw }
{}

/// A reader that is run for more turns than it has left lists the same as for any further ones.
pub fn enough_turns()
    ensures { EnoughTurnsLaw }
{}

/// Each answer of a reader but `Done` leaves it fewer turns, once what it asks for is fed.
pub fn takes_turns()
    ensures { TurnsLaw }
{}

/// A reader that answered `Done` answers it again.
pub fn done_again()
    ensures { DoneLaw }
{}

/// A reader that refused a section refuses it for the same reason again.
pub fn refused_again()
    ensures { RefusedLaw }
{}
