// What holds of the tokens of a text: laws, which no code needs to call.
ghost use Rattle.conf_text.specs.Laws.{PartLaw, RiseLaw, LastLaw};

/// The bytes of a token are those of the text from its start on.
pub fn tokens_are_parts()
    ensures { PartLaw }
{}

/// A token starts after the one before it.
pub fn starts_rise()
    ensures { RiseLaw }
{}

/// A fault is the last that a text has.
pub fn faults_end_the_text()
    ensures { LastLaw }
{}
