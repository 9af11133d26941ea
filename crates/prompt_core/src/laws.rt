// What the answers to a list of keys come to: laws, which no code needs to call.
ghost use Rattle.prompt_core.specs.Decided.{ChoiceLaw, OpeningLaw};
ghost use Rattle.prompt_core.specs.Run.{KeysLaw};
ghost use Rattle.prompt_core.specs.Short.{ShortLaw};
ghost use Rattle.prompt_core.specs.Steps.{MoreLaw};

/// Given any list of keys one by one, the prompt chooses, shows and leaves what the list does that is cut.
pub fn keys_one_by_one()
    ensures { KeysLaw }
{}

/// Given any list of keys one by one, the prompt comes to the choice by cutting: what is chosen, all that is shown, the
/// new default line, and the keys left.
pub fn comes_to_the_choice()
    ensures { ChoiceLaw }
{}

/// It opens where the choice by cutting opens.
pub fn opens_at_the_opening()
    ensures { OpeningLaw }
{}

/// More keys are wanted exactly as long as no line or password is finished, no names are asked for and no wait is over.
pub fn more_is_wanted()
    ensures { MoreLaw }
{}

/// No typed line, and no line that a lock keeps, is longer than the longest of a name, the default line and a typed
/// line.
pub fn lines_are_short()
    ensures { ShortLaw }
{}
