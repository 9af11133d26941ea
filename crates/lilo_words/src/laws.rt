// The run that arguments are is that of the grammar: laws, which no code needs to call.
ghost use Rattle.lilo_words.specs.Laws.{RunLaw, FirstWrongLaw, UnfinishedLaw};

/// Arguments have these parts exactly where the grammar gives these parts.
pub fn runs_of_words()
    ensures { RunLaw }
{}

/// An argument is reported as wrong exactly where it is the first that isn't allowed where it is.
pub fn first_wrong_word()
    ensures { FirstWrongLaw }
{}

/// The end is reported as wrong exactly where all the arguments are allowed, and are no run yet.
pub fn unfinished_words()
    ensures { UnfinishedLaw }
{}
