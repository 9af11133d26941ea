// The reader and the grammar agree: a law, which no code needs to call.
ghost use Rattle.ldisk_model.specs.Arguments.{AskedLaw};

/// Arguments ask for something exactly where the grammar says so.
pub fn words_ask_as_the_grammar_says()
    ensures { AskedLaw }
{}
