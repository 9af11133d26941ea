// What asking comes to: a law, which no code needs to call.
ghost use Rattle.prompt_loop.specs.Laws.{AskLaw};

/// For any keys, asking comes to the choice by cutting: what is chosen, all that is shown with the message at its
/// place, the new default line, and the keys left. Where the message is refused, it ends where the choice opens.
pub fn asking_comes_to_the_choice()
    ensures { AskLaw }
{}
