// What is answered of a refused installation is what the model answers: functions that only say so, and do nothing.
ghost use Rattle.install_run.specs.AnswerLaws.{StatusLaw, TextLaw};

/// The line of a refusal is the model's.
pub fn text_is_the_models()
    ensures { TextLaw }
{}

/// So is its exit status.
pub fn status_is_the_models()
    ensures { StatusLaw }
{}
