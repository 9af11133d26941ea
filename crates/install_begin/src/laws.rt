// What is known of what is read, as laws, which no code needs to call.
ghost use Rattle.install_begin.specs.Laws.{AnswerLaw, TestLaw};

/// The model's answer of an installation or a test is that of what was read, step by step.
pub fn what_is_read_is_answered_as_the_model()
    ensures { AnswerLaw }
{}

/// So its verdict of a test is.
pub fn tests_answer_as_the_model()
    ensures { TestLaw }
{}
