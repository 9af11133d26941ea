// What holds of each configuration that a text says, and of each refusal.
ghost use Rattle.conf_laws.specs.Lawful.{LawfulLaw};
ghost use Rattle.conf_laws.specs.Order.{OrderLaw};
ghost use Rattle.conf_laws.specs.Sample.{SampleLaw};

/// Each configuration that a text says may be carried out.
pub fn every_config_is_lawful()
    ensures { LawfulLaw }
{}

/// There is one, with sections of both kinds.
pub fn a_config_is_lawful()
    ensures { SampleLaw }
{}

/// A text is refused for the first test that it fails, in one order of all tests, and accepted where it fails none.
pub fn refusal_is_the_first_that_fails()
    ensures { OrderLaw }
{}
