// What a boot comes to is the model's boot, as a law, which no code needs to call.
ghost use Rattle.loader_core.specs.Laws.{ReportLaw};

/// What is reported of a boot is the model's, for all keys.
pub fn boots_as_the_model()
    ensures { ReportLaw }
{}
