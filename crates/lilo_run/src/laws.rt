// What is known of runs, as laws, which no code needs to call.
ghost use Rattle.lilo_run.specs.Laws.{BootVerdictLaw, NoKeysLaw, NoMemoryLaw};

/// The verdict of a boot is the model's, for all keys, and so are the keys that it leaves and what it writes.
pub fn boots_answer_as_the_model()
    ensures { BootVerdictLaw }
{}

/// Where no part boots, what arguments do is the same in a memory of any size.
pub fn memory_matters_to_boots_alone()
    ensures { NoMemoryLaw }
{}

/// Where no part boots, all keys are left.
pub fn keys_matter_to_boots_alone()
    ensures { NoKeysLaw }
{}
