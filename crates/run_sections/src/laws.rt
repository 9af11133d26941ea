// What is made is what the model plans: laws, which no code needs to call.
ghost use Rattle.run_sections.specs.Counted.{CountLaw, CountedLaw};
ghost use Rattle.run_sections.specs.Laws.{FileSlotsLaw, FileSectorLaw};

/// Where each sector of a file has a slot, its slots are those that the model plans.
pub fn slots_are_the_plans()
    ensures { FileSlotsLaw }
{}

/// And what `write_section_at` writes is the section sector that it plans.
pub fn section_sectors_are_the_plans()
    ensures { FileSectorLaw }
{}

/// What `count_slots` refuses, and a number of slots above the limit, are what is asked of a planned file's addresses.
pub fn counting_asks_what_the_plan_asks()
    ensures { CountLaw }
{}

/// And what it counts is how many slots are planned.
pub fn counted_slots_are_planned()
    ensures { CountedLaw }
{}
