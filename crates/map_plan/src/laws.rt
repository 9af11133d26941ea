// What is planned is what the model plans and refuses: laws, which no code needs to call.
ghost use Rattle.map_plan.specs.Devices.{SystemPlanLaw};
ghost use Rattle.map_plan.specs.Files.{FilePlanLaw, KernelPlanLaw, OptionalPlanLaw};
ghost use Rattle.map_plan.specs.Sections.{SectionPlanLaw, SectionPlansLaw};
ghost use Rattle.map_plan.specs.Starts.{CodePlanLaw, HeaderLaw};
ghost use Rattle.map_plan.specs.Whole.{PlanLaw};

/// What is planned of a path is what the model maps of it, or refuses.
pub fn paths_are_planned()
    ensures { FilePlanLaw }
{}

/// The same of a path that may be absent.
pub fn optional_paths_are_planned()
    ensures { OptionalPlanLaw }
{}

/// The same of the files of a kernel's section.
pub fn kernels_are_planned()
    ensures { KernelPlanLaw }
{}

/// The same of another system.
pub fn systems_are_planned()
    ensures { SystemPlanLaw }
{}

/// The same of a section of either kind.
pub fn a_section_is_planned()
    ensures { SectionPlanLaw }
{}

/// The same of all sections.
pub fn sections_are_planned()
    ensures { SectionPlansLaw }
{}

/// The same of the file with the code.
pub fn code_is_planned()
    ensures { CodePlanLaw }
{}

/// What is asked of a kernel by its first bytes is what the model asks of it as a whole.
pub fn headers_are_checked()
    ensures { HeaderLaw }
{}

/// A plan is its files, where what is held of them and their addresses are accepted.
pub fn a_plan_is_its_files()
    ensures { PlanLaw }
{}
