// What is apart once settling is done, what is mapped, and what is planned.
ghost use Rattle.install_join_laws.specs.ApartLaws.{KeptDevicesLaw, SettledApartLaw};
ghost use Rattle.install_join_laws.specs.Mapped.{MappedApartLaw};
ghost use Rattle.install_join_laws.specs.Plans.{PassingLaw, SettledPlanLaw};
ghost use Rattle.install_join_laws.specs.Surveyed.{BegunPlansLaw, SurveyedApartLaw};
ghost use Rattle.install_join_laws.specs.Tables.{OutsideTablesLaw, TablesLaw};

/// Devices that lie where they lay are apart where they were.
pub fn devices_that_stay_are_apart()
    ensures { KeptDevicesLaw }
{}

/// A configuration that was apart is apart still once the names that an installation replaces are settled, where the
/// devices that it names are.
pub fn settled_configuration_is_apart()
    ensures { SettledApartLaw }
{}

/// So is that of what was surveyed, on the disks as they were examined and once they are settled.
pub fn surveyed_configuration_is_apart()
    ensures { SurveyedApartLaw }
{}

/// A device lies where it lay where the tables of its disk are as they were.
pub fn device_lies_where_its_tables_stay()
    ensures { TablesLaw }
{}

/// So it does where all but a volume's sectors past its block 0 is as it was, and none of these has a table.
pub fn device_lies_where_its_tables_are_outside()
    ensures { OutsideTablesLaw }
{}

/// Where a configuration is apart, no file that its plan maps is at a name that an installation replaces, nor at a
/// forced backup's.
pub fn mapped_files_are_not_replaced()
    ensures { MappedApartLaw }
{}

/// What a configuration that was apart plans once names are settled is what it planned before, or it is refused as it
/// was, where the paths that it names fail as they did.
pub fn settled_configuration_plans_the_same()
    ensures { SettledPlanLaw }
{}

/// A path that passes by each name that settling changes fails as it did once they are settled.
pub fn path_that_passes_by_fails_as_before()
    ensures { PassingLaw }
{}

/// So what an installation that began plans is what it would have planned at its entry, where the devices that its
/// configuration names lie where they lay and its paths pass by what settling changes.
pub fn begun_installation_plans_the_same()
    ensures { BegunPlansLaw }
{}
