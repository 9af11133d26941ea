// What a boot looks at, and what holds of its steps.
ghost use Rattle.boot_laws.specs.SameOn.{MappedLaw, SameMappedLaw, UnlistedLaw};
ghost use Rattle.boot_laws.specs.Steps.{ContentLaw, EnoughLinesLaw, FewSectorsLaw, LastKeysLaw, PlaceLaw};

/// Disks that are the same on the Mapped sectors of one of them boot the same, for all keys and any memory.
pub fn boot_is_of_mapped_sectors()
    ensures { MappedLaw }
{}

/// The Mapped sectors are the same on both, too.
pub fn mapped_sectors_stay()
    ensures { SameMappedLaw }
{}

/// A write of a sector that isn't listed leaves each listed one as it was.
pub fn unlisted_sector_may_be_written()
    ensures { UnlistedLaw }
{}

/// A section never lists more sectors than are needed.
pub fn section_lists_no_more()
    ensures { FewSectorsLaw }
{}

/// A file whose section isn't refused has as many bytes as were asked for.
pub fn listed_file_has_its_size()
    ensures { ContentLaw }
{}

/// The keys that a choice leaves are the last of those that it was given.
pub fn choice_leaves_last_keys()
    ensures { LastKeysLaw }
{}

/// As many lines as a choice counts on are enough: with more its course is the same.
pub fn choice_counts_on_enough_lines()
    ensures { EnoughLinesLaw }
{}

/// What an entry loads from whole files is what a kernel, its initrd and its line put into memory.
pub fn whole_files_load_as_placed()
    ensures { PlaceLaw }
{}
