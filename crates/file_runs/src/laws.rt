// What the definitions of this crate say: laws, which no code needs to call.
ghost use Rattle.file_runs.specs.Mapped.{MappedLaw};
ghost use Rattle.file_runs.specs.Needed.{LeastLaw};
ghost use Rattle.file_runs.specs.Places.{PlacesLaw};

/// No list of runs with the same sectors is shorter than what `runs_of` promises.
pub fn no_fewer_runs()
    ensures { LeastLaw }
{}

/// On a sound volume no zone of a file that has a name is refused, and its sectors lie where the model plans them.
pub fn sound_files_lie_as_planned()
    ensures { PlacesLaw }
{}

/// On a sound volume only the path of a file is refused, and the file is mapped as the model plans it.
pub fn sound_paths_are_mapped_as_planned()
    ensures { MappedLaw }
{}
