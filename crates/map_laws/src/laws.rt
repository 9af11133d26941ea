// What a boot of a planned map does.
ghost use Rattle.map_laws.specs.Accepted.{
  AcceptedFileLaw,
  AcceptedLaw,
  AcceptedLiesLaw,
  AcceptedOptionalLaw,
  PlacesLaw,
};
ghost use Rattle.map_laws.specs.Compact.{CompactLaw};
ghost use Rattle.map_laws.specs.Files.{FileLaw, OptionalFileLaw};
ghost use Rattle.map_laws.specs.Fit.{FitLaw};
ghost use Rattle.map_laws.specs.Lies.{MapLaw};
ghost use Rattle.map_laws.specs.Lines.{LinesLaw};
ghost use Rattle.map_laws.specs.MapLays.{AcceptedLaysLaw, LaysHeldLaw, LaysLaw, LaysStaysLaw, PlannedLaysLaw};
ghost use Rattle.map_laws.specs.MapStays.{MapStaysLaw};
ghost use Rattle.map_laws.specs.PlannedLies.{PlannedLaw};
ghost use Rattle.map_laws.specs.ShotLines.{ShotIsReadLaw};
ghost use Rattle.map_laws.specs.Shows.{ShowsLaw};

/// Disks that show a menu boot as it says, for all keys and any memory.
pub fn shown_menu_is_booted()
    ensures { ShowsLaw }
{}

/// Where a planned map lies at its places, with its boot sector, and the files where they are mapped from, a boot does
/// what its menu says, for all keys, any memory and each default line.
pub fn planned_map_boots_as_its_menu()
    ensures { MapLaw }
{}

/// What a configuration plans on a sound volume boots as the configuration and its files mean.
pub fn planned_map_boots_as_meant()
    ensures { PlannedLaw }
{}

/// A planned map still lies at its places where only other sectors, and the default line, are written.
pub fn planned_map_stays()
    ensures { MapStaysLaw }
{}

/// It boots as is meant with each other default line that its sector may say.
pub fn planned_map_boots_with_each_line()
    ensures { LinesLaw }
{}

/// No two neighbours of the slots that `compact` makes could be one.
pub fn compact_slots_are_apart()
    ensures { CompactLaw }
{}

/// A named file whose sectors have slots lies where it is mapped from, with its content, in each image where they are
/// as they were.
pub fn kept_file_lies()
    ensures { FileLaw }
{}

/// A file that may be absent or empty is mapped where it counts for what is meant, and has as many bytes.
pub fn optional_file_is_mapped_where_it_counts()
    ensures { OptionalFileLaw }
{}

/// What the checks of a plan accept on a sound volume, once it is written, boots as the configuration and its files
/// mean.
pub fn accepted_plan_boots_as_meant()
    ensures { AcceptedLaw }
{}

/// Places that are accepted for a map have slots that name them.
pub fn accepted_places_have_slots()
    ensures { PlacesLaw }
{}

/// A file that is accepted lies where its sectors are left as they were.
pub fn accepted_file_lies()
    ensures { AcceptedFileLaw }
{}

/// So does one that may be absent or empty.
pub fn accepted_optional_file_lies()
    ensures { AcceptedOptionalLaw }
{}

/// A kernel, an initrd and a line that fit are refused by a boot for the memory alone, and others always are.
pub fn fitting_kernel_is_loaded()
    ensures { FitLaw }
{}

/// And what they accept lies as planned, so that the other laws hold of it too.
pub fn accepted_plan_lies()
    ensures { AcceptedLiesLaw }
{}

/// Where a planned map lies at the places of a file of its own, an image has Lays.
pub fn map_that_lies_has_lays()
    ensures { LaysLaw }
{}

/// So it has where what a configuration plans lies.
pub fn planned_map_has_lays()
    ensures { PlannedLaysLaw }
{}

/// And where what the checks of a plan accept is written.
pub fn accepted_plan_has_lays()
    ensures { AcceptedLaysLaw }
{}

/// Lays stays where the map's sectors, its boot sector's and its files' stay.
pub fn map_that_stays_has_lays()
    ensures { LaysStaysLaw }
{}

/// An image that has Lays is Held.
pub fn image_with_lays_is_held()
    ensures { LaysHeldLaw }
{}

/// A default line that was set for one boot is the one that the next boot reads.
pub fn set_line_is_read()
    ensures { ShotIsReadLaw }
{}
