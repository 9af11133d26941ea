// Files by their paths.
ghost use Rattle.std.specs.Prelude.{◌≡◌, ◌≤◌, ℕ, IfOk, IfErr, IfSome, None, Option, Result};
ghost use Rattle.std.specs.Option.{option_map};
ghost use Rattle.disk_trait.specs.Past.{Told};
ghost use Rattle.lilo_model.specs.MinixParts.{parts_of};
ghost use Rattle.lilo_model.specs.MinixNames.{IsSound};
ghost use Rattle.lilo_model.specs.Plan.{MappedFile};
ghost use Rattle.lilo_conf.specs.View.{section_view};
ghost use Rattle.minix_zones.specs.Volume.{volume_view, past_of, faults_of, SameVolume};
ghost use Rattle.file_runs.specs.Mapped.{file_view};
ghost use Rattle.map_plan.specs.Files.{
  AllFiles,
  HasFewPlaces,
  HasRuns,
  file_planned,
  kernel_by,
  kernel_planned,
  kernel_view,
  optional_planned,
};
ghost use Rattle.map_plan.specs.View.{Gives, HasPlanCause, Refuses};

use crate::fault::{PlanFault, path_fault};
use conf_text::Text;
use disk_trait::Disks;
use file_runs::{FileRuns, map_file};
use lilo_conf::Section;
use minix_zones::Volume;
use std::alloc::Global;

/// The regular file that a path leads to, as a map lists it: on a sound volume what the plan maps, or refuses.
///
/// # Errors
///
/// `Missing` where it isn't there, else `Tree` where the path can't be followed or leads to no regular file; `Device`
/// and `Memory`.
pub fn map_path<D: Disks>(
    alloc: Global,
    volume: &mut Volume<'_, D>,
    path: &[u8],
) -> Result<FileRuns, PlanFault>
    // What is answered.
    ensures file { Told (past_of volume.old) (λ now. IsSound (volume_view volume.old) now → Gives file_view result
        (file_planned (volume_view volume.old) (parts_of (volume_view volume.old) now) path.now)) }
    ensures few { IfOk result HasFewPlaces }
    ensures runs { volume.old.span.disk ≤ 3 → IfOk result HasRuns }

    // When it is refused.
    ensures cause { IfErr result (HasPlanCause (faults_of volume.old) (faults_of volume.new)) }
    ensures later { faults_of volume.old ≤ faults_of volume.new }
    ensures same { SameVolume volume.old volume.new }
{
    match map_file(alloc, volume, path) {
        Ok(file) => Ok(file),
        Err(fault) => Err(path_fault(alloc, path, fault)),
    }
}

/// The files of a kernel's section.
#[derive(Drop)]
pub struct KernelFiles {
    pub main: FileRuns,
    /// The initial ramdisk, unless it is empty.
    pub initrd: Option<FileRuns>,
}

/// The files of a kernel's section: on a sound volume what the plan maps, or refuses; `None` where the section is
/// optional and its kernel isn't there.
///
/// # Errors
///
/// As `map_path`: the kernel's first, then the initial ramdisk's.
pub fn map_kernel<D: Disks>(
    alloc: Global,
    volume: &mut Volume<'_, D>,
    section: &Section,
) -> Result<Option<KernelFiles>, PlanFault>
    // What is answered.
    ensures files { Told (past_of volume.old)
        (λ now. IsSound (volume_view volume.old) now → Gives (kernel_view section.now) result
        (kernel_planned (volume_view volume.old) (parts_of (volume_view volume.old) now) (section_view section.now))) }
    ensures few { IfOk result (λ found. IfSome found (λ files. AllFiles HasFewPlaces files)) }
    ensures runs { volume.old.span.disk ≤ 3 → IfOk result (λ found. IfSome found (λ files. AllFiles HasRuns files)) }

    // When it is refused.
    ensures cause { IfErr result (HasPlanCause (faults_of volume.old) (faults_of volume.new)) }
    ensures later { faults_of volume.old ≤ faults_of volume.new }
    ensures same { SameVolume volume.old volume.new }
{
    let main = match map_path(alloc, volume, section.path.bytes()) {
        Ok(main) => main,
        Err(fault) => return without_kernel(section, fault),
    };
    let initrd = map_optional(alloc, volume, &section.initrd)?;
    Ok(Some(KernelFiles { main, initrd }))
}

// What comes of a section whose kernel was refused.
fn without_kernel(section: &Section, fault: PlanFault) -> Result<Option<KernelFiles>, PlanFault>
    ensures files { (main : Result MappedFile _) (initrd : Result (Option MappedFile) _) → Refuses fault main
        → Gives (kernel_view section.now) result
        (kernel_by (section_view section.now) section.now.optional main initrd) }
    ensures none { IfOk result (λ found. found ≡ None) }
    ensures cause { (before now : ℕ) → HasPlanCause before now fault → IfErr result (HasPlanCause before now) }
{
    match fault {
        PlanFault::Missing(_) if section.optional => Ok(None),
        fault => Err(fault),
    }
}

// The file of a path that may be absent; an empty file isn't mapped.
pub(crate) fn map_optional<D: Disks>(
    alloc: Global,
    volume: &mut Volume<'_, D>,
    path: &Option<Text>,
) -> Result<Option<FileRuns>, PlanFault>
    ensures file { Told (past_of volume.old)
        (λ now. IsSound (volume_view volume.old) now → Gives (option_map file_view) result
        (optional_planned (volume_view volume.old) (parts_of (volume_view volume.old) now) path.now)) }
    ensures few { IfOk result (λ found. IfSome found HasFewPlaces) }
    ensures runs { volume.old.span.disk ≤ 3 → IfOk result (λ found. IfSome found HasRuns) }
    ensures cause { IfErr result (HasPlanCause (faults_of volume.old) (faults_of volume.new)) }
    ensures later { faults_of volume.old ≤ faults_of volume.new }
    ensures same { SameVolume volume.old volume.new }
{
    match path {
        Some(path) => match map_path(alloc, volume, path.bytes()) {
            Ok(file) => {
                if file.size == 0 {
                    Ok(None)
                } else {
                    Ok(Some(file))
                }
            }
            Err(fault) => Err(fault),
        },
        None => Ok(None),
    }
}
