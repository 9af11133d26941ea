// Sections: what is mapped of them.
ghost use Rattle.std.specs.Prelude.{◌≡◌, ◌≤◌, ◌+◌, ◌++◌, ◌∷◌, [], length, All, IfOk, IfErr, IfSome, OnOk};
ghost use Rattle.lilo_model.specs.ConfLawful.{IsLawfulSection};
ghost use Rattle.lilo_model.specs.Plan.{kept_middle};
ghost use Rattle.lilo_model.specs.Planned.{mapped_section};
ghost use Rattle.lilo_conf.specs.View.{section_view, sections_view};
ghost use Rattle.minix_zones.specs.Volume.{volume_view, sizes_of, faults_of, SameVolume};
ghost use Rattle.map_plan.specs.Sections.{
  section_planned,
  sections_planned,
  found_view,
  files_view,
  planned_views,
  with_section,
  FitsKind,
  FitsSection,
};
ghost use Rattle.map_plan.specs.Skipped.{skipped_path, skipped_paths};
ghost use Rattle.map_plan.specs.Sound.{OnSound};
ghost use Rattle.map_plan.specs.View.{Gives, HasPlanCause};

use crate::copy::copy_section;
use crate::device::{SystemSectors, map_system};
use crate::fault::PlanFault;
use crate::file::{KernelFiles, map_kernel};
use crate::middle::middle_of;
use conf_text::Text;
use disk_trait::Disks;
use lilo_conf::Section;
use minix_zones::Volume;
use std::alloc::{AllocError, Global};

/// What is mapped of a section.
#[derive(Drop)]
pub enum SectionFiles {
    Kernel(KernelFiles),
    System(SystemSectors),
}

/// A section that isn't omitted.
#[derive(Drop)]
pub struct PlannedSection {
    pub section: Section,
    /// The middle of its command line; that of another system is empty.
    pub middle: Text,
    pub files: SectionFiles,
}

/// Sections, as they are mapped.
#[derive(Drop)]
pub struct PlannedSections {
    /// Those that aren't omitted, in order.
    pub planned: Vec<PlannedSection>,
    /// The paths of the others.
    pub skipped: Vec<Text>,
}

/// What is mapped of sections: on a sound volume what the plan maps, or refuses.
///
/// # Errors
///
/// Of the first section that is refused: as `map_kernel` and `map_system`.
pub fn map_sections<D: Disks>(
    alloc: Global,
    volume: &mut Volume<'_, D>,
    sections: &[Section],
) -> Result<PlannedSections, PlanFault>
    requires disk { volume.old.span.disk ≤ 3 }
    requires lawful { All IsLawfulSection (sections_view sections.now) }

    // What is answered.
    ensures sections { OnSound volume.old (λ now machine. Gives (λ found. planned_views found.planned.items) result
        (sections_planned now machine (volume_view volume.old) (sections_view sections.now))) }
    ensures fits { IfOk result (λ found. All (FitsSection (sizes_of volume.old)) found.planned.items) }
    ensures few { IfOk result (λ found. length found.planned.items ≤ length sections.now) }
    ensures skipped { IfOk result (λ found. OnSound volume.old (λ now machine. found.skipped.items
        ≡ skipped_paths now machine (volume_view volume.old) (sections_view sections.now))) }

    // When it is refused.
    ensures cause { IfErr result (HasPlanCause (faults_of volume.old) (faults_of volume.new)) }
    ensures later { faults_of volume.old ≤ faults_of volume.new }
    ensures same { SameVolume volume.old volume.new }
{
    let mut found = PlannedSections {
        planned: Vec::new(alloc),
        skipped: Vec::new(alloc),
    };
    for section in sections {
        add_section(alloc, volume, section, &mut found)?;
    }
    Ok(found)
}

// Adds what is mapped of a section to that of those before it.
fn add_section<D: Disks>(
    alloc: Global,
    volume: &mut Volume<'_, D>,
    section: &Section,
    found: &mut PlannedSections,
) -> Result<(), PlanFault>
    requires disk { volume.old.span.disk ≤ 3 }
    requires lawful { IsLawfulSection (section_view section.now) }
    ensures sections { OnSound volume.old (λ now machine. Gives (λ _. planned_views found.new.planned.items) result
        (with_section (planned_views found.old.planned.items)
        (section_planned now machine (volume_view volume.old) (section_view section.now)))) }
    ensures fits { All (FitsSection (sizes_of volume.old)) found.old.planned.items
        → OnOk result (All (FitsSection (sizes_of volume.old)) found.new.planned.items) }
    ensures few { OnOk result (length found.new.planned.items ≤ length found.old.planned.items + 1) }
    ensures skipped { OnOk result (OnSound volume.old (λ now machine. found.new.skipped.items ≡ found.old.skipped.items
        ++ skipped_path (section_view section.now)
        (mapped_section now machine (volume_view volume.old) (section_view section.now)))) }
    ensures cause { IfErr result (HasPlanCause (faults_of volume.old) (faults_of volume.new)) }
    ensures later { faults_of volume.old ≤ faults_of volume.new }
    ensures same { SameVolume volume.old volume.new }
{
    let kept = map_section(alloc, volume, section)?;
    match kept {
        Some(planned) => push_section(&mut found.planned, planned),
        None => skip_section(alloc, section, &mut found.skipped),
    }
}

// Adds a section to others.
fn push_section(
    sections: &mut Vec<PlannedSection>,
    planned: PlannedSection,
) -> Result<(), PlanFault>
    ensures pushed { OnOk result (sections.new.items ≡ sections.old.items ++ (planned ∷ [])) }
    ensures memory { IfErr result (λ fault. fault ≡ PlanFault.Memory) }
{
    sections.push(planned)?;
    Ok(())
}

// Adds the path of a section that is omitted.
fn skip_section(alloc: Global, section: &Section, skipped: &mut Vec<Text>) -> Result<(), PlanFault>
    ensures skipped { OnOk result (skipped.new.items ≡ skipped.old.items ++ (section.now.path ∷ [])) }
    ensures memory { IfErr result (λ fault. fault ≡ PlanFault.Memory) }
{
    let path = Text::new(alloc, section.path.bytes())?;
    skipped.push(path)?;
    Ok(())
}

// What is mapped of a section, if it isn't omitted.
fn map_section<D: Disks>(
    alloc: Global,
    volume: &mut Volume<'_, D>,
    section: &Section,
) -> Result<Option<PlannedSection>, PlanFault>
    requires disk { volume.old.span.disk ≤ 3 }
    requires lawful { IsLawfulSection (section_view section.now) }
    ensures section { OnSound volume.old (λ now machine. Gives found_view result
        (section_planned now machine (volume_view volume.old) (section_view section.now))) }
    ensures fits { IfOk result (λ found. IfSome found (FitsSection (sizes_of volume.old))) }
    ensures cause { IfErr result (HasPlanCause (faults_of volume.old) (faults_of volume.new)) }
    ensures later { faults_of volume.old ≤ faults_of volume.new }
    ensures same { SameVolume volume.old volume.new }
{
    let found = map_files(alloc, volume, section)?;
    match found {
        Some(files) => Ok(Some(keep_section(alloc, section, files)?)),
        None => Ok(None),
    }
}

// Its files, or its devices' sectors.
#[tactic(auto, unfolding(crate::specs::Sections::section_planned))]
fn map_files<D: Disks>(
    alloc: Global,
    volume: &mut Volume<'_, D>,
    section: &Section,
) -> Result<Option<SectionFiles>, PlanFault>
    requires disk { volume.old.span.disk ≤ 3 }
    requires lawful { IsLawfulSection (section_view section.now) }
    ensures files { OnSound volume.old (λ now machine. Gives (files_view section.now) result
        (section_planned now machine (volume_view volume.old) (section_view section.now))) }
    ensures kind { IfOk result (λ found. IfSome found (FitsKind (sizes_of volume.old) section.now)) }
    ensures cause { IfErr result (HasPlanCause (faults_of volume.old) (faults_of volume.new)) }
    ensures later { faults_of volume.old ≤ faults_of volume.new }
    ensures same { SameVolume volume.old volume.new }
{
    match section.other {
        Some(device) => match map_system(volume, device, section.table) {
            Ok(sectors) => Ok(Some(SectionFiles::System(sectors))),
            Err(fault) => Err(fault),
        },
        None => match map_kernel(alloc, volume, section) {
            Ok(Some(files)) => Ok(Some(SectionFiles::Kernel(files))),
            Ok(None) => Ok(None),
            Err(fault) => Err(fault),
        },
    }
}

// A section with its files.
fn keep_section(
    alloc: Global,
    section: &Section,
    files: SectionFiles,
) -> Result<PlannedSection, AllocError>
    ensures section { IfOk result (λ planned. planned.section ≡ section.now) }
    ensures files { IfOk result (λ planned. planned.files ≡ files) }
    ensures middle { IfOk result (λ planned. planned.middle ≡ kept_middle (section_view section.now)) }
{
    let middle = if section.other.is_some() {
        Text::new(alloc, &[])?
    } else {
        middle_of(alloc, section)?
    };
    let section = copy_section(alloc, section)?;
    Ok(PlannedSection {
        section,
        middle,
        files,
    })
}
