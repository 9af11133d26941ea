// What is held of disks, of the message and of each section.
ghost use Rattle.std.specs.Prelude.{◌≡◌, ◌≤◌, ◌<◌, ◌^◌, ◌==◌, ◌&&◌, ℕ, All, IfErr, length};
ghost use Rattle.std.specs.Option.{option_map};
ghost use Rattle.lilo_model.specs.BootSector.{is_bootable};
ghost use Rattle.lilo_model.specs.Checks.{seen, require};
ghost use Rattle.lilo_model.specs.ConfLawful.{IsLawfulSection, names_of_section};
ghost use Rattle.lilo_model.specs.Meant.{middle_text};
ghost use Rattle.lilo_model.specs.PlanRefusal as model;
ghost use Rattle.lilo_model.specs.PlanRefusal.{each_passes, disk_check, system_check, kernel_check, mapped_check};
ghost use Rattle.setup_header.specs.View.{setup_fault_view};
ghost use Rattle.lilo_conf.specs.View.{disk_view, disks_view, section_view};
ghost use Rattle.mbr_table.specs.View.{span_view};
ghost use Rattle.minix_zones.specs.Volume.{volume_view, sizes_of, faults_of, SameVolume};
ghost use Rattle.lilo_model.specs.MinixNames.{names_in};
ghost use Rattle.lilo_model.specs.MinixParts.{parts_of};
ghost use Rattle.map_plan.specs.Devices.{sectors_view, HasDisks, IsThereIn};
ghost use Rattle.map_plan.specs.Files.{kernel_planned, kernel_view};
ghost use Rattle.map_plan.specs.Sections.{planned_view, planned_views, FitsSection, IsPlannedIn};
ghost use Rattle.map_plan.specs.Sound.{OnSound, OnVolume, machine_for};
ghost use Rattle.map_plan.specs.Starts.{start_view, but_room, fit_by, line_size, names_fit};
ghost use Rattle.map_plan.specs.View.{Gives, Refuses, Decides, HasPlanCause};

use crate::check::check_geometry;
use crate::device::SystemSectors;
use crate::fault::PlanFault;
use crate::file::KernelFiles;
use crate::section::{PlannedSection, SectionFiles};
use crate::start::{FileStart, read_start};
use conf_text::Text;
use disk_trait::{Disks, Span};
use file_runs::FileRuns;
use lilo_conf::{DiskSection, Section};
use minix_zones::Volume;
use sector_parts::{Sector, part};
use setup_header::{Header, SetupFault, plan_memory};
use slot_lists::DiskSector;
use std::alloc::Global;

/// Whether what is said of disks is so.
pub fn check_disks<D: Disks>(volume: &Volume<'_, D>, disks: &[DiskSection]) -> Result<(), PlanFault>
    ensures { Decides result (each_passes (disk_check (machine_for volume.now)) (disks_view disks.now)) }
{
    for disk in disks {
        check_disk(volume, disk)?;
    }
    Ok(())
}

// Whether what is said of a disk is so.
fn check_disk<D: Disks>(volume: &Volume<'_, D>, disk: &DiskSection) -> Result<(), PlanFault>
    ensures { Decides result (disk_check (machine_for volume.now) (disk_view disk.now)) }
{
    check_geometry(disk, volume.geometry(disk.device.disk))
}

/// Whether the first sector of another system isn't that of the boot device, and a BIOS takes it for a boot sector.
///
/// # Errors
///
/// `OtherIsBoot`, `NoSignature`, `Device` and `Memory`.
pub fn check_system<D: Disks>(
    alloc: Global,
    volume: &mut Volume<'_, D>,
    boot: Span,
    path: &[u8],
    sectors: SystemSectors,
) -> Result<(), PlanFault>
    requires { IsThereIn (sizes_of volume.old) sectors.first }
    ensures system { OnVolume volume.old (λ now machine. Gives (λ done. tt) result
        (system_check now (span_view boot) path.now (sectors_view sectors))) }
    ensures cause { IfErr result (HasPlanCause (faults_of volume.old) (faults_of volume.new)) }
    ensures later { faults_of volume.old ≤ faults_of volume.new }
    ensures same { SameVolume volume.old volume.new }
{
    let first = sectors.first;
    if is_at(first, boot) {
        return Err(other_is_boot(alloc, path));
    }
    let mut sector = [0; 512];
    match volume.read(first.disk, first.sector, &mut sector) {
        Ok(()) => check_signature(alloc, path, &sector),
        Err(_) => Err(PlanFault::Device),
    }
}

// Whether a sector is the first of a span.
fn is_at(place: DiskSector, span: Span) -> bool
    ensures { result ≡ ((place.disk == span.disk) && (place.sector == span.start)) }
{
    place.disk == span.disk && place.sector == span.start
}

// Whether a BIOS takes the first sector of the system of this name for a boot sector.
fn check_signature(alloc: Global, path: &[u8], sector: &Sector) -> Result<(), PlanFault>
    ensures signature { Gives (λ done. tt) result (require (is_bootable sector.now) (model.NoSignature path.now)) }
    ensures cause { (before now : ℕ) → IfErr result (HasPlanCause before now) }
{
    if is_bootable(sector) {
        Ok(())
    } else {
        Err(no_signature(alloc, path))
    }
}

fn other_is_boot(alloc: Global, path: &[u8]) -> PlanFault
    ensures refused { Refuses {B = Unit {0}} result (Err (model.OtherIsBoot path.now)) }
    ensures cause { (before now : ℕ) → HasPlanCause before now result }
{
    match Text::new(alloc, path) {
        Ok(path) => PlanFault::OtherIsBoot(path),
        Err(_) => PlanFault::Memory,
    }
}

fn no_signature(alloc: Global, path: &[u8]) -> PlanFault
    ensures refused { Refuses {B = Unit {0}} result (Err (model.NoSignature path.now)) }
    ensures cause { (before now : ℕ) → HasPlanCause before now result }
{
    match Text::new(alloc, path) {
        Ok(path) => PlanFault::NoSignature(path),
        Err(_) => PlanFault::Memory,
    }
}

// Whether a BIOS takes a sector for a boot sector.
#[tactic(auto, unfolding(lilo_model::specs::BootSector::is_bootable))]
fn is_bootable(sector: &Sector) -> bool
    ensures { result ≡ is_bootable sector.now }
{
    part(sector, 510, 2) == [0x55, 0xAA].as_slice()
}

/// Whether a kernel takes its initial ramdisk and the command line of an automatic choice of each of its names.
///
/// # Errors
///
/// `Header`, `Device` and `Memory`.
pub fn check_kernel<D: Disks>(
    alloc: Global,
    volume: &mut Volume<'_, D>,
    section: &Section,
    middle: &Text,
    files: &KernelFiles,
) -> Result<(), PlanFault>
    requires lawful { IsLawfulSection (section_view section.now) }
    requires middle { middle.now ≡ middle_text (section_view section.now) }
    requires short { length middle.now < 2 ^ 18 }
    ensures kernel { OnSound volume.old (λ now machine.
        kernel_planned (volume_view volume.old) (parts_of (volume_view volume.old) now) (section_view section.now)
        ≡ Ok (kernel_view section.now (Some files.now))
        → Gives (λ done. tt) result (kernel_check (names_in (volume_view volume.old) now) (section_view section.now))) }
    ensures cause { IfErr result (HasPlanCause (faults_of volume.old) (faults_of volume.new)) }
    ensures later { faults_of volume.old ≤ faults_of volume.new }
    ensures same { SameVolume volume.old volume.new }
{
    let path = section.path.bytes();
    let start = read_start(alloc, volume, path)?;
    match check_names(&start, &files.initrd, middle, section) {
        Ok(()) => Ok(()),
        Err(fault) => Err(header_fault(alloc, path, fault)),
    }
}

fn size_of(file: &Option<FileRuns>) -> Option<u32>
    ensures { result ≡ option_map (λ file. file.size) file.now }
{
    match file {
        Some(file) => Some(file.size),
        None => None,
    }
}

fn header_fault(alloc: Global, path: &[u8], fault: SetupFault) -> PlanFault
    ensures refused { Refuses {B = Unit {0}} result (Err (model.Header path.now (setup_fault_view fault))) }
    ensures cause { (before now : ℕ) → HasPlanCause before now result }
{
    match Text::new(alloc, path) {
        Ok(path) => PlanFault::Header(path, fault),
        Err(_) => PlanFault::Memory,
    }
}

// Whether a kernel takes an initial ramdisk and the lines of a section's names.
#[tactic(auto, unfolding(lilo_model::specs::ConfLawful::names_of_section), using(crate::proofs::PassLemmas::unit_last))]
fn check_names(
    start: &FileStart,
    initrd: &Option<FileRuns>,
    middle: &Text,
    section: &Section,
) -> Result<(), SetupFault>
    requires lawful { IsLawfulSection (section_view section.now) }
    requires short { length middle.now < 2 ^ 18 }
    ensures { seen (λ (done : Unit {0}). done) setup_fault_view result
        ≡ names_fit (start_view start.now) (option_map (λ file. file.size) initrd.now) (length middle.now)
        (names_of_section (section_view section.now)) }
{
    let initrd = size_of(initrd);
    let middle = middle.bytes().len() as u32;
    check_fit(start, initrd, line_size(section.label.bytes(), middle))?;
    match &section.alias {
        Some(name) => check_fit(start, initrd, line_size(name.bytes(), middle)),
        None => Ok(()),
    }
}

// The bytes of the line of an automatic choice of a name.
fn line_size(name: &[u8], middle: u32) -> u32
    requires name { length name.now ≤ 15 }
    requires short { middle < 2 ^ 18 }
    ensures { result ≡ line_size name.now middle }
{
    16 + name.len() as u32 + middle
}

// Whether a kernel takes an initial ramdisk and a line of so many bytes: all checks but those of the memory's size.
fn check_fit(start: &FileStart, initrd: Option<u32>, line: u32) -> Result<(), SetupFault>
    ensures { seen (λ (done : Unit {0}). done) setup_fault_view result ≡ fit_by (start_view start.now) initrd line }
{
    let header = Header::read(&start.first, &start.second, start.size)?;
    match plan_memory(&header, start.size, initrd, line, u32::MAX) {
        Ok(_) => Ok(()),
        Err(fault) => but_room(fault),
    }
}

// A refusal, unless it is that of the memory's size.
fn but_room(fault: SetupFault) -> Result<(), SetupFault>
    ensures { seen (λ (done : Unit {0}). done) setup_fault_view result ≡ but_room (setup_fault_view fault) }
{
    match fault {
        SetupFault::NoRoom { need: _, have: _ } => Ok(()),
        fault => Err(fault),
    }
}

/// What is held of the sections that aren't omitted, one after the other.
///
/// # Errors
///
/// As `check_system` and `check_kernel`, of the first section that is refused.
pub fn check_sections<D: Disks>(
    alloc: Global,
    volume: &mut Volume<'_, D>,
    boot: Span,
    sections: &[PlannedSection],
) -> Result<(), PlanFault>
    requires { All (FitsSection (sizes_of volume.old)) sections.now }
    ensures sections { OnSound volume.old (λ now machine.
        All (λ planned. IsPlannedIn now machine (volume_view volume.old) (planned_view planned)) sections.now
        → Gives (λ done. tt) result (each_passes (mapped_check now (volume_view volume.old) (span_view boot))
        (planned_views sections.now))) }
    ensures cause { IfErr result (HasPlanCause (faults_of volume.old) (faults_of volume.new)) }
    ensures later { faults_of volume.old ≤ faults_of volume.new }
    ensures same { SameVolume volume.old volume.new }
{
    for planned in sections {
        check_section(alloc, volume, boot, planned)?;
    }
    Ok(())
}

// The same of one.
fn check_section<D: Disks>(
    alloc: Global,
    volume: &mut Volume<'_, D>,
    boot: Span,
    planned: &PlannedSection,
) -> Result<(), PlanFault>
    requires { FitsSection (sizes_of volume.old) planned.now }
    ensures section { OnSound volume.old (λ now machine.
        IsPlannedIn now machine (volume_view volume.old) (planned_view planned.now)
        → Gives (λ done. tt) result (mapped_check now (volume_view volume.old) (span_view boot)
        (planned_view planned.now))) }
    ensures cause { IfErr result (HasPlanCause (faults_of volume.old) (faults_of volume.new)) }
    ensures later { faults_of volume.old ≤ faults_of volume.new }
    ensures same { SameVolume volume.old volume.new }
{
    let section = &planned.section;
    match &planned.files {
        SectionFiles::System(sectors) => {
            check_system(alloc, volume, boot, section.path.bytes(), *sectors)
        }
        SectionFiles::Kernel(files) => {
            check_kernel(alloc, volume, section, &planned.middle, files)
        }
    }
}
