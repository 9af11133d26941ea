//! What an installation maps, and why it is refused: the plan of a map, its checks one by one, and the files that it
//! maps, each as its runs.
#![tactic(auto)]

mod address;
mod check;
mod copy;
mod device;
mod fault;
mod file;
mod files;
mod held;
mod laws;
mod middle;
mod names;
mod section;
mod start;
mod whole;

pub use address::{MapNaming, check_addresses, check_optional_addresses};
pub use check::{MOST_SLOTS, check_geometry, check_map_places, check_mapped_file, check_message};
pub use device::{SystemSectors, map_device, map_system};
pub use fault::PlanFault;
pub use file::{KernelFiles, map_kernel, map_path};
pub use files::{BootCode, PlanFiles, find_files};
pub use held::{check_disks, check_kernel, check_sections, check_system};
pub use laws::{
    a_plan_is_its_files, a_section_is_planned, code_is_planned, headers_are_checked,
    kernels_are_planned, optional_paths_are_planned, paths_are_planned, sections_are_planned,
    systems_are_planned,
};
pub use names::NameList;
pub use section::{PlannedSection, PlannedSections, SectionFiles, map_sections};
pub use whole::{disk_of, plan_files};
