// The descriptors of a planned map's entries.
ghost use Rattle.std.specs.Prelude.{◌≡◌, ◌≤◌, length, is_some, unwrap_or};
ghost use Rattle.std.specs.Option.{option_map};
ghost use Rattle.lilo_model.specs.Plan as model;
ghost use Rattle.lilo_conf.specs.View.{section_view};
ghost use Rattle.map_plan.specs.Sections.{initrd_view, main_view, planned_view};

use crate::map::MapPlan;
use crate::places::main_places;
use crate::texts::copy_of;
use boot_map::{Descriptor, flags};
use lilo_conf::Section;
use map_plan::{PlannedSection, SectionFiles};
use sector_address::Slot;
use slot_lists::DiskSector;

impl MapPlan {
    ghost use Rattle.std.specs.Prelude.{◌≡◌, ◌≤◌, IfSome, None, Some, if◌then◌else◌, length, map};
    ghost use Rattle.std.specs.Option.{option_map};
    ghost use Rattle.lilo_model.specs.Disks.{Machine};
    ghost use Rattle.lilo_model.specs.Plan as model;
    ghost use Rattle.lilo_model.specs.Plan.{descriptor_for, needs_extra, place_of_sector, slot_to};
    ghost use Rattle.sector_address.specs.View.{slot_view};
    ghost use Rattle.lilo_conf.specs.View.{config_view, section_view};
    ghost use Rattle.boot_map.specs.Ranges.{HasEntrySlots, IsWritable};
    ghost use Rattle.boot_map.specs.View.{descriptor_view};
    ghost use Rattle.slot_lists.specs.Made.{place_view};
    ghost use Rattle.map_plan.specs.Sections.{initrd_view, planned_view};
    ghost use Rattle.map_sectors.specs.Accepted.{IsAccepted};
    ghost use Rattle.map_sectors.specs.Kept.{IsKept};
    ghost use Rattle.map_sectors.specs.Map.{HasGeometries};
    ghost use Rattle.map_sectors.specs.Places.{LieOnFour};

    // The descriptor of a section under a name, where its sectors lie at places.
    #[tactic(auto, unfolding(lilo_model::specs::Plan::descriptor_for))]
    pub(crate) fn descriptor(
        &self,
        planned: &PlannedSection,
        places: &[DiskSector],
        name: &[u8],
    ) -> Descriptor
        requires { IsKept planned.now }
        ensures value { (machine : Machine) → HasGeometries machine self.now.geometries
            → IsAccepted machine self.now planned.now
            → LieOnFour (map place_view places.now) → length name.now ≤ 15 → descriptor_view result
            ≡ descriptor_for (config_view self.now.config) machine (planned_view planned.now)
            (map place_view places.now) name.now }
        ensures slots { HasEntrySlots result }
    {
        Descriptor {
            name: copy_of(name),
            flags: flags_of(planned),
            vga: vga_of(&planned.section),
            length: main_size(&planned.files),
            initrd_length: initrd_size(&planned.files),
            options: self.slot_at(places, 0),
            first: self.slot_at(main_places(&planned.section, places), 0),
            initrd: self.initrd_slot(planned, places),
            chain: self.main_chain(&planned.files),
            initrd_chain: self.initrd_chain(&planned.files),
            extra: self.extra_slot(&planned.section, places),
        }
    }

    // The slot of the initial ramdisk's first section sector.
    fn initrd_slot(&self, planned: &PlannedSection, places: &[DiskSector]) -> Option<Slot>
        requires { IsKept planned.now }
        ensures value { (machine : Machine) → HasGeometries machine self.now.geometries
            → IsAccepted machine self.now planned.now
            → LieOnFour (map place_view places.now) → option_map slot_view result
            ≡ option_map (λ file. slot_to (config_view self.now.config).mode machine
            (place_of_sector (model.initrd_places (config_view self.now.config) machine (planned_view planned.now)
            (map place_view places.now)) 0)) (initrd_view planned.now.files) }
        ensures whole { IfSome result IsWritable }
    {
        if has_initrd(&planned.files) {
            Some(self.slot_at(self.initrd_places(planned, places), 0))
        } else {
            None
        }
    }

    // The slot of the extra sector.
    fn extra_slot(&self, section: &Section, places: &[DiskSector]) -> Option<Slot>
        ensures value { (machine : Machine) → HasGeometries machine self.now.geometries
            → LieOnFour (map place_view places.now)
            → option_map slot_view result ≡ (if needs_extra (section_view section.now)
            then Some (slot_to (config_view self.now.config).mode machine
            (place_of_sector (map place_view places.now) 1)) else None) }
        ensures whole { IfSome result IsWritable }
    {
        if section.password.is_some() || section.fallback.is_some() {
            Some(self.slot_at(places, 1))
        } else {
            None
        }
    }
}

// The flags of a section.
#[tactic(auto, unfolding(lilo_model::specs::Plan::flags_of))]
fn flags_of(planned: &PlannedSection) -> u16
    ensures { result ≡ model.flags_of (planned_view planned.now) }
{
    let section = &planned.section;
    flag_if(section.other.is_some(), flags::OTHER)
        + flag_if(section.password.is_some(), flags::PASSWORD)
        + flag_if(section.restricted, flags::RESTRICTED)
        + flag_if(section.lock, flags::LOCK)
        + flag_if(section.fallback.is_some(), flags::FALLBACK)
        + flag_if(section.vga.is_some(), flags::VIDEO)
        + flag_if(has_initrd(&planned.files), flags::INITRD)
        + flag_if(section.table.is_some(), flags::TABLE)
}

// A flag, where it is set.
fn flag_if(set: bool, flag: u16) -> u16
    ensures value { result ≡ model.flag_if set flag }
    ensures most { result ≤ flag }
{
    if set { flag } else { 0 }
}

// The video mode of a section, 0 where it has none.
fn vga_of(section: &Section) -> u16
    ensures { result ≡ unwrap_or (section_view section.now).vga 0 }
{
    match section.vga {
        Some(mode) => mode,
        None => 0,
    }
}

// How many bytes the main file of a section has.
fn main_size(files: &SectionFiles) -> u32
    ensures { result ≡ (main_view files.now).size }
{
    match files {
        SectionFiles::Kernel(files) => files.main.size,
        SectionFiles::System(sectors) => match sectors.table {
            Some(_) => 1024,
            None => 512,
        },
    }
}

// How many its initial ramdisk has, 0 where it has none.
fn initrd_size(files: &SectionFiles) -> u32
    ensures { result ≡ unwrap_or (option_map (λ file. file.size) (initrd_view files.now)) 0 }
{
    match files {
        SectionFiles::Kernel(files) => match &files.initrd {
            Some(file) => file.size,
            None => 0,
        },
        SectionFiles::System(_) => 0,
    }
}

// Whether it has one.
fn has_initrd(files: &SectionFiles) -> bool
    ensures { result ≡ is_some (initrd_view files.now) }
{
    match files {
        SectionFiles::Kernel(files) => files.initrd.is_some(),
        SectionFiles::System(_) => false,
    }
}
