// What a section says.
ghost use Rattle.std.specs.Prelude.{◌≡◌, map, IfOk};
ghost use Rattle.std.specs.Option.{option_map, option_and_then};
ghost use Rattle.lilo_model.specs.Conf as model;
ghost use Rattle.lilo_model.specs.ConfOptions as options;
ghost use Rattle.lilo_model.specs.ConfValues as values;
ghost use Rattle.lilo_model.specs.VideoMode as modes;
ghost use Rattle.conf_settings.specs.View.{settings_view};
ghost use Rattle.conf_judge.specs.View.{lists_view};
ghost use Rattle.mbr_table.specs.View.{device_view};
ghost use Rattle.lilo_conf.specs.View.{mount_view, section_view, sections_view};

use crate::section::{Mount, Section, SectionList};
use crate::value::{device_from, effect_text, known_device, own_text};
use conf_judge::{
    effect_flag, effect_value, has_option, opening_line, part_kind, section_label, section_path,
};
use conf_settings::{Opt, Part, Setting, root_at, video_mode};
use conf_text::Text;
use mbr_table::Device;
use std::alloc::{AllocError, Global};

/// What sections say, the global part being this one.
pub(crate) fn sections_of(
    alloc: Global,
    front: &[Setting],
    sections: &[&[Setting]],
) -> Result<SectionList, AllocError>
    ensures { IfOk result (λ told. sections_view told
        ≡ map (model.section_of (settings_view front.now)) (lists_view sections.now)) }
{
    let mut told = Vec::new(alloc);
    for section in sections {
        told.push(section_of(alloc, front, section)?)?;
    }
    Ok(SectionList::new(told))
}

// What a section says.
fn section_of(alloc: Global, front: &[Setting], section: &[Setting]) -> Result<Section, AllocError>
    ensures { IfOk result (λ told. section_view told
        ≡ model.section_of (settings_view front.now) (settings_view section.now)) }
{
    let path = Text::new(alloc, section_path(section))?;
    let label = Text::new(alloc, section_label(section))?;
    let alias = own_text(alloc, Opt::Alias, section)?;
    let initrd = effect_text(alloc, Opt::Initrd, front, section)?;
    let append = effect_text(alloc, Opt::Append, front, section)?;
    let literal = own_text(alloc, Opt::Literal, section)?;
    let password = effect_text(alloc, Opt::Password, front, section)?;
    let fallback = effect_text(alloc, Opt::Fallback, front, section)?;
    Ok(Section {
        other: section_device(section),
        path,
        label,
        alias,
        initrd,
        root: effect_root(front, section),
        mount: effect_mount(front, section),
        append,
        literal,
        vga: effect_vga(front, section),
        password,
        restricted: effect_flag(Opt::Restricted, front, section),
        optional: effect_flag(Opt::Optional, front, section),
        lock: effect_flag(Opt::Lock, front, section),
        fallback,
        table: device_from(Opt::Table, section),
        line: opening_line(section),
    })
}

// The device of another system's section.
#[tactic(auto, unfolding(lilo_model::specs::Conf::section_device))]
fn section_device(section: &[Setting]) -> Option<Device>
    ensures { option_map device_view result ≡ model.section_device (settings_view section.now) }
{
    match part_kind(section) {
        Part::Other => known_device(section_path(section)),
        Part::Image | Part::Global => None,
    }
}

// The number of the root's device that is in effect in a section.
fn effect_root(front: &[Setting], section: &[Setting]) -> Option<u16>
    ensures { result ≡ option_and_then values.root_at
        (model.effect_value options.Root (settings_view front.now) (settings_view section.now)) }
{
    match effect_value(Opt::Root, front, section) {
        Some(text) => root_at(text),
        None => None,
    }
}

// The video mode that is in effect in a section.
fn effect_vga(front: &[Setting], section: &[Setting]) -> Option<u16>
    ensures { result ≡ option_and_then modes.video_mode
        (model.effect_value options.Vga (settings_view front.now) (settings_view section.now)) }
{
    match effect_value(Opt::Vga, front, section) {
        Some(text) => video_mode(text),
        None => None,
    }
}

// How a kernel is to mount its root, as is in effect in a section.
#[tactic(auto, unfolding(lilo_model::specs::Conf::effect_mount))]
fn effect_mount(front: &[Setting], section: &[Setting]) -> Mount
    ensures { mount_view result ≡ model.effect_mount (settings_view front.now) (settings_view section.now) }
{
    let global = if Opt::ReadOnly.stands_in(part_kind(section)) {
        mount_of(front, Mount::Unsaid)
    } else {
        Mount::Unsaid
    };
    mount_of(section, global)
}

// How a kernel is to mount its root, by a part, or else by another way.
#[tactic(auto, unfolding(lilo_model::specs::Conf::mount_of))]
fn mount_of(settings: &[Setting], other: Mount) -> Mount
    ensures { mount_view result ≡ model.mount_of (settings_view settings.now) (mount_view other) }
{
    if has_option(Opt::ReadOnly, settings) {
        Mount::ReadOnly
    } else if has_option(Opt::ReadWrite, settings) {
        Mount::ReadWrite
    } else {
        other
    }
}
