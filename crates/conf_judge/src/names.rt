// Names of sections that are refused after others, and a default that is none of them.
ghost use Rattle.std.specs.Prelude.{◌≡◌, ◌≤◌, ◌+◌, [], length, flat_map};
ghost use Rattle.std.specs.Option.{option_map};
ghost use Rattle.lilo_model.specs.Checks.{with_fault};
ghost use Rattle.lilo_model.specs.Conf as model;
ghost use Rattle.lilo_model.specs.Conf.{section_names};
ghost use Rattle.conf_settings.specs.View.{fault_view, settings_view};
ghost use Rattle.conf_judge.specs.View.{lists_view, names_of, names_view};
ghost use Rattle.conf_judge.specs.Wanted.{wanted_refusal};

use crate::effect::{opener_of, opening_line, section_label};
use crate::part::{line_of, value_of};
use conf_settings::{ConfFault, ConfReason, Opt, Setting};

// The most names.
const NAMES_LIMIT: usize = 19;

/// The first refusal of the names of sections, each after those before it.
pub fn names_refusal(sections: &[&[Setting]]) -> Option<ConfFault>
    ensures { names_view result (names_of sections.now)
        ≡ with_fault Some (model.names_from [] (lists_view sections.now)) }
{
    let mut count = 0;
    for (index, section) in sections.iter().enumerate() {
        if let Some(fault) = names_reason(&sections[..index], count, section) {
            return Some(fault);
        }
        count += names_count(section);
    }
    None
}

/// Why a configuration is refused as a whole, where the names of its sections are fine.
pub fn default_refusal(front: &[Setting], sections: &[&[Setting]]) -> Option<ConfFault>
    ensures { option_map fault_view result ≡ option_map Some
        (model.default_refusal (settings_view front.now) (names_of sections.now)) }
{
    if sections.is_empty() {
        return Some(ConfFault {
            reason: ConfReason::NoImages,
            option: Opt::Image,
            line: 0,
        });
    }
    match value_of(Opt::Default, front) {
        Some(wanted) => wanted_refusal(front, wanted, sections),
        None => None,
    }
}

// Why a default is refused beside the names of sections.
fn wanted_refusal(front: &[Setting], wanted: &[u8], sections: &[&[Setting]]) -> Option<ConfFault>
    ensures { option_map fault_view result
        ≡ option_map Some (wanted_refusal (settings_view front.now) wanted.now (names_of sections.now)) }
{
    if has_name(wanted, sections) {
        None
    } else {
        Some(ConfFault {
            reason: ConfReason::NoDefault,
            option: Opt::Default,
            line: line_of(Opt::Default, front),
        })
    }
}

// Why the names of a section are refused after those of others, which are so many.
#[tactic(auto, unfolding(lilo_model::specs::Conf::names_reason))]
fn names_reason(before: &[&[Setting]], count: usize, section: &[Setting]) -> Option<ConfFault>
    requires count { count ≡ length (names_of before.now) }
    requires few { count ≤ 19 }
    ensures { option_map fault_view result ≡ option_map Some
        (model.names_reason (names_of before.now) (settings_view section.now)) }
{
    let label = section_label(section);
    if has_name(label, before) {
        return Some(repeated(Opt::Label, section));
    }
    match value_of(Opt::Alias, section) {
        Some(alias) if has_name(alias, before) || label == alias => Some(repeated(
            Opt::Alias,
            section,
        )),
        Some(_) => many_refusal(count + 2, section),
        None => many_refusal(count + 1, section),
    }
}

// The refusal of a name that an earlier section has.
fn repeated(option: Opt, section: &[Setting]) -> ConfFault
    ensures { result ≡ record {
      reason = ConfReason.RepeatedName;
      option = option;
      line = model.opening_line (settings_view section.now);
    } }
{
    ConfFault {
        reason: ConfReason::RepeatedName,
        option,
        line: opening_line(section),
    }
}

// Why there are too many names, by their number once those of a section are among them.
#[tactic(auto, unfolding(lilo_model::specs::Conf::many_refusal))]
fn many_refusal(count: usize, section: &[Setting]) -> Option<ConfFault>
    ensures { option_map fault_view result ≡ option_map Some (model.many_refusal count (settings_view section.now)) }
{
    if count > NAMES_LIMIT {
        Some(ConfFault {
            reason: ConfReason::TooManyNames,
            option: opener_of(section),
            line: opening_line(section),
        })
    } else {
        None
    }
}

// How many names a section has.
#[tactic(auto, unfolding(lilo_model::specs::Conf::section_names))]
fn names_count(section: &[Setting]) -> usize
    ensures count { result ≡ length (section_names (settings_view section.now)) }
    ensures few { result ≤ 2 }
{
    if value_of(Opt::Alias, section).is_some() {
        2
    } else {
        1
    }
}

// Whether a name is among those of sections.
fn has_name(name: &[u8], sections: &[&[Setting]]) -> bool
    ensures { result ≡ model.has_name name.now (names_of sections.now) }
{
    sections.iter().any(|section| is_name_of(name, section))
}

// Whether a name is one of a section's.
#[tactic(auto, unfolding(lilo_model::specs::Conf::section_names))]
fn is_name_of(name: &[u8], section: &[Setting]) -> bool
    ensures { result ≡ model.has_name name.now (section_names (settings_view section.now)) }
{
    let is_alias = match value_of(Opt::Alias, section) {
        Some(alias) => alias == name,
        None => false,
    };
    section_label(section) == name || is_alias
}
