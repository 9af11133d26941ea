// Sections that are refused as wholes.
ghost use Rattle.std.specs.Prelude.{◌≡◌};
ghost use Rattle.std.specs.Option.{option_map};
ghost use Rattle.lilo_model.specs.Conf as model;
ghost use Rattle.conf_settings.specs.View.{reason_view, fault_view, settings_view};
ghost use Rattle.conf_judge.specs.View.{lists_view};

use crate::effect::{effect_flag, effect_value, opener_of, opening_line, section_path};
use crate::part::{has_option, line_of, value_of};
use crate::place::NAME_LIMIT;
use conf_settings::{ConfFault, ConfReason, Opt, Setting, is_name, last_part};

/// The first refusal of sections as wholes.
pub fn sections_refusal(front: &[Setting], sections: &[&[Setting]]) -> Option<ConfFault>
    ensures { option_map fault_view result
        ≡ option_map Some (model.sections_refusal (settings_view front.now) (lists_view sections.now)) }
{
    for section in sections {
        if let Some(fault) = section_refusal(front, section) {
            return Some(fault);
        }
    }
    None
}

// Why a section is refused as a whole.
#[tactic(auto, unfolding(lilo_model::specs::Conf::section_refusal))]
fn section_refusal(front: &[Setting], section: &[Setting]) -> Option<ConfFault>
    ensures { option_map fault_view result
        ≡ option_map Some (model.section_refusal (settings_view front.now) (settings_view section.now)) }
{
    if let Some(reason) = label_reason(section) {
        Some(ConfFault {
            reason,
            option: opener_of(section),
            line: opening_line(section),
        })
    } else if is_locked_fallback(front, section) {
        Some(ConfFault {
            reason: ConfReason::Excludes(Opt::Lock),
            option: Opt::Fallback,
            line: excludes_line(section),
        })
    } else if is_open_restricted(front, section) {
        Some(ConfFault {
            reason: ConfReason::Needs(Opt::Password),
            option: Opt::Restricted,
            line: opening_line(section),
        })
    } else {
        None
    }
}

// What is wrong with a name that is taken from a path.
#[tactic(auto, unfolding(lilo_model::specs::Conf::label_reason))]
fn label_reason(section: &[Setting]) -> Option<ConfReason>
    ensures { option_map reason_view result ≡ option_map Some (model.label_reason (settings_view section.now)) }
{
    let name = last_part(section_path(section));
    if value_of(Opt::Label, section).is_some() {
        None
    } else if !is_name(name) {
        Some(ConfReason::BadValue)
    } else if name.len() > NAME_LIMIT {
        Some(ConfReason::NameTooLong)
    } else {
        None
    }
}

// The line of a fallback that a lock excludes: that of the later one where both are the section's own.
#[tactic(auto, unfolding(lilo_model::specs::Conf::excludes_line))]
fn excludes_line(section: &[Setting]) -> u32
    ensures { result ≡ model.excludes_line (settings_view section.now) }
{
    if has_option(Opt::Lock, section) && has_option(Opt::Fallback, section) {
        line_of(Opt::Lock, section).max(line_of(Opt::Fallback, section))
    } else {
        opening_line(section)
    }
}

// Whether a section has both a lock and a fallback in effect.
#[tactic(auto, unfolding(lilo_model::specs::Conf::is_locked_fallback))]
fn is_locked_fallback(front: &[Setting], section: &[Setting]) -> bool
    ensures { result ≡ model.is_locked_fallback (settings_view front.now) (settings_view section.now) }
{
    effect_flag(Opt::Lock, front, section) && effect_value(Opt::Fallback, front, section).is_some()
}

// Whether a section is restricted and has no password.
#[tactic(auto, unfolding(lilo_model::specs::Conf::is_open_restricted))]
fn is_open_restricted(front: &[Setting], section: &[Setting]) -> bool
    ensures { result ≡ model.is_open_restricted (settings_view front.now) (settings_view section.now) }
{
    effect_flag(Opt::Restricted, front, section)
        && effect_value(Opt::Password, front, section).is_none()
}
