// What is in effect in a section: its own settings, and those of the global part.
ghost use Rattle.std.specs.Prelude.{◌≡◌};
ghost use Rattle.std.specs.Option.{option_copied};
ghost use Rattle.lilo_model.specs.Conf as model;
ghost use Rattle.conf_settings.specs.View.{opt_view, settings_view};

use crate::part::{given_text, has_option, part_kind, value_of};
use conf_settings::{Opt, Setting, last_part};

/// The value that is in effect in a section: its own, or else the global one where the option may be there.
#[tactic(auto, unfolding(lilo_model::specs::Conf::effect_value))]
pub fn effect_value<'a>(
    option: Opt,
    front: &'a [Setting],
    section: &'a [Setting],
) -> Option<&'a [u8]>
    ensures { option_copied result
        ≡ model.effect_value (opt_view option) (settings_view front.now) (settings_view section.now) }
{
    match value_of(option, section) {
        Some(text) => Some(text),
        None if option.stands_in(part_kind(section)) => value_of(option, front),
        None => None,
    }
}

/// Whether an option without a value is in effect in a section.
#[tactic(auto, unfolding(lilo_model::specs::Conf::effect_flag))]
pub fn effect_flag(option: Opt, front: &[Setting], section: &[Setting]) -> bool
    ensures { result ≡ model.effect_flag (opt_view option) (settings_view front.now) (settings_view section.now) }
{
    has_option(option, section)
        || (option.stands_in(part_kind(section)) && has_option(option, front))
}

/// The option that opens a section.
#[tactic(auto, unfolding(lilo_model::specs::Conf::opener_of))]
pub(crate) fn opener_of(section: &[Setting]) -> Opt
    ensures { opt_view result ≡ model.opener_of (settings_view section.now) }
{
    match section {
        [] => Opt::Other,
        [first, ..] => first.option,
    }
}

/// The line of the option that opens a section.
#[tactic(auto, unfolding(lilo_model::specs::Conf::opening_line))]
pub fn opening_line(section: &[Setting]) -> u32
    ensures { result ≡ model.opening_line (settings_view section.now) }
{
    match section {
        [] => 0,
        [first, ..] => first.line,
    }
}

/// The text of the option that opens a section: a path, or the name of a device.
#[tactic(auto, unfolding(lilo_model::specs::Conf::section_path))]
pub fn section_path(section: &[Setting]) -> &[u8]
    ensures { result.now ≡ model.section_path (settings_view section.now) }
{
    match section {
        [] => b"",
        [first, ..] => match given_text(&first.given) {
            Some(text) => text,
            None => b"",
        },
    }
}

/// The name of a section: its label, or else the last part of its path.
#[tactic(auto, unfolding(lilo_model::specs::Conf::section_label))]
pub fn section_label(section: &[Setting]) -> &[u8]
    ensures { result.now ≡ model.section_label (settings_view section.now) }
{
    match value_of(Opt::Label, section) {
        Some(label) => label,
        None => last_part(section_path(section)),
    }
}
