// The settings of a part: those before all sections, or those of a section, of which the first opens it.
ghost use Rattle.std.specs.Prelude.{◌≡◌, ◌≤◌, length};
ghost use Rattle.std.specs.List.{prefix_len, take_while};
ghost use Rattle.std.specs.Option.{option_map, option_copied};
ghost use Rattle.lilo_model.specs.Conf as conf;
ghost use Rattle.lilo_model.specs.ConfJudge as model;
ghost use Rattle.lilo_model.specs.ConfOptions.{is_of_disk};
ghost use Rattle.conf_settings.specs.View.{opt_view, part_view, given_view, setting_view, settings_view};

use conf_settings::{Given, Opt, Part, Setting};

/// The value that comes after an option.
#[tactic(auto, unfolding(lilo_model::specs::ConfJudge::given_text))]
pub fn given_text(given: &Given) -> Option<&[u8]>
    ensures { option_copied result ≡ model.given_text (given_view given.now) }
{
    match given {
        Given::Bare | Given::Sign => None,
        Given::Value(text) => Some(text.bytes()),
    }
}

/// The first setting of an option.
pub fn setting_of(option: Opt, settings: &[Setting]) -> Option<&Setting>
    ensures { option_map setting_view (option_copied result)
        ≡ model.setting_of (opt_view option) (settings_view settings.now) }
{
    settings.iter().find(|setting| setting.option.is(option))
}

/// Whether an option is among settings.
pub fn has_option(option: Opt, settings: &[Setting]) -> bool
    ensures { result ≡ model.has_option (opt_view option) (settings_view settings.now) }
{
    settings.iter().any(|setting| setting.option.is(option))
}

/// The value of an option among settings.
#[tactic(auto, unfolding(lilo_model::specs::Conf::value_of))]
pub fn value_of(option: Opt, settings: &[Setting]) -> Option<&[u8]>
    ensures { option_copied result ≡ conf.value_of (opt_view option) (settings_view settings.now) }
{
    match setting_of(option, settings) {
        Some(setting) => given_text(&setting.given),
        None => None,
    }
}

/// The line of an option among settings, or 0.
#[tactic(auto, unfolding(lilo_model::specs::Conf::line_of))]
pub fn line_of(option: Opt, settings: &[Setting]) -> u32
    ensures { result ≡ conf.line_of (opt_view option) (settings_view settings.now) }
{
    match setting_of(option, settings) {
        Some(setting) => setting.line,
        None => 0,
    }
}

/// The part that settings are in.
#[tactic(auto, unfolding(lilo_model::specs::ConfJudge::part_kind))]
pub fn part_kind(settings: &[Setting]) -> Part
    ensures { part_view result ≡ model.part_kind (settings_view settings.now) }
{
    match settings {
        [] => Part::Global,
        [first, ..] => opened_part(first.option),
    }
}

// The part of a setting that opens one, or the global part.
#[tactic(auto, unfolding(lilo_model::specs::ConfJudge::opened_part))]
fn opened_part(option: Opt) -> Part
    ensures { part_view result ≡ model.opened_part (opt_view option) }
{
    match option {
        Opt::Image => Part::Image,
        Opt::OtherDevice => Part::Other,
        _ => Part::Global,
    }
}

/// The first settings, as long as they are details of a disk.
pub fn disk_details(settings: &[Setting]) -> &[Setting]
    ensures { settings_view result.now
        ≡ take_while (λ setting. is_of_disk setting.option) (settings_view settings.now) }
{
    &settings[..details_length(settings)]
}

// How many of the first settings are details of a disk.
fn details_length(settings: &[Setting]) -> usize
    ensures value { result ≡ prefix_len (λ setting. is_of_disk (opt_view setting.option)) settings.now }
    ensures within { result ≤ length settings.now }
{
    settings
        .iter()
        .take_while(|setting| setting.option.is_of_disk())
        .count()
}
