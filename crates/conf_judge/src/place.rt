// Settings that are refused where they are, by those before them in their part.
ghost use Rattle.std.specs.Prelude.{◌≡◌, ◌≤◌, ℕ, length, []};
ghost use Rattle.std.specs.Option.{option_map};
ghost use Rattle.std.specs.List.{list_any};
ghost use Rattle.lilo_model.specs.ConfJudge as model;
ghost use Rattle.lilo_model.specs.ConfOptions.{takes_of};
ghost use Rattle.lilo_model.specs.ConfSettings.{Bare, Sign};
ghost use Rattle.conf_settings.specs.View.{opt_view, takes_view, reason_view, fault_view, given_view};
ghost use Rattle.conf_settings.specs.View.{setting_view, settings_view};

use crate::part::{given_text, has_option, part_kind};
use conf_settings::{
    ConfFault, ConfReason, Given, Opt, Part, Setting, Takes, is_value, whole_disk_at,
};

// The most bytes of a name.
pub(crate) const NAME_LIMIT: usize = 15;

/// The first refusal of settings where they are.
pub fn settings_refusal(settings: &[Setting]) -> Option<ConfFault>
    ensures { option_map fault_view result ≡ option_map Some (model.settings_refusal [] (settings_view settings.now)) }
{
    let mut start = 0;
    for (index, setting) in settings.iter().enumerate() {
        if let Some(reason) = setting_reason(&settings[start..index], setting) {
            return Some(ConfFault {
                reason,
                option: setting.option,
                line: setting.line,
            });
        }
        if setting.option.opens() {
            start = index;
        }
    }
    None
}

// What is wrong with a setting, after others of its part.
#[tactic(auto, unfolding(lilo_model::specs::ConfJudge::setting_reason))]
fn setting_reason(own: &[Setting], setting: &Setting) -> Option<ConfReason>
    ensures { option_map reason_view result ≡ option_map Some
        (model.setting_reason (settings_view own.now) (setting_view setting.now)) }
{
    if setting.option.opens() {
        value_reason(0, setting)
    } else if setting.option.is(Opt::Disk) {
        disk_reason(own, setting)
    } else if setting.option.is_of_disk() {
        detail_reason(own, setting)
    } else {
        part_reason(own, setting)
    }
}

// What is wrong with an option of a part, after others of it.
#[tactic(auto, unfolding(lilo_model::specs::ConfJudge::part_reason))]
fn part_reason(own: &[Setting], setting: &Setting) -> Option<ConfReason>
    ensures { option_map reason_view result ≡ option_map Some
        (model.part_reason (settings_view own.now) (setting_view setting.now)) }
{
    if !setting.option.stands_in(part_kind(own)) {
        Some(ConfReason::Misplaced)
    } else if has_option(setting.option, own) {
        Some(ConfReason::Repeated)
    } else {
        match excluded_in(own, setting.option) {
            Some(other) => Some(ConfReason::Excludes(other)),
            None => value_reason(0, setting),
        }
    }
}

// The option among settings that one excludes.
#[tactic(auto, unfolding(lilo_model::specs::ConfJudge::excluded_in))]
fn excluded_in(own: &[Setting], option: Opt) -> Option<Opt>
    ensures { option_map opt_view result ≡ model.excluded_in (settings_view own.now) (opt_view option) }
{
    match option.excluded_by() {
        Some(other) if has_option(other, own) => Some(other),
        _ => None,
    }
}

// What is wrong with a `disk`, after others of its part.
#[tactic(auto, unfolding(lilo_model::specs::ConfJudge::disk_reason))]
fn disk_reason(own: &[Setting], setting: &Setting) -> Option<ConfReason>
    ensures { option_map reason_view result ≡ option_map Some
        (model.disk_reason (settings_view own.now) (setting_view setting.now)) }
{
    if !Opt::Disk.stands_in(part_kind(own)) {
        Some(ConfReason::Misplaced)
    } else if names_disk(own, setting_disk(setting)) {
        Some(ConfReason::Repeated)
    } else {
        value_reason(0, setting)
    }
}

// Whether a disk is there and settings name it.
fn names_disk(own: &[Setting], disk: Option<u8>) -> bool
    ensures { result ≡ list_any (λ other. model.is_same_disk disk (model.setting_disk other)) (settings_view own.now) }
{
    own.iter()
        .any(|other| is_same_disk(disk, setting_disk(other)))
}

// Whether two disks are there and are one.
#[tactic(auto, unfolding(lilo_model::specs::ConfJudge::is_same_disk))]
fn is_same_disk(one: Option<u8>, other: Option<u8>) -> bool
    ensures { result ≡ model.is_same_disk one other }
{
    match (one, other) {
        (Some(one), Some(other)) => one == other,
        _ => false,
    }
}

// The disk that a setting names.
#[tactic(auto, unfolding(lilo_model::specs::ConfJudge::setting_disk))]
fn setting_disk(setting: &Setting) -> Option<u8>
    ensures { result ≡ model.setting_disk (setting_view setting.now) }
{
    if !setting.option.is(Opt::Disk) {
        return None;
    }
    match given_text(&setting.given) {
        Some(text) => whole_disk_at(text),
        None => None,
    }
}

// What is wrong with a detail of a disk, after others of its part.
#[tactic(auto, unfolding(lilo_model::specs::ConfJudge::detail_reason))]
fn detail_reason(own: &[Setting], setting: &Setting) -> Option<ConfReason>
    ensures { option_map reason_view result ≡ option_map Some
        (model.detail_reason (settings_view own.now) (setting_view setting.now)) }
{
    match group_disk(own) {
        None => Some(ConfReason::Misplaced),
        Some(_) if has_option(setting.option, details_of(own)) => Some(ConfReason::Repeated),
        Some(disk) => value_reason(disk, setting),
    }
}

// The disk whose group lasts to the end of the settings.
#[tactic(auto, unfolding(lilo_model::specs::ConfJudge::group_disk))]
fn group_disk(own: &[Setting]) -> Option<u8>
    ensures { result ≡ model.group_disk (settings_view own.now) }
{
    let count = details_count(own);
    if count < own.len() {
        setting_disk(&own[own.len() - count - 1])
    } else {
        None
    }
}

// The last settings, as far back as they are details of a disk.
#[tactic(auto, unfolding(lilo_model::specs::ConfJudge::details_of))]
fn details_of(own: &[Setting]) -> &[Setting]
    ensures { settings_view result.now ≡ model.details_of (settings_view own.now) }
{
    &own[own.len() - details_count(own)..]
}

// How many of the last settings are details of a disk.
#[tactic(auto, unfolding(lilo_model::specs::ConfJudge::details_count))]
fn details_count(own: &[Setting]) -> usize
    ensures value { result ≡ model.details_count (settings_view own.now) }
    ensures within { result ≤ length own.now }
{
    own.iter()
        .rev()
        .take_while(|setting| setting.option.is_of_disk())
        .count()
}

// What is wrong with the value of a setting, the disk of its group being this one.
#[tactic(auto, unfolding(lilo_model::specs::ConfJudge::value_reason, lilo_model::specs::ConfJudge::given_reason))]
fn value_reason(disk: u8, setting: &Setting) -> Option<ConfReason>
    ensures { option_map reason_view result ≡ option_map Some (model.value_reason disk (setting_view setting.now)) }
{
    match &setting.given {
        Given::Value(text) => text_reason(setting.option, disk, text.bytes()),
        Given::Bare => bare_reason(setting.option),
        Given::Sign => sign_reason(setting.option),
    }
}

// What is wrong with an option that has no equals sign.
#[tactic(auto, unfolding(lilo_model::specs::ConfJudge::given_reason))]
fn bare_reason(option: Opt) -> Option<ConfReason>
    ensures { (disk : ℕ) → option_map reason_view result
        ≡ option_map Some (model.given_reason (opt_view option) disk Bare) }
{
    if takes_nothing(option) {
        None
    } else {
        Some(ConfReason::NoValue)
    }
}

// What is wrong with an option that has an equals sign and no value.
#[tactic(auto, unfolding(lilo_model::specs::ConfJudge::given_reason))]
fn sign_reason(option: Opt) -> Option<ConfReason>
    ensures { (disk : ℕ) → option_map reason_view result
        ≡ option_map Some (model.given_reason (opt_view option) disk Sign) }
{
    if takes_nothing(option) {
        Some(ConfReason::BadValue)
    } else {
        Some(ConfReason::NoValue)
    }
}

// Whether an option takes no value.
#[tactic(auto, unfolding(lilo_model::specs::ConfJudge::takes_nothing))]
fn takes_nothing(option: Opt) -> bool
    ensures { result ≡ model.takes_nothing (takes_of (opt_view option)) }
{
    matches!(option.takes(), Takes::Nothing)
}

// What is wrong with the value of an option, the disk of its group being this one.
#[tactic(auto, unfolding(lilo_model::specs::ConfJudge::text_reason))]
fn text_reason(option: Opt, disk: u8, text: &[u8]) -> Option<ConfReason>
    ensures { option_map reason_view result ≡ option_map Some (model.text_reason (opt_view option) disk text.now) }
{
    if !is_value(option.takes(), disk, text) {
        Some(ConfReason::BadValue)
    } else if option.is_of_name() && text.len() > NAME_LIMIT {
        Some(ConfReason::NameTooLong)
    } else {
        None
    }
}
