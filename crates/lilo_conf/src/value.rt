// What the values of options mean, and texts of their own.
ghost use Rattle.std.specs.Prelude.{◌≡◌, unwrap_or, codes, IfOk};
ghost use Rattle.std.specs.Option.{option_map, option_and_then, option_copied};
ghost use Rattle.lilo_model.specs.Conf as model;
ghost use Rattle.lilo_model.specs.ConfOptions as options;
ghost use Rattle.lilo_model.specs.Devices.{device_at};
ghost use Rattle.conf_settings.specs.View.{opt_view, settings_view};
ghost use Rattle.mbr_table.specs.View.{device_view};

use conf_judge::{effect_value, value_of};
use conf_settings::{Opt, Setting, number_between};
use conf_text::Text;
use mbr_table::{Device, device_of};
use std::alloc::{AllocError, Global};

/// A text of its own, where there is one.
pub(crate) fn owned(alloc: Global, text: Option<&[u8]>) -> Result<Option<Text>, AllocError>
    ensures { IfOk result (λ owned. owned ≡ option_copied text.entry) }
{
    match text {
        Some(text) => Ok(Some(Text::new(alloc, text)?)),
        None => Ok(None),
    }
}

/// The value of an option among settings.
pub(crate) fn own_text(
    alloc: Global,
    option: Opt,
    settings: &[Setting],
) -> Result<Option<Text>, AllocError>
    ensures { IfOk result (λ text. text ≡ model.value_of (opt_view option) (settings_view settings.now)) }
{
    owned(alloc, value_of(option, settings))
}

/// The value that is in effect in a section.
pub(crate) fn effect_text(
    alloc: Global,
    option: Opt,
    front: &[Setting],
    section: &[Setting],
) -> Result<Option<Text>, AllocError>
    ensures { IfOk result (λ text.
        text ≡ model.effect_value (opt_view option) (settings_view front.now) (settings_view section.now)) }
{
    owned(alloc, effect_value(option, front, section))
}

/// The number of an option among settings, which is at most so great.
#[tactic(auto, unfolding(lilo_model::specs::Conf::number_of))]
pub(crate) fn number_of(most: u16, option: Opt, settings: &[Setting]) -> Option<u16>
    ensures { result ≡ model.number_of most (opt_view option) (settings_view settings.now) }
{
    match value_of(option, settings) {
        Some(text) => number_between(0, most, text),
        None => None,
    }
}

/// The device that an option names.
pub(crate) fn device_from(option: Opt, settings: &[Setting]) -> Option<Device>
    ensures { option_map device_view result
        ≡ option_and_then device_at (model.value_of (opt_view option) (settings_view settings.now)) }
{
    match value_of(option, settings) {
        Some(text) => known_device(text),
        None => None,
    }
}

/// The device of a name.
pub(crate) fn known_device(name: &[u8]) -> Option<Device>
    ensures { option_map device_view result ≡ device_at name.now }
{
    match device_of(name) {
        Ok(device) => Some(device),
        Err(_) => None,
    }
}
