// The configuration of a text.
ghost use Rattle.std.specs.Prelude.{◌≡◌, ◌<◌, length, min, Some, Err, IfOk};
ghost use Rattle.lilo_model.specs.Conf.{conf_at, conf_limit, whole_of};
ghost use Rattle.lilo_model.specs.ConfLawful.{IsLawful};
ghost use Rattle.lilo_model.specs.ConfSettings.{Settings};
ghost use Rattle.conf_settings.specs.View.{IsCut};
ghost use Rattle.conf_judge.specs.View.{parts_view};
ghost use Rattle.lilo_conf.specs.Gives.{Gives, too_long, config_from};
ghost use Rattle.lilo_conf.specs.View.{config_view};

use crate::config::Config;
use crate::tell_config::config_of;
use conf_judge::{
    Parts, default_refusal, names_refusal, parts_of, sections_refusal, settings_refusal,
};
use conf_laws::every_config_is_lawful;
use conf_settings::{ConfFault, ConfReason, Cut, Opt, read_settings};
use std::alloc::Global;

// The most bytes of a configuration.
const TEXT_LIMIT: usize = 65_536;

/// What a text says.
///
/// # Errors
///
/// The first thing that refuses it, or `Memory` where there is no memory for what it says.
pub fn parse(alloc: Global, text: &[u8]) -> Result<Config, ConfFault>
    ensures gives { Gives result (conf_at text.now) }
    ensures lawful { IfOk result (λ config. IsLawful (config_view config)) }
    ensures long { conf_limit < length text.now → result ≡ Err (too_long (length text.now)) }
{
    every_config_is_lawful();
    if text.len() > TEXT_LIMIT {
        return Err(too_long(text.len()));
    }
    let cut = read_settings(alloc, text)?;
    read_config(alloc, &cut)
}

// The configuration of settings.
fn read_config(alloc: Global, cut: &Cut) -> Result<Config, ConfFault>
    ensures { (settings : Settings) → IsCut cut.now settings → Gives result (config_from settings) }
{
    let settings = cut.settings.items();
    if let Some(fault) = settings_refusal(settings) {
        return Err(fault);
    }
    if let Some(fault) = cut.refusal {
        return Err(fault);
    }
    let parts = parts_of(alloc, settings)?;
    whole_of(alloc, &parts)
}

// The configuration of parts, once none of their settings is refused where it is.
#[tactic(auto, unfolding(lilo_model::specs::Conf::whole_of))]
fn whole_of(alloc: Global, parts: &Parts<'_>) -> Result<Config, ConfFault>
    ensures { Gives result (whole_of (parts_view parts.now)) }
{
    let sections = parts.sections.as_slice();
    if let Some(fault) = sections_refusal(parts.front, sections) {
        return Err(fault);
    }
    if let Some(fault) = names_refusal(sections) {
        return Err(fault);
    }
    if let Some(fault) = default_refusal(parts.front, sections) {
        return Err(fault);
    }
    Ok(config_of(alloc, parts)?)
}

// The refusal of a text with too many bytes.
fn too_long(size: usize) -> ConfFault
    ensures { result ≡ too_long size }
{
    ConfFault {
        reason: ConfReason::TooLong(size.min(0xFFFF_FFFF) as u32),
        option: Opt::Other,
        line: 0,
    }
}
