// Settings cut at those that open sections.
ghost use Rattle.std.specs.Prelude.{◌≡◌, ◌+◌, ◌<◌, ◌≤◌, length, drop, not, [], IfOk};
ghost use Rattle.std.specs.List.{prefix_len};
ghost use Rattle.lilo_model.specs.Conf as model;
ghost use Rattle.lilo_model.specs.ConfOptions.{opens};
ghost use Rattle.conf_settings.specs.View.{opt_view, settings_view};
ghost use Rattle.conf_judge.specs.View.{lists_view, parts_view};

use conf_settings::Setting;
use std::alloc::{AllocError, Global};

/// The settings of each part.
#[derive(Drop)]
pub struct Parts<'a> {
    /// Those before all sections.
    pub front: &'a [Setting],
    /// Those of each section, of which the first opens it.
    pub sections: Vec<&'a [Setting]>,
}

/// The parts of settings.
///
/// # Errors
///
/// There is no memory for them.
pub fn parts_of(alloc: Global, settings: &[Setting]) -> Result<Parts<'_>, AllocError>
    ensures { IfOk result (λ parts. parts_view parts ≡ model.parts_of (settings_view settings.now)) }
{
    let count = front_length(settings);
    let sections = sections_of(alloc, &settings[count..])?;
    Ok(Parts {
        front: &settings[..count],
        sections,
    })
}

// The sections of settings, of which the first opens one.
fn sections_of(alloc: Global, settings: &[Setting]) -> Result<Vec<&[Setting]>, AllocError>
    requires { (model.parts_of (settings_view settings.now)).front ≡ [] }
    ensures { IfOk result (λ sections.
        lists_view sections.items ≡ (model.parts_of (settings_view settings.now)).sections) }
{
    let mut sections = Vec::new(alloc);
    let mut at = 0;
    while at < settings.len() {
        let count = section_length(&settings[at..]);
        sections.push(&settings[at..at + count])?;
        at += count;
    }
    Ok(sections)
}

// How many settings the first section of some has.
fn section_length(settings: &[Setting]) -> usize
    requires { 0 < length settings.now }
    ensures value { result ≡ 1 + prefix_len (λ setting. not (opens (opt_view setting.option))) (drop 1 settings.now) }
    ensures some { 0 < result }
    ensures within { result ≤ length settings.now }
{
    1 + front_length(&settings[1..])
}

// How many settings come before all that open sections.
fn front_length(settings: &[Setting]) -> usize
    ensures value { result ≡ prefix_len (λ setting. not (opens (opt_view setting.option))) settings.now }
    ensures within { result ≤ length settings.now }
{
    settings
        .iter()
        .take_while(|setting| !setting.option.opens())
        .count()
}
