// What the values of options mean.
ghost use Rattle.std.specs.Prelude.{◌≡◌, ◌≤◌, ◌==◌, not, length};
ghost use Rattle.std.specs.List.{list_all};
ghost use Rattle.lilo_model.specs.Bytes.{is_between};
ghost use Rattle.lilo_model.specs.ConfValues as model;
ghost use Rattle.conf_settings.specs.View.{takes_view};

use crate::option::Takes;
use mbr_table::{device_of, number_of};
use text_numbers::{number_between, video_mode};

/// Whether a text is a path: it begins with a slash and has no zero byte.
#[tactic(auto, unfolding(lilo_model::specs::ConfValues::is_path))]
pub fn is_path(text: &[u8]) -> bool
    ensures { result ≡ model.is_path text.now }
{
    text.starts_with(b"/") && has_no_zero(text)
}

fn has_no_zero(text: &[u8]) -> bool
    ensures { result ≡ list_all (λ byte. not (byte == 0)) text.now }
{
    text.iter().all(|byte| *byte != 0)
}

/// Whether a text is a name: it has bytes, all of 0x21 to 0x7E.
#[tactic(auto, unfolding(lilo_model::specs::ConfValues::is_name))]
pub fn is_name(text: &[u8]) -> bool
    ensures { result ≡ model.is_name text.now }
{
    !text.is_empty() && are_between(0x21, 0x7E, text)
}

/// Whether a text may be on a command line: its bytes are from 0x20, without 0x7F.
#[tactic(auto, unfolding(lilo_model::specs::ConfValues::is_text))]
pub(crate) fn is_text(text: &[u8]) -> bool
    ensures { result ≡ model.is_text text.now }
{
    text.iter().all(|byte| 0x20 <= *byte && *byte != 0x7F)
}

/// Whether a text can be typed at the prompt, and has a byte and at most so many.
#[tactic(auto, unfolding(lilo_model::specs::ConfValues::is_shown))]
pub(crate) fn is_shown(most: u8, text: &[u8]) -> bool
    ensures { result ≡ model.is_shown most text.now }
{
    1 <= text.len() && text.len() <= usize::from(most) && are_between(0x20, 0x7E, text)
}

// Whether bytes are from one to another.
fn are_between(low: u8, high: u8, text: &[u8]) -> bool
    ensures { result ≡ list_all (is_between low high) text.now }
{
    text.iter().all(|byte| low <= *byte && *byte <= high)
}

/// The disk that a text names as a whole.
#[tactic(auto, unfolding(lilo_model::specs::ConfValues::whole_disk_at))]
pub fn whole_disk_at(text: &[u8]) -> Option<u8>
    ensures { result ≡ model.whole_disk_at text.now }
{
    match device_of(text) {
        Ok(device) if device.partition == 0 => Some(device.disk),
        _ => None,
    }
}

/// The number of a device that a text names, or writes in hexadecimal.
#[tactic(auto, unfolding(lilo_model::specs::ConfValues::root_at))]
pub fn root_at(text: &[u8]) -> Option<u16>
    ensures { result ≡ model.root_at text.now }
{
    match device_of(text) {
        Ok(device) => Some(number_of(device)),
        Err(_) if text.starts_with(b"0x") => number_between(0, 65535, text),
        Err(_) => None,
    }
}

/// Whether a text is a value of what an option takes, the disk of its group being this one.
#[tactic(auto, unfolding(lilo_model::specs::ConfValues::is_value))]
pub fn is_value(takes: Takes, disk: u8, text: &[u8]) -> bool
    ensures { result ≡ model.is_value (takes_view takes) disk text.now }
{
    match takes {
        Takes::Device => device_of(text).is_ok(),
        Takes::WholeDisk => whole_disk_at(text).is_some(),
        Takes::Path => is_path(text),
        Takes::Name => is_name(text),
        Takes::Number { low, high } => number_between(low, high, text).is_some(),
        Takes::Bios => {
            let number = 128 + u16::from(disk);
            number_between(number, number, text).is_some()
        }
        Takes::Root => root_at(text).is_some(),
        Takes::Text => is_text(text),
        Takes::Video => video_mode(text).is_some(),
        Takes::Shown(most) => is_shown(most, text),
        Takes::Nothing | Takes::LeftOut | Takes::Unknown => false,
    }
}

/// The part of a path after its last slash, or all where it has none.
#[tactic(auto, unfolding(lilo_model::specs::ConfValues::last_part))]
pub fn last_part(path: &[u8]) -> &[u8]
    ensures { result.now ≡ model.last_part path.now }
{
    &path[path.len() - last_length(path)..]
}

// How many bytes of a path come after its last slash, all where it has none.
#[tactic(auto, unfolding(lilo_model::specs::ConfValues::last_length))]
fn last_length(path: &[u8]) -> usize
    ensures value { result ≡ model.last_length path.now }
    ensures within { result ≤ length path.now }
{
    path.iter().rev().take_while(|byte| **byte != b'/').count()
}
