//! The numbers that texts write, and the video modes that they name.
//!
//! That a number may be hexadecimal, and how far a mode goes, are this project's own; the names of modes follow
//! LILO's manners.
#![tactic(auto)]

ghost use Rattle.std.specs.Prelude.{◌≡◌, ℕ, ◌≤◌, min};
ghost use Rattle.std.specs.Option.{option_map};
ghost use Rattle.lilo_model.specs.VideoMode as model;
ghost use Rattle.lilo_model.specs.ConfValues as values;

// Numbers from here on are out of every range.
const TOO_LARGE: u32 = 65536;

/// The number that a text writes, in decimal or in hexadecimal after `0x`, where it is one of `low` to `high`.
#[tactic(auto, unfolding(lilo_model::specs::ConfValues::number_between))]
pub fn number_between(low: u16, high: u16, text: &[u8]) -> Option<u16>
    ensures { result ≡ values.number_between low high text.now }
{
    let number = written_number(text)?;
    if u32::from(low) <= number && number <= u32::from(high) {
        Some(number as u16)
    } else {
        None
    }
}

/// The video mode that a text names.
#[tactic(auto, using(crate::proofs::NumberLemmas::video_number))]
pub fn video_mode(text: &[u8]) -> Option<u16>
    ensures { result ≡ model.video_mode text.now }
{
    if text == b"normal".as_slice() {
        Some(0xFFFF)
    } else if text == b"ext".as_slice() || text == b"extended".as_slice() {
        Some(0xFFFE)
    } else if text == b"ask".as_slice() {
        Some(0xFFFD)
    } else {
        number_between(0, 65535, text)
    }
}

// The number that a text writes, or `TOO_LARGE` for a larger one.
fn written_number(text: &[u8]) -> Option<u32>
    ensures { result ≡ option_map (min 65536) (model.written_number text.now) }
{
    if text.starts_with(b"0x") {
        numeral_value(16, &text[2..])
    } else {
        numeral_value(10, text)
    }
}

// The number that one or more digits write, or `TOO_LARGE` for a larger one.
fn numeral_value(radix: u32, text: &[u8]) -> Option<u32>
    requires low { 2 ≤ radix }
    requires high { radix ≤ 16 }
    ensures { result ≡ option_map (min 65536) (model.numeral_value radix text.now) }
{
    if text.is_empty() {
        return None;
    }
    let mut number = 0;
    for digit in text {
        let digit = char::from(*digit).to_digit(radix)?;
        number = (number * radix + digit).min(TOO_LARGE);
    }
    Some(number)
}
