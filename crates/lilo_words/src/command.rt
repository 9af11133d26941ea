// The command of a part. The arguments of a part are from one place to before another, and an error is the place of
// the first argument that isn't allowed there, which may be the place after the last.
ghost use Rattle.std.specs.Prelude.{◌≡◌, ◌≤◌, ◌<◌, ◌==◌, length, slice_range, Ok, Err, IfOk, if◌then◌else◌};
ghost use Rattle.std.specs.List.{list_all};
ghost use Rattle.lilo_model.specs.Bytes.{is_between};
ghost use Rattle.lilo_model.specs.Checks.{seen};
ghost use Rattle.lilo_model.specs.Words.{is_line_word, command_from, query_from, line_from, restore_from};
ghost use Rattle.lilo_model.specs.Words.{dump_from, boot_from, named_from};
ghost use Rattle.mbr_table.specs.View.{device_view};
ghost use Rattle.lilo_words.specs.View.{command_view};

use crate::part::Command;
use mbr_table::{Device, device_of};
use stream_trait::Words;

/// The command from `at` to before `end`.
pub fn command_in(words: &Words, at: usize, end: usize) -> Result<Command, usize>
    requires at { at ≤ end }
    requires end { end ≤ length words.now }
    ensures { seen (command_view words.now) (λ place. place) result ≡ command_from at (slice_range words.now at end) }
{
    if at == end {
        return Ok(Command::Install);
    }
    match words.word(at) {
        "-t" => ended(Command::Test, at + 1, end),
        "-q" => query_in(words, at + 1, end),
        "-R" => line_in(words, at + 1, end),
        "-u" => restore_in(words, at + 1, end),
        "boot" => boot_in(words, at + 1, end),
        _ => Err(at),
    }
}

// A command after which nothing may come.
fn ended(command: Command, at: usize, end: usize) -> Result<Command, usize>
    ensures { result ≡ (if at == end then Ok command else Err at) }
{
    if at == end { Ok(command) } else { Err(at) }
}

// What comes after `-q`.
fn query_in(words: &Words, at: usize, end: usize) -> Result<Command, usize>
    requires at { at ≤ end }
    requires end { end ≤ length words.now }
    ensures { seen (command_view words.now) (λ place. place) result ≡ query_from at (slice_range words.now at end) }
{
    if at == end {
        return Ok(Command::Query(None));
    }
    let device = device_in(words, at, end)?;
    ended(Command::Query(Some(device)), at + 1, end)
}

// What comes after `-R`.
fn line_in(words: &Words, at: usize, end: usize) -> Result<Command, usize>
    requires at { at ≤ end }
    requires end { end ≤ length words.now }
    ensures { seen (command_view words.now) (λ place. place) result ≡ line_from at (slice_range words.now at end) }
{
    for place in at..end {
        if !is_line_word(words.word(place)) {
            return Err(place);
        }
    }
    Ok(Command::SetLine { from: at, to: end })
}

// What comes after `-u`.
fn restore_in(words: &Words, at: usize, end: usize) -> Result<Command, usize>
    requires at { at ≤ end }
    requires end { end ≤ length words.now }
    ensures { seen (command_view words.now) (λ place. place) result ≡ restore_from at (slice_range words.now at end) }
{
    let device = device_in(words, at, end)?;
    ended(Command::Restore(device), at + 1, end)
}

// What comes after `boot`.
fn boot_in(words: &Words, at: usize, end: usize) -> Result<Command, usize>
    requires at { at ≤ end }
    requires end { end ≤ length words.now }
    ensures { seen (command_view words.now) (λ place. place) result ≡ boot_from at (slice_range words.now at end) }
{
    let device = device_in(words, at, end)?;
    dump_in(words, at + 1, end, device)
}

// What comes after `boot` and its device.
fn dump_in(words: &Words, at: usize, end: usize, device: Device) -> Result<Command, usize>
    requires at { at ≤ end }
    requires end { end ≤ length words.now }
    ensures { seen (command_view words.now) (λ place. place) result
        ≡ dump_from at (slice_range words.now at end) (device_view device) }
{
    if at == end {
        return Ok(Command::Boot {
            device,
            dump: false,
        });
    }
    if words.word(at) != "--dump" {
        return Err(at);
    }
    ended(Command::Boot { device, dump: true }, at + 1, end)
}

/// The device whose name is at a place before `end`.
pub fn device_in(words: &Words, at: usize, end: usize) -> Result<Device, usize>
    requires at { at ≤ end }
    requires end { end ≤ length words.now }
    ensures device { seen device_view (λ place. place) result ≡ named_from at (slice_range words.now at end) }
    ensures before { IfOk result (λ device. at < end) }
{
    if at == end {
        return Err(at);
    }
    match device_of(words.word(at).as_bytes()) {
        Ok(device) => Ok(device),
        Err(_) => Err(at),
    }
}

// Whether an argument may come after `-R`.
fn is_line_word(word: &str) -> bool
    ensures { result ≡ is_line_word word.now }
{
    !word.is_empty() && are_line_bytes(word.as_bytes())
}

fn are_line_bytes(bytes: &[u8]) -> bool
    ensures { result ≡ list_all (λ byte. is_between 0x20 0x7e byte) bytes.now }
{
    bytes.iter().all(is_line_byte)
}

fn is_line_byte(byte: &u8) -> bool
    ensures { result ≡ is_between 0x20 0x7e byte.now }
{
    matches!(byte, 0x20..=0x7e)
}
