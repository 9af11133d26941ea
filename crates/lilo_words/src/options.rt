// The options of a part, and its command.
ghost use Rattle.std.specs.Prelude.{◌≡◌, ◌≤◌, ◌<◌, length, slice_range, IfOk, IfSome, IfNone};
ghost use Rattle.lilo_model.specs.Checks.{seen};
ghost use Rattle.lilo_model.specs.Words.{bare_part, is_path, path_from, part_from};
ghost use Rattle.lilo_words.specs.View.{part_view, bare_view};
ghost use Rattle.lilo_words.specs.Options.{IsNewOption, IsNoNewOption};

use crate::command::{command_in, device_in};
use crate::part::{Command, Part};
use stream_trait::Words;

/// The part from one place to before another. An error is the place of the first argument that isn't allowed
/// there, which may be the place after the last.
pub fn part_in(words: &Words, from: usize, end: usize) -> Result<Part<'_>, usize>
    requires from { from ≤ end }
    requires end { end ≤ length words.now }
    ensures { seen (part_view words.now) (λ place. place) result
        ≡ part_from from bare_part (slice_range words.now from end) }
{
    let mut part = Part {
        config: None,
        root: None,
        verbose: false,
        command: Command::Install,
    };
    let mut at = from;
    while at < end {
        match new_option(&part, words.word(at)) {
            Some(PartOption::Config) => {
                part.config = Some(path_in(words, at + 1, end)?);
                at += 2;
            }
            Some(PartOption::Root) => {
                part.root = Some(device_in(words, at + 1, end)?);
                at += 2;
            }
            Some(PartOption::Verbose) => {
                part.verbose = true;
                at += 1;
            }
            None => break,
        }
    }
    part.command = command_in(words, at, end)?;
    Ok(part)
}

// An option of a part.
#[derive(Clone, Copy, Debug, PartialEq, Eq)]
enum PartOption {
    Config,
    Root,
    Verbose,
}

// The option that an argument is, where the part doesn't have it yet.
fn new_option(part: &Part<'_>, word: &str) -> Option<PartOption>
    ensures some { IfSome result (λ option. IsNewOption option (bare_view part.now) word.now) }
    ensures none { IfNone result (IsNoNewOption (bare_view part.now) word.now) }
{
    match word {
        "-C" if part.config.is_none() => Some(PartOption::Config),
        "--root" if part.root.is_none() => Some(PartOption::Root),
        "-v" if !part.verbose => Some(PartOption::Verbose),
        _ => None,
    }
}

// The path at a place before `end`.
fn path_in(words: &Words, at: usize, end: usize) -> Result<&str, usize>
    requires at { at ≤ end }
    requires end { end ≤ length words.now }
    ensures path { seen (λ path. path.now) (λ place. place) result ≡ path_from at (slice_range words.now at end) }
    ensures before { IfOk result (λ path. at < end) }
{
    if at == end {
        return Err(at);
    }
    let word = words.word(at);
    if is_path(word) { Ok(word) } else { Err(at) }
}

// Whether an argument is a path.
fn is_path(word: &str) -> bool
    ensures { result ≡ is_path word.now }
{
    matches!(word.as_bytes(), [b'/', ..])
}
