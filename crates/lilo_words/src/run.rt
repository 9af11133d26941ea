// A whole run: parts with a `--then` between each two.
ghost use Rattle.std.specs.Prelude.{◌≡◌, ◌≤◌, ◌<◌, ◌+◌, ◌∷◌, length, drop};
ghost use Rattle.std.specs.Prelude.{Ok, Err, IsOk, OnOk, IfErr, IfSome, MatchResult};
ghost use Rattle.std.specs.List.{position_or_len};
ghost use Rattle.lilo_model.specs.Words.{is_then, place_in, run_at};
ghost use Rattle.lilo_words.specs.View.{part_view};
ghost use Rattle.lilo_words.specs.Wrong.{wrong_view, IsPlaceIn};
ghost use Rattle.lilo_words.specs.Run.{run_behind, parts_behind, parts_of_next, IsPartAt};

use crate::options::part_in;
use crate::part::{Part, Wrong};
use stream_trait::Words;

/// A part of a run, and the place where the next one begins, if there is one.
#[derive(Clone, Copy, Debug, PartialEq, Eq)]
pub struct PartAt<'w> {
    pub part: Part<'w>,
    pub next: Option<usize>,
}

/// Whether arguments are a run.
///
/// # Errors
///
/// They are none. The error is the first argument that isn't allowed where it is, or the end.
pub fn check(words: &Words) -> Result<(), Wrong>
    ensures run { OnOk result (run_at words.now ≡ Ok (parts_behind words.now 0)) }
    ensures begins { OnOk result (IsOk (run_behind words.now 0)) }
    ensures wrong { IfErr result (λ wrong. run_at words.now ≡ Err (wrong_view wrong)) }
    ensures place { IfErr result (IsPlaceIn words.now) }
{
    let mut from = 0;
    loop {
        match read_part(words, from) {
            Ok(read) => match read.next {
                Some(next) => from = next,
                None => return Ok(()),
            },
            Err(place) => return Err(wrong_at(words, place)),
        }
    }
}

/// The part that begins at a place of a run: the first one at 0, and each later one where the one before it says.
pub fn part_at(words: &Words, from: usize) -> PartAt<'_>
    requires place { from ≤ length words.now }
    requires run { IsOk (run_behind words.now from) }
    ensures part { parts_behind words.now from ≡ part_view words.now result.part ∷ parts_of_next words.now result.next }
    ensures next { IfSome result.next (λ next. (from < next) × (next ≤ length words.now)) }
    ensures run { IfSome result.next (λ next. IsOk (run_behind words.now next)) }
{
    match read_part(words, from) {
        Ok(read) => read,
        Err(_) => unreachable!(),
    }
}

// The part that begins at a place, or the place of the first argument that isn't allowed where it is.
fn read_part(words: &Words, from: usize) -> Result<PartAt<'_>, usize>
    requires { from ≤ length words.now }
    ensures { MatchResult result (λ read. IsPartAt words.now from (part_view words.now read.part) read.next)
        (λ place. run_behind words.now from ≡ Err place) }
{
    let end = part_end(words, from);
    match part_in(words, from, end) {
        Ok(part) => Ok(PartAt {
            part,
            next: if end < words.count() {
                Some(end + 1)
            } else {
                None
            },
        }),
        Err(place) => Err(place),
    }
}

// The place of the `--then` after a part, or of the end.
fn part_end(words: &Words, from: usize) -> usize
    requires { from ≤ length words.now }
    ensures end { result ≡ from + position_or_len is_then (drop from words.now) }
    ensures within { result ≤ length words.now }
{
    for place in from..words.count() {
        if words.word(place) == "--then" {
            return place;
        }
    }
    words.count()
}

// The argument at a place, or the end.
fn wrong_at(words: &Words, place: usize) -> Wrong
    ensures wrong { wrong_view result ≡ place_in words.now place }
    ensures place { IsPlaceIn words.now result }
{
    if place < words.count() {
        Wrong::Word(place)
    } else {
        Wrong::End
    }
}
