// Partitions in arguments.
ghost use Rattle.std.specs.Prelude.{◌≡◌, ◌≤◌, length, drop, map, option_map};
ghost use Rattle.ldisk_model.specs.Arguments.{halves_of, part_of, part_at, parts_at};
ghost use Rattle.ldisk_words.specs.View.{part_view, halves_view};

use crate::number::{decimal_between, type_in};
use arrayvec::ArrayVec;
use stream_trait::Words;

/// A partition that is asked for.
#[derive(Clone, Copy, Debug, Default, PartialEq, Eq)]
pub struct PartWish {
    /// The first sector.
    pub start: u32,
    /// How many sectors there are.
    pub count: u32,
    /// The type.
    pub kind: u8,
}

/// The partitions that the arguments from the fourth on are.
pub(crate) fn parts_in(words: &Words) -> Option<ArrayVec<PartWish, 4>>
    requires three { 3 ≤ length words.now }
    requires few { length words.now ≤ 7 }
    ensures { option_map (λ parts. map part_view parts.items) result ≡ parts_at (drop 3 words.now) }
{
    let mut parts = ArrayVec::new();
    for at in 3..words.count() {
        parts.push(part_in(words.word(at))?);
    }
    Some(parts)
}

/// START:COUNT:TYPE.
#[tactic(auto, unfolding(ldisk_model::specs::Arguments::part_at))]
fn part_in(word: &str) -> Option<PartWish>
    ensures { option_map part_view result ≡ part_at word.now }
{
    let (start, rest) = halves_of(word)?;
    let (count, kind) = halves_of(rest)?;
    part_of(start, count, kind)
}

/// A text up to its first colon, and what comes after that.
fn halves_of(word: &str) -> Option<(&str, &str)>
    ensures { option_map halves_view result ≡ halves_of word.now }
{
    word.split_once(':')
}

/// A partition from its three texts.
#[tactic(auto, unfolding(ldisk_model::specs::Arguments::part_of))]
fn part_of(start: &str, count: &str, kind: &str) -> Option<PartWish>
    ensures { option_map part_view result ≡ part_of start.now count.now kind.now }
{
    let start = decimal_between(0, u32::MAX, start);
    let count = decimal_between(0, u32::MAX, count);
    let kind = type_in(kind.as_bytes());
    match (start, count, kind) {
        (Some(start), Some(count), Some(kind)) => Some(PartWish { start, count, kind }),
        _ => None,
    }
}
