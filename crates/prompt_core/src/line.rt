// What a line chooses.
ghost use Rattle.std.specs.Prelude.{◌≡◌, ◌≤◌, ◌+◌, length, position};
ghost use Rattle.std.specs.Str.{bytes_eq};
ghost use Rattle.lilo_model.specs.LineWords.{meaning, words_of};
ghost use Rattle.prompt_core.specs.Reader.{BeginsSpaced, gather_all, gathered_choice, named};
ghost use Rattle.prompt_core.specs.Steps.{name_at, plain_choice, meant_of};
ghost use Rattle.prompt_core.specs.View.{entries_view, chosen_view, meant_view};

use crate::entry::Choice;
use crate::reply::Picked;
use crate::state::Chosen;
use crate::text::copy_of;
use crate::word::{first_word, gather_words};
use arrayvec::ArrayVec;

// What a line chooses.
#[derive(Drop)]
pub(crate) enum Meant {
    // it has no words
    Blank,
    // its first word is a name
    Means(Chosen),
    // its first word is no name
    Unknown,
}

// The place of the entry with a name.
fn entry_named(choices: &[Choice], name: &[u8]) -> Option<usize>
    ensures { result ≡ position (λ choice. bytes_eq choice.name.items name.now) choices.now }
{
    choices
        .iter()
        .position(|choice| choice.name.as_slice() == name)
}

// The name of the entry at a place, of no bytes where there is none.
fn name_at(choices: &[Choice], place: usize) -> &[u8]
    ensures name { result.now ≡ name_at (entries_view choices.now) place }
    ensures short { length result.now ≤ 15 }
{
    match choices.get(place) {
        Some(choice) => choice.name.as_slice(),
        None => &[],
    }
}

// An entry that is chosen without words.
pub(crate) fn plain_choice(choices: &[Choice], place: u16, automatic: bool) -> Chosen
    ensures { chosen_view result ≡ plain_choice (entries_view choices.now) place automatic }
{
    Chosen {
        picked: Picked {
            entry: place,
            automatic,
            lock: false,
            vga: None,
        },
        words: ArrayVec::new(),
        lock_line: copy_of(name_at(choices, usize::from(place))),
    }
}

// What a line chooses.
pub(crate) fn read_line(choices: &[Choice], automatic: bool, text: &[u8]) -> Meant
    requires few { length choices.now ≤ 48 }
    requires fits { length text.now ≤ 470 }
    ensures { let entries = entries_view choices.now in
        meant_view result ≡ meant_of entries automatic (meaning entries text.now) }
{
    let first = first_word(text);
    if first.word.is_empty() {
        return Meant::Blank;
    }
    match entry_named(choices, first.word) {
        None => Meant::Unknown,
        Some(place) => Meant::Means(named_choice(place as u16, automatic, first.word, first.rest)),
    }
}

// The entry at a place with a name, chosen with the words of a text.
fn named_choice(place: u16, automatic: bool, name: &[u8], text: &[u8]) -> Chosen
    requires fits { length name.now + length text.now ≤ 470 }
    requires spaced { BeginsSpaced text.now }
    ensures { chosen_view result ≡ gathered_choice place automatic (gather_all (named name.now) (words_of text.now)) }
{
    let gathered = gather_words(name, text);
    Chosen {
        picked: Picked {
            entry: place,
            automatic,
            lock: gathered.lock,
            vga: gathered.vga,
        },
        words: gathered.words,
        lock_line: gathered.lock_line,
    }
}
