// The words of a line, one after another.
ghost use Rattle.std.specs.Prelude.{◌≡◌, ◌≢◌, ◌≤◌, ◌<◌, ◌+◌, [], length};
ghost use Rattle.std.specs.Str.{bytes_eq};
ghost use Rattle.lilo_model.specs.LineWords.{words_of, is_lock_word, is_vga_word, word_video_mode};
ghost use Rattle.prompt_core.specs.Reader.{spaces, word_length, onto_words, BeginsSpaced, gather, gather_all, named};
ghost use Rattle.prompt_core.specs.GatheredView.{gathered_view};

use crate::text::{copy_of, with_word};
use arrayvec::ArrayVec;
use text_numbers::video_mode;

// A word, and the text after it.
#[derive(Clone, Copy)]
pub(crate) struct Word<'t> {
    pub(crate) word: &'t [u8],
    pub(crate) rest: &'t [u8],
}

// What words come to.
#[derive(Drop)]
pub(crate) struct Gathered {
    // those to pass on
    pub(crate) words: ArrayVec<u8, 470>,
    // the name and those but `lock`
    pub(crate) lock_line: ArrayVec<u8, 470>,
    pub(crate) lock: bool,
    pub(crate) vga: Option<u16>,
}

// How many spaces a text begins with.
fn spaces(text: &[u8]) -> usize
    ensures value { result ≡ spaces text.now }
    ensures within { result ≤ length text.now }
{
    text.iter().take_while(|byte| **byte == b' ').count()
}

// How many bytes come before its first space.
fn word_length(text: &[u8]) -> usize
    ensures value { result ≡ word_length text.now }
    ensures within { result ≤ length text.now }
{
    text.iter().take_while(|byte| **byte != b' ').count()
}

// The first word of a text, of no bytes where there is none.
pub(crate) fn first_word(text: &[u8]) -> Word<'_>
    ensures words { words_of text.now ≡ onto_words result.word.now (words_of result.rest.now) }
    ensures within { length result.word.now + length result.rest.now ≤ length text.now }
    ensures shorter { BeginsSpaced text.now → result.word.now ≢ []
        → length result.word.now + length result.rest.now < length text.now }
    ensures spaced { BeginsSpaced result.rest.now }
{
    let (_, text) = text.split_at(spaces(text));
    let (word, rest) = text.split_at(word_length(text));
    Word { word, rest }
}

fn is_lock(word: &[u8]) -> bool
    ensures { result ≡ is_lock_word word.now }
{
    word == b"lock".as_slice()
}

fn is_vga(word: &[u8]) -> bool
    ensures { result ≡ is_vga_word word.now }
{
    word.starts_with(b"vga=")
}

// The video mode that a word gives.
fn word_mode(word: &[u8]) -> Option<u16>
    ensures { result ≡ word_video_mode word.now }
{
    if is_vga(word) {
        video_mode(&word[4..])
    } else {
        None
    }
}

// What words come to with one more.
fn gather(gathered: Gathered, word: &[u8]) -> Gathered
    requires words { length gathered.words.items + length word.now < 470 }
    requires lock_line { length gathered.lock_line.items + length word.now < 470 }
    ensures { gathered_view result ≡ gather (gathered_view gathered) word.now }
{
    let Gathered {
        words,
        lock_line,
        lock,
        vga,
    } = gathered;
    if is_lock(word) {
        Gathered {
            words,
            lock_line,
            lock: true,
            vga,
        }
    } else if is_vga(word) {
        Gathered {
            words,
            lock_line: with_word(lock_line, word),
            lock,
            vga: word_mode(word).or(vga),
        }
    } else {
        Gathered {
            words: with_word(words, word),
            lock_line: with_word(lock_line, word),
            lock,
            vga,
        }
    }
}

// What the words of a text come to, after a name.
pub(crate) fn gather_words(name: &[u8], text: &[u8]) -> Gathered
    requires fits { length name.now + length text.now ≤ 470 }
    requires spaced { BeginsSpaced text.now }
    ensures { gathered_view result ≡ gather_all (named name.now) (words_of text.now) }
{
    let mut gathered = Gathered {
        words: ArrayVec::new(),
        lock_line: copy_of(name),
        lock: false,
        vga: None,
    };
    let mut rest = text;
    loop {
        let next = first_word(rest);
        if next.word.is_empty() {
            return gathered;
        }
        gathered = gather(gathered, next.word);
        rest = next.rest;
    }
}
