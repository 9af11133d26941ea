// Where the message and the names go in a text.
ghost use Rattle.std.specs.Prelude.{◌≡◌, ◌≤◌, ◌++◌, List, [], drop, if◌then◌else◌, length, take};
ghost use Rattle.lilo_model.specs.Prompt.{Key, ListedEntry};
ghost use Rattle.prompt_core.specs.Run.{begins_prompt, first_prompt, last_prompt};
ghost use Rattle.prompt_core.specs.Run.{listed, parts_marks, said_marks, with_names};
ghost use Rattle.prompt_core.specs.View.{said_of};

use crate::reply::{Answer, Reply};

/// A text to show, cut where its caller puts the message and the names.
#[derive(Clone, Copy, Debug)]
pub struct Parts<'t> {
    /// What comes before the message; the message is shown after it where the prompt opens.
    pub before: &'t [u8],
    /// What comes before the names; they are shown after it where the answer is `List`.
    pub middle: &'t [u8],
    pub rest: &'t [u8],
}

impl Reply {
    /// The text to show, cut where the message and the names go.
    pub fn parts(&self) -> Parts<'_>
        ensures { (entries : List ListedEntry) (left : List Key) → said_marks entries left (said_of self.now)
            ≡ parts_marks entries left (said_of self.now) result.before.now result.middle.now result.rest.now }
    {
        let (before, text) = message_cut(self.opened, self.show.as_slice());
        let (middle, rest) = names_cut(self.answer, text);
        Parts {
            before,
            middle,
            rest,
        }
    }
}

// A text, cut directly before its first prompt where the prompt opens, or else before all of it.
fn message_cut(opened: bool, text: &[u8]) -> (&[u8], &[u8])
    ensures before { result.0.now ≡ (if opened then take (first_prompt text.now) text.now else []) }
    ensures behind { result.1.now ≡ (if opened then drop (first_prompt text.now) text.now else text.now) }
{
    if opened {
        text.split_at(first_prompt(text))
    } else {
        (&[], text)
    }
}

// A text, cut directly before its last prompt where the names are listed, or else after all of it.
fn names_cut(answer: Answer, text: &[u8]) -> (&[u8], &[u8])
    ensures { (entries : List ListedEntry)
        → with_names entries answer text.now ≡ result.0.now ++ (listed entries answer ++ result.1.now) }
{
    match answer {
        Answer::List => text.split_at(last_prompt(text)),
        _ => (text, &[]),
    }
}

// Whether a text begins with the prompt.
fn begins_prompt(text: &[u8]) -> bool
    ensures { result ≡ begins_prompt text.now }
{
    text.starts_with(b"boot: ")
}

// Where the first prompt in a text begins, or the text's end.
fn first_prompt(text: &[u8]) -> usize
    ensures value { result ≡ first_prompt text.now }
    ensures within { result ≤ length text.now }
{
    for place in 0..text.len() {
        if begins_prompt(&text[place..]) {
            return place;
        }
    }
    text.len()
}

// Where the last prompt in a text begins, or the text's end.
fn last_prompt(text: &[u8]) -> usize
    ensures value { result ≡ last_prompt text.now }
    ensures within { result ≤ length text.now }
{
    let mut found = text.len();
    for place in 0..text.len() {
        if begins_prompt(&text[place..]) {
            found = place;
        }
    }
    found
}
