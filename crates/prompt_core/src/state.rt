// Where a prompt is between two keys.
ghost use Rattle.std.specs.Prelude.{◌<◌};

use crate::reply::{Picked, Reply};
use arrayvec::ArrayVec;

// What is chosen, with its words.
#[derive(Drop)]
pub(crate) struct Chosen {
    pub(crate) picked: Picked,
    // the words to pass on, with single spaces between them
    pub(crate) words: ArrayVec<u8, 470>,
    // the name and the words but `lock`
    pub(crate) lock_line: ArrayVec<u8, 470>,
}

// A password that is asked.
#[derive(Drop)]
pub(crate) struct Question {
    // what the password gives
    pub(crate) chosen: Chosen,
    pub(crate) password: ArrayVec<u8, 31>,
    // the answer so far, or none once it was too long
    pub(crate) answer: Option<ArrayVec<u8, 31>>,
    // the ticks since the last byte
    pub(crate) quiet: u16,
    // whether the prompt was shown before
    pub(crate) opened: bool,
    ghost waits: { quiet < 600 },
}

#[derive(Drop)]
pub(crate) enum State {
    // so many ticks are waited for before the automatic choice
    Delaying(u16),
    // so many ticks are waited for at the open prompt
    Timing(u16),
    // a line is typed: its text, and whether its first key is still to come
    Typing(ArrayVec<u8, 470>, bool),
    // a password is asked
    Asking(Question),
    // this was chosen
    Decided(Chosen),
    // nothing is chosen, and no key is waited for
    Over,
}

// Where a prompt is after a key, and what it answers.
#[derive(Drop)]
pub(crate) struct Step {
    pub(crate) state: State,
    pub(crate) reply: Reply,
}
