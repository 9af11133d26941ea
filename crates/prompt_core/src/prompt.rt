// A prompt.
ghost use Rattle.std.specs.Prelude.{◌≡◌, ◌≤◌, length};
ghost use Rattle.std.specs.Option.{option_map};
ghost use Rattle.lilo_model.specs.DefaultLine.{line_text};
ghost use Rattle.boot_map.specs.View.{line_view};
ghost use Rattle.prompt_core.specs.Steps.{Over, key_step, lock_line_in, start_step, words_in};
ghost use Rattle.prompt_core.specs.Run.{chosen_in, is_done};
ghost use Rattle.prompt_core.specs.View.{entries_view, said_of, setup_of};

use crate::entry::{Choice, Settings};
use crate::reply::{Picked, Reply};
use crate::state::State;
use crate::step;
use crate::text::copy_of;
use arrayvec::ArrayVec;
use bios_model::Key;
use boot_map::DefaultLine;
use std::marker::Model;
use std::mem;

/// A prompt, given one key at a time.
#[derive(Drop)]
pub struct Prompt {
    settings: Settings,
    choices: ArrayVec<Choice, 48>,
    // the text of the default line
    line: ArrayVec<u8, 470>,
    state: State,
}

impl Model for Prompt {
    ghost use Rattle.std.specs.Prelude.{◌≤◌};
    ghost use Rattle.prompt_core.specs.Asked.{Asked};

    ghost Value = { Asked };

    ghost use Rattle.prompt_core.specs.View.{setup_of, state_view};

    ghost view = { λ prompt. record {
      setup = setup_of prompt.settings prompt.choices.items prompt.line.items;
      state = state_view prompt.state;
    } };

    ghost invariant = { λ prompt. prompt.settings.capacity ≤ 470 };
}

impl Prompt {
    /// A prompt that is not yet shown.
    pub fn new(settings: Settings, choices: ArrayVec<Choice, 48>, line: &DefaultLine) -> Prompt
        requires { settings.capacity ≤ 470 }
        ensures setup { result.setup ≡ setup_of settings choices.items (line_text (line_view line.now)) }
        ensures state { result.state ≡ Over }
    {
        Prompt {
            settings,
            choices,
            line: text_of(line),
            state: State::Over,
        }
    }

    /// Begins: shows the prompt, waits, or chooses at once.
    pub fn start(&mut self) -> Reply
        ensures said { said_of result ≡ (start_step self.old.setup).said }
        ensures state { self.new.state ≡ (start_step self.old.setup).state }
        ensures setup { self.new.setup ≡ self.old.setup }
    {
        let step = step::start_step(
            &self.settings,
            self.choices.as_slice(),
            self.line.as_slice(),
        );
        self.state = step.state;
        step.reply
    }

    /// Goes on with a key.
    pub fn feed(&mut self, key: Key) -> Reply
        ensures said { said_of result ≡ (key_step self.old.setup self.old.state key).said }
        ensures state { self.new.state ≡ (key_step self.old.setup self.old.state key).state }
        ensures setup { self.new.setup ≡ self.old.setup }
    {
        let state = mem::replace(&mut self.state, State::Over);
        let step = step::key_step(
            &self.settings,
            self.choices.as_slice(),
            self.line.as_slice(),
            state,
            key,
        );
        self.state = step.state;
        step.reply
    }

    /// The entries that are chosen from.
    pub fn choices(&self) -> &[Choice]
        ensures entries { entries_view result.now ≡ self.now.setup.entries }
    {
        self.choices.as_slice()
    }

    /// Whether no key is waited for.
    pub fn is_done(&self) -> bool
        ensures { result ≡ is_done self.now.state }
    {
        match &self.state {
            State::Decided(_) | State::Over => true,
            _ => false,
        }
    }

    /// What was chosen, if anything.
    pub fn picked(&self) -> Option<Picked>
        ensures { result ≡ option_map (λ chosen. chosen.picked) (chosen_in self.now.state) }
    {
        match &self.state {
            State::Decided(chosen) => Some(chosen.picked),
            _ => None,
        }
    }

    /// The words to pass on, joined by single spaces, once an entry is chosen.
    pub fn words(&self) -> &[u8]
        ensures words { result.now ≡ words_in self.now.state }
        ensures limit { length result.now ≤ 470 }
    {
        match &self.state {
            State::Decided(chosen) => chosen.words.as_slice(),
            _ => &[],
        }
    }

    /// The entry's name and the words but `lock`, joined by single spaces, once it is chosen.
    pub fn lock_line(&self) -> &[u8]
        ensures line { result.now ≡ lock_line_in self.now.state }
        ensures limit { length result.now ≤ 470 }
    {
        match &self.state {
            State::Decided(chosen) => chosen.lock_line.as_slice(),
            _ => &[],
        }
    }
}

// The text of a default line.
fn text_of(line: &DefaultLine) -> ArrayVec<u8, 470>
    ensures { result.items ≡ line_text (line_view line.now) }
{
    match line {
        DefaultLine::Empty => ArrayVec::new(),
        DefaultLine::Once(text) | DefaultLine::Kept(text) => copy_of(text.as_slice()),
    }
}
