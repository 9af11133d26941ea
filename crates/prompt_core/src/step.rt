// How the prompt goes on.
ghost use Rattle.std.specs.Prelude.{◌≡◌, ◌≤◌, ◌++◌, [], false, length};
ghost use Rattle.std.specs.Option.{option_map};
ghost use Rattle.lilo_model.specs.LineEdits.{text_after_byte, echo_of, answer_after_byte};
ghost use Rattle.lilo_model.specs.LineWords.{meaning};
ghost use Rattle.lilo_model.specs.Choice.{is_right};
ghost use Rattle.prompt_core.specs.Steps as steps;
ghost use Rattle.prompt_core.specs.View.{entries_view, chosen_view, question_view, setup_of, state_view, step_view};

use crate::entry::{Choice, Settings};
use crate::line::{Meant, plain_choice, read_line};
use crate::reply::{Answer, Reply};
use crate::state::{Chosen, Question, State, Step};
use crate::text::{copy_of, with_bytes};
use arrayvec::ArrayVec;
use bios_model::Key;

/// How many ticks in a row end the wait for an answer.
const QUIET_TICKS: u16 = 600;

type Text = ArrayVec<u8, 64>;

// A step that doesn't open the prompt.
pub(crate) fn stepped(state: State, answer: Answer, show: Text) -> Step
    ensures { step_view result ≡ steps.stepped (state_view state) answer show.items }
{
    Step {
        state,
        reply: Reply {
            answer,
            show,
            opened: false,
        },
    }
}

// A step that opens the prompt.
pub(crate) fn opening(step: Step) -> Step
    ensures { step_view result ≡ steps.opening (step_view step) }
{
    let Step { state, reply } = step;
    Step {
        state,
        reply: Reply {
            answer: reply.answer,
            show: reply.show,
            opened: true,
        },
    }
}

// The password that is asked of what is chosen.
fn password_of(choices: &[Choice], chosen: &Chosen) -> Option<ArrayVec<u8, 31>>
    ensures { option_map (λ password. password.items) result
        ≡ steps.password_of (entries_view choices.now) (chosen_view chosen.now) }
{
    let choice = choices.get(usize::from(chosen.picked.entry))?;
    let typed = !chosen.picked.automatic && !chosen.words.is_empty();
    if choice.restricted && !typed {
        return None;
    }
    let password = choice.password.as_ref()?;
    Some(copy_of(password.as_slice()))
}

// A choice, after the question for its password where there is one.
fn choice_step(choices: &[Choice], before: Text, opened: bool, chosen: Chosen) -> Step
    requires { length before.items ≤ 40 }
    ensures { step_view result
        ≡ steps.choice_step (entries_view choices.now) before.items opened (chosen_view chosen) }
{
    match password_of(choices, &chosen) {
        None => {
            let answer = Answer::Chosen(chosen.picked);
            stepped(State::Decided(chosen), answer, before)
        }
        Some(password) => stepped(
            State::Asking(Question {
                chosen,
                password,
                answer: Some(ArrayVec::new()),
                quiet: 0,
                opened,
            }),
            Answer::AskPassword,
            with_bytes(before, b"Password: "),
        ),
    }
}

// A line begins.
pub(crate) fn begun_step(answer: Answer, before: Text) -> Step
    requires { length before.items ≤ 40 }
    ensures { step_view result ≡ steps.begun_step answer before.items }
{
    stepped(
        State::Typing(ArrayVec::new(), true),
        answer,
        with_bytes(before, b"boot: "),
    )
}

// The entry that is chosen without words.
fn default_step(
    settings: &Settings,
    choices: &[Choice],
    before: Text,
    opened: bool,
    automatic: bool,
) -> Step
    requires { length before.items ≤ 40 }
    ensures { step_view result ≡ steps.choice_step (entries_view choices.now) before.items opened
        (steps.plain_choice (entries_view choices.now) settings.now.default_entry automatic) }
{
    let chosen = plain_choice(choices, settings.default_entry, automatic);
    choice_step(choices, before, opened, chosen)
}

// A finished line.
fn finished_step(settings: &Settings, choices: &[Choice], before: Text, text: &[u8]) -> Step
    requires short { length before.items ≤ 10 }
    requires few { length choices.now ≤ 48 }
    requires fits { length text.now ≤ 470 }
    ensures { step_view result ≡ steps.meant_step (setup_of settings.now choices.now []) before.items
        (steps.meant_of (entries_view choices.now) false (meaning (entries_view choices.now) text.now)) }
{
    match read_line(choices, false, text) {
        Meant::Blank => default_step(settings, choices, before, true, false),
        Meant::Means(chosen) => choice_step(choices, before, true, chosen),
        Meant::Unknown => begun_step(Answer::NoSuch, with_bytes(before, b"No such image.\n")),
    }
}

// A byte that doesn't end a line.
fn edited_step(capacity: u16, before: Text, mut text: ArrayVec<u8, 470>, byte: u8) -> Step
    requires short { length before.items ≤ 10 }
    requires fits { capacity ≤ 470 }
    ensures { step_view result ≡ steps.stepped
        (steps.Typing (text_after_byte capacity text.items byte) false)
        Answer.More (before.items ++ echo_of capacity text.items byte) }
{
    let show = match byte {
        8 | 127 => match text.pop() {
            Some(_) => with_bytes(before, b"\x08 \x08"),
            None => before,
        },
        32..=126 if text.len() < usize::from(capacity) => {
            text.push(byte);
            with_bytes(before, &[byte])
        }
        _ => before,
    };
    stepped(State::Typing(text, false), Answer::More, show)
}

// A byte at a line.
fn line_step(
    settings: &Settings,
    choices: &[Choice],
    before: Text,
    text: ArrayVec<u8, 470>,
    first: bool,
    byte: u8,
) -> Step
    requires short { length before.items ≤ 8 }
    requires few { length choices.now ≤ 48 }
    requires fits { settings.now.capacity ≤ 470 }
    ensures { step_view result
        ≡ steps.line_step (setup_of settings.now choices.now []) before.items text.items first byte }
{
    match byte {
        b'\n' | b'\r' => finished_step(
            settings,
            choices,
            with_bytes(before, b"\n"),
            text.as_slice(),
        ),
        0x15 => begun_step(Answer::More, with_bytes(before, b"\n")),
        b'\t' | b'?' if first => begun_step(Answer::List, with_bytes(before, b"\n")),
        _ => edited_step(settings.capacity, before, text, byte),
    }
}

// The delay is over.
fn delayed_step(settings: &Settings, choices: &[Choice], line: &[u8]) -> Step
    requires few { length choices.now ≤ 48 }
    requires fits { length line.now ≤ 470 }
    ensures { step_view result ≡ steps.delayed_step (setup_of settings.now choices.now line.now) }
{
    match read_line(choices, true, line) {
        Meant::Means(chosen) => choice_step(choices, ArrayVec::new(), false, chosen),
        Meant::Blank | Meant::Unknown => default_step(
            settings,
            choices,
            ArrayVec::new(),
            false,
            true,
        ),
    }
}

// The timeout is over.
fn timed_step(settings: &Settings, choices: &[Choice], before: Text) -> Step
    requires short { length before.items ≤ 8 }
    ensures { step_view result ≡ steps.timed_step (setup_of settings.now choices.now []) before.items }
{
    default_step(settings, choices, with_bytes(before, b"\n"), true, true)
}

// The prompt is shown after a question, for the first time or again.
fn reopened_step(opened: bool, before: Text) -> Step
    requires { length before.items ≤ 10 }
    ensures { step_view result ≡ steps.reopened_step opened before.items }
{
    let step = begun_step(Answer::WrongPassword, before);
    if opened { step } else { opening(step) }
}

// Whether an answer is the password.
fn is_right(password: &[u8], answer: &Option<ArrayVec<u8, 31>>) -> bool
    ensures { result ≡ is_right password.now (option_map (λ answer. answer.items) answer.now) }
{
    match answer {
        None => false,
        Some(answer) => answer.as_slice() == password,
    }
}

// An answer is finished.
fn answered_step(question: Question) -> Step
    ensures { step_view result ≡ steps.answered_step (question_view question) }
{
    if is_right(question.password.as_slice(), &question.answer) {
        let answer = Answer::Chosen(question.chosen.picked);
        stepped(State::Decided(question.chosen), answer, copy_of(b"\n"))
    } else {
        reopened_step(question.opened, copy_of(b"\nSorry.\n"))
    }
}

// An answer with one byte more, or none where it was or becomes too long.
fn answer_after(answer: Option<ArrayVec<u8, 31>>, byte: u8) -> Option<ArrayVec<u8, 31>>
    ensures { option_map (λ answer. answer.items) result
        ≡ answer_after_byte (option_map (λ answer. answer.items) answer) byte }
{
    let mut answer = answer?;
    match byte {
        8 | 127 => {
            let _ = answer.pop();
        }
        32..=126 => {
            if answer.is_full() {
                return None;
            }
            answer.push(byte);
        }
        _ => {}
    }
    Some(answer)
}

// A byte at a question.
fn answer_step(question: Question, byte: u8) -> Step
    ensures { step_view result ≡ steps.answer_step (question_view question) byte }
{
    if byte == b'\n' || byte == b'\r' {
        return answered_step(question);
    }
    let Question {
        chosen,
        password,
        answer,
        quiet: _,
        opened,
    } = question;
    let question = Question {
        chosen,
        password,
        answer: answer_after(answer, byte),
        quiet: 0,
        opened,
    };
    stepped(State::Asking(question), Answer::More, ArrayVec::new())
}

// A tick at a question.
fn quiet_step(question: Question) -> Step
    ensures { step_view result ≡ steps.quiet_step (question_view question) }
{
    if question.quiet + 1 == QUIET_TICKS {
        return reopened_step(question.opened, copy_of(b"\n"));
    }
    let Question {
        chosen,
        password,
        answer,
        quiet,
        opened,
    } = question;
    let question = Question {
        chosen,
        password,
        answer,
        quiet: quiet + 1,
        opened,
    };
    stepped(State::Asking(question), Answer::More, ArrayVec::new())
}

/// A byte.
pub(crate) fn byte_step(settings: &Settings, choices: &[Choice], state: State, byte: u8) -> Step
    requires few { length choices.now ≤ 48 }
    requires fits { settings.now.capacity ≤ 470 }
    ensures { step_view result ≡ steps.byte_step (setup_of settings.now choices.now []) (state_view state) byte }
{
    match state {
        State::Delaying(_) => {
            let before = copy_of(b"boot: ");
            opening(line_step(settings, choices, before, ArrayVec::new(), true, byte))
        }
        State::Timing(_) => {
            line_step(
                settings,
                choices,
                ArrayVec::new(),
                ArrayVec::new(),
                true,
                byte,
            )
        }
        State::Typing(text, first) => {
            line_step(settings, choices, ArrayVec::new(), text, first, byte)
        }
        State::Asking(question) => answer_step(question, byte),
        State::Decided(chosen) => stepped(State::Decided(chosen), Answer::Idle, ArrayVec::new()),
        State::Over => stepped(State::Over, Answer::Idle, ArrayVec::new()),
    }
}

/// A tick.
pub(crate) fn tick_step(settings: &Settings, choices: &[Choice], line: &[u8], state: State) -> Step
    requires few { length choices.now ≤ 48 }
    requires fits { length line.now ≤ 470 }
    ensures { step_view result ≡ steps.tick_step (setup_of settings.now choices.now line.now) (state_view state) }
{
    match state {
        State::Delaying(wait) => {
            if wait <= 1 {
                delayed_step(settings, choices, line)
            } else {
                stepped(State::Delaying(wait - 1), Answer::More, ArrayVec::new())
            }
        }
        State::Timing(wait) => {
            if wait <= 1 {
                timed_step(settings, choices, ArrayVec::new())
            } else {
                stepped(State::Timing(wait - 1), Answer::More, ArrayVec::new())
            }
        }
        State::Typing(text, first) => {
            stepped(State::Typing(text, first), Answer::More, ArrayVec::new())
        }
        State::Asking(question) => quiet_step(question),
        State::Decided(chosen) => stepped(State::Decided(chosen), Answer::Idle, ArrayVec::new()),
        State::Over => stepped(State::Over, Answer::Idle, ArrayVec::new()),
    }
}

/// No key comes any more.
pub(crate) fn silence_step(
    settings: &Settings,
    choices: &[Choice],
    line: &[u8],
    state: State,
) -> Step
    requires few { length choices.now ≤ 48 }
    requires fits { length line.now ≤ 470 }
    ensures { step_view result ≡ steps.silence_step (setup_of settings.now choices.now line.now) (state_view state) }
{
    match state {
        State::Delaying(_) => delayed_step(settings, choices, line),
        State::Timing(_) => timed_step(settings, choices, ArrayVec::new()),
        State::Typing(..) => stepped(State::Over, Answer::Idle, ArrayVec::new()),
        State::Asking(question) => reopened_step(question.opened, copy_of(b"\n")),
        State::Decided(chosen) => stepped(State::Decided(chosen), Answer::Idle, ArrayVec::new()),
        State::Over => stepped(State::Over, Answer::Idle, ArrayVec::new()),
    }
}

/// A key.
#[tactic(auto, unfolding(crate::specs::Steps::key_step))]
pub(crate) fn key_step(
    settings: &Settings,
    choices: &[Choice],
    line: &[u8],
    state: State,
    key: Key,
) -> Step
    requires few { length choices.now ≤ 48 }
    requires capacity { settings.now.capacity ≤ 470 }
    requires fits { length line.now ≤ 470 }
    ensures { step_view result ≡ steps.key_step (setup_of settings.now choices.now line.now) (state_view state) key }
{
    match key {
        Key::Byte(byte) => byte_step(settings, choices, state, byte),
        Key::Tick => tick_step(settings, choices, line, state),
        Key::Silence => silence_step(settings, choices, line, state),
    }
}

// The prompt is shown at once, with a timeout or none.
fn shown_step(settings: &Settings, choices: &[Choice]) -> Step
    ensures { step_view result ≡ steps.shown_step (setup_of settings.now choices.now []) settings.now.timeout }
{
    match settings.timeout {
        None => opening(begun_step(Answer::More, ArrayVec::new())),
        Some(0) => opening(timed_step(settings, choices, copy_of(b"boot: "))),
        Some(wait) => opening(stepped(State::Timing(wait), Answer::More, copy_of(b"boot: "))),
    }
}

// The delay begins.
fn waiting_step(settings: &Settings, choices: &[Choice], line: &[u8]) -> Step
    requires few { length choices.now ≤ 48 }
    requires fits { length line.now ≤ 470 }
    ensures { step_view result ≡ steps.waiting_step (setup_of settings.now choices.now line.now) }
{
    if settings.delay == 0 {
        delayed_step(settings, choices, line)
    } else {
        stepped(
            State::Delaying(settings.delay),
            Answer::More,
            ArrayVec::new(),
        )
    }
}

// Whether the prompt is shown at once: it is asked for, and the default line chooses nothing.
fn opens_at_once(settings: &Settings, choices: &[Choice], line: &[u8]) -> bool
    requires few { length choices.now ≤ 48 }
    requires fits { length line.now ≤ 470 }
    ensures { let setup = setup_of settings.now choices.now line.now in
        result ≡ steps.opens_by settings.now.prompt (steps.line_meant setup) }
{
    match read_line(choices, true, line) {
        Meant::Means(_) => false,
        Meant::Blank | Meant::Unknown => settings.prompt,
    }
}

/// The start.
#[tactic(auto, unfolding(crate::specs::Steps::start_step))]
pub(crate) fn start_step(settings: &Settings, choices: &[Choice], line: &[u8]) -> Step
    requires few { length choices.now ≤ 48 }
    requires fits { length line.now ≤ 470 }
    ensures { step_view result ≡ steps.start_step (setup_of settings.now choices.now line.now) }
{
    if opens_at_once(settings, choices, line) {
        shown_step(settings, choices)
    } else {
        waiting_step(settings, choices, line)
    }
}
