// The settings of a text.
ghost use Rattle.std.specs.Prelude.{◌≡◌, ◌≤◌, Some, [], IfNone, length, count_by, take, ◌==◌, IfOk};
ghost use Rattle.lilo_model.specs.ConfTokens.{line_at};
ghost use Rattle.lilo_model.specs.ConfOptions.{takes_of};
ghost use Rattle.lilo_model.specs.ConfSettings.{fault_place, text_refusal, given_of, signed_cut, valued_cut, flag_cut};
ghost use Rattle.lilo_model.specs.ConfSettings.{taken_cut, token_cut, setting_cut, text_settings};
ghost use Rattle.conf_text.specs.View.{text_fault_view, token_view, piece_view};
ghost use Rattle.std.specs.Option.{option_map};
ghost use Rattle.conf_settings.specs.View.{opt_view, takes_view, fault_view, given_view, IsCut};
ghost use Rattle.conf_settings.specs.Step.{step_view, with_front};

use crate::option::{Opt, Takes};
use crate::reason::{ConfFault, ConfReason};
use crate::setting::{Cut, Given, Setting, SettingList};
use conf_text::{TextFault, Token, TokenKind, Tokens, plain};
use std::alloc::{AllocError, Global};

// What comes first among tokens.
#[derive(Drop)]
enum Step {
    End,
    Refused(ConfFault),
    First(Setting),
}

/// The settings of a text, and the refusal that comes after them.
///
/// # Errors
///
/// There is no memory for them.
pub fn read_settings(alloc: Global, text: &[u8]) -> Result<Cut, AllocError>
    requires { length text.now ≤ 65536 }
    ensures { IfOk result (λ cut. IsCut cut (text_settings text.now)) }
{
    let mut tokens = Tokens::new(text);
    let mut settings = SettingList::new(alloc);
    let mut begun = Opt::Other;
    loop {
        match next_step(alloc, text, &mut tokens, begun)? {
            Step::End => {
                return Ok(Cut {
                    settings,
                    refusal: None,
                });
            }
            Step::Refused(fault) => {
                return Ok(Cut {
                    settings,
                    refusal: Some(fault),
                });
            }
            Step::First(setting) => {
                begun = setting.option;
                settings.push(setting)?;
            }
        }
    }
}

// The first setting, after an option.
#[tactic(auto, unfolding(lilo_model::specs::ConfSettings::setting_cut))]
fn next_step(
    alloc: Global,
    text: &[u8],
    tokens: &mut Tokens<'_>,
    begun: Opt,
) -> Result<Step, AllocError>
    requires { length text.now ≤ 65536 }
    ensures { IfOk result (λ step. step_view step tokens.new
        ≡ Some (setting_cut text.now (opt_view begun) tokens.old)) }
{
    match next_of(tokens) {
        None => Ok(Step::End),
        Some(Err(fault)) => Ok(Step::Refused(text_fault(text, begun, fault))),
        Some(Ok(token)) => token_step(alloc, text, tokens, token),
    }
}

// The setting of a token.
#[tactic(auto, unfolding(lilo_model::specs::ConfSettings::token_cut, lilo_model::specs::ConfSettings::word_cut))]
fn token_step(
    alloc: Global,
    text: &[u8],
    tokens: &mut Tokens<'_>,
    token: Token<'_>,
) -> Result<Step, AllocError>
    requires { length text.now ≤ 65536 }
    ensures { IfOk result (λ step. step_view step tokens.new
        ≡ Some (token_cut text.now (token_view token.entry) tokens.old)) }
{
    match token.kind {
        TokenKind::Word => option_step(alloc, text, tokens, Opt::of(token.bytes), token.line),
        TokenKind::Quoted | TokenKind::Equals => {
            Ok(refused(ConfReason::Unknown, Opt::Other, token.line))
        }
    }
}

// The setting of an option on a line, by what comes after its word.
#[tactic(auto, unfolding(lilo_model::specs::ConfSettings::taken_cut))]
fn option_step(
    alloc: Global,
    text: &[u8],
    tokens: &mut Tokens<'_>,
    option: Opt,
    line: u32,
) -> Result<Step, AllocError>
    requires { length text.now ≤ 65536 }
    ensures { IfOk result (λ step. step_view step tokens.new
        ≡ Some (taken_cut text.now (opt_view option) (takes_of (opt_view option)) line tokens.old)) }
{
    match option.takes() {
        Takes::Unknown => Ok(refused(ConfReason::Unknown, Opt::Other, line)),
        Takes::LeftOut => Ok(refused(ConfReason::LeftOut, option, line)),
        Takes::Nothing => Ok(flag_step(tokens, option, line)),
        _ => valued_step(alloc, text, tokens, option, line),
    }
}

// An option that takes no value.
#[tactic(auto, using(crate::proofs::StepLemmas::flag_sign, crate::proofs::StepLemmas::flag_bare))]
fn flag_step(tokens: &Tokens<'_>, option: Opt, line: u32) -> Step
    ensures { step_view result tokens.now ≡ Some (flag_cut (opt_view option) line tokens.now) }
{
    if tokens.is_before_equals() {
        first(option, Given::Sign, line)
    } else {
        first(option, Given::Bare, line)
    }
}

// An option that takes a value.
#[tactic(auto, unfolding(lilo_model::specs::ConfSettings::valued_cut))]
fn valued_step(
    alloc: Global,
    text: &[u8],
    tokens: &mut Tokens<'_>,
    option: Opt,
    line: u32,
) -> Result<Step, AllocError>
    requires { length text.now ≤ 65536 }
    ensures { IfOk result (λ step. step_view step tokens.new
        ≡ Some (valued_cut text.now (opt_view option) line tokens.old)) }
{
    match next_of(tokens) {
        None => Ok(first(option, Given::Bare, line)),
        Some(Err(fault)) => Ok(Step::Refused(text_fault(text, option, fault))),
        Some(Ok(token)) => match token.kind {
            TokenKind::Equals => signed_step(alloc, text, tokens, option, line),
            TokenKind::Word | TokenKind::Quoted => Ok(first(option, Given::Bare, line)),
        },
    }
}

// What comes after an option's equals sign.
#[tactic(auto, unfolding(lilo_model::specs::ConfSettings::signed_cut))]
fn signed_step(
    alloc: Global,
    text: &[u8],
    tokens: &mut Tokens<'_>,
    option: Opt,
    line: u32,
) -> Result<Step, AllocError>
    requires { length text.now ≤ 65536 }
    ensures { IfOk result (λ step. step_view step tokens.new
        ≡ Some (signed_cut text.now (opt_view option) line tokens.old)) }
{
    match next_of(tokens) {
        None => Ok(first(option, Given::Sign, line)),
        Some(Err(fault)) => Ok(Step::Refused(text_fault(text, option, fault))),
        Some(Ok(token)) => {
            let given = given_of(alloc, &token)?;
            Ok(first(option, given, line))
        }
    }
}

// The next of some tokens, which is the first of their pieces.
fn next_of<'a>(tokens: &mut Tokens<'a>) -> Option<Result<Token<'a>, TextFault>>
    ensures pieces { tokens.old ≡ with_front (option_map piece_view result) tokens.new }
    ensures end { IfNone result (tokens.new ≡ []) }
{
    tokens.next()
}

// What a token gives after an equals sign.
#[tactic(auto, unfolding(lilo_model::specs::ConfSettings::given_of))]
fn given_of(alloc: Global, token: &Token<'_>) -> Result<Given, AllocError>
    ensures { IfOk result (λ given. given_view given ≡ given_of (token_view token.now)) }
{
    match token.kind {
        TokenKind::Word | TokenKind::Quoted => {
            let text = plain(alloc, token)?;
            Ok(Given::Value(text))
        }
        TokenKind::Equals => Ok(Given::Sign),
    }
}

// A setting as a step.
fn first(option: Opt, given: Given, line: u32) -> Step
    ensures { result ≡ Step.First (record { option = option; given = given; line = line }) }
{
    Step::First(Setting {
        option,
        given,
        line,
    })
}

// A refusal as a step.
fn refused(reason: ConfReason, option: Opt, line: u32) -> Step
    ensures { result ≡ Step.Refused (record { reason = reason; option = option; line = line }) }
{
    Step::Refused(ConfFault {
        reason,
        option,
        line,
    })
}

// The refusal of a text that can't be cut, by the option that was begun last.
#[tactic(auto, unfolding(lilo_model::specs::ConfSettings::text_refusal, lilo_model::specs::ConfSettings::fault_place))]
fn text_fault(text: &[u8], option: Opt, fault: TextFault) -> ConfFault
    requires { length text.now ≤ 65536 }
    ensures { fault_view result ≡ Some (text_refusal text.now (opt_view option) (text_fault_view fault)) }
{
    let place = match fault {
        TextFault::OpenQuote(place) | TextFault::BadByte(place) => place,
    };
    ConfFault {
        reason: ConfReason::Text(fault),
        option,
        line: line_at(text, place as usize),
    }
}

// The line of a place.
#[tactic(auto, unfolding(lilo_model::specs::ConfTokens::line_at))]
fn line_at(text: &[u8], place: usize) -> u32
    requires { length text.now ≤ 65536 }
    ensures { result ≡ line_at text.now place }
{
    newlines_before(text, place) as u32 + 1
}

// How many newlines come before a place.
fn newlines_before(text: &[u8], place: usize) -> usize
    ensures count { result ≡ count_by (λ byte. byte == 10) (take place text.now) }
    ensures few { result ≤ length text.now }
{
    text.iter()
        .take(place)
        .filter(|byte| **byte == b'\n')
        .count()
}
