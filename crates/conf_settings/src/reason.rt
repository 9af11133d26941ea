// Why a configuration is refused.
ghost use Rattle.std.specs.Prelude.{◌≡◌, ◌≤◌, ◌++◌, ℕ, length, codes, IfSome, IfNone};
ghost use Rattle.lilo_model.specs.ConfRefusal.{conf_reason_text, config_line};
ghost use Rattle.conf_settings.specs.View.{reason_view, fault_view};

use crate::option::Opt;
use conf_text::TextFault;
use std::alloc::AllocError;

/// What is wrong with a configuration.
#[derive(Clone, Copy, Debug, PartialEq, Eq)]
pub enum ConfReason {
    /// The word is no option.
    Unknown,
    /// The option is one of LILO that isn't taken here.
    LeftOut,
    /// It comes a second time.
    Repeated,
    /// It wants a value and has none.
    NoValue,
    /// Its value is out of its range, or it has one and wants none.
    BadValue,
    /// It may not be there.
    Misplaced,
    /// The name has too many bytes.
    NameTooLong,
    /// The name comes a second time.
    RepeatedName,
    /// There are more names than a map holds.
    TooManyNames,
    /// It may not be given beside this option.
    Excludes(Opt),
    /// The default is no name.
    NoDefault,
    /// There is no section.
    NoImages,
    /// It has no effect without this option.
    Needs(Opt),
    /// The text can't be cut into tokens.
    Text(TextFault),
    /// The text has so many bytes.
    TooLong(u32),
    /// There is no memory, which is nothing of the configuration.
    Memory,
}

/// Why a configuration is refused: what is wrong, with which option, on which line.
#[derive(Clone, Copy, Debug, PartialEq, Eq)]
pub struct ConfFault {
    pub reason: ConfReason,
    pub option: Opt,
    pub line: u32,
}

impl From<AllocError> for ConfFault {
    ghost use Rattle.std.specs.Prelude.{◌≡◌};
    ghost use Rattle.conf_settings.specs.declared.option.Opt.TheVariants as options;
    ghost use Rattle.conf_settings.specs.declared.reason.ConfReason.TheVariants as reasons;

    ghost from_gives = { λ _ fault. fault ≡ record { reason = reasons.Memory; option = options.Other; line = 0 } };

    fn from(_: AllocError) -> ConfFault {
        ConfFault {
            reason: ConfReason::Memory,
            option: Opt::Other,
            line: 0,
        }
    }
}

/// The text of a reason, in two pieces.
#[derive(Clone, Copy, Debug, PartialEq, Eq)]
pub struct ReasonText {
    pub words: &'static [u8],
    /// The name of the other option that it speaks of, or nothing.
    pub other: &'static [u8],
}

impl ConfReason {
    /// Its text.
    #[tactic(auto, unfolding(lilo_model::specs::ConfRefusal::conf_reason_text))]
    pub fn text(self) -> ReasonText
        ensures text { IfSome (reason_view self) (λ reason.
            result.words.now ++ result.other.now ≡ conf_reason_text reason) }
        ensures memory { IfNone (reason_view self) (result.words.now ++ result.other.now ≡ codes "memory") }
        ensures short { length (result.words.now ++ result.other.now) ≤ 21 }
    {
        match self {
            ConfReason::Unknown => words(b"unknown"),
            ConfReason::LeftOut => words(b"left out"),
            ConfReason::Repeated => words(b"repeated"),
            ConfReason::NoValue => words(b"no value"),
            ConfReason::BadValue => words(b"bad value"),
            ConfReason::Misplaced => words(b"misplaced"),
            ConfReason::NameTooLong => words(b"name too long"),
            ConfReason::RepeatedName => words(b"repeated name"),
            ConfReason::TooManyNames => words(b"too many names"),
            ConfReason::Excludes(other) => ReasonText {
                words: b"excludes ",
                other: other.name(),
            },
            ConfReason::NoDefault => words(b"no default"),
            ConfReason::NoImages => words(b"no images"),
            ConfReason::Needs(other) => ReasonText {
                words: b"needs ",
                other: other.name(),
            },
            ConfReason::Text(TextFault::OpenQuote(_)) => words(b"open quote"),
            ConfReason::Text(TextFault::BadByte(_)) => words(b"bad byte"),
            ConfReason::TooLong(_) => words(b"too long"),
            ConfReason::Memory => words(b"memory"),
        }
    }
}

// A text of one piece.
fn words(words: &'static [u8]) -> ReasonText
    ensures { result.words.now ++ result.other.now ≡ words.now }
{
    ReasonText { words, other: b"" }
}
