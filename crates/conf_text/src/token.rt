// A token, and why a text has none.

/// What a token is.
#[derive(Clone, Copy, Debug, PartialEq, Eq)]
pub enum TokenKind {
    /// Bytes up to a separator.
    Word,
    /// The bytes between two quotes.
    Quoted,
    /// An equals sign.
    Equals,
}

/// A token of a text.
#[derive(Clone, Copy, Debug, PartialEq, Eq)]
pub struct Token<'a> {
    pub kind: TokenKind,
    /// Its bytes in the text, those of a quoted one without its quotes.
    pub bytes: &'a [u8],
    /// The place of the first of them.
    pub start: u32,
    pub line: u32,
}

/// Why a text can't be cut further.
#[derive(Clone, Copy, Debug, PartialEq, Eq)]
pub enum TextFault {
    /// The opening quote at this place has no closing one on its line.
    OpenQuote(u32),
    /// The byte at this place isn't allowed outside comments.
    BadByte(u32),
}

impl Token<'_> {
    ghost use Rattle.std.specs.Prelude.{◌≡◌, ◌+◌, ◌^◌, ◌<◌};
    ghost use Rattle.lilo_model.specs.ConfTokens.{token_end, is_equals};
    ghost use Rattle.conf_text.specs.View.{token_view};

    /// The place after it.
    pub(crate) fn end(&self) -> usize
        requires { token_end (token_view self.now) < 2 ^ 32 }
        ensures { result ≡ token_end (token_view self.now) }
    {
        let quote = match self.kind {
            TokenKind::Quoted => 1,
            TokenKind::Word | TokenKind::Equals => 0,
        };
        self.start as usize + self.bytes.len() + quote
    }

    /// Whether it is an equals sign.
    #[tactic(auto, unfolding(lilo_model::specs::ConfTokens::is_equals))]
    pub(crate) fn is_equals(&self) -> bool
        ensures { result ≡ is_equals (token_view self.now).kind }
    {
        match self.kind {
            TokenKind::Equals => true,
            TokenKind::Word | TokenKind::Quoted => false,
        }
    }
}
