// The reader of a text's tokens.
use crate::scan::next_piece;
use crate::token::{TextFault, Token};
use std::marker::Model;

/// The tokens of a text, in order. To a contract it is the list of what it has left to give: tokens, and a
/// fault at the end where the text has one.
#[derive(Drop)]
pub struct Tokens<'a> {
    text: &'a [u8],
    // where the next token is looked for, and whether after an equals sign
    place: usize,
    value: bool,
    // a place before it, and the line of that
    counted: usize,
    line: u32,
    refused: bool,
}

impl<'a> Model for Tokens<'a> {
    ghost use Rattle.std.specs.Prelude.{◌≡◌, ◌≤◌, List, length};
    ghost use Rattle.lilo_model.specs.ConfTokens.{Piece, line_at};
    ghost use Rattle.conf_text.specs.View.{pieces_left};

    ghost Value = { List Piece };

    ghost view = { λ tokens. pieces_left tokens.refused tokens.text.now tokens.value tokens.place };

    ghost invariant = { λ tokens. (length tokens.text.now ≤ 65536) × (tokens.place ≤ length tokens.text.now)
        × (tokens.counted ≤ tokens.place) × (tokens.line ≡ line_at tokens.text.now tokens.counted) };
}

impl<'a> Tokens<'a> {
    ghost use Rattle.std.specs.Prelude.{◌≡◌, ◌≤◌, length, drop, slice_get};
    ghost use Rattle.std.specs.Option.{option_map};
    ghost use Rattle.lilo_model.specs.ConfTokens.{text_pieces};
    ghost use Rattle.conf_text.specs.View.{piece_view, begins_with_equals};

    /// The tokens of a text.
    pub fn new(text: &'a [u8]) -> Tokens<'a>
        requires { length text.now ≤ 65536 }
        ensures { result ≡ text_pieces text.now }
    {
        Tokens {
            text,
            place: 0,
            value: false,
            counted: 0,
            line: 1,
            refused: false,
        }
    }

    /// Whether an equals sign comes next.
    pub fn is_before_equals(&self) -> bool
        ensures { result ≡ begins_with_equals self.now }
    {
        if self.refused {
            return false;
        }
        let ahead = next_piece(self.text, self.value, self.place, self.counted, self.line);
        let Some(piece) = ahead.piece else {
            return false;
        };
        match piece {
            Ok(token) => token.is_equals(),
            Err(_) => false,
        }
    }

    /// The next token, or why there is none. After a fault, and at the end, there is nothing.
    pub fn next(&mut self) -> Option<Result<Token<'a>, TextFault>>
        ensures given { option_map piece_view result ≡ slice_get self.old 0 }
        ensures left { self.new ≡ drop 1 self.old }
    {
        if self.refused {
            return None;
        }
        let ahead = next_piece(self.text, self.value, self.place, self.counted, self.line);
        let Some(piece) = ahead.piece else {
            return None;
        };
        match piece {
            Ok(token) => {
                self.place = token.end();
                self.value = token.is_equals();
                self.counted = ahead.start;
                self.line = ahead.line;
            }
            Err(_) => self.refused = true,
        }
        Some(piece)
    }
}
