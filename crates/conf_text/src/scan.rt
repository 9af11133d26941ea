// How far blanks, words and quoted texts reach, and what is at a place.
ghost use Rattle.std.specs.Prelude.{◌≡◌, ℕ, List, ◌∷◌, ◌+◌, ◌-◌, ◌^◌, ◌≤◌, ◌<◌, ◌==◌, false, length, take, position};
ghost use Rattle.std.specs.Prelude.{count_by, slice_index, IfSome, IfOk};
ghost use Rattle.std.specs.Option.{option_map};
ghost use Rattle.std.specs.List.{prefix_len};
ghost use Rattle.lilo_model.specs.Checks.{seen};
ghost use Rattle.lilo_model.specs.ConfTokens.{is_separator, is_bad_byte, in_comment, is_blank, blank_length};
ghost use Rattle.lilo_model.specs.ConfTokens.{is_of_word, is_escape, ends_quoted, quoted_length, sound_token, word_at};
ghost use Rattle.lilo_model.specs.ConfTokens.{quoted_at, equals_at, piece_at, token_end, line_at, next_piece};
ghost use Rattle.conf_text.specs.View.{kind_view, token_view, text_fault_view, piece_view};

use crate::token::{TextFault, Token, TokenKind};

/// Whether a byte separates tokens.
#[tactic(auto, unfolding(lilo_model::specs::ConfTokens::is_separator))]
fn is_separator(byte: u8) -> bool
    ensures { result ≡ is_separator byte }
{
    byte == b' ' || byte == b'\t' || byte == b'\r' || byte == b'\n'
}

/// Whether a byte isn't allowed outside comments.
#[tactic(auto, unfolding(lilo_model::specs::ConfTokens::is_bad_byte))]
fn is_bad_byte(byte: u8) -> bool
    ensures { result ≡ is_bad_byte byte }
{
    (byte < 32 && !is_separator(byte)) || byte == 127
}

/// Whether a byte belongs to no token, the byte before it in a comment or not.
#[tactic(auto, unfolding(lilo_model::specs::ConfTokens::is_blank))]
fn is_blank(comment: bool, byte: u8) -> bool
    ensures { result ≡ is_blank comment byte }
{
    comment || byte == b'#' || is_separator(byte)
}

/// Whether the byte after one is in a comment.
#[tactic(auto, unfolding(lilo_model::specs::ConfTokens::in_comment))]
fn in_comment(comment: bool, byte: u8) -> bool
    ensures { result ≡ in_comment comment byte }
{
    (comment || byte == b'#') && byte != b'\n'
}

/// How many bytes come before the first token.
fn blank_length(bytes: &[u8]) -> usize
    ensures value { result ≡ blank_length false bytes.now }
    ensures within { result ≤ length bytes.now }
{
    let mut comment = false;
    for (index, byte) in bytes.iter().enumerate() {
        if !is_blank(comment, *byte) {
            return index;
        }
        comment = in_comment(comment, *byte);
    }
    bytes.len()
}

/// How many newlines there are.
fn newlines(bytes: &[u8]) -> usize
    ensures { result ≡ count_by (λ byte. byte == 10) bytes.now }
{
    bytes.iter().filter(|byte| **byte == b'\n').count()
}

/// Whether a byte belongs to a word, after an equals sign or not.
#[tactic(auto, unfolding(lilo_model::specs::ConfTokens::is_of_word))]
fn is_of_word(value: bool, byte: u8) -> bool
    ensures { result ≡ is_of_word value byte }
{
    !is_separator(byte) && (value || byte != b'=')
}

/// How many bytes belong to a word.
fn word_length(value: bool, bytes: &[u8]) -> usize
    ensures value { result ≡ prefix_len (is_of_word value) bytes.now }
    ensures within { result ≤ length bytes.now }
{
    bytes
        .iter()
        .take_while(|byte| is_of_word(value, **byte))
        .count()
}

/// Whether a byte is a backslash that escapes the next.
#[tactic(auto, unfolding(lilo_model::specs::ConfTokens::is_escape))]
pub(crate) fn is_escape(escaped: bool, byte: u8) -> bool
    ensures { result ≡ is_escape escaped byte }
{
    byte == b'\\' && !escaped
}

/// Whether a byte ends a quoted text.
#[tactic(auto, unfolding(lilo_model::specs::ConfTokens::ends_quoted))]
fn ends_quoted(escaped: bool, byte: u8) -> bool
    ensures { result ≡ ends_quoted escaped byte }
{
    (byte == b'"' && !escaped) || byte == b'\n'
}

/// How many bytes come before the end of a quoted text.
fn quoted_length(bytes: &[u8]) -> usize
    ensures value { result ≡ quoted_length false bytes.now }
    ensures within { result ≤ length bytes.now }
{
    let mut escaped = false;
    for (index, byte) in bytes.iter().enumerate() {
        if ends_quoted(escaped, *byte) {
            return index;
        }
        escaped = is_escape(escaped, *byte);
    }
    bytes.len()
}

/// The first byte that isn't allowed outside comments.
fn bad_byte(bytes: &[u8]) -> Option<usize>
    ensures { result ≡ position is_bad_byte bytes.now }
{
    bytes.iter().position(|byte| is_bad_byte(*byte))
}

/// A token, unless a byte of it isn't allowed there.
#[tactic(auto, unfolding(lilo_model::specs::ConfTokens::sound_token, lilo_model::specs::ConfTokens::unless_bad))]
fn sound_token(
    line: u32,
    kind: TokenKind,
    start: usize,
    bytes: &[u8],
) -> Result<Token<'_>, TextFault>
    requires { start + length bytes.now < 2 ^ 32 }
    ensures value { piece_view result ≡ sound_token line (kind_view kind) start bytes.now }
    ensures bytes { IfOk result (λ token. (token.kind ≡ kind) × (token.start ≡ start) × (token.bytes.now ≡ bytes.now)) }
{
    match bad_byte(bytes) {
        Some(index) => Err(TextFault::BadByte((start + index) as u32)),
        None => Ok(Token {
            kind,
            bytes,
            start: start as u32,
            line,
        }),
    }
}

/// The word at a place, from its first byte on.
#[tactic(auto, unfolding(lilo_model::specs::ConfTokens::word_at))]
fn word_at(line: u32, value: bool, start: usize, bytes: &[u8]) -> Result<Token<'_>, TextFault>
    requires some { 1 ≤ length bytes.now }
    requires fits { start + length bytes.now < 2 ^ 32 }
    ensures value { (first : ℕ) (behind : List ℕ) → bytes.now ≡ first ∷ behind
        → piece_view result ≡ word_at line value start first behind }
    ensures within { IfOk result (λ token. token_end (token_view token) ≤ start + length bytes.now) }
    ensures behind { IfOk result (λ token. start ≤ token_end (token_view token)) }
{
    let reach = 1 + word_length(value, &bytes[1..]);
    sound_token(line, TokenKind::Word, start, &bytes[..reach])
}

/// The quoted text whose opening quote is at a place, with the bytes after the quote.
#[tactic(auto, unfolding(lilo_model::specs::ConfTokens::quoted_at, lilo_model::specs::ConfTokens::closed))]
fn quoted_at(line: u32, start: usize, bytes: &[u8]) -> Result<Token<'_>, TextFault>
    requires { start + 1 + length bytes.now < 2 ^ 32 }
    ensures value { piece_view result ≡ quoted_at line start bytes.now }
    ensures within { IfOk result (λ token. token_end (token_view token) ≤ start + 1 + length bytes.now) }
    ensures behind { IfOk result (λ token. start ≤ token_end (token_view token)) }
{
    let reach = quoted_length(bytes);
    let token = sound_token(line, TokenKind::Quoted, start + 1, &bytes[..reach])?;
    match bytes.get(reach) {
        Some(b'"') => Ok(token),
        _ => Err(TextFault::OpenQuote(start as u32)),
    }
}

/// The equals sign at a place, from itself on.
#[tactic(auto, unfolding(lilo_model::specs::ConfTokens::equals_at))]
fn equals_at(line: u32, start: usize, bytes: &[u8]) -> Token<'_>
    requires some { 1 ≤ length bytes.now }
    requires sign { slice_index bytes.now 0 ≡ 61 }
    requires fits { start + length bytes.now < 2 ^ 32 }
    ensures value { Ok (token_view result) ≡ equals_at line start }
    ensures within { token_end (token_view result) ≤ start + length bytes.now }
    ensures behind { start ≤ token_end (token_view result) }
{
    Token {
        kind: TokenKind::Equals,
        bytes: &bytes[..1],
        start: start as u32,
        line,
    }
}

/// What is at a place where a token begins, with the bytes from there on; nothing at the end.
#[tactic(auto, unfolding(lilo_model::specs::ConfTokens::piece_at))]
fn piece_at(
    line: u32,
    value: bool,
    start: usize,
    bytes: &[u8],
) -> Option<Result<Token<'_>, TextFault>>
    requires { start + length bytes.now < 2 ^ 32 }
    ensures value { option_map piece_view result ≡ piece_at line value start bytes.now }
    ensures within { IfSome result (λ piece.
        IfOk piece (λ token. token_end (token_view token) ≤ start + length bytes.now)) }
    ensures behind { IfSome result (λ piece. IfOk piece (λ token. start ≤ token_end (token_view token))) }
{
    match bytes.first()? {
        b'=' => Some(Ok(equals_at(line, start, bytes))),
        b'"' => Some(quoted_at(line, start, &bytes[1..])),
        _ => Some(word_at(line, value, start, bytes)),
    }
}

/// What comes first from a place on, or nothing, with its place and line.
#[derive(Clone, Copy)]
pub(crate) struct Ahead<'a> {
    pub(crate) start: usize,
    pub(crate) line: u32,
    pub(crate) piece: Option<Result<Token<'a>, TextFault>>,
}

/// What comes first from a place on, after an equals sign or not. The line is that of an earlier place.
pub(crate) fn next_piece(
    text: &[u8],
    value: bool,
    place: usize,
    counted: usize,
    line: u32,
) -> Ahead<'_>
    requires few { length text.now ≤ 65536 }
    requires place { place ≤ length text.now }
    requires counted { counted ≤ place }
    requires line { line ≡ line_at text.now counted }
    ensures piece { option_map piece_view result.piece ≡ next_piece text.now value place }
    ensures within { IfSome result.piece (λ piece.
        IfOk piece (λ token. token_end (token_view token) ≤ length text.now)) }
    ensures start { result.start ≤ length text.now }
    ensures behind { IfSome result.piece (λ piece. IfOk piece (λ token. result.start ≤ token_end (token_view token))) }
    ensures line { result.line ≡ line_at text.now result.start }
{
    let start = place + blank_length(&text[place..]);
    let line = line + newlines(&text[counted..start]) as u32;
    let piece = piece_at(line, value, start, &text[start..]);
    Ahead { start, line, piece }
}
