// What a token means.
ghost use Rattle.std.specs.Prelude.{◌≡◌, ◌++◌, false, is_ok, IfOk, OnOk};
ghost use Rattle.lilo_model.specs.ConfTokens.{plain_bytes, unescaped, unescaped_byte};
ghost use Rattle.conf_text.specs.View.{kind_view};

use crate::scan::is_escape;
use crate::text::Text;
use crate::token::{Token, TokenKind};
use std::alloc::{AllocError, Global};

/// What a token means: its bytes, those of a quoted one without the backslashes that escape a quote or another
/// backslash.
///
/// # Errors
///
/// There is no memory for it.
#[tactic(auto, unfolding(lilo_model::specs::ConfTokens::plain_bytes))]
pub fn plain(alloc: Global, token: &Token<'_>) -> Result<Text, AllocError>
    ensures { IfOk result (λ text. text ≡ plain_bytes (kind_view token.now.kind) token.now.bytes.now) }
{
    match token.kind {
        TokenKind::Quoted => unescaped(alloc, token.bytes),
        TokenKind::Word | TokenKind::Equals => Text::new(alloc, token.bytes),
    }
}

/// Bytes without their escapes.
fn unescaped(alloc: Global, bytes: &[u8]) -> Result<Text, AllocError>
    ensures { IfOk result (λ text. text ≡ unescaped false bytes.now) }
{
    let mut meant = Vec::new(alloc);
    let mut escaped = false;
    for byte in bytes {
        push_meant(&mut meant, escaped, *byte)?;
        escaped = is_escape(escaped, *byte);
    }
    if escaped {
        meant.push(b'\\')?;
    }
    Ok(Text::from_vec(meant))
}

/// Adds what a byte means.
#[tactic(auto, unfolding(lilo_model::specs::ConfTokens::unescaped_byte))]
fn push_meant(meant: &mut Vec<u8>, escaped: bool, byte: u8) -> Result<(), AllocError>
    ensures { OnOk result (meant.new.items ≡ meant.old.items ++ unescaped_byte escaped byte) }
{
    if is_escape(escaped, byte) {
        return Ok(());
    }
    if escaped && byte != b'"' && byte != b'\\' {
        meant.push(b'\\')?;
    }
    meant.push(byte)?;
    Ok(())
}
