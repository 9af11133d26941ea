// The middle of a kernel's command line.
ghost use Rattle.std.specs.Prelude.{◌≡◌, ◌++◌, ◌<◌, ◌*◌, ◌^◌, ℕ, suc, IfOk, OnOk, Some};
ghost use Rattle.lilo_model.specs.Bytes.{hex_digit};
ghost use Rattle.lilo_model.specs.Place.{spaced_words};
ghost use Rattle.lilo_model.specs.Meant.{hex_digits, mount_text, root_text, middle_text};
ghost use Rattle.lilo_conf.specs.View.{section_view, mount_view};
ghost use Rattle.map_plan.specs.Middle.{parts_text};

use conf_text::Text;
use lilo_conf::{Mount, Section};
use std::alloc::{AllocError, Global};

// What comes after the name on the command line of a kernel's section.
#[tactic(auto, unfolding(lilo_model::specs::Meant::middle_text))]
pub(crate) fn middle_of(alloc: Global, section: &Section) -> Result<Text, AllocError>
    ensures { IfOk result (λ text. text ≡ middle_text (section_view section.now)) }
{
    let mut bytes = Vec::new(alloc);
    match &section.literal {
        Some(text) => add_spaced(&mut bytes, text.bytes())?,
        None => add_parts(&mut bytes, section)?,
    }
    Ok(Text::from_vec(bytes))
}

// How the root is mounted, its device, and what comes last.
fn add_parts(bytes: &mut Vec<u8>, section: &Section) -> Result<(), AllocError>
    ensures { OnOk result (bytes.new.items ≡ bytes.old.items ++ parts_text (section_view section.now)) }
{
    bytes.extend_from_slice(mount_text(section.mount))?;
    add_root(bytes, section.root)?;
    match &section.append {
        Some(text) => add_spaced(bytes, text.bytes()),
        None => Ok(()),
    }
}

fn mount_text(mount: Mount) -> &'static [u8]
    ensures { result.now ≡ mount_text (mount_view mount) }
{
    match mount {
        Mount::Unsaid => b"",
        Mount::ReadOnly => b" ro",
        Mount::ReadWrite => b" rw",
    }
}

// The device of the root.
fn add_root(bytes: &mut Vec<u8>, root: Option<u16>) -> Result<(), AllocError>
    ensures { OnOk result (bytes.new.items ≡ bytes.old.items ++ root_text root) }
{
    match root {
        Some(number) => add_number(bytes, number),
        None => Ok(()),
    }
}

// The same where it is given.
fn add_number(bytes: &mut Vec<u8>, number: u16) -> Result<(), AllocError>
    ensures { OnOk result (bytes.new.items ≡ bytes.old.items ++ root_text (Some number)) }
{
    bytes.extend_from_slice(b" root=")?;
    add_hex(bytes, number)?;
    Ok(())
}

// A number in hexadecimal, without leading zeros.
fn add_hex(bytes: &mut Vec<u8>, number: u16) -> Result<(), AllocError>
    ensures { (more : ℕ) → number < 16 * 16 ^ more
        → OnOk result (bytes.new.items ≡ bytes.old.items ++ hex_digits (suc more) number) }
{
    if number < 16 {
        bytes.push(hex_digit(number))?;
        return Ok(());
    }
    add_hex(bytes, number / 16)?;
    bytes.push(hex_digit(number % 16))?;
    Ok(())
}

// A digit of 0 to 15 in hexadecimal.
fn hex_digit(digit: u16) -> u8
    requires { digit < 16 }
    ensures { result ≡ hex_digit digit }
{
    match digit {
        0..=9 => digit as u8 + b'0',
        _ => digit as u8 + (b'a' - 10),
    }
}

// Words, with a space before them where there are any.
fn add_spaced(bytes: &mut Vec<u8>, words: &[u8]) -> Result<(), AllocError>
    ensures { OnOk result (bytes.new.items ≡ bytes.old.items ++ spaced_words words.now) }
{
    if words.is_empty() {
        return Ok(());
    }
    bytes.push(b' ')?;
    bytes.extend_from_slice(words)
}
