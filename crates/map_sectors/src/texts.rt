// The sectors of a section's texts.
ghost use Rattle.std.specs.Prelude.{◌≡◌, ◌≤◌, length, unwrap_or, []};
ghost use Rattle.lilo_model.specs.ConfLawful.{IsLawfulSection};
ghost use Rattle.lilo_model.specs.Options.{options_bytes, extra_bytes};
ghost use Rattle.lilo_model.specs.Plan.{extra_of};
ghost use Rattle.lilo_conf.specs.View.{section_view};

use arrayvec::ArrayVec;
use boot_map::{Extra, Options};
use conf_text::Text;
use lilo_conf::Section;
use sector_parts::Sector;

// Writes the options sector of a section, by the middle of its command line.
pub(crate) fn write_options(middle: &[u8], into: &mut Sector)
    ensures { length middle.now ≤ 500 → into.new ≡ options_bytes middle.now }
{
    let middle = copy_of(middle);
    Options { middle }.write_into(into);
}

// Writes the extra sector of a section, with its fallback and its password.
pub(crate) fn write_extra(section: &Section, into: &mut Sector)
    ensures { IsLawfulSection (section_view section.now)
        → into.new ≡ extra_bytes (extra_of (section_view section.now)) }
{
    let fallback = copy_of(text_of(&section.fallback));
    let password = copy_of(text_of(&section.password));
    Extra { fallback, password }.write_into(into);
}

// A text, an empty one where there is none.
fn text_of(text: &Option<Text>) -> &[u8]
    ensures { result.now ≡ unwrap_or text.now [] }
{
    match text {
        Some(text) => text.bytes(),
        None => &[],
    }
}

// A copy of bytes that fit, empty where they don't.
pub(crate) fn copy_of<const N: usize>(bytes: &[u8]) -> ArrayVec<u8, N>
    ensures { length bytes.now ≤ N → result.items ≡ bytes.now }
{
    let mut copy = ArrayVec::new();
    let _ = copy.try_extend_from_slice(bytes);
    copy
}
