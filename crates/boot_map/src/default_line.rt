ghost use Rattle.std.specs.Prelude.{◌≡◌, ◌≤◌, true, length, Ok, IfOk, IfSome};
ghost use Rattle.std.specs.Option.{option_copied};
ghost use Rattle.lilo_model.specs.Checks.{seen};
ghost use Rattle.lilo_model.specs.DefaultLine.{line_text, line_after, line_after_use};
ghost use Rattle.lilo_model.specs.LineSector.{is_line, line_of, line_at, line_bytes, state_number};
ghost use Rattle.boot_map.specs.View.{line_view, map_fault_view};
ghost use Rattle.boot_map.specs.Ranges.{IsLine};

use crate::map_fault::MapFault;
use crate::text::copy_of;
use arrayvec::ArrayVec;
use sector_parts::{Sector, part, put_name, put_part, put_u16, u16_at};

/// The default line: what an installation chooses without keys.
#[derive(Clone, Debug, PartialEq, Eq, Drop)]
pub enum DefaultLine {
    /// There is no line.
    Empty,
    /// A line for one boot, 1 to 255 bytes.
    Once(ArrayVec<u8, 470>),
    /// A line for each boot, 1 to 255 bytes.
    Kept(ArrayVec<u8, 470>),
}

impl DefaultLine {
    /// Reads the sector of the default line. `BadLine` is for one that doesn't begin with `LINE`, for a
    /// state or a length out of its range, for a text where there is no line, and for a line without one.
    #[tactic(auto, unfolding(lilo_model::specs::LineSector::line_at))]
    pub fn read(sector: &Sector) -> Result<DefaultLine, MapFault>
        ensures read { seen line_view map_fault_view result ≡ line_at sector.now }
        ensures text { IfOk result IsLine }
    {
        if !is_line(sector) {
            return Err(MapFault::BadLine);
        }
        Ok(line_of(sector))
    }

    /// Writes the sector of the default line.
    #[tactic(auto, unfolding(lilo_model::specs::LineSector::line_bytes))]
    pub fn write_into(&self, sector: &mut Sector)
        ensures bytes { sector.new ≡ line_bytes (line_view self.now) }
        ensures again { IsLine self.now → line_at sector.new ≡ Ok (line_view self.now) }
    {
        let text = self.text();
        put_part(sector, 0, b"LINE");
        put_u16(sector, 4, self.state());
        put_u16(sector, 6, text.len() as u16);
        put_name(sector, 8, 504, text);
    }

    /// The line after a boot: the line to lock on is kept, or else the fallback is, or else a line for one boot has
    /// served and is gone.
    pub fn after(&self, lock: Option<&[u8]>, fallback: Option<&[u8]>) -> DefaultLine
        requires lock { IfSome (option_copied lock) (λ text. length text ≤ 470) }
        requires fallback { IfSome (option_copied fallback) (λ text. length text ≤ 470) }
        ensures { line_view result
            ≡ line_after (line_view self.now) (option_copied lock.entry) (option_copied fallback.entry) }
    {
        match (lock, fallback) {
            (Some(text), _) | (None, Some(text)) => DefaultLine::Kept(copy_of(text)),
            (None, None) => self.after_use(),
        }
    }

    // The line once it has served a boot.
    fn after_use(&self) -> DefaultLine
        ensures { line_view result ≡ line_after_use (line_view self.now) }
    {
        match self {
            DefaultLine::Empty | DefaultLine::Once(_) => DefaultLine::Empty,
            DefaultLine::Kept(text) => DefaultLine::Kept(copy_of(text)),
        }
    }

    // The number of the state.
    fn state(&self) -> u16
        ensures { result ≡ state_number (line_view self.now) }
    {
        match self {
            DefaultLine::Empty => 0,
            DefaultLine::Once(_) => 1,
            DefaultLine::Kept(_) => 2,
        }
    }

    // The text, empty where there is no line.
    fn text(&self) -> &[u8]
        ensures text { result.now ≡ line_text (line_view self.now) }
        ensures fits { length result.now ≤ 470 }
    {
        match self {
            DefaultLine::Empty => &[],
            DefaultLine::Once(text) | DefaultLine::Kept(text) => text,
        }
    }
}

// Whether the sector begins as one of a line, its state and length are in their ranges, and there is a
// text exactly where there is a line.
#[tactic(auto, unfolding(lilo_model::specs::LineSector::is_line))]
fn is_line(sector: &Sector) -> bool
    ensures { result ≡ is_line sector.now }
{
    let state = u16_at(sector, 4);
    let length = u16_at(sector, 6);
    part(sector, 0, 4) == b"LINE".as_slice()
        && state <= 2
        && length <= 255
        && (state == 0) == (length == 0)
}

// The line in a sector that has one.
#[tactic(auto, unfolding(lilo_model::specs::LineSector::is_line, lilo_model::specs::LineSector::line_of))]
fn line_of(sector: &Sector) -> DefaultLine
    requires { is_line sector.now ≡ true }
    ensures value { line_view result ≡ line_of sector.now }
    ensures text { IsLine result }
{
    let text = copy_of(part(sector, 8, usize::from(u16_at(sector, 6))));
    match u16_at(sector, 4) {
        0 => DefaultLine::Empty,
        1 => DefaultLine::Once(text),
        _ => DefaultLine::Kept(text),
    }
}
