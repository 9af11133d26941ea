// The default line of a map: what it is after a choice, and its write.
ghost use Rattle.std.specs.Prelude.{◌≡◌, ◌≤◌, ◌||◌, if◌then◌else◌, length, None, Some, IfSome};
ghost use Rattle.std.specs.Option.{option_copied};
ghost use Rattle.lilo_model.specs.Choice.{filled_text};
ghost use Rattle.lilo_model.specs.DefaultLine.{line_after};
ghost use Rattle.lilo_model.specs.LineSector.{is_same_line};
ghost use Rattle.lilo_model.specs.Table.{has_flag, lock_flag};
ghost use Rattle.sector_address.specs.View.{slot_view};
ghost use Rattle.sector_address.specs.Machine.{machine_of};
ghost use Rattle.bios_model.specs.Machine.{HasSector};
ghost use Rattle.boot_map.specs.View.{line_view};
ghost use Rattle.loader_core.specs.Report.{line_write};
ghost use Rattle.loader_core.specs.Leaves.{WritesLine};

use bios_model::{BiosFault, write_sector};
use boot_map::{DefaultLine, Descriptor, flags};
use disk_trait::{Disks, Phase};
use prompt_core::Picked;
use section_loader::Halt;
use sector_address::Slot;

/// The default line of a map, and the slot of its sector.
#[derive(Drop)]
pub(crate) struct LineAt {
    pub(crate) slot: Slot,
    pub(crate) line: DefaultLine,
}

/// What was chosen at the prompt, with its texts.
#[derive(Clone, Copy)]
pub(crate) struct Pick<'a> {
    pub(crate) picked: Picked,
    /// The words to pass on.
    pub(crate) words: &'a [u8],
    /// The line to lock on.
    pub(crate) lock_line: &'a [u8],
}

/// Whether a choice of an entry, with the word `lock` or without, is kept for later boots.
pub(crate) fn is_locked(entry: &Descriptor, lock: bool) -> bool
    ensures { result ≡ (has_flag entry.now.flags lock_flag || lock) }
{
    entry.flags & flags::LOCK != 0 || lock
}

/// The default line after a choice, with this line to lock on where it is locked, and with a fallback where that has a
/// byte.
pub(crate) fn new_line(
    line: &DefaultLine,
    is_locked: bool,
    lock_line: &[u8],
    fallback: &[u8],
) -> DefaultLine
    requires lock_line { length lock_line.now ≤ 470 }
    requires fallback { length fallback.now ≤ 470 }
    ensures { line_view result ≡ line_after (line_view line.now)
        (if is_locked then Some lock_line.now else None) (filled_text (Some fallback.now)) }
{
    line.after(locked_text(is_locked, lock_line), filled_text(fallback))
}

/// The line to lock on, where a choice is locked.
fn locked_text(is_locked: bool, text: &[u8]) -> Option<&[u8]>
    ensures { option_copied result ≡ (if is_locked then Some text.now else None) }
{
    if is_locked { Some(text) } else { None }
}

/// A text that has a byte.
fn filled_text(text: &[u8]) -> Option<&[u8]>
    ensures { option_copied result ≡ filled_text (Some text.now) }
{
    if text.is_empty() { None } else { Some(text) }
}

/// Makes the default line a new one: where it differs, its sector is written and made durable. The phase reports how
/// far that came.
pub(crate) fn write_line<D: Disks>(
    disks: &mut D,
    at: &LineAt,
    new: &DefaultLine,
    phase: &mut Phase,
) -> Result<(), Halt>
    requires slot { HasSector at.now.slot }
    requires begins { phase.old ≡ Phase.Before }
    ensures { WritesLine D.Disks disks.old disks.new (line_write (machine_of D.Disks disks.old)
        (slot_view at.now.slot) (line_view at.now.line) (line_view new.now)) result phase.new }
{
    if is_same_line(&at.line, new) {
        return Ok(());
    }
    let mut sector = [0; 512];
    new.write_into(&mut sector);
    match write_sector(disks, &at.slot, &sector) {
        Ok(()) => {
            *phase = Phase::After;
            Ok(())
        }
        // No sector is there to be written. It was read before, so this doesn't come.
        Err(BiosFault::NotFound) => Ok(()),
        Err(BiosFault::Timeout) => {
            *phase = Phase::Commit;
            Err(Halt::Device)
        }
        Err(BiosFault::KeysFault) => unreachable!(),
        Err(BiosFault::OutsideRam) => unreachable!(),
    }
}

/// Whether two default lines are the same.
#[tactic(auto, unfolding(lilo_model::specs::LineSector::is_same_line))]
fn is_same_line(line: &DefaultLine, other: &DefaultLine) -> bool
    ensures { result ≡ is_same_line (line_view line.now) (line_view other.now) }
{
    match (line, other) {
        (DefaultLine::Empty, DefaultLine::Empty) => true,
        (DefaultLine::Once(text), DefaultLine::Once(same))
        | (DefaultLine::Kept(text), DefaultLine::Kept(same)) => text.as_slice() == same.as_slice(),
        _ => false,
    }
}
