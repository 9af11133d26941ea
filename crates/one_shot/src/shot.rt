// The default line, set for one boot or cleared.
ghost use Rattle.std.specs.Prelude.{◌≡◌, ◌<◌, ◌≤◌, [], length, Err, IfOk};
ghost use Rattle.lilo_model.specs.Faults.{Rose};
ghost use Rattle.lilo_model.specs.BootSector.{boot_at};
ghost use Rattle.lilo_model.specs.DefaultLine.{Once, Empty};
ghost use Rattle.lilo_model.specs.LineSector.{line_bytes, line_capacity};
ghost use Rattle.lilo_model.specs.LineShots.{shot_line, shot_place, length_check, judged_boot};
ghost use Rattle.disk_trait.specs.Calls.{GoesOn, SameOf};
ghost use Rattle.sector_address.specs.Machine.{machine_of, OnDisks};
ghost use Rattle.sector_address.specs.View.{slot_view};
ghost use Rattle.bios_model.specs.Machine.{HasSector};
ghost use Rattle.boot_map.specs.View.{line_view};
ghost use Rattle.boot_map.specs.Ranges.{IsOneSector};
ghost use Rattle.mbr_table.specs.View.{span_view};
ghost use Rattle.one_shot.specs.Shot.{place_named, shot_by, Answers, Judges, Puts};

use arrayvec::ArrayVec;
use bios_model::{BiosFault, write_sector};
use boot_map::{BootSector, DefaultLine, MapFault};
use disk_trait::{Disks, Phase, Span};
use sector_address::Slot;
use sector_parts::Sector;

/// Why the default line isn't written.
#[derive(Clone, Copy, Debug, PartialEq, Eq)]
pub enum ShotFault {
    /// The line has so many bytes, or more than 32 bits can hold; at most 255 fit.
    LineTooLong(u32),
    /// The boot sector is of another system, or of another version.
    NotOurs,
    /// A field of the boot sector breaks the format.
    BadTable(u8),
    /// The slot of the line names no sector.
    NotFound,
    /// A disk failed: before the line's sector was written, or in the write or flush of it.
    Device(Phase),
}

/// Sets the default line for one boot.
///
/// # Errors
///
/// In this order: `NotOurs`, `LineTooLong`, `BadTable`, `NotFound`; nothing is written then. `Device` is for a disk
/// that failed: `Before` in the read of the boot sector, and nothing is written; `Commit` in the write or flush of the
/// line's sector, which was written then or wasn't.
pub fn set_line<D: Disks>(disks: &mut D, device: Span, words: &[u8]) -> Result<(), ShotFault>
    requires some { 1 ≤ length words.now }
    requires inside { device.start < D.size_of disks.old device.disk }
    ensures line { OnDisks D.Disks disks.old (λ now machine. Puts D.Disks disks.old disks.new
        (line_bytes (Once words.now)) (shot_place now machine (span_view device) words.now) result) }
    ensures before { result ≡ Err (ShotFault.Device Phase.Before) → SameOf D.Disks disks.old disks.new }
    ensures failed { (phase : _) → result ≡ Err (ShotFault.Device phase)
        → Rose (D.faults disks.old) (D.faults disks.new) }
    ensures goes_on { GoesOn D.Disks disks.old disks.new }
{
    shoot(disks, device, words)
}

/// Clears the default line.
///
/// # Errors
///
/// As of [`set_line`], but for `LineTooLong`.
pub fn clear_line<D: Disks>(disks: &mut D, device: Span) -> Result<(), ShotFault>
    requires { device.start < D.size_of disks.old device.disk }
    ensures line { OnDisks D.Disks disks.old (λ now machine. Puts D.Disks disks.old disks.new
        (line_bytes Empty) (shot_place now machine (span_view device) []) result) }
    ensures before { result ≡ Err (ShotFault.Device Phase.Before) → SameOf D.Disks disks.old disks.new }
    ensures failed { (phase : _) → result ≡ Err (ShotFault.Device phase)
        → Rose (D.faults disks.old) (D.faults disks.new) }
    ensures goes_on { GoesOn D.Disks disks.old disks.new }
{
    shoot(disks, device, &[])
}

// Writes the line that a text makes, by the boot sector of a device.
fn shoot<D: Disks>(disks: &mut D, device: Span, text: &[u8]) -> Result<(), ShotFault>
    requires { device.start < D.size_of disks.old device.disk }
    ensures line { OnDisks D.Disks disks.old (λ now machine. Puts D.Disks disks.old disks.new
        (line_bytes (shot_line text.now)) (shot_place now machine (span_view device) text.now) result) }
    ensures before { result ≡ Err (ShotFault.Device Phase.Before) → SameOf D.Disks disks.old disks.new }
    ensures failed { (phase : _) → result ≡ Err (ShotFault.Device phase)
        → Rose (D.faults disks.old) (D.faults disks.new) }
    ensures goes_on { GoesOn D.Disks disks.old disks.new }
{
    let mut sector = [0; 512];
    match disks.read(device.disk, device.start, &mut sector) {
        Ok(()) => shoot_by(disks, &sector, text),
        Err(_) => Err(ShotFault::Device(Phase::Before)),
    }
}

// Writes the line that a text makes, by a boot sector that was read.
fn shoot_by<D: Disks>(disks: &mut D, sector: &Sector, text: &[u8]) -> Result<(), ShotFault>
    ensures puts { Puts D.Disks disks.old disks.new (line_bytes (shot_line text.now))
        (shot_by (machine_of D.Disks disks.old) sector.now text.now) result }
    ensures no_read { result ≡ Err (ShotFault.Device Phase.Before) → ⊥ }
    ensures failed { (phase : _) → result ≡ Err (ShotFault.Device phase)
        → Rose (D.faults disks.old) (D.faults disks.new) }
    ensures goes_on { GoesOn D.Disks disks.old disks.new }
{
    let boot = judge(sector, text)?;
    let mut line = [0; 512];
    shot_line(text).write_into(&mut line);
    write_line(disks, &boot.line, &line)
}

// The boot sector in a sector, unless that or the text is refused.
fn judge(sector: &Sector, text: &[u8]) -> Result<BootSector, ShotFault>
    ensures judged { Judges result (judged_boot text.now (boot_at sector.now)) }
    ensures fits { IfOk result (λ boot. length text.now ≤ line_capacity) }
    ensures slot { IfOk result (λ boot. IsOneSector boot.line) }
    ensures no_device { (phase : _) → result ≡ Err (ShotFault.Device phase) → ⊥ }
{
    match BootSector::read(sector) {
        Ok(boot) => {
            check_length(text)?;
            Ok(boot)
        }
        Err(MapFault::BadTable(entry)) => {
            check_length(text)?;
            Err(ShotFault::BadTable(entry))
        }
        Err(MapFault::NotOurs | MapFault::BadVersion(_) | MapFault::BadLine) => {
            Err(ShotFault::NotOurs)
        }
    }
}

// Refuses a text that no line has room for.
fn check_length(text: &[u8]) -> Result<(), ShotFault>
    ensures checked { Answers result (length_check text.now) }
    ensures fits { IfOk result (λ done. length text.now ≤ line_capacity) }
    ensures no_device { (phase : _) → result ≡ Err (ShotFault.Device phase) → ⊥ }
{
    if text.len() <= 255 {
        return Ok(());
    }
    Err(ShotFault::LineTooLong(text.len().min(0xFFFF_FFFF) as u32))
}

// The line that a text makes: one for one boot, or none.
fn shot_line(text: &[u8]) -> DefaultLine
    requires { length text.now ≤ line_capacity }
    ensures { line_view result ≡ shot_line text.now }
{
    match text {
        [] => DefaultLine::Empty,
        _ => DefaultLine::Once(line_of(text)),
    }
}

// The bytes of a line.
fn line_of(text: &[u8]) -> ArrayVec<u8, 470>
    requires { length text.now ≤ line_capacity }
    ensures { result.items ≡ text.now }
{
    let mut line = ArrayVec::new();
    let _ = line.try_extend_from_slice(text);
    line
}

// Writes the sector of the line and makes it durable.
fn write_line<D: Disks>(disks: &mut D, slot: &Slot, from: &Sector) -> Result<(), ShotFault>
    requires { HasSector slot.now }
    ensures puts { Puts D.Disks disks.old disks.new from.now
        (place_named (machine_of D.Disks disks.old) (slot_view slot.now)) result }
    ensures no_read { result ≡ Err (ShotFault.Device Phase.Before) → ⊥ }
    ensures failed { (phase : _) → result ≡ Err (ShotFault.Device phase)
        → Rose (D.faults disks.old) (D.faults disks.new) }
    ensures goes_on { GoesOn D.Disks disks.old disks.new }
{
    match write_sector(disks, slot, from) {
        Ok(()) => Ok(()),
        Err(BiosFault::NotFound) => Err(ShotFault::NotFound),
        Err(BiosFault::Timeout) => Err(ShotFault::Device(Phase::Commit)),
        Err(BiosFault::KeysFault) => unreachable!(),
        Err(BiosFault::OutsideRam) => unreachable!(),
    }
}
