// Why a command ends before its work is done, with its status and text.
ghost use Rattle.std.specs.Prelude.{◌≡◌, ◌≤◌, ◌⊎◌, ◌++◌, length, codes, decimal, IsTrue};
ghost use Rattle.lilo_model.specs.Refusal.{refusal_line};
ghost use Rattle.stream_trait.specs.Shows.{Shows, sink_of};
ghost use Rattle.section_loader.specs.View.{reason_view};
ghost use Rattle.setup_header.specs.View.{setup_fault_view};
ghost use Rattle.lilo_model.specs.Reason.{setup_text};
ghost use Rattle.lilo_run.specs.Refusal.{place_fault_view, halt_verdict, reason_verdict, too_long};
ghost use Rattle.lilo_run.specs.Run.{is_plain_status};

use arrayvec::ArrayVec;
use itoa::Buffer;
use loader_core::{Reason, Shown};
use setup_header::SetupFault;
use stream_trait::Sink;

/// Why a device isn't found.
#[derive(Clone, Copy, Debug, PartialEq, Eq)]
pub enum PlaceFault {
    /// The disk isn't there, or has no sector.
    NoDisk,
    /// The disk has no partition of this number.
    NoPartition,
    /// The disk's partition tables are refused.
    BadTable,
}

/// Why a command ends before its work is done.
#[derive(Clone, Copy, Debug, PartialEq, Eq)]
pub enum Halt {
    /// A disk failed.
    Device,
    /// The device isn't found.
    NoPlace(PlaceFault),
    /// The boot sector isn't of this format, or of another version.
    NotOurs,
    /// A boot is refused, or the map is.
    Boot(Reason),
}

/// A line of text.
pub(crate) type Line = ArrayVec<u8, 128>;

/// Shows the line that reports why a command ended, and gives its status.
pub fn say<O: Sink>(out: &mut Shown<'_, O>, halt: Halt) -> u8
    ensures status { result ≡ (halt_verdict halt).status }
    ensures known { IsTrue (is_plain_status result) }
    ensures some { 1 ≤ result }
    ensures device { result ≡ 8 → halt ≡ Halt.Device }
    ensures shown { Shows (sink_of O.Sink out.old) (halt_verdict halt).text (sink_of O.Sink out.new) }
    ensures same_reference { out.new.out.ghost_name ≡ out.old.out.ghost_name }
{
    out.put(halt.line().as_slice());
    halt.status()
}

impl Halt {
    // The exit status.
    fn status(self) -> u8
        ensures status { result ≡ (halt_verdict self).status }
        ensures known { IsTrue (is_plain_status result) }
        ensures some { 1 ≤ result }
        ensures device { result ≡ 8 → self ≡ Halt.Device }
    {
        match self {
            Halt::Device => 8,
            Halt::NoPlace(_) => 3,
            Halt::NotOurs => 6,
            Halt::Boot(reason) => reason_status(reason),
        }
    }

    // The line that reports it, with its newline.
    #[tactic(auto, unfolding(lilo_model::specs::Refusal::refusal_line))]
    fn line(self) -> Line
        ensures { result.items ≡ (halt_verdict self).text }
    {
        match self {
            Halt::Device => line(b"lilo: device\n"),
            Halt::NoPlace(PlaceFault::NoDisk) => line(b"lilo: volume: no disk\n"),
            Halt::NoPlace(PlaceFault::NoPartition) => line(b"lilo: volume: no partition\n"),
            Halt::NoPlace(PlaceFault::BadTable) => line(b"lilo: volume: table\n"),
            Halt::NotOurs => line(b"lilo: not ours\n"),
            Halt::Boot(reason) => reason_line(reason),
        }
    }
}

fn reason_status(reason: Reason) -> u8
    ensures status { result ≡ (reason_verdict (reason_view reason)).status }
    ensures known { result ≡ 7 }
{
    match reason {
        Reason::NotBootable
        | Reason::BadTable(_)
        | Reason::BadLine
        | Reason::BadSlot(_)
        | Reason::ChainTooLong(_)
        | Reason::ShortChain(_)
        | Reason::NotFound
        | Reason::Header(_)
        | Reason::Idle => 7,
    }
}

#[tactic(auto, unfolding(lilo_model::specs::Refusal::refusal_line, lilo_model::specs::Reason::reason_text))]
fn reason_line(reason: Reason) -> Line
    ensures { result.items ≡ (reason_verdict (reason_view reason)).text }
{
    match reason {
        Reason::NotBootable => line(b"lilo: boot: not bootable\n"),
        Reason::BadTable(entry) => numbered_line(b"lilo: boot: bad table ", u64::from(entry)),
        Reason::BadLine => line(b"lilo: boot: bad line\n"),
        Reason::BadSlot(place) => numbered_line(b"lilo: boot: bad slot ", u64::from(place)),
        Reason::ChainTooLong(chain) => {
            numbered_line(b"lilo: boot: chain too long ", u64::from(chain))
        }
        Reason::ShortChain(sectors) => {
            numbered_line(b"lilo: boot: short chain ", u64::from(sectors))
        }
        Reason::NotFound => line(b"lilo: boot: not found\n"),
        Reason::Header(fault) => setup_line(fault),
        Reason::Idle => line(b"lilo: boot: idle\n"),
    }
}

// The line of a kernel that is refused.
fn setup_line(fault: SetupFault) -> Line
    ensures { result.items ≡ codes "lilo: boot: " ++ setup_text (setup_fault_view fault) ++ codes "\n" }
{
    match fault {
        SetupFault::NoRoom { need, have } => room_line(need, have),
        SetupFault::LineTooLong(size) => {
            numbered_line(b"lilo: boot: line too long ", u64::from(size))
        }
        SetupFault::TooShort
        | SetupFault::NoBootFlag
        | SetupFault::SetupTooLarge(_)
        | SetupFault::LowTooLarge(_)
        | SetupFault::NoInitrd => line(b"lilo: boot: header\n"),
    }
}

// The line with this text.
fn line(text: &[u8]) -> Line
    requires { length text.now ≤ 64 }
    ensures { result.items ≡ text.now }
{
    let mut line = Line::new();
    let _ = line.try_extend_from_slice(text);
    line
}

// The line of a text and a number.
fn numbered_line(text: &[u8], number: u64) -> Line
    requires { length text.now ≤ 64 }
    ensures { result.items ≡ text.now ++ decimal number ++ codes "\n" }
{
    let mut line = line(text);
    let mut digits = Buffer::new();
    let _ = line.try_extend_from_slice(digits.format(number).as_bytes());
    line.push(b'\n');
    line
}

/// The line of a default line of so many bytes, which are too many.
pub(crate) fn long_line(size: u32) -> Line
    ensures { result.items ≡ (too_long size).text }
{
    let mut line = line(b"lilo: address: line ");
    let mut digits = Buffer::new();
    let _ = line.try_extend_from_slice(digits.format(size).as_bytes());
    let _ = line.try_extend_from_slice(b" over 255\n");
    line
}

// The line of a kernel for which memory has no room.
fn room_line(need: u64, have: u64) -> Line
    ensures { result.items
        ≡ codes "lilo: boot: no room: need " ++ decimal need ++ codes ", have " ++ decimal have ++ codes "\n" }
{
    let mut line = line(b"lilo: boot: no room: need ");
    let mut digits = Buffer::new();
    let _ = line.try_extend_from_slice(digits.format(need).as_bytes());
    let _ = line.try_extend_from_slice(b", have ");
    let _ = line.try_extend_from_slice(digits.format(have).as_bytes());
    line.push(b'\n');
    line
}
