// The message, which is shown where the prompt opens.
ghost use Rattle.std.specs.Prelude.{◌≡◌, IfSome, IsErrOf};
ghost use Rattle.bios_model.specs.Reads.{ReadsAndShows};
ghost use Rattle.sector_address.specs.Machine.{OnDisks};
ghost use Rattle.section_loader.specs.File.{IsCounted, rest_in};
ghost use Rattle.stream_trait.specs.Shows.{sink_of};
ghost use Rattle.prompt_loop.specs.Message.{ShowsFile, message_rest, file_of, opening_rest};

use disk_trait::Disks;
use section_loader::{FileReader, Halt};
use sector_address::Slot;
use stream_trait::{Shown, Sink};

/// A file of a map whose bytes are shown.
#[derive(Clone, Copy, Debug, PartialEq, Eq)]
pub struct Message {
    /// The slot of its first section sector.
    pub first: Slot,
    /// Its bytes.
    pub length: u32,
    /// The most section sectors.
    pub chain: u16,
}

/// Shows the message where the prompt opens.
pub(crate) fn show_opening<D: Disks, O: Sink>(
    disks: &mut D,
    opened: bool,
    message: &Option<Message>,
    out: &mut Shown<'_, O>,
) -> Result<(), Halt>
    requires { IfSome message.now (λ message. message.first.count ≡ 1) }
    ensures shown { OnDisks D.Disks disks.old (λ now machine.
        ShowsFile result (opening_rest opened (message_rest now machine message.now))
        (sink_of O.Sink out.old) (sink_of O.Sink out.new)) }
    ensures only { ReadsAndShows D.Disks O.Sink (disks.old, out.old) (disks.new, out.new) (IsErrOf result Halt.Device) }
{
    match message {
        Some(message) if opened => show_message(disks, message, out),
        _ => Ok(()),
    }
}

/// Shows the bytes of a message.
fn show_message<D: Disks, O: Sink>(
    disks: &mut D,
    message: &Message,
    out: &mut Shown<'_, O>,
) -> Result<(), Halt>
    requires { message.now.first.count ≡ 1 }
    ensures shown { OnDisks D.Disks disks.old (λ now machine.
        ShowsFile result (file_of now machine message.now) (sink_of O.Sink out.old) (sink_of O.Sink out.new)) }
    ensures only { ReadsAndShows D.Disks O.Sink (disks.old, out.old) (disks.new, out.new) (IsErrOf result Halt.Device) }
{
    let mut file = FileReader::new(&message.first, message.length, message.chain);
    show_bytes(&mut file, disks, out)
}

/// Shows what is left of a file, a sector at a time.
fn show_bytes<D: Disks, O: Sink>(
    file: &mut FileReader,
    disks: &mut D,
    out: &mut Shown<'_, O>,
) -> Result<(), Halt>
    requires { IsCounted file.old }
    ensures shown { OnDisks D.Disks disks.old (λ now machine.
        ShowsFile result (rest_in now machine file.old) (sink_of O.Sink out.old) (sink_of O.Sink out.new)) }
    ensures only { ReadsAndShows D.Disks O.Sink (disks.old, out.old) (disks.new, out.new) (IsErrOf result Halt.Device) }
{
    let mut sector = [0; 512];
    loop {
        let size = file.next(disks, &mut sector)?;
        if size == 0 {
            return Ok(());
        }
        out.put(&sector[..size]);
    }
}
