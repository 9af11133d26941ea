// The prompt, asked over a BIOS.
ghost use Rattle.std.specs.Prelude.{◌≡◌, [], IfSome};
ghost use Rattle.bios_model.specs.Reads.{ReadsAndShows};
ghost use Rattle.sector_address.specs.Machine.{OnDisks};
ghost use Rattle.prompt_core.specs.Run.{driven, run_of};
ghost use Rattle.stream_trait.specs.Shows.{sink_of};
ghost use Rattle.prompt_loop.specs.Asking.{Asks, ComesBy, ComesInSilence, IsDiskStop, IsKeysStop};
ghost use Rattle.prompt_loop.specs.Message.{message_rest};
ghost use Rattle.prompt_loop.specs.Tale.{tale_of};

use crate::message::Message;
use crate::reply::{feed_key, show_reply};
use bios_model::{Bios, Key};
use disk_trait::Disks;
use prompt_core::Prompt;
use section_loader::Halt;
use stream_trait::{Shown, Sink, Source};

/// Why asking ended before the prompt did.
#[derive(Clone, Copy, Debug, PartialEq, Eq)]
pub enum Stop {
    /// The source of keys failed.
    Keys,
    /// A disk failed, or the message is refused.
    Halt(Halt),
}

impl From<Halt> for Stop {
    ghost use Rattle.std.specs.Prelude.{◌≡◌};
    ghost use Rattle.prompt_loop.specs.declared.asking.Stop.{Stop};

    ghost from_gives = { λ given stop. stop ≡ Stop.Halt given };

    fn from(halt: Halt) -> Stop {
        Stop::Halt(halt)
    }
}

/// Begins a prompt, and takes keys for it until something is chosen or the keys end. What it answers is shown, with the
/// message directly before the first `boot: `, and where the names are listed with these directly before the last one.
///
/// No key is taken once the prompt is done, or the message refused.
pub fn ask<D: Disks, I: Source, O: Sink>(
    bios: &mut Bios<'_, D, I>,
    prompt: &mut Prompt,
    message: &Option<Message>,
    out: &mut Shown<'_, O>,
) -> Result<(), Stop>
    requires { IfSome message.now (λ message. message.first.count ≡ 1) }
    ensures asked { OnDisks D.Disks bios.old.disks.now (λ now machine.
        ComesBy I.Source result (λ keys. tale_of (message_rest now machine message.now) (run_of prompt.old.setup keys))
        prompt.new.state (bios.old.keys.now, bios.new.keys.now) (sink_of O.Sink out.old) (sink_of O.Sink out.new)) }
    ensures setup { prompt.new.setup ≡ prompt.old.setup }
    ensures only { Asks D.Disks I.Source O.Sink (bios.old, out.old) (bios.new, out.new)
        (IsDiskStop result) (IsKeysStop result) }
{
    let reply = prompt.start();
    match show_reply(bios.disks, prompt, message, &reply, out) {
        Ok(()) => hear(bios, prompt, message, out),
        Err(halt) => Err(Stop::Halt(halt)),
    }
}

/// Takes keys for a prompt that was begun.
fn hear<D: Disks, I: Source, O: Sink>(
    bios: &mut Bios<'_, D, I>,
    prompt: &mut Prompt,
    message: &Option<Message>,
    out: &mut Shown<'_, O>,
) -> Result<(), Stop>
    requires { IfSome message.now (λ message. message.first.count ≡ 1) }
    ensures heard { OnDisks D.Disks bios.old.disks.now (λ now machine.
        ComesBy I.Source result
        (λ keys. tale_of (message_rest now machine message.now) (driven prompt.old.setup keys prompt.old.state))
        prompt.new.state (bios.old.keys.now, bios.new.keys.now) (sink_of O.Sink out.old) (sink_of O.Sink out.new)) }
    ensures setup { prompt.new.setup ≡ prompt.old.setup }
    ensures only { Asks D.Disks I.Source O.Sink (bios.old, out.old) (bios.new, out.new)
        (IsDiskStop result) (IsKeysStop result) }
{
    while !prompt.is_done() {
        let Ok(key) = bios.key() else {
            return Err(Stop::Keys);
        };
        if let Key::Silence = key {
            return hear_silence(bios.disks, prompt, message, out);
        }
        if let Err(halt) = feed_key(bios.disks, prompt, message, key, out) {
            return Err(Stop::Halt(halt));
        }
    }
    Ok(())
}

/// Lets a prompt know that no key comes any more, until it is done.
fn hear_silence<D: Disks, O: Sink>(
    disks: &mut D,
    prompt: &mut Prompt,
    message: &Option<Message>,
    out: &mut Shown<'_, O>,
) -> Result<(), Stop>
    requires { IfSome message.now (λ message. message.first.count ≡ 1) }
    ensures heard { OnDisks D.Disks disks.old (λ now machine.
        ComesInSilence result
        (tale_of (message_rest now machine message.now) (driven prompt.old.setup [] prompt.old.state))
        prompt.new.state (sink_of O.Sink out.old) (sink_of O.Sink out.new)) }
    ensures setup { prompt.new.setup ≡ prompt.old.setup }
    ensures only { ReadsAndShows D.Disks O.Sink (disks.old, out.old) (disks.new, out.new) (IsDiskStop result) }
    ensures heard_none { IsKeysStop result → ⊥ }
{
    while !prompt.is_done() {
        if let Err(halt) = feed_key(disks, prompt, message, Key::Silence, out) {
            return Err(Stop::Halt(halt));
        }
    }
    Ok(())
}
