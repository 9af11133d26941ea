// What the prompt answers, shown with the message and the names.
ghost use Rattle.std.specs.Prelude.{◌≡◌, ◌≤◌, ◌++◌, IfSome, IsErrOf, length};
ghost use Rattle.lilo_model.specs.Choice.{listing, newline};
ghost use Rattle.bios_model.specs.Reads.{ReadsAndShows};
ghost use Rattle.sector_address.specs.Machine.{OnDisks};
ghost use Rattle.prompt_core.specs.Run.{listed};
ghost use Rattle.prompt_core.specs.Steps.{key_step};
ghost use Rattle.prompt_core.specs.View.{entries_view, said_of};
ghost use Rattle.stream_trait.specs.Shows.{Shows, sink_of};
ghost use Rattle.prompt_loop.specs.Message.{message_rest};
ghost use Rattle.prompt_loop.specs.Tale.{Says};

use crate::message::{Message, show_opening};
use arrayvec::ArrayVec;
use disk_trait::Disks;
use prompt_core::{Answer, Choice, Key, Prompt, Reply};
use section_loader::Halt;
use stream_trait::{Shown, Sink};

/// Feeds the prompt a key, and shows what it answers.
pub(crate) fn feed_key<D: Disks, O: Sink>(
    disks: &mut D,
    prompt: &mut Prompt,
    message: &Option<Message>,
    key: Key,
    out: &mut Shown<'_, O>,
) -> Result<(), Halt>
    requires { IfSome message.now (λ message. message.first.count ≡ 1) }
    ensures says { OnDisks D.Disks disks.old (λ now machine.
        Says result (message_rest now machine message.now) prompt.old.setup.entries
        (key_step prompt.old.setup prompt.old.state key).said (sink_of O.Sink out.old) (sink_of O.Sink out.new)) }
    ensures state { prompt.new.state ≡ (key_step prompt.old.setup prompt.old.state key).state }
    ensures setup { prompt.new.setup ≡ prompt.old.setup }
    ensures only { ReadsAndShows D.Disks O.Sink (disks.old, out.old) (disks.new, out.new) (IsErrOf result Halt.Device) }
{
    let reply = prompt.feed(key);
    show_reply(disks, prompt, message, &reply, out)
}

/// Shows what the prompt answers: the message directly before the first `boot: ` where it opens, and the names directly
/// before the last one where they are listed.
pub(crate) fn show_reply<D: Disks, O: Sink>(
    disks: &mut D,
    prompt: &Prompt,
    message: &Option<Message>,
    reply: &Reply,
    out: &mut Shown<'_, O>,
) -> Result<(), Halt>
    requires { IfSome message.now (λ message. message.first.count ≡ 1) }
    ensures says { OnDisks D.Disks disks.old (λ now machine.
        Says result (message_rest now machine message.now) prompt.now.setup.entries (said_of reply.now)
        (sink_of O.Sink out.old) (sink_of O.Sink out.new)) }
    ensures only { ReadsAndShows D.Disks O.Sink (disks.old, out.old) (disks.new, out.new) (IsErrOf result Halt.Device) }
{
    let parts = reply.parts();
    out.put(parts.before);
    show_opening(disks, reply.opened, message, out)?;
    out.put(parts.middle);
    show_listed(prompt.choices(), reply.answer, out);
    out.put(parts.rest);
    Ok(())
}

/// Shows the names where they are listed.
fn show_listed<O: Sink>(choices: &[Choice], answer: Answer, out: &mut Shown<'_, O>)
    ensures shown { Shows (sink_of O.Sink out.old) (listed (entries_view choices.now) answer) (sink_of O.Sink out.new) }
    ensures same_reference { out.new.out.ghost_name ≡ out.old.out.ghost_name }
{
    if let Answer::List = answer {
        show_names(choices, out);
    }
}

/// Shows the names, a line each.
fn show_names<O: Sink>(choices: &[Choice], out: &mut Shown<'_, O>)
    ensures shown { Shows (sink_of O.Sink out.old) (listing (entries_view choices.now)) (sink_of O.Sink out.new) }
    ensures same_reference { out.new.out.ghost_name ≡ out.old.out.ghost_name }
{
    for choice in choices {
        out.put(name_line(choice.name.as_slice()).as_slice());
    }
}

/// The line of a name.
fn name_line(name: &[u8]) -> ArrayVec<u8, 16>
    requires { length name.now ≤ 15 }
    ensures { result.items ≡ name.now ++ newline }
{
    let mut line = ArrayVec::new();
    let _ = line.try_extend_from_slice(name);
    line.push(b'\n');
    line
}
