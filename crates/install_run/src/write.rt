// The line of a file for which there is no room.
ghost use Rattle.std.specs.Prelude.{◌≡◌, ◌++◌, codes, decimal};
ghost use Rattle.stream_trait.specs.Shows.{Shows, sink_of};
ghost use Rattle.install_run.specs.Texts.{write_text};

use crate::text::{show_number, show_numbered};
use minix_choice::WriteFault;
use stream_trait::{Shown, Sink};

// Shows how many zones are needed, and how many are free.
fn show_space<O: Sink>(need: u32, found: u32, out: &mut Shown<'_, O>)
    ensures shown { Shows (sink_of O.Sink out.old)
        (codes "space: need " ++ decimal need ++ codes ", found " ++ decimal found ++ codes "\n")
        (sink_of O.Sink out.new) }
    ensures same_reference { out.new.out.ghost_name ≡ out.old.out.ghost_name }
{
    show_numbered(b"space: need ", u64::from(need), b", found ", out);
    show_number(u64::from(found), out);
    out.put(b"\n");
}

/// Shows why a file can't be made, or renamed.
pub(crate) fn show_write<O: Sink>(fault: &WriteFault, out: &mut Shown<'_, O>)
    ensures shown { Shows (sink_of O.Sink out.old) (write_text fault.now) (sink_of O.Sink out.new) }
    ensures same_reference { out.new.out.ghost_name ≡ out.old.out.ghost_name }
{
    match fault {
        WriteFault::NoSpace { need, found } => show_space(*need, *found, out),
        WriteFault::NoInode => out.put(b"space: no inode\n"),
        WriteFault::NameTooLong => out.put(b"space: name\n"),
        WriteFault::Links => out.put(b"space: links\n"),
        WriteFault::Exists | WriteFault::Tree(_) => out.put(b"space: \n"),
        WriteFault::Device => out.put(b"device\n"),
        WriteFault::Memory => out.put(b"memory\n"),
    }
}
