// The line of a path that is refused.
ghost use Rattle.std.specs.Prelude.{◌≡◌};
ghost use Rattle.stream_trait.specs.Shows.{Shows, sink_of};
ghost use Rattle.install_run.specs.Texts.{path_text};

use crate::text::show_line;
use minix_tree::TreeFault;
use stream_trait::{Shown, Sink};

/// Shows why a path of a file that an installation makes is refused.
pub(crate) fn show_path<O: Sink>(path: &[u8], fault: &TreeFault, out: &mut Shown<'_, O>)
    ensures shown { Shows (sink_of O.Sink out.old) (path_text path.now fault.now) (sink_of O.Sink out.new) }
    ensures same_reference { out.new.out.ghost_name ≡ out.old.out.ghost_name }
{
    match fault {
        TreeFault::NotFound(_) => show_line(b"volume: missing ", path, out),
        TreeFault::NotFile => out.put(b"volume: not a file\n"),
        TreeFault::Zone(_) => out.put(b"volume: layout\n"),
        TreeFault::NotDirectory(_)
        | TreeFault::TooManyLinks
        | TreeFault::BadEntry(_)
        | TreeFault::PathTooLong
        | TreeFault::Memory => show_line(b"volume: path ", path, out),
    }
}
