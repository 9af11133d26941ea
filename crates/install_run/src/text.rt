// Parts of lines.
ghost use Rattle.std.specs.Prelude.{◌≡◌, ◌++◌, codes, decimal};
ghost use Rattle.stream_trait.specs.Shows.{Shows, sink_of};

use itoa::Buffer;
use stream_trait::{Shown, Sink};

/// Shows a number.
pub(crate) fn show_number<O: Sink>(number: u64, out: &mut Shown<'_, O>)
    ensures shown { Shows (sink_of O.Sink out.old) (decimal number) (sink_of O.Sink out.new) }
    ensures same_reference { out.new.out.ghost_name ≡ out.old.out.ghost_name }
{
    let mut digits = Buffer::new();
    out.put(digits.format(number).as_bytes());
}

/// Shows a text and another one, and ends the line.
pub(crate) fn show_line<O: Sink>(text: &[u8], end: &[u8], out: &mut Shown<'_, O>)
    ensures shown { Shows (sink_of O.Sink out.old) (text.now ++ end.now ++ codes "\n") (sink_of O.Sink out.new) }
    ensures same_reference { out.new.out.ghost_name ≡ out.old.out.ghost_name }
{
    out.put(text);
    out.put(end);
    out.put(b"\n");
}

/// Shows a number between two texts.
pub(crate) fn show_numbered<O: Sink>(text: &[u8], number: u64, end: &[u8], out: &mut Shown<'_, O>)
    ensures shown { Shows (sink_of O.Sink out.old) (text.now ++ decimal number ++ end.now) (sink_of O.Sink out.new) }
    ensures same_reference { out.new.out.ghost_name ≡ out.old.out.ghost_name }
{
    out.put(text);
    show_number(number, out);
    out.put(end);
}
