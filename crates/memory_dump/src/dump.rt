// The memory after a boot, as text.
ghost use Rattle.std.specs.Prelude.{◌≡◌, ◌+◌, ◌*◌, ◌<◌, ◌≤◌, length, ◌++◌, codes, decimal};
ghost use Rattle.std.specs.List.{flat_map};
ghost use Rattle.lilo_model.specs.Bytes.{hex_digit, hex_byte};
ghost use Rattle.lilo_model.specs.Verdict.{address_text, region_text};
ghost use Rattle.arrayvec.specs.ArrayVec.{array_vec_len};
ghost use Rattle.setup_header.specs.Words.{LiesIn, EndsBy};
ghost use Rattle.stream_trait.specs.Shows.{Shows, sink_of};
ghost use Rattle.memory_dump.specs.Dump.{hex_text, written_in, regions_of, boot_sector_in};

use arrayvec::ArrayVec;
use bios_model::Ram;
use itoa::Buffer;
use setup_header::{Layout, Region};
use stream_trait::{Shown, Sink};

/// How many bytes of memory a line shows.
const LINE: usize = 32;

/// How many bytes are shown by one text.
const PIECE: usize = 64 * LINE;

/// The line before a region's bytes.
type Line = ArrayVec<u8, 128>;

/// The lines of such a piece, of two digits a byte and a newline.
type Lines = ArrayVec<u8, 4160>;

/// Shows what a kernel's loading has put into memory.
pub fn dump_memory<O: Sink>(out: &mut Shown<'_, O>, ram: &mut Ram, layout: &Layout)
    requires { LiesIn (length ram.old) layout.now }
    ensures shown { Shows (sink_of O.Sink out.old)
        (flat_map region_text (regions_of layout.now ram.old)) (sink_of O.Sink out.new) }
    ensures same { ram.new ≡ ram.old }
    ensures same_reference { out.new.out.ghost_name ≡ out.old.out.ghost_name }
{
    dump_part(out, ram, layout.real);
    dump_part(out, ram, layout.protected);
    if let Some(initrd) = layout.initrd {
        dump_part(out, ram, initrd);
    }
    dump_part(out, ram, layout.line);
}

/// Shows the boot sector that memory has at 0x7C00.
pub fn dump_sector<O: Sink>(out: &mut Shown<'_, O>, ram: &mut Ram)
    ensures shown { Shows (sink_of O.Sink out.old) (region_text (boot_sector_in ram.old)) (sink_of O.Sink out.new) }
    ensures same { ram.new ≡ ram.old }
    ensures same_reference { out.new.out.ghost_name ≡ out.old.out.ghost_name }
{
    prove!(ram.size() >= 0x7E00);
    dump_region(out, 0x7C00, ram.bytes(0x7C00, 512));
}

// Shows a region of memory.
fn dump_part<O: Sink>(out: &mut Shown<'_, O>, ram: &mut Ram, region: Region)
    requires { EndsBy (length ram.old) region }
    ensures shown { Shows (sink_of O.Sink out.old) (region_text (written_in ram.old region)) (sink_of O.Sink out.new) }
    ensures same { ram.new ≡ ram.old }
    ensures same_reference { out.new.out.ghost_name ≡ out.old.out.ghost_name }
{
    dump_region(
        out,
        region.address,
        ram.bytes(region.address, region.length),
    );
}

/// Shows bytes of memory: a line with their address and how many they are, and then the bytes. Many lines are
/// put at a time.
fn dump_region<O: Sink>(out: &mut Shown<'_, O>, address: u32, bytes: &[u8])
    ensures shown { Shows (sink_of O.Sink out.old)
        (region_text (record { address = address; bytes = bytes.now })) (sink_of O.Sink out.new) }
    ensures same_reference { out.new.out.ghost_name ≡ out.old.out.ghost_name }
{
    out.put(head(address, bytes.len()).as_slice());
    dump_bytes(out, bytes);
}

// Shows bytes, many lines at a time.
fn dump_bytes<O: Sink>(out: &mut Shown<'_, O>, bytes: &[u8])
    ensures shown { Shows (sink_of O.Sink out.old) (hex_text bytes.now) (sink_of O.Sink out.new) }
    ensures same_reference { out.new.out.ghost_name ≡ out.old.out.ghost_name }
{
    for piece in bytes.chunks(PIECE) {
        out.put(lines(piece).as_slice());
    }
}

// The line above the bytes of a region.
fn head(address: u32, len: usize) -> Line
    ensures { result.items ≡ address_text address ++ codes " " ++ decimal len ++ codes "\n" }
{
    let mut head = Line::new();
    push_hex(&mut head, &address.to_be_bytes());
    head.push(b' ');
    let mut digits = Buffer::new();
    let _ = head.try_extend_from_slice(digits.format(len).as_bytes());
    head.push(b'\n');
    head
}

// The lines of a piece.
fn lines(piece: &[u8]) -> Lines
    requires { length piece.now ≤ 2048 }
    ensures { result.items ≡ hex_text piece.now }
{
    let mut lines = Lines::new();
    for line in piece.chunks(LINE) {
        push_hex(&mut lines, line);
        lines.push(b'\n');
    }
    lines
}

// Appends two digits for each byte.
fn push_hex<const N: usize>(text: &mut ArrayVec<u8, N>, bytes: &[u8])
    requires { array_vec_len text.old + 2 * length bytes.now ≤ N }
    ensures { text.new.items ≡ text.old.items ++ flat_map hex_byte bytes.now }
{
    for byte in bytes {
        text.push(hex_digit(*byte / 16));
        text.push(hex_digit(*byte % 16));
    }
}

// A digit of 0 to 15.
fn hex_digit(digit: u8) -> u8
    requires { digit < 16 }
    ensures { result ≡ hex_digit digit }
{
    if digit <= 9 {
        digit + b'0'
    } else {
        digit + (b'a' - 10)
    }
}
