// A boot, what it is given, and what it comes to.
use crate::installation::{Edit, sector_of};
use bios_model::{Bios, Ram};
use disk_trait::{Disks, Failing, Geometry, MemDisk, MemDisks, Span};
use loader_core::{Outcome, Shown, boot};
use setup_header::{Layout, Region};
use std::alloc::{AllocError, Global};
use std::process::Abort;
use std::test::Fail;
use stream_trait::{MemSink, MemSource};

/// Bytes of memory: their address, how often they stand there in a row, and the bytes.
pub type Piece = (u32, u32, &'static [u8]);

/// What is in memory.
#[derive(Clone, Copy, PartialEq, Eq)]
pub enum Held {
    Unsaid,
    Kernel,
    LowKernel,
    Others,
}

/// A boot from a disk of 512 sectors, over a memory that is full of bytes EE.
pub struct Boot {
    pub what: &'static str,
    /// The changes of the installation: two lists of bytes in sectors, and between them sectors full of one byte.
    pub base: &'static [Edit],
    pub full: &'static [(usize, u8)],
    pub edits: &'static [Edit],
    /// Whether sectors are there for a kernel of 256.
    pub is_long: bool,
    /// The disk's heads, and its sectors per track.
    pub geometry: (u16, u8),
    /// The first sector of the device, and the bytes of memory.
    pub start: u64,
    pub memory: u32,
    pub keys: &'static [u8],
    /// The calls of a disk, of keys and of texts that fail.
    pub failing: &'static [Failing],
    pub failing_keys: &'static [u64],
    pub failing_texts: &'static [u64],
    /// How it ends; without it a kernel is loaded, with these parts and so many bytes of command line.
    pub end: Option<Outcome>,
    pub protected: Region,
    pub initrd: Option<Region>,
    pub line: u32,
    pub shown: &'static [u8],
    pub is_text_lost: bool,
    /// All of memory that isn't EE, where something is said of it; of two pieces in one place the later one.
    pub held: Held,
    pub also: &'static [Piece],
    /// How the default line's sector begins then, before zeros.
    pub left: &'static [u8],
}

// The bytes in memory of the kernel of 1029 bytes, with its command line.
const KERNEL: &[Piece] = &[
    (0x9_0000, 1024, b"\0"),
    (0x9_01F1, 1, b"\x01"),
    (0x9_01FE, 1, b"\x55\xAA"),
    (0x9_0202, 1, b"HdrS\x06\x02"),
    (0x9_0210, 1, b"\x02\x81"),
    (0x9_0224, 1, b"\0\x96\0\0\0\x98\x09\0\xFF\xFF\xFF\x37"),
    (0x9_0238, 1, b"\xFF"),
    (0x9_9800, 1, b"auto BOOT_IMAGE=linux ro root=301\0"),
    (0x10_0000, 1, b"HELLO"),
];

// The same of one that is loaded low, without a version.
const LOW: &[Piece] = &[
    (0x1_0000, 1, b"HELLO"),
    (0x9_0000, 1024, b"\0"),
    (0x9_0020, 1, b"\x3F\xA3\0\x98"),
    (0x9_01F1, 1, b"\x01"),
    (0x9_01FE, 1, b"\x55\xAA"),
    (0x9_022C, 1, b"\xFF\xFF\xFF\x37"),
    (0x9_0238, 1, b"\xFF"),
    (0x9_9800, 1, b"auto BOOT_IMAGE=linux ro root=301\0"),
];

fn pieces_of(boot: &Boot) -> &'static [Piece] {
    match boot.held {
        Held::Kernel => KERNEL,
        Held::LowKernel => LOW,
        _ => &[],
    }
}

pub const LOADING: &[u8] = b"LILO\nLoading linux\n";

/// A boot of the installation without changes.
pub const PLAIN: Boot = Boot {
    what: "a plain boot",
    base: &[],
    full: &[],
    edits: &[],
    is_long: false,
    geometry: (16, 63),
    start: 0,
    memory: 2_097_152,
    keys: b"",
    failing: &[],
    failing_keys: &[],
    failing_texts: &[],
    end: None,
    protected: Region {
        address: 0x10_0000,
        length: 5,
    },
    initrd: None,
    line: 34,
    shown: LOADING,
    is_text_lost: false,
    held: Held::Kernel,
    also: &[],
    left: b"LINE",
};

/// That all boots of some tables come to what they say, or else which is the first that doesn't.
pub fn come_true(rt: &impl Abort, alloc: Global, tables: &[&[Boot]]) -> Result<(), Fail> {
    assert_eq!(rt; first_wrong(alloc, tables)?, None);
    Ok(())
}

// The first of the boots of some tables that comes to something else. What a proof of a function costs rises more than
// with the square of the references in its constants, so a table has few rows, and a function of its own.
fn first_wrong(alloc: Global, tables: &[&[Boot]]) -> Result<Option<&'static str>, AllocError> {
    for boots in tables {
        for boot in *boots {
            if !comes_true(alloc, boot)? {
                return Ok(Some(boot.what));
            }
        }
    }
    Ok(None)
}

fn comes_true(alloc: Global, boot: &Boot) -> Result<bool, AllocError> {
    let mut disks = disks_of(alloc, boot)?;
    let mut keys = MemSource::new(alloc, boot.keys, boot.failing_keys)?;
    let mut sink = MemSink::new(alloc, 256, boot.failing_texts)?;
    let mut ram = Ram::new(alloc, boot.memory.clamp(1_048_576, 16_777_216))?;
    let is_so = comes_so(boot, &mut disks, &mut keys, &mut ram, &mut sink);
    Ok(is_so && sink.bytes() == boot.shown)
}

fn comes_so(
    boot: &Boot,
    disks: &mut MemDisks,
    keys: &mut MemSource,
    ram: &mut Ram,
    sink: &mut MemSink,
) -> bool {
    look(ram, boot, true)
        && ends_so(boot, disks, keys, ram, sink)
        && leaves_line(disks, boot.left)
        && look(ram, boot, false)
}

fn disks_of(alloc: Global, boot: &Boot) -> Result<MemDisks, AllocError> {
    let Ok(geometry) = Geometry::new(boot.geometry.0, boot.geometry.1) else {
        return Err(AllocError);
    };
    let disk = MemDisk {
        sectors: 512,
        geometry,
    };
    let mut disks = MemDisks::new(alloc, &[disk], 8, boot.failing)?;
    for number in 0..if boot.is_long { 384_u32 } else { 128 } {
        if disks.events() == 0 && u64::from(number) < disks.size(0) {
            disks.set(0, number, &sector_of(boot, number as usize));
        }
    }
    Ok(disks)
}

// Looks at the memory around all bytes that a boot says of it: before the boot it is made full of EE, and then it has
// these bytes.
fn look(ram: &mut Ram, boot: &Boot, is_before: bool) -> bool {
    let mut all = true;
    for pieces in [pieces_of(boot), boot.also] {
        let mut last = 1;
        for (at, ..) in pieces {
            let start = (at.saturating_sub(16) / 4096 * 4096).min(ram.size() - 8192);
            if start != last {
                all = look_at(ram, boot, start, is_before) && all;
            }
            last = start;
        }
    }
    if boot.is_long {
        for index in 0..16_u32 {
            all = look_at(ram, boot, 0x10_0000 + 8192 * index, is_before) && all;
        }
    }
    all
}

// The same at 8192 bytes.
fn look_at(ram: &mut Ram, boot: &Boot, start: u32, is_before: bool) -> bool {
    if is_before {
        return ram.place(start, &[0xEE; 8192]).is_ok();
    }
    if start > ram.size() - 8192 {
        return false;
    }
    let mut at = start;
    for byte in ram.bytes(start, 8192) {
        if *byte != byte_at(boot, at) {
            return false;
        }
        at = at.wrapping_add(1);
    }
    true
}

// The byte that a boot says of an address. The sectors of a long kernel are full of their numbers.
fn byte_at(boot: &Boot, at: u32) -> u8 {
    let mut byte = 0xEE;
    if boot.is_long && (0x10_0000..0x11_FC00).contains(&at) {
        byte = ((at / 512 + 128) % 256) as u8;
    }
    for pieces in [pieces_of(boot), boot.also] {
        for (start, count, bytes) in pieces {
            let index = at.wrapping_sub(*start) as usize;
            if *start <= at && !bytes.is_empty() && index / bytes.len() < *count as usize {
                byte = bytes[index % bytes.len()];
            }
        }
    }
    byte
}

// Boots, and says whether it ends as is said.
fn ends_so(
    row: &Boot,
    disks: &mut MemDisks,
    keys: &mut MemSource,
    ram: &mut Ram,
    sink: &mut MemSink,
) -> bool {
    if disks.size(0) <= row.start {
        return false;
    }
    let device = Span {
        disk: 0,
        start: row.start,
        count: 1,
    };
    let mut bios = Bios { disks, keys };
    let mut shown = Shown::new(sink);
    boot(&mut bios, device, ram, &mut shown) == end_of(row) && shown.failed() == row.is_text_lost
}

fn end_of(boot: &Boot) -> Outcome {
    boot.end.unwrap_or(Outcome::Loaded(Layout {
        real: Region {
            address: 0x9_0000,
            length: 1024,
        },
        protected: boot.protected,
        initrd: boot.initrd,
        line: Region {
            address: 0x9_9800,
            length: boot.line,
        },
    }))
}

fn leaves_line(disks: &mut MemDisks, begins: &[u8]) -> bool {
    let mut sector = [0; 512];
    let _ = disks.read(0, 94, &mut sector);
    let len = begins.len();
    len <= 512 && &sector[..len] == begins && sector[len..].iter().all(|byte| *byte == 0)
}
