// Boots of planned maps that were written, with what is in memory then.
ghost use Rattle.std.specs.Prelude.{◌≡◌};

use crate::disks::{On, disks_of, planned, put};
use crate::plans::{MAP_START, boot_sector, made};
use bios_model::{Bios, Ram};
use disk_trait::{Disks, MemDisks, Span};
use loader_core::{Outcome, Shown, boot};
use map_sectors::MapPlan;
use setup_header::{Layout, Region};
use std::alloc::{AllocError, Global};
use std::mem::drop;
use std::test::Fail;
use stream_trait::{MemSink, MemSource};

// Bytes of memory: their address, how often they stand there in a row, and the bytes.
type Piece = (u32, u32, &'static [u8]);

// A boot by keys of the map of a configuration, over a memory of 2 MiB that is full of bytes EE.
struct Boot {
    what: &'static str,
    on: On,
    text: &'static [u8],
    keys: &'static [u8],
    // How it ends: with a kernel of so many bytes in its parts and so many of command line, and an initial ramdisk; or
    // another system.
    real: u32,
    protected: u32,
    line: u32,
    initrd: Option<Region>,
    is_other: bool,
    shown: &'static [u8],
    // Bytes of memory; where there are none, those of the kernel with a hole.
    held: &'static [Piece],
    // How the default line's sector begins then.
    left: &'static [u8],
}

const HOLED: Boot = Boot {
    what: "",
    on: On::Near,
    text: b"",
    keys: b"",
    real: 1024,
    protected: 3077,
    line: 25,
    initrd: Some(Region {
        address: 0x1F_F000,
        length: 1024,
    }),
    is_other: false,
    shown: b"LILO\nLoading linux\n",
    held: &[],
    left: b"LINE\0\0\0\0\0",
};

const HOLED_BYTES: &[Piece] = &[
    (0x9_9800, 1, b"auto BOOT_IMAGE=linux ro\0\xEE"),
    (0x10_0000, 1, b"HELLO\0"),
    (0x10_0400, 1024, b"\0"),
    (0x10_0800, 1, b"AFTER\0"),
    (0x10_0C00, 1, b"WORLD\xEE"),
    (0x1F_F000, 1, b"FIRST\0"),
];

const ROWS: &[Boot] = &[
    // A kernel with a hole and an initial ramdisk at the memory's end, with each way to name sectors, and with slots of
    // one sector or of many.
    Boot {
        what: "by cylinder, head and sector",
        text: b"boot=/dev/hda\nimage=/kernel\nlabel=linux\nread-only\ninitrd=/initrd\n",
        ..HOLED
    },
    Boot {
        what: "linear",
        text: b"boot=/dev/hda\nlinear\nimage=/kernel\nlabel=linux\nread-only\ninitrd=/initrd\n",
        ..HOLED
    },
    Boot {
        what: "lba32",
        text: b"boot=/dev/hda\nlba32\nimage=/kernel\nlabel=linux\nread-only\ninitrd=/initrd\n",
        ..HOLED
    },
    Boot {
        what: "compact",
        text: b"boot=/dev/hda\ncompact\nimage=/kernel\nlabel=linux\nread-only\ninitrd=/initrd\n",
        ..HOLED
    },
    Boot {
        what: "lba32 and compact",
        text: b"boot=/dev/hda\nlba32\ncompact\nimage=/kernel\nlabel=linux\nread-only\ninitrd=/initrd\n",
        ..HOLED
    },
    // 0 setup sectors stand for 4: the real-mode part has 2560 bytes.
    Boot {
        what: "a kernel without a number of setup sectors",
        text: b"lba32\nimage=/least\nlabel=linux\n",
        real: 2560,
        protected: 5,
        line: 22,
        held: &[(0x10_0000, 1, b"HELLO\xEE")],
        ..FEW
    },
    // After a message, at the prompt: the name, its password; then the fallback is the default.
    Boot {
        what: "a password",
        text: b"lba32\nmessage=/far\nprompt\nimage=/kernel\nlabel=linux\npassword=tux\nfallback=\"linux 1\"\n",
        keys: b"linux\ntux\n",
        protected: 512,
        line: 17,
        shown: b"LILO\nHey!\nboot: linux\nPassword: \nLoading linux\n",
        held: &[
            (0x9_9800, 1, b"BOOT_IMAGE=linux\0\xEE"),
            (0x10_0000, 1, b"HELLO\0"),
        ],
        left: b"LINE\x02\0\x07\0linux 1\0",
        ..FEW
    },
    // Its boot sector, and the partition table of the boot device.
    Boot {
        what: "another system",
        text: b"lba32\nother=/dev/hdb1\nlabel=dos\ntable=/dev/hda\n",
        is_other: true,
        shown: b"LILO\nLoading dos\n",
        held: &[
            (0x7BE, 64, b"\xDD"),
            (0x7C00, 510, b"\0"),
            (0x7DFE, 1, b"\x55\xAA\xEE"),
        ],
        ..FEW
    },
    // Nine names with an alias each, and one more, which is the default.
    Boot {
        what: "the last of 19 names",
        text: b"lba32\ndefault=s\nimage=/kernel\nlabel=a\nalias=b\nimage=/kernel\nlabel=c\nalias=d\nimage=/kernel\nlabel=e\nalias=f\nimage=/kernel\nlabel=g\nalias=h\nimage=/kernel\nlabel=i\nalias=j\nimage=/kernel\nlabel=k\nalias=l\nimage=/kernel\nlabel=m\nalias=n\nimage=/kernel\nlabel=o\nalias=p\nimage=/kernel\nlabel=q\nalias=r\nimage=/least\nlabel=s\n",
        real: 2560,
        protected: 5,
        line: 18,
        shown: b"LILO\nLoading s\n",
        held: &[(0x9_9800, 1, b"auto BOOT_IMAGE=s\0\xEE")],
        ..FEW
    },
];

const FEW: Boot = Boot {
    on: On::Far,
    initrd: None,
    ..HOLED
};

#[test]
fn planned_maps_boot(rt: HostRuntime) -> Result<(), Fail> {
    for row in ROWS {
        assert!(rt; comes_true(rt.alloc(), row)?, "{}", row.what);
    }
    Ok(())
}

fn comes_true(alloc: Global, row: &Boot) -> Result<bool, AllocError> {
    let mut disks = disks_of(alloc, row.on, &[])?;
    let mut keys = MemSource::new(alloc, row.keys, &[])?;
    let mut sink = MemSink::new(alloc, 256, &[])?;
    let mut ram = Ram::new(alloc, 2_097_152)?;
    let is_ready = install(alloc, row, &mut disks) && fill(&mut ram, row);
    let outcome = booted(&mut disks, &mut keys, &mut ram, &mut sink);
    Ok(
        is_ready
            && outcome == Some(end_of(row))
            && sink.bytes() == row.shown
            && leaves_line(&mut disks, row.left)
            && holds(&mut ram, row),
    )
}

// Writes the map and its boot sector, where it is planned.
fn install(alloc: Global, row: &Boot, disks: &mut MemDisks) -> bool {
    match planned(alloc, row.on, row.text) {
        Ok(plan) => {
            write(disks, &plan);
            drop(plan);
            true
        }
        Err(fault) => {
            drop(fault);
            false
        }
    }
}

fn write(disks: &mut MemDisks, plan: &MapPlan)
    requires { plan.now.disk ≡ 0 }
{
    for index in 0..25_u32 {
        if index < plan.length() / 512 {
            put(disks, 0, MAP_START + index, &made(plan, index));
        }
    }
    put(disks, 0, 0, &boot_sector(plan));
}

fn pieces_of(row: &Boot) -> &'static [Piece] {
    if row.held.is_empty() {
        HOLED_BYTES
    } else {
        row.held
    }
}

// Makes the memory where bytes are looked at full of EE.
fn fill(ram: &mut Ram, row: &Boot) -> bool {
    let mut all = true;
    for (at, ..) in pieces_of(row) {
        all = ram.place(*at, &[0xEE; 2048]).is_ok() && all;
    }
    all
}

fn booted(
    disks: &mut MemDisks,
    keys: &mut MemSource,
    ram: &mut Ram,
    sink: &mut MemSink,
) -> Option<Outcome> {
    if disks.size(0) == 0 {
        return None;
    }
    let device = Span {
        disk: 0,
        start: 0,
        count: 1,
    };
    let mut bios = Bios { disks, keys };
    let mut shown = Shown::new(sink);
    Some(boot(&mut bios, device, ram, &mut shown))
}

fn end_of(row: &Boot) -> Outcome {
    if row.is_other {
        return Outcome::Handed;
    }
    Outcome::Loaded(Layout {
        real: region(0x9_0000, row.real),
        protected: region(0x10_0000, row.protected),
        initrd: row.initrd,
        line: region(0x9_9800, row.line),
    })
}

fn region(address: u32, length: u32) -> Region {
    Region { address, length }
}

fn leaves_line(disks: &mut MemDisks, begins: &[u8]) -> bool {
    let mut sector = [0; 512];
    let _ = disks.read(0, u64::from(MAP_START), &mut sector);
    sector.starts_with(begins)
}

fn holds(ram: &mut Ram, row: &Boot) -> bool {
    for (at, count, bytes) in pieces_of(row) {
        if !are_at(ram, *at, *count, bytes) {
            return false;
        }
    }
    true
}

// These bytes are in memory so many times in a row.
fn are_at(ram: &mut Ram, at: u32, count: u32, bytes: &[u8]) -> bool {
    let Ok(len) = u32::try_from(bytes.len()) else {
        return false;
    };
    for index in 0..count {
        let place = index.saturating_mul(len).saturating_add(at);
        if !is_at(ram, place, bytes) {
            return false;
        }
    }
    true
}

fn is_at(ram: &mut Ram, place: u32, bytes: &[u8]) -> bool {
    if bytes.len() > 2048 || place > ram.size() - 2048 {
        return false;
    }
    ram.bytes(place, bytes.len() as u32) == bytes
}
