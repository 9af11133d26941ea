// The sectors of planned maps, byte by byte.
ghost use Rattle.std.specs.Prelude.{◌≡◌, All};

use crate::disks::{On, planned};
use map_sectors::MapPlan;
use sector_parts::{Sector, put_part};
use slot_lists::DiskSector;
use std::alloc::Global;
use std::mem::drop;

// Where the first sector of a map lies, in hexadecimal 0x1A4.
pub const MAP_START: u32 = 420;

// Bytes of a sector that are no zeros: their offset, how often they stand there in a row, and the bytes.
type Piece = (usize, usize, &'static [u8]);

// A configuration, and the map that it plans on disks.
struct Plan {
    what: &'static str,
    on: On,
    text: &'static [u8],
    // The map's bytes, and its files' runs.
    length: u32,
    runs: u32,
    // Some of its sectors as wholes, by their indexes.
    sectors: &'static [(u32, &'static [Piece])],
    // The boot sector over one that is full of bytes DD, where something is said of it.
    boot: &'static [Piece],
}

const SLOTS: &[Plan] = &[
    // The default line, the table, the zero sector, and then of the one section its options: ` ro`; nine slots of four
    // runs: zones 10 and 11, the zero sector twice, zone 12 and half of zone 9.
    Plan {
        what: "a kernel with a hole",
        text: b"boot=/dev/hda\nlba32\nimage=/kernel\nlabel=linux\nread-only\n",
        length: 3584,
        runs: 4,
        sectors: &[
            (0, &[(0, 1, b"LINE")]),
            (
                1,
                &[
                    (0, 1, b"linux"),
                    (20, 1, b"\x05\x10"),
                    (28, 1, b"\x03\x80\x01\0\xA9\x01\0\0\x03\x80\x01\0\xAA\x01"),
                    (52, 1, b"\x01"),
                ],
            ),
            (2, &[]),
            (3, &[]),
            (4, &[]),
            (5, &[(0, 1, b"\x03\0\0\0\0\0\0\0 ro")]),
            (
                6,
                &[
                    (0, 1, b"\x03\x80\x01\0\x1D\0\0\0\x03\x80\x01\0\x1E"),
                    (16, 1, b"\x03\x80\x01\0\x1F\0\0\0\x03\x80\x01\0\x20"),
                    (32, 2, b"\x03\x80\x01\0\xA8\x01\0\0"),
                    (48, 1, b"\x03\x80\x01\0\x21\0\0\0\x03\x80\x01\0\x22"),
                    (64, 1, b"\x03\x80\x01\0\x1B"),
                ],
            ),
        ],
        ..PLAN
    },
    // The fields of a boot sector: its time, its delay, no timeout, the second of two names, no message, and the slots
    // of the default line, of the zero sector and of the table. The code is zeros, and the bytes from 440 to 509 stay.
    Plan {
        what: "a boot sector",
        text: b"boot=/dev/hda\nlba32\ndelay=20\ndefault=l\nimage=/kernel\nlabel=linux\nalias=l\n",
        length: 3584,
        runs: 4,
        boot: &[
            (0, 1, b"\xEB\x7ELILO\x01\0\x07\0\0\0\0\0\x14\0\xFF\xFF\x02"),
            (24, 1, b"\x03\x80\x01\0\xA4\x01\0\0\x03\x80\x01\0\xA8\x01"),
            (48, 1, b"\x03\x80\x01\0\xA5\x01\0\0\x03\x80\x01\0\xA6\x01"),
            (64, 1, b"\x03\x80\x01\0\xA7\x01"),
            (96, 1, b"\x01"),
            (440, 70, b"\xDD"),
            (510, 1, b"\x55\xAA"),
        ],
        ..PLAN
    },
    // 63 slots, the last 61 of the zero sector, fill one section sector; with 64 another one follows.
    Plan {
        what: "63 slots",
        text: b"boot=/dev/hda\nlba32\nimage=/k63\nlabel=a\n",
        length: 3584,
        runs: 2,
        sectors: &[(
            6,
            &[
                (0, 1, b"\x03\x80\x01\0\x25\0\0\0\x03\x80\x01\0\x26"),
                (16, 61, b"\x03\x80\x01\0\xA8\x01\0\0"),
            ],
        )],
        ..PLAN
    },
    Plan {
        what: "64 slots",
        text: b"boot=/dev/hda\nlba32\nimage=/k64\nlabel=a\n",
        length: 4096,
        runs: 2,
        sectors: &[
            (
                6,
                &[
                    (0, 1, b"\x03\x80\x01\0\x27\0\0\0\x03\x80\x01\0\x28"),
                    (16, 61, b"\x03\x80\x01\0\xA8\x01\0\0"),
                    (504, 1, b"\x03\x80\x01\0\xAB\x01"),
                ],
            ),
            (7, &[(0, 1, b"\x03\x80\x01\0\xA8\x01")]),
        ],
        ..PLAN
    },
];

fn slots() -> &'static [Plan] {
    SLOTS
}

const TEXTS: &[Plan] = &[
    // An entry of a kernel with a password and the video mode 0; and the same with an alias.
    Plan {
        what: "a password",
        text: b"boot=/dev/hda\nlba32\nimage=/kernel\nlabel=linux\nvga=0\npassword=ab\n",
        length: 4096,
        runs: 4,
        sectors: &[
            (
                1,
                &[
                    (0, 1, b"linux"),
                    (16, 1, b"\x22\0\0\0\x05\x10"),
                    (28, 1, b"\x03\x80\x01\0\xA9\x01\0\0\x03\x80\x01\0\xAB\x01"),
                    (52, 1, b"\x01\0\0\0\x03\x80\x01\0\xAA\x01"),
                ],
            ),
            (6, &[(0, 1, b"\0\0\x02"), (480, 1, b"ab")]),
        ],
        ..PLAN
    },
    Plan {
        what: "an alias",
        text: b"boot=/dev/hda\nlba32\nimage=/kernel\nlabel=linux\nalias=l\nvga=0\npassword=ab\n",
        length: 4096,
        runs: 4,
        sectors: &[
            (
                1,
                &[
                    (0, 1, b"linux"),
                    (64, 1, b"l"),
                    (16, 1, b"\x22\0\0\0\x05\x10"),
                    (28, 1, b"\x03\x80\x01\0\xA9\x01\0\0\x03\x80\x01\0\xAB\x01"),
                    (52, 1, b"\x01\0\0\0\x03\x80\x01\0\xAA\x01"),
                    (80, 1, b"\x22\0\0\0\x05\x10"),
                    (92, 1, b"\x03\x80\x01\0\xA9\x01\0\0\x03\x80\x01\0\xAB\x01"),
                    (116, 1, b"\x01\0\0\0\x03\x80\x01\0\xAA\x01"),
                ],
            ),
            (6, &[(0, 1, b"\0\0\x02"), (480, 1, b"ab")]),
        ],
        ..PLAN
    },
];

fn texts() -> &'static [Plan] {
    TEXTS
}

const TRACKS: &[Plan] = &[
    // Sectors 125 and 126 are the last of a track and the first of the next.
    Plan {
        what: "neighbours on two tracks",
        text: b"boot=/dev/hda\ncompact\nimage=/kernel\nlabel=linux\ninitrd=/initrd\n",
        length: 4096,
        runs: 5,
        sectors: &[
            (
                6,
                &[
                    (0, 1, b"\x01\x80\x04\0\x1E"),
                    (8, 2, b"\x01\x80\x01\0\x2F\0\x06\0"),
                    (24, 1, b"\x01\x80\x02\0\x22\0\0\0\x01\x80\x01\0\x1C"),
                ],
            ),
            (
                7,
                &[(0, 1, b"\x01\x80\x01\0\x3F\0\x01\0\x01\x80\x01\0\x01\0\x02")],
            ),
        ],
        ..PLAN
    },
    Plan {
        what: "neighbours on two tracks, linear",
        text: b"boot=/dev/hda\nlinear\ncompact\nimage=/kernel\nlabel=linux\ninitrd=/initrd\n",
        length: 4096,
        runs: 5,
        sectors: &[(7, &[(0, 1, b"\x02\x80\x02\0\x7D")])],
        ..PLAN
    },
    Plan {
        what: "127 sectors in a slot, and one",
        text: b"boot=/dev/hda\nlba32\ncompact\nimage=/run\nlabel=linux\n",
        length: 3584,
        runs: 1,
        sectors: &[(
            6,
            &[(0, 1, b"\x03\x80\x7F\0\x89\0\0\0\x03\x80\x01\0\x08\x01")],
        )],
        ..PLAN
    },
    Plan {
        what: "three sectors in a row",
        on: On::Far,
        text: b"lba32\ncompact\nimage=/kernel\n",
        length: 3584,
        runs: 1,
        sectors: &[(6, &[(0, 1, b"\x03\x80\x03\0\x52")])],
        ..PLAN
    },
];

fn tracks() -> &'static [Plan] {
    TRACKS
}

const FILES: &[Plan] = &[
    // Initial ramdisks: of no byte, which isn't mapped; with a hole at the end; with two bytes past a sector; and
    // through an indirect zone.
    Plan {
        what: "an empty file",
        text: b"lba32\nimage=/kernel\nlabel=linux\ninitrd=/empty\n",
        length: 3584,
        runs: 4,
        sectors: &[(
            1,
            &[
                (0, 1, b"linux"),
                (20, 1, b"\x05\x10"),
                (28, 1, b"\x03\x80\x01\0\xA9\x01\0\0\x03\x80\x01\0\xAA\x01"),
                (52, 1, b"\x01"),
            ],
        )],
        ..PLAN
    },
    Plan {
        what: "a file that ends in a hole",
        text: b"lba32\nimage=/kernel\nlabel=linux\ninitrd=/ends\n",
        length: 4096,
        runs: 6,
        sectors: &[(
            7,
            &[
                (0, 1, b"\x03\x80\x01\0\x81\0\0\0\x03\x80\x01\0\x82"),
                (16, 3, b"\x03\x80\x01\0\xA8\x01\0\0"),
            ],
        )],
        ..PLAN
    },
    Plan {
        what: "a file with two bytes past a sector",
        text: b"lba32\nimage=/kernel\nlabel=linux\ninitrd=/two\n",
        length: 4096,
        runs: 5,
        sectors: &[(7, &[(0, 1, b"\x03\x80\x01\0\x17\0\0\0\x03\x80\x01\0\x18")])],
        ..PLAN
    },
    Plan {
        what: "a file through an indirect zone",
        text: b"lba32\ncompact\nimage=/kernel\nlabel=linux\ninitrd=/joins\n",
        length: 4096,
        runs: 6,
        sectors: &[(7, &[(0, 1, b"\x03\x80\x10\0\x33\0\0\0\x03\x80\x02\0\x45")])],
        ..PLAN
    },
];

fn files() -> &'static [Plan] {
    FILES
}

const SYSTEMS: &[Plan] = &[
    // The first sector of the second disk, and that of the first with the partition table; no text and no link.
    Plan {
        what: "another system",
        text: b"boot=/dev/hda\nlba32\nother=/dev/hdb\nlabel=dos\ntable=/dev/hda\n",
        length: 3584,
        runs: 2,
        sectors: &[
            (5, &[]),
            (6, &[(0, 1, b"\x03\x81\x01\0\0\0\0\0\x03\x80\x01")]),
        ],
        ..PLAN
    },
    // The message's section sector comes first; a section has its options, its fallback and password, and its kernel.
    Plan {
        what: "a message",
        text: b"boot=/dev/hda\nlba32\nmessage=/initrd\nimage=/kernel\nlabel=a\npassword=ab\nfallback=\"a b\"\n",
        length: 4608,
        runs: 5,
        sectors: &[
            (5, &[(0, 1, b"\x03\x80\x01\0\x7D\0\0\0\x03\x80\x01\0\x7E")]),
            (6, &[]),
            (7, &[(0, 1, b"\x03\0\x02\0a b"), (480, 1, b"ab")]),
            (
                8,
                &[
                    (0, 1, b"\x03\x80\x01\0\x1D\0\0\0\x03\x80\x01\0\x1E"),
                    (16, 1, b"\x03\x80\x01\0\x1F\0\0\0\x03\x80\x01\0\x20"),
                    (32, 2, b"\x03\x80\x01\0\xA8\x01\0\0"),
                    (48, 1, b"\x03\x80\x01\0\x21\0\0\0\x03\x80\x01\0\x22"),
                    (64, 1, b"\x03\x80\x01\0\x1B"),
                ],
            ),
        ],
        ..PLAN
    },
];

fn systems() -> &'static [Plan] {
    SYSTEMS
}

const PLAN: Plan = Plan {
    what: "",
    on: On::Near,
    text: b"",
    length: 0,
    runs: 0,
    sectors: &[],
    boot: &[],
};

#[test]
fn maps_are_planned(rt: HostRuntime) {
    let tables = [slots(), texts(), tracks(), files(), systems()];
    assert_eq!(rt; first_wrong(rt.alloc(), &tables), None);
}

// The first plan that comes to something else. What a proof of a function costs rises more than with the square of the
// references in its constants, so a table has few rows, and a function of its own.
fn first_wrong(alloc: Global, tables: &[&[Plan]]) -> Option<&'static str> {
    for rows in tables {
        for row in *rows {
            if !comes_true(alloc, row) {
                return Some(row.what);
            }
        }
    }
    None
}

fn comes_true(alloc: Global, row: &Plan) -> bool {
    match planned(alloc, row.on, row.text) {
        Ok(plan) => {
            let is_so = is_planned(&plan, row);
            drop(plan);
            is_so
        }
        Err(fault) => {
            drop(fault);
            false
        }
    }
}

fn is_planned(plan: &MapPlan, row: &Plan) -> bool
    requires { plan.now.disk ≡ 0 }
{
    let mut all = plan.length() == row.length && plan.runs() == row.runs;
    for (index, pieces) in row.sectors {
        all = made(plan, *index) == sector_of(pieces) && all;
    }
    all && (row.boot.is_empty() || boot_sector(plan) == sector_of(row.boot))
}

fn sector_of(pieces: &[Piece]) -> Sector {
    let mut sector = [0; 512];
    for (at, count, bytes) in pieces {
        for index in 0..*count {
            let place = index.saturating_mul(bytes.len()).saturating_add(*at);
            if bytes.len() <= 512 && place <= 512 - bytes.len() {
                put_part(&mut sector, place, bytes);
            }
        }
    }
    sector
}

/// A sector of a map by its index.
pub fn made(plan: &MapPlan, index: u32) -> Sector
    requires { plan.now.disk ≡ 0 }
{
    let mut sector = [0xEE; 512];
    let places = places();
    if index < 25 {
        plan.sector(index, &places, &mut sector);
    }
    sector
}

/// The boot sector of a map, over one that is full of bytes DD.
pub fn boot_sector(plan: &MapPlan) -> Sector
    requires { plan.now.disk ≡ 0 }
{
    let mut sector = [0xEE; 512];
    plan.boot_sector(&places(), &[0xDD; 512], &mut sector);
    sector
}

// The places of a map's sectors, of which none has more than 25.
fn places() -> [DiskSector; 25]
    ensures { All (λ place. place.disk ≡ 0) result }
{
    [
        place(420),
        place(421),
        place(422),
        place(423),
        place(424),
        place(425),
        place(426),
        place(427),
        place(428),
        place(429),
        place(430),
        place(431),
        place(432),
        place(433),
        place(434),
        place(435),
        place(436),
        place(437),
        place(438),
        place(439),
        place(440),
        place(441),
        place(442),
        place(443),
        place(444),
    ]
}

fn place(sector: u64) -> DiskSector
    ensures { result.disk ≡ 0 }
{
    DiskSector { disk: 0, sector }
}
