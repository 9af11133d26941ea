// The header of a kernel: its fields, where the kernel lies in memory, and the fields that a loader replaces.
use sector_parts::{Sector, put_part};
use setup_header::{Header, Layout, Region, SetupFault, patch, plan_memory};

// Bytes of the first two sectors, from an offset on.
type Edit = (usize, &'static [u8]);

// A kernel with one setup sector and no version; one of protocol 2.06 that is loaded high; one that is loaded low; and
// ones that take an initrd below 0x200000 alone, and anywhere.
const BARE: &[Edit] = &[(0x1F1, b"\x01"), (0x1FE, b"\x55\xAA")];

const MODERN: &[Edit] = &[
    (0x1F1, b"\x01"),
    (0x1FE, b"\x55\xAA"),
    (0x202, b"HdrS\x06\x02"),
    (0x211, b"\x01"),
    (0x22C, b"\xFF\xFF\xFF\x37"),
    (0x238, b"\xFF\0\0\0"),
];

const LOW: &[Edit] = &[
    (0x1F1, b"\x01"),
    (0x1FE, b"\x55\xAA"),
    (0x202, b"HdrS\x06\x02"),
    (0x22C, b"\xFF\xFF\xFF\x37"),
    (0x238, b"\xFF\0\0\0"),
];

const NEAR: &[Edit] = &[
    (0x1F1, b"\x01"),
    (0x1FE, b"\x55\xAA"),
    (0x202, b"HdrS\x06\x02"),
    (0x211, b"\x01"),
    (0x22C, b"\xFF\xFF\x1F\0"),
    (0x238, b"\xFF\0\0\0"),
];

const ANYWHERE: &[Edit] = &[
    (0x1F1, b"\x01"),
    (0x1FE, b"\x55\xAA"),
    (0x202, b"HdrS\x06\x02"),
    (0x211, b"\x01"),
    (0x22C, b"\xFF\xFF\xFF\xFF"),
    (0x238, b"\xFF\0\0\0"),
];

// The header of Debian's kernel 6.1 for amd64 (protocol 2.15).
const DEBIAN: &[Edit] = &[
    (0x1F1, b"\x27"),
    (0x1FE, b"\x55\xAA"),
    (0x202, b"HdrS\x0F\x02"),
    (0x211, b"\x01"),
    (0x224, b"\xE0\x5B"),
    (0x22C, b"\xFF\xFF\xFF\x7F"),
    (0x238, b"\xFF\x07\0\0"),
];

// The header that the second of these has, and that of the first; an initrd's last byte is this before 2.03.
const MODERN_HEADER: Header = Header {
    setup: 1,
    version: Some(0x0206),
    high: true,
    initrd_max: 0x37FF_FFFF,
    line_limit: 255,
};

const BARE_HEADER: Header = Header {
    version: None,
    high: false,
    ..MODERN_HEADER
};

// A kernel with some bytes replaced, its length, and its header.
struct Read {
    kernel: &'static [Edit],
    edits: &'static [Edit],
    length: u32,
    header: Result<Header, SetupFault>,
}

const LENGTHS: &[Read] = &[
    // Lengths and setup sectors.
    Read {
        kernel: MODERN,
        edits: &[],
        length: 1029,
        header: Ok(MODERN_HEADER),
    },
    Read {
        kernel: MODERN,
        edits: &[],
        length: 1024,
        header: Ok(MODERN_HEADER),
    },
    Read {
        kernel: MODERN,
        edits: &[],
        length: 1023,
        header: Err(SetupFault::TooShort),
    },
    Read {
        kernel: MODERN,
        edits: &[],
        length: 511,
        header: Err(SetupFault::TooShort),
    },
    Read {
        kernel: MODERN,
        edits: &[(0x1FF, b"\0")],
        length: 511,
        header: Err(SetupFault::TooShort),
    },
    Read {
        kernel: MODERN,
        edits: &[(0x1FF, b"\0")],
        length: 1029,
        header: Err(SetupFault::NoBootFlag),
    },
    Read {
        kernel: MODERN,
        edits: &[(0x1F1, b"\x41"), (0x1FF, b"\0")],
        length: 1029,
        header: Err(SetupFault::NoBootFlag),
    },
    Read {
        kernel: MODERN,
        edits: &[(0x1F1, b"\x41")],
        length: 1029,
        header: Err(SetupFault::SetupTooLarge(65)),
    },
    Read {
        kernel: MODERN,
        edits: &[(0x1F1, b"\x40")],
        length: 33_279,
        header: Err(SetupFault::TooShort),
    },
    Read {
        kernel: MODERN,
        edits: &[(0x1F1, b"\x40")],
        length: 33_280,
        header: Ok(Header {
            setup: 64,
            ..MODERN_HEADER
        }),
    },
    Read {
        kernel: MODERN,
        edits: &[(0x1F1, b"\0")],
        length: 2559,
        header: Err(SetupFault::TooShort),
    },
    Read {
        kernel: MODERN,
        edits: &[(0x1F1, b"\0")],
        length: 2565,
        header: Ok(Header {
            setup: 4,
            ..MODERN_HEADER
        }),
    },
];

fn lengths() -> &'static [Read] {
    LENGTHS
}

const VERSIONS: &[Read] = &[
    // Fields from their versions on.
    Read {
        kernel: MODERN,
        edits: &[
            (0x202, b"HdrS\0\x02"),
            (0x22C, b"\xFF\xFF\xFF\0\0"),
            (0x238, b"\x64"),
        ],
        length: 1029,
        header: Ok(Header {
            version: Some(0x0200),
            ..MODERN_HEADER
        }),
    },
    Read {
        kernel: MODERN,
        edits: &[
            (0x202, b"HdrS\x02\x02"),
            (0x211, b"\x80"),
            (0x22C, b"\xFF\xFF\xFF\0"),
            (0x238, b"\x64"),
        ],
        length: 1029,
        header: Ok(Header {
            version: Some(0x0202),
            high: false,
            ..MODERN_HEADER
        }),
    },
    Read {
        kernel: MODERN,
        edits: &[
            (0x202, b"HdrS\x03\x02"),
            (0x211, b"\x81"),
            (0x22C, b"\xFF\xFF\xFF\0"),
            (0x238, b"\x64"),
        ],
        length: 1029,
        header: Ok(Header {
            version: Some(0x0203),
            initrd_max: 0xFF_FFFF,
            ..MODERN_HEADER
        }),
    },
    Read {
        kernel: MODERN,
        edits: &[
            (0x202, b"HdrS\x05\x02"),
            (0x22C, b"\xFF\xFF\xFF\0"),
            (0x238, b"\x64"),
        ],
        length: 1029,
        header: Ok(Header {
            version: Some(0x0205),
            initrd_max: 0xFF_FFFF,
            ..MODERN_HEADER
        }),
    },
    Read {
        kernel: MODERN,
        edits: &[(0x22C, b"\xFF\xFF\xFF\0"), (0x238, b"\x64")],
        length: 1029,
        header: Ok(Header {
            initrd_max: 0xFF_FFFF,
            line_limit: 100,
            ..MODERN_HEADER
        }),
    },
    Read {
        kernel: MODERN,
        edits: &[
            (0x202, b"Hdrs\x06\x02"),
            (0x22C, b"\xFF\xFF\xFF\0"),
            (0x238, b"\x64"),
        ],
        length: 1029,
        header: Ok(BARE_HEADER),
    },
    // A distribution's kernel.
    Read {
        kernel: DEBIAN,
        edits: &[],
        length: 8_247_232,
        header: Ok(Header {
            setup: 39,
            version: Some(0x020F),
            high: true,
            initrd_max: 0x7FFF_FFFF,
            line_limit: 255,
        }),
    },
];

fn versions() -> &'static [Read] {
    VERSIONS
}

#[test]
fn headers_are_read(rt: HostRuntime) {
    assert_eq!(rt; first_misread(lengths()), None);
    assert_eq!(rt; first_misread(versions()), None);
}

fn first_misread(rows: &[Read]) -> Option<usize> {
    for (at, row) in rows.iter().enumerate() {
        let (first, second) = sectors_of(row.kernel, row.edits);
        if Header::read(&first, &second, row.length) != row.header {
            return Some(at);
        }
    }
    None
}

// The first two sectors of a kernel with some bytes replaced.
fn sectors_of(kernel: &[Edit], edits: &[Edit]) -> (Sector, Sector) {
    let mut first = [0; 512];
    let mut second = [0; 512];
    put_all(&mut first, &mut second, kernel);
    put_all(&mut first, &mut second, edits);
    (first, second)
}

fn put_all(first: &mut Sector, second: &mut Sector, edits: &[Edit]) {
    for (at, bytes) in edits {
        if *at < 512 {
            put(first, *at, bytes);
        } else {
            put(second, *at - 512, bytes);
        }
    }
}

fn put(sector: &mut Sector, at: usize, bytes: &[u8]) {
    if at <= 512 && bytes.len() <= 512 - at {
        put_part(sector, at, bytes);
    }
}

// A kernel with so many bytes in its real-mode part and after it, an initrd, a line, and the bytes of memory; and where
// the protected-mode part and the initrd lie then.
struct Placed {
    kernel: &'static [Edit],
    real: u32,
    rest: u32,
    initrd: Option<u32>,
    line: u32,
    memory: u32,
    places: Result<(u32, Option<u32>), SetupFault>,
}

const PLAIN: Placed = Placed {
    kernel: MODERN,
    real: 1024,
    rest: 5,
    initrd: None,
    line: 33,
    memory: 16_777_216,
    places: Ok((0x10_0000, None)),
};

const FITS: &[Placed] = &[
    PLAIN,
    Placed {
        memory: 1_048_581,
        ..PLAIN
    },
    Placed {
        initrd: Some(700),
        places: Ok((0x10_0000, Some(0xFF_F000))),
        ..PLAIN
    },
    Placed {
        initrd: Some(0),
        places: Ok((0x10_0000, Some(0x100_0000))),
        ..PLAIN
    },
    Placed {
        initrd: Some(15_724_544),
        places: Ok((0x10_0000, Some(0x10_1000))),
        ..PLAIN
    },
    Placed {
        kernel: NEAR,
        initrd: Some(700),
        places: Ok((0x10_0000, Some(0x1F_F000))),
        ..PLAIN
    },
    Placed {
        kernel: ANYWHERE,
        initrd: Some(700),
        memory: 1_073_741_824,
        places: Ok((0x10_0000, Some(0x3FFF_F000))),
        ..PLAIN
    },
    Placed {
        kernel: LOW,
        rest: 524_288,
        memory: 1_048_576,
        places: Ok((0x1_0000, None)),
        ..PLAIN
    },
    Placed {
        kernel: LOW,
        initrd: Some(700),
        places: Ok((0x1_0000, Some(0xFF_F000))),
        ..PLAIN
    },
    Placed {
        kernel: BARE,
        places: Ok((0x1_0000, None)),
        ..PLAIN
    },
    Placed {
        kernel: DEBIAN,
        real: 20_480,
        rest: 8_226_752,
        initrd: Some(1_028_475),
        places: Ok((0x10_0000, Some(0x00F0_4000))),
        ..PLAIN
    },
];

fn fits() -> &'static [Placed] {
    FITS
}

const REFUSED: &[Placed] = &[
    // What doesn't fit.
    Placed {
        memory: 1_048_576,
        places: Err(SetupFault::NoRoom {
            need: 1_048_581,
            have: 1_048_576,
        }),
        ..PLAIN
    },
    Placed {
        initrd: Some(700),
        memory: 1_048_576,
        places: Err(SetupFault::NoRoom {
            need: 1_048_581,
            have: 1_048_576,
        }),
        ..PLAIN
    },
    Placed {
        initrd: Some(15_724_545),
        places: Err(SetupFault::NoRoom {
            need: 16_777_217,
            have: 16_777_216,
        }),
        ..PLAIN
    },
    Placed {
        kernel: NEAR,
        initrd: Some(1_044_481),
        places: Err(SetupFault::NoRoom {
            need: 2_097_153,
            have: 2_097_152,
        }),
        ..PLAIN
    },
    Placed {
        kernel: LOW,
        initrd: Some(700),
        memory: 1_048_576,
        places: Err(SetupFault::NoRoom {
            need: 1_049_276,
            have: 1_048_576,
        }),
        ..PLAIN
    },
    Placed {
        line: 256,
        memory: 1_048_576,
        places: Err(SetupFault::LineTooLong(256)),
        ..PLAIN
    },
    Placed {
        kernel: BARE,
        initrd: Some(700),
        line: 256,
        memory: 1_048_576,
        places: Err(SetupFault::NoInitrd),
        ..PLAIN
    },
    Placed {
        kernel: BARE,
        rest: 524_289,
        initrd: Some(700),
        memory: 1_048_576,
        places: Err(SetupFault::LowTooLarge(524_289)),
        ..PLAIN
    },
    Placed {
        kernel: LOW,
        rest: 524_289,
        line: 256,
        memory: 1_048_576,
        places: Err(SetupFault::LowTooLarge(524_289)),
        ..PLAIN
    },
];

fn refused() -> &'static [Placed] {
    REFUSED
}

#[test]
fn layouts_are_planned(rt: HostRuntime) {
    assert_eq!(rt; first_misplaced(fits()), None);
    assert_eq!(rt; first_misplaced(refused()), None);
}

fn first_misplaced(rows: &[Placed]) -> Option<usize> {
    for (at, row) in rows.iter().enumerate() {
        if planned(row) != layout_of(row) {
            return Some(at);
        }
    }
    None
}

fn planned(row: &Placed) -> Result<Layout, SetupFault> {
    let (first, second) = sectors_of(row.kernel, &[]);
    let length = row.rest.saturating_add(row.real);
    let header = Header::read(&first, &second, length)?;
    plan_memory(&header, length, row.initrd, row.line, row.memory)
}

fn layout_of(row: &Placed) -> Result<Layout, SetupFault> {
    match row.places {
        Ok((protected, initrd)) => Ok(Layout {
            real: region(0x90000, row.real),
            protected: region(protected, row.rest),
            initrd: initrd.map(|address| region(address, row.initrd.unwrap_or(0))),
            line: region(0x99800, row.line.saturating_add(1)),
        }),
        Err(fault) => Err(fault),
    }
}

fn region(address: u32, length: u32) -> Region {
    Region { address, length }
}

// A kernel with the mark of a version, its length, a video mode, an initrd's address and length, and the bytes that are
// replaced.
struct Patched {
    kernel: &'static [Edit],
    mark: Edit,
    length: u32,
    vga: Option<u16>,
    initrd: Option<Region>,
    edits: &'static [Edit],
}

const INITRD: Option<Region> = Some(Region {
    address: 0x00FF_F000,
    length: 700,
});

const PATCHED: &[Patched] = &[
    Patched {
        kernel: MODERN,
        mark: (0x202, b"HdrS\x06\x02"),
        length: 1029,
        vga: None,
        initrd: INITRD,
        edits: &[
            (0x210, b"\x02\x81"),
            (0x218, b"\0\xF0\xFF\0\xBC\x02\0\0"),
            (0x224, b"\0\x96"),
            (0x228, b"\0\x98\x09\0"),
        ],
    },
    Patched {
        kernel: MODERN,
        mark: (0x202, b"HdrS\x06\x02"),
        length: 1029,
        vga: None,
        initrd: None,
        edits: &[
            (0x210, b"\x02\x81"),
            (0x224, b"\0\x96"),
            (0x228, b"\0\x98\x09\0"),
        ],
    },
    Patched {
        kernel: MODERN,
        mark: (0x202, b"HdrS\x02\x02"),
        length: 1029,
        vga: Some(0x0F04),
        initrd: None,
        edits: &[
            (0x1FA, b"\x04\x0F"),
            (0x210, b"\x02\x81"),
            (0x224, b"\0\x96"),
            (0x228, b"\0\x98\x09\0"),
        ],
    },
    Patched {
        kernel: MODERN,
        mark: (0x202, b"HdrS\x01\x02"),
        length: 1029,
        vga: None,
        initrd: INITRD,
        edits: &[
            (0x20, b"\x3F\xA3\0\x98"),
            (0x210, b"\x02\x81"),
            (0x218, b"\0\xF0\xFF\0\xBC\x02\0\0"),
            (0x224, b"\0\x96"),
        ],
    },
    Patched {
        kernel: MODERN,
        mark: (0x202, b"HdrS\0\x02"),
        length: 1029,
        vga: None,
        initrd: INITRD,
        edits: &[
            (0x20, b"\x3F\xA3\0\x98"),
            (0x210, b"\x02"),
            (0x218, b"\0\xF0\xFF\0\xBC\x02\0\0"),
        ],
    },
    Patched {
        kernel: MODERN,
        mark: (0x202, b"Hdrs\x06\x02"),
        length: 1029,
        vga: Some(0x0F04),
        initrd: None,
        edits: &[(0x20, b"\x3F\xA3\0\x98"), (0x1FA, b"\x04\x0F")],
    },
    Patched {
        kernel: DEBIAN,
        mark: (0x202, b"HdrS\x0F\x02"),
        length: 8_247_232,
        vga: None,
        initrd: Some(Region {
            address: 0x00F0_4000,
            length: 1_028_475,
        }),
        edits: &[
            (0x210, b"\x02\x81"),
            (0x218, b"\0\x40\xF0\0\x7B\xB1\x0F\0"),
            (0x224, b"\0\x96"),
            (0x228, b"\0\x98\x09\0"),
        ],
    },
];

#[test]
fn fields_are_replaced(rt: HostRuntime) {
    for (at, row) in PATCHED.iter().enumerate() {
        assert!(rt; is_patched(row), "{at}");
    }
}

fn is_patched(row: &Patched) -> bool {
    let (mut first, mut second) = sectors_of(row.kernel, &[row.mark]);
    let layout = Layout {
        real: region(0x90000, 1024),
        protected: region(0x10_0000, 5),
        initrd: row.initrd,
        line: region(0x99800, 34),
    };
    match Header::read(&first, &second, row.length) {
        Ok(header) => {
            patch(&header, &layout, row.vga, &mut first, &mut second);
            let (mut wanted, mut next) = sectors_of(row.kernel, &[row.mark]);
            for (at, bytes) in row.edits {
                if *at < 512 {
                    put(&mut wanted, *at, bytes);
                } else {
                    put(&mut next, *at - 512, bytes);
                }
            }
            first == wanted && second == next
        }
        Err(_) => false,
    }
}
