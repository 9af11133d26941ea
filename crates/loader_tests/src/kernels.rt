// Kernels that are loaded, with all the bytes of memory then.
use crate::boot::{Boot, Held, PLAIN, come_true};
use setup_header::Region;
use std::test::Fail;

// A cylinder has 42 sectors.
const SMALL: (u16, u8) = (3, 14);

// The slots of a section.
const SLOTS: &[Boot] = &[
    PLAIN,
    Boot {
        what: "slots by cylinder, head and sector",
        edits: &[(
            100,
            0,
            b"\x01\x80\x01\0\x14\0\x01\0\x01\x80\x01\0\x15\0\x01\0\x01\x80\x01\0\x16\0\x01\0",
        )],
        ..PLAIN
    },
    Boot {
        what: "one slot for three sectors",
        edits: &[(
            100,
            0,
            b"\x03\x80\x03\0\x52\0\0\0\0\0\0\0\0\0\0\0\0\0\0\0\0\0\0\0",
        )],
        ..PLAIN
    },
    Boot {
        what: "the same by cylinder, head and sector",
        edits: &[(
            100,
            0,
            b"\x01\x80\x03\0\x14\0\x01\0\0\0\0\0\0\0\0\0\0\0\0\0\0\0\0\0",
        )],
        ..PLAIN
    },
    Boot {
        what: "a linear slot for two sectors, and one with more than are needed",
        edits: &[(
            100,
            0,
            b"\x02\x80\x02\0\x52\0\0\0\x03\x80\x7F\0\x54\0\0\0\0\0\0\0\0\0\0\0",
        )],
        ..PLAIN
    },
    Boot {
        what: "the last sector of the disk",
        edits: &[(100, 16, b"\x03\x80\x01\0\xFF\x01\0\0")],
        also: &[(0x10_0000, 5, b"\0")],
        ..PLAIN
    },
];

fn slots() -> &'static [Boot] {
    SLOTS
}

const CYLINDERS: &[Boot] = &[
    // The kernel's third sector is the first of a cylinder.
    Boot {
        what: "a slot for each sector on a disk of small cylinders",
        geometry: SMALL,
        ..PLAIN
    },
    Boot {
        what: "one slot over a cylinder's end, by number",
        geometry: SMALL,
        edits: &[(
            100,
            0,
            b"\x03\x80\x03\0\x52\0\0\0\0\0\0\0\0\0\0\0\0\0\0\0\0\0\0\0",
        )],
        ..PLAIN
    },
    Boot {
        what: "one slot over a cylinder's end, linear",
        geometry: SMALL,
        edits: &[(
            100,
            0,
            b"\x02\x80\x03\0\x52\0\0\0\0\0\0\0\0\0\0\0\0\0\0\0\0\0\0\0",
        )],
        ..PLAIN
    },
    Boot {
        what: "one slot up to a track's end",
        geometry: SMALL,
        edits: &[(
            100,
            0,
            b"\x01\x80\x02\0\x0D\x01\x02\0\x01\x80\x01\0\x01\x02\0\0\0\0\0\0\0\0\0\0",
        )],
        ..PLAIN
    },
];

fn cylinders() -> &'static [Boot] {
    CYLINDERS
}

const LONGER: &[Boot] = &[
    // 256 sectors, by a slot of 2 and two of 127, and by five section sectors.
    Boot {
        what: "slots of 127 sectors",
        is_long: true,
        edits: &[
            (95, 20, b"\0\0\x02\0"),
            (
                100,
                0,
                b"\x03\x80\x02\0\x52\0\0\0\x03\x80\x7F\0\x80\0\0\0\x03\x80\x7F\0\xFF\0\0\0",
            ),
        ],
        protected: LONG,
        also: &[(0x10_0000, 5, b"\x80")],
        ..PLAIN
    },
    Boot {
        what: "five section sectors",
        is_long: true,
        edits: &[
            (95, 20, b"\0\0\x02\0"),
            (95, 40, b"\x6E"),
            (95, 52, b"\x05"),
        ],
        protected: LONG,
        also: &[(0x10_0000, 5, b"\x80")],
        ..PLAIN
    },
    // A file's hole is the zero sector of the map.
    Boot {
        what: "a hole in the middle, and slots of all modes",
        edits: &[
            (95, 20, b"\x05\x06"),
            (
                100,
                0,
                b"\x01\x80\x01\0\x14\0\x01\0\x02\x80\x01\0\x53\0\0\0\x03\x80\x01\0\x62\0\0\0\x03\x80\x01\0\x54\0\0\0",
            ),
        ],
        protected: MORE,
        also: &[(0x10_0000, 512, b"\0"), (0x10_0200, 1, b"HELLO")],
        ..PLAIN
    },
    Boot {
        what: "a hole at the end",
        edits: &[
            (95, 20, b"\x05\x06"),
            (
                100,
                0,
                b"\x01\x80\x01\0\x14\0\x01\0\x02\x80\x01\0\x53\0\0\0\x03\x80\x01\0\x54\0\0\0\x03\x80\x01\0\x62\0\0\0",
            ),
        ],
        protected: MORE,
        also: &[(0x10_0005, 512, b"\0")],
        ..PLAIN
    },
];

fn longer() -> &'static [Boot] {
    LONGER
}

const INITRDS: &[Boot] = &[
    // An initrd of 700 bytes lies as high as it can.
    Boot {
        what: "an initrd in 16 MiB",
        memory: 16_777_216,
        base: INITRD,
        full: &[(86, 0xA5), (87, 0xA5)],
        initrd: Some(Region {
            address: 0xFF_F000,
            length: 700,
        }),
        also: &[
            (0x9_0218, 1, b"\0\xF0\xFF\0\xBC\x02\0\0"),
            (0xFF_F000, 700, b"\xA5"),
        ],
        ..PLAIN
    },
    Boot {
        what: "an initrd in 2 MiB",
        base: INITRD,
        full: &[(86, 0xA5), (87, 0xA5)],
        initrd: IN_2_MIB,
        also: &[
            (0x9_0218, 1, b"\0\xF0\x1F\0\xBC\x02\0\0"),
            (0x1F_F000, 700, b"\xA5"),
        ],
        ..PLAIN
    },
    Boot {
        what: "an initrd by one slot",
        base: INITRD,
        full: &[(86, 0xA5), (87, 0xA6)],
        edits: &[(101, 0, b"\x03\x80\x02\0\x56\0\0\0\0\0\0\0\0\0\0\0")],
        initrd: IN_2_MIB,
        also: &[
            (0x9_0218, 1, b"\0\xF0\x1F\0\xBC\x02\0\0"),
            (0x1F_F000, 512, b"\xA5"),
            (0x1F_F200, 188, b"\xA6"),
        ],
        ..PLAIN
    },
    Boot {
        what: "an initrd by one slot with more than it needs",
        base: INITRD,
        full: &[(86, 0xA5), (87, 0xA6)],
        edits: &[(101, 0, b"\x03\x80\x7F\0\x56\0\0\0\0\0\0\0\0\0\0\0")],
        initrd: IN_2_MIB,
        also: &[
            (0x9_0218, 1, b"\0\xF0\x1F\0\xBC\x02\0\0"),
            (0x1F_F000, 512, b"\xA5"),
            (0x1F_F200, 188, b"\xA6"),
        ],
        ..PLAIN
    },
    // The most is an address in the middle of a page.
    Boot {
        what: "an initrd below a kernel's limit",
        base: INITRD,
        full: &[(86, 0xA5), (87, 0xA5)],
        edits: &[(83, 0x2C, b"\xFF\x01\x18\0")],
        initrd: Some(Region {
            address: 0x17_F000,
            length: 700,
        }),
        also: &[
            (0x9_0218, 1, b"\0\xF0\x17\0\xBC\x02\0\0"),
            (0x9_022C, 1, b"\xFF\x01\x18\0"),
            (0x17_F000, 700, b"\xA5"),
        ],
        ..PLAIN
    },
];

fn initrds() -> &'static [Boot] {
    INITRDS
}

const VERSIONS: &[Boot] = &[
    // The protected-mode part lies low, and the line is given by its offset.
    Boot {
        what: "a kernel without a version",
        edits: &[(83, 2, &[0; 16])],
        protected: Region {
            address: 0x1_0000,
            length: 5,
        },
        held: Held::LowKernel,
        ..PLAIN
    },
];

fn versions() -> &'static [Boot] {
    VERSIONS
}

const INITRD: &[(usize, usize, &[u8])] = &[
    (95, 16, b"\x40"),
    (95, 24, b"\xBC\x02"),
    (95, 44, b"\x03\x80\x01\0\x65\0\0\0\x01\0\x01\0"),
    (101, 0, b"\x03\x80\x01\0\x56\0\0\0\x03\x80\x01\0\x57\0\0\0"),
];

const IN_2_MIB: Option<Region> = Some(Region {
    address: 0x1F_F000,
    length: 700,
});

const LONG: Region = Region {
    address: 0x10_0000,
    length: 130_048,
};

// With one sector more, 1541 bytes.
const MORE: Region = Region {
    address: 0x10_0000,
    length: 517,
};

#[test]
fn kernels_are_loaded(rt: HostRuntime) -> Result<(), Fail> {
    come_true(
        &rt,
        rt.alloc(),
        &[slots(), cylinders(), longer(), initrds(), versions()],
    )
}
