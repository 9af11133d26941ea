// What is refused, and what is shown then.
use crate::boot::{Boot, Held, PLAIN, come_true};
use crate::installation::Edit;
use loader_core::{Outcome, Reason};
use setup_header::SetupFault;
use std::test::Fail;

const NUMBERS: &[Boot] = &[
    // Fields of the boot sector.
    Boot {
        what: "20 names",
        edits: &[(0, 0x12, b"\x14\0")],
        ..MAP
    },
    Boot {
        what: "no name",
        edits: &[(0, 0x12, b"\0\0")],
        ..MAP
    },
    Boot {
        what: "a flag that isn't known",
        edits: &[(0, 0x0C, b"\x02\0")],
        ..MAP
    },
    Boot {
        what: "a delay of 65535",
        edits: &[(0, 0x0E, b"\xFF\xFF")],
        ..MAP
    },
    Boot {
        what: "a default past the names",
        edits: &[(0, 0x60, b"\x01\0")],
        ..MAP
    },
];

fn numbers() -> &'static [Boot] {
    NUMBERS
}

const SLOTS: &[Boot] = &[
    Boot {
        what: "no zero before the code",
        edits: &[(0, 0x7E, b"\x01\0")],
        ..MAP
    },
    Boot {
        what: "a fourth table sector",
        edits: &[(0, 0x48, b"\x03\x80")],
        ..MAP
    },
    Boot {
        what: "a message without a sector",
        edits: &[(0, 0x14, b"\x01\0")],
        ..MAP
    },
    Boot {
        what: "a default line of two sectors",
        edits: &[(0, 0x1A, b"\x02\0")],
        ..MAP
    },
];

fn slots() -> &'static [Boot] {
    SLOTS
}

const ENTRIES: &[Boot] = &[
    // Entries of the table.
    Boot {
        what: "an entry without a name",
        edits: &[(95, 0, b"\0\0\0\0\0\0")],
        ..ENTRY_0
    },
    Boot {
        what: "an initrd without a sector",
        edits: &[(95, 44, b"\0\0\0\0\0\0")],
        ..ENTRY_0
    },
    Boot {
        what: "the name of the first entry again",
        edits: &[(95, 64, b"linux\0")],
        ..ENTRY_1
    },
    Boot {
        what: "lock and fallback",
        edits: &[(95, 80, b"\x18\0\0\0\x84\x03")],
        ..ENTRY_1
    },
    Boot {
        what: "a lock alone, with the sector of a fallback",
        edits: &[(95, 80, b"\x08\0\0\0\x84\x03")],
        ..ENTRY_1
    },
    Boot {
        what: "options of two sectors",
        edits: &[(95, 92, b"\x03\x80\x02\0\x66\0")],
        ..ENTRY_1
    },
];

fn entries() -> &'static [Boot] {
    ENTRIES
}

const TEXTS: &[Boot] = &[
    // Texts.
    Boot {
        what: "a password of 32 bytes",
        base: GUARDED,
        edits: &[(102, 2, b"\x20\0")],
        ..MAP
    },
    Boot {
        what: "a fallback of 256 bytes",
        base: GUARDED,
        edits: &[(102, 0, b"\0\x01\x03\0")],
        ..MAP
    },
    Boot {
        what: "options of 256 bytes",
        edits: &[(99, 0, b"\0\x01")],
        shown: b"LILO\nError\n",
        ..MAP
    },
];

fn texts() -> &'static [Boot] {
    TEXTS
}

const LINES: &[Boot] = &[
    // The default line: its mark, its state and its length.
    Boot {
        what: "a line without its mark",
        edits: &[(94, 0, b"LINX\x01\0\x0C\0linux single")],
        left: b"LINX\x01\0\x0C\0linux single",
        ..LINE
    },
    Boot {
        what: "an empty line with a byte",
        edits: &[(94, 0, b"LINE\0\0\x01\0linux single")],
        left: b"LINE\0\0\x01\0linux single",
        ..LINE
    },
    Boot {
        what: "a line for one boot without a byte",
        edits: &[(94, 0, b"LINE\x01\0\0\0linux single")],
        left: b"LINE\x01\0\0\0linux single",
        ..LINE
    },
    Boot {
        what: "a line of 256 bytes",
        edits: &[(94, 0, b"LINE\x01\0\0\x01linux single")],
        left: b"LINE\x01\0\0\x01linux single",
        ..LINE
    },
    Boot {
        what: "a state that isn't known",
        edits: &[(94, 0, b"LINE\x03\0\x0C\0linux single")],
        left: b"LINE\x03\0\x0C\0linux single",
        ..LINE
    },
];

fn lines() -> &'static [Boot] {
    LINES
}

const MISSING: &[Boot] = &[
    // Sectors that aren't there.
    Boot {
        what: "a sector of the table",
        edits: &[(0, 0x44, b"\0\x10")],
        shown: b"L 04\n",
        ..NOT_FOUND
    },
    Boot {
        what: "the options",
        edits: &[(95, 32, b"\0\x10")],
        shown: b"LILO\nError 04\n",
        ..NOT_FOUND
    },
    Boot {
        what: "a section sector",
        edits: &[(95, 40, b"\0\x10")],
        ..NOT_FOUND
    },
    Boot {
        what: "the first sector past the disk",
        edits: &[(100, 16, b"\x03\x80\x01\0\0\x02\0\0")],
        ..NOT_FOUND
    },
    Boot {
        what: "the second sector of a slot past the disk",
        edits: &[
            (95, 20, b"\x05\x06"),
            (100, 16, b"\x03\x80\x02\0\xFF\x01\0\0"),
        ],
        ..NOT_FOUND
    },
    Boot {
        what: "the second sector of a slot past the track",
        edits: &[
            (95, 20, b"\x05\x06"),
            (100, 16, b"\x01\x80\x02\0\x3F\0\0\0"),
        ],
        ..NOT_FOUND
    },
    Boot {
        what: "a disk that isn't there",
        edits: &[(100, 0, b"\x03\x81\x01\0\x52\0\0\0")],
        ..NOT_FOUND
    },
];

fn missing() -> &'static [Boot] {
    MISSING
}

const SECTIONS: &[Boot] = &[
    // Sections.
    Boot {
        what: "the third slot is none",
        edits: &[(100, 16, &[0; 8])],
        end: Some(Outcome::Refused(Reason::ShortChain(2))),
        ..FILE
    },
    Boot {
        what: "no slot for a fourth sector",
        edits: &[(95, 20, b"\x05\x06")],
        end: Some(Outcome::Refused(Reason::ShortChain(3))),
        ..FILE
    },
    Boot {
        what: "a section of zeros",
        edits: &[(100, 0, &[0; 24])],
        end: Some(Outcome::Refused(Reason::ShortChain(0))),
        ..FILE
    },
    Boot {
        what: "a mode that isn't known",
        edits: &[(100, 8, b"\x04")],
        end: Some(Outcome::Refused(Reason::BadSlot(1))),
        ..FILE
    },
    Boot {
        what: "a count of 128 at place 3",
        edits: &[(95, 20, b"\x05\x06"), (100, 24, b"\x03\x80\x80\0\x54")],
        end: Some(Outcome::Refused(Reason::BadSlot(3))),
        ..FILE
    },
];

fn sections() -> &'static [Boot] {
    SECTIONS
}

const CHAINS: &[Boot] = &[
    // It is refused so though no section sector may follow.
    Boot {
        what: "a link of two sectors",
        edits: &[(95, 20, b"\x05\x06"), (100, 504, b"\x03\x80\x02\0\x64")],
        end: Some(Outcome::Refused(Reason::BadSlot(63))),
        ..FILE
    },
    Boot {
        what: "a section sector that links to itself",
        edits: &[(95, 20, b"\x05\x06"), (100, 504, b"\x03\x80\x01\0\x64")],
        end: Some(Outcome::Refused(Reason::ChainTooLong(1))),
        ..FILE
    },
    Boot {
        what: "one slot for an initrd of two sectors",
        edits: &[
            (95, 16, b"\x40\0\0\0\x05\x04\0\0\xBC\x02"),
            (95, 44, b"\x03\x80\x01\0\x65\0\0\0\x01\0\x01\0"),
            (101, 0, b"\x03\x80\x01\0\x56"),
        ],
        end: Some(Outcome::Refused(Reason::ShortChain(1))),
        ..FILE
    },
];

fn chains() -> &'static [Boot] {
    CHAINS
}

const KERNELS: &[Boot] = &[
    // Kernels.
    Boot {
        what: "a hole at the start",
        edits: &[(100, 0, b"\x03\x80\x01\0\x62\0\0\0")],
        end: Some(Outcome::Refused(Reason::Header(SetupFault::NoBootFlag))),
        ..FILE
    },
    Boot {
        what: "no boot flag",
        edits: &[(82, 0x1FE, b"\0")],
        end: Some(Outcome::Refused(Reason::Header(SetupFault::NoBootFlag))),
        ..FILE
    },
    Boot {
        what: "two setup sectors",
        edits: &[(82, 0x1F1, b"\x02")],
        end: Some(Outcome::Refused(Reason::Header(SetupFault::TooShort))),
        ..FILE
    },
    Boot {
        what: "a line of 33 bytes over 32",
        edits: &[(83, 0x38, b"\x20")],
        end: Some(Outcome::Refused(Reason::Header(SetupFault::LineTooLong(33)))),
        ..FILE
    },
    Boot {
        what: "an initrd for a kernel without a version",
        edits: &[
            (83, 2, &[0; 16]),
            (95, 16, b"\x40\0\0\0\x05\x04\0\0\xBC\x02"),
            (95, 44, b"\x03\x80\x01\0\x65\0\0\0\x01\0\x01\0"),
        ],
        end: Some(Outcome::Refused(Reason::Header(SetupFault::NoInitrd))),
        ..FILE
    },
    Boot {
        what: "1 MiB of memory",
        memory: 1_048_576,
        end: Some(Outcome::Refused(Reason::Header(SetupFault::NoRoom {
            need: 1_048_581,
            have: 1_048_576,
        }))),
        ..FILE
    },
];

fn kernels() -> &'static [Boot] {
    KERNELS
}

const MAP: Boot = Boot {
    end: Some(Outcome::Refused(Reason::BadTable(255))),
    shown: b"LIL-\n",
    held: Held::Unsaid,
    ..PLAIN
};

const ENTRY_0: Boot = Boot {
    base: TWO_ENTRIES,
    end: Some(Outcome::Refused(Reason::BadTable(0))),
    ..MAP
};

const ENTRY_1: Boot = Boot {
    base: TWO_ENTRIES,
    end: Some(Outcome::Refused(Reason::BadTable(1))),
    ..MAP
};

const LINE: Boot = Boot {
    end: Some(Outcome::Refused(Reason::BadLine)),
    ..MAP
};

const FILE: Boot = Boot {
    shown: b"LILO\nLoading linux\nError\n",
    held: Held::Unsaid,
    ..PLAIN
};

const NOT_FOUND: Boot = Boot {
    end: Some(Outcome::Refused(Reason::NotFound)),
    shown: b"LILO\nLoading linux\nError 04\n",
    held: Held::Unsaid,
    ..PLAIN
};

// `linux` with an initrd and `next` with a fallback, as docs/FORMATS.md has them.
const TWO_ENTRIES: &[Edit] = &[
    (0, 0x12, b"\x02\0"),
    (
        95,
        0,
        b"linux\0\0\0\0\0\0\0\0\0\0\0\x40\0\0\0\x05\x04\0\0\xBC\x02\0\0\x03\x80\x01\0\x63\0\0\0\x03\x80\x01\0\x64\0\0\0\x03\x80\x01\0\x65\0\0\0\x01\0\x01\0\0\0\0\0\0\0\0\0",
    ),
    (
        95,
        64,
        b"next\0\0\0\0\0\0\0\0\0\0\0\0\x10\0\0\0\x84\x03\0\0\0\0\0\0\x03\x80\x01\0\x66\0\0\0\x03\x80\x01\0\x67\0\0\0\0\0\0\0\0\0\0\0\x01\0\0\0\x03\x80\x01\0\x68\0\0\0",
    ),
];

// A password, in an extra sector.
const GUARDED: &[Edit] = &[
    (95, 16, b"\x02"),
    (95, 56, b"\x03\x80\x01\0\x66\0\0\0"),
    (102, 0, b"\0\0\x03"),
    (102, 480, b"tux"),
];

#[test]
fn boots_are_refused(rt: HostRuntime) -> Result<(), Fail> {
    come_true(
        &rt,
        rt.alloc(),
        &[
            numbers(),
            slots(),
            entries(),
            texts(),
            lines(),
            missing(),
            sections(),
            chains(),
            kernels(),
        ],
    )
}
