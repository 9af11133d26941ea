// Other systems' boot sectors, which are handed over, with all the bytes of memory then.
use crate::boot::{Boot, Held, PLAIN, Piece, come_true};
use loader_core::{Outcome, Reason};
use std::test::Fail;

const HANDED: Boot = Boot {
    end: Some(Outcome::Handed),
    shown: b"",
    held: Held::Others,
    also: FOREIGN,
    ..PLAIN
};

// A boot sector of zeros before its signature.
const FOREIGN: &[Piece] = &[(0x7C00, 510, b"\0"), (0x7DFE, 1, b"\x55\xAA")];

const NOT_BOOTABLE: Boot = Boot {
    end: Some(Outcome::Refused(Reason::NotBootable)),
    held: Held::Unsaid,
    also: &[],
    ..HANDED
};

const ENTRIES: &[Boot] = &[
    Boot {
        what: "an entry of another system",
        full: &[(82, 0x66), (83, 0x77)],
        edits: &[(95, 16, b"\x01"), (95, 20, b"\0\x02")],
        shown: b"LILO\nLoading linux\n",
        also: &[(0x7C00, 512, b"\x66")],
        ..HANDED
    },
    Boot {
        what: "one with a partition table",
        full: &[(82, 0x66), (83, 0x77)],
        edits: &[(95, 16, b"\x81"), (95, 20, b"\0\x04")],
        shown: b"LILO\nLoading linux\n",
        also: &[(0x7BE, 64, b"\x77"), (0x7C00, 512, b"\x66")],
        ..HANDED
    },
];

fn entries() -> &'static [Boot] {
    ENTRIES
}

const DEVICES: &[Boot] = &[
    // First sectors that aren't of this format.
    Boot {
        what: "a blank disk",
        full: &[(0, 0)],
        ..NOT_BOOTABLE
    },
    Boot {
        what: "another system's disk",
        full: &[(0, 0)],
        edits: &[(0, 0x1FE, b"\x55\xAA")],
        ..HANDED
    },
    Boot {
        what: "a blank partition",
        full: &[(64, 0)],
        start: 64,
        ..NOT_BOOTABLE
    },
    Boot {
        what: "another system's partition",
        full: &[(64, 0)],
        edits: &[(64, 0x1FE, b"\x55\xAA")],
        start: 64,
        ..HANDED
    },
];

fn devices() -> &'static [Boot] {
    DEVICES
}

const FORMATS: &[Boot] = &[
    Boot {
        what: "a first byte of others",
        edits: &[(0, 0, b"\0\0")],
        also: &[],
        held: Held::Unsaid,
        ..HANDED
    },
    Boot {
        what: "another version",
        edits: &[(0, 0x06, b"\x03\0")],
        also: &[],
        held: Held::Unsaid,
        ..HANDED
    },
    Boot {
        what: "no signature at the end",
        edits: &[(0, 0x1FE, b"\0\0")],
        ..NOT_BOOTABLE
    },
];

fn formats() -> &'static [Boot] {
    FORMATS
}

#[test]
fn other_systems_are_handed_over(rt: HostRuntime) -> Result<(), Fail> {
    come_true(&rt, rt.alloc(), &[entries(), devices(), formats()])
}
