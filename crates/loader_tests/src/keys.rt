// What a prompt shows and answers to keys. A tick, a tenth of a second, is the byte 0x16.
use crate::boot::{Boot, Held, PLAIN, come_true};
use crate::installation::Edit;
use loader_core::{Outcome, Reason};
use std::test::Fail;

const IDLE: Option<Outcome> = Some(Outcome::Refused(Reason::Idle));

const ENDS: &[Boot] = &[
    Boot {
        what: "keys that end",
        end: IDLE,
        shown: b"LILO\nHello.\nboot: ",
        held: Held::Unsaid,
        ..ASKING
    },
    Boot {
        what: "keys that end in a line",
        keys: b"li",
        end: IDLE,
        shown: b"LILO\nHello.\nboot: li",
        held: Held::Unsaid,
        ..ASKING
    },
    Boot {
        what: "a timeout without keys",
        edits: &[(0, 0x10, b"\x02\0")],
        shown: b"LILO\nHello.\nboot: \nLoading linux\n",
        ..ASKING
    },
    Boot {
        what: "its last tick before a key",
        edits: &[(0, 0x10, b"\x02\0")],
        keys: b"\x16\x16x",
        shown: b"LILO\nHello.\nboot: \nLoading linux\n",
        ..ASKING
    },
];

fn ends() -> &'static [Boot] {
    ENDS
}

const DELAYS: &[Boot] = &[
    Boot {
        what: "no prompt",
        edits: &[(0, 0x0C, b"\0")],
        keys: b"x",
        shown: b"LILO\nLoading linux\n",
        ..ASKING
    },
    Boot {
        what: "a key in the delay",
        edits: &[(0, 0x0C, b"\0\0\x03")],
        keys: b"\x16\x16x",
        end: IDLE,
        shown: b"LILO\nHello.\nboot: x",
        held: Held::Unsaid,
        ..ASKING
    },
    Boot {
        what: "a key after the delay",
        edits: &[(0, 0x0C, b"\0\0\x03")],
        keys: b"\x16\x16\x16x",
        shown: b"LILO\nLoading linux\n",
        ..ASKING
    },
    Boot {
        what: "the names by a key in the delay",
        edits: &[(0, 0x0C, b"\0\0\x03")],
        keys: b"\t",
        end: IDLE,
        shown: b"LILO\nHello.\nboot: \nlinux\ndos\nboot: ",
        held: Held::Unsaid,
        ..ASKING
    },
];

fn delays() -> &'static [Boot] {
    DELAYS
}

const NAMES: &[Boot] = &[
    Boot {
        what: "a name",
        keys: b"linux\n",
        line: 29,
        shown: b"LILO\nHello.\nboot: linux\nLoading linux\n",
        also: &[
            (0x9_9800, 34, b"\xEE"),
            (0x9_9800, 1, b"BOOT_IMAGE=linux ro root=301\0"),
        ],
        ..ASKING
    },
    Boot {
        what: "the names, and one of them",
        keys: b"\tdos\r!",
        line: 27,
        shown: b"LILO\nHello.\nboot: \nlinux\ndos\nboot: dos\nLoading dos\n",
        also: &[
            (0x9_9800, 34, b"\xEE"),
            (0x9_9800, 1, b"BOOT_IMAGE=dos ro root=301\0"),
        ],
        ..ASKING
    },
    Boot {
        what: "a line that is corrected, begun again and has a video mode",
        keys: b"x\x08?\x15dos  a vga=ask b\n",
        line: 31,
        shown: b"LILO\nHello.\nboot: x\x08 \x08?\nboot: dos  a vga=ask b\nLoading dos\n",
        also: &[
            (0x9_01FA, 1, b"\xFD\xFF"),
            (0x9_9800, 34, b"\xEE"),
            (0x9_9800, 1, b"BOOT_IMAGE=dos ro root=301 a b\0"),
        ],
        ..ASKING
    },
    Boot {
        what: "no such name",
        keys: b"none\n",
        end: IDLE,
        shown: b"LILO\nHello.\nboot: none\nNo such image.\nboot: ",
        held: Held::Unsaid,
        ..ASKING
    },
];

fn names() -> &'static [Boot] {
    NAMES
}

const PASSWORDS: &[Boot] = &[
    Boot {
        what: "a password",
        keys: b"linux single\ntux\n",
        shown: b"LILO\nHello.\nboot: linux single\nPassword: \nLoading linux\n",
        ..SINGLE
    },
    Boot {
        what: "another password",
        keys: b"linux single\nabc\n",
        end: IDLE,
        shown: b"LILO\nHello.\nboot: linux single\nPassword: \nSorry.\nboot: ",
        held: Held::Unsaid,
        ..ASKING
    },
    Boot {
        what: "a password that doesn't end",
        keys: b"linux single\ntux",
        end: IDLE,
        shown: b"LILO\nHello.\nboot: linux single\nPassword: \nboot: ",
        held: Held::Unsaid,
        ..ASKING
    },
    Boot {
        what: "words without a password and a message",
        base: &[(0, 0x0C, b"\x01")],
        keys: b"linux single\n",
        shown: b"LILO\nboot: linux single\nLoading linux\n",
        ..SINGLE
    },
    Boot {
        what: "a message that isn't there",
        edits: &[(0, 0x28, b"\x03\x80\x01\0\0\x10\0\0")],
        keys: b"li",
        end: Some(Outcome::Refused(Reason::NotFound)),
        shown: b"LILO\nError 04\n",
        held: Held::Unsaid,
        ..ASKING
    },
];

fn passwords() -> &'static [Boot] {
    PASSWORDS
}

const ASKING: Boot = Boot {
    base: MENU,
    ..PLAIN
};

const SINGLE: Boot = Boot {
    line: 36,
    also: &[(0x9_9800, 1, b"BOOT_IMAGE=linux ro root=301 single\0")],
    ..ASKING
};

// The prompt with a message; `linux`, whose password `tux` is asked with words only, and `dos` with the same files.
const MENU: &[Edit] = &[
    (0, 0x0C, b"\x01"),
    (0, 0x12, b"\x02\0\x07\0\x01\0"),
    (0, 0x28, b"\x03\x80\x01\0\x67\0\0\0"),
    (95, 16, b"\x06"),
    (95, 56, b"\x03\x80\x01\0\x66\0\0\0"),
    (
        95,
        64,
        b"dos\0\0\0\0\0\0\0\0\0\0\0\0\0\0\0\0\0\x05\x04\0\0\0\0\0\0\x03\x80\x01\0\x63\0\0\0\x03\x80\x01\0\x64\0\0\0\0\0\0\0\0\0\0\0\x01",
    ),
    (102, 0, b"\0\0\x03"),
    (102, 480, b"tux"),
    (103, 0, b"\x03\x80\x01\0\x68\0\0\0"),
    (104, 0, b"Hello.\n"),
];

#[test]
fn keys_are_answered(rt: HostRuntime) -> Result<(), Fail> {
    come_true(&rt, rt.alloc(), &[ends(), delays(), names(), passwords()])
}
