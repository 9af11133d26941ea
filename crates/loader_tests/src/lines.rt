// The default line: what a boot does with it, and what it leaves in its sector.
use crate::boot::{Boot, Held, PLAIN, come_true};
use crate::installation::Edit;
use disk_trait::{Failing, Phase};
use loader_core::{Outcome, Reason};
use setup_header::SetupFault;
use std::test::Fail;

const SERVED: &[Boot] = &[
    Boot {
        what: "a line for one boot",
        edits: ONCE,
        ..SINGLE
    },
    Boot {
        what: "one in a sector by cylinder, head and sector",
        base: ONCE,
        edits: &[(0, 0x18, b"\x01\x80\x01\0\x20\0\x01\0")],
        ..SINGLE
    },
    Boot {
        what: "a line that is kept",
        edits: KEPT,
        left: b"LINE\x02\0\x0C\0linux single",
        ..SINGLE
    },
];

fn served() -> &'static [Boot] {
    SERVED
}

const FOLLOWED: &[Boot] = &[
    // What comes is the line without `lock`; else the fallback; else a line that is kept.
    Boot {
        what: "the word lock",
        edits: PROMPT,
        keys: b"linux single lock\n",
        line: 36,
        shown: b"LILO\nboot: linux single lock\nLoading linux\n",
        also: &[(0x9_9800, 1, b"BOOT_IMAGE=linux ro root=301 single\0")],
        left: b"LINE\x02\0\x0C\0linux single",
        ..PLAIN
    },
    Boot {
        what: "a fallback",
        base: FALLBACK,
        left: b"LINE\x02\0\x05\0linux",
        ..PLAIN
    },
    Boot {
        what: "a fallback after a line for one boot",
        base: FALLBACK,
        edits: ONCE,
        left: b"LINE\x02\0\x05\0linux",
        ..SINGLE
    },
    Boot {
        what: "a fallback after a line that was kept",
        base: FALLBACK,
        edits: KEPT,
        left: b"LINE\x02\0\x05\0linux",
        ..SINGLE
    },
];

fn followed() -> &'static [Boot] {
    FOLLOWED
}

const LOCKED: &[Boot] = &[
    Boot {
        what: "lock before a fallback",
        base: FALLBACK,
        edits: PROMPT,
        keys: b"linux single lock\n",
        line: 36,
        shown: b"LILO\nboot: linux single lock\nLoading linux\n",
        also: &[(0x9_9800, 1, b"BOOT_IMAGE=linux ro root=301 single\0")],
        left: b"LINE\x02\0\x0C\0linux single",
        ..PLAIN
    },
    Boot {
        what: "lock after a line for one boot, with a video mode",
        edits: &[(94, 4, b"\x01\0\x17\0linux lock  vga=5 quiet")],
        line: 40,
        also: &[
            (0x9_01FA, 1, b"\x05\0"),
            (0x9_9800, 1, b"auto BOOT_IMAGE=linux ro root=301 quiet\0"),
        ],
        left: b"LINE\x02\0\x11\0linux vga=5 quiet",
        ..PLAIN
    },
    Boot {
        what: "a line for one boot, of no entry",
        base: PROMPT,
        edits: &[(94, 4, b"\x01\0\x04\0none")],
        keys: b"linux single\n",
        line: 36,
        shown: b"LILO\nboot: linux single\nLoading linux\n",
        also: &[(0x9_9800, 1, b"BOOT_IMAGE=linux ro root=301 single\0")],
        ..PLAIN
    },
];

fn locked() -> &'static [Boot] {
    LOCKED
}

const BEFORE_THE_LOAD: &[Boot] = &[
    // The kernel is read with the new line in it.
    Boot {
        what: "a line in a sector of the kernel",
        edits: &[(0, 0x1C, b"\x54"), (84, 0, b"LINE\x01\0\x05\0linux")],
        also: &[(0x10_0000, 1, b"LINE\0")],
        ..PLAIN
    },
    // Before, in and after the write of a line that served one boot, which comes before the kernel is read.
    Boot {
        what: "the options can't be read",
        failing: &[Failing {
            call: 5,
            made: false,
        }],
        end: Some(Outcome::Device(Phase::Before)),
        shown: b"LILO\nError 80\n",
        left: b"LINE\x01\0\x0C\0linux single",
        ..LOST
    },
    Boot {
        what: "the write is lost",
        failing: &[Failing {
            call: 6,
            made: false,
        }],
        end: Some(Outcome::Device(Phase::Commit)),
        shown: b"LILO\nError 80\n",
        left: b"LINE\x01\0\x0C\0linux single",
        ..LOST
    },
    Boot {
        what: "the write fails and is made",
        failing: &[Failing {
            call: 6,
            made: true,
        }],
        end: Some(Outcome::Device(Phase::Commit)),
        shown: b"LILO\nError 80\n",
        ..LOST
    },
];

fn before_the_load() -> &'static [Boot] {
    BEFORE_THE_LOAD
}

const AFTER_THE_WRITE: &[Boot] = &[
    Boot {
        what: "the flush is lost",
        failing: &[Failing {
            call: 7,
            made: false,
        }],
        end: Some(Outcome::Device(Phase::Commit)),
        shown: b"LILO\nError 80\n",
        ..LOST
    },
    Boot {
        what: "the section can't be read",
        failing: &[Failing {
            call: 8,
            made: false,
        }],
        ..LOST
    },
    Boot {
        what: "the kernel can't be read",
        failing: &[Failing {
            call: 9,
            made: false,
        }],
        ..LOST
    },
    Boot {
        what: "the kernel is refused",
        base: ONCE,
        edits: &[(82, 0x1FE, b"\0")],
        end: Some(Outcome::Refused(Reason::Header(SetupFault::NoBootFlag))),
        shown: b"LILO\nLoading linux\nError\n",
        held: Held::Unsaid,
        ..PLAIN
    },
];

fn after_the_write() -> &'static [Boot] {
    AFTER_THE_WRITE
}

const SINGLE: Boot = Boot {
    line: 41,
    also: &[(0x9_9800, 1, b"auto BOOT_IMAGE=linux ro root=301 single\0")],
    ..PLAIN
};

const LOST: Boot = Boot {
    edits: ONCE,
    end: Some(Outcome::Device(Phase::After)),
    shown: b"LILO\nLoading linux\nError 80\n",
    held: Held::Unsaid,
    ..PLAIN
};

const ONCE: &[Edit] = &[(94, 4, b"\x01\0\x0C\0linux single")];

const KEPT: &[Edit] = &[(94, 4, b"\x02\0\x0C\0linux single")];

const PROMPT: &[Edit] = &[(0, 0x0C, b"\x01")];

// The entry's fallback, in an extra sector.
const FALLBACK: &[Edit] = &[
    (95, 16, b"\x10"),
    (95, 56, b"\x03\x80\x01\0\x66\0\0\0"),
    (102, 0, b"\x05\0\0\0linux"),
];

#[test]
fn default_lines_serve(rt: HostRuntime) -> Result<(), Fail> {
    come_true(
        &rt,
        rt.alloc(),
        &[
            served(),
            followed(),
            locked(),
            before_the_load(),
            after_the_write(),
        ],
    )
}
