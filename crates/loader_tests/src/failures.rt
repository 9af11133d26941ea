// Each call that fails in turn: reads of a disk, keys and texts.
use crate::boot::{Boot, Held, LOADING, PLAIN, come_true};
use crate::installation::Edit;
use disk_trait::{Failing, Phase};
use loader_core::Outcome;
use std::test::Fail;

const OF_THE_MAP: &[Boot] = &[
    Boot {
        what: "the boot sector",
        failing: &[Failing {
            call: 0,
            made: false,
        }],
        shown: b"",
        ..LOST
    },
    Boot {
        what: "the default line",
        failing: &[Failing {
            call: 1,
            made: false,
        }],
        shown: b"L 80\n",
        ..LOST
    },
    Boot {
        what: "the first sector of the table",
        failing: &[Failing {
            call: 2,
            made: false,
        }],
        shown: b"L 80\n",
        ..LOST
    },
    Boot {
        what: "the second sector of the table",
        failing: &[Failing {
            call: 3,
            made: false,
        }],
        shown: b"L 80\n",
        ..LOST
    },
    Boot {
        what: "the third sector of the table",
        failing: &[Failing {
            call: 4,
            made: false,
        }],
        shown: b"L 80\n",
        ..LOST
    },
    Boot {
        what: "the options",
        failing: &[Failing {
            call: 5,
            made: false,
        }],
        shown: b"LILO\nError 80\n",
        ..LOST
    },
];

fn of_the_map() -> &'static [Boot] {
    OF_THE_MAP
}

const OF_THE_KERNEL: &[Boot] = &[
    Boot {
        what: "the section",
        failing: &[Failing {
            call: 6,
            made: false,
        }],
        ..LOST
    },
    Boot {
        what: "the kernel's first sector",
        failing: &[Failing {
            call: 7,
            made: false,
        }],
        ..LOST
    },
    Boot {
        what: "the kernel's second sector",
        failing: &[Failing {
            call: 8,
            made: false,
        }],
        ..LOST
    },
    Boot {
        what: "the kernel's third and last sector",
        failing: &[Failing {
            call: 9,
            made: false,
        }],
        ..LOST
    },
    // The next read is that of the default line by this test: a boot has made none after its tenth.
    Boot {
        what: "a read after the boot",
        failing: &[Failing {
            call: 10,
            made: false,
        }],
        left: b"",
        ..PLAIN
    },
];

fn of_the_kernel() -> &'static [Boot] {
    OF_THE_KERNEL
}

const OF_KEYS: &[Boot] = &[
    // Keys and the message before them: its section, and its bytes.
    Boot {
        what: "the first key",
        keys: b"linux\n",
        failing_keys: &[0],
        shown: b"LILO\nHello.\nboot: ",
        ..UNHEARD
    },
    Boot {
        what: "the fourth key",
        keys: b"linux\n",
        failing_keys: &[3],
        shown: b"LILO\nHello.\nboot: lin",
        ..UNHEARD
    },
    Boot {
        what: "the message's section",
        base: MESSAGE,
        failing: &[Failing {
            call: 5,
            made: false,
        }],
        shown: b"LILO\nError 80\n",
        ..LOST
    },
    Boot {
        what: "the message",
        base: MESSAGE,
        failing: &[Failing {
            call: 6,
            made: false,
        }],
        shown: b"LILO\nError 80\n",
        ..LOST
    },
];

fn of_keys() -> &'static [Boot] {
    OF_KEYS
}

const OF_TEXTS: &[Boot] = &[
    // After a text that a sink refuses nothing is shown, and the boot goes on.
    Boot {
        what: "the first text",
        failing_texts: &[0],
        shown: b"",
        ..UNSHOWN
    },
    Boot {
        what: "the second text",
        failing_texts: &[1],
        shown: b"L",
        ..UNSHOWN
    },
    Boot {
        what: "the third text",
        failing_texts: &[2],
        shown: b"LIL",
        ..UNSHOWN
    },
    // The three parts of the prompt's answer are empty.
    Boot {
        what: "the fourth text",
        failing_texts: &[3],
        shown: b"LILO\n",
        ..UNSHOWN
    },
    Boot {
        what: "the seventh and last text",
        failing_texts: &[6],
        shown: b"LILO\n",
        ..UNSHOWN
    },
    Boot {
        what: "no text after it",
        failing_texts: &[7],
        shown: LOADING,
        ..PLAIN
    },
];

fn of_texts() -> &'static [Boot] {
    OF_TEXTS
}

const LOST: Boot = Boot {
    end: Some(Outcome::Device(Phase::Before)),
    shown: b"LILO\nLoading linux\nError 80\n",
    held: Held::Unsaid,
    ..PLAIN
};

const UNHEARD: Boot = Boot {
    base: MESSAGE,
    end: Some(Outcome::Keys),
    held: Held::Unsaid,
    ..PLAIN
};

const UNSHOWN: Boot = Boot {
    is_text_lost: true,
    ..PLAIN
};

const MESSAGE: &[Edit] = &[
    (0, 0x0C, b"\x01"),
    (0, 0x14, b"\x07\0\x01\0"),
    (0, 0x28, b"\x03\x80\x01\0\x67\0\0\0"),
    (103, 0, b"\x03\x80\x01\0\x68\0\0\0"),
    (104, 0, b"Hello.\n"),
];

#[test]
fn each_call_fails(rt: HostRuntime) -> Result<(), Fail> {
    come_true(
        &rt,
        rt.alloc(),
        &[of_the_map(), of_the_kernel(), of_keys(), of_texts()],
    )
}
