use text_numbers::{number_between, video_mode};

// Texts, and the number of 1 to 65,534 that each writes.
const NUMBERS: &[(&[u8], Option<u16>)] = &[
    (b"1", Some(1)),
    (b"0", None),
    (b"65534", Some(65534)),
    (b"65535", None),
    (b"007", Some(7)),
    (b"0x1f", Some(31)),
    (b"0x1F", Some(31)),
    (b"0x000a", Some(10)),
    (b"0X10", None),
    (b"0x", None),
    (b"", None),
    (b"-1", None),
    (b"+1", None),
    (b"1a", None),
    (b"18446744073709551617", None),
];

// Texts, and the video mode that each names.
const MODES: &[(&[u8], Option<u16>)] = &[
    (b"normal", Some(0xFFFF)),
    (b"ext", Some(0xFFFE)),
    (b"extended", Some(0xFFFE)),
    (b"ask", Some(0xFFFD)),
    (b"0x301", Some(0x301)),
    (b"65535", Some(65535)),
    (b"65536", None),
    (b"Normal", None),
    (b"", None),
];

#[test]
fn numbers_are_decimal_or_hexadecimal(rt: HostRuntime) {
    for (text, number) in NUMBERS {
        assert!(rt; number_between(1, 65534, text) == *number);
    }
}

#[test]
fn modes_are_words_or_numbers(rt: HostRuntime) {
    for (text, mode) in MODES {
        assert!(rt; video_mode(text) == *mode);
    }
}
