use conf_settings::{Takes, is_value, last_part, root_at};

// Texts, and the device's number that each is for a root.
const ROOTS: &[(&[u8], Option<u16>)] = &[
    (b"0x301", Some(0x301)),
    (b"/dev/hda1", Some(0x301)),
    (b"/dev/sdb15", Some(0x81F)),
    (b"0xffff", Some(0xFFFF)),
    (b"0x10000", None),
    (b"301", None),
    (b"/dev/hda64", None),
    (b"/dev/hda01", None),
];

const PASSWORD: Takes = Takes::Shown(31);

// What an option takes, a text, and whether that is a value for the disk of number 1.
const VALUES: &[(Takes, &[u8], bool)] = &[
    (PASSWORD, &[b'~'; 31], true),
    (PASSWORD, &[b'~'; 32], false),
    (PASSWORD, b" ", true),
    (PASSWORD, b"", false),
    (PASSWORD, b"a\x7f", false),
    (Takes::Shown(255), b"linux", true),
    (Takes::Text, b"\x80 a", true),
    (Takes::Text, b"", true),
    (Takes::Text, b"\t", false),
    (Takes::Text, b"\x7f", false),
    (Takes::Bios, b"0x81", true),
    (Takes::Bios, b"0x80", false),
    (Takes::WholeDisk, b"/dev/hdb", true),
    (Takes::WholeDisk, b"/dev/hdb1", false),
    (Takes::Nothing, b"1", false),
    (Takes::Name, b"!~", true),
    (Takes::Name, b"", false),
    (Takes::Name, b"a b", false),
    (Takes::Path, b"/", true),
    (Takes::Path, b"boot/map", false),
    (Takes::Path, b"", false),
    (Takes::Path, b"/\x00", false),
];

// Paths, and the last part of each.
const LAST_PARTS: &[(&[u8], &[u8])] = &[
    (b"/boot/linux", b"linux"),
    (b"/boot/", b""),
    (b"linux", b"linux"),
];

#[test]
fn roots_are_numbers_or_devices(rt: HostRuntime) {
    for (text, number) in ROOTS {
        assert!(rt; root_at(text) == *number);
    }
}

#[test]
fn texts_are_values_of_their_kinds(rt: HostRuntime) {
    for (takes, text, is_one) in VALUES {
        assert!(rt; is_value(*takes, 1, text) == *is_one);
    }
}

#[test]
fn paths_have_last_parts(rt: HostRuntime) {
    for (path, last) in LAST_PARTS {
        assert!(rt; last_part(path) == *last);
    }
}
