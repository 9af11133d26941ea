//! The flags of a descriptor.

/// The boot sector of another system.
pub const OTHER: u16 = 0x01;
/// A password.
pub const PASSWORD: u16 = 0x02;
/// The password is asked only for a line of the user's own.
pub const RESTRICTED: u16 = 0x04;
/// The line is kept as the default one.
pub const LOCK: u16 = 0x08;
/// Another line is the default one after this start.
pub const FALLBACK: u16 = 0x10;
/// A video mode.
pub const VIDEO: u16 = 0x20;
/// An initrd.
pub const INITRD: u16 = 0x40;
/// A partition table goes with the other system's boot sector.
pub const TABLE: u16 = 0x80;
