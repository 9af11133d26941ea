// The header, read from a kernel's first two sectors.
ghost use Rattle.std.specs.Prelude.{◌≡◌, ◌+◌, ◌*◌, ◌≤◌, ◌==◌, ◌%◌, if◌then◌else◌, min, bytes_eq, codes, is_some, ◌&&◌};
ghost use Rattle.std.specs.Prelude.{slice_index, IfOk, ◌++◌};
ghost use Rattle.lilo_model.specs.Bytes.{part_of, number16, number32};
ghost use Rattle.lilo_model.specs.Checks.{seen};
ghost use Rattle.lilo_model.specs.Header.{setup_of, is_from, header_of, header_at};
ghost use Rattle.setup_header.specs.View.{header_view, setup_fault_view};
ghost use Rattle.setup_header.specs.Words.{IsHeaderFor};

use crate::refusal::SetupFault;
use sector_parts::{Sector, part, u16_at, u32_at};

/// The bytes of a sector.
const SECTOR: u32 = 512;

/// The last two bytes of a boot sector, 55 AA (`boot_flag`).
const BOOT_FLAG: u16 = 0xAA55;

/// The most setup sectors after the boot sector.
const MOST_SETUP: u8 = 64;

/// The most bytes of a command line that any kernel takes here.
const MOST_LINE: u32 = 255;

/// The last byte of an initrd where the header doesn't say (protocol before 2.03).
const OLD_INITRD_MAX: u32 = 0x37FF_FFFF;

/// What the header of a kernel says.
#[derive(Clone, Copy, Debug, PartialEq, Eq)]
pub struct Header {
    /// The sectors of the real-mode part after its first, the boot sector (`setup_sects`; 4 where that is 0).
    pub setup: u8,
    /// The version of the protocol, 0x0206 for 2.06, or `None` where there is no `HdrS`.
    pub version: Option<u16>,
    /// Whether the protected-mode part is loaded at 0x100000 (`LOADED_HIGH` of `loadflags`), not at 0x10000.
    pub high: bool,
    /// The address of the last byte that an initrd may take (`initrd_addr_max`; 0x37FFFFFF before 2.03).
    pub initrd_max: u32,
    /// The most bytes of a command line, without its zero byte (`cmdline_size` from 2.06 on, at most 255).
    pub line_limit: u32,
}

impl Header {
    /// Reads the header of a kernel of `length` bytes in its first two sectors, of which what lies past the
    /// kernel's end doesn't count: the first fault of a length below 512, a missing boot flag, too many
    /// setup sectors, and a length below that of the real-mode part.
    #[tactic(auto, unfolding(lilo_model::specs::Header::header_at))]
    pub fn read(first: &Sector, second: &Sector, length: u32) -> Result<Header, SetupFault>
        ensures header { seen header_view setup_fault_view result ≡ header_at (first.now ++ second.now) length }
        ensures readable { IfOk result (λ header. IsHeaderFor header length) }
    {
        let setup = setup_of(first);
        if length < SECTOR {
            Err(SetupFault::TooShort)
        } else if u16_at(first, 0x1FE) != BOOT_FLAG {
            Err(SetupFault::NoBootFlag)
        } else if setup > MOST_SETUP {
            Err(SetupFault::SetupTooLarge(setup))
        } else if length < real_size(setup) {
            Err(SetupFault::TooShort)
        } else {
            Ok(header_of(first, second))
        }
    }
}

// What the header says, whatever the kernel's length.
#[tactic(auto, unfolding(lilo_model::specs::Header::header_of))]
fn header_of(first: &Sector, second: &Sector) -> Header
    ensures view { header_view result ≡ header_of (first.now ++ second.now) }
    ensures setup { result.setup ≡ setup_of first.now }
    ensures limit { result.line_limit ≤ 255 }
{
    let version = version_of(second);
    Header {
        setup: setup_of(first),
        version,
        high: is_high(second, version),
        initrd_max: initrd_max_of(second, version),
        line_limit: line_limit_of(second, version),
    }
}

// `setup_sects` at 0x1F1, where 0 stands for 4.
#[tactic(auto, unfolding(lilo_model::specs::Header::setup_of))]
fn setup_of(first: &Sector) -> u8
    ensures { result ≡ setup_of first.now }
{
    match first[0x1F1] {
        0 => 4,
        setup => setup,
    }
}

// `version` at 0x206, where `header` at 0x202 is `HdrS`.
fn version_of(second: &Sector) -> Option<u16>
    ensures { result ≡
        (if bytes_eq (part_of second.now 0x2 4) (codes "HdrS")
        then Some (number16 second.now 0x6) else None) }
{
    if part(second, 0x2, 4) == b"HdrS".as_slice() {
        Some(u16_at(second, 0x6))
    } else {
        None
    }
}

// Bit 0 of `loadflags` at 0x211, where there is a version.
fn is_high(second: &Sector, version: Option<u16>) -> bool
    ensures { result ≡ (is_some version && (slice_index second.now 0x11 % 2 == 1)) }
{
    version.is_some() && second[0x11] % 2 == 1
}

// `initrd_addr_max` at 0x22C, from 2.03 on.
fn initrd_max_of(second: &Sector, version: Option<u16>) -> u32
    ensures { result ≡ (if is_from 0x203 version then number32 second.now 0x2C else 0x37FFFFFF) }
{
    if is_from(0x203, version) {
        u32_at(second, 0x2C)
    } else {
        OLD_INITRD_MAX
    }
}

// `cmdline_size` at 0x238, from 2.06 on, and no more than 255.
fn line_limit_of(second: &Sector, version: Option<u16>) -> u32
    ensures value { result ≡ (if is_from 0x206 version then min 255 (number32 second.now 0x38) else 255) }
    ensures bound { result ≤ 255 }
{
    if is_from(0x206, version) {
        u32_at(second, 0x38).min(MOST_LINE)
    } else {
        MOST_LINE
    }
}

/// Whether the protocol has a version, from `least` on.
pub(crate) fn is_from(least: u16, version: Option<u16>) -> bool
    ensures { result ≡ is_from least version }
{
    match version {
        Some(version) => version >= least,
        None => false,
    }
}

/// The bytes of a real-mode part with these setup sectors: they and the boot sector.
pub(crate) fn real_size(setup: u8) -> u32
    ensures { result ≡ (setup + 1) * 512 }
{
    (u32::from(setup) + 1) * SECTOR
}
