// Where a kernel and what goes with it lie in memory.
ghost use Rattle.std.specs.Prelude.{◌≡◌, ◌+◌, ◌-◌, ◌*◌, ◌/◌, ◌≤◌, ◌<◌, ◌^◌, ◌||◌, not, nat_le, if◌then◌else◌, true};
ghost use Rattle.std.specs.Prelude.{false, min, IfOk, OnOk, IfSome};
ghost use Rattle.std.specs.Option.{option_map};
ghost use Rattle.lilo_model.specs.Checks.{seen, require};
ghost use Rattle.lilo_model.specs.Header.{NoRoom, fit_checks, plan_memory, protected_size, protected_address};
ghost use Rattle.lilo_model.specs.Header.{protected_end, page_above, page_below, initrd_least, initrd_end};
ghost use Rattle.lilo_model.specs.Header.{initrd_between, initrd_region};
ghost use Rattle.setup_header.specs.View.{header_view, region_view, layout_view, setup_fault_view};
ghost use Rattle.setup_header.specs.Words.{IsHeaderFor, StandsBetween, HasLengths, LiesIn, AreApart};

use crate::header::{Header, real_size};
use crate::refusal::SetupFault;

/// Some bytes of memory.
#[derive(Clone, Copy, Debug, PartialEq, Eq)]
pub struct Region {
    /// The physical address of the first byte.
    pub address: u32,
    /// How many bytes.
    pub length: u32,
}

/// Where a kernel and what goes with it lie in memory.
#[derive(Clone, Copy, Debug, PartialEq, Eq)]
pub struct Layout {
    /// The real-mode part, from 0x90000 on.
    pub real: Region,
    /// The protected-mode part, from 0x100000 on, or from 0x10000 on for a low kernel.
    pub protected: Region,
    /// The initrd, as high as it can be at a multiple of 4096, if there is one.
    pub initrd: Option<Region>,
    /// The command line and its zero byte, from 0x99800 on.
    pub line: Region,
}

/// The address of the real-mode part.
const REAL_ADDRESS: u32 = 0x90000;

/// The address of the command line.
pub(crate) const LINE_ADDRESS: u32 = 0x99800;

/// The most bytes of a low kernel's protected-mode part.
const LOW_LIMIT: u32 = 524_288;

/// Plans a memory of `memory` bytes for a kernel of `length` bytes with this header, an initrd of `initrd`
/// bytes, if there is one, and a command line of `line` bytes. The first fault of these is reported: a low kernel
/// that is too large, an initrd that the kernel can't take, a line that is too long, no room for the
/// protected-mode part, and no room for the initrd.
#[tactic(auto, unfolding(lilo_model::specs::Header::plan_memory))]
pub fn plan_memory(
    header: &Header,
    length: u32,
    initrd: Option<u32>,
    line: u32,
    memory: u32,
) -> Result<Layout, SetupFault>
    requires { IsHeaderFor header.now length }
    ensures plan { seen layout_view setup_fault_view result ≡
        plan_memory (header_view header.now) length initrd line memory }
    ensures lengths { IfOk result (λ layout. HasLengths layout header.now length line) }
    ensures inside { 1048576 ≤ memory → IfOk result (LiesIn memory) }
    ensures apart { IfOk result AreApart }
{
    check_fit(header, length, initrd, line)?;
    check_room(header, length, memory)?;
    let initrd = initrd_region(header, length, memory, initrd)?;
    Ok(Layout {
        real: Region {
            address: REAL_ADDRESS,
            length: real_size(header.setup),
        },
        protected: Region {
            address: protected_address(header),
            length: protected_size(header, length),
        },
        initrd,
        line: Region {
            address: LINE_ADDRESS,
            length: line + 1,
        },
    })
}

// The checks that don't know the memory.
#[tactic(auto, unfolding(lilo_model::specs::Header::fit_checks))]
fn check_fit(header: &Header, length: u32, initrd: Option<u32>, line: u32) -> Result<(), SetupFault>
    ensures checks { seen (λ (done : Unit {0}). done) setup_fault_view result ≡
        fit_checks (header_view header.now) length initrd line }
    ensures low { OnOk result (header.now.high ≡ false → protected_size (header_view header.now) length ≤ 524288) }
    ensures line { OnOk result (line ≤ header.now.line_limit) }
{
    let protected = protected_size(header, length);
    if !header.high && protected > LOW_LIMIT {
        Err(SetupFault::LowTooLarge(protected))
    } else if initrd.is_some() && header.version.is_none() {
        Err(SetupFault::NoInitrd)
    } else if line > header.line_limit {
        Err(SetupFault::LineTooLong(line))
    } else {
        Ok(())
    }
}

// The bytes of the protected-mode part.
fn protected_size(header: &Header, length: u32) -> u32
    ensures { result ≡ protected_size (header_view header.now) length }
{
    length.saturating_sub(real_size(header.setup))
}

// The address of the protected-mode part.
fn protected_address(header: &Header) -> u32
    ensures { result ≡ protected_address (header_view header.now) }
{
    if header.high { 0x10_0000 } else { 0x1_0000 }
}

// The address after the protected-mode part.
fn protected_end(header: &Header, length: u32) -> u64
    ensures value { result ≡ protected_end (header_view header.now) length }
    ensures bound { result < 2 ^ 33 }
{
    u64::from(protected_address(header)) + u64::from(protected_size(header, length))
}

// Whether a high kernel's protected-mode part ends within memory.
fn check_room(header: &Header, length: u32, memory: u32) -> Result<(), SetupFault>
    ensures room { let end = protected_end (header_view header.now) length in
        seen (λ (done : Unit {0}). done) setup_fault_view result ≡
        require (not header.now.high || nat_le end memory) (NoRoom end memory) }
    ensures ends { OnOk result (header.now.high ≡ true → protected_end (header_view header.now) length ≤ memory) }
{
    let need = protected_end(header, length);
    let have = u64::from(memory);
    if header.high && need > have {
        Err(SetupFault::NoRoom { need, have })
    } else {
        Ok(())
    }
}

// Where the initrd lies, if there is one.
fn initrd_region(
    header: &Header,
    length: u32,
    memory: u32,
    initrd: Option<u32>,
) -> Result<Option<Region>, SetupFault>
    ensures region { seen (option_map region_view) setup_fault_view result ≡
        initrd_region (header_view header.now) length memory initrd }
    ensures bounds { let least = initrd_least (header_view header.now) length in
        IfOk result (λ found. IfSome found (StandsBetween least memory)) }
{
    match initrd {
        Some(size) => initrd_between(
            initrd_least(header, length),
            initrd_end(header, memory),
            size,
        ),
        None => Ok(None),
    }
}

// The least address of an initrd.
fn initrd_least(header: &Header, length: u32) -> u64
    ensures value { result ≡ initrd_least (header_view header.now) length }
    ensures bound { result < 2 ^ 34 }
    ensures page { result ≡ page_below result }
{
    page_above(if header.high {
        protected_end(header, length)
    } else {
        0x10_0000
    })
}

// The end of the memory that an initrd may take. Memory ends below 2^32, wherever the kernel's limit is.
fn initrd_end(header: &Header, memory: u32) -> u32
    ensures { result ≡ initrd_end (header_view header.now) memory }
{
    memory.min(header.initrd_max.saturating_add(1))
}

// Where an initrd of some bytes lies between two addresses: as high as it can at a multiple of 4096.
fn initrd_between(least: u64, end: u32, size: u32) -> Result<Option<Region>, SetupFault>
    requires small { least < 2 ^ 34 }
    requires page { least ≡ page_below least }
    ensures region { seen (option_map region_view) setup_fault_view result ≡ initrd_between least end size }
    ensures bounds { IfOk result (λ found. IfSome found (StandsBetween least end)) }
{
    let need = least + u64::from(size);
    let have = u64::from(end);
    if need > have {
        Err(SetupFault::NoRoom { need, have })
    } else {
        Ok(Some(Region {
            address: page_below(end - size),
            length: size,
        }))
    }
}

// The least multiple of 4096 that isn't below a number.
fn page_above(number: u64) -> u64
    requires { number < 2 ^ 33 }
    ensures value { result ≡ page_above number }
    ensures bound { result < 2 ^ 34 }
    ensures page { result ≡ page_below result }
{
    (number + 4095) / 4096 * 4096
}

// The greatest multiple of 4096 that isn't above a number.
fn page_below(number: u32) -> u32
    ensures { result ≡ page_below number }
{
    number / 4096 * 4096
}
