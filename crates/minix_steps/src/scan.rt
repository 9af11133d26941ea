// Free numbers in one sector of a bitmap.
ghost use Rattle.std.specs.Prelude.{◌≡◌, ◌+◌, ◌-◌, ◌^◌, ◌<◌, ◌≤◌, ◌++◌, OnOk, length, take};
ghost use Rattle.minix_steps.specs.Free.{is_free_in, IsLowest, free_from};

use crate::bits::has_bit;
use crate::number_set::NumberSet;
use sector_parts::Sector;
use std::alloc::AllocError;

/// A byte whose eight bits are set.
const FULL: u8 = 0xFF;

/// The lowest number from `at` on and below `end` whose bit is clear and that isn't avoided. The bit of `base` is
/// the first of the sector.
pub(crate) fn first_free(
    bytes: &Sector,
    base: u32,
    at: u32,
    end: u32,
    avoid: &NumberSet,
) -> Option<u32>
    requires from { base ≤ at }
    requires order { at ≤ end }
    requires bits { end ≤ base + 4096 }
    requires numbers { end ≤ avoid.now.below }
    ensures { IsLowest (is_free_in bytes.now base avoid.now.numbers) at end result }
{
    let mut bit = at - base;
    let bits = end - base;
    while bit < bits {
        if bytes[(bit / 8) as usize] == FULL {
            bit = (bit / 8 + 1) * 8;
        } else if is_free(bytes, base, bit, avoid) {
            return Some(base + bit);
        } else {
            bit += 1;
        }
    }
    None
}

// Whether the number of this bit is free.
#[tactic(auto, unfolding(crate::specs::Free::is_free_in))]
fn is_free(bytes: &Sector, base: u32, bit: u32, avoid: &NumberSet) -> bool
    requires bits { bit < 4096 }
    requires numbers { base + bit < avoid.now.below }
    requires fits { base + bit < 2 ^ 32 }
    ensures { result ≡ is_free_in bytes.now base avoid.now.numbers (base + bit) }
{
    !has_bit(bytes, bit as usize) && !avoid.has(base + bit)
}

/// Appends the free numbers from `at` on and below `end`, the lowest first, until there are `need`.
pub(crate) fn take_free(
    bytes: &Sector,
    base: u32,
    at: u32,
    end: u32,
    need: u32,
    avoid: &NumberSet,
    found: &mut Vec<u32>,
) -> Result<(), AllocError>
    requires from { base ≤ at }
    requires order { at ≤ end }
    requires bits { end ≤ base + 4096 }
    requires numbers { end ≤ avoid.now.below }
    requires few { length found.old.items ≤ need }
    ensures taken { OnOk result (found.new.items ≡ take need (found.old.items
        ++ free_from (is_free_in bytes.now base avoid.now.numbers) at (end - at))) }
    ensures few { OnOk result (length found.new.items ≤ need) }
{
    let mut at = at;
    while found.len() < need as usize {
        match first_free(bytes, base, at, end, avoid) {
            None => return Ok(()),
            Some(number) => {
                found.push(number)?;
                at = number + 1;
            }
        }
    }
    Ok(())
}
