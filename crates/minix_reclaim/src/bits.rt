// The bits of one sector.
ghost use Rattle.std.specs.Prelude.{◌≡◌, ◌==◌, ◌+◌, ◌/◌, ◌%◌, ◌^◌, ◌<◌, ◌≤◌, length};
ghost use Rattle.lilo_model.specs.MinixParts.{bit};
ghost use Rattle.minix_steps.specs.Free.{IsLowest};
ghost use Rattle.minix_reclaim.specs.Bits.{used_bits, ClearsUnused};

use crate::bitmap::Bitmap;
use minix_steps::put_bit;
use minix_survey::Findings;
use sector_parts::Sector;

/// Clears the bits from one on and before another whose zones or inodes have no use, and counts them. The first bit of
/// the sector is that of `base`.
pub(crate) fn clear_unused(
    bytes: &mut Sector,
    bitmap: &Bitmap,
    found: &Findings,
    base: u32,
    from: u32,
    to: u32,
) -> u32
    requires order { from ≤ to }
    requires bits { to ≤ 4096 }
    requires fits { base + to ≤ 2 ^ 32 }
    ensures long { length bytes.new ≡ 512 }
    ensures clears { ClearsUnused (used_bits bitmap.now.of found.now base) from to bytes.old bytes.new result }
{
    let mut freed = 0;
    let mut at = from;
    while let Some(bit) = next_marked(bytes, at, to) {
        at = bit + 1;
        if !bitmap.is_used(found, base + bit) {
            put_bit(bytes, bit as usize, false);
            freed += 1;
        }
    }
    freed
}

// The first bit from one on and before another that is set.
fn next_marked(bytes: &Sector, from: u32, to: u32) -> Option<u32>
    requires order { from ≤ to }
    requires bits { to ≤ 4096 }
    ensures { IsLowest (bit bytes.now) from to result }
{
    let mut at = from;
    while at < to {
        if bytes[(at / 8) as usize] == 0 {
            at = (at / 8 + 1) * 8;
        } else if has_bit(bytes, at) {
            return Some(at);
        } else {
            at += 1;
        }
    }
    None
}

// Whether a bit is set.
#[tactic(auto, unfolding(lilo_model::specs::MinixParts::bit))]
fn has_bit(bytes: &Sector, at: u32) -> bool
    requires { at < 4096 }
    ensures { result ≡ bit bytes.now at }
{
    byte_has(bytes[(at / 8) as usize], at % 8)
}

// Whether a bit of a byte is set.
fn byte_has(byte: u8, k: u32) -> bool
    requires { k < 8 }
    ensures { result ≡ (byte / 2 ^ k % 2 == 1) }
{
    (byte >> k) & 1 == 1
}
