// The two sectors of a 1024-byte block.
ghost use Rattle.std.specs.Prelude.{◌≡◌, ◌≤◌, length, take};
ghost use Rattle.std.specs.Borrow.{sem, Lends, Array, u8 as byte};
ghost use Rattle.lilo_model.specs.Bytes.{part_of, with_part};
ghost use Rattle.sector_parts.specs.Halves.{half_at};

use crate::sector::Sector;

// Where a sector of a block starts.
#[tactic(auto, unfolding(crate::specs::Halves::half_at))]
fn start_of(second: bool) -> usize
    ensures { result ≡ half_at second }
{
    if second { 512 } else { 0 }
}

/// Lends a sector of a block: its second, or its first.
pub fn half<'a>(block: &'a [u8; 1024], second: bool) -> &'a Sector
    ensures { result.now ≡ part_of block.now (half_at second) 512 }
{
    let at = start_of(second);
    first_sector(&block[at..])
}

// The first sector of some bytes.
fn first_sector(bytes: &[u8]) -> &Sector
    requires { 512 ≤ length bytes.now }
    ensures { result.now ≡ take 512 bytes.now }
{
    match bytes.first_chunk::<512>() {
        Some(sector) => sector,
        None => unreachable!(),
    }
}

/// Lends a sector of a block for writing: its second, or its first. Once the loan ends, the other is as before.
///
/// The length is a parameter since the prover follows no loan of a `[u8; 1024]`.
pub fn half_mut<'a, const N: usize>(block: &'a mut [u8; N], second: bool) -> &'a mut Sector
    requires block { N ≡ 1024 }
    ensures bytes { result.now ≡ part_of block.old (half_at second) 512 }
    ensures* writes_back { sem 𝓛 (Lends (Array byte 0) (Array byte 512) block.entry result
        (with_part block.old (half_at second))) }
{
    let at = second as usize * 512;
    unsafe { &mut *((block as *mut [u8; N] as *mut u8).add(at) as *mut Sector) }
}
