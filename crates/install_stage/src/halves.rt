// A block of a file: two sectors.
ghost use Rattle.std.specs.Prelude.{◌≡◌, ◌++◌};

use sector_parts::Sector;

/// A block of two sectors.
pub fn block_of(first: &Sector, second: &Sector) -> [u8; 1024]
    ensures { result ≡ first.now ++ second.now }
{
    let mut block = [0; 1024];
    block[..512].copy_from_slice(first);
    block[512..].copy_from_slice(second);
    block
}
