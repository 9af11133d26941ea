// Bytes of an array, lent for writing.
ghost use Rattle.std.specs.Prelude.{◌≡◌, ◌+◌, ◌≤◌, length};
ghost use Rattle.std.specs.Borrow.{sem, Lends, Array, u8 as byte};
ghost use Rattle.lilo_model.specs.Bytes.{part_of, with_part, filled_bytes};

use crate::field_mut::FieldMut;
use crate::sector::Sector;

/// Lends `len` bytes from offset `at` of a sector, or of any array, for writing. Once the loan ends, all
/// others are as before.
///
/// The length is a parameter since the prover follows no loan of a `[u8; 512]`. Into a `FieldMut` it
/// follows a loan that has a name, as in `put_name`.
pub fn part_mut<'a, const N: usize>(array: &'a mut [u8; N], at: usize, len: usize) -> &'a mut [u8]
    requires { at + len ≤ N }
    ensures bytes { result.now ≡ part_of array.old at len }
    ensures length { length result.now ≡ len }
    ensures* writes_back { sem 𝓛 (Lends (Array byte 0) (Array byte 0) array.entry result (with_part array.old at)) }
{
    &mut array[at..at + len]
}

/// Writes a name into the field of `len` bytes from offset `at`, and zeros after it. All others stay.
pub fn put_name(sector: &mut Sector, at: usize, len: usize, name: &[u8])
    requires inside { at + len ≤ 512 }
    requires fits { length name.now ≤ len }
    ensures { sector.new ≡ with_part sector.old at (filled_bytes len name.now) }
{
    let field = part_mut(sector, at, len);
    FieldMut { bytes: field }.put_name(0, len, name);
}
