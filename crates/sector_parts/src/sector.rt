// A sector as an array of bytes.
ghost use Rattle.std.specs.Prelude.{◌≡◌, ◌+◌, ◌≤◌, length};
ghost use Rattle.lilo_model.specs.Bytes.{part_of, with_part, number16, number32, bytes16, bytes32};

use byteorder::{ByteOrder, LittleEndian};

/// One sector of a disk.
pub type Sector = [u8; 512];

/// Lends `len` bytes from offset `at`.
pub fn part<'a>(sector: &'a Sector, at: usize, len: usize) -> &'a [u8]
    requires { at + len ≤ 512 }
    ensures bytes { result.now ≡ part_of sector.now at len }
    ensures length { length result.now ≡ len }
{
    &sector[at..at + len]
}

/// Writes bytes from offset `at` on. All others stay.
pub fn put_part(sector: &mut Sector, at: usize, bytes: &[u8])
    requires { at + length bytes.now ≤ 512 }
    ensures { sector.new ≡ with_part sector.old at bytes.now }
{
    sector[at..at + bytes.len()].copy_from_slice(bytes);
}

/// The number in the two bytes from offset `at`.
#[tactic(auto, unfolding(lilo_model::specs::Bytes::number16))]
pub fn u16_at(sector: &Sector, at: usize) -> u16
    requires { at ≤ 510 }
    ensures { result ≡ number16 sector.now at }
{
    LittleEndian::read_u16(part(sector, at, 2))
}

/// Writes a number into the two bytes from offset `at`. All others stay.
pub fn put_u16(sector: &mut Sector, at: usize, value: u16)
    requires { at ≤ 510 }
    ensures { sector.new ≡ with_part sector.old at (bytes16 value) }
{
    let mut bytes = [0; 2];
    LittleEndian::write_u16(&mut bytes, value);
    put_part(sector, at, &bytes);
}

/// The number in the four bytes from offset `at`.
#[tactic(auto, unfolding(lilo_model::specs::Bytes::number32))]
pub fn u32_at(sector: &Sector, at: usize) -> u32
    requires { at ≤ 508 }
    ensures { result ≡ number32 sector.now at }
{
    LittleEndian::read_u32(part(sector, at, 4))
}

/// Writes a number into the four bytes from offset `at`. All others stay.
pub fn put_u32(sector: &mut Sector, at: usize, value: u32)
    requires { at ≤ 508 }
    ensures { sector.new ≡ with_part sector.old at (bytes32 value) }
{
    let mut bytes = [0; 4];
    LittleEndian::write_u32(&mut bytes, value);
    put_part(sector, at, &bytes);
}
