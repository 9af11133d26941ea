// Fields of any length, read.
ghost use Rattle.std.specs.Prelude.{◌≡◌, ◌+◌, ◌<◌, ◌≤◌, ◌==◌, length, slice_index};
ghost use Rattle.std.specs.List.{position_or_len};
ghost use Rattle.lilo_model.specs.Bytes.{number16, number32, name_in};

use byteorder::{ByteOrder, LittleEndian};

/// Bytes of a record, read by offsets from its start.
#[derive(Clone, Copy, Debug)]
pub struct FieldRef<'a> {
    pub bytes: &'a [u8],
}

impl<'a> FieldRef<'a> {
    /// The byte at offset `at`.
    pub fn u8_at(&self, at: usize) -> u8
        requires { at < length self.now.bytes.now }
        ensures { result ≡ slice_index self.now.bytes.now at }
    {
        self.bytes[at]
    }

    /// The number in the two bytes from offset `at`.
    #[tactic(auto, unfolding(lilo_model::specs::Bytes::number16))]
    pub fn u16_at(&self, at: usize) -> u16
        requires { at + 2 ≤ length self.now.bytes.now }
        ensures { result ≡ number16 self.now.bytes.now at }
    {
        LittleEndian::read_u16(&self.bytes[at..at + 2])
    }

    /// The number in the four bytes from offset `at`.
    #[tactic(auto, unfolding(lilo_model::specs::Bytes::number32))]
    pub fn u32_at(&self, at: usize) -> u32
        requires { at + 4 ≤ length self.now.bytes.now }
        ensures { result ≡ number32 self.now.bytes.now at }
    {
        LittleEndian::read_u32(&self.bytes[at..at + 4])
    }

    /// Lends the name in the field of `len` bytes from offset `at`: the bytes before its first zero
    /// byte, or all of them.
    pub fn name(&self, at: usize, len: usize) -> &'a [u8]
        requires { at + len ≤ length self.now.bytes.now }
        ensures { result.now ≡ name_in self.now.bytes.now at len }
    {
        let field = &self.bytes[at..at + len];
        &field[..zero_at(field)]
    }
}

// Where the first zero byte lies, or the end.
fn zero_at(field: &[u8]) -> usize
    ensures { result ≡ position_or_len (λ byte. byte == 0) field.now }
{
    for (at, byte) in field.iter().enumerate() {
        if *byte == 0 {
            return at;
        }
    }
    field.len()
}
