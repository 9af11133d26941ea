// Fields of any length, written.
ghost use Rattle.std.specs.Prelude.{◌≡◌, ◌+◌, ◌<◌, ◌≤◌, ◌∷◌, [], length, replicate};
ghost use Rattle.lilo_model.specs.Bytes.{with_part, bytes16, bytes32, filled_bytes};

use byteorder::{ByteOrder, LittleEndian};

/// Bytes of a record, written by offsets from its start. What a call doesn't name stays.
#[derive(Drop)]
pub struct FieldMut<'a> {
    pub bytes: &'a mut [u8],
}

impl FieldMut<'_> {
    /// Writes the byte at offset `at`.
    pub fn put_u8(&mut self, at: usize, value: u8)
        requires { at < length self.old.bytes.now }
        ensures bytes { self.new.bytes.now ≡ with_part self.old.bytes.now at (value ∷ []) }
        ensures same_reference { self.new.bytes.ghost_name ≡ self.old.bytes.ghost_name }
    {
        put(self.bytes, at, &[value]);
    }

    /// Writes a number into the two bytes from offset `at`.
    pub fn put_u16(&mut self, at: usize, value: u16)
        requires { at + 2 ≤ length self.old.bytes.now }
        ensures bytes { self.new.bytes.now ≡ with_part self.old.bytes.now at (bytes16 value) }
        ensures same_reference { self.new.bytes.ghost_name ≡ self.old.bytes.ghost_name }
    {
        let mut bytes = [0; 2];
        LittleEndian::write_u16(&mut bytes, value);
        put(self.bytes, at, &bytes);
    }

    /// Writes a number into the four bytes from offset `at`.
    pub fn put_u32(&mut self, at: usize, value: u32)
        requires { at + 4 ≤ length self.old.bytes.now }
        ensures bytes { self.new.bytes.now ≡ with_part self.old.bytes.now at (bytes32 value) }
        ensures same_reference { self.new.bytes.ghost_name ≡ self.old.bytes.ghost_name }
    {
        let mut bytes = [0; 4];
        LittleEndian::write_u32(&mut bytes, value);
        put(self.bytes, at, &bytes);
    }

    /// Writes a name into the field of `len` bytes from offset `at`, and zeros after it.
    pub fn put_name(&mut self, at: usize, len: usize, name: &[u8])
        requires inside { at + len ≤ length self.old.bytes.now }
        requires fits { length name.now ≤ len }
        ensures bytes { self.new.bytes.now ≡ with_part self.old.bytes.now at (filled_bytes len name.now) }
        ensures same_reference { self.new.bytes.ghost_name ≡ self.old.bytes.ghost_name }
    {
        fill_field(&mut self.bytes[at..at + len], name);
    }
}

// Writes some bytes over those from an offset on.
fn put(bytes: &mut [u8], at: usize, new: &[u8])
    requires { at + length new.now ≤ length bytes.old }
    ensures { bytes.new ≡ with_part bytes.old at new.now }
{
    bytes[at..at + new.len()].copy_from_slice(new);
}

// Fills a field with a name, and zeros after it.
fn fill_field(field: &mut [u8], name: &[u8])
    requires { length name.now ≤ length field.old }
    ensures { field.new ≡ filled_bytes (length field.old) name.now }
{
    field[..name.len()].copy_from_slice(name);
    clear(&mut field[name.len()..]);
}

fn clear(bytes: &mut [u8])
    ensures { bytes.new ≡ replicate (length bytes.old) 0 }
{
    bytes.fill(0);
}
