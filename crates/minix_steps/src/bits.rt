// One bit of some bytes, the lowest of a byte first.
ghost use Rattle.std.specs.Prelude.{◌≡◌, ◌*◌, ◌/◌, ◌%◌, ◌^◌, ◌<◌, ◌==◌, length};
ghost use Rattle.lilo_model.specs.MinixParts.{bit, byte_with, with_bit};

/// Whether a bit is set.
#[tactic(auto, unfolding(lilo_model::specs::MinixParts::bit))]
pub(crate) fn has_bit(bytes: &[u8], at: usize) -> bool
    requires { at < 8 * length bytes.now }
    ensures { result ≡ bit bytes.now at }
{
    byte_has(bytes[at / 8], at % 8)
}

/// Whether a bit of a byte is set.
pub(crate) fn byte_has(byte: u8, k: usize) -> bool
    requires { k < 8 }
    ensures { result ≡ (byte / 2 ^ k % 2 == 1) }
{
    (byte >> k) & 1 == 1
}

/// Sets or clears a bit of some bytes, the lowest of a byte first.
#[tactic(auto, unfolding(lilo_model::specs::MinixParts::with_bit))]
pub fn put_bit(bytes: &mut [u8], at: usize, value: bool)
    requires { at < 8 * length bytes.old }
    ensures { bytes.new ≡ with_bit bytes.old at value }
{
    bytes[at / 8] = byte_with(bytes[at / 8], at % 8, value);
}

// A byte with one of its bits set or cleared.
fn byte_with(byte: u8, k: usize, value: bool) -> u8
    requires { k < 8 }
    ensures { result ≡ byte_with byte k value }
{
    if value {
        byte | (1 << k)
    } else {
        byte & !(1 << k)
    }
}
