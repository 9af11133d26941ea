// Names that may be made.
ghost use Rattle.std.specs.Prelude.{◌≡◌, ◌≢◌, true, All};

/// Whether no byte of a name is 0.
pub fn has_no_zero(name: &[u8]) -> bool
    ensures { result ≡ true → All (λ byte. byte ≢ 0) name.now }
{
    for at in 0..name.len() {
        if name[at] == 0 {
            return false;
        }
    }
    true
}
