// A text that isn't the answer to a command.
ghost use Rattle.std.specs.Prelude.{◌≡◌, ◌⊎◌};

/// Puts a text to standard output, and answers the status: 0, or 12 where it can't be shown.
pub fn show_text(rt: &HostRuntime, text: &str) -> u8
    ensures status { (result ≡ 0) ⊎ (result ≡ 12) }
{
    match rt.print(text) {
        Ok(()) => 0,
        Err(_) => 12,
    }
}
