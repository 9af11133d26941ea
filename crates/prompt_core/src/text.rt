// Bytes as values of their own.
ghost use Rattle.std.specs.Prelude.{◌≡◌, ◌≤◌, ◌<◌, ◌+◌, ◌++◌, length};
ghost use Rattle.prompt_core.specs.Reader.{with_word};

use arrayvec::ArrayVec;

// Bytes with more after them.
pub(crate) fn with_bytes<const N: usize>(mut text: ArrayVec<u8, N>, bytes: &[u8]) -> ArrayVec<u8, N>
    requires { length text.items + length bytes.now ≤ N }
    ensures { result.items ≡ text.entry.items ++ bytes.now }
{
    for byte in bytes {
        text.push(*byte);
    }
    text
}

// A copy of bytes that fit.
pub(crate) fn copy_of<const N: usize>(bytes: &[u8]) -> ArrayVec<u8, N>
    requires { length bytes.now ≤ N }
    ensures { result.items ≡ bytes.now }
{
    with_bytes(ArrayVec::new(), bytes)
}

// A text with one more word, after a space where there is one already.
pub(crate) fn with_word(text: ArrayVec<u8, 470>, word: &[u8]) -> ArrayVec<u8, 470>
    requires { length text.items + length word.now < 470 }
    ensures { result.items ≡ with_word text.items word.now }
{
    if text.is_empty() {
        copy_of(word)
    } else {
        with_bytes(with_bytes(text, b" "), word)
    }
}
