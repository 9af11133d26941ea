/// What a prompt hears of the keys.
#[derive(Clone, Copy, Debug, PartialEq, Eq)]
pub enum Key {
    /// A byte that was typed.
    Byte(u8),
    /// A tenth of a second without a byte.
    Tick,
    /// No key comes any more.
    Silence,
}
