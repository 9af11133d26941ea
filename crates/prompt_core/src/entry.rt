use arrayvec::ArrayVec;

/// An entry of the list that is chosen from.
#[derive(Clone, Debug, Default, PartialEq, Eq, Drop)]
pub struct Choice {
    pub name: ArrayVec<u8, 15>,
    pub password: Option<ArrayVec<u8, 31>>,
    /// Whether the password is asked only where words are typed that are passed on.
    pub restricted: bool,
}

/// How the prompt is set up. Times are tenths of a second.
#[derive(Clone, Copy, Debug, PartialEq, Eq)]
pub struct Settings {
    /// Whether the prompt is shown without a key.
    pub prompt: bool,
    /// How long a key is waited for before the choice is made without one.
    pub delay: u16,
    /// How long a key is waited for once the prompt is shown.
    pub timeout: Option<u16>,
    /// The place in the list of the entry that is chosen without words.
    pub default_entry: u16,
    /// The most bytes of a typed line.
    pub capacity: u16,
}
