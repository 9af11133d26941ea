use arrayvec::ArrayVec;

/// What was chosen.
#[derive(Clone, Copy, Debug, PartialEq, Eq)]
pub struct Picked {
    /// The place of the entry in the list.
    pub entry: u16,
    /// Whether it was chosen without a typed line.
    pub automatic: bool,
    /// Whether the word `lock` was in the line.
    pub lock: bool,
    /// The video mode that a word gave.
    pub vga: Option<u16>,
}

/// What comes of a key.
#[derive(Clone, Copy, Debug, PartialEq, Eq)]
pub enum Answer {
    /// More keys are wanted.
    More,
    /// The names are to be listed.
    List,
    /// A password is asked.
    AskPassword,
    /// The first word of the line is no name.
    NoSuch,
    /// The password was wrong, or none came.
    WrongPassword,
    /// This is chosen.
    Chosen(Picked),
    /// The keys ended at the prompt.
    Idle,
}

/// What a prompt answers to a key.
#[derive(Clone, Debug, PartialEq, Eq, Drop)]
pub struct Reply {
    pub answer: Answer,
    /// The text to show. Where the prompt opens, the message comes directly before the first `boot: ` in it, and
    /// where the answer is `List` each name with a newline comes directly before the last one.
    pub show: ArrayVec<u8, 64>,
    /// Whether the prompt is shown for the first time.
    pub opened: bool,
}
