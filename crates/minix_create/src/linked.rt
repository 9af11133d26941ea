// What a creation answers.

/// A file that has its name.
#[derive(Clone, Copy, Debug, PartialEq, Eq)]
pub struct Linked {
    pub inode: u32,
}
