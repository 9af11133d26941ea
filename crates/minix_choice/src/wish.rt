// What is asked for.

/// A new file, symbolic link or directory.
#[derive(Clone, Copy)]
pub struct Wish<'a> {
    pub mode: u16,
    /// Its bytes.
    pub length: u32,
    /// The blocks that get no zone, in rising order: they read as zeros.
    pub holes: &'a [u32],
    pub time: u32,
    /// The inode of the directory that it is to be in.
    pub directory: u32,
    pub name: &'a [u8],
}
