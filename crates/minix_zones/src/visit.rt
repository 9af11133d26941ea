// Zones that a walk meets.

/// A zone that an inode refers to.
#[derive(Clone, Copy, Debug, PartialEq, Eq)]
pub struct Visit {
    pub zone: u32,
    /// Its own index, or the least one that is found through it.
    pub index: u32,
    /// Whether it has numbers of zones.
    pub indirect: bool,
}
