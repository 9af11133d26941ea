// What a survey found.
use std::collections::HashMap;

/// The inode that refers to a zone.
#[derive(Clone, Copy, Drop)]
pub(crate) struct Owner {
    pub(crate) inode: u32,
    /// Whether the zone has numbers of zones.
    pub(crate) indirect: bool,
}

/// What a survey found on a volume with which nothing is wrong.
#[derive(Drop)]
pub struct Findings {
    pub(crate) owners: HashMap<u32, Owner>,
    pub(crate) names: HashMap<u32, u32>,
}

impl Findings {
    ghost use Rattle.std.specs.Prelude.{◌≡◌};
    ghost use Rattle.minix_survey.specs.Findings.{owner_in, names_in, indirect_in};

    /// The inode with a name that refers to a zone, or None.
    pub fn owner(&self, zone: u32) -> Option<u32>
        ensures { result ≡ owner_in self.now zone }
    {
        match self.owners.get(&zone) {
            Some(owner) => Some(owner.inode),
            None => None,
        }
    }

    /// How many names an inode has.
    pub fn names(&self, inode: u32) -> u32
        ensures { result ≡ names_in self.now inode }
    {
        self.names.get(&inode).copied().unwrap_or(0)
    }

    /// Whether a zone has numbers of zones.
    pub fn indirect(&self, zone: u32) -> bool
        ensures { result ≡ indirect_in self.now zone }
    {
        match self.owners.get(&zone) {
            Some(owner) => owner.indirect,
            None => false,
        }
    }
}
