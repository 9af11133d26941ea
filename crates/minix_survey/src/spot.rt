// Inodes that a survey comes to.
ghost use Rattle.std.specs.Prelude.{◌≡◌, ◌+◌, ◌<◌};

/// An inode that is come to: the directory by whose entry, and how many entries from the root.
#[derive(Clone, Copy)]
pub(crate) struct Spot {
    pub(crate) inode: u32,
    pub(crate) above: u32,
    pub(crate) level: u32,
}

/// The root, which is above itself.
pub(crate) const ROOT: Spot = Spot {
    inode: 1,
    above: 1,
    level: 0,
};

impl Spot {
    ghost use Rattle.lilo_model.specs.MinixSurvey.{spot_below};
    ghost use Rattle.minix_survey.specs.View.{spot_view};

    /// The inode that an entry of this directory leads to.
    pub(crate) fn below(&self, inode: u32) -> Spot
        requires { self.now.level < 65 }
        ensures { spot_view result ≡ spot_below (spot_view self.now) inode }
    {
        Spot {
            inode,
            above: self.inode,
            level: self.level + 1,
        }
    }
}
