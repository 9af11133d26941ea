// The kinds of volumes.
ghost use Rattle.std.specs.Prelude.{◌≡◌};
ghost use Rattle.std.specs.Option.{option_map};
ghost use Rattle.lilo_model.specs.MinixLayout.{kind_of, magic_of, is_v1, inode_size};
ghost use Rattle.minix_layout.specs.View.{kind_view};

/// The version of a volume's format, and the length of its names: 14 or 30 bytes.
#[derive(Clone, Copy, Debug, PartialEq, Eq)]
pub enum FsKind {
    /// Version 1 with names of 14 bytes.
    V1Short,
    /// Version 1 with names of 30 bytes.
    V1Long,
    /// Version 2 with names of 14 bytes.
    V2Short,
    /// Version 2 with names of 30 bytes.
    V2Long,
}

impl FsKind {
    /// Whether the format is version 1.
    pub fn is_v1(self) -> bool
        ensures { result ≡ is_v1 (kind_view self) }
    {
        match self {
            FsKind::V1Short | FsKind::V1Long => true,
            FsKind::V2Short | FsKind::V2Long => false,
        }
    }

    /// The bytes of an inode.
    pub fn inode_size(self) -> u16
        ensures { result ≡ inode_size (kind_view self) }
    {
        if self.is_v1() { 32 } else { 64 }
    }

    // The kind with a magic number.
    #[tactic(auto, unfolding(lilo_model::specs::MinixLayout::kind_of))]
    pub(crate) fn of_magic(magic: u16) -> Option<FsKind>
        ensures { option_map kind_view result ≡ kind_of magic }
    {
        match magic {
            0x137F => Some(FsKind::V1Short),
            0x138F => Some(FsKind::V1Long),
            0x2468 => Some(FsKind::V2Short),
            0x2478 => Some(FsKind::V2Long),
            _ => None,
        }
    }

    // Its magic number.
    pub(crate) fn magic(self) -> u16
        ensures { result ≡ magic_of (kind_view self) }
    {
        match self {
            FsKind::V1Short => 0x137F,
            FsKind::V1Long => 0x138F,
            FsKind::V2Short => 0x2468,
            FsKind::V2Long => 0x2478,
        }
    }
}
