// What the definitions of Minix volumes say.
ghost use Rattle.minix_laws.specs.FindNames.{FindLaw};
ghost use Rattle.minix_laws.specs.Plain.{GivenLaw, SoundLaw};
ghost use Rattle.minix_laws.specs.Pointers.{PointerLaw};
ghost use Rattle.minix_laws.specs.RootVolume.{RootLaw};

/// There are sound volumes: of each kind one with a root directory alone.
pub fn root_volume_is_sound()
    ensures { RootLaw }
{}

/// Where a zone, a block, a content or an entry isn't refused, it is the one that Names and Sound speak of.
pub fn given_is_plain()
    ensures { GivenLaw }
{}

/// On a sound volume none of them is refused for what has a name.
pub fn sound_refuses_nothing()
    ensures { SoundLaw }
{}

/// On a sound volume Find leads to what a function of Names says, or refuses as it does.
pub fn find_is_of_names()
    ensures { FindLaw }
{}

/// Each block has a pointer of an inode, and no two blocks have the same.
pub fn blocks_have_pointers_of_their_own()
    ensures { PointerLaw }
{}
