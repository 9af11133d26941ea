// What the definitions of devices and of chains of tables say: laws, which no code needs to call.
ghost use Rattle.mbr_table.specs.Laws.{NamesLaw, ChainEndsLaw};

/// A device is looked up by its name, and by no other.
pub fn names()
    ensures { NamesLaw }
{}

/// A chain of tables ends, is refused or comes back within as many tables as the disk has sectors.
pub fn chain_ends()
    ensures { ChainEndsLaw }
{}
