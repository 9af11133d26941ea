// What a change that no name sees does to a sound Minix volume.
ghost use Rattle.minix_change_laws.specs.SeesLaws.{
  KeptIsSeenLaw,
  LinksLaw,
  SeenBesideLaw,
  SeenJoinLaw,
  SeenPartsLaw,
  SeenSameLaw,
  SeenSoundLaw,
  SeesJoinLaw,
  SeesLaw,
};

/// Parts of which no name sees what has changed stay sound, with the same Names.
pub fn seen_parts_stay_sound()
    ensures { SeesLaw }
{}

/// Changes in a row that no name sees are one.
pub fn changes_that_are_unseen_join()
    ensures { SeesJoinLaw }
{}

/// Parts that keep what has a name but for links that are enough are such.
pub fn changed_links_are_unseen()
    ensures { LinksLaw }
{}

/// And so are those that keep it whole.
pub fn kept_parts_are_seen_as_before()
    ensures { KeptIsSeenLaw }
{}

/// A sound volume is seen as it is.
pub fn what_stands_is_seen()
    ensures { SeenSameLaw }
{}

/// No name sees harmless bytes.
pub fn harmless_bytes_are_unseen()
    ensures { SeenBesideLaw }
{}

/// A volume that is seen as before is sound, with the same Names.
pub fn seen_volume_has_the_same_names()
    ensures { SeenSoundLaw }
{}

/// Writes in a row that no name sees are one.
pub fn unseen_writes_join()
    ensures { SeenJoinLaw }
{}

/// Where the superblock stays and each sector is whole, parts that are seen as before are a volume that is.
pub fn seen_parts_are_a_volume()
    ensures { SeenPartsLaw }
{}
