// What a part of one zone with other bytes does to a sound Minix volume.
ghost use Rattle.minix_change_laws.specs.ZoneBytesLaws.{
  GrowthSampleLaw,
  NumberBytesLaw,
  PartLaw,
  SeenNumberLaw,
  SeenPastLaw,
  WritePartLaw,
};

/// Other bytes in a part of a zone that lies in one sector are a change of that zone alone.
pub fn written_part_changes_one_zone()
    ensures { PartLaw }
{}

/// One write of a sector leaves them.
pub fn one_write_leaves_a_part()
    ensures { WritePartLaw }
{}

/// The bytes of a number say it, and leave the other numbers.
pub fn number_bytes_say_a_number()
    ensures { NumberBytesLaw }
{}

/// No name sees them where a directory gets zones by it.
pub fn number_bytes_are_unseen()
    ensures { SeenNumberLaw }
{}

/// Nor any bytes at a place past a directory's size.
pub fn bytes_past_the_size_are_unseen()
    ensures { SeenPastLaw }
{}

/// There are sound parts on which a directory may grow in each way.
pub fn directory_may_grow_in_each_way()
    ensures { GrowthSampleLaw }
{}
