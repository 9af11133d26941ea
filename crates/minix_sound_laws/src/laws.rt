// What a survey's answer says.
ghost use Rattle.minix_sound_laws.specs.Laws.{ImageLaw, MetLaw, SoundLaw};

/// A survey is Ok exactly where the volume is sound.
pub fn survey_is_ok_exactly_where_sound()
    ensures { SoundLaw }
{}

/// So it is on each volume in an image.
pub fn survey_of_an_image_is_ok_exactly_where_sound()
    ensures { ImageLaw }
{}

/// Where it is Ok, what was met says who owns a zone, how many names an inode has and which zones are indirect.
pub fn survey_says_what_is_on_the_volume()
    ensures { MetLaw }
{}
