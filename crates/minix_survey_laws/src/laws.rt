// What the facts of a survey say.
ghost use Rattle.minix_survey_laws.specs.Laws.{
  CountLaw,
  FactsLaw,
  LinksLaw,
  NamedLaw,
  NamesLaw,
  SeenLaw,
  SurveyLaw,
  SurveyedLaw,
};

/// A volume on which the facts of a survey hold is sound.
pub fn surveyed_volume_is_sound()
    ensures { SurveyLaw }
{}

/// There each inode that has a name was seen.
pub fn named_inodes_are_seen()
    ensures { NamedLaw }
{}

/// And each inode that was seen has a name, where each of them but the root was seen by an entry.
pub fn seen_inodes_are_named()
    ensures { SeenLaw }
{}

/// On a sound volume, where nothing was seen but what has a name, the facts hold at each moment of a survey.
pub fn facts_hold_on_a_sound_volume()
    ensures { FactsLaw }
{}

/// And where all that has a name was seen, the survey is done.
pub fn sound_volume_is_surveyed()
    ensures { SurveyedLaw }
{}

/// A count of an inode's names goes on place by place, as the entries do that name it.
pub fn names_are_counted_by_places()
    ensures { CountLaw }
{}

/// Where all places were judged, no list of places that name an inode is longer than its count.
pub fn count_bounds_all_places()
    ensures { LinksLaw }
{}

/// And where a survey is done, an inode has as many names as were counted.
pub fn count_is_that_of_names()
    ensures { NamesLaw }
{}
