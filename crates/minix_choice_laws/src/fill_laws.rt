// What a file is whose inode and indirect zones have the numbers that were chosen for it.
ghost use Rattle.minix_choice_laws.specs.Chosen.{ChosenLaw};
ghost use Rattle.minix_choice_laws.specs.FillLaws.{PointersLaw, ContentLaw, FitFilledLaw, FilledLaw};

/// Each pointer leads to the zone that was chosen for it.
pub fn pointers_lead_to_what_was_chosen()
    ensures { PointersLaw }
{}

/// The content is that of the blocks' zones, zeros in holes, cut at the size.
pub fn content_is_of_the_blocks()
    ensures { ContentLaw }
{}

/// The inode is fit for a name, where its zones are new.
pub fn filled_inode_is_fit()
    ensures { FitFilledLaw }
{}

/// It is a new file, where it is no directory.
pub fn filled_inode_is_a_new_file()
    ensures { FilledLaw }
{}

/// Zones that were chosen for a file may be its zones.
pub fn chosen_zones_may_be_a_file()
    ensures { ChosenLaw }
{}
