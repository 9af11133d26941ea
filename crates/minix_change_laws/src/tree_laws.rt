// What the paths of a Minix volume lead to, before and after a change that no name sees.
ghost use Rattle.minix_change_laws.specs.TreeLaws.{
  HasMovedLaw,
  HasNamesLaw,
  KeepsJoinLaw,
  MovedAfterLaw,
  MovedBeforeLaw,
  MovedNamesLaw,
  MovedTreeAfterLaw,
  MovedTreeBeforeLaw,
  SeesTreeLaw,
  TreeAfterLaw,
  TreeBeforeLaw,
  TreeNamedLaw,
  TreeNamesLaw,
  WithAfterLaw,
  WithBeforeLaw,
};

/// Parts of which no name sees what has changed have the same tree.
pub fn seen_parts_have_the_same_tree()
    ensures { SeesTreeLaw }
{}

/// What stays in two changes in a row stays, where it had its name in between.
pub fn what_stays_twice_stays()
    ensures { KeepsJoinLaw }
{}

/// Names are those of the tree.
pub fn names_are_of_the_tree()
    ensures { TreeNamesLaw }
{}

/// And so they are where one was changed.
pub fn moved_names_are_of_the_tree()
    ensures { MovedNamesLaw }
{}

/// An inode that has a name had one, or is what the changed path leads to.
pub fn named_inode_had_a_name()
    ensures { TreeNamedLaw }
{}

/// Names in an image are those of its tree.
pub fn names_in_an_image()
    ensures { HasNamesLaw }
{}

/// And so they are where one was changed.
pub fn moved_names_in_an_image()
    ensures { HasMovedLaw }
{}

/// A path that is changed after what no name sees leads to the same, from the image before.
pub fn tree_after_what_is_unseen()
    ensures { TreeAfterLaw }
{}

/// And so does one that is changed before it.
pub fn tree_before_what_is_unseen()
    ensures { TreeBeforeLaw }
{}

/// The same of a path that is led away.
pub fn moved_tree_after_what_is_unseen()
    ensures { MovedTreeAfterLaw }
{}

/// And of one that is led away before.
pub fn moved_tree_before_what_is_unseen()
    ensures { MovedTreeBeforeLaw }
{}

/// A name that is made or goes after what no name sees makes the same of the image before.
pub fn name_after_what_is_unseen()
    ensures { WithAfterLaw }
{}

/// And so does one before it.
pub fn name_before_what_is_unseen()
    ensures { WithBeforeLaw }
{}

/// A name that is changed after what no name sees makes the same of the image before.
pub fn moved_name_after_what_is_unseen()
    ensures { MovedAfterLaw }
{}

/// And so does one before it.
pub fn moved_name_before_what_is_unseen()
    ensures { MovedBeforeLaw }
{}
