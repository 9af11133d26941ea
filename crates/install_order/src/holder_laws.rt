// The test of the Holder is the model's.
ghost use Rattle.install_order.specs.HolderLaws.{HolderLaw, FinishLaw};

/// On a sound volume a file holds the table of the present map, by what a walk over its inode meets, exactly where the
/// model says that it Holds it.
pub fn holder_test_is_the_holder()
    ensures { HolderLaw }
{}

/// So settling finishes a rename, by that test, exactly where the model says so: the Holder is `map~` alone.
pub fn finish_test_is_settling()
    ensures { FinishLaw }
{}
