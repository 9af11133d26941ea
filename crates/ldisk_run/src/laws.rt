// Laws of what is done, which no code needs to call.
ghost use Rattle.ldisk_run.specs.Laws.{ContentLaw, ListingLaw};

/// Where `ls` answers 0, it prints the lines of the entries of the directory that the path leads to.
pub fn ls_prints_the_lines_of_the_entries()
    ensures { ListingLaw }
{}

/// `get` answers 0 and prints some bytes exactly where they are those of the file that the path leads to.
pub fn get_prints_the_file()
    ensures { ContentLaw }
{}
