// What is read of a table that was made.
ghost use Rattle.ldisk_model.specs.DiskTable.{TableLaw};

/// What is read of the table that `make` writes is what was asked for.
pub fn table_reads_as_asked()
    ensures { TableLaw }
{}
