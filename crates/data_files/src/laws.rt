// Laws of the files that are read.
ghost use Rattle.data_files.specs.Data.{OneOutcome};
ghost use Rattle.data_files.specs.Queries.{OneQueryOutcome};

/// The data of a file have one outcome at most: they are served, as one data set, or have one fault.
pub fn one_data_outcome()
    ensures { OneOutcome }
{}

/// The text of a file has one outcome at most by each grammar: it is one query without groups, one with groups,
/// or has one first fault.
pub fn one_query_outcome()
    ensures { OneQueryOutcome }
{}
