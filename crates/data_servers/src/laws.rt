// A law of the generated data.
ghost use Rattle.data_servers.specs.Starts.{GeneratedAreSmall};

use triple_table::laws::{authorities_are_short, served_terms_are_short};

/// The data of at most `MOST_PERSONS` (1000000) persons have at most three triples for each, and the terms have
/// canonical texts of at most `LONGEST_TERM` (262144) bytes, as those of a file that is served.
pub fn generated_data_are_small()
    ensures { GeneratedAreSmall }
{
    served_terms_are_short();
    authorities_are_short();
}
