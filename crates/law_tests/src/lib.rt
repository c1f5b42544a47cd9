//! Callers of laws that proofs cite and no other code calls: what a law says is known where it was
//! called. Worked examples of definitions are computed in its proofs.
#![tactic(auto)]

ghost use Rattle.hydra_controls.specs.Laws.{MetadataIsRdf};
ghost use Rattle.pool_laws.specs.Honest.{RefusedAsTooLongAlone};
ghost use Rattle.template_fill.specs.Explicit.{ReadsBack};
ghost use Rattle.template_fill.specs.Responses.{LongerHistoriesAgree, ResponseBegins};

use definition_laws::{
    an_honest_reply_is_refused_as_too_long_alone, explicit_forms_read_back, marks_go_on,
    metadata_is_rdf, response_goes_on,
};

/// What was sent of a response stays its prefix where more bytes come on the connection (`more`), and
/// where the data are read again (`reloaded`).
pub fn what_was_sent_stays()
    ensures more { ResponseBegins }
    ensures reloaded { LongerHistoriesAgree }
{
    response_goes_on();
    marks_go_on();
}

/// An exchange with an honest server ends with one fault of a reply alone.
pub fn one_fault_is_left()
    ensures { RefusedAsTooLongAlone }
{
    an_honest_reply_is_refused_as_too_long_alone();
}

/// What a server writes is read: the explicit form of a term, which stands in an address, and the metadata of a page,
/// which are RDF.
pub fn what_is_written_is_read()
    ensures forms { ReadsBack }
    ensures metadata { MetadataIsRdf }
{
    explicit_forms_read_back();
    metadata_is_rdf();
}
