// The data sets of which contracts speak.
use rdf_terms::Triple;
use std::marker::Model;

/// A data set (RDF graph), of which contracts alone speak: they see it as the list of its triples.
#[derive(Drop)]
pub struct DataSet {
    triples: Vec<Triple>,
}

impl Model for DataSet {
    ghost use Rattle.std.specs.Prelude.{List};
    ghost use Rattle.rdf_terms.specs.declared.term.Triple.{Triple};

    ghost Value = { List Triple };

    ghost view = { λ d. d.triples.items };
}
