// Which graphs of a dataset are served.
ghost use Rattle.std.specs.Prelude.{◌≡◌};

use rdf_terms::Term;
use tpf_base::Text;

/// Which graphs of a dataset are served (RDF 1.1 Concepts 4).
#[derive(Drop)]
pub enum Choice {
    /// The triples of the default graph.
    DefaultGraph,
    /// The triples of the graph that this IRI names. A blank node names no such graph.
    Named(Text),
    /// The triples of all graphs, named ones and the default graph.
    Union,
}

impl Choice {
    ghost use Rattle.triple_table.specs.Chosen.{is_chosen};

    /// Whether the triples of a graph are served; a quad without a graph is of the default graph.
    pub fn takes(&self, graph: &Option<Term>) -> bool
        ensures { result ≡ is_chosen self.now graph.now }
    {
        match self {
            Choice::DefaultGraph => graph.is_none(),
            Choice::Named(name) => match graph {
                Some(Term::Iri(iri)) => iri.as_str() == name.as_str(),
                _ => false,
            },
            Choice::Union => true,
        }
    }
}
