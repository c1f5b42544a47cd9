// Laws of the generated data.
ghost use Rattle.std.specs.Prelude.{ℕ};
ghost use Rattle.std.specs.List.{AllByRecursion};
ghost use Rattle.rdf_terms.specs.Triples.{IsRdfQuad};
ghost use Rattle.generated_data.specs.Generated.{generated, IsGroundQuad};

/// All generated quads are RDF quads of the default graph, and none has a blank node.
pub fn generated_quads_are_rdf()
    ensures rdf { (persons : ℕ) → AllByRecursion IsRdfQuad (generated persons) }
    ensures ground { (persons : ℕ) → AllByRecursion IsGroundQuad (generated persons) }
{}
