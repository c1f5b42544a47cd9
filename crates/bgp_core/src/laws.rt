// The law of compatible rows and their union.
ghost use Rattle.bgp_core.specs.Merging.{MergingIsUnion};

/// Two rows are compatible exactly where no name has two different terms in them, and what they merge to has for each name
/// what either binds: SPARQL's compatible mappings and their union.
pub fn merging_is_union()
    ensures { MergingIsUnion }
{}
