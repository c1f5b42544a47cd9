// The quads of a body that give the triples of its page.
ghost use Rattle.std.specs.Prelude.{◌≡◌, ◌++◌, ◌∷◌, [], ◌||◌, IfOk, OnOk};
ghost use Rattle.rdf_terms.specs.declared.term.Triple.{Triple};
ghost use Rattle.control_triples.specs.Contents.{page_triples};
ghost use Rattle.control_triples.specs.Marks.{is_seen, is_data, is_first, marked};

use crate::order::TripleKey;
use rdf_terms::Quad;
use std::alloc::Global;
use std::collections::BTreeSet;
use tpf_base::OutOfMemory;

/// Whether the quad stands in the default graph and its triple was not seen before.
fn is_first<'a>(seen: &mut BTreeSet<TripleKey<'a>>, quad: &'a Quad) -> Result<bool, OutOfMemory>
    ensures first { IfOk result (λ first. first ≡ is_first (is_seen seen.old quad.entry.now.triple) quad.entry.now) }
    ensures seen { OnOk result ((t : Triple) → is_seen seen.new t ≡ (is_data t quad.entry.now || is_seen seen.old t)) }
{
    if quad.graph.is_some() {
        return Ok(false);
    }
    let key = TripleKey {
        triple: &quad.triple,
    };
    Ok(seen.insert(key)?)
}

/// Adds at the end whether the quad is the first with its triple in the default graph.
fn add_mark<'a>(
    marks: &mut Vec<bool>,
    seen: &mut BTreeSet<TripleKey<'a>>,
    quad: &'a Quad,
) -> Result<(), OutOfMemory>
    ensures marks { OnOk result (marks.new.items ≡ marks.old.items
        ++ is_first (is_seen seen.old quad.entry.now.triple) quad.entry.now ∷ []) }
    ensures seen { OnOk result ((t : Triple) → is_seen seen.new t ≡ (is_data t quad.entry.now || is_seen seen.old t)) }
{
    let first = is_first(seen, quad)?;
    marks.push(first)?;
    Ok(())
}

/// For each quad whether it is the first with its triple in the default graph. The only error is out of memory.
pub fn first_marks(alloc: Global, quads: &[Quad]) -> Result<Vec<bool>, OutOfMemory>
    ensures { IfOk result (λ marks. marked quads.now marks.items ≡ page_triples quads.now) }
{
    let mut seen = BTreeSet::new(alloc);
    let mut marks = Vec::with_capacity(alloc, quads.len())?;
    for quad in quads {
        add_mark(&mut marks, &mut seen, quad)?;
    }
    Ok(marks)
}
