// The triples that are served.
ghost use Rattle.std.specs.Prelude.{ℕ, ◌≡◌, ◌↔◌, ◌++◌, List, [], ◌∷◌, map, All, IfOk, OnOk, IsErrOf};
ghost use Rattle.std.specs.List.{Contains};
ghost use Rattle.std.specs.List.Sorted.{IsStrictlySortedBy};
ghost use Rattle.rdf_terms.specs.declared.term.Term.TheVariants as terms;
ghost use Rattle.rdf_terms.specs.Order.{bytes_order};
ghost use Rattle.rdf_terms.specs.Triples.{IsRdfQuad};
ghost use Rattle.tpf_base.specs.Addresses.{IsAuthority};
ghost use Rattle.triple_table.specs.Chosen.{chosen};
ghost use Rattle.triple_table.specs.Genid.{skolem_triple};
ghost use Rattle.triple_table.specs.Labels.{texts};
ghost use Rattle.triple_table.specs.Served.{terms_of, Clashes, IsLeastClash, IsServed};

use crate::Choice;
use crate::genid::skolem_triple;
use crate::labels::{first_clash, sorted_labels};
use rdf_terms::{Quad, Triple};
use std::alloc::Global;
use tpf_base::{OutOfMemory, Text};

/// Why the data of a file can't be served.
#[derive(Debug, Drop)]
pub enum BuildFault {
    /// The Skolem IRI (RDF 1.1 Concepts 3.5) of the blank node with this label, which the name calls its
    /// genid, stands in the triples already.
    GenidClash(Text),
    /// There are more distinct triples, or more distinct terms, than the table may hold.
    TooMany,
    /// Out of memory.
    OutOfMemory,
}

impl From<OutOfMemory> for BuildFault {
    ghost use Rattle.std.specs.Prelude.{◌≡◌};
    ghost use Rattle.triple_table.specs.declared.data_set.BuildFault.TheVariants as faults;

    ghost from_gives = { λ _ e. e ≡ faults.OutOfMemory };

    fn from(_: OutOfMemory) -> Self {
        BuildFault::OutOfMemory
    }
}

fn push_served(
    alloc: Global,
    triples: &mut Vec<Triple>,
    quad: &Quad,
    choice: &Choice,
    authority: &str,
) -> Result<(), OutOfMemory>
    requires { IsAuthority authority.now }
    ensures { OnOk result
        (triples.new.items ≡ triples.old.items ++ map (skolem_triple authority.now)
        (chosen choice.now (quad.now ∷ []))) }
{
    if choice.takes(&quad.graph) {
        triples.push(skolem_triple(alloc, authority, &quad.triple)?)?;
    }
    Ok(())
}

/// The chosen triples in the order of the quads, with repeats, each as it is served.
pub(crate) fn all_served(
    alloc: Global,
    quads: &[Quad],
    choice: &Choice,
    authority: &str,
) -> Result<Vec<Triple>, OutOfMemory>
    requires { IsAuthority authority.now }
    ensures { IfOk result (λ v. v.items ≡ map (skolem_triple authority.now) (chosen choice.now quads.now)) }
{
    let mut triples = Vec::with_capacity(alloc, quads.len())?;
    for quad in quads {
        push_served(alloc, &mut triples, quad, choice, authority)?;
    }
    Ok(triples)
}

/// Refuses the least of the labels whose IRI stands in a chosen triple.
fn refuse_first(
    alloc: Global,
    labels: &[&str],
    quads: &[Quad],
    choice: &Choice,
    authority: &str,
) -> Result<(), BuildFault>
    requires ascending { IsStrictlySortedBy bytes_order (texts labels.now) }
    requires members { (label : List ℕ) →
        Contains (texts labels.now) label ↔ Contains (terms_of (chosen choice.now quads.now)) (terms.Blank label) }
    ensures free { OnOk result ((label : List ℕ) → ¬ (Clashes authority.now (chosen choice.now quads.now) label)) }
    ensures clash { (label : List ℕ) → IsErrOf result (BuildFault.GenidClash label) →
        IsLeastClash authority.now (chosen choice.now quads.now) label }
    ensures never { ¬ (IsErrOf result BuildFault.TooMany) }
{
    let first = first_clash(labels, quads, choice, authority);
    if first < labels.len() {
        return Err(BuildFault::GenidClash(Text::copy(alloc, labels[first])?));
    }
    Ok(())
}

/// Refuses the least label whose IRI stands in a chosen triple.
pub(crate) fn refuse_clash(
    alloc: Global,
    quads: &[Quad],
    choice: &Choice,
    authority: &str,
) -> Result<(), BuildFault>
    ensures free { OnOk result ((label : List ℕ) → ¬ (Clashes authority.now (chosen choice.now quads.now) label)) }
    ensures clash { (label : List ℕ) → IsErrOf result (BuildFault.GenidClash label) →
        IsLeastClash authority.now (chosen choice.now quads.now) label }
    ensures never { ¬ (IsErrOf result BuildFault.TooMany) }
{
    let labels = sorted_labels(alloc, quads, choice)?;
    refuse_first(alloc, labels.as_slice(), quads, choice, authority)
}

/// The triples of the chosen quads, each blank node with label L as its Skolem IRI
/// `http://AUTHORITY/.well-known/genid/L` (RDF 1.1 Concepts 3.5): distinct, in the order of triples.
///
/// `GenidClash` comes exactly where such an IRI of a label in the chosen triples stands in one of them as
/// subject, predicate or object; it carries the least such label, by bytes. `TooMany` never comes;
/// `OutOfMemory` comes where memory runs out, at any point. The authority is to be a host with or without
/// a port, and each quad is to have RDF's classes: subject and graph an IRI or a blank node, predicate
/// an IRI (RDF 1.1 Concepts 3.1).
pub fn served(
    alloc: Global,
    quads: &[Quad],
    choice: &Choice,
    authority: &str,
) -> Result<Vec<Triple>, BuildFault>
    requires authority { IsAuthority authority.now }
    requires classes { All IsRdfQuad quads.now }
    ensures served { IfOk result (λ v. IsServed authority.now (chosen choice.now quads.now) v.items) }
    ensures free { OnOk result ((label : List ℕ) → ¬ (Clashes authority.now (chosen choice.now quads.now) label)) }
    ensures clash { (label : List ℕ) → IsErrOf result (BuildFault.GenidClash label) →
        IsLeastClash authority.now (chosen choice.now quads.now) label }
    ensures never_too_many { ¬ (IsErrOf result BuildFault.TooMany) }
{
    refuse_clash(alloc, quads, choice, authority)?;
    let mut triples = all_served(alloc, quads, choice, authority)?;
    triples.sort_unstable();
    triples.dedup();
    Ok(triples)
}
