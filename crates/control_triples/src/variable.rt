// The variables of mappings.
ghost use Rattle.std.specs.Prelude.{ℕ, ◌≡◌, ◌↔◌, ◌≤◌, ◌<◌, true, false, List, length, IfOk, option_map, slice_index_or};
ghost use Rattle.std.specs.List.{Contains, filter_map};
ghost use Rattle.std.specs.List.Sorted.{IsStrictlySortedBy};
ghost use Rattle.control_triples.specs.Vocabulary.{mapped_variable};
ghost use Rattle.control_triples.specs.declared.variable.Variable.{Variable};
ghost use Rattle.control_triples.specs.Parts.{borrowed_triples};
ghost use Rattle.control_triples.specs.Variables.{named, named_all, named_of, name_order, texts_in, AreVariables, goes_before};

use crate::controls::Controls;
use crate::vocabulary::mapped_variable;
use rdf_terms::{Term, Triple};
use std::alloc::Global;
use std::cmp::Ordering;
use tpf_base::OutOfMemory;

/// A mapping, and the text of a variable that it has.
#[derive(Clone, Copy, PartialEq, Eq, PartialOrd, Ord)]
pub(crate) struct Variable<'a> {
    pub(crate) mapping: &'a Term,
    pub(crate) text: &'a str,
}

/// The variable that a control triple gives its subject.
fn variable_in<'a>(triple: &'a Triple, variable: &Term) -> Option<Variable<'a>>
    requires { variable.now ≡ mapped_variable }
    ensures { option_map named result ≡ named_of triple.entry.now }
{
    if !triple.predicate.same(variable) {
        return None;
    }
    match &triple.object {
        Term::Literal { form, .. } => Some(Variable {
            mapping: &triple.subject,
            text: form.as_str(),
        }),
        _ => None,
    }
}

/// The variables of all mappings, in the order of the triples.
fn listed_variables<'a>(
    alloc: Global,
    triples: &[&'a Triple],
    variable: &Term,
) -> Result<Vec<Variable<'a>>, OutOfMemory>
    requires { variable.now ≡ mapped_variable }
    ensures { IfOk result (λ v. named_all v.items ≡ filter_map named_of (borrowed_triples triples.entry.now)) }
{
    let mut variables = Vec::new(alloc);
    for triple in triples {
        if let Some(found) = variable_in(triple, variable) {
            variables.push(found)?;
        }
    }
    Ok(variables)
}

/// The variables of all mappings, each text once, in the order of the mappings and then of the texts.
pub(crate) fn all_variables<'a>(
    alloc: Global,
    controls: &Controls<'a>,
) -> Result<Vec<Variable<'a>>, OutOfMemory>
    ensures { IfOk result (λ v. AreVariables controls.entry.now.quads controls.entry.now.topic (named_all v.items)) }
{
    let variable = mapped_variable(alloc)?;
    let variables = listed_variables(alloc, controls.triples(), &variable);
    // Dropped here, so that no exit below has it.
    drop(variable);
    let mut variables = variables?;
    variables.sort_unstable();
    variables.dedup();
    Ok(variables)
}

/// Whether the variable stands before those of this mapping, or with them where that is asked.
fn goes_before(variable: &Variable, mapping: &Term, with_equal: bool) -> bool
    ensures { result ≡ goes_before with_equal mapping.now (named variable.now) }
{
    match variable.mapping.cmp(mapping) {
        Ordering::Less => true,
        Ordering::Equal => with_equal,
        Ordering::Greater => false,
    }
}

/// How many variables stand before those of this mapping, these counted where that is asked.
fn place(variables: &[Variable], mapping: &Term, with_equal: bool) -> usize
    requires { IsStrictlySortedBy name_order (named_all variables.now) }
    ensures within { result ≤ length variables.now }
    ensures before { (k : ℕ) (d : Variable) → k < result
        → goes_before with_equal mapping.now (named (slice_index_or variables.now k d)) ≡ true }
    ensures behind { (k : ℕ) (d : Variable) → result ≤ k → k < length variables.now
        → goes_before with_equal mapping.now (named (slice_index_or variables.now k d)) ≡ false }
{
    variables.partition_point(|variable| goes_before(variable, mapping, with_equal))
}

/// The variables of a mapping, each text once.
pub(crate) fn variables_of<'b, 'a>(
    variables: &'b [Variable<'a>],
    mapping: &Term,
) -> &'b [Variable<'a>]
    requires { IsStrictlySortedBy name_order (named_all variables.now) }
    ensures members { (text : List ℕ) → Contains (texts_in result.now) text
        ↔ Contains (named_all variables.entry.now) (record { mapping = mapping.now; text = text }) }
{
    let from = place(variables, mapping, false);
    let to = place(variables, mapping, true);
    &variables[from..to]
}
