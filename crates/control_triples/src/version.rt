// The version of the data that a page tells.
ghost use Rattle.std.specs.Prelude.{◌≡◌, IfOk};
ghost use Rattle.std.specs.List.{list_any};
ghost use Rattle.std.specs.Option.{option_copied};
ghost use Rattle.control_triples.specs.Vocabulary.{version_info};
ghost use Rattle.control_triples.specs.Controls.{IsVersion};
ghost use Rattle.control_triples.specs.Parts.{borrowed_triples};
ghost use Rattle.control_triples.specs.Versions.{first_version, is_number_term, is_other_version, is_version};

use crate::controls::Controls;
use crate::digits::{is_count_text, number};
use crate::vocabulary::version_info;
use rdf_terms::{Term, Triple};
use std::alloc::Global;
use tpf_base::OutOfMemory;

fn is_number_term(term: &Term) -> bool
    ensures { result ≡ is_number_term term.now }
{
    match term {
        Term::Literal { form, .. } => is_count_text(form.as_str().as_bytes()),
        _ => false,
    }
}

/// Whether a triple gives something a version: a literal of 1 to `MOST_DIGITS` digits by owl:versionInfo.
fn is_version(triple: &Triple, word: &Term) -> bool
    requires { word.now ≡ version_info }
    ensures { result ≡ is_version triple.now }
{
    triple.predicate.same(word) && is_number_term(&triple.object)
}

/// Whether a triple gives another version than this.
fn is_other_version(triple: &Triple, word: &Term, version: &Term) -> bool
    requires { word.now ≡ version_info }
    ensures { result ≡ is_other_version version.now triple.now }
{
    is_version(triple, word) && !triple.object.same(version)
}

/// The first version that triples give.
fn first_version<'b>(triples: &'b [&Triple], word: &Term) -> Option<&'b Term>
    requires { word.now ≡ version_info }
    ensures { option_copied result ≡ first_version (borrowed_triples triples.entry.now) }
{
    for triple in triples {
        if is_version(triple, word) {
            return Some(&triple.object);
        }
    }
    None
}

/// Whether the triples give another version than this.
fn has_other_version(triples: &[&Triple], word: &Term, version: &Term) -> bool
    requires { word.now ≡ version_info }
    ensures { result ≡ list_any (is_other_version version.now) (borrowed_triples triples.now) }
{
    for triple in triples {
        if is_other_version(triple, word, version) {
            return true;
        }
    }
    false
}

/// The version that the controls give, where they give exactly one: a literal of 1 to `MOST_DIGITS` digits (19) by
/// owl:versionInfo. The only error is out of memory.
pub fn read_version(alloc: Global, controls: &Controls) -> Result<Option<u64>, OutOfMemory>
    ensures { IfOk result (IsVersion controls.now.quads controls.now.topic) }
{
    let word = version_info(alloc)?;
    let triples = controls.triples();
    match first_version(triples, &word) {
        None => {
            // Dropped here, so that no other way out has it.
            drop(word);
            Ok(None)
        }
        Some(version) => {
            let several = has_other_version(triples, &word, version);
            drop(word);
            if several {
                Ok(None)
            } else {
                Ok(number(version))
            }
        }
    }
}
