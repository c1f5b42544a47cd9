// Terms and their texts.
use case_rows::{Case, CaseFault, debug_text, text_of_bytes, truth_text, word_text};
use nquads_text::canonical;
use rdf_terms::{
    Kind, Term, TermFault, has_scheme, is_datatype, is_iri, is_iri_byte, is_label, is_label_char,
    is_label_start, is_lang_string, is_tag, is_xsd_string, lowered,
};
use std::alloc::Global;

/// The term of a class: `<` an IRI, `_` a blank node, `"` a plain literal, `@` one with a tag, `^` one with a
/// datatype.
fn made(alloc: Global, class: &str, text: &str, kind: &str) -> Result<Term, TermFault> {
    match class {
        "<" => Term::iri(alloc, text),
        "_" => Term::blank(alloc, text),
        "@" => Term::tagged(alloc, text, kind),
        "^" => Term::typed(alloc, text, kind),
        _ => Ok(Term::plain(alloc, text)?),
    }
}

/// `text`, `kind`: the term of a class, or its fault.
fn made_in(
    alloc: Global,
    case: &mut Case<'_>,
    class: &str,
) -> Result<Result<Term, TermFault>, CaseFault> {
    let text = case.text(alloc, "text")?;
    match case.text_if(alloc, "kind")? {
        Some(kind) => Ok(made(alloc, class, text.as_str(), kind.as_str())),
        None => Ok(made(alloc, class, text.as_str(), "")),
    }
}

/// `class`, `text`, `kind` (the tag or the datatype): the term, or its fault.
fn made_of(alloc: Global, case: &mut Case<'_>) -> Result<Result<Term, TermFault>, CaseFault> {
    let class = case.text(alloc, "class")?;
    made_in(alloc, case, class.as_str())
}

/// The same, where it is a term.
pub fn term_of(alloc: Global, case: &mut Case<'_>) -> Result<Term, CaseFault> {
    match made_of(alloc, case)? {
        Ok(term) => Ok(term),
        Err(_) => Err(CaseFault::Row),
    }
}

/// The tag or the datatype of a literal, and else nothing.
fn suffix(term: &Term) -> &str {
    match term {
        Term::Literal { form: _, kind } => match kind {
            Kind::Plain => "",
            Kind::Typed(datatype) => datatype.as_str(),
            Kind::Tagged(tag) => tag.as_str(),
        },
        _ => "",
    }
}

/// Whether the copy of a term is the same term.
fn is_copied(alloc: Global, term: &Term) -> Result<bool, CaseFault> {
    match term.copy(alloc) {
        Ok(copy) => {
            let is_same = copy.same(term);
            drop(copy);
            Ok(is_same)
        }
        Err(_) => Err(CaseFault::OutOfMemory),
    }
}

/// A term in canonical text.
fn canonical_text(alloc: Global, term: &Term) -> Result<String, CaseFault> {
    let mut out = Vec::new(alloc);
    if canonical(term, &mut out).is_err() {
        return Err(CaseFault::OutOfMemory);
    }
    text_of_bytes(out)
}

/// A term in canonical text, and its tag or datatype. Its copy is the same term.
fn term_text(alloc: Global, term: &Term) -> Result<String, CaseFault> {
    if !is_copied(alloc, term)? {
        return Err(CaseFault::Differs);
    }
    let text = canonical_text(alloc, term)?;
    let suffix = suffix(term);
    Ok(format!(in alloc; "{text} {suffix}")?)
}

/// `class`, `text`, `kind`: the canonical text of the term and its tag or datatype, or the fault.
pub fn term(alloc: Global, case: &mut Case<'_>) -> Result<String, CaseFault> {
    match made_of(alloc, case)? {
        Ok(term) => term_text(alloc, &term),
        Err(TermFault::OutOfMemory) => Err(CaseFault::OutOfMemory),
        Err(fault) => debug_text(alloc, &fault),
    }
}

/// Whether the first character of a text is what the word says.
fn is_said_of_first(word: &str, text: &str) -> Option<bool> {
    let byte = *text.as_bytes().first()?;
    let first = text.chars().next()?;
    match word {
        "iri_byte" => Some(is_iri_byte(byte)),
        "label_start" => Some(is_label_start(first)),
        "label_char" => Some(is_label_char(first)),
        _ => None,
    }
}

/// Whether the text is what the word says. Of a word for one character the first counts.
fn is_said(word: &str, text: &str) -> Option<bool> {
    match word {
        "iri" => Some(is_iri(text)),
        "label" => Some(is_label(text)),
        "tag" => Some(is_tag(text)),
        "datatype" => Some(is_datatype(text)),
        "xsd_string" => Some(is_xsd_string(text)),
        "lang_string" => Some(is_lang_string(text)),
        "scheme" => Some(has_scheme(text.as_bytes())),
        _ => is_said_of_first(word, text),
    }
}

/// `what`, `text`: whether the text is one.
pub fn is(alloc: Global, case: &mut Case<'_>) -> Result<String, CaseFault> {
    let word = case.text(alloc, "what")?;
    let text = case.text(alloc, "text")?;
    match is_said(word.as_str(), text.as_str()) {
        Some(said) => truth_text(alloc, said),
        None => Err(CaseFault::Row),
    }
}

/// `text`: the text in lower case.
pub fn lower_case(alloc: Global, case: &mut Case<'_>) -> Result<String, CaseFault> {
    let text = case.text(alloc, "text")?;
    match lowered(alloc, text.as_str()) {
        Ok(lowered) => word_text(alloc, lowered.as_str()),
        Err(_) => Err(CaseFault::OutOfMemory),
    }
}
