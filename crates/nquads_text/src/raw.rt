// A line's raw form: its parts as written.
ghost use Rattle.std.specs.Prelude.{◌≡◌, Option, Some, None, MatchOption};
ghost use Rattle.std.specs.Option.{option_map};
ghost use Rattle.nquads_text.specs.Raw.{iri_part, form_part, label_part, tag_part, datatype_part, kind_part, literal_part, node_part, object_part, graph_part, statement_of, line_form};
ghost use Rattle.nquads_text.specs.Views.{kind_view, term_view, quad_view};

use crate::scan::{
    form_end, iri_end, is_label, is_over, is_tag, label_len, opened, skipped, tag_len,
};

/// What follows a form, the string between the quotes of a literal, as written.
#[derive(Clone, Copy)]
pub enum RawKind<'a> {
    Plain,
    Typed(&'a [u8]),
    Tagged(&'a [u8]),
}

/// A term as written, between its marks.
#[derive(Clone, Copy)]
pub enum RawTerm<'a> {
    Iri(&'a [u8]),
    Blank(&'a [u8]),
    Literal { form: &'a [u8], kind: RawKind<'a> },
}

/// A statement as written.
#[derive(Clone, Copy)]
pub struct RawQuad<'a> {
    pub subject: RawTerm<'a>,
    pub predicate: RawTerm<'a>,
    pub object: RawTerm<'a>,
    pub graph: Option<RawTerm<'a>>,
}

#[tactic(auto, unfolding(crate::specs::Raw::iri_part))]
fn iri_part(bytes: &[u8]) -> Option<(&[u8], &[u8])>
    ensures { MatchOption result (iri_part bytes.now ≡ None) (λ p. iri_part bytes.now ≡ Some (p.0.now, p.1.now)) }
{
    let inside = opened(bytes, b'<')?;
    let n = iri_end(inside)?;
    Some((&inside[..n], &inside[n + 1..]))
}

#[tactic(auto, unfolding(crate::specs::Raw::form_part))]
fn form_part(bytes: &[u8]) -> Option<(&[u8], &[u8])>
    ensures { MatchOption result (form_part bytes.now ≡ None) (λ p. form_part bytes.now ≡ Some (p.0.now, p.1.now)) }
{
    let inside = opened(bytes, b'"')?;
    let n = form_end(inside)?;
    Some((&inside[..n], &inside[n + 1..]))
}

#[tactic(auto, unfolding(crate::specs::Raw::label_part))]
fn label_part(bytes: &[u8]) -> Option<(&[u8], &[u8])>
    ensures { MatchOption result (label_part bytes.now ≡ None) (λ p. label_part bytes.now ≡ Some (p.0.now, p.1.now)) }
{
    let colon = opened(bytes, b'_')?;
    let inside = opened(colon, b':')?;
    let (label, rest) = inside.split_at(label_len(inside));
    if is_label(label) {
        Some((label, rest))
    } else {
        None
    }
}

#[tactic(auto, unfolding(crate::specs::Raw::tag_part))]
fn tag_part(bytes: &[u8]) -> Option<(&[u8], &[u8])>
    ensures { MatchOption result (tag_part bytes.now ≡ None) (λ p. tag_part bytes.now ≡ Some (p.0.now, p.1.now)) }
{
    let inside = opened(bytes, b'@')?;
    let (tag, rest) = inside.split_at(tag_len(inside));
    if is_tag(tag) { Some((tag, rest)) } else { None }
}

/// What stands after `^^`.
#[tactic(auto, unfolding(crate::specs::Raw::datatype_part))]
fn datatype_part(bytes: &[u8]) -> Option<(&[u8], &[u8])>
    ensures { MatchOption result (datatype_part bytes.now ≡ None)
        (λ p. datatype_part bytes.now ≡ Some (p.0.now, p.1.now)) }
{
    let second = opened(bytes, b'^')?;
    let inside = opened(second, b'^')?;
    iri_part(skipped(inside))
}

/// What follows a form, and the bytes after it.
#[tactic(auto, unfolding(crate::specs::Raw::kind_part))]
fn kind_part(bytes: &[u8]) -> (RawKind<'_>, &[u8])
    ensures { kind_part bytes.now ≡ (kind_view result.0, result.1.now) }
{
    match tag_part(bytes) {
        Some((tag, rest)) => (RawKind::Tagged(tag), rest),
        None => match datatype_part(skipped(bytes)) {
            Some((datatype, rest)) => (RawKind::Typed(datatype), rest),
            None => (RawKind::Plain, bytes),
        },
    }
}

#[tactic(auto, unfolding(crate::specs::Raw::literal_part))]
fn literal_part(bytes: &[u8]) -> Option<(RawTerm<'_>, &[u8])>
    ensures { MatchOption result (literal_part bytes.now ≡ None)
        (λ p. literal_part bytes.now ≡ Some (term_view p.0, p.1.now)) }
{
    let (form, after) = form_part(bytes)?;
    let (kind, rest) = kind_part(after);
    Some((RawTerm::Literal { form, kind }, rest))
}

/// A subject, or a graph.
#[tactic(auto, unfolding(crate::specs::Raw::node_part))]
fn node_part(bytes: &[u8]) -> Option<(RawTerm<'_>, &[u8])>
    ensures { MatchOption result (node_part bytes.now ≡ None)
        (λ p. node_part bytes.now ≡ Some (term_view p.0, p.1.now)) }
{
    match iri_part(bytes) {
        Some((text, rest)) => Some((RawTerm::Iri(text), rest)),
        None => {
            let (label, rest) = label_part(bytes)?;
            Some((RawTerm::Blank(label), rest))
        }
    }
}

#[tactic(auto, unfolding(crate::specs::Raw::object_part))]
fn object_part(bytes: &[u8]) -> Option<(RawTerm<'_>, &[u8])>
    ensures { MatchOption result (object_part bytes.now ≡ None)
        (λ p. object_part bytes.now ≡ Some (term_view p.0, p.1.now)) }
{
    match node_part(bytes) {
        Some(found) => Some(found),
        None => literal_part(bytes),
    }
}

#[tactic(auto, unfolding(crate::specs::Raw::graph_part))]
fn graph_part(bytes: &[u8]) -> (Option<RawTerm<'_>>, &[u8])
    ensures { graph_part bytes.now ≡ (option_map term_view result.0, result.1.now) }
{
    match node_part(bytes) {
        Some((term, rest)) => (Some(term), rest),
        None => (None, bytes),
    }
}

#[tactic(auto, unfolding(crate::specs::Raw::statement_of))]
fn statement_of(line: &[u8]) -> Option<RawQuad<'_>>
    ensures { MatchOption result (statement_of line.now ≡ None) (λ q. statement_of line.now ≡ Some (quad_view q)) }
{
    let (subject, rest) = node_part(line)?;
    let (predicate, rest) = iri_part(skipped(rest))?;
    let (object, rest) = object_part(skipped(rest))?;
    let (graph, rest) = graph_part(skipped(rest));
    let end = opened(skipped(rest), b'.')?;
    if is_over(skipped(end)) {
        Some(RawQuad {
            subject,
            predicate: RawTerm::Iri(predicate),
            object,
            graph,
        })
    } else {
        None
    }
}

/// A line without a statement, or the statement of a line.
#[tactic(auto, unfolding(crate::specs::Raw::line_form))]
pub fn line_form(line: &[u8]) -> Option<Option<RawQuad<'_>>>
    ensures { MatchOption result (line_form line.now ≡ None) (λ q. line_form line.now ≡ Some (option_map quad_view q)) }
{
    let text = skipped(line);
    if is_over(text) {
        return Some(None);
    }
    let found = statement_of(text)?;
    Some(Some(found))
}
