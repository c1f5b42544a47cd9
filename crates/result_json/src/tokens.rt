// The tokens of a result.
ghost use Rattle.std.specs.Prelude.{◌≡◌, [], ◌∷◌, ◌++◌, OnOk, Some};
ghost use Rattle.json.specs.Token.{begin_object, begin_array, key};
ghost use Rattle.bgp_core.specs.Solutions.{term_at};
ghost use Rattle.result_json.specs.Results.{text_member, datatype_member, tag_member, term_members, name_at, bound_member, row_object, names_array};
ghost use Rattle.result_json.specs.Pieces.{head_tokens, opening, front_tokens};

use crate::columns::name_at;
use bgp_core::{Query, Row};
use json::Writer;
use rdf_terms::{Kind, Term};
use std::alloc::AllocError;
use tpf_base::Text;

/// A member whose value is a string.
fn put_text(writer: &mut Writer, name: &str, text: &str) -> Result<(), AllocError>
    ensures tokens { OnOk result (writer.new.tokens ≡ writer.old.tokens ++ text_member name.now text.now) }
    ensures before { writer.new.before ≡ writer.old.before }
{
    writer.key(name)?;
    writer.string(text)
}

fn put_datatype(writer: &mut Writer, kind: &Kind) -> Result<(), AllocError>
    ensures tokens { OnOk result (writer.new.tokens ≡ writer.old.tokens ++ datatype_member kind.now) }
    ensures before { writer.new.before ≡ writer.old.before }
{
    match kind {
        Kind::Typed(datatype) => put_text(writer, "datatype", datatype.as_str()),
        Kind::Plain | Kind::Tagged(_) => Ok(()),
    }
}

fn put_tag(writer: &mut Writer, kind: &Kind) -> Result<(), AllocError>
    ensures tokens { OnOk result (writer.new.tokens ≡ writer.old.tokens ++ tag_member kind.now) }
    ensures before { writer.new.before ≡ writer.old.before }
{
    match kind {
        Kind::Tagged(tag) => put_text(writer, "xml:lang", tag.as_str()),
        Kind::Plain | Kind::Typed(_) => Ok(()),
    }
}

fn put_members(writer: &mut Writer, term: &Term) -> Result<(), AllocError>
    ensures tokens { OnOk result (writer.new.tokens ≡ writer.old.tokens ++ term_members term.now) }
    ensures before { writer.new.before ≡ writer.old.before }
{
    match term {
        Term::Iri(iri) => {
            put_text(writer, "type", "uri")?;
            put_text(writer, "value", iri.as_str())
        }
        Term::Blank(label) => {
            put_text(writer, "type", "bnode")?;
            put_text(writer, "value", label.as_str())
        }
        Term::Literal { form, kind } => {
            put_datatype(writer, kind)?;
            put_text(writer, "type", "literal")?;
            put_text(writer, "value", form.as_str())?;
            put_tag(writer, kind)
        }
    }
}

/// A member for a name and the term that it is bound to.
fn put_bound(writer: &mut Writer, name: &str, term: &Term) -> Result<(), AllocError>
    ensures tokens { OnOk result (writer.new.tokens ≡ writer.old.tokens ++ bound_member name.now (Some term.now)) }
    ensures before { writer.new.before ≡ writer.old.before }
{
    writer.key(name)?;
    writer.begin_object()?;
    put_members(writer, term)?;
    writer.end_object()
}

/// A member for a column of a row, where the row binds it.
fn put_column(writer: &mut Writer, names: &[Text], n: u32, row: &Row) -> Result<(), AllocError>
    ensures tokens { OnOk result (writer.new.tokens ≡
        writer.old.tokens ++ bound_member (name_at names.now n) (term_at row.now n)) }
    ensures before { writer.new.before ≡ writer.old.before }
{
    match row.term(n) {
        Some(term) => put_bound(writer, name_at(names, n), term),
        None => Ok(()),
    }
}

pub(crate) fn put_row(
    writer: &mut Writer,
    names: &[Text],
    columns: &[u32],
    row: &Row,
) -> Result<(), AllocError>
    ensures tokens { OnOk result (writer.new.tokens ≡ writer.old.tokens ++ row_object names.now columns.now row.now) }
    ensures before { writer.new.before ≡ writer.old.before }
{
    writer.begin_object()?;
    for n in columns {
        put_column(writer, names, *n, row)?;
    }
    writer.end_object()
}

#[tactic(auto, unfolding(crate::specs::Results::names_array))]
fn put_names(writer: &mut Writer, query: &Query) -> Result<(), AllocError>
    ensures tokens { OnOk result (writer.new.tokens ≡ writer.old.tokens ++ names_array query.now) }
    ensures before { writer.new.before ≡ writer.old.before }
{
    writer.begin_array()?;
    let selected = query.selected();
    for n in selected {
        writer.string(name_at(query.names(), *n))?;
    }
    writer.end_array()
}

/// The member `head`: the selected names.
#[tactic(auto, unfolding(crate::specs::Pieces::head_tokens))]
fn put_head(writer: &mut Writer, query: &Query) -> Result<(), AllocError>
    ensures tokens { OnOk result (writer.new.tokens ≡ writer.old.tokens ++ head_tokens query.now) }
    ensures before { writer.new.before ≡ writer.old.before }
{
    writer.key("head")?;
    writer.begin_object()?;
    writer.key("vars")?;
    put_names(writer, query)?;
    writer.end_object()
}

/// A member whose value is an object, up to its first member.
fn open_object(writer: &mut Writer, name: &str) -> Result<(), AllocError>
    ensures tokens { OnOk result (writer.new.tokens ≡ writer.old.tokens ++ (key name.now ∷ begin_object ∷ [])) }
    ensures before { writer.new.before ≡ writer.old.before }
{
    writer.key(name)?;
    writer.begin_object()
}

/// A member whose value is an array, up to its first item.
fn open_array(writer: &mut Writer, name: &str) -> Result<(), AllocError>
    ensures tokens { OnOk result (writer.new.tokens ≡ writer.old.tokens ++ (key name.now ∷ begin_array ∷ [])) }
    ensures before { writer.new.before ≡ writer.old.before }
{
    writer.key(name)?;
    writer.begin_array()
}

/// What opens the array of the rows.
#[tactic(auto, unfolding(crate::specs::Pieces::opening))]
fn put_opening(writer: &mut Writer) -> Result<(), AllocError>
    ensures tokens { OnOk result (writer.new.tokens ≡ writer.old.tokens ++ opening) }
    ensures before { writer.new.before ≡ writer.old.before }
{
    open_object(writer, "results")?;
    open_array(writer, "bindings")
}

/// What stands in front of the rows.
pub(crate) fn put_front(writer: &mut Writer, query: &Query) -> Result<(), AllocError>
    ensures tokens { OnOk result (writer.new.tokens ≡ writer.old.tokens ++ front_tokens query.now) }
    ensures before { writer.new.before ≡ writer.old.before }
{
    writer.begin_object()?;
    put_head(writer, query)?;
    put_opening(writer)
}
