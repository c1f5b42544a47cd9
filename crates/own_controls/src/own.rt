// The controls of a page of our own.
ghost use Rattle.std.specs.Prelude.{ℕ, ◌≡◌, ◌++◌, ◌≤◌, List, codes, is_some, IfSome, IsTrue};
ghost use Rattle.std.specs.List.{list_all};
ghost use Rattle.std.specs.Char.{is_ascii};
ghost use Rattle.rdf_terms.specs.Canon.{canon};
ghost use Rattle.tpf_base.specs.declared.limits.TheConstants.{HIGHEST_NUMBER};
ghost use Rattle.tpf_base.specs.Addresses.{address_text};
ghost use Rattle.template_fill.specs.Metadata.{topic_quads, form_quads, count_quads, link_quads, version_quads};
ghost use Rattle.own_controls.specs.Lines.{graph_end};
ghost use Rattle.own_controls.specs.Metadata.{graph_of, mappings, link_target};
ghost use Rattle.own_controls.specs.Safe.{IsWeb};
ghost use Rattle.own_controls.specs.Own.{IsOwn};

use crate::digits::number;
use crate::piece::{behind, behind_end, text_behind, text_to};
use crate::section::{
    behind_counts, behind_form, behind_link, behind_mappings, behind_topic, behind_version,
};
use crate::start::{Halves, cut, line_ending};
use rdf_terms::{LONGEST_READ, has_scheme, is_iri};
use template_fill::WebAddress;

/// What stands behind the base in the template.
const PLACES: &str = "{?subject,predicate,object}";

/// What stands in the lines between the texts that are sought.
const TEMPLATE: &str = "_:form <http://www.w3.org/ns/hydra/core#template> \"";

const PART: &str = "#dataset> <http://rdfs.org/ns/void#subset> <";

const TOTAL: &str = "> <http://www.w3.org/ns/hydra/core#totalItems> \"";

const NEXT: &str = "> <http://www.w3.org/ns/hydra/core#next> <";

const PREVIOUS: &str = "> <http://www.w3.org/ns/hydra/core#previous> <";

const VERSION: &str = "#dataset> <http://www.w3.org/2002/07/owl#versionInfo> \"";

/// What the metadata of a page tell that tpf's own server made.
#[derive(Clone, Copy)]
pub struct OwnControls<'a> {
    /// The lines before.
    pub front: &'a [u8],
    /// The number of triples of the fragment.
    pub count: u64,
    /// The template of the form, whose variables are `subject`, `predicate` and `object`.
    pub template: &'a str,
    /// The address of the next page, if there is one.
    pub next: Option<&'a str>,
    /// The version of the data.
    pub version: u64,
}

/// The texts that lines are made of, and that of the template.
#[derive(Clone, Copy)]
struct Texts<'a> {
    first: &'a str,
    base: &'a str,
    template: &'a str,
}

/// The number of triples, and what stands behind the lines that tell it.
#[derive(Clone, Copy)]
struct Counted<'a> {
    count: u64,
    rest: &'a [u8],
}

/// A link to another page, if there is one, and what stands behind it.
#[derive(Clone, Copy)]
struct Link<'a> {
    target: Option<&'a str>,
    rest: &'a [u8],
}

fn is_ascii(bytes: &[u8]) -> bool
    ensures { result ≡ list_all is_ascii bytes.now }
{
    bytes.iter().all(|b| b.is_ascii())
}

/// Whether a text is an IRI of ASCII.
#[tactic(auto, using(crate::proofs::Web::web_of))]
fn is_web(text: &str) -> bool
    ensures { IsTrue result → IsWeb text.now }
{
    is_iri(text) && is_ascii(text.as_bytes())
}

/// Whether a text is an IRI of ASCII, where the page's address is one: then a front of it is one if it has a scheme.
fn is_web_beside(page: &str, text: &str) -> bool
    requires { IsWeb page.now }
    ensures { IsTrue result → IsWeb text.now }
{
    match behind(page.as_bytes(), text) {
        None => is_web(text),
        Some(_) => has_scheme(text.as_bytes()),
    }
}

/// The template, and the base that it begins with.
fn texts_of<'a>(page: &str, first: &'a str, base: &'a str, template: &'a str) -> Option<Texts<'a>>
    requires { IsWeb page.now }
    ensures base { IfSome result (λ t. IsWeb t.base.now) }
    ensures first { IfSome result (λ t. IsWeb t.first.now) }
    ensures template { IfSome result (λ t. t.template.now ≡ t.base.now ++ codes "{?subject,predicate,object}") }
{
    let places = behind(template.as_bytes(), base)?;
    let over = behind(places, PLACES)?;
    if !over.is_empty() {
        return None;
    }
    if !is_web_beside(page, base) || !is_web_beside(page, first) {
        return None;
    }
    Some(Texts {
        first,
        base,
        template,
    })
}

/// What stands behind the opening of the template's line, which is the third of these lines.
fn template_in(lines: &[u8]) -> Option<&[u8]> {
    let second = behind_end(lines)?;
    behind(behind_end(second)?, TEMPLATE)
}

/// The texts that these lines are made of, as far as they have the form that is awaited.
fn texts_in<'a>(lines: &'a [u8], page: &str) -> Option<Texts<'a>>
    requires { IsWeb page.now }
    ensures base { IfSome result (λ t. IsWeb t.base.now) }
    ensures first { IfSome result (λ t. IsWeb t.first.now) }
    ensures template { IfSome result (λ t. t.template.now ≡ t.base.now ++ codes "{?subject,predicate,object}") }
{
    let second = behind_end(lines)?;
    let template = template_in(second)?;
    let base = text_to(template, b'{')?;
    let first = text_behind(second, base, PART, b'>')?;
    texts_of(page, first, base, text_to(template, b'"')?)
}

/// What stands behind the lines that tell of the form.
fn behind_texts<'a>(bytes: &'a [u8], page: &str, ending: &[u8], texts: &Texts) -> Option<&'a [u8]>
    requires ending { ending.now ≡ graph_end page.now }
    requires base { IsWeb texts.now.base.now }
    requires template { texts.now.template.now ≡ texts.now.base.now ++ codes "{?subject,predicate,object}" }
    ensures { IfSome result (λ rest. bytes.now
        ≡ canon (topic_quads (graph_of page.now) page.now texts.now.first.now texts.now.base.now)
        ++ (canon (form_quads (graph_of page.now) texts.now.template.now)
        ++ (canon (mappings (graph_of page.now)) ++ rest.now))) }
{
    let form = behind_topic(bytes, page, ending, texts.first, texts.base)?;
    let mappings = behind_form(form, ending, texts.template)?;
    behind_mappings(mappings, ending)
}

/// The number of triples.
fn count_in<'a>(bytes: &'a [u8], page: &str, ending: &[u8], first: &str) -> Option<Counted<'a>>
    requires { ending.now ≡ graph_end page.now }
    ensures lines { IfSome result (λ c. bytes.now
        ≡ canon (count_quads (graph_of page.now) page.now first.now c.count) ++ c.rest.now) }
    ensures few { IfSome result (λ c. c.count ≤ HIGHEST_NUMBER) }
{
    let total = behind_end(bytes)?;
    let text = text_behind(total, page, TOTAL, b'"')?;
    let count = number(text)?;
    let rest = behind_counts(bytes, page, ending, first, text)?;
    Some(Counted { count, rest })
}

/// The link to another page, if the first line is one.
#[tactic(auto, unfolding(template_fill::specs::Metadata::link_quads))]
fn link_in<'a>(bytes: &'a [u8], page: &str, ending: &[u8], middle: &str) -> Option<Link<'a>>
    requires { ending.now ≡ graph_end page.now }
    ensures line { (name : List ℕ) → middle.now ≡ codes "> <http://www.w3.org/ns/hydra/core#" ++ (name ++ codes "> <")
        → IfSome result (λ link. bytes.now ≡ canon (link_quads (is_some link.target) (graph_of page.now) page.now name
        (link_target page.now link.target)) ++ link.rest.now) }
    ensures target { IfSome result (λ link. IfSome link.target (λ target. IsWeb target.now)) }
{
    match text_behind(bytes, page, middle, b'>') {
        None => Some(Link {
            target: None,
            rest: bytes,
        }),
        Some(target) => {
            if !is_web(target) {
                return None;
            }
            let rest = behind_link(bytes, page, ending, middle, target)?;
            Some(Link {
                target: Some(target),
                rest,
            })
        }
    }
}

/// The version that the last line tells.
fn version_in(bytes: &[u8], ending: &[u8], base: &str) -> Option<u64>
    ensures line { (page : List ℕ) → ending.now ≡ graph_end page
        → IfSome result (λ n. bytes.now ≡ canon (version_quads (graph_of page) base.now n)) }
    ensures early { IfSome result (λ n. n ≤ HIGHEST_NUMBER) }
{
    let text = text_behind(bytes, base, VERSION, b'"')?;
    let version = number(text)?;
    let rest = behind_version(bytes, ending, base, text)?;
    if rest.is_empty() { Some(version) } else { None }
}

/// The controls of a page that tpf's own server made, where the body ends with the lines that such a server writes for the
/// page with this address, of some count, next page and version. It takes no memory.
pub fn own_controls<'a>(body: &'a [u8], address: &WebAddress) -> Option<OwnControls<'a>>
    ensures { IfSome result (IsOwn body.now (address_text address.now)) }
{
    let page = address.text();
    let Halves { front, lines } = cut(body, page)?;
    if lines.len() > LONGEST_READ {
        return None;
    }
    let ending = line_ending(lines, page)?;
    let texts = texts_in(lines, page)?;
    let counts = behind_texts(lines, page, ending, &texts)?;
    let told = count_in(counts, page, ending, texts.first)?;
    let next = link_in(told.rest, page, ending, NEXT)?;
    let previous = link_in(next.rest, page, ending, PREVIOUS)?;
    let version = version_in(previous.rest, ending, texts.base)?;
    Some(OwnControls {
        front,
        count: told.count,
        template: texts.template,
        next: next.target,
        version,
    })
}
