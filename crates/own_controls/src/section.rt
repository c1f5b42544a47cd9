// The parts of a page's metadata, compared.
ghost use Rattle.std.specs.Prelude.{ℕ, ◌≡◌, ◌++◌, List, codes, true, IfSome};
ghost use Rattle.rdf_terms.specs.Canon.{canon, canonical_form};
ghost use Rattle.tpf_base.specs.Decimals.{decimal_text};
ghost use Rattle.template_fill.specs.Metadata.{topic_quads, form_quads, count_quads, link_quads, version_quads};
ghost use Rattle.own_controls.specs.Lines.{graph_end};
ghost use Rattle.own_controls.specs.Metadata.{graph_of, mappings};

use crate::lines::{behind_lines, fixed, with_one, with_two};

/// What stands behind the lines that tell what the page is about.
pub(crate) fn behind_topic<'a>(
    bytes: &'a [u8],
    page: &str,
    ending: &[u8],
    first: &str,
    base: &str,
) -> Option<&'a [u8]>
    requires { ending.now ≡ graph_end page.now }
    ensures { IfSome result (λ rest. bytes.now
        ≡ canon (topic_quads (graph_of page.now) page.now first.now base.now) ++ rest.now) }
{
    let about = "#metadata> <http://xmlns.com/foaf/0.1/primaryTopic> <";
    let part = "#dataset> <http://rdfs.org/ns/void#subset> <";
    let form = "#dataset> <http://www.w3.org/ns/hydra/core#search> _:form";
    let lines = [
        with_two("<", page, about, page, ">"),
        with_two("<", base, part, first, ">"),
        with_one("<", base, form),
    ];
    behind_lines(bytes, ending, &lines)
}

/// What stands behind the lines of the form's template.
pub(crate) fn behind_form<'a>(bytes: &'a [u8], ending: &[u8], template: &str) -> Option<&'a [u8]>
    requires { canonical_form template.now ≡ template.now }
    ensures { (page : List ℕ) → ending.now ≡ graph_end page
        → IfSome result (λ rest. bytes.now ≡ canon (form_quads (graph_of page) template.now) ++ rest.now) }
{
    let opening = "_:form <http://www.w3.org/ns/hydra/core#template> \"";
    let explicit =
        "_:form <http://www.w3.org/ns/hydra/core#variableRepresentation> <http://www.w3.org/ns/hydra/core#ExplicitRepresentation>";
    let lines = [with_one(opening, template, "\""), fixed(explicit)];
    behind_lines(bytes, ending, &lines)
}

/// What stands behind the lines of the form's mappings.
pub(crate) fn behind_mappings<'a>(bytes: &'a [u8], ending: &[u8]) -> Option<&'a [u8]>
    ensures { (page : List ℕ) → ending.now ≡ graph_end page
        → IfSome result (λ rest. bytes.now ≡ canon (mappings (graph_of page)) ++ rest.now) }
{
    let lines = [
        fixed("_:form <http://www.w3.org/ns/hydra/core#mapping> _:s"),
        fixed("_:s <http://www.w3.org/ns/hydra/core#variable> \"subject\""),
        fixed(
            "_:s <http://www.w3.org/ns/hydra/core#property> <http://www.w3.org/1999/02/22-rdf-syntax-ns#subject>",
        ),
        fixed("_:form <http://www.w3.org/ns/hydra/core#mapping> _:p"),
        fixed("_:p <http://www.w3.org/ns/hydra/core#variable> \"predicate\""),
        fixed(
            "_:p <http://www.w3.org/ns/hydra/core#property> <http://www.w3.org/1999/02/22-rdf-syntax-ns#predicate>",
        ),
        fixed("_:form <http://www.w3.org/ns/hydra/core#mapping> _:o"),
        fixed("_:o <http://www.w3.org/ns/hydra/core#variable> \"object\""),
        fixed(
            "_:o <http://www.w3.org/ns/hydra/core#property> <http://www.w3.org/1999/02/22-rdf-syntax-ns#object>",
        ),
    ];
    behind_lines(bytes, ending, &lines)
}

/// What stands behind the lines that tell how many triples the fragment has, and its page 1.
pub(crate) fn behind_counts<'a>(
    bytes: &'a [u8],
    page: &str,
    ending: &[u8],
    first: &str,
    digits: &str,
) -> Option<&'a [u8]>
    requires { ending.now ≡ graph_end page.now }
    ensures { (n : ℕ) → digits.now ≡ decimal_text n → IfSome result (λ rest. bytes.now
        ≡ canon (count_quads (graph_of page.now) page.now first.now n) ++ rest.now) }
{
    let total = "> <http://www.w3.org/ns/hydra/core#totalItems> \"";
    let triples = "> <http://rdfs.org/ns/void#triples> \"";
    let integer = "\"^^<http://www.w3.org/2001/XMLSchema#integer>";
    let lines = [
        with_two(
            "<",
            first,
            "> <http://rdfs.org/ns/void#subset> <",
            page,
            ">",
        ),
        with_two("<", page, total, digits, integer),
        with_two("<", page, triples, digits, integer),
        with_two(
            "<",
            page,
            "> <http://www.w3.org/ns/hydra/core#first> <",
            first,
            ">",
        ),
    ];
    behind_lines(bytes, ending, &lines)
}

/// What stands behind the line that links the page to another one.
pub(crate) fn behind_link<'a>(
    bytes: &'a [u8],
    page: &str,
    ending: &[u8],
    middle: &str,
    target: &str,
) -> Option<&'a [u8]>
    requires { ending.now ≡ graph_end page.now }
    ensures { (name : List ℕ) → middle.now ≡ codes "> <http://www.w3.org/ns/hydra/core#" ++ (name ++ codes "> <")
        → IfSome result (λ rest. bytes.now
        ≡ canon (link_quads true (graph_of page.now) page.now name target.now) ++ rest.now) }
{
    let lines = [with_two("<", page, middle, target, ">")];
    behind_lines(bytes, ending, &lines)
}

/// What stands behind the line of the version.
pub(crate) fn behind_version<'a>(
    bytes: &'a [u8],
    ending: &[u8],
    base: &str,
    digits: &str,
) -> Option<&'a [u8]>
    ensures { (page : List ℕ) (n : ℕ) → ending.now ≡ graph_end page → digits.now ≡ decimal_text n
        → IfSome result (λ rest. bytes.now ≡ canon (version_quads (graph_of page) base.now n) ++ rest.now) }
{
    let version = "#dataset> <http://www.w3.org/2002/07/owl#versionInfo> \"";
    let lines = [with_two("<", base, version, digits, "\"")];
    behind_lines(bytes, ending, &lines)
}
