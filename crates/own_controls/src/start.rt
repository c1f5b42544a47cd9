// Where the metadata of a page begin.
ghost use Rattle.std.specs.Prelude.{◌≡◌, ◌++◌, IfSome};
ghost use Rattle.own_controls.specs.Lines.{EndsLine, graph_end};

use crate::piece::{behind, behind_end, behind_two};

/// A body in two.
#[derive(Clone, Copy)]
pub(crate) struct Halves<'a> {
    pub(crate) front: &'a [u8],
    pub(crate) lines: &'a [u8],
}

/// Whether the graph of this page's metadata is the subject of the first line.
fn begins_metadata(bytes: &[u8], page: &str) -> bool {
    match behind_two(bytes, "<", page) {
        None => false,
        Some(rest) => behind(rest, "#metadata> <http://xmlns.com/foaf/").is_some(),
    }
}

/// The lines before the first one that has the graph of this page's metadata as subject, and those from it on.
pub(crate) fn cut<'a>(body: &'a [u8], page: &str) -> Option<Halves<'a>>
    ensures whole { IfSome result (λ h. body.now ≡ h.front.now ++ h.lines.now) }
    ensures front { IfSome result (λ h. EndsLine h.front.now) }
{
    let mut rest = body;
    while !rest.is_empty() {
        if begins_metadata(rest, page) {
            let (front, lines) = body.split_at(body.len() - rest.len());
            return Some(Halves { front, lines });
        }
        rest = behind_end(rest)?;
    }
    None
}

/// What stands behind the statement of the first line.
fn behind_first<'a>(lines: &'a [u8], page: &str) -> Option<&'a [u8]> {
    let about = "#metadata> <http://xmlns.com/foaf/0.1/primaryTopic> <";
    let section = behind_two(lines, "<", page)?;
    let closing = behind_two(section, about, page)?;
    behind(closing, ">")
}

/// What stands behind the graph of the page's metadata and the end of its line.
fn behind_graph<'a>(bytes: &'a [u8], page: &str) -> Option<&'a [u8]>
    ensures { IfSome result (λ rest. bytes.now ≡ graph_end page.now ++ rest.now) }
{
    let from_section = behind_two(bytes, " <", page)?;
    behind(from_section, "#metadata> .\n")
}

/// What each line of the page's metadata ends with, as the first one has it.
pub(crate) fn line_ending<'a>(lines: &'a [u8], page: &str) -> Option<&'a [u8]>
    ensures { IfSome result (λ ending. ending.now ≡ graph_end page.now) }
{
    let graph = behind_first(lines, page)?;
    let rest = behind_graph(graph, page)?;
    let (ending, _) = graph.split_at(graph.len() - rest.len());
    Some(ending)
}
