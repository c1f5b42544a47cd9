// The page of a round of one server alone: it is the server's page, and no set is made of its triples.
ghost use Rattle.std.specs.Prelude.{◌≡◌, List, [], true};
ghost use Rattle.rdf_terms.specs.declared.term.Triple.{Triple};
ghost use Rattle.joint_pages.specs.Parts.{pages_in};
ghost use Rattle.joint_pages.specs.Joined.{joined, joined_as};

use crate::part::Part;
use fragment_page::TripleList;
use request_plan::JointPage;
use std::alloc::Global;

/// The joint page of no page. It takes no memory.
fn no_page(alloc: Global) -> JointPage
    ensures { (taken : List Triple) → result ≡ joined taken [] }
{
    JointPage {
        triples: TripleList::from_vec(Vec::new(alloc)),
        count: 0,
        next: None,
    }
}

/// The page of the one part, as it is. It takes no memory.
pub(crate) fn only_page(alloc: Global, parts: Vec<Part>) -> JointPage
    ensures { (taken : List Triple) → result ≡ joined_as true taken (pages_in parts.items) }
{
    for part in parts {
        if let Some(page) = part.into_page() {
            return JointPage::one(alloc, page);
        }
    }
    no_page(alloc)
}
