// The page of a round.
ghost use Rattle.std.specs.Prelude.{◌≡◌};
ghost use Rattle.request_plan.specs.JointPages.{joint_page};

use crate::Round;
use fragment_page::{Page, TripleList};
use std::alloc::Global;

/// The page of a round: the triples that are new, each once; how many triples the fragments are
/// said to have together; and the next round, if there is a further page. Of one server it is the
/// server's page.
#[derive(Drop)]
pub struct JointPage {
    pub triples: TripleList,
    pub count: u128,
    pub next: Option<Round>,
}

impl JointPage {
    /// The page of one server. It takes no memory.
    pub fn one(alloc: Global, page: Page) -> JointPage
        ensures { result ≡ joint_page page }
    {
        let Page {
            triples,
            count,
            next,
            ..
        } = page;
        let next = match next {
            Some(address) => Some(Round::one(alloc, address)),
            None => None,
        };
        JointPage {
            triples,
            count: count as u128,
            next,
        }
    }
}
