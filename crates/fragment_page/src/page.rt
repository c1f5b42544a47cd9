// Pages and why a body is none.
ghost use Rattle.std.specs.Prelude.{◌≡◌};

use rdf_terms::Triple;
use std::marker::Model;
use template_fill::{Form, WebAddress};
use tpf_base::OutOfMemory;

/// The triples of a page, which contracts see as a list.
pub struct TripleList {
    triples: Vec<Triple>,
}

// Written out, so that who drops one calls this, and does not take it apart at each exit.
impl Drop for TripleList {
    fn drop(self) {
        let TripleList { triples: _triples } = self;
    }
}

impl Model for TripleList {
    ghost use Rattle.std.specs.Prelude.{List};
    ghost use Rattle.rdf_terms.specs.declared.term.Triple.{Triple};

    ghost Value = { List Triple };

    ghost view = { λ t. t.triples.items };
}

impl TripleList {
    /// The list of these triples.
    pub fn from_vec(triples: Vec<Triple>) -> TripleList
        ensures { result ≡ triples.items }
    {
        TripleList { triples }
    }

    /// The triples.
    pub fn as_slice(&self) -> &[Triple]
        ensures { result.now ≡ self.now }
    {
        self.triples.as_slice()
    }

    /// Gives back the vector, and takes no memory.
    pub fn into_vec(self) -> Vec<Triple>
        ensures { result.items ≡ self }
    {
        let TripleList { triples } = self;
        triples
    }
}

/// A page of a fragment (Triple Pattern Fragments, "Data", "Metadata" and "Controls"): its triples, each once, in the
/// order of their first lines; the number of triples that the fragment is said to have; the address of the next page, if
/// there is one; the form of the server; and the version of its data, where exactly one is said, in 1 to 19 digits.
#[derive(Drop)]
pub struct Page {
    pub triples: TripleList,
    pub count: u64,
    pub next: Option<WebAddress>,
    pub form: Form,
    pub version: Option<u64>,
}

/// Why a body is no page. The first that applies, in this order, is told.
#[derive(Clone, Copy, Debug)]
pub enum PageFault {
    /// It is no N-Quads text, or a term's canonical text has more than `LONGEST_READ` (4194304) bytes, or a label more
    /// than `LONGEST_LABEL` (1024).
    Text,
    /// No named graph tells what it is about, or they tell several things and none is the page.
    NoTopic,
    /// The controls give no number of triples.
    NoCount,
    /// They give several, or one that is no literal of 1 to 19 digits.
    CountText,
    /// They have no form with a template and a variable for each of the three places.
    NoForm,
    /// The template of the least form is none, or does not name the three variables.
    BadTemplate,
    /// There are two different next pages.
    TwoNext,
    /// The next page or the template is no address of the page's authority.
    ForeignLink,
    /// A triple of the page holds a blank node.
    BlankData,
    /// Memory ran out.
    OutOfMemory,
}

impl From<OutOfMemory> for PageFault {
    ghost use Rattle.std.specs.Prelude.{◌≡◌};
    ghost use Rattle.fragment_page.specs.declared.page.PageFault.TheVariants as faults;

    ghost from_gives = { λ _ e. e ≡ faults.OutOfMemory };

    fn from(_: OutOfMemory) -> Self {
        PageFault::OutOfMemory
    }
}
