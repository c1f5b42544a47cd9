// A page that was asked for.
ghost use Rattle.std.specs.Prelude.{◌≡◌, true, false, not, is_some};
ghost use Rattle.std.specs.List.{All};
ghost use Rattle.joint_pages.specs.Parts.{Awaits, awaited, came, ticket_while};

use fragment_page::Page;
use std::marker::Model;
use std::snapshot::Snapshot;
use template_fill::WebAddress;

/// The page of one address, which was asked for under a ticket. The address is known to contracts alone: a snapshot takes no
/// memory.
#[derive(Drop)]
pub(crate) struct Part {
    ticket: u64,
    address: Snapshot<WebAddress>,
    page: Option<Page>,
}

impl Model for Part {
    ghost use Rattle.joint_pages.specs.Parts.{PartData};

    ghost Value = { PartData };

    ghost view = { λ p. record { ticket = p.ticket; address = p.address.value; page = p.page } };
}

impl Part {
    /// The page of this address is awaited under a ticket.
    pub(crate) fn awaited(ticket: u64, address: &WebAddress) -> Part
        ensures { result ≡ awaited ticket address.now }
    {
        Part {
            ticket,
            address: Snapshot::of(address),
            page: None,
        }
    }

    /// Whether its page did not come yet.
    pub(crate) fn is_awaited(&self) -> bool
        ensures { result ≡ not (is_some self.now.page) }
    {
        !self.page.is_some()
    }

    /// Whether its page is awaited under the ticket.
    pub(crate) fn awaits(&self, ticket: u64) -> bool
        ensures yes { result ≡ true → Awaits self.now ticket }
        ensures no { result ≡ false → All (λ t. t ≡ ticket → ⊥) (ticket_while self.now.ticket self.now.page) }
    {
        match &self.page {
            Some(_) => false,
            None => self.ticket == ticket,
        }
    }

    /// Its page came.
    pub(crate) fn put(&mut self, page: Page)
        ensures { self.new ≡ came self.old page }
    {
        self.page = Some(page);
    }

    /// Its page, if it came.
    pub(crate) fn into_page(self) -> Option<Page>
        ensures { result ≡ self.page }
    {
        self.page
    }
}
