// Evaluations of a query.
ghost use Rattle.std.specs.Prelude.{ℕ, ◌≡◌, ◌<◌, ◌≤◌, ◌^◌, ◌-◌, ◌*◌, ⊤, true, List, [], length, Option, Ok, None, IfOk, OnOk, MatchOption};
ghost use Rattle.std.specs.List.{All};
ghost use Rattle.tpf_base.specs.Addresses.{Address};
ghost use Rattle.fragment_page.specs.declared.page.Page.{Page};
ghost use Rattle.template_fill.specs.declared.form.Form.{Form};
ghost use Rattle.bgp_core.specs.Queries.{QueryData};
ghost use Rattle.bgp_core.specs.Solutions.{Places};
ghost use Rattle.request_plan.specs.Rounds.{FormsAtHome};
ghost use Rattle.request_plan.specs.Beginnings.{BeginsWith, sizes_of, terms_of};
ghost use Rattle.request_plan.specs.Evaluations.{Account, nothing, GivesOwed, IsTrueOut, OwesAfterAsk, OwesAfterAnswer, Standing, TakesOne, StandsAfterAsk, StandsAfterAnswer, EndsInQuiet, Terms, AsksAtHome, NextAtHome, Sizes};

use crate::{BlockSize, FormList};
use bgp_core::{Query, Row};
use fragment_page::Page;
use std::alloc::Global;
use template_fill::WebAddress;
use tpf_base::OutOfMemory;

/// A page to ask for by its address, and the ticket under which it is to be answered, a number that
/// is given once.
#[derive(Drop)]
pub struct Ask {
    pub ticket: u64,
    pub address: WebAddress,
}

/// What became of a page: it was taken, or its ticket is not out, and then the page was dropped.
#[derive(Clone, Copy)]
pub enum Answered {
    Taken,
    Stranger,
}

/// An evaluation of a query over the pages of one or several servers: it hands out the addresses of
/// pages, takes the pages that come, in any order, and gives rows.
///
/// Where all pages are true for one source, the rows given and those still owed are together what
/// was owed at first, and the same holds of the addresses handed out and those that are left.
/// Whatever pages come, tickets are new numbers, every ask has one of the authorities that were
/// agreed, a row has a place for every name, no more tickets are out than were agreed, and with no
/// ticket out and no row waiting the evaluation is done.
pub trait Evaluates {
    /// What the other ends have, such as the data of a server and the addresses of its pages.
    ghost Source: { Type 0 };

    /// A page is what a source has at an address.
    ghost is_true: { Self.Source → Address → Page → Type 0 };

    /// All that the evaluation holds is true for a source.
    ghost suits: { Self.Source → Self → Type 0 };

    /// What is owed and left to ask, for a source that it suits.
    ghost account: { Self.Source → Self → Account };

    /// What it shows.
    ghost standing: { Self → Standing };

    /// It keeps to the authorities and the places.
    ghost keeps_to: { Terms → Self → Type 0 };

    /// It is of a query with so many patterns, and extends no more rows at a time, each counted
    /// once for each server.
    ghost keeps_small: { Sizes → Self → Type 0 };

    /// The forms of the start pages are those of a source, which is asked for as many rows at once.
    ghost fits: { Self.Source → List Form → ℕ → Type 0 };

    /// The rows of a query over a source, in some order.
    ghost rows: { Self.Source → QueryData → List Places };

    /// What the query has to ask for behind the start pages, in some order.
    ghost plan: { Self.Source → QueryData → List Address };

    /// The version that is reported, where the first start page told this one.
    ghost reported: { Option ℕ → Option ℕ };

    /// The evaluation of a query, whose first pages have the addresses of these forms, with at most
    /// `window` rows extended at a time, each over the servers of all forms, in blocks of at most
    /// `block` rows where it asks for several rows at once. It has given no ticket. Conditions: the
    /// window is at least 1, and there is a form. The only error is out of memory.
    fn begin(
        alloc: Global,
        query: &Query,
        forms: FormList,
        window: u32,
        block: BlockSize,
    ) -> Result<Self, OutOfMemory>
        requires window { 1 ≤ window }
        requires some { 0 < length forms }
        ensures suits { (source : Self.Source) → fits source forms block →
            IfOk result (λ e. suits source e) }
        ensures owes { (source : Self.Source) → fits source forms block →
            IfOk result (λ e.
            BeginsWith (rows source query.now) (plan source query.now) (account source e)) }
        ensures keeps { (homes : List Address) → FormsAtHome homes forms →
            IfOk result (λ e. keeps_to (terms_of homes query.now) e) }
        ensures small { IfOk result (λ e.
            keeps_small (sizes_of query.now (window * length forms)) e) }
        ensures stands { IfOk result (λ e. ((standing e).given ≡ 0) × ((standing e).out ≡ [])) };

    /// The version that is reported. It takes no memory.
    fn report_version(first: Option<u64>) -> Option<u64>
        ensures { result ≡ reported first };

    /// The next page to ask for, if there is one now, under a ticket with a new number. Condition:
    /// fewer than 2^64 - 1 tickets were given. The only error is out of memory, and then nothing is
    /// promised of what is left.
    fn next_ask(&mut self, alloc: Global) -> Result<Option<Ask>, OutOfMemory>
        requires { (standing self.old).given < 2 ^ 64 - 1 }
        ensures suits { (source : Self.Source) → suits source self.old →
            OnOk result (suits source self.new) }
        ensures owes { (source : Self.Source) → suits source self.old →
            IfOk result (OwesAfterAsk (account source self.old) (account source self.new)) }
        ensures stands { IfOk result (StandsAfterAsk (standing self.old) (standing self.new)) }
        ensures keeps { (terms : Terms) → keeps_to terms self.old →
            OnOk result (keeps_to terms self.new) }
        ensures small { (sizes : Sizes) → keeps_small sizes self.old →
            OnOk result (keeps_small sizes self.new) }
        ensures at_home { (terms : Terms) → keeps_to terms self.old →
            IfOk result (AsksAtHome terms.homes) }
        ensures quiet { (terms : Terms) → keeps_to terms self.old → (result ≡ Ok None) →
            EndsInQuiet (standing self.old) };

    /// Takes the page that was asked for under a ticket. `Stranger` exactly where the ticket is not
    /// out; then nothing changes. The only error is out of memory, and then nothing is promised of
    /// what is left.
    fn answer(&mut self, alloc: Global, ticket: u64, page: Page) -> Result<Answered, OutOfMemory>
        ensures suits { (source : Self.Source) → suits source self.old →
            IsTrueOut (is_true source) (account source self.old) ticket page →
            OnOk result (suits source self.new) }
        ensures owes { (source : Self.Source) → suits source self.old →
            IsTrueOut (is_true source) (account source self.old) ticket page →
            IfOk result
            (OwesAfterAnswer (account source self.old) (account source self.new) ticket) }
        ensures stands { IfOk result
            (StandsAfterAnswer (standing self.old) (standing self.new) ticket) }
        ensures keeps { (terms : Terms) → keeps_to terms self.old →
            NextAtHome terms.homes page.next → OnOk result (keeps_to terms self.new) }
        ensures small { (sizes : Sizes) → keeps_small sizes self.old →
            OnOk result (keeps_small sizes self.new) };

    /// Takes a row that waits; `None` exactly where none does, and then nothing changes. It takes
    /// no memory.
    fn take_row(&mut self) -> Option<Row>
        ensures none { MatchOption result ((standing self.old).waiting ≡ 0) (λ row.
            TakesOne (standing self.old) (standing self.new)) }
        ensures unchanged { MatchOption result (self.new ≡ self.old) (λ row. ⊤) }
        ensures suits { (source : Self.Source) → suits source self.old → suits source self.new }
        ensures owes { (source : Self.Source) → suits source self.old →
            MatchOption result ⊤ (GivesOwed (account source self.old) (account source self.new)) }
        ensures keeps { (terms : Terms) → keeps_to terms self.old → keeps_to terms self.new }
        ensures small { (sizes : Sizes) → keeps_small sizes self.old → keeps_small sizes self.new }
        ensures width { (terms : Terms) → keeps_to terms self.old →
            MatchOption result ⊤ (λ row. length row ≡ terms.width) };

    /// Whether nothing is left to ask, no ticket is out and no row waits. It takes no memory.
    fn is_done(&self) -> bool
        ensures { result ≡ (standing self.now).done };

    /// Where it is done, nothing is owed.
    ghost done_owes_nothing: { (source : Self.Source) (evaluation : Self) →
        suits source evaluation → (standing evaluation).done ≡ true →
        account source evaluation ≡ nothing };

    /// Where it is done, no ticket is out and no row waits.
    ghost done_is_quiet: { (evaluation : Self) → (standing evaluation).done ≡ true →
        ((standing evaluation).out ≡ []) × ((standing evaluation).waiting ≡ 0) };

    /// Each ticket that is out has a number below that of the next.
    ghost tickets_are_below: { (terms : Terms) (evaluation : Self) → keeps_to terms evaluation →
        All (λ ticket. ticket < (standing evaluation).given) (standing evaluation).out };

    /// For each row that is extended at a time no more tickets are out than there are patterns.
    ghost out_is_small: { (terms : Terms) (sizes : Sizes) (evaluation : Self) →
        keeps_to terms evaluation → keeps_small sizes evaluation →
        length (standing evaluation).out ≤ sizes.patterns * sizes.window };
}
