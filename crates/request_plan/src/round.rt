// What is asked for at once.
ghost use Rattle.std.specs.Prelude.{ℕ, ◌≡◌, ◌==◌, ◌<◌, ◌^◌, ◌-◌, [], ◌∷◌, length, min, not, IfOk, OnOk, true};
ghost use Rattle.std.specs.Bool.{OnFalse};
ghost use Rattle.std.specs.List.{list_any};
ghost use Rattle.std.specs.Option.{option_map};
ghost use Rattle.std.specs.Rc.{rc_value};
ghost use Rattle.rdf_terms.specs.Fragments.{put};
ghost use Rattle.rdf_terms.specs.Order.{triple_order};
ghost use Rattle.rdf_terms.specs.Same.{triple_eq};
ghost use Rattle.request_plan.specs.Blocks.{is_askable, form_cut, forms_cut};
ghost use Rattle.request_plan.specs.Rounds.{AreFirst, IsFirstRound, ShareForms, round_of_one, taken_of};

use rdf_terms::{Slots, Triple};
use std::alloc::Global;
use std::collections::BTreeSet;
use std::marker::Model;
use std::rc::Rc;
use template_fill::{Form, WebAddress};
use tpf_base::OutOfMemory;

/// The forms of the servers that are asked, one or more, in the order of the servers. Contracts see
/// them as their list.
pub struct FormList {
    first: Form,
    others: Vec<Form>,
}

// Written out, so that who drops one calls this, and does not take it apart at each exit.
impl Drop for FormList {
    fn drop(self) {
        let FormList {
            first: _first,
            others: _others,
        } = self;
    }
}

impl Model for FormList {
    ghost use Rattle.std.specs.Prelude.{List, ◌∷◌};
    ghost use Rattle.template_fill.specs.declared.form.Form.{Form};

    ghost Value = { List Form };

    ghost view = { λ l. l.first ∷ l.others.items };
}

/// The addresses of the first pages of a selection, one under each form.
fn first_addresses(
    alloc: Global,
    forms: &[Form],
    slots: &Slots,
    rows: &[Slots],
) -> Result<Vec<WebAddress>, OutOfMemory>
    requires { is_askable (record { slots = slots.now; rows = rows.now }) ≡ true }
    ensures first { IfOk result (λ v.
        AreFirst forms.now (record { slots = slots.now; rows = rows.now }) v.items) }
    ensures shared { IfOk result (λ v. ShareForms forms.now v.items) }
{
    let mut addresses = Vec::new(alloc);
    for form in forms {
        addresses.push(form.selection_address(alloc, slots, rows)?)?;
    }
    Ok(addresses)
}

impl FormList {
    /// The form of one server. It takes no memory.
    pub fn one(alloc: Global, form: Form) -> FormList
        ensures { result ≡ form ∷ [] }
    {
        FormList {
            first: form,
            others: Vec::new(alloc),
        }
    }

    /// These forms. Condition: there is one.
    pub fn from_vec(forms: Vec<Form>) -> FormList
        requires { 0 < length forms.items }
        ensures { result ≡ forms.items }
    {
        let mut forms = forms;
        let first = forms.remove(0);
        FormList {
            first,
            others: forms,
        }
    }

    /// How many there are. The count stands still at 2^64 - 1. It takes no memory.
    pub fn len(&self) -> usize
        ensures { result ≡ min (length self.now) (2 ^ 64 - 1) }
    {
        self.others.len().saturating_add(1)
    }

    /// Whether there is one alone. It takes no memory.
    pub fn is_one(&self) -> bool
        ensures { result ≡ (length self.now == 1) }
    {
        self.others.is_empty()
    }

    /// The form of the first server. It takes no memory.
    pub(crate) fn first(&self) -> &Form
        ensures { (n : ℕ) → forms_cut self.now n ≡ form_cut result.now n }
    {
        &self.first
    }

    /// The round in which the first pages of a selection are asked for.
    pub(crate) fn first_round(
        &self,
        alloc: Global,
        slots: &Slots,
        rows: &[Slots],
    ) -> Result<Round, OutOfMemory>
        requires { is_askable (record { slots = slots.now; rows = rows.now }) ≡ true }
        ensures first { IfOk result (λ round.
            IsFirstRound self.now (record { slots = slots.now; rows = rows.now }) round) }
        ensures shared { IfOk result (λ round. ShareForms self.now round.addresses) }
    {
        let first = self.first.selection_address(alloc, slots, rows)?;
        let others = first_addresses(alloc, self.others.as_slice(), slots, rows)?;
        Ok(Round {
            first,
            others,
            taken: None,
        })
    }
}

/// Triples, each once. Contracts see them as their list in the order of triples.
pub struct TripleSet {
    triples: BTreeSet<Triple>,
}

// Written out, so that who drops one calls this, and does not take it apart at each exit.
impl Drop for TripleSet {
    fn drop(self) {
        let TripleSet { triples: _triples } = self;
    }
}

impl Model for TripleSet {
    ghost use Rattle.std.specs.Prelude.{List};
    ghost use Rattle.rdf_terms.specs.declared.term.Triple.{Triple};

    ghost Value = { List Triple };

    ghost view = { λ s. s.triples.keys };
}

impl TripleSet {
    /// No triple. It takes no memory.
    pub fn new(alloc: Global) -> TripleSet
        ensures { result ≡ [] }
    {
        TripleSet {
            triples: BTreeSet::new(alloc),
        }
    }

    /// Puts in a triple, unless it is among them, and says whether it is new.
    pub fn insert(&mut self, triple: Triple) -> Result<bool, OutOfMemory>
        ensures is_new { IfOk result (λ is_new.
            is_new ≡ not (list_any (λ other. triple_eq other triple) self.old)) }
        ensures put { OnOk result (self.new ≡ put triple_order triple self.old) }
        ensures held { IfOk result (λ is_new. OnFalse is_new (self.new ≡ self.old)) }
    {
        Ok(self.triples.insert(triple)?)
    }

    /// The triples, in their order.
    pub fn as_set(&self) -> &BTreeSet<Triple>
        ensures { result.now.keys ≡ self.now }
    {
        &self.triples
    }
}

/// What is asked for at once: the page of one number of a fragment, from each server that has it.
/// There is one address or more.
///
/// Where there are several servers, the triples of the pages before stand beside the addresses,
/// since a triple of one server may come again from another: they are shared by the copies of a
/// round.
pub struct Round {
    first: WebAddress,
    others: Vec<WebAddress>,
    taken: Option<Rc<TripleSet>>,
}

// Written out, so that who drops one calls this, and does not take it apart at each exit.
impl Drop for Round {
    fn drop(self) {
        let Round {
            first: _first,
            others: _others,
            taken: _taken,
        } = self;
    }
}

impl Model for Round {
    ghost use Rattle.std.specs.Prelude.{◌∷◌};
    ghost use Rattle.std.specs.Option.{option_map};
    ghost use Rattle.std.specs.Rc.{rc_value};
    ghost use Rattle.request_plan.specs.Rounds.{RoundData, taken_of};

    ghost Value = { RoundData };

    ghost view = { λ r. record {
      addresses = r.first ∷ r.others.items;
      taken = taken_of (option_map rc_value r.taken);
    } };
}

/// Addresses, copied.
fn copy_others(alloc: Global, others: &[WebAddress]) -> Result<Vec<WebAddress>, OutOfMemory>
    ensures { IfOk result (λ v. v.items ≡ others.now) }
{
    let mut copy = Vec::with_capacity(alloc, others.len())?;
    for other in others {
        copy.push(other.copy(alloc)?)?;
    }
    Ok(copy)
}

/// The address of the first server and those of the others, copied.
fn copy_addresses(
    alloc: Global,
    first: &WebAddress,
    others: &[WebAddress],
) -> Result<(WebAddress, Vec<WebAddress>), OutOfMemory>
    ensures first { IfOk result (λ a. a.0 ≡ first.now) }
    ensures others { IfOk result (λ a. a.1.items ≡ others.now) }
{
    let first = first.copy(alloc)?;
    Ok((first, copy_others(alloc, others)?))
}

/// The triples that came before, which both rounds share then.
fn share_taken(taken: &Option<Rc<TripleSet>>) -> Result<Option<Rc<TripleSet>>, OutOfMemory>
    ensures { IfOk result (λ t. option_map rc_value t ≡ option_map rc_value taken.now) }
{
    match taken {
        Some(taken) => Ok(Some(taken.clone()?)),
        None => Ok(None),
    }
}

impl Round {
    /// What one server alone is asked for. It takes no memory.
    pub fn one(alloc: Global, address: WebAddress) -> Round
        ensures { result ≡ round_of_one address }
    {
        Round {
            first: address,
            others: Vec::new(alloc),
            taken: None,
        }
    }

    /// What several servers are asked for, and the triples that came before.
    pub fn several(first: WebAddress, others: Vec<WebAddress>, taken: Rc<TripleSet>) -> Round
        ensures { result ≡ record { addresses = first ∷ others.items; taken = taken.value } }
    {
        Round {
            first,
            others,
            taken: Some(taken),
        }
    }

    /// The address of the first server that is asked, those of the others, and the triples that
    /// came before.
    pub fn into_parts(self) -> (WebAddress, Vec<WebAddress>, Option<Rc<TripleSet>>)
        ensures addresses { self.addresses ≡ result.0 ∷ result.1.items }
        ensures taken { self.taken ≡ taken_of (option_map rc_value result.2) }
    {
        let Round {
            first,
            others,
            taken,
        } = self;
        (first, others, taken)
    }

    /// The same addresses; the triples that came before are shared. The only error is out of memory.
    pub fn copy(&self, alloc: Global) -> Result<Round, OutOfMemory>
        ensures { IfOk result (λ round. round ≡ self.now) }
    {
        let (first, others) = copy_addresses(alloc, &self.first, self.others.as_slice())?;
        let taken = share_taken(&self.taken)?;
        Ok(Round {
            first,
            others,
            taken,
        })
    }
}

/// A round to ask for, and the ticket under which its page is to be answered, a number that is
/// given once.
#[derive(Drop)]
pub struct RoundAsk {
    pub ticket: u64,
    pub round: Round,
}
