// The rows of one order, which only one counting call compares.
ghost use Rattle.std.specs.Prelude.{ℕ, ◌≡◌, ◌+◌, ◌<◌, ◌≤◌, ◌^◌, true, false, List, length, slice_index_or};
ghost use Rattle.std.specs.List.Sorted.{IsStrictlySortedBy};
ghost use Rattle.triple_table.specs.declared.ids.Row.{Row};
ghost use Rattle.triple_table.specs.Rows.{key, row_order, goes_before};

use crate::ids::Row;
use std::cmp::Ordering;
use std::marker::Model;
use std::sync::ledger::Ledger;
use tpf_base::Steps;

/// The rows of one order, which contracts see as a list.
#[derive(Drop)]
pub struct Rows {
    rows: Vec<Row>,
}

impl Model for Rows {
    ghost Value = { List Row };

    ghost view = { λ r. r.rows.items };
}

impl Rows {
    pub(crate) fn from_vec(rows: Vec<Row>) -> Rows
        ensures { result ≡ rows.items }
    {
        Rows { rows }
    }

    pub(crate) fn len(&self) -> usize
        ensures { result ≡ length self.now }
    {
        self.rows.len()
    }

    pub(crate) fn row(&self, i: usize) -> Row
        requires { i < length self.now }
        ensures { (d : Row) → slice_index_or self.now i d ≡ result }
    {
        self.rows[i]
    }

    /// One comparison, which is one step.
    fn compare<L: Ledger>(&self, i: usize, bound: Row, steps: &mut Steps<L>) -> Ordering
        requires { i < length self.now }
        ensures value { (d : Row) → result ≡ row_order (slice_index_or self.now i d) bound }
        ensures cost { steps.new ≡ steps.old + 1 }
    {
        steps.tick();
        self.rows[i].cmp(&bound)
    }

    /// How many rows stand before the bound, those equal to it counted where `with_equal` says so.
    pub(crate) fn place<L: Ledger>(
        &self,
        bound: Row,
        with_equal: bool,
        steps: &mut Steps<L>,
    ) -> usize
        requires { IsStrictlySortedBy row_order self.now }
        ensures within { result ≤ length self.now }
        ensures before { (k : ℕ) (d : Row) → k < result →
            goes_before with_equal (row_order (slice_index_or self.now k d) bound) ≡ true }
        ensures behind { (k : ℕ) (d : Row) → result ≤ k → k < length self.now →
            goes_before with_equal (row_order (slice_index_or self.now k d) bound) ≡ false }
        ensures counted { steps.old ≤ steps.new }
        ensures cost { (digits : ℕ) → length self.now < 2 ^ digits → steps.new ≤ steps.old + digits }
    {
        let mut low = 0;
        let mut high = self.len();
        while low < high {
            let middle = low + (high - low) / 2;
            if goes_before(with_equal, self.compare(middle, bound, steps)) {
                low = middle + 1;
            } else {
                high = middle;
            }
        }
        low
    }
}

/// A row as one number, which is ordered as the row is and compared without a branch.
#[tactic(auto, unfolding(crate::specs::Rows::key))]
pub(crate) fn key(row: Row) -> u128
    ensures { result ≡ key row }
{
    row.first as u128 * 18446744073709551616 + row.second as u128 * 4294967296 + row.third as u128
}

/// Whether an answer puts a row before the bound.
fn goes_before(with_equal: bool, answer: Ordering) -> bool
    ensures { result ≡ goes_before with_equal answer }
{
    match answer {
        Ordering::Less => true,
        Ordering::Equal => with_equal,
        Ordering::Greater => false,
    }
}
