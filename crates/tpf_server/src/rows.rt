// The rows of a request, by which a fragment is restricted.
ghost use Rattle.std.specs.Prelude.{◌≡◌, ◌++◌, ◌∷◌, [], length, IfOk, OnOk};
ghost use Rattle.std.specs.List.{AllByRecursion};
ghost use Rattle.template_fill.specs.Forms.{HasNoBlank};
ghost use Rattle.tpf_server.specs.Parameters.{row_noted};

use rdf_terms::{MOST_ROWS, Slots};
use std::alloc::Global;
use std::marker::Model;
use std::mem;
use template_fill::read_row;
use tpf_base::OutOfMemory;

/// Rows in the order of the request; none of their places is a blank node. Contracts see them as the list.
#[derive(Drop)]
pub struct Rows {
    rows: Vec<Slots>,
}

impl Model for Rows {
    ghost use Rattle.std.specs.Prelude.{List};
    ghost use Rattle.std.specs.List.{AllByRecursion};
    ghost use Rattle.rdf_terms.specs.declared.slots.Slots.{Slots};
    ghost use Rattle.template_fill.specs.Forms.{HasNoBlank};

    ghost Value = { List Slots };

    ghost view = { λ r. r.rows.items };

    ghost invariant = { λ r. AllByRecursion HasNoBlank r.rows.items };
}

impl Rows {
    /// No rows. It takes no memory.
    pub fn new(alloc: Global) -> Rows
        ensures { result ≡ [] }
    {
        Rows {
            rows: Vec::new(alloc),
        }
    }

    fn len(&self) -> usize
        ensures { result ≡ length self.now }
    {
        self.rows.len()
    }

    pub fn as_slice(&self) -> &[Slots]
        ensures rows { result.now ≡ self.now }
        ensures slots { AllByRecursion HasNoBlank result.now }
    {
        self.rows.as_slice()
    }

    /// The rows with one more.
    #[tactic(auto, using(list_laws::proofs::Each::all_more))]
    fn with(mut self, row: Slots) -> Result<Rows, OutOfMemory>
        requires { HasNoBlank row }
        ensures { IfOk result (λ rows. rows ≡ self ++ row ∷ []) }
    {
        self.rows.push(row)?;
        Ok(self)
    }
}

/// The rows that were given, or that they are too many or one of the values is no row.
#[derive(Drop)]
pub enum RowValues {
    Read(Rows),
    Refused,
}

/// The rows with one more, where its value is a row and they are not too many.
#[tactic(auto, using(crate::proofs::RowLaws::row_fits))]
fn one_more(alloc: Global, rows: Rows, value: &str) -> Result<RowValues, OutOfMemory>
    ensures { IfOk result (λ more. more ≡ row_noted (RowValues.Read rows) value.now) }
{
    if rows.len() >= MOST_ROWS {
        return Ok(RowValues::Refused);
    }
    match read_row(alloc, value)? {
        Some(row) => Ok(RowValues::Read(rows.with(row)?)),
        None => Ok(RowValues::Refused),
    }
}

impl RowValues {
    /// Notes one more value. Once they are refused, no further value is read.
    pub fn note(&mut self, alloc: Global, value: &str) -> Result<(), OutOfMemory>
        ensures { OnOk result (self.new ≡ row_noted self.old value.now) }
    {
        if let RowValues::Read(rows) = mem::replace(self, RowValues::Refused) {
            *self = one_more(alloc, rows, value)?;
        }
        Ok(())
    }
}
