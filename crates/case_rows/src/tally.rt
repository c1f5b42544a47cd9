// How many rows were answered, and how.
ghost use Rattle.std.specs.Prelude.{◌≡◌, length, filter, is_some, IfOk};
ghost use Rattle.std.specs.String.{string_bytes};
ghost use Rattle.case_rows.specs.Rows.{count_line};

use std::alloc::{AllocError, Global};

/// How many rows were answered, and how many of them otherwise than they want.
#[derive(Clone, Copy)]
pub struct Tally {
    pub cases: usize,
    pub wrong: usize,
}

/// What is told of rows: of each what is wrong with it, if anything is.
pub fn counted(told: &[Option<String>]) -> Tally
    ensures cases { result.cases ≡ length told.now }
    ensures wrong { result.wrong ≡ length (filter is_some told.now) }
{
    Tally {
        cases: told.len(),
        wrong: told.iter().filter(|what| what.is_some()).count(),
    }
}

/// The line that tells of a file how many rows it has and how many of them are wrong.
pub fn line_of(alloc: Global, file: &str, tally: &Tally) -> Result<String, AllocError>
    ensures { IfOk result (λ line. string_bytes line ≡ count_line file.now tally.now.cases tally.now.wrong) }
{
    Ok(format!(in alloc; "{file}: {} cases, {} wrong", tally.cases, tally.wrong)?)
}
