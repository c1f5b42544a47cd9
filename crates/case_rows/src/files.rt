// Files of rows.
ghost use Rattle.std.specs.Prelude.{◌≡◌, length, IfOk};

use crate::names::Names;
use crate::rows::{Row, rows_of};
use crate::tally::{counted, line_of};
use crate::told::told_of;
use crate::{Case, CaseFault};
use std::alloc::{AllocError, Global};
use std::rt::Files;
use std::{fs, io};

/// What answers rows.
pub trait Answers {
    /// The answer to a row that calls this, as a text.
    fn answer(&self, alloc: Global, call: &str, case: &mut Case<'_>) -> Result<String, CaseFault>;
}

/// What is told of the rows, one for each: what is wrong with it, if anything is.
fn told_of_rows<A: Answers>(
    alloc: Global,
    answers: &A,
    names: &Names,
    rows: &[Row],
) -> Result<Vec<Option<String>>, AllocError>
    ensures { IfOk result (λ told. length told.items ≡ length rows.now) }
{
    let mut told = Vec::new(alloc);
    for row in rows {
        told.push(told_of(alloc, answers, names, row.text.as_str())?)?;
    }
    Ok(told)
}

/// The rows of a text.
fn rows_in(alloc: Global, text: &str) -> Result<Vec<Row>, AllocError> {
    let lines: Vec<&str> = text.lines().collect(alloc)?;
    rows_of(alloc, lines.as_slice())
}

/// Prints what is told of a row, if anything is, with its line.
fn print_row<R: Print>(rt: &R, file: &str, row: &Row, told: &Option<String>) -> io::Result<()> {
    match told {
        Some(what) => println!(rt; "{file}:{}: {what}", row.line),
        None => Ok(()),
    }
}

/// Prints what is told of rows, each with its line.
fn print_told<R: Print>(
    rt: &R,
    file: &str,
    rows: &[Row],
    told: &[Option<String>],
) -> io::Result<()> {
    for (row, told) in rows.iter().zip(told) {
        print_row(rt, file, row, told)?;
    }
    Ok(())
}

/// Prints how many rows of a file were answered and how many of them are wrong, and says how many are.
fn print_tally<R: Print + AllocGlobal>(
    rt: &R,
    file: &str,
    told: &[Option<String>],
) -> io::Result<usize> {
    let tally = counted(told);
    let line = line_of(rt.alloc(), file, &tally)?;
    println!(rt; "{line}")?;
    Ok(tally.wrong)
}

/// The rows of a file.
fn rows_of_file<R: Files + AllocGlobal>(rt: &R, file: &str) -> io::Result<Vec<Row>> {
    let text = fs::read_to_string(rt, file)?;
    Ok(rows_in(rt.alloc(), text.as_str())?)
}

/// Answers the rows of a file, and prints those that differ and how many there were.
fn run_file<R: Files + Print + AllocGlobal, A: Answers>(
    rt: &R,
    answers: &A,
    names: &Names,
    file: &str,
) -> io::Result<usize> {
    let rows = rows_of_file(rt, file)?;
    let told = told_of_rows(rt.alloc(), answers, names, rows.as_slice())?;
    print_told(rt, file, rows.as_slice(), told.as_slice())?;
    print_tally(rt, file, told.as_slice())
}

/// Answers the rows of the files over these texts with names, and says whether none was wrong.
fn run_each<R: Files + Print + AllocGlobal, A: Answers>(
    rt: &R,
    answers: &A,
    names: &Names,
    files: &[&str],
) -> io::Result<bool> {
    let mut all_right = true;
    for file in files {
        all_right = run_file(rt, answers, names, file)? == 0 && all_right;
    }
    Ok(all_right)
}

/// Answers the rows of the files, and says whether none was wrong.
fn run_files<R: Files + Print + AllocGlobal, A: Answers>(
    rt: &R,
    answers: &A,
    names: &str,
    files: &[&str],
) -> io::Result<bool> {
    let text = fs::read_to_string(rt, names)?;
    match Names::read(rt.alloc(), text.as_str()) {
        Ok(names) => run_each(rt, answers, &names, files),
        Err(_) => Err(io::Error::other("the names are no JSON object of texts")),
    }
}

/// Answers the rows of the files, where `names` has the texts with names. Prints each row that differs, with its
/// file and line, and for each file how many rows it has and how many of them are wrong. Says whether all files were
/// read and no row is wrong.
pub fn run<R: Files + Print + AllocGlobal, A: Answers>(
    rt: &R,
    answers: &A,
    names: &str,
    files: &[&str],
) -> bool {
    match run_files(rt, answers, names, files) {
        Ok(all_right) => all_right,
        Err(error) => {
            let _ = println!(rt; "{error}");
            false
        }
    }
}
