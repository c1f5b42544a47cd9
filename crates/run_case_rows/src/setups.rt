// The words and the files of a run, and what fails in it.
use crate::program::{Runs, ended};
use case_rows::{Case, CaseFault, word_text};
use memory_outside::MemShelf;
use std::alloc::Global;
use tpf_base::{Bytes, Failing, MemSink, Text};

/// The words of a line, which has a `|` between each two.
pub fn words_of(alloc: Global, line: &str) -> Result<Vec<String>, CaseFault> {
    let mut words = Vec::new(alloc);
    for word in line.split('|') {
        words.push(word_text(alloc, word)?)?;
    }
    Ok(words)
}

/// Which calls fail: none, each with a number that is so many times another, the one with this number, or each once
/// so many bytes were taken.
#[derive(Clone, Copy)]
pub enum Failure {
    Never,
    Every(u64),
    At(u64),
    After(u64),
}

impl Failure {
    /// The same as a plan of the base.
    pub fn failing(self, alloc: Global) -> Result<Failing, CaseFault> {
        match self {
            Failure::Never => Ok(Failing::Never),
            Failure::Every(number) => Ok(Failing::Every(number)),
            Failure::At(number) => Ok(Failing::At(Vec::from_slice(alloc, &[number])?)),
            Failure::After(bytes) => Ok(Failing::AfterBytes(bytes)),
        }
    }

    /// A sink that fails so.
    pub fn sink(self, alloc: Global) -> Result<MemSink, CaseFault> {
        Ok(MemSink::new(alloc, self.failing(alloc)?))
    }
}

/// `every 2`, `at 3` or `after 10` (bytes).
fn failure_in(text: &str) -> Result<Failure, CaseFault> {
    let (word, number) = text.split_once(' ').unwrap_or((text, ""));
    let Ok(number) = number.parse::<u64>() else {
        return Err(CaseFault::Row);
    };
    match word {
        "every" => Ok(Failure::Every(number)),
        "at" => Ok(Failure::At(number)),
        "after" => Ok(Failure::After(number)),
        _ => Err(CaseFault::Row),
    }
}

/// What fails: `every 2`, `at 3` or `after 10` (bytes), and nothing where the row lacks the member.
pub fn failure_of(alloc: Global, case: &mut Case<'_>, member: &str) -> Result<Failure, CaseFault> {
    match case.text_if(alloc, member)? {
        Some(text) => failure_in(text.as_str()),
        None => Ok(Failure::Never),
    }
}

/// Which calls of the shelf, the output and the standard error fail.
#[derive(Clone, Copy)]
pub struct Fails {
    pub shelf: Failure,
    pub out: Failure,
    pub err: Failure,
}

/// `shelf_fails`, `out_fails`, `err_fails`: what fails in a run.
fn fails_of(alloc: Global, case: &mut Case<'_>) -> Result<Fails, CaseFault> {
    Ok(Fails {
        shelf: failure_of(alloc, case, "shelf_fails")?,
        out: failure_of(alloc, case, "out_fails")?,
        err: failure_of(alloc, case, "err_fails")?,
    })
}

/// Nothing fails.
fn no_fails() -> Fails {
    Fails {
        shelf: Failure::Never,
        out: Failure::Never,
        err: Failure::Never,
    }
}

/// Appends a file with this name and these bytes.
fn push_file(
    alloc: Global,
    name: &str,
    bytes: &[u8],
    files: &mut Vec<(Text, Bytes)>,
) -> Result<(), CaseFault> {
    let Ok(name) = Text::copy(alloc, name) else {
        return Err(CaseFault::OutOfMemory);
    };
    let Ok(bytes) = Bytes::copy(alloc, bytes) else {
        return Err(CaseFault::OutOfMemory);
    };
    Ok(files.push((name, bytes))?)
}

/// Copies of files.
fn copies_of(alloc: Global, files: &[(Text, Bytes)]) -> Result<Vec<(Text, Bytes)>, CaseFault> {
    let mut copies = Vec::new(alloc);
    for file in files {
        push_file(alloc, file.0.as_str(), file.1.as_slice(), &mut copies)?;
    }
    Ok(copies)
}

/// The words and the files of a run, and what fails in it.
#[derive(Drop)]
pub struct Setup {
    line: String,
    files: Vec<(Text, Bytes)>,
    pub fails: Fails,
}

impl Setup {
    /// A run of the words of a line without a file, in which this fails.
    fn new(alloc: Global, line: String, fails: Fails) -> Result<Box<Setup>, CaseFault> {
        let files = Vec::new(alloc);
        Ok(Box::new(alloc, Setup { line, files, fails })?)
    }

    /// The line of its words.
    pub fn line(&self) -> &str {
        self.line.as_str()
    }

    /// Its files, each by its name, on a shelf that fails so.
    pub fn shelf(&self, alloc: Global, failure: Failure) -> Result<Box<MemShelf>, CaseFault> {
        let files = copies_of(alloc, self.files.as_slice())?;
        let failing = failure.failing(alloc)?;
        Ok(Box::new(alloc, MemShelf::new(alloc, files, failing))?)
    }
}

/// Lays a file that has the bytes of a member, if the row has it.
fn lay(
    alloc: Global,
    case: &mut Case<'_>,
    member: &str,
    name: &str,
    setup: &mut Setup,
) -> Result<(), CaseFault> {
    if !case.has(member) {
        return Ok(());
    }
    let bytes = case.bytes(alloc, member)?;
    push_file(alloc, name, bytes.as_slice(), &mut setup.files)
}

/// Lays a file `d` that has what a run of the words of a line writes.
fn lay_written<P: Runs>(
    program: &P,
    alloc: Global,
    line: String,
    setup: &mut Setup,
) -> Result<(), CaseFault> {
    let maker = Setup::new(alloc, line, no_fails())?;
    let made = ended(program, alloc, &maker)?;
    push_file(alloc, "d", made.out.taken(), &mut setup.files)
}

/// A member, and the name of the file that has its bytes.
static FILES: [(&str, &str); 3] = [("data", "d"), ("query", "q"), ("dash", "-")];

/// `data`, `query`, `dash`, `data_of`: lays the files of a run.
fn lay_all<P: Runs>(
    program: &P,
    alloc: Global,
    case: &mut Case<'_>,
    setup: &mut Setup,
) -> Result<(), CaseFault> {
    for (member, name) in &FILES {
        lay(alloc, case, *member, *name, setup)?;
    }
    match case.text_if(alloc, "data_of")? {
        Some(line) => lay_written(program, alloc, line, setup),
        None => Ok(()),
    }
}

/// `line`, `data`, `query`, `dash`, `data_of`, `shelf_fails`, `out_fails`, `err_fails`: the words, the files `d`, `q` and
/// `-` where the row has them, and what fails. With `data_of` the file `d` has what a run of these words writes.
pub fn setup_of<P: Runs>(
    program: &P,
    alloc: Global,
    case: &mut Case<'_>,
) -> Result<Box<Setup>, CaseFault> {
    let fails = fails_of(alloc, case)?;
    let line = case.text(alloc, "line")?;
    let mut setup = Setup::new(alloc, line, fails)?;
    lay_all(program, alloc, case, &mut setup)?;
    Ok(setup)
}
