// Runs whose output fails at each place, or whose dials fail.
use case_rows::{Case, CaseFault, number_text, word_text};
use run_case_rows::{Failure, Outcome, Runs, Setup, ended, ended_by, seeded, setup_of};
use std::alloc::Global;

/// Whether a run whose output failed ended as one does, and the output has less than the whole text.
fn is_cut(outcome: &Outcome, whole: &[u8]) -> bool {
    let taken = outcome.out.taken();
    taken.len() < whole.len() && whole.starts_with(taken) && outcome.says(9, "sink\n")
}

/// Whether the run over an output that takes so many bytes and then fails ends so, with as many bytes.
fn is_cut_at<P: Runs>(
    program: &P,
    alloc: Global,
    setup: &Setup,
    whole: &[u8],
    most: usize,
) -> Result<bool, CaseFault> {
    let outcome = ended_by(program, alloc, setup, Failure::After(most as u64))?;
    Ok(is_cut(&outcome, whole) && outcome.out.taken().len() == most)
}

/// Over how many outputs the run ends so.
fn cuts<P: Runs>(
    program: &P,
    alloc: Global,
    setup: &Setup,
    whole: &[u8],
) -> Result<u64, CaseFault> {
    for most in 0..whole.len() {
        if !is_cut_at(program, alloc, setup, whole, most)? {
            return Err(CaseFault::Differs);
        }
    }
    Ok(whole.len() as u64)
}

/// `line`, `data`, `query`: over how many outputs, which take so many bytes and then fail, the run ends with status 9
/// and as many bytes of its text.
pub fn each_byte<P: Runs>(
    program: &P,
    alloc: Global,
    case: &mut Case<'_>,
) -> Result<String, CaseFault> {
    let setup = setup_of(program, alloc, case)?;
    let whole = ended(program, alloc, &setup)?;
    number_text(alloc, cuts(program, alloc, &setup, whole.out.taken())?)
}

/// Whether the run whose write with this number fails ends with a front of its text; not, where it has no such write.
fn is_cut_by<P: Runs>(
    program: &P,
    alloc: Global,
    setup: &Setup,
    whole: &[u8],
    number: u64,
) -> Result<bool, CaseFault> {
    let outcome = ended_by(program, alloc, setup, Failure::At(number))?;
    if is_cut(&outcome, whole) {
        return Ok(true);
    }
    if outcome.status == 0 && outcome.out.taken() == whole {
        return Ok(false);
    }
    Err(CaseFault::Differs)
}

/// How many writes a run makes, fewer than a hundred, each of which ends it with a front of its text where it fails.
fn writes<P: Runs>(
    program: &P,
    alloc: Global,
    setup: &Setup,
    whole: &[u8],
) -> Result<u64, CaseFault> {
    for number in 1..100u64 {
        if !is_cut_by(program, alloc, setup, whole, number)? {
            return Ok(number - 1);
        }
    }
    Err(CaseFault::Differs)
}

/// The word for so many writes.
fn writes_word(writes: u64) -> &'static str {
    match writes {
        0 => "none",
        1 => "one",
        _ => "more",
    }
}

/// `line`, `data`, `query`: whether a run makes `one` write or `more`, each of which ends it with status 9 and a front
/// of its text where it fails.
pub fn each_write<P: Runs>(
    program: &P,
    alloc: Global,
    case: &mut Case<'_>,
) -> Result<String, CaseFault> {
    let setup = setup_of(program, alloc, case)?;
    let whole = ended(program, alloc, &setup)?;
    let writes = writes(program, alloc, &setup, whole.out.taken())?;
    word_text(alloc, writes_word(writes))
}

/// Runs that have numbers.
pub trait Numbered {
    /// How the run with this number ends.
    fn outcome<P: Runs>(
        &self,
        program: &P,
        alloc: Global,
        setup: &Setup,
        number: u64,
    ) -> Result<Box<Outcome>, CaseFault>;
}

/// What runs of which some may fail have to end with.
#[derive(Drop)]
struct Endings {
    /// The texts of which a run that failed wrote one.
    fronts: Vec<String>,
    /// The texts of which any other wrote one.
    texts: Vec<String>,
    /// The front and the end of the line that any other said.
    said: Vec<String>,
}

/// `fronts`, `texts`, `said`: what runs have to end with.
fn endings_of(alloc: Global, case: &mut Case<'_>) -> Result<Box<Endings>, CaseFault> {
    let fronts = case.texts(alloc, "fronts")?;
    let texts = case.texts(alloc, "texts")?;
    let said = case.texts(alloc, "said")?;
    let endings = Endings {
        fronts,
        texts,
        said,
    };
    Ok(Box::new(alloc, endings)?)
}

/// Whether these bytes are one of the texts.
fn is_one(bytes: &[u8], texts: &[String]) -> bool {
    for text in texts {
        if text.as_bytes() == bytes {
            return true;
        }
    }
    false
}

/// Whether a line has the front and the end that are said.
fn is_said(line: &[u8], said: &[String]) -> bool {
    match said {
        [front, end] => line.starts_with(front.as_bytes()) && line.ends_with(end.as_bytes()),
        _ => false,
    }
}

impl Endings {
    /// Whether a run ended so: it succeeded, or an exchange failed.
    fn have(&self, outcome: &Outcome) -> bool {
        let taken = outcome.out.taken();
        if outcome.status == 0 {
            return is_one(taken, self.texts.as_slice())
                && is_said(outcome.err.taken(), self.said.as_slice());
        }
        is_one(taken, self.fronts.as_slice()) && outcome.says(5, "exchange: failed\n")
    }
}

/// Whether the run with this number failed.
fn has_failed<N: Numbered, P: Runs>(
    runs: &N,
    program: &P,
    alloc: Global,
    setup: &Setup,
    endings: &Endings,
    number: u64,
) -> Result<bool, CaseFault> {
    let outcome = runs.outcome(program, alloc, setup, number)?;
    if !endings.have(&outcome) {
        return Err(CaseFault::Differs);
    }
    Ok(outcome.status != 0)
}

/// How many of so many runs failed, which have the numbers from the first one on.
fn failed<N: Numbered, P: Runs>(
    runs: &N,
    program: &P,
    alloc: Global,
    setup: &Setup,
    endings: &Endings,
    first: u64,
    count: u64,
) -> Result<u64, CaseFault> {
    let mut failed = 0u64;
    for number in first..first.saturating_add(count) {
        if has_failed(runs, program, alloc, setup, endings, number)? {
            failed = failed.saturating_add(1);
        }
    }
    Ok(failed)
}

/// The word for so many of the runs that failed.
fn failed_word(failed: u64, runs: u64) -> &'static str {
    if failed == 0 {
        "none"
    } else if failed == runs {
        "all"
    } else {
        "some"
    }
}

/// `line`, `data`, `query`, `fronts`, `texts`, `said`: whether `all`, `some` or `none` of so many runs failed, which have
/// the numbers from the first one on. One that failed did so at an exchange, and wrote one of the `fronts`; any other
/// wrote one of the `texts`, and a line with the front and the end of `said`.
pub fn failures<N: Numbered, P: Runs>(
    runs: &N,
    program: &P,
    alloc: Global,
    case: &mut Case<'_>,
    first: u64,
    count: u64,
) -> Result<String, CaseFault> {
    let setup = setup_of(program, alloc, case)?;
    let endings = endings_of(alloc, case)?;
    let failed = failed(runs, program, alloc, &setup, &endings, first, count)?;
    word_text(alloc, failed_word(failed, count))
}

/// The runs with seeds, over a wire that gives no link.
struct Seeded;

impl Numbered for Seeded {
    fn outcome<P: Runs>(
        &self,
        program: &P,
        alloc: Global,
        setup: &Setup,
        number: u64,
    ) -> Result<Box<Outcome>, CaseFault> {
        seeded(program, alloc, setup, number)
    }
}

/// `seeds`, and the members of `failures`: whether `all`, `some` or `none` of the runs with so many seeds failed.
pub fn fronts<P: Runs>(
    program: &P,
    alloc: Global,
    case: &mut Case<'_>,
) -> Result<String, CaseFault> {
    let seeds = case.number("seeds")?;
    failures(&Seeded, program, alloc, case, 0, seeds)
}
