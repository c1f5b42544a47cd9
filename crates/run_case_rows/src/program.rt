// What runs the program, and its runs.
use crate::outcomes::Outcome;
use crate::setups::{Failure, Setup, words_of};
use case_rows::CaseFault;
use memory_outside::NoWire;
use std::alloc::Global;
use tpf_base::{Accept, Dial, Shelf};

/// What runs the program.
pub trait Runs {
    /// Runs it with these words over this shelf and this wire. The outcome gets the status, what was written, and what
    /// was sent on the wire that is left inside.
    fn run<F: Shelf, W: Dial + Accept>(
        &self,
        alloc: Global,
        words: &[String],
        shelf: &mut F,
        wire: &mut W,
        outcome: &mut Outcome,
    ) -> Result<(), CaseFault>;
}

/// The run of these words over this wire, with an output that fails so.
fn ended_with<P: Runs, W: Dial + Accept>(
    program: &P,
    alloc: Global,
    setup: &Setup,
    words: &[String],
    out: Failure,
    wire: &mut W,
) -> Result<Box<Outcome>, CaseFault> {
    let mut shelf = setup.shelf(alloc, setup.fails.shelf)?;
    let mut outcome = Outcome::new(alloc, out, setup.fails.err)?;
    program.run(alloc, words, &mut *shelf, wire, &mut outcome)?;
    Ok(outcome)
}

/// The run over this wire.
pub fn ended_on<P: Runs, W: Dial + Accept>(
    program: &P,
    alloc: Global,
    setup: &Setup,
    wire: &mut W,
) -> Result<Box<Outcome>, CaseFault> {
    let words = words_of(alloc, setup.line())?;
    ended_with(
        program,
        alloc,
        setup,
        words.as_slice(),
        setup.fails.out,
        wire,
    )
}

/// The run over a wire that gives no link, with an output that fails so.
pub fn ended_by<P: Runs>(
    program: &P,
    alloc: Global,
    setup: &Setup,
    out: Failure,
) -> Result<Box<Outcome>, CaseFault> {
    let words = words_of(alloc, setup.line())?;
    ended_with(
        program,
        alloc,
        setup,
        words.as_slice(),
        out,
        &mut NoWire::new(),
    )
}

/// The run over a wire that gives no link.
pub fn ended<P: Runs>(
    program: &P,
    alloc: Global,
    setup: &Setup,
) -> Result<Box<Outcome>, CaseFault> {
    ended_by(program, alloc, setup, setup.fails.out)
}

/// The words of a line, with those for a seed behind them.
fn seeded_words(alloc: Global, line: &str, seed: u64) -> Result<Vec<String>, CaseFault> {
    let line: String = format!(in alloc; "{line}|--seed|{seed}")?;
    words_of(alloc, line.as_str())
}

/// The run with this seed over a wire that gives no link.
pub fn seeded<P: Runs>(
    program: &P,
    alloc: Global,
    setup: &Setup,
    seed: u64,
) -> Result<Box<Outcome>, CaseFault> {
    let words = seeded_words(alloc, setup.line(), seed)?;
    let out = setup.fails.out;
    ended_with(
        program,
        alloc,
        setup,
        words.as_slice(),
        out,
        &mut NoWire::new(),
    )
}
