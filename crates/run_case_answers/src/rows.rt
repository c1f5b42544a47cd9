// Runs over a wire that gives no link.
use case_rows::{Case, CaseFault, word_text};
use run_case_rows::{Runs, Setup, Show, ended, seeded, setup_of, show_of};
use std::alloc::Global;

/// What is shown of the run with this seed.
fn shown_with<P: Runs>(
    program: &P,
    alloc: Global,
    setup: &Setup,
    show: &Show,
    seed: u64,
) -> Result<String, CaseFault> {
    let outcome = seeded(program, alloc, setup, seed)?;
    show.outcome(alloc, &outcome)
}

/// Fails where a run with one of so many seeds ends otherwise.
fn agree<P: Runs>(
    program: &P,
    alloc: Global,
    setup: &Setup,
    show: &Show,
    seeds: u64,
    wanted: &str,
) -> Result<(), CaseFault> {
    for seed in 0..seeds {
        if shown_with(program, alloc, setup, show, seed)?.as_str() != wanted {
            return Err(CaseFault::Differs);
        }
    }
    Ok(())
}

/// What is shown of the run, which is the same with each of so many seeds.
fn shown<P: Runs>(
    program: &P,
    alloc: Global,
    setup: &Setup,
    show: &Show,
    seeds: u64,
) -> Result<String, CaseFault> {
    let outcome = ended(program, alloc, setup)?;
    let text = show.outcome(alloc, &outcome)?;
    agree(program, alloc, setup, show, seeds, text.as_str())?;
    Ok(text)
}

/// `line`, `data`, `query`, `dash`, `data_of`, `shelf_fails`, `out_fails`, `err_fails`: the status of a run, its output
/// and its line on the standard error. Of the output the rows are shown in the order of their bytes where the row is
/// `sorted`, and how often `count` stands in it where the row has that text; of the line the words `as said` where it
/// has the front and the end of `said`. `wire` says whether one is `left` inside, or `none`. With `targets` those of the
/// requests on that wire are shown, with `answers` the answers, and with `order` which of two texts was sent first. With
/// `triples` beside `answers` each answer has a body of the length that it tells or none, and it is shown how often that
/// text stands in a page, that an answer `closes` its connection, and that a link has no answer. With `seeds` the run is
/// repeated with so many seeds, and it ends always so.
pub fn alone<P: Runs>(
    program: &P,
    alloc: Global,
    case: &mut Case<'_>,
) -> Result<String, CaseFault> {
    let seeds = case.number_if("seeds")?.unwrap_or(0);
    let setup = setup_of(program, alloc, case)?;
    let show = show_of(alloc, case)?;
    shown(program, alloc, &setup, &show, seeds)
}

/// What was sent inside by the run with this seed.
fn sent_with<P: Runs>(
    program: &P,
    alloc: Global,
    setup: &Setup,
    seed: u64,
) -> Result<String, CaseFault> {
    let outcome = seeded(program, alloc, setup, seed)?;
    match &outcome.sent {
        Some(sent) => word_text(alloc, sent.as_str()),
        None => Err(CaseFault::Differs),
    }
}

/// How many of the runs with so many seeds send other requests than the first, or in another order.
fn others<P: Runs>(
    program: &P,
    alloc: Global,
    setup: &Setup,
    seeds: u64,
) -> Result<u64, CaseFault> {
    let first = sent_with(program, alloc, setup, 0)?;
    let mut others = 0u64;
    for seed in 0..seeds {
        if sent_with(program, alloc, setup, seed)?.as_str() != first.as_str() {
            others = others.saturating_add(1);
        }
    }
    Ok(others)
}

/// The word for so many runs that send other requests.
fn traffic_word(others: u64) -> &'static str {
    if others == 0 { "the same" } else { "other" }
}

/// `line`, `data`, `query`, `seeds`: whether all runs with these seeds send `the same` on their links, or `other` requests or
/// in another order.
pub fn traffic<P: Runs>(
    program: &P,
    alloc: Global,
    case: &mut Case<'_>,
) -> Result<String, CaseFault> {
    let seeds = case.number("seeds")?;
    let setup = setup_of(program, alloc, case)?;
    word_text(alloc, traffic_word(others(program, alloc, &setup, seeds)?))
}
