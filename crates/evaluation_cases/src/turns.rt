// An evaluation, run to its end over the pages that there are.
ghost use Rattle.std.specs.Prelude.{◌≡◌, ◌<◌, ◌+◌, ◌*◌, ◌≤◌, ◌^◌, ◌-◌, OnOk};

use crate::fault::RunFault;
use crate::lines::add_row;
use crate::pages::{Pages, page_at};
use crate::runs::{Run, keep, next_held, note_turn};
use case_rows::CaseFault;
use request_plan::{Answered, Ask, Evaluates};
use std::alloc::Global;

/// How many turns a run may take.
const MOST_TURNS: u32 = 5000;

/// An evaluation that a case runs.
pub trait Runs: Evaluates {
    /// How many nodes are open; 0 where that is not counted.
    fn open(&self) -> usize;
}

/// Asks for the next page, if there is one now, and says whether to ask on.
#[tactic(auto, using(crate::proofs::Counts::asked_one))]
fn ask_next<E: Runs>(alloc: Global, evaluation: &mut E, run: &mut Run<'_>) -> Result<bool, RunFault>
    requires { (E.standing evaluation.old).given < 2 ^ 64 - 1 }
    ensures { OnOk result ((E.standing evaluation.new).given ≤ (E.standing evaluation.old).given + 1) }
{
    let Some(ask) = evaluation.next_ask(alloc)? else {
        return Ok(false);
    };
    Ok(keep(alloc, ask, run)?)
}

/// Asks for the pages that a turn asks for, at most so many.
fn ask_all<E: Runs>(
    alloc: Global,
    evaluation: &mut E,
    most: u32,
    run: &mut Run<'_>,
) -> Result<(), RunFault>
    requires { (E.standing evaluation.old).given + most < 2 ^ 64 - 1 }
    ensures { OnOk result ((E.standing evaluation.new).given ≤ (E.standing evaluation.old).given + most) }
{
    if most == 0 {
        return Ok(());
    }
    if !ask_next(alloc, evaluation, run)? {
        return Ok(());
    }
    ask_all(alloc, evaluation, most - 1, run)
}

/// Answers an ask with its page.
#[tactic(auto, using(crate::proofs::Counts::answered_none))]
fn answer_once<E: Runs>(
    alloc: Global,
    evaluation: &mut E,
    pages: Pages<'_>,
    ask: &Ask,
) -> Result<Answered, RunFault>
    ensures { OnOk result ((E.standing evaluation.new).given ≡ (E.standing evaluation.old).given) }
{
    let page = page_at(alloc, pages, &ask.address)?;
    Ok(evaluation.answer(alloc, ask.ticket, page)?)
}

/// Answers an ask with its page, twice: the second time its ticket is a stranger's, which changes nothing.
fn answer<E: Runs>(
    alloc: Global,
    evaluation: &mut E,
    pages: Pages<'_>,
    ask: &Ask,
) -> Result<(), RunFault>
    ensures { OnOk result ((E.standing evaluation.new).given ≡ (E.standing evaluation.old).given) }
{
    if answer_once(alloc, evaluation, pages, ask)? != Answered::Taken {
        return Err(RunFault(CaseFault::Differs));
    }
    let open = evaluation.open();
    if answer_once(alloc, evaluation, pages, ask)? != Answered::Stranger {
        return Err(RunFault(CaseFault::Differs));
    }
    if evaluation.open() != open {
        return Err(RunFault(CaseFault::Differs));
    }
    Ok(())
}

/// Answers the asks that are next in the order, at most so many.
fn answer_some<E: Runs>(
    alloc: Global,
    evaluation: &mut E,
    most: u32,
    run: &mut Run<'_>,
) -> Result<(), RunFault>
    ensures { OnOk result ((E.standing evaluation.new).given ≡ (E.standing evaluation.old).given) }
{
    if most == 0 {
        return Ok(());
    }
    let Some(ask) = next_held(run) else {
        return Ok(());
    };
    answer(alloc, evaluation, run.pages, &ask)?;
    answer_some(alloc, evaluation, most - 1, run)
}

/// Takes the rows that wait, at most so many.
fn take_rows<E: Runs>(
    alloc: Global,
    evaluation: &mut E,
    most: u32,
    rows: &mut Vec<String>,
) -> Result<(), RunFault>
    ensures { (E.standing evaluation.new).given ≡ (E.standing evaluation.old).given }
{
    if most == 0 {
        return Ok(());
    }
    let Some(row) = evaluation.take_row() else {
        return Ok(());
    };
    add_row(alloc, &row, rows)?;
    take_rows(alloc, evaluation, most - 1, rows)
}

/// One turn: it asks, answers, and takes the rows.
fn turn<E: Runs>(alloc: Global, evaluation: &mut E, run: &mut Run<'_>) -> Result<(), RunFault>
    requires { (E.standing evaluation.old).given + 100 < 2 ^ 64 - 1 }
    ensures { OnOk result ((E.standing evaluation.new).given ≤ (E.standing evaluation.old).given + 100) }
{
    ask_all(alloc, evaluation, 100, run)?;
    note_turn(run, evaluation.open());
    answer_some(alloc, evaluation, run.pace.answers, run)?;
    take_rows(alloc, evaluation, 1000, &mut run.seen.rows)
}

/// Goes on until the evaluation is done, at most so many turns.
fn go_on<E: Runs>(
    alloc: Global,
    evaluation: &mut E,
    turns: u32,
    run: &mut Run<'_>,
) -> Result<(), RunFault>
    requires { (E.standing evaluation.old).given + 100 * turns < 2 ^ 64 - 1 }
{
    if turns == 0 {
        return Err(RunFault(CaseFault::Differs));
    }
    turn(alloc, evaluation, run)?;
    if evaluation.is_done() {
        return Ok(());
    }
    go_on(alloc, evaluation, turns - 1, run)
}

/// Runs an evaluation from its first turn to its end.
pub fn run_to_end<E: Runs>(
    alloc: Global,
    evaluation: &mut E,
    run: &mut Run<'_>,
) -> Result<(), RunFault>
    requires { (E.standing evaluation.old).given ≡ 0 }
{
    go_on(alloc, evaluation, MOST_TURNS, run)
}
