// What goes on around an evaluation: the pages that there are, and the asks that are out.
use crate::pages::Pages;
use crate::seen::Seen;
use case_rows::CaseFault;
use request_plan::Ask;
use std::alloc::Global;

/// How the asks of an evaluation are answered.
#[derive(Clone, Copy)]
pub struct Pace<'a> {
    /// The numbers are places among the asks that are out, the oldest of which has place 0: that of the ask that is answered
    /// first, then of those that are out the next, and so on, round and round. A number behind the last place stands for the
    /// newest ask.
    pub order: &'a [u64],
    /// Whether one page is asked for in a turn, and not all that there are to ask for.
    pub is_alone: bool,
    /// How many asks are answered in a turn at most.
    pub answers: u32,
}

/// A run of an evaluation.
#[derive(Drop)]
pub struct Run<'a> {
    pub pages: Pages<'a>,
    pub pace: Pace<'a>,
    /// The asks that are out, the oldest first.
    held: Vec<Ask>,
    /// The next place of the order.
    next: usize,
    pub seen: Seen,
}

/// A run before its first turn.
pub fn new_run<'a>(alloc: Global, pages: Pages<'a>, pace: Pace<'a>) -> Run<'a> {
    Run {
        pages,
        pace,
        held: Vec::new(alloc),
        next: 0,
        seen: Seen {
            asked: Vec::new(alloc),
            rows: Vec::new(alloc),
            first_out: 0,
            most_open: 0,
            turns: 0,
        },
    }
}

/// Notes the address of an ask, which is then out, and says whether to ask on.
pub fn keep(alloc: Global, ask: Ask, run: &mut Run<'_>) -> Result<bool, CaseFault> {
    let address = String::from_str(alloc, ask.address.text())?;
    run.seen.asked.push(address)?;
    run.held.push(ask)?;
    Ok(!run.pace.is_alone)
}

/// Notes that all was asked for that a turn asks for, while so many nodes are open.
pub fn note_turn(run: &mut Run<'_>, open: usize) {
    if run.seen.turns == 0 {
        run.seen.first_out = run.held.len();
    }
    run.seen.turns = run.seen.turns.saturating_add(1);
    run.seen.most_open = run.seen.most_open.max(open);
}

/// Takes out the ask at a place.
fn held_at(held: &mut Vec<Ask>, place: usize) -> Option<Ask> {
    if held.is_empty() {
        return None;
    }
    let last = held.len() - 1;
    Some(held.remove(place.min(last)))
}

/// Takes out the ask that is answered next, if one is out.
pub fn next_held(run: &mut Run<'_>) -> Option<Ask> {
    if run.next >= run.pace.order.len() {
        run.next = 0;
    }
    let place = run.pace.order.get(run.next).copied().unwrap_or(0);
    run.next = run.next.saturating_add(1);
    held_at(&mut run.held, place as usize)
}
