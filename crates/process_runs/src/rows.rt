// The rows, each of them a run.

use crate::held::{Held, end_all, nothing_held};
use crate::steps::step;
use case_rows::{Answers, Case, CaseFault, run as run_rows, word_text};
use std::alloc::Global;
use std::io;
use std::net::Net;
use std::process::{ExitCode, Processes};
use std::rt::Files;
use std::time::Clock;

/// What takes the steps of rows, over this runtime.
#[derive(Drop)]
struct Runner<'a, R: Processes> {
    rt: &'a R,
}

/// Takes steps, each a verb and its text, one after the other.
fn take_steps<R: Processes + Files + Net + Clock + Print + AllocGlobal + Clone + Drop>(
    rt: &R,
    held: &mut Held<R::Started, R::Stream>,
    steps: &[String],
) -> io::Result<()> {
    for pair in steps.chunks(2) {
        let [verb, text] = pair else {
            return Err(io::Error::other("a verb has no text"));
        };
        step(rt, held, verb.as_str(), text.as_str())?;
    }
    Ok(())
}

/// Prints the title of a row, takes its steps, and ends what still goes on.
fn take_row<R: Processes + Files + Net + Clock + Print + AllocGlobal + Clone + Drop>(
    rt: &R,
    title: &str,
    steps: &[String],
) -> io::Result<()> {
    println!(rt; "{title}")?;
    let mut held = nothing_held(rt);
    let taken = take_steps(rt, &mut held, steps);
    end_all(&mut held);
    taken
}

/// What the system says of a fault.
fn fault_text(alloc: Global, error: &io::Error) -> Result<String, CaseFault> {
    Ok(format!(in alloc; "{error}")?)
}

/// `title`, `steps`: `seen`, where each step was taken, or why one was not. The title is printed, and what the steps show,
/// which the stored output of the program has. A step is a verb and a text.
///
/// Programs: `run` starts this program with the words of the text and waits for its end; `start` does not wait, so that its
/// first `some` bytes can be read and its `end` be waited for, with the text `client`. `serve` begins a server, of a file and
/// with the options behind it, at a port that the system chooses, and waits until it can be asked; `nobody` chooses a port at
/// which nobody listens. These have numbers from 0 on: `@0` is a word for the address of the first, and `end` with such a
/// number waits for its end. What still goes on behind the last step, or where one can't be taken, is ended.
///
/// Connections: `connect` makes one to the server with the number. They have numbers of their own: `send` sends what stands
/// behind the number, `await` waits until something comes, `read` reads to the end, and `close` closes.
///
/// What is shown: of the program that ended last the `status`, behind what it is called, where it must be this one, with what
/// stands on its standard error; the `rows` of its answer, sorted, each on a line; its `output` as it stands; whether the
/// `ending` of its answer is there. `keep` writes its output to a file. Of what was read last the `first` line and the `body`,
/// behind what it is called, and how many `lines` of a file came in their order. `say` prints the text.
///
/// `write`, `copy` and `rename` change files, `wait` lets so many milliseconds go by, and `files` finds files and drops them.
fn seen_of<R: Processes + Files + Net + Clock + Print + AllocGlobal + Clone + Drop>(
    rt: &R,
    alloc: Global,
    case: &mut Case<'_>,
) -> Result<String, CaseFault> {
    let title = case.text(alloc, "title")?;
    let steps = case.texts(alloc, "steps")?;
    match take_row(rt, title.as_str(), steps.as_slice()) {
        Ok(()) => word_text(alloc, "seen"),
        Err(error) => fault_text(alloc, &error),
    }
}

impl<R: Processes + Files + Net + Clock + Print + AllocGlobal + Clone + Drop> Answers
    for Runner<'_, R> {
    fn answer(&self, alloc: Global, call: &str, case: &mut Case<'_>) -> Result<String, CaseFault> {
        match call {
            "processes" => seen_of(self.rt, alloc, case),
            _ => Err(CaseFault::Row),
        }
    }
}

/// Takes the rows, and prints what is seen of each, and how many there are. Status 1 where one of them could not be taken to
/// its end, of which the reason is printed.
pub fn report<R: Processes + Files + Net + Clock + Print + AllocGlobal + Clone + Drop>(
    rt: &R,
) -> ExitCode {
    if run_rows(rt, &Runner { rt }, "names.json", &["processes.jsonl"]) {
        ExitCode::SUCCESS
    } else {
        ExitCode::FAILURE
    }
}
