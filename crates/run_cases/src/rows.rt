// The program, whose runs and words are the cases.
ghost use Rattle.std.specs.Prelude.{◌≡◌};

use case_rows::{Answers, Case, CaseFault, run as run_rows};
use run_case_answers::{
    Looped, Scripted, Together, alone, changing, command, each_byte, each_call, each_write, fronts,
    sent_over, shown_over, traffic,
};
use run_case_rows::{Outcome, Runs};
use std::alloc::Global;
use std::rt::Files;
use std::sync::Wait;
use tpf_base::{Accept, Dial, Shelf};
use tpf_cli::{Inside, run};

/// The program over this runtime, which may wait. It answers the rows.
#[derive(Drop)]
struct Program<'a, R: Wait> {
    rt: &'a R,
}

/// The run of words over this shelf and this wire, with its outcome and the wire that it leaves inside. It ends with
/// this status.
fn status_of<R: Wait, F: Shelf, W: Dial + Accept>(
    rt: &R,
    alloc: Global,
    words: &[String],
    shelf: &mut F,
    wire: &mut W,
    outcome: &mut Outcome,
    left: &mut Inside,
) -> u8
    requires { left.old ≡ Inside.Unused }
{
    let (out, err) = (&mut outcome.out, &mut outcome.err);
    run(rt, alloc, words, shelf, wire, out, err, left)
}

/// What was sent on the wire that was left inside, if one was.
fn sent_inside(alloc: Global, left: &Inside) -> Result<Option<String>, CaseFault> {
    match left {
        Inside::Loop(wire) => Ok(Some(sent_over(alloc, wire)?)),
        Inside::Unused => Ok(None),
    }
}

impl<R: Wait> Runs for Program<'_, R> {
    fn run<F: Shelf, W: Dial + Accept>(
        &self,
        alloc: Global,
        words: &[String],
        shelf: &mut F,
        wire: &mut W,
        outcome: &mut Outcome,
    ) -> Result<(), CaseFault> {
        let mut left = Box::new(alloc, Inside::Unused)?;
        let status = status_of(self.rt, alloc, words, shelf, wire, outcome, &mut left);
        outcome.status = status;
        outcome.sent = sent_inside(alloc, &left)?;
        Ok(())
    }
}

/// The calls that rows name.
impl<R: Wait> Answers for Program<'_, R> {
    fn answer(&self, alloc: Global, call: &str, case: &mut Case<'_>) -> Result<String, CaseFault> {
        match call {
            "command" => command(alloc, case),
            "run" => alone(self, alloc, case),
            "traffic" => traffic(self, alloc, case),
            "scripted" => shown_over(&Scripted, self, alloc, case),
            "changing" => changing(self, alloc, case),
            "looped" => shown_over(&Looped, self, alloc, case),
            "together" => shown_over(&Together, self, alloc, case),
            "fronts" => fronts(self, alloc, case),
            "each_call" => each_call(self, alloc, case),
            "each_byte" => each_byte(self, alloc, case),
            "each_write" => each_write(self, alloc, case),
            _ => Err(CaseFault::Row),
        }
    }
}

/// Answers the rows, prints those that are wrong and how many each file has, and says whether none is wrong.
pub fn answer_rows<R: Files + Print + AllocGlobal + Wait>(rt: &R) -> bool {
    run_rows(
        rt,
        &Program { rt },
        "names.json",
        &[
            "commands.jsonl",
            "runs.jsonl",
            "faults.jsonl",
            "wires.jsonl",
            "servers.jsonl",
            "rows.jsonl",
            "blocks.jsonl",
            "group_examples.jsonl",
            "groups.jsonl",
            "group_faults.jsonl",
            "group_wires.jsonl",
        ],
    )
}
