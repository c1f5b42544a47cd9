//! Cases of the whole program, which this is itself where it is started with words. Without a word it answers the rows of `data/`,
//! command lines, and runs with files, streams and wires in memory; and then it starts itself as servers and as their clients, and
//! prints what is seen of them over real sockets, from one process to another.
#![tactic(auto)]

mod rows;

use process_runs::report;
use rows::answer_rows;
use std::process::ExitCode;
use tpf_cli::{run_process, words_of};

fn main(rt: HostRuntime) -> ExitCode {
    match words_of(&rt) {
        Ok(words) if words.len() < 2 => {
            let all_right = answer_rows(&rt);
            let reported = report(&rt);
            if all_right {
                reported
            } else {
                ExitCode::FAILURE
            }
        }
        _ => run_process(&rt),
    }
}
