//! Cases of the libraries: terms and N-Quads, queries, tables and fragments, addresses and pages, requests, replies and
//! conversations, exchanges and pools, joins and federations. The rows stand in `data/`, and what they call in a library each.
#![tactic(auto)]

use std::process::ExitCode;

fn main(rt: HostRuntime) -> ExitCode {
    let texts = text_cases::answer_rows(&rt);
    let queries = query_cases::answer_rows(&rt);
    let tables = table_cases::answer_rows(&rt);
    let pages = page_cases::answer_rows(&rt);
    let servers = server_cases::answer_rows(&rt);
    let clients = client_cases::answer_rows(&rt);
    let evaluations = evaluation_cases::answer_rows(&rt);
    if texts && queries && tables && pages && servers && clients && evaluations {
        ExitCode::SUCCESS
    } else {
        ExitCode::FAILURE
    }
}
