// The words of the command line, and the commands that they are.
use case_rows::{Case, CaseFault, word_text};
use command_words::{ClientWords, Command, FederateWords, LocalWords, ServeWords, command_of};
use run_case_rows::words_of;
use std::alloc::Global;
use tpf_base::Text;
use triple_table::Choice;

/// The graphs that are asked for.
fn choice_text(choice: &Choice) -> &str {
    match choice {
        Choice::DefaultGraph => "default",
        Choice::Union => "union",
        Choice::Named(iri) => iri.as_str(),
    }
}

/// The numbers of a client, with that of its blocks last where they have more rows than one.
fn client_text(alloc: Global, client: &ClientWords) -> Result<String, CaseFault> {
    let front = bounds_text(alloc, client)?;
    let block = client.block;
    if block == 1 {
        return Ok(front);
    }
    Ok(format!(in alloc; "{front}/{block}")?)
}

/// The numbers of a client but that of its blocks.
fn bounds_text(alloc: Global, client: &ClientWords) -> Result<String, CaseFault> {
    let window = client.window;
    let links = client.links;
    let retries = client.retries;
    let budget = client.budget;
    let max_body = client.max_body;
    Ok(format!(in alloc; "{window}/{links}/{retries}/{budget}/{max_body}")?)
}

/// `local` in one line, before the numbers of its client.
fn local_front(alloc: Global, words: &LocalWords<'_>) -> Result<String, CaseFault> {
    let name = words.name;
    let query = words.query;
    let graphs = choice_text(&words.choice);
    let page = words.page;
    Ok(format!(in alloc; "local {name} {query} {graphs} {page}")?)
}

/// `local` in one line: what it asks, the numbers of its client, its seed and which dials fail.
fn local_text(alloc: Global, words: &LocalWords<'_>) -> Result<String, CaseFault> {
    let front = local_front(alloc, words)?;
    let client = client_text(alloc, &words.client)?;
    let seed = words.seed;
    let fail_every = words.fail_every;
    Ok(format!(in alloc; "{front} {client} {seed} {fail_every}")?)
}

/// `query` in one line.
fn query_text(
    alloc: Global,
    address: &str,
    name: &str,
    client: &ClientWords,
) -> Result<String, CaseFault> {
    let client = client_text(alloc, client)?;
    Ok(format!(in alloc; "query {address} {name} {client}")?)
}

/// `federate` in one line: the query, each server, and the numbers of the client.
fn federate_text(alloc: Global, words: &FederateWords<'_>) -> Result<String, CaseFault> {
    let mut line = format!(in alloc; "federate {}", words.query)?;
    for url in &words.urls {
        line.push(' ')?;
        line.push_str(url.text())?;
    }
    let client = client_text(alloc, &words.client)?;
    line.push(' ')?;
    line.push_str(client.as_str())?;
    Ok(line)
}

/// `serve` in one line, before the path of a reload.
fn serve_front(alloc: Global, words: &ServeWords<'_>) -> Result<String, CaseFault> {
    let name = words.name;
    let address = words.base.text();
    let graphs = choice_text(&words.choice);
    let page = words.page;
    Ok(format!(in alloc; "serve {name} {address} {graphs} {page}")?)
}

/// The path of a reload; `none` where there is none.
fn path_text(reload: &Option<Text>) -> &str {
    match reload {
        Some(path) => path.as_str(),
        None => "none",
    }
}

/// `serve` in one line: what is served, after how many connections it ends, the path of a reload, and `rows` where rows
/// are read.
fn serve_text(alloc: Global, words: &ServeWords<'_>) -> Result<String, CaseFault> {
    let front = serve_front(alloc, words)?;
    let connections = words.stop_after.unwrap_or(0);
    let path = path_text(&words.reload);
    let rows = if words.rows { " rows" } else { "" };
    Ok(format!(in alloc; "{front} {connections} {path}{rows}")?)
}

/// `make` in one line: what it makes, and its query.
fn make_text(alloc: Global, count: u32, query: Option<&str>) -> Result<String, CaseFault> {
    let query = query.unwrap_or("none");
    Ok(format!(in alloc; "make {count} {query}")?)
}

/// A command in one line.
fn command_text(alloc: Global, command: &Command<'_>) -> Result<String, CaseFault> {
    match command {
        Command::Local(words) => local_text(alloc, words),
        Command::Query(words) => query_text(alloc, words.url.text(), words.query, &words.client),
        Command::Federate(words) => federate_text(alloc, words),
        Command::Serve(words) => serve_text(alloc, words),
        Command::Make { count, run } => make_text(alloc, *count, *run),
    }
}

/// The command that words are, in one line; `none`, where they are no command.
fn words_text(alloc: Global, words: &[String]) -> Result<String, CaseFault> {
    match command_of(alloc, words) {
        Ok(Some(command)) => command_text(alloc, &command),
        Ok(None) => word_text(alloc, "none"),
        Err(_) => Err(CaseFault::OutOfMemory),
    }
}

/// `line`: the command that words are, with a `|` between each two, in one line; `none`, where they are no command.
pub fn command(alloc: Global, case: &mut Case<'_>) -> Result<String, CaseFault> {
    let line = case.text(alloc, "line")?;
    let words = words_of(alloc, line.as_str())?;
    words_text(alloc, words.as_slice())
}
