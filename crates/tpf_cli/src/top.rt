// The top call.
ghost use Rattle.std.specs.Prelude.{◌≡◌, ◌≤◌, Some, map, string_bytes, option_map};
ghost use Rattle.generated_data.specs.declared.limits.TheConstants.{MOST_PERSONS};
ghost use Rattle.command_words.specs.Commands as commands;
ghost use Rattle.command_words.specs.Commands.{command_of};
ghost use Rattle.command_words.specs.CommandViews.{command_view};
ghost use Rattle.command_endings.specs.EndingViews.{ending_view};
ghost use Rattle.tpf_cli.specs.Ranges.{IsInRange};
ghost use Rattle.tpf_cli.specs.Runs.{Does, DoesOf, Makes, IsWithoutShelf, IsWithoutOutput, IsWithoutWire, around};
ghost use Rattle.tpf_cli.specs.Promises.{Keeps};

use crate::commands::{ask_file, ask_generated, ask_server, ask_servers, serve_file};
use command_endings::{Ending, say};
use command_words::{Command, command_of};
use fragment_server::FragmentConnection;
use generated_data::write_generated;
use loop_wire::LoopWire;
use std::alloc::Global;
use std::sync::Wait;
use tpf_base::{Accept, Dial, Shelf, Sink};

/// The wire that a run made inside itself, where its contracts and tests can see it.
#[derive(Drop)]
pub enum Inside {
    /// The run made none.
    Unused,
    /// The wire between the client and the server of `local` or of `make --run`, as the run left it.
    Loop(LoopWire<FragmentConnection>),
}

/// Does `make`.
fn obey_make<'a, R: Wait, F: Shelf, K: Sink>(
    rt: &R,
    alloc: Global,
    count: u32,
    run: Option<&'a str>,
    shelf: &mut F,
    out: &mut K,
    inside: &mut Inside,
) -> Ending<'a>
    requires most { count ≤ MOST_PERSONS }
    requires unused { inside.old ≡ Inside.Unused }
    ensures does { Makes (F.state shelf.old) (F.state shelf.new) (K.state out.old) (K.state out.new) inside.new
        count (option_map (λ r. r.now) run.entry) (ending_view result) }
    ensures shelf { IsWithoutShelf (Some (commands.make count (option_map (λ r. r.now) run.entry)))
        → shelf.new ≡ shelf.old }
{
    match run {
        None => Ending::Made(write_generated(alloc, count, out)),
        Some(query) => {
            let counted = ask_generated(rt, alloc, count, query, shelf, out, inside);
            Ending::Counted { query, counted }
        }
    }
}

/// Does a command.
fn obey<'a, R: Wait, F: Shelf, W: Dial + Accept, K: Sink>(
    rt: &R,
    alloc: Global,
    command: Command<'a>,
    shelf: &mut F,
    wire: &mut W,
    out: &mut K,
    inside: &mut Inside,
) -> Ending<'a>
    requires range { IsInRange (command_view command) }
    requires unused { inside.old ≡ Inside.Unused }
    ensures does { Does (around (F.state shelf.old) (F.state shelf.new)
        (W.allows wire.old) (W.state wire.old) (W.state wire.new) (K.state out.old) (K.state out.new) inside.new)
        (command_view command.entry) (ending_view result) }
    ensures wire { IsWithoutWire (Some (command_view command.entry)) → wire.new ≡ wire.old }
    ensures shelf { IsWithoutShelf (Some (command_view command.entry)) → shelf.new ≡ shelf.old }
{
    match command {
        Command::Local(words) => {
            let answer = ask_file(rt, alloc, &words, shelf, out, inside);
            let (data, query) = (words.name, words.query);
            drop(words);
            Ending::Answered {
                data,
                query,
                answer,
            }
        }
        Command::Query(words) => {
            let answer = ask_server(rt, alloc, &words, shelf, wire, out);
            Ending::Answered {
                data: "",
                query: words.query,
                answer,
            }
        }
        Command::Federate(words) => {
            let answer = ask_servers(rt, alloc, &words, shelf, wire, out);
            Ending::Answered {
                data: "",
                query: words.query,
                answer,
            }
        }
        Command::Serve(words) => {
            let data = words.name;
            let served = serve_file(rt, alloc, words, shelf, wire, out);
            Ending::Served { data, served }
        }
        Command::Make { count, run } => obey_make(rt, alloc, count, run, shelf, out, inside),
    }
}

/// Does the command that the words are, if they are one.
fn ending_of<'a, R: Wait, F: Shelf, W: Dial + Accept, K: Sink>(
    rt: &R,
    alloc: Global,
    words: &'a [String],
    shelf: &mut F,
    wire: &mut W,
    out: &mut K,
    inside: &mut Inside,
) -> Ending<'a>
    requires unused { inside.old ≡ Inside.Unused }
    ensures does { DoesOf (around (F.state shelf.old) (F.state shelf.new)
        (W.allows wire.old) (W.state wire.old) (W.state wire.new) (K.state out.old) (K.state out.new) inside.new)
        (command_of (map string_bytes words.entry.now)) (ending_view result) }
    ensures wire { IsWithoutWire (command_of (map string_bytes words.entry.now)) → wire.new ≡ wire.old }
    ensures shelf { IsWithoutShelf (command_of (map string_bytes words.entry.now)) → shelf.new ≡ shelf.old }
    ensures out { IsWithoutOutput (command_of (map string_bytes words.entry.now)) → out.new ≡ out.old }
{
    match command_of(alloc, words) {
        Err(_) => Ending::NoWords,
        Ok(None) => Ending::Usage,
        Ok(Some(command)) => obey(rt, alloc, command, shelf, wire, out, inside),
    }
}

/// Does the command that the words (command-line arguments) are, and answers the exit status. `words`
/// begins with the program's name.
///
/// `tpf local FILE QUERYFILE` serves the data of a file to a client in the same process, over a wire
/// that is left in `inside`, and writes the answer to the query of the other file to `out`, as SPARQL 1.1
/// Query Results JSON. `tpf query URL QUERYFILE` asks the server at an address over `wire`. Both end with
/// the line `requests R rows S` on `err`.
///
/// `tpf federate QUERYFILE URL ..` asks the servers at one to eight addresses, no two of one authority, together over
/// `wire`, and writes the answer over the union of what they hold; a triple that several of them hold counts once. The
/// words are read first, then the file, then the servers are asked. It ends with the same line and statuses as `query`.
/// Its query has no groups: one that has is refused, with status 4.
///
/// With `--block N` a request of `local` or `query` asks for up to N rows, and the query is read as one without groups
/// too. `local` then serves the file with rows read.
///
/// The query of a file of the other commands may have groups: OPTIONAL, UNION, groups in one another, and DISTINCT (SPARQL 1.1, 5 to 7 and
/// 15.3). Then its blocks of triple patterns are asked for one after another as they are written, each from the start
/// page on and with what the others left of `--budget`; their rows are put together in memory, and the text is written
/// behind the last of them. Where two blocks tell different versions of the data the status is 11.
///
/// `tpf serve FILE --base URL` serves the data of a file over `wire` at the host and the port of the base,
/// writes `ready` and LF to `out` once it listens there, and ends with the line `served C`, after
/// `--stop-after` connections. With `--rows` it reads the rows that a request names, whose page has then only the
/// triples that fit one of them (bindings-restricted fragments); without it they are passed over.
///
/// `tpf make N` writes the generated data of N persons to `out`, as canonical N-Quads. `tpf make N --run
/// QUERYFILE` serves these data to a client in the same process, as `local` does without options, and writes
/// the line `triples T rows S` to `out`: the number of the triples, and that of the rows of the answer, which
/// is not written.
///
/// At any status but 0 a line that says why goes to `err`; a failure of `err` is passed over. The
/// statuses: 2 the words are no command; 3 the data are not served; 4 the query is not read; 5 a request
/// failed; 6 a reply is refused; 7 the budget is spent; 8 memory ran out; 9 `out` failed; 10 a file could
/// not be read from `shelf`; 11 the data changed; 12 the listener (door) or a wait failed.
///
/// Of `local` and `make --run`, with nothing assumed of a wire: 5 comes only where so many dials fail
/// (`--fail-every`), 6 only where a body of the plan is longer than `--max-body`, and 7 only where the plan
/// with the requests that fail passes `--budget`, as do retries + 1 times the plan (`table`). At status 0 of `local`
/// the number of requests that is told is that of the plan's addresses where no dial fails, and else only by a quotient
/// more (`requests`). These are of a query without groups. With groups 5 comes only where a dial is to fail, 6 only
/// where a body that a block asks for is longer than `--max-body`, and 7, where no dial fails, only where the plan of
/// all blocks passes `--budget` (`groups`). Of any query 4 comes only where its text has a fault, and always there, if
/// the data were not refused before it (`refusal`). Where the files are read, none of these causes is there (of a
/// query with groups: no dial fails), and no output or shelf fails, the status is 0 or 8; so it is of `query` and
/// `federate` over a wire whose other ends answer as servers do, where the plan fits and no data change in the run, of
/// `serve` where the wire does not fail, and of `make` (`complete`, `groups_complete`).
///
/// Over any shelf, wire and output, whether they tell what they hold or not, a run ends with one of the statuses
/// of its command (`among`): no words that are none with another than 2 and 8; `local` never with 11 and 12,
/// and with 5 only where a dial is to fail; `query` and `federate` never with 3 and 12; `serve` with 0, 3, 8, 9, 10 and 12 alone;
/// `make` with 0, 8 and 9, and with `--run` with 4, 6, 7 and 10 beside these.
///
/// Words that are no command leave `shelf`, `wire` and `out` as they are, and `make` without `--run` leaves
/// `shelf` and `wire` so (`shelf`, `wire`, `out`).
///
/// `inside` is `Unused` before a run, and stays so but for `local` and `make --run`.
/// At each exit every connection that was given in the run, over `wire` or inside, is closed.
pub fn run<R: Wait, F: Shelf, W: Dial + Accept, K: Sink, E: Sink>(
    rt: &R,
    alloc: Global,
    words: &[String],
    shelf: &mut F,
    wire: &mut W,
    out: &mut K,
    err: &mut E,
    inside: &mut Inside,
) -> u8
    requires { inside.old ≡ Inside.Unused }
    ensures keeps { Keeps (around (F.state shelf.old) (F.state shelf.new)
        (W.allows wire.old) (W.state wire.old) (W.state wire.new) (K.state out.old) (K.state out.new) inside.new)
        (command_of (map string_bytes words.now)) result (E.state err.old) (E.state err.new) }
    ensures wire { IsWithoutWire (command_of (map string_bytes words.now)) → wire.new ≡ wire.old }
    ensures shelf { IsWithoutShelf (command_of (map string_bytes words.now)) → shelf.new ≡ shelf.old }
    ensures out { IsWithoutOutput (command_of (map string_bytes words.now)) → out.new ≡ out.old }
{
    let ending = ending_of(rt, alloc, words, shelf, wire, out, inside);
    let status = say(alloc, err, &ending);
    drop(ending);
    status.code()
}
