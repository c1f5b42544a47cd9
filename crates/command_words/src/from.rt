// The arguments of each command.
ghost use Rattle.std.specs.Prelude.{◌≡◌, ◌≤◌, IfOk, IfSome, option_map, map, string_bytes};
ghost use Rattle.command_words.specs.Apps.{HasFew, found_in};
ghost use Rattle.command_words.specs.Words.{arguments};
ghost use Rattle.command_words.specs.Forms.{form_of, texts};
ghost use Rattle.command_words.specs.Commands.{words_of, number_in, client_in, choice_in, page_in, seed_in, local_with, local_from, query_with, query_from, rows_in, serve_with, serve_from, make_from, command_by, command_of};
ghost use Rattle.command_words.specs.CommandNames.{form_by, from_by};
ghost use Rattle.command_words.specs.CommandViews.{command_view};

use crate::arguments::arguments_of;
use crate::command::{ClientWords, Command, LocalWords, QueryWords, ServeWords};
use crate::federate::{QUERY_AND_URLS, federate_from};
use crate::values::{
    base_of, choice_of, count_of, is_true, number_of, number_or, reload_of, rows_beside,
    seed_beside, url_of,
};
use crate::{
    LARGEST_BODY, MOST_BUDGET, MOST_CONNECTIONS, MOST_RETRIES, MOST_WINDOW, RAREST_FAILURE,
};
use clap::ArgMatches;
use generated_data::MOST_PERSONS;
use rdf_terms::MOST_ROWS;
use std::alloc::Global;
use template_fill::{LARGEST_PAGE, WebAddress};
use tpf_base::{
    MOST_LINKS, OutOfMemory, Text, USUAL_BODY, USUAL_BUDGET, USUAL_LINKS, USUAL_PAGE,
    USUAL_RETRIES, USUAL_WINDOW,
};
use triple_table::Choice;

/// The value of an argument in the words, where it has one.
pub(crate) fn value_of<'a>(matches: &ArgMatches<'a>, name: &str) -> Option<&'a str>
    ensures { option_map (λ v. v.now) result ≡ found_in matches.now name.now }
{
    matches.get_str(name)
}

/// The number of an option, or the usual one.
fn number_in(matches: &ArgMatches<'_>, name: &str, low: u64, high: u64, usual: u64) -> Option<u64>
    requires { usual ≤ high }
    ensures value { result ≡ number_in (found_in matches.now) name.now low high usual }
    ensures within { IfSome result (λ n. n ≤ high) }
{
    number_or(value_of(matches, name), low, high, usual)
}

fn small_in(matches: &ArgMatches<'_>, name: &str, low: u32, high: u32, usual: u32) -> Option<u32>
    requires { usual ≤ high }
    ensures { result ≡ number_in (found_in matches.now) name.now low high usual }
{
    match number_in(
        matches,
        name,
        u64::from(low),
        u64::from(high),
        u64::from(usual),
    ) {
        Some(n) => Some(n as u32),
        None => None,
    }
}

/// The client's options.
pub(crate) fn client_in(matches: &ArgMatches<'_>) -> Option<ClientWords>
    ensures { result ≡ client_in (found_in matches.now) }
{
    let window = small_in(matches, "window", 1, MOST_WINDOW, USUAL_WINDOW)?;
    let block = small_in(matches, "block", 2, MOST_ROWS as u32, 1)?;
    let links = small_in(matches, "links", 1, MOST_LINKS, USUAL_LINKS)?;
    let retries = small_in(matches, "retries", 0, MOST_RETRIES, USUAL_RETRIES)?;
    let budget = number_in(matches, "budget", 1, MOST_BUDGET, USUAL_BUDGET)?;
    let max_body = number_in(matches, "max-body", 1, LARGEST_BODY, USUAL_BODY)?;
    Some(ClientWords {
        window,
        block,
        links,
        retries,
        budget,
        max_body,
    })
}

/// The graphs that are chosen.
fn choice_in(alloc: Global, matches: &ArgMatches<'_>) -> Result<Option<Choice>, OutOfMemory>
    ensures { IfOk result (λ o. o ≡ choice_in (found_in matches.now)) }
{
    let union = is_true(value_of(matches, "union"));
    choice_of(alloc, value_of(matches, "graph"), union)
}

fn page_in(matches: &ArgMatches<'_>) -> Option<u64>
    ensures { result ≡ page_in (found_in matches.now) }
{
    number_in(matches, "page", 1, LARGEST_PAGE, USUAL_PAGE)
}

/// The seed, which is not given beside blocks of rows.
fn seed_in(matches: &ArgMatches<'_>) -> Option<u64>
    ensures { result ≡ seed_in (found_in matches.now) }
{
    seed_beside(
        value_of(matches, "block").is_some(),
        value_of(matches, "seed"),
    )
}

fn local_with<'a>(
    matches: &ArgMatches<'a>,
    choice: Option<Choice>,
    client: Option<ClientWords>,
) -> Option<Command<'a>>
    ensures { option_map command_view result ≡ local_with (found_in matches.now) choice client }
{
    let name = value_of(matches, "FILE")?;
    let query = value_of(matches, "QUERYFILE")?;
    let choice = choice?;
    let client = client?;
    let page = page_in(matches)?;
    let seed = seed_in(matches)?;
    let fail_every = number_in(matches, "fail-every", 0, RAREST_FAILURE, 0)?;
    Some(Command::Local(LocalWords {
        name,
        query,
        choice,
        page,
        client,
        seed,
        fail_every,
    }))
}

fn local_from<'a>(
    alloc: Global,
    matches: &ArgMatches<'a>,
) -> Result<Option<Command<'a>>, OutOfMemory>
    ensures { IfOk result (λ o. option_map command_view o ≡ local_from (found_in matches.now)) }
{
    let choice = choice_in(alloc, matches)?;
    Ok(local_with(matches, choice, client_in(matches)))
}

fn query_with<'a>(
    matches: &ArgMatches<'a>,
    url: Option<WebAddress>,
    client: Option<ClientWords>,
) -> Option<Command<'a>>
    ensures { option_map command_view result ≡ query_with (found_in matches.now) url client }
{
    let url = url?;
    let query = value_of(matches, "QUERYFILE")?;
    let client = client?;
    Some(Command::Query(QueryWords { url, query, client }))
}

fn query_from<'a>(
    alloc: Global,
    matches: &ArgMatches<'a>,
) -> Result<Option<Command<'a>>, OutOfMemory>
    ensures { IfOk result (λ o. option_map command_view o ≡ query_from (found_in matches.now)) }
{
    let Some(text) = value_of(matches, "URL") else {
        return Ok(None);
    };
    let url = url_of(alloc, text)?;
    Ok(query_with(matches, url, client_in(matches)))
}

/// Whether rows are read.
fn rows_in(matches: &ArgMatches<'_>, reload: &Option<Text>) -> Option<bool>
    ensures { result ≡ rows_in (found_in matches.now) reload.now }
{
    rows_beside(reload, is_true(value_of(matches, "rows")))
}

fn serve_with<'a>(
    matches: &ArgMatches<'a>,
    choice: Option<Choice>,
    base: WebAddress,
    reload: Option<Text>,
) -> Option<Command<'a>>
    ensures { option_map command_view result ≡ serve_with (found_in matches.now) choice base reload }
{
    let name = value_of(matches, "FILE")?;
    let choice = choice?;
    let page = page_in(matches)?;
    let stop_after = count_of(value_of(matches, "stop-after"), 1, MOST_CONNECTIONS)?;
    let rows = rows_in(matches, &reload)?;
    Some(Command::Serve(ServeWords {
        name,
        base,
        choice,
        page,
        stop_after,
        reload,
        rows,
    }))
}

fn serve_from<'a>(
    alloc: Global,
    matches: &ArgMatches<'a>,
) -> Result<Option<Command<'a>>, OutOfMemory>
    ensures { IfOk result (λ o. option_map command_view o ≡ serve_from (found_in matches.now)) }
{
    let Some(text) = value_of(matches, "base") else {
        return Ok(None);
    };
    let Some(base) = base_of(alloc, text)? else {
        return Ok(None);
    };
    let Some(reload) = reload_of(alloc, &base, value_of(matches, "reload"))? else {
        return Ok(None);
    };
    let choice = choice_in(alloc, matches)?;
    Ok(serve_with(matches, choice, base, reload))
}

fn make_from<'a>(matches: &ArgMatches<'a>) -> Option<Command<'a>>
    ensures { option_map command_view result ≡ make_from (found_in matches.now) }
{
    let text = value_of(matches, "N")?;
    let count = number_of(text, 1, u64::from(MOST_PERSONS))?;
    Some(Command::Make {
        count: count as u32,
        run: value_of(matches, "run"),
    })
}

// ---- the words after the name of each command

static FILE_AND_QUERY: [&str; 2] = ["FILE", "QUERYFILE"];

static URL_AND_QUERY: [&str; 2] = ["URL", "QUERYFILE"];

static FILE: [&str; 1] = ["FILE"];

static COUNT: [&str; 1] = ["N"];

static UNION: [&str; 1] = ["union"];

static SERVE_FLAGS: [&str; 2] = ["union", "rows"];

static NONE: [&str; 0] = [];

static LOCAL_OPTIONS: [&str; 10] = [
    "window",
    "block",
    "links",
    "retries",
    "budget",
    "max-body",
    "page",
    "seed",
    "fail-every",
    "graph",
];

static QUERY_OPTIONS: [&str; 6] = ["window", "block", "links", "retries", "budget", "max-body"];

static FEDERATE_OPTIONS: [&str; 5] = ["window", "links", "retries", "budget", "max-body"];

static SERVE_OPTIONS: [&str; 5] = ["base", "page", "graph", "stop-after", "reload"];

static MAKE_OPTIONS: [&str; 1] = ["run"];

/// A command of the program.
#[derive(Clone, Copy)]
enum Name {
    Local,
    Query,
    Federate,
    Serve,
    Make,
}

/// The names of arguments.
type Names = &'static [&'static str];

/// What may stand after the name of a command: its positionals, its options and its flags.
#[tactic(auto, unfolding(crate::specs::Commands::local_form, crate::specs::Commands::query_form, crate::specs::Commands::federate_form, crate::specs::Commands::serve_form, crate::specs::Commands::make_form))]
fn form_by(name: Name) -> (Names, Names, Names)
    ensures form { form_of result.0.now result.1.now result.2.now ≡ form_by name }
    ensures few { HasFew (texts result.0.now) }
{
    match name {
        Name::Local => (
            FILE_AND_QUERY.as_slice(),
            LOCAL_OPTIONS.as_slice(),
            UNION.as_slice(),
        ),
        Name::Query => (
            URL_AND_QUERY.as_slice(),
            QUERY_OPTIONS.as_slice(),
            NONE.as_slice(),
        ),
        Name::Federate => (
            QUERY_AND_URLS.as_slice(),
            FEDERATE_OPTIONS.as_slice(),
            NONE.as_slice(),
        ),
        Name::Serve => (
            FILE.as_slice(),
            SERVE_OPTIONS.as_slice(),
            SERVE_FLAGS.as_slice(),
        ),
        Name::Make => (COUNT.as_slice(), MAKE_OPTIONS.as_slice(), NONE.as_slice()),
    }
}

/// The arguments of a command in the words after its name.
fn arguments_by<'a>(
    alloc: Global,
    name: Name,
    words: &'a [String],
) -> Result<Option<ArgMatches<'a>>, OutOfMemory>
    ensures { IfOk result (λ o. option_map found_in o ≡ arguments (form_by name) (map string_bytes words.entry.now)) }
{
    let (positionals, options, flags) = form_by(name);
    arguments_of(alloc, positionals, options, flags, words)
}

fn command_from<'a>(
    alloc: Global,
    name: Name,
    matches: &ArgMatches<'a>,
) -> Result<Option<Command<'a>>, OutOfMemory>
    ensures { IfOk result (λ o. option_map command_view o ≡ from_by name (found_in matches.now)) }
{
    match name {
        Name::Local => local_from(alloc, matches),
        Name::Query => query_from(alloc, matches),
        Name::Federate => federate_from(alloc, matches),
        Name::Serve => serve_from(alloc, matches),
        Name::Make => Ok(make_from(matches)),
    }
}

fn command_named<'a>(
    alloc: Global,
    name: Name,
    words: &'a [String],
) -> Result<Option<Command<'a>>, OutOfMemory>
    ensures { IfOk result (λ o. option_map command_view o ≡
        words_of (form_by name) (from_by name) (map string_bytes words.entry.now)) }
{
    match arguments_by(alloc, name, words)? {
        Some(matches) => command_from(alloc, name, &matches),
        None => Ok(None),
    }
}

/// The command of this name, with the words after it.
#[tactic(auto, unfolding(crate::specs::Commands::local_of, crate::specs::Commands::query_of, crate::specs::Commands::federate_of, crate::specs::Commands::serve_of, crate::specs::Commands::make_of))]
fn command_by<'a>(
    alloc: Global,
    name: &str,
    words: &'a [String],
) -> Result<Option<Command<'a>>, OutOfMemory>
    ensures { IfOk result (λ o. option_map command_view o ≡ command_by name.now (map string_bytes words.entry.now)) }
{
    match name {
        "local" => command_named(alloc, Name::Local, words),
        "query" => command_named(alloc, Name::Query, words),
        "federate" => command_named(alloc, Name::Federate, words),
        "serve" => command_named(alloc, Name::Serve, words),
        "make" => command_named(alloc, Name::Make, words),
        _ => Ok(None),
    }
}

/// The command that the words are, if they are one. The first word is the program's name, and the
/// second that of the command; the others are its arguments. `OutOfMemory` comes only where memory
/// runs out.
///
/// An option is `--name value` or `--name=value`, a flag `--name`, and the other words are the
/// positionals. `--` ends the options. Before it each word of two or more characters that begins
/// with `-` is an option or a flag of the command, written whole; a value that is a word of its own
/// does not begin with `-`. None is given twice, and there is none for help or the version.
pub fn command_of<'a>(
    alloc: Global,
    words: &'a [String],
) -> Result<Option<Command<'a>>, OutOfMemory>
    ensures { IfOk result (λ o. option_map command_view o ≡ command_of (map string_bytes words.entry.now)) }
{
    let [_program, name, rest @ ..] = words else {
        return Ok(None);
    };
    command_by(alloc, name.as_str(), rest)
}
