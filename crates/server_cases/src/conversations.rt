// What is fed to a connection, and what it gives.
use crate::connections::{
    feed, fill, pending_text, read_again, reload, standing, taken, taken_slowly,
};
use crate::servers::server_of;
use case_rows::{Case, CaseFault, word_text};
use std::alloc::Global;
use tpf_server::{Connection, Server};

/// Whether the text is pending, before anything is taken.
fn is_pending(server: &Server, connection: &mut Connection, text: &str) -> Result<bool, CaseFault> {
    let _ = fill(server, connection)?;
    Ok(pending_text(connection).contains(text))
}

/// The numbers of a text, with a blank between each two.
fn numbers_of(alloc: Global, text: &str) -> Result<Vec<usize>, CaseFault> {
    let mut numbers = Vec::new(alloc);
    for word in text.split(' ') {
        match word.parse::<usize>() {
            Ok(number) => numbers.push(number)?,
            Err(_) => return Err(CaseFault::Row),
        }
    }
    Ok(numbers)
}

/// Whether three numbers of a text lie so: the first below the most bytes that are pending, the second above it, and
/// the third below the number of all bytes that are taken.
fn is_slow(
    alloc: Global,
    server: &Server,
    connection: &mut Connection,
    text: &str,
) -> Result<bool, CaseFault> {
    let (most, all) = taken_slowly(server, connection)?;
    let numbers = numbers_of(alloc, text)?;
    match numbers.as_slice() {
        [below, above, least] => Ok(*below < most && most < *above && *least < all),
        _ => Err(CaseFault::Row),
    }
}

/// Whether a text stands as often in what is pending as a number in front of it says.
fn stands_so_often(
    server: &Server,
    connection: &mut Connection,
    text: &str,
) -> Result<bool, CaseFault> {
    let Some((number, part)) = text.split_once(' ') else {
        return Err(CaseFault::Row);
    };
    let _ = fill(server, connection)?;
    let times = pending_text(connection)
        .split(part)
        .count()
        .saturating_sub(1);
    Ok(number.parse::<usize>().unwrap_or(usize::MAX) == times)
}

/// Whether so many bytes are owed, which are taken.
fn is_owed(
    alloc: Global,
    server: &Server,
    connection: &mut Connection,
    count: usize,
) -> Result<bool, CaseFault> {
    let found = taken(alloc, server, connection, count)?;
    Ok(found.len() == count)
}

/// Whether the text stands in all that is owed, which is taken.
fn is_in_rest(
    alloc: Global,
    server: &Server,
    connection: &mut Connection,
    text: &str,
) -> Result<bool, CaseFault> {
    let found = taken(alloc, server, connection, 10000000)?;
    Ok(found.as_str().contains(text))
}

/// Whether what a step says of what is owed is so.
fn is_so(
    alloc: Global,
    server: &Server,
    connection: &mut Connection,
    mark: &str,
    text: &str,
) -> Result<bool, CaseFault> {
    match mark {
        "~" => is_pending(server, connection, text),
        "lacks" => Ok(!is_pending(server, connection, text)?),
        "times" => stands_so_often(server, connection, text),
        "slowly" => is_slow(alloc, server, connection, text),
        "skip" => is_owed(
            alloc,
            server,
            connection,
            text.parse::<usize>().unwrap_or(0),
        ),
        "rest" => is_in_rest(alloc, server, connection, text),
        "empty" => Ok(!is_owed(alloc, server, connection, 1)?),
        _ => Ok(mark == standing(connection)),
    }
}

/// As many bytes as the text has, which are taken, where they differ from it.
fn other_than(
    alloc: Global,
    server: &Server,
    connection: &mut Connection,
    text: &str,
) -> Result<Option<String>, CaseFault> {
    let found = taken(alloc, server, connection, text.len())?;
    if found.as_str() == text {
        return Ok(None);
    }
    Ok(Some(found))
}

/// What a step that looks at what is owed finds in place of what it says, if it differs.
fn look(
    alloc: Global,
    server: &Server,
    connection: &mut Connection,
    mark: &str,
    text: &str,
) -> Result<Option<String>, CaseFault> {
    if mark == "<" {
        return other_than(alloc, server, connection, text);
    }
    if is_so(alloc, server, connection, mark, text)? {
        return Ok(None);
    }
    Ok(Some(word_text(alloc, standing(connection))?))
}

/// Takes a step, and tells what differs, if anything does.
fn step(
    alloc: Global,
    server: &mut Server,
    connection: &mut Connection,
    mark: &str,
    text: &str,
    length: usize,
) -> Result<Option<String>, CaseFault> {
    match mark {
        ">" => feed(server, connection, text.as_bytes(), length)?,
        "reload" => reload(alloc, server, connection, text)?,
        "new" => read_again(alloc, server, text)?,
        _ => return look(alloc, server, connection, mark, text),
    }
    Ok(None)
}

/// What differs in the step with this number.
fn step_text(alloc: Global, number: u64, mark: &str, found: &str) -> Result<String, CaseFault> {
    Ok(format!(in alloc; "step {number}, {mark}: {found}")?)
}

/// Takes the step with this number, a mark and a text, and tells what differs, if anything does.
fn told_step(
    alloc: Global,
    server: &mut Server,
    connection: &mut Connection,
    pair: &[String],
    number: u64,
    length: usize,
) -> Result<Option<String>, CaseFault> {
    let [mark, text] = pair else {
        return Err(CaseFault::Row);
    };
    let (mark, text) = (mark.as_str(), text.as_str());
    match step(alloc, server, connection, mark, text, length)? {
        Some(found) => Ok(Some(step_text(alloc, number, mark, found.as_str())?)),
        None => Ok(None),
    }
}

/// A conversation over one connection.
#[derive(Clone, Copy)]
struct Scene<'a> {
    data: &'a str,
    page: u64,
    reads_rows: bool,
    /// The marks and the texts of the steps.
    steps: &'a [String],
}

/// What differs first over a connection.
fn differs_over(
    alloc: Global,
    server: &mut Server,
    connection: &mut Connection,
    steps: &[String],
    length: usize,
) -> Result<Option<String>, CaseFault> {
    let mut number = 0u64;
    for pair in steps.chunks(2) {
        number = number.saturating_add(1);
        let told = told_step(alloc, server, connection, pair, number, length)?;
        if told.is_some() {
            return Ok(told);
        }
    }
    Ok(None)
}

/// What differs first over a new connection to a server.
fn differs_with(
    alloc: Global,
    server: &mut Server,
    steps: &[String],
    length: usize,
) -> Result<Option<String>, CaseFault> {
    let mut connection = Connection::new(alloc);
    differs_over(alloc, server, &mut connection, steps, length)
}

/// What differs first, where what is fed comes in pieces of a length.
fn differs(alloc: Global, scene: &Scene<'_>, length: usize) -> Result<Option<String>, CaseFault> {
    let mut server = server_of(alloc, scene.data, scene.page, scene.reads_rows)?;
    differs_with(alloc, &mut server, scene.steps, length)
}

/// What differs first, where what is fed comes whole or byte by byte.
fn told_of(alloc: Global, scene: &Scene<'_>) -> Result<String, CaseFault> {
    if let Some(found) = differs(alloc, scene, usize::MAX)? {
        return Ok(found);
    }
    match differs(alloc, scene, 1)? {
        Some(found) => Ok(found),
        None => word_text(alloc, "as told"),
    }
}

/// `data`, `page`, `rows` if rows are read, `steps`: `as told`, or the first step that differs, where what is fed comes
/// whole and byte by byte. A step is a mark and a text. `>` feeds the text; `<` takes as many bytes as the text has,
/// which are these; `skip` takes so many bytes, and `rest` all that is owed, where the text stands; with `~` the text
/// stands in what is pending, which it `lacks`, or where it stands so many `times` as a number says; `slowly` takes all
/// a thousand bytes at a time. `reload` gives the outcome of the reload that is waited for, `failed`, `memory` or the
/// data of the next version, and `new` the next version without one. `open`, `owes`, `waits` and `ended` say how the
/// connection stands, and `empty` that nothing is pending.
pub fn conversation(alloc: Global, case: &mut Case<'_>) -> Result<String, CaseFault> {
    let page = case.number("page")?;
    let reads_rows = case.flag("rows")?;
    let data = case.text(alloc, "data")?;
    let steps = case.texts(alloc, "steps")?;
    let scene = Scene {
        data: data.as_str(),
        page,
        reads_rows,
        steps: steps.as_slice(),
    };
    told_of(alloc, &scene)
}
