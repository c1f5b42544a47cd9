// What is seen of programs and on connections, as it is printed.

use std::process::Output;
use std::rt::Files;
use std::{fs, io, str};

/// What a whole answer to a query ends with.
const END_OF_ANSWER: &[u8] = b"]}}\n";

/// Prints rows, each on a line of its own.
fn show_each<R: Print>(rt: &R, rows: &[&str]) -> io::Result<()> {
    for row in rows {
        println!(rt; "{row}")?;
    }
    Ok(())
}

/// Prints what stands between the braces of rows, each on a line of its own, sorted, since a query says
/// nothing of the order of its rows.
fn show_rows<R: Print + AllocGlobal>(rt: &R, rows: &str) -> io::Result<()> {
    let mut sorted: Vec<&str> = rows.split("},{").collect(rt.alloc())?;
    sorted.sort_unstable();
    show_each(rt, &sorted)
}

/// Prints an answer with rows, each row on a line of its own.
fn show<R: Print + AllocGlobal>(rt: &R, answer: &[u8]) -> io::Result<()> {
    let Ok(text) = str::from_utf8(answer) else {
        return Err(io::Error::other("the answer is no text"));
    };
    let Some((head, rest)) = text.split_once("[{") else {
        return Err(io::Error::other("the answer has no row"));
    };
    let Some((rows, end)) = rest.rsplit_once("}]") else {
        return Err(io::Error::other("the answer breaks off"));
    };
    println!(rt; "{head}")?;
    show_rows(rt, rows)?;
    print!(rt; "{end}")
}

/// Prints how a program ended and what it said. It is a fault where the status is not the one that is
/// wanted, so that nobody waits for what does not come. The text is what the program is called, and that status.
fn tell<R: Print>(rt: &R, ended: &Output, text: &str) -> io::Result<()> {
    let Some((who, wanted)) = text.split_once(' ') else {
        return Err(io::Error::other("no status is wanted"));
    };
    let code = ended.status.code();
    match code {
        Some(number) => println!(rt; "{who}: status {number}")?,
        None => println!(rt; "{who}: ended by a signal")?,
    }
    rt.write_all(ended.stderr.as_slice())?;
    if code == Some(wanted.parse::<i32>().unwrap_or(i32::MAX)) {
        Ok(())
    } else {
        Err(io::Error::other("a program ended with another status"))
    }
}

/// Prints whether an answer is whole.
fn tell_whether_whole<R: Print>(rt: &R, ended: &Output) -> io::Result<()> {
    let whole = if ended.stdout.as_slice().ends_with(END_OF_ANSWER) {
        "is whole"
    } else {
        "breaks off"
    };
    println!(rt; "the answer {whole}")
}

/// Shows what a program wrote, or how it ended.
fn show_ended<R: Files + Print + AllocGlobal>(
    rt: &R,
    ended: &Output,
    verb: &str,
    text: &str,
) -> io::Result<()> {
    match verb {
        "status" => tell(rt, ended, text),
        "rows" => show(rt, ended.stdout.as_slice()),
        "output" => {
            rt.write_all(ended.stdout.as_slice())?;
            println!(rt; "")
        }
        "ending" => tell_whether_whole(rt, ended),
        "keep" => fs::write(rt, text, &ended.stdout),
        _ => Err(io::Error::other("no step has this verb")),
    }
}

/// Prints the first line of an answer.
fn tell_first<R: Print>(rt: &R, who: &str, answer: &str) -> io::Result<()> {
    let line = match answer.split_once("\r\n") {
        Some((line, _)) => line,
        None => "no head",
    };
    println!(rt; "{who}: {line}")
}

/// Prints the body of an answer.
fn tell_body<R: Print>(rt: &R, who: &str, answer: &str) -> io::Result<()> {
    match answer.split_once("\r\n\r\n") {
        Some((_, body)) => print!(rt; "{who}: {body}"),
        None => Err(io::Error::other("the answer has no body")),
    }
}

/// How many of the lines stand in an answer, in their order.
fn count_lines(lines: &str, answer: &str) -> usize {
    let mut wanted = lines.lines();
    let mut next = wanted.next();
    let mut count: usize = 0;
    for line in answer.lines() {
        if next == Some(line) {
            count = count.saturating_add(1);
            next = wanted.next();
        }
    }
    count
}

/// Prints how many lines of a file stand in an answer, in their order.
fn tell_lines<R: Files + Print + AllocGlobal>(rt: &R, file: &str, answer: &str) -> io::Result<()> {
    let lines = fs::read_to_string(rt, file)?;
    let count = count_lines(lines.as_str(), answer);
    println!(rt; "lines of the data: {count}")
}

/// Shows what was read last on a connection, or of the program that ended last.
pub fn show_step<R: Files + Print + AllocGlobal>(
    rt: &R,
    ended: &Option<Output>,
    answer: &str,
    verb: &str,
    text: &str,
) -> io::Result<()> {
    match verb {
        "first" => tell_first(rt, text, answer),
        "body" => tell_body(rt, text, answer),
        "lines" => tell_lines(rt, text, answer),
        _ => match ended {
            Some(ended) => show_ended(rt, ended, verb, text),
            None => Err(io::Error::other("no program has ended")),
        },
    }
}
