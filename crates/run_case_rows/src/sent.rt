// What was sent on the links of wires.
use case_rows::{CaseFault, push_number};
use std::alloc::Global;
use std::str;

/// What stands behind the bytes of each link.
const END: &str = "\0\r\n";

/// Appends what was sent on a link, and a mark of its end.
pub fn push_sent(out: &mut String, bytes: &[u8]) -> Result<(), CaseFault> {
    match str::from_utf8(bytes) {
        Ok(text) => {
            out.push_str(text)?;
            Ok(out.push_str(END)?)
        }
        Err(_) => Err(CaseFault::Row),
    }
}

/// The target of a request that begins with this line.
fn target_of(line: &str) -> Option<&str> {
    match line.strip_prefix("GET ") {
        Some(rest) => rest.strip_suffix(" HTTP/1.1"),
        None => None,
    }
}

/// The targets of the requests that were sent, in the order of their links.
fn targets_of<'a>(alloc: Global, sent: &'a str) -> Result<Vec<&'a str>, CaseFault> {
    let mut targets = Vec::new(alloc);
    for line in sent.split("\r\n") {
        if let Some(target) = target_of(line) {
            targets.push(target)?;
        }
    }
    Ok(targets)
}

/// The targets of the requests that were sent, with a blank between each two: the first one, and the others in the
/// order of their bytes.
pub fn targets_in(alloc: Global, sent: &str) -> Result<String, CaseFault> {
    let mut targets = targets_of(alloc, sent)?;
    if targets.len() > 1 {
        targets[1..].sort_unstable();
    }
    Ok(targets.as_slice().join(alloc, " ")?)
}

/// Which of two texts stands first.
fn order_of(text: &str, one: &str, other: &str) -> &'static str {
    match (text.find(one), text.find(other)) {
        (Some(first), Some(second)) => {
            if first < second {
                "in this order"
            } else {
                "in the other order"
            }
        }
        _ => "not both",
    }
}

/// Which of two texts was sent first, and nothing where there are no two.
pub fn order_in(sent: &str, texts: &[String]) -> &'static str {
    match texts {
        [one, other] => order_of(sent, one.as_str(), other.as_str()),
        _ => "",
    }
}

/// What stands in a text between two others.
fn between<'a>(text: &'a str, front: &str, end: &str) -> Option<&'a str> {
    let Some((_, rest)) = text.split_once(front) else {
        return None;
    };
    match rest.split_once(end) {
        Some((part, _)) => Some(part),
        None => None,
    }
}

/// Appends texts one behind the other.
fn push_texts(texts: &[&str], out: &mut String) -> Result<(), CaseFault> {
    for text in texts {
        out.push_str(text)?;
    }
    Ok(())
}

/// Appends an answer: its status, and of a page its count and its version, else the text of its body.
fn push_parts(head: &str, body: &str, out: &mut String) -> Result<(), CaseFault> {
    let status = head.split_once(' ').unwrap_or((head, "")).0;
    let count = between(body, "totalItems> \"", "\"");
    let version = between(body, "versionInfo> \"", "\"");
    match (count, version) {
        (Some(count), Some(version)) => {
            push_texts(&[status, " count ", count, " version ", version], out)
        }
        _ => push_texts(&[status, " ", body.trim_end()], out),
    }
}

/// How often a text stands in another.
pub fn times(text: &str, part: &str) -> usize {
    text.split(part).count().saturating_sub(1)
}

/// Whether an answer has no body, or one of the length that its head tells.
fn is_whole(answer: &str, body: &str) -> bool {
    let length = between(answer, "Content-Length: ", "\r\n").unwrap_or("");
    body.is_empty() || length.parse::<usize>().unwrap_or(usize::MAX) == body.len()
}

/// Appends how many triples with this text a page has, and whether an answer ends its connection.
fn push_rest(
    alloc: Global,
    head: &str,
    body: &str,
    triple: &str,
    out: &mut String,
) -> Result<(), CaseFault> {
    if body.contains("totalItems> ") {
        out.push_str(" triples ")?;
        push_number(alloc, times(body, triple) as u64, out)?;
    }
    let closes = head.contains("Connection: close");
    Ok(out.push_str(if closes { " closes" } else { "" })?)
}

/// Appends an answer, which is whole where there is a text of triples, with the rest of what is to be shown of it.
fn push_answer(
    alloc: Global,
    answer: &str,
    triple: &Option<String>,
    out: &mut String,
) -> Result<(), CaseFault> {
    let Some((head, body)) = answer.split_once("\r\n\r\n") else {
        return Err(CaseFault::Row);
    };
    push_parts(head, body, out)?;
    let Some(triple) = triple else {
        return Ok(());
    };
    if !is_whole(answer, body) {
        return Err(CaseFault::Differs);
    }
    push_rest(alloc, head, body, triple.as_str(), out)
}

/// Appends the answers on a link, with a comma between each two.
fn push_answers(
    alloc: Global,
    text: &str,
    triple: &Option<String>,
    out: &mut String,
) -> Result<(), CaseFault> {
    for (i, answer) in text.split("HTTP/1.1 ").skip(1).enumerate() {
        out.push_str(if i == 0 { "" } else { ", " })?;
        push_answer(alloc, answer, triple, out)?;
    }
    Ok(())
}

/// Appends the answers on a link, in brackets.
fn push_link(
    alloc: Global,
    text: &str,
    triple: &Option<String>,
    out: &mut String,
) -> Result<(), CaseFault> {
    out.push('[')?;
    push_answers(alloc, text, triple, out)?;
    Ok(out.push(']')?)
}

/// Appends the answers on each link, in brackets; those of a link on which nothing was sent only where there is a text
/// of triples.
fn push_links(
    alloc: Global,
    links: &str,
    triple: &Option<String>,
    out: &mut String,
) -> Result<(), CaseFault> {
    for text in links.split(END) {
        if triple.is_some() || !text.is_empty() {
            push_link(alloc, text, triple, out)?;
        }
    }
    Ok(())
}

/// The answers on each link, which stand in brackets; where there is a text of triples, with the rest that it asks for.
pub fn answers_in(alloc: Global, sent: &str, triple: &Option<String>) -> Result<String, CaseFault> {
    let mut out = String::new(alloc);
    if let Some(links) = sent.strip_suffix(END) {
        push_links(alloc, links, triple, &mut out)?;
    }
    Ok(out)
}
