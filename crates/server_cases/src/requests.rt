// Requests read over any cuts, and what is written.
use case_rows::{Case, CaseFault, bytes_text, push_number};
use http::StatusCode;
use http_wire::{Asked, Field, NextHead, RequestFeed, RequestHead, write_head, write_request};
use std::alloc::Global;
use text_base::Text;

/// Appends the method and the target of a head, and a mark where the connection closes.
fn push_head(head: &RequestHead, out: &mut String) -> Result<(), CaseFault> {
    out.push_str(match head.method {
        Asked::Get => "G ",
        Asked::Head => "H ",
        Asked::Other => "O ",
    })?;
    out.push_str(head.target.as_str())?;
    Ok(out.push_str(if head.closes { " closes;" } else { ";" })?)
}

/// Appends an answer, and says whether there may be another.
fn push_answer(alloc: Global, answer: &NextHead, out: &mut String) -> Result<bool, CaseFault> {
    match answer {
        NextHead::More => Ok(false),
        NextHead::Bad(status) => {
            push_number(alloc, *status as u64, out)?;
            Ok(false)
        }
        NextHead::Head(head) => {
            push_head(head, out)?;
            Ok(true)
        }
    }
}

/// Appends the next answer of a feed, and says whether there may be another.
fn push_next(alloc: Global, feed: &mut RequestFeed, out: &mut String) -> Result<bool, CaseFault> {
    match feed.next() {
        Ok(answer) => push_answer(alloc, &answer, out),
        Err(_) => Err(CaseFault::OutOfMemory),
    }
}

/// Appends the answers to a piece.
fn feed_piece(
    alloc: Global,
    feed: &mut RequestFeed,
    piece: &[u8],
    out: &mut String,
) -> Result<(), CaseFault> {
    if feed.feed(piece).is_err() {
        return Err(CaseFault::OutOfMemory);
    }
    for _ in 0..piece.len() {
        if !push_next(alloc, feed, out)? {
            break;
        }
    }
    Ok(())
}

/// Appends the answers where the bytes come in pieces of a length.
fn feed_pieces(
    alloc: Global,
    feed: &mut RequestFeed,
    bytes: &[u8],
    length: usize,
    out: &mut String,
) -> Result<(), CaseFault> {
    for piece in bytes.chunks(length.max(1)) {
        feed_piece(alloc, feed, piece, out)?;
    }
    Ok(())
}

/// The answers where the bytes come in pieces of a length.
fn in_pieces(alloc: Global, bytes: &[u8], length: usize) -> Result<String, CaseFault> {
    let mut feed = RequestFeed::new(alloc);
    let mut out = String::new(alloc);
    feed_pieces(alloc, &mut feed, bytes, length, &mut out)?;
    Ok(out)
}

/// The answers where the bytes come in two pieces.
fn cut_at(alloc: Global, bytes: &[u8], at: usize) -> Result<String, CaseFault> {
    let (front, back) = bytes.split_at(at.min(bytes.len()));
    let mut feed = RequestFeed::new(alloc);
    let mut out = String::new(alloc);
    feed_piece(alloc, &mut feed, front, &mut out)?;
    feed_piece(alloc, &mut feed, back, &mut out)?;
    Ok(out)
}

/// Fails where a cut at this place gives other answers.
fn agrees(alloc: Global, bytes: &[u8], at: usize, answer: &str) -> Result<(), CaseFault> {
    let other = cut_at(alloc, bytes, at)?;
    if other.as_str() == answer {
        Ok(())
    } else {
        Err(CaseFault::Differs)
    }
}

/// The answers, which are the same where the bytes come one by one and cut at every place.
fn agreed(alloc: Global, bytes: &[u8]) -> Result<String, CaseFault> {
    let answer = in_pieces(alloc, bytes, 1)?;
    for at in 0..=bytes.len() {
        agrees(alloc, bytes, at, answer.as_str())?;
    }
    Ok(answer)
}

/// `bytes`: the answers, which are the same where the bytes come one by one and cut at every place. With `by` they come
/// in pieces of this length alone.
pub fn requests(alloc: Global, case: &mut Case<'_>) -> Result<String, CaseFault> {
    let by = case.number_if("by")?;
    let bytes = case.bytes(alloc, "bytes")?;
    match by {
        Some(by) => in_pieces(alloc, bytes.as_slice(), by as usize),
        None => agreed(alloc, bytes.as_slice()),
    }
}

/// Appends how many bytes are held after a piece, the answer to it, and how many are held then.
fn push_held(
    alloc: Global,
    feed: &mut RequestFeed,
    piece: &str,
    out: &mut String,
) -> Result<(), CaseFault> {
    if feed.feed(piece.as_bytes()).is_err() {
        return Err(CaseFault::OutOfMemory);
    }
    push_number(alloc, feed.held() as u64, out)?;
    out.push(' ')?;
    let _ = push_next(alloc, feed, out)?;
    out.push(' ')?;
    push_number(alloc, feed.held() as u64, out)?;
    Ok(out.push('\n')?)
}

/// The same of pieces.
fn held_lines(alloc: Global, pieces: &[String]) -> Result<String, CaseFault> {
    let mut feed = RequestFeed::new(alloc);
    let mut out = String::new(alloc);
    for piece in pieces {
        push_held(alloc, &mut feed, piece.as_str(), &mut out)?;
    }
    Ok(out)
}

/// `pieces`: how many bytes are held after each, and after the answer to it.
pub fn held(alloc: Global, case: &mut Case<'_>) -> Result<String, CaseFault> {
    let pieces = case.texts(alloc, "pieces")?;
    held_lines(alloc, pieces.as_slice())
}

/// The request for a target.
fn request_text(alloc: Global, authority: &str, target: &str) -> Result<String, CaseFault> {
    let mut out = Vec::new(alloc);
    match write_request(authority, target, &mut out) {
        Ok(()) => bytes_text(alloc, out.as_slice()),
        Err(_) => Err(CaseFault::OutOfMemory),
    }
}

/// `authority`, `target`: the request that is written.
pub fn written_request(alloc: Global, case: &mut Case<'_>) -> Result<String, CaseFault> {
    let authority = case.text(alloc, "authority")?;
    let target = case.text(alloc, "target")?;
    request_text(alloc, authority.as_str(), target.as_str())
}

/// `status`: a status.
fn status_of(case: &mut Case<'_>) -> Result<StatusCode, CaseFault> {
    let number = u16::try_from(case.number("status")?).unwrap_or(0);
    match StatusCode::from_u16(number) {
        Ok(status) => Ok(status),
        Err(_) => Err(CaseFault::Row),
    }
}

/// `name`, `value`: a field.
fn field_of(alloc: Global, case: &mut Case<'_>) -> Result<Field, CaseFault> {
    let name = case.text(alloc, "name")?;
    let value = case.text(alloc, "value")?;
    Ok(Field {
        name: Text::from_string(name),
        value: Text::from_string(value),
    })
}

/// `name`, `value`: fields, of which there is one.
fn fields_of(alloc: Global, case: &mut Case<'_>) -> Result<Vec<Field>, CaseFault> {
    let field = field_of(alloc, case)?;
    let mut fields = Vec::new(alloc);
    fields.push(field)?;
    Ok(fields)
}

/// What is written of a head behind a byte.
fn head_text(alloc: Global, status: StatusCode, fields: &[Field]) -> Result<String, CaseFault> {
    let mut out = vec![in alloc; b'>']?;
    let phrase = status.canonical_reason().unwrap_or("");
    match write_head(status.as_str(), phrase, fields, &mut out) {
        Ok(()) => bytes_text(alloc, out.as_slice()),
        Err(_) => Err(CaseFault::OutOfMemory),
    }
}

/// `status`, the `name` and the `value` of a field: what is written behind a byte.
pub fn written_head(alloc: Global, case: &mut Case<'_>) -> Result<String, CaseFault> {
    let status = status_of(case)?;
    let fields = fields_of(alloc, case)?;
    head_text(alloc, status, fields.as_slice())
}
