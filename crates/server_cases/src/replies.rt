// Replies read over any cuts.
use case_rows::{Case, CaseFault, number_text, word_text};
use http_wire::{Fed, Reply, ReplyFault, ReplyFeed};
use std::alloc::Global;
use std::str;

/// A refusal as a text.
fn fault_text(alloc: Global, fault: ReplyFault) -> Result<String, CaseFault> {
    match fault {
        ReplyFault::Head => word_text(alloc, "head"),
        ReplyFault::Status(status) => number_text(alloc, status as u64),
        ReplyFault::MediaType => word_text(alloc, "type"),
        ReplyFault::Coding => word_text(alloc, "coding"),
        ReplyFault::Framing => word_text(alloc, "framing"),
        ReplyFault::TooLong => word_text(alloc, "long"),
    }
}

/// Appends the two digits of a byte.
fn push_digits(alloc: Global, byte: u8, digits: &mut String) -> Result<(), CaseFault> {
    let pair = format!(in alloc; "{byte:02x}")?;
    Ok(digits.push_str(pair.as_str())?)
}

/// Bytes by two digits each.
fn digits_text(alloc: Global, bytes: &[u8]) -> Result<String, CaseFault> {
    let mut digits = word_text(alloc, "hex ")?;
    for byte in bytes {
        push_digits(alloc, *byte, &mut digits)?;
    }
    Ok(digits)
}

/// Bytes as a text, and those that are no UTF-8 by two digits each.
fn shown_bytes(alloc: Global, bytes: &[u8]) -> Result<String, CaseFault> {
    match str::from_utf8(bytes) {
        Ok(text) => word_text(alloc, text),
        Err(_) => digits_text(alloc, bytes),
    }
}

/// Two texts with a blank between them.
fn pair_text(alloc: Global, one: &str, other: &str) -> Result<String, CaseFault> {
    Ok(format!(in alloc; "{one} {other}")?)
}

/// A reply as a text: its body, and whether the connection may be kept.
fn reply_text(alloc: Global, reply: &Reply) -> Result<String, CaseFault> {
    let body = shown_bytes(alloc, reply.body.as_slice())?;
    pair_text(
        alloc,
        body.as_str(),
        if reply.keeps { "keeps" } else { "ends" },
    )
}

/// An answer as a text, with the number of bytes that belong to the reply.
fn fed_text(alloc: Global, answer: Fed, read: usize) -> Result<String, CaseFault> {
    match answer {
        Fed::More => word_text(alloc, "more"),
        Fed::Bad(fault) => fault_text(alloc, fault),
        Fed::Done { used } => number_text(alloc, read.saturating_add(used) as u64),
    }
}

/// An answer, and a whole reply.
fn whole_text(alloc: Global, answer: Fed, read: usize, reply: &Reply) -> Result<String, CaseFault> {
    let text = fed_text(alloc, answer, read)?;
    let told = reply_text(alloc, reply)?;
    pair_text(alloc, text.as_str(), told.as_str())
}

/// The answer, and the reply where it is whole.
fn told(alloc: Global, feed: ReplyFeed, answer: Fed, read: usize) -> Result<String, CaseFault> {
    match feed.take() {
        Some(reply) => whole_text(alloc, answer, read, &reply),
        None => fed_text(alloc, answer, read),
    }
}

/// Feeds a piece.
fn feed_piece(feed: &mut ReplyFeed, piece: &[u8]) -> Result<Fed, CaseFault> {
    match feed.feed(piece) {
        Ok(answer) => Ok(answer),
        Err(_) => Err(CaseFault::OutOfMemory),
    }
}

/// What a peer sends: the bytes, the most bytes of a body that are taken, and whether nothing follows.
#[derive(Clone, Copy)]
struct Sent<'a> {
    bytes: &'a [u8],
    limit: u64,
    closes: bool,
}

/// An answer, and how many bytes were fed before the piece to which it is one.
#[derive(Clone, Copy)]
struct Answered {
    answer: Fed,
    read: usize,
}

/// The answer to the end, if nothing follows, once so many bytes were fed.
fn at_end(feed: &mut ReplyFeed, closes: bool, read: usize) -> Answered {
    Answered {
        answer: if closes { feed.end() } else { Fed::More },
        read,
    }
}

/// The last answer where the bytes come in pieces of a length.
fn feed_pieces(
    feed: &mut ReplyFeed,
    sent: &Sent<'_>,
    length: usize,
) -> Result<Answered, CaseFault> {
    let mut read = 0usize;
    for piece in sent.bytes.chunks(length.max(1)) {
        let answer = feed_piece(feed, piece)?;
        if answer != Fed::More {
            return Ok(Answered { answer, read });
        }
        read = read.saturating_add(piece.len());
    }
    Ok(at_end(feed, sent.closes, read))
}

/// What is told where the bytes come in pieces of a length.
fn in_pieces(alloc: Global, sent: &Sent<'_>, length: usize) -> Result<String, CaseFault> {
    let mut feed = ReplyFeed::new(alloc, sent.limit);
    let last = feed_pieces(&mut feed, sent, length)?;
    told(alloc, feed, last.answer, last.read)
}

/// The last answer where the bytes come in two pieces.
fn feed_cut(feed: &mut ReplyFeed, sent: &Sent<'_>, at: usize) -> Result<Answered, CaseFault> {
    let (front, back) = sent.bytes.split_at(at.min(sent.bytes.len()));
    let answer = feed_piece(feed, front)?;
    if answer != Fed::More {
        return Ok(Answered { answer, read: 0 });
    }
    let read = front.len();
    let answer = feed_piece(feed, back)?;
    if answer != Fed::More {
        return Ok(Answered { answer, read });
    }
    Ok(at_end(feed, sent.closes, sent.bytes.len()))
}

/// What is told where the bytes come in two pieces.
fn cut_at(alloc: Global, sent: &Sent<'_>, at: usize) -> Result<String, CaseFault> {
    let mut feed = ReplyFeed::new(alloc, sent.limit);
    let last = feed_cut(&mut feed, sent, at)?;
    told(alloc, feed, last.answer, last.read)
}

/// Fails where a cut at this place gives another answer.
fn agrees(alloc: Global, sent: &Sent<'_>, at: usize, answer: &str) -> Result<(), CaseFault> {
    let other = cut_at(alloc, sent, at)?;
    if other.as_str() == answer {
        Ok(())
    } else {
        Err(CaseFault::Differs)
    }
}

/// The answer, which is the same where the bytes come one by one and cut at every place.
fn agreed(alloc: Global, sent: &Sent<'_>) -> Result<String, CaseFault> {
    let answer = in_pieces(alloc, sent, 1)?;
    for at in 0..=sent.bytes.len() {
        agrees(alloc, sent, at, answer.as_str())?;
    }
    Ok(answer)
}

/// `bytes`, `limit`, `closes`: the answer, which is the same where the bytes come one by one and cut at every place. With
/// `by` they come in pieces of this length alone.
pub fn reply(alloc: Global, case: &mut Case<'_>) -> Result<String, CaseFault> {
    let limit = case.number("limit")?;
    let closes = case.flag("closes")?;
    let by = case.number_if("by")?;
    let bytes = case.bytes(alloc, "bytes")?;
    let sent = Sent {
        bytes: bytes.as_slice(),
        limit,
        closes,
    };
    match by {
        Some(by) => in_pieces(alloc, &sent, by as usize),
        None => agreed(alloc, &sent),
    }
}

/// Appends a line.
fn push_line(line: &str, out: &mut String) -> Result<(), CaseFault> {
    out.push_str(line)?;
    Ok(out.push('\n')?)
}

/// Appends the answer to a piece.
fn push_fed(
    alloc: Global,
    feed: &mut ReplyFeed,
    piece: &str,
    out: &mut String,
) -> Result<(), CaseFault> {
    let answer = feed_piece(feed, piece.as_bytes())?;
    let text = fed_text(alloc, answer, 0)?;
    push_line(text.as_str(), out)
}

/// The answers to pieces, and what is kept, one a line.
fn fed_lines(alloc: Global, feed: &mut ReplyFeed, pieces: &[String]) -> Result<String, CaseFault> {
    let mut out = String::new(alloc);
    for piece in pieces {
        push_fed(alloc, feed, piece.as_str(), &mut out)?;
    }
    let kept = str::from_utf8(feed.received()).unwrap_or("no text");
    push_line(kept, &mut out)?;
    Ok(out)
}

/// The answer to the end, and the reply.
fn end_text(alloc: Global, feed: ReplyFeed) -> Result<String, CaseFault> {
    let mut feed = feed;
    let answer = feed.end();
    told(alloc, feed, answer, 0)
}

/// The answers to pieces, what is kept, the answer to the end and the reply, one a line.
fn lines_of(alloc: Global, pieces: &[String]) -> Result<String, CaseFault> {
    let mut feed = ReplyFeed::new(alloc, 9);
    let mut out = fed_lines(alloc, &mut feed, pieces)?;
    let end = end_text(alloc, feed)?;
    out.push_str(end.as_str())?;
    Ok(out)
}

/// `pieces`: the answer to each, that to the end, what is kept, and the reply, one a line.
pub fn steps(alloc: Global, case: &mut Case<'_>) -> Result<String, CaseFault> {
    let pieces = case.texts(alloc, "pieces")?;
    lines_of(alloc, pieces.as_slice())
}

/// Feeds pieces.
fn feed_all(feed: &mut ReplyFeed, pieces: &[Vec<u8>]) -> Result<(), CaseFault> {
    for piece in pieces {
        let _ = feed_piece(feed, piece.as_slice())?;
    }
    Ok(())
}

/// The bytes that are kept of pieces.
fn kept_of(alloc: Global, pieces: &[Vec<u8>]) -> Result<ReplyFeed, CaseFault> {
    let mut feed = ReplyFeed::new(alloc, 9);
    feed_all(&mut feed, pieces)?;
    Ok(feed)
}

/// Bytes that are kept, where those that are given back are the same.
fn given_back(alloc: Global, feed: ReplyFeed) -> Result<String, CaseFault> {
    let kept = shown_bytes(alloc, feed.received())?;
    let given = shown_bytes(alloc, feed.into_received().as_slice())?;
    if given.as_str() != kept.as_str() {
        return Err(CaseFault::Differs);
    }
    Ok(kept)
}

/// `pieces`: the bytes that are kept of them, and given back.
pub fn kept(alloc: Global, case: &mut Case<'_>) -> Result<String, CaseFault> {
    let pieces = case.pieces(alloc, "pieces")?;
    given_back(alloc, kept_of(alloc, pieces.as_slice())?)
}
