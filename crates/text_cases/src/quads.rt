// N-Quads text.
use case_rows::{Case, CaseFault, debug_text, text_of_bytes};
use nquads_text::{TextFault, read_all, write_quad};
use quad_feed::QuadFeed;
use rdf_terms::{LONGEST_TERM, Quad};
use std::alloc::Global;

/// Whether the copy of a quad is the same quad.
fn is_copied(alloc: Global, quad: &Quad) -> Result<bool, CaseFault> {
    match quad.copy(alloc) {
        Ok(copy) => {
            let is_same = copy == *quad;
            drop(copy);
            Ok(is_same)
        }
        Err(_) => Err(CaseFault::OutOfMemory),
    }
}

/// Appends the line of a quad, whose copy is the same quad.
fn push_line(alloc: Global, quad: &Quad, out: &mut Vec<u8>) -> Result<(), CaseFault> {
    if !is_copied(alloc, quad)? {
        return Err(CaseFault::Differs);
    }
    match write_quad(quad, out) {
        Ok(()) => Ok(()),
        Err(_) => Err(CaseFault::OutOfMemory),
    }
}

/// The lines of quads. Each quad's copy is the same quad.
fn lines(alloc: Global, quads: &[Quad]) -> Result<String, CaseFault> {
    let mut out = Vec::new(alloc);
    for quad in quads {
        push_line(alloc, quad, &mut out)?;
    }
    text_of_bytes(out)
}

/// The canonical lines of a text that was read, or its fault.
fn outcome(alloc: Global, read: Result<Vec<Quad>, TextFault>) -> Result<String, CaseFault> {
    match read {
        Ok(quads) => lines(alloc, quads.as_slice()),
        Err(TextFault::OutOfMemory) => Err(CaseFault::OutOfMemory),
        Err(fault) => debug_text(alloc, &fault),
    }
}

/// What a text reads as that comes in two pieces.
fn cut(alloc: Global, front: &[u8], back: &[u8], longest: usize) -> Result<Vec<Quad>, TextFault> {
    let mut feed = QuadFeed::new(alloc, longest);
    feed.feed(front)?;
    feed.feed(back)?;
    feed.finish()
}

/// What a text reads as that comes in pieces of a length.
fn in_pieces(
    alloc: Global,
    text: &[u8],
    length: usize,
    longest: usize,
) -> Result<Vec<Quad>, TextFault> {
    let mut feed = QuadFeed::new(alloc, longest);
    for piece in text.chunks(length.max(1)) {
        feed.feed(piece)?;
    }
    feed.finish()
}

/// Fails where a text reads otherwise.
fn reads_as(
    alloc: Global,
    read: Result<Vec<Quad>, TextFault>,
    wanted: &str,
) -> Result<(), CaseFault> {
    let found = outcome(alloc, read)?;
    if found.as_str() == wanted {
        Ok(())
    } else {
        Err(CaseFault::Differs)
    }
}

/// Fails where a cut at some place, or pieces of one byte, change what a text reads as.
fn cuts_agree(alloc: Global, text: &[u8], longest: usize, wanted: &str) -> Result<(), CaseFault> {
    for at in 0..text.len() {
        let (front, back) = text.split_at(at);
        reads_as(alloc, cut(alloc, front, back, longest), wanted)?;
    }
    reads_as(alloc, in_pieces(alloc, text, 1, longest), wanted)
}

/// What a text reads as, and whether it is read.
#[derive(Drop)]
struct Whole {
    text: String,
    is_read: bool,
}

/// What a text reads as that comes whole.
fn whole_of(alloc: Global, text: &[u8], longest: usize) -> Result<Whole, CaseFault> {
    let read = read_all(alloc, text, longest);
    let is_read = read.is_ok();
    let text = outcome(alloc, read)?;
    Ok(Whole { text, is_read })
}

/// Fails where a text reads otherwise over some cut in two or byte by byte, or canonical lines not as themselves.
fn agrees(alloc: Global, text: &[u8], longest: usize, whole: &Whole) -> Result<(), CaseFault> {
    let wanted = whole.text.as_str();
    cuts_agree(alloc, text, longest, wanted)?;
    if !whole.is_read {
        return Ok(());
    }
    reads_as(alloc, read_all(alloc, wanted.as_bytes(), longest), wanted)
}

/// Fails where a text or its canonical lines read otherwise in pieces of a length.
fn agrees_by(
    alloc: Global,
    text: &[u8],
    by: usize,
    longest: usize,
    wanted: &str,
) -> Result<(), CaseFault> {
    reads_as(alloc, in_pieces(alloc, text, by, longest), wanted)?;
    let lines = wanted.as_bytes();
    reads_as(alloc, in_pieces(alloc, lines, by, longest), wanted)
}

/// What a text reads as, whole and in pieces.
fn agreed(
    alloc: Global,
    text: &[u8],
    longest: usize,
    by: Option<u64>,
) -> Result<String, CaseFault> {
    let whole = whole_of(alloc, text, longest)?;
    match by {
        Some(by) => agrees_by(alloc, text, by as usize, longest, whole.text.as_str())?,
        None => agrees(alloc, text, longest, &whole)?,
    }
    Ok(whole.text)
}

/// `text`, `longest`, `by`: the canonical lines of a text, or its fault. It is the same over every cut in two and byte
/// by byte; with `by`, in pieces of this length alone. Canonical lines read as themselves. Without `longest`, terms may
/// have `LONGEST_TERM` bytes.
pub fn nquads(alloc: Global, case: &mut Case<'_>) -> Result<String, CaseFault> {
    let longest = case.number_if("longest")?.unwrap_or(LONGEST_TERM as u64);
    let by = case.number_if("by")?;
    let text = case.bytes(alloc, "text")?;
    agreed(alloc, text.as_slice(), longest as usize, by)
}

/// Appends the answer to a piece that is fed.
fn push_answer(
    alloc: Global,
    feed: &mut QuadFeed,
    piece: &[u8],
    out: &mut String,
) -> Result<(), CaseFault> {
    let answer = feed.feed(piece);
    let answer = format!(in alloc; "{answer:?}, ")?;
    Ok(out.push_str(answer.as_str())?)
}

/// The answers to pieces that are fed.
fn answers_text(
    alloc: Global,
    feed: &mut QuadFeed,
    pieces: &[Vec<u8>],
) -> Result<String, CaseFault> {
    let mut out = String::new(alloc);
    for piece in pieces {
        push_answer(alloc, feed, piece.as_slice(), &mut out)?;
    }
    Ok(out)
}

/// What is answered to each piece that is fed, and then at the end.
fn fed(alloc: Global, pieces: &[Vec<u8>]) -> Result<String, CaseFault> {
    let mut feed = QuadFeed::new(alloc, LONGEST_TERM);
    let mut out = answers_text(alloc, &mut feed, pieces)?;
    let end = outcome(alloc, feed.finish())?;
    out.push_str(end.as_str())?;
    Ok(out)
}

/// `pieces`: what is answered to each piece that is fed, and then at the end.
pub fn feed(alloc: Global, case: &mut Case<'_>) -> Result<String, CaseFault> {
    let pieces = case.pieces(alloc, "pieces")?;
    fed(alloc, pieces.as_slice())
}
