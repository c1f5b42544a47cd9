// A whole text.
ghost use Rattle.std.specs.Prelude.{ℕ, ◌≡◌, ◌<◌, [], ◌∷◌, ◌++◌, length, All, Option, Some, None, Result, Ok, Err, List, ◌≤◌, ◌+◌, ◌^◌, IfOk, IfSome, OnOk};
ghost use Rattle.std.specs.List.{AllByRecursion};
ghost use Rattle.rdf_terms.specs.Triples.{IsRdfQuad};
ghost use Rattle.nquads_text.specs.Quads.{IsReadable};
ghost use Rattle.rdf_terms.specs.declared.term.Quad.{Quad};
ghost use Rattle.nquads_text.specs.declared.fault.Why.{Why};
ghost use Rattle.nquads_text.specs.Reads.{lines_of, Reads, FirstFault, RefusedFor, IsOkOrMemory, IsBadOrMemory};
ghost use Rattle.nquads_text.specs.Lines.{read_lines, text_read, Gives, AddsLine, line_end, without_lf, after_end};
ghost use Rattle.nquads_text.specs.Line.{line_read};

use crate::fault::TextFault;
use crate::line::{LineFault, line_read};
use memchr::memchr2;
use rdf_terms::Quad;
use std::alloc::Global;
use text_base::OutOfMemory;

/// The place of the first line feed or carriage return (N-Quads, EOL), LF and CR below.
pub fn line_end(bytes: &[u8]) -> Option<usize>
    ensures place { result ≡ line_end 0 bytes.now }
    ensures within { IfSome result (λ n. n < length bytes.now) }
{
    memchr2(b'\n', b'\r', bytes)
}

/// The bytes after an LF at the front, if one stands there.
pub fn without_lf(bytes: &[u8]) -> &[u8]
    ensures rest { result.now ≡ without_lf bytes.now }
    ensures within { length result.now ≤ length bytes.now }
{
    match bytes {
        [b, rest @ ..] if *b == b'\n' => rest,
        _ => bytes,
    }
}

/// The bytes after the line end at the front.
pub fn after_end(bytes: &[u8]) -> &[u8]
    requires { 0 < length bytes.now }
    ensures rest { result.now ≡ after_end bytes.now }
    ensures shorter { length result.now < length bytes.now }
{
    match bytes {
        [] => bytes,
        [b, rest @ ..] => { if *b == b'\r' { without_lf(rest) } else { rest } }
    }
}

/// The first line, and what follows its end.
pub fn next_line(bytes: &[u8]) -> (&[u8], &[u8])
    requires { 0 < length bytes.now }
    ensures lines { lines_of bytes.now ≡ result.0.now ∷ lines_of result.1.now }
    ensures shorter { length result.1.now < length bytes.now }
{
    match line_end(bytes) {
        None => (bytes, &[]),
        Some(n) => {
            let (line, end) = bytes.split_at(n);
            (line, after_end(end))
        }
    }
}

fn add_quad(quads: &mut Vec<Quad>, quad: Quad) -> Result<(), OutOfMemory>
    ensures { OnOk result (quads.new.items ≡ quads.old.items ++ quad ∷ []) }
{
    quads.push(quad)?;
    Ok(())
}

/// Adds the quad of a line, if it has one.
pub fn read_line(
    alloc: Global,
    line: &[u8],
    longest: usize,
    quads: &mut Vec<Quad>,
) -> Result<(), LineFault>
    ensures { AddsLine result (line_read longest line.now) quads.old.items quads.new.items }
{
    match line_read(alloc, line, longest) {
        Ok(None) => Ok(()),
        Ok(Some(quad)) => Ok(add_quad(quads, quad)?),
        Err(fault) => Err(fault),
    }
}

/// These quads and those of the lines from this number on, or the first fault there.
pub fn read_rest(
    alloc: Global,
    longest: usize,
    quads: Vec<Quad>,
    number: u64,
    bytes: &[u8],
) -> Result<Vec<Quad>, TextFault>
    requires { number + length bytes.now < 2 ^ 64 }
    ensures { Gives (λ v. v.items) result (read_lines longest quads.items number (lines_of bytes.now)) }
{
    let mut quads = quads;
    let mut number = number;
    let mut rest = bytes;
    while !rest.is_empty() {
        let (line, after) = next_line(rest);
        match read_line(alloc, line, longest, &mut quads) {
            Err(LineFault::OutOfMemory) => return Err(TextFault::OutOfMemory),
            Err(LineFault::Bad(why)) => return Err(TextFault::Bad { line: number, why }),
            Ok(()) => {}
        }
        rest = after;
        number += 1;
    }
    Ok(quads)
}

#[tactic(auto, unfolding(crate::specs::Lines::text_read))]
fn read_exactly(alloc: Global, bytes: &[u8], longest: usize) -> Result<Vec<Quad>, TextFault>
    ensures { Gives (λ v. v.items) result (text_read longest bytes.now) }
{
    read_rest(alloc, longest, Vec::new(alloc), 1, bytes)
}

/// Reads a whole text (RDF 1.1 N-Quads): its quads in their order. `Bad` tells the first line with a fault and the first
/// fault of that line, in the order of `Why`. A term is too long whose canonical text has more than `longest` bytes.
/// `OutOfMemory` comes only when memory ran out. After a fault nothing of the text is kept.
pub fn read_all(alloc: Global, bytes: &[u8], longest: usize) -> Result<Vec<Quad>, TextFault>
    // What is read.
    ensures read { IfOk result (λ v. Reads bytes.now longest v.items) }
    // Its quads have the classes that RDF allows, and the texts of their terms keep their rules and limits.
    ensures classes { IfOk result (λ v. All IsRdfQuad v.items) }
    ensures readable { IfOk result (λ v. AllByRecursion (IsReadable longest) v.items) }
    // What is refused.
    ensures refused { RefusedFor (FirstFault bytes.now longest) result }
    // It is read or refused exactly so, unless memory runs out.
    ensures only_read { (quads : List Quad) → Reads bytes.now longest quads
        → IsOkOrMemory (λ v. v.items ≡ quads) result }
    ensures only_refused { (line : ℕ) (why : Why) → FirstFault bytes.now longest line why
        → IsBadOrMemory line why result }
{
    read_exactly(alloc, bytes, longest)
}
