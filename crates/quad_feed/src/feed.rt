// A text in pieces.
ghost use Rattle.std.specs.Prelude.{ℕ, ◌≡◌, ◌<◌, ◌^◌, length, ◌++◌, [], List, Bool, true, false, Option, Some, None, Result, Ok, Err, IfOk, OnOk, IfErr, IfSome, if◌then◌else◌};
ghost use Rattle.std.specs.List.{list_all};
ghost use Rattle.rdf_terms.specs.declared.term.Quad.{Quad};
ghost use Rattle.nquads_text.specs.declared.fault.Why.{Why};
ghost use Rattle.quad_feed.specs.Feed.{is_inside, nothing_fed, ReadsWith, FaultWith};
ghost use Rattle.quad_feed.specs.Pieces.{is_cut_end, reading, fed_reading, ReadsEnded};
ghost use Rattle.nquads_text.specs.Lines.{AddsLine, Gives, line_end, without_lf};
ghost use Rattle.nquads_text.specs.Line.{line_read};
ghost use Rattle.nquads_text.specs.Reads.{RefusedFor, IsOkOrMemory, IsBadOrMemory};

use nquads_text::{LineFault, TextFault, after_end, line_end, read_line, without_lf};
use rdf_terms::Quad;
use std::alloc::Global;
use std::marker::Model;

fn is_cut_end(bytes: &[u8]) -> bool
    ensures { result ≡ is_cut_end bytes.now }
{
    match bytes {
        [b] => *b == b'\r',
        _ => false,
    }
}

/// Reads the kept line with these bytes behind it.
fn read_kept(
    alloc: Global,
    longest: usize,
    quads: &mut Vec<Quad>,
    kept: &mut Vec<u8>,
    front: &[u8],
) -> Result<(), LineFault>
    ensures line { AddsLine result (line_read longest (kept.old.items ++ front.now)) quads.old.items quads.new.items }
    ensures kept { OnOk result (kept.new.items ≡ []) }
{
    if kept.is_empty() {
        return read_line(alloc, front, longest, quads);
    }
    match kept.extend_from_slice(front) {
        Err(_) => return Err(LineFault::OutOfMemory),
        Ok(()) => {}
    }
    let read = read_line(alloc, kept.as_slice(), longest, quads);
    kept.clear();
    read
}

/// Reads the line that ends at n, and answers whether a CR ends it that an LF may still belong to, and the bytes after it.
fn read_next<'a>(
    alloc: Global,
    longest: usize,
    quads: &mut Vec<Quad>,
    number: &mut u64,
    kept: &mut Vec<u8>,
    bytes: &'a [u8],
    n: usize,
) -> Result<(bool, &'a [u8]), TextFault>
    requires place { line_end 0 bytes.now ≡ Some n }
    requires within { n < length bytes.now }
    requires inside { list_all is_inside kept.old.items ≡ true }
    ensures ok { IfOk result
        (λ p. (more : List ℕ) →
        reading longest quads.old.items number.old false (kept.old.items ++ (bytes.now ++ more)) ≡
        reading longest quads.new.items number.new p.0 (p.1.now ++ more)) }
    ensures ended { IfOk result
        (λ p. ReadsEnded longest quads.old.items number.old
        (kept.old.items ++ bytes.now) quads.new.items number.new p.0 p.1.now) }
    ensures kept { OnOk result (kept.new.items ≡ []) }
    ensures cr { IfOk result (λ p. p.0 ≡ true → p.1.now ≡ []) }
    ensures shorter { IfOk result (λ p. length p.1.now < length bytes.now) }
    ensures refused { RefusedFor
        (λ m why. (more : List ℕ) →
        reading longest quads.old.items number.old false (kept.old.items ++ (bytes.now ++ more)) ≡
        Err (m, why)) result }
{
    let at = *number;
    let (front, end) = bytes.split_at(n);
    match read_kept(alloc, longest, quads, kept, front) {
        Err(LineFault::OutOfMemory) => Err(TextFault::OutOfMemory),
        Err(LineFault::Bad(why)) => Err(TextFault::Bad { line: at, why }),
        Ok(()) => {
            *number = at.saturating_add(1);
            Ok((is_cut_end(end), after_end(end)))
        }
    }
}

/// Reads each line that ends in these bytes, and keeps the rest. Answers whether a CR ended the last of them.
fn read_ended(
    alloc: Global,
    longest: usize,
    quads: &mut Vec<Quad>,
    number: &mut u64,
    kept: &mut Vec<u8>,
    bytes: &[u8],
) -> Result<bool, TextFault>
    requires inside { list_all is_inside kept.old.items ≡ true }
    requires number { number.old < 2 ^ 64 }
    ensures ok { IfOk result
        (λ cr. (more : List ℕ) →
        reading longest quads.old.items number.old false (kept.old.items ++ (bytes.now ++ more)) ≡
        reading longest quads.new.items number.new cr (kept.new.items ++ more)) }
    ensures ended { IfOk result
        (λ cr. ReadsEnded longest quads.old.items number.old
        (kept.old.items ++ bytes.now) quads.new.items number.new cr kept.new.items) }
    ensures inside { OnOk result (list_all is_inside kept.new.items ≡ true) }
    ensures cr { IfOk result (λ cr. cr ≡ true → kept.new.items ≡ []) }
    ensures refused { RefusedFor
        (λ m why. (more : List ℕ) →
        reading longest quads.old.items number.old false (kept.old.items ++ (bytes.now ++ more)) ≡
        Err (m, why)) result }
{
    let mut cr = false;
    let mut rest = bytes;
    while let Some(n) = line_end(rest) {
        let (cut, after) = read_next(alloc, longest, quads, number, kept, rest, n)?;
        cr = cut;
        rest = after;
    }
    kept.extend_from_slice(rest)?;
    Ok(cr)
}

/// The quads with those of the last line, if it has no end.
fn read_last(
    alloc: Global,
    longest: usize,
    quads: Vec<Quad>,
    number: u64,
    kept: &[u8],
) -> Result<Vec<Quad>, TextFault>
    requires { list_all is_inside kept.now ≡ true }
    ensures { (cr : Bool) → (cr ≡ true → kept.now ≡ []) →
        Gives (λ v. v.items) result (reading longest quads.items number cr kept.now) }
{
    if kept.is_empty() {
        return Ok(quads);
    }
    let mut quads = quads;
    match read_line(alloc, kept, longest, &mut quads) {
        Err(LineFault::OutOfMemory) => Err(TextFault::OutOfMemory),
        Err(LineFault::Bad(why)) => Err(TextFault::Bad { line: number, why }),
        Ok(()) => Ok(quads),
    }
}

/// The piece without an LF at its front, where a CR stands before it.
fn begun(after_cr: bool, piece: &[u8]) -> &[u8]
    ensures { result.now ≡ (if after_cr then without_lf piece.now else piece.now) }
{
    if after_cr { without_lf(piece) } else { piece }
}

/// Reads a text that comes in pieces, cut at any places (RDF 1.1 N-Quads). It keeps the quads so far and the line that has
/// no end yet, and never the whole text. Contracts see what is known of the text so far, `Fed`: the quads of the lines that
/// have ended, the number of the next line, whether a CR stands just before it, its bytes so far, and a refusal.
#[derive(Drop)]
pub struct QuadFeed {
    longest: usize,
    quads: Vec<Quad>,
    number: u64,
    after_cr: bool,
    kept: Vec<u8>,
    fault: Option<TextFault>,
}

impl Model for QuadFeed {
    ghost use Rattle.std.specs.Prelude.{◌≡◌, true, []};
    ghost use Rattle.std.specs.List.{list_all};
    ghost use Rattle.quad_feed.specs.Feed.{Fed, is_inside};

    ghost Value = { Fed };

    ghost view = { λ f. record { longest = f.longest; quads = f.quads.items; number = f.number; after_cr = f.after_cr; kept = f.kept.items; fault = f.fault } };

    ghost invariant = { λ f. (list_all is_inside f.kept.items ≡ true) × (f.after_cr ≡ true → f.kept.items ≡ []) };
}

impl QuadFeed {
    ghost use Rattle.quad_feed.specs.Feed.{TakesPiece, IsUnfinished, TakesLines};

    /// Before the first piece. Terms are read whose canonical text has at most `longest` bytes.
    #[tactic(auto, unfolding(crate::specs::Feed::nothing_fed))]
    pub fn new(alloc: Global, longest: usize) -> QuadFeed
        ensures { result ≡ nothing_fed longest }
    {
        QuadFeed {
            longest,
            quads: Vec::new(alloc),
            number: 1,
            after_cr: false,
            kept: Vec::new(alloc),
            fault: None,
        }
    }

    /// Takes a piece where nothing was refused.
    fn take(&mut self, piece: &[u8]) -> Result<(), TextFault>
        requires { self.old.fault ≡ None }
        ensures same { OnOk result
            ((more : List ℕ) → fed_reading self.old (piece.now ++ more) ≡ fed_reading self.new more) }
        ensures refused { RefusedFor
            (λ n why. (more : List ℕ) → fed_reading self.old (piece.now ++ more) ≡ Err (n, why)) result }
        ensures not_refused { self.new.fault ≡ None }
        ensures unfinished { IsUnfinished self.new }
        ensures ended { OnOk result (TakesLines self.old piece.now self.new) }
    {
        let after_cr = self.after_cr;
        if piece.is_empty() {
            return Ok(());
        }
        let alloc = *self.kept.allocator();
        let bytes = begun(after_cr, piece);
        match read_ended(
            alloc,
            self.longest,
            &mut self.quads,
            &mut self.number,
            &mut self.kept,
            bytes,
        ) {
            Ok(cut) => {
                self.after_cr = cut;
                Ok(())
            }
            Err(fault) => {
                self.kept.clear();
                self.after_cr = false;
                Err(fault)
            }
        }
    }

    /// Takes the next piece of the text. Each line that has ended is read, and the line that has no end yet is kept. So `Bad`
    /// comes at the latest with the piece in which the first line with a fault ends, and it stands however the text goes on.
    /// After a refusal each later call answers the same; `OutOfMemory`, which comes only when memory ran out, is one.
    pub fn feed(&mut self, piece: &[u8]) -> Result<(), TextFault>
        // After a refusal.
        ensures again { IfSome self.old.fault (λ e. (result ≡ Err e) × (self.new ≡ self.old)) }
        // The piece is taken: what may still come is read as before with the piece in front of it.
        ensures in_order { OnOk result ((self.old.fault ≡ None) × (self.new.fault ≡ None)) }
        ensures taken { OnOk result (TakesPiece self.old piece.now self.new) }
        ensures unfinished { OnOk result (IsUnfinished self.new) }
        // Each line that has ended is read, and only what follows the last line end is kept.
        ensures ended { OnOk result (TakesLines self.old piece.now self.new) }
        // The piece is refused.
        ensures refused { self.old.fault ≡ None →
            RefusedFor (λ n why. (more : List ℕ) → FaultWith self.old (piece.now ++ more) n why) result }
        ensures remembered { IfErr result (λ e. self.new.fault ≡ Some e) }
    {
        if let Some(fault) = self.fault {
            return Err(fault);
        }
        match self.take(piece) {
            Ok(()) => Ok(()),
            Err(fault) => {
                self.fault = Some(fault);
                Err(fault)
            }
        }
    }

    /// The quads of all that was fed, in their order, or its first line with a fault and the first fault of that. After a
    /// refusal it answers the same; `OutOfMemory` comes only when memory ran out.
    pub fn finish(self) -> Result<Vec<Quad>, TextFault>
        ensures again { IfSome self.fault (λ e. result ≡ Err e) }
        ensures read { self.fault ≡ None → IfOk result (λ v. ReadsWith self [] v.items) }
        ensures refused { self.fault ≡ None → RefusedFor (FaultWith self []) result }
        ensures only_read { self.fault ≡ None → (quads : List Quad) → ReadsWith self [] quads →
            IsOkOrMemory (λ v. v.items ≡ quads) result }
        ensures only_refused { self.fault ≡ None → (line : ℕ) (why : Why) → FaultWith self [] line why →
            IsBadOrMemory line why result }
    {
        if let Some(fault) = self.fault {
            return Err(fault);
        }
        let alloc = *self.kept.allocator();
        read_last(
            alloc,
            self.longest,
            self.quads,
            self.number,
            self.kept.as_slice(),
        )
    }
}
