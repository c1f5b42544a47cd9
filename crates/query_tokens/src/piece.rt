// The pieces of a text.
ghost use Rattle.std.specs.Prelude.{◌≡◌, ℕ, ◌≤◌, ◌*◌, length, drop, All, ◌++◌, ◌+◌, ◌<◌, IfOk, OnOk, IsErrOf, MatchOption, [], ◌∷◌, if◌then◌else◌};
ghost use Rattle.std.specs.Str.{encode_utf8_all};
ghost use Rattle.query_tokens.specs.Names.{IsRun};
ghost use Rattle.query_tokens.specs.Escapes.{IsPiece, NoPiece};
ghost use Rattle.query_tokens.specs.Pieces.{is_gap, byte_place, Fits, AreTokens, IsTokenFault};

use crate::ahead::Run;
use crate::escape::has_good_escapes;
use crate::kind::PieceKind;
use crate::longest::longest;
use std::alloc::{AllocFailed, Global};

/// The most bytes of a query's text, and so the most of its characters and of its tokens.
pub const LONGEST_QUERY: usize = 262144;

/// A token: its kind, the place of its first character and how many it has, and the places of
/// its first byte and of the byte past its last. Places count from 0, bytes are those of UTF-8.
#[derive(Clone, Copy)]
pub struct Piece {
    pub kind: PieceKind,
    pub place: usize,
    pub len: usize,
    pub at: usize,
    pub to: usize,
}

/// Why a text has no tokens.
#[derive(Clone, Copy, Debug)]
pub enum PieceFault {
    /// The place of the byte that begins no token, white space or comment.
    At(usize),
    /// Out of memory.
    OutOfMemory,
}

impl<T: Drop> From<AllocFailed<T>> for PieceFault {
    ghost use Rattle.std.specs.Prelude.{◌≡◌};
    ghost use Rattle.query_tokens.specs.declared.piece.PieceFault.TheVariants.{OutOfMemory};

    ghost from_gives = { λ _ e. e ≡ OutOfMemory };

    fn from(_: AllocFailed<T>) -> Self {
        PieceFault::OutOfMemory
    }
}

fn is_gap(kind: PieceKind) -> bool
    ensures { result ≡ is_gap kind }
{
    matches!(kind, PieceKind::White | PieceKind::Comment)
}

/// How many bytes these characters have.
fn byte_len(chars: &[char]) -> usize
    requires { length chars.now ≤ LONGEST_QUERY }
    ensures value { result ≡ length (encode_utf8_all chars.now) }
    ensures small { result ≤ 4 * length chars.now }
{
    let mut len = 0;
    for c in chars {
        len += c.len_utf8();
    }
    len
}

/// The longest token at a place, if its escapes are good.
fn piece_at(chars: &[char], place: usize, run: &mut Run) -> Option<(PieceKind, usize)>
    requires within { place ≤ length chars.now }
    requires run { IsRun chars.now run.old }
    ensures run { IsRun chars.now run.new }
    ensures piece { MatchOption result (NoPiece (drop place chars.now)) (λ p. IsPiece (drop place chars.now) p.0 p.1) }
{
    match longest(chars, place, run) {
        Some((kind, len)) => {
            if has_good_escapes(kind, &chars[place..place + len]) {
                Some((kind, len))
            } else {
                None
            }
        }
        None => None,
    }
}

/// Adds a piece, if it is a token.
fn add(pieces: &mut Vec<Piece>, piece: Piece) -> Result<(), PieceFault>
    ensures ok { OnOk result (pieces.new.items ≡ pieces.old.items ++ (if is_gap piece.kind then [] else piece ∷ [])) }
    ensures memory { (n : ℕ) → IsErrOf result (PieceFault.At n) → ⊥ }
{
    if !is_gap(piece.kind) {
        pieces.push(piece)?;
    }
    Ok(())
}

/// The tokens of a text of at most `LONGEST_QUERY` characters (262144), in their order, each the longest
/// at its place (SPARQL 1.1, section 19.8); white space and comments between them are left out. `At`
/// exactly where some place begins no token, no white space and no comment: the first such place, in
/// bytes. `OutOfMemory` comes only where memory runs out.
pub fn pieces(alloc: Global, chars: &[char]) -> Result<Vec<Piece>, PieceFault>
    requires { length chars.now ≤ LONGEST_QUERY }
    ensures ok { IfOk result (λ v. AreTokens chars.now v.items) }
    ensures fits { IfOk result (λ v. All (Fits chars.now) v.items) }
    ensures fault { (n : ℕ) → IsErrOf result (PieceFault.At n)
        → (place : ℕ) × IsTokenFault chars.now place × (n ≡ byte_place chars.now place) }
{
    let mut pieces = Vec::new(alloc);
    let mut run = Run {
        from: 0,
        end: 0,
        leads: false,
    };
    let mut place = 0;
    let mut at = 0;
    while place < chars.len() {
        match piece_at(chars, place, &mut run) {
            None => return Err(PieceFault::At(at)),
            Some((kind, len)) => {
                let to = at + byte_len(&chars[place..place + len]);
                add(
                    &mut pieces,
                    Piece {
                        kind,
                        place,
                        len,
                        at,
                        to,
                    },
                )?;
                place += len;
                at = to;
            }
        }
    }
    Ok(pieces)
}
