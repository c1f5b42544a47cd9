// The tokens of a text.
ghost use Rattle.std.specs.Prelude.{◌≡◌, ◌≤◌, ℕ, length, map, IfOk, IfErr, OnOk, IsErrOf, All};
ghost use Rattle.std.specs.Str.{chars, IsUtf8};
ghost use Rattle.query_tokens.specs.declared.piece.TheConstants.{LONGEST_QUERY};
ghost use Rattle.query_tokens.specs.Pieces.{AreTokens, IsTokenFault, byte_place, Fits};
ghost use Rattle.pattern_parser.specs.declared.fault.QueryWhy.{QueryWhy};
ghost use Rattle.pattern_parser.specs.Queries.{IsTokenFaultAt};
ghost use Rattle.pattern_parser.specs.Tokens.{token_kind, token_of, IsTokenList};

use crate::fault::{QueryFault, QueryWhy};
use query_tokens::LONGEST_QUERY;
use query_tokens::kind::PieceKind;
use query_tokens::piece::{Piece, PieceFault, pieces};
use query_words::text::decode;
use std::alloc::Global;
use text_base::OutOfMemory;

/// The kinds of tokens (SPARQL 1.1, section 19.8).
#[derive(Clone, Copy, Debug, PartialEq, Eq)]
pub enum TokenKind {
    /// IRIREF.
    Iri,
    /// PNAME_NS, as `foaf:`.
    Prefix,
    /// PNAME_LN, as `foaf:name`.
    Prefixed,
    /// VAR1 or VAR2.
    Variable,
    /// BLANK_NODE_LABEL.
    Blank,
    /// ANON.
    Anonymous,
    /// STRING_LITERAL1 or STRING_LITERAL2.
    Str,
    /// LANGTAG.
    Tag,
    /// INTEGER, with or without a sign.
    Integer,
    /// DECIMAL, with or without a sign.
    Decimal,
    /// DOUBLE, with or without a sign.
    Double,
    /// One or more ASCII letters, which need not be a keyword.
    Word,
    /// One of `{` `}` `.` `;` `,` `*` `^^`.
    Mark,
}

/// A token: the place of its first byte, counted from 0, that of the byte past its last, and its
/// kind.
#[derive(Clone, Copy)]
pub struct Token {
    pub at: usize,
    pub to: usize,
    pub kind: TokenKind,
}

fn token_kind(kind: PieceKind) -> TokenKind
    ensures { result ≡ token_kind kind }
{
    match kind {
        PieceKind::Iri => TokenKind::Iri,
        PieceKind::Prefix => TokenKind::Prefix,
        PieceKind::Prefixed => TokenKind::Prefixed,
        PieceKind::Variable => TokenKind::Variable,
        PieceKind::Blank => TokenKind::Blank,
        PieceKind::Anonymous => TokenKind::Anonymous,
        PieceKind::Str => TokenKind::Str,
        PieceKind::Tag => TokenKind::Tag,
        PieceKind::Integer => TokenKind::Integer,
        PieceKind::Decimal => TokenKind::Decimal,
        PieceKind::Double => TokenKind::Double,
        PieceKind::Word => TokenKind::Word,
        _ => TokenKind::Mark,
    }
}

/// The text of some bytes, unless they are too many or are not UTF-8.
pub fn text_of(bytes: &[u8]) -> Result<&str, QueryFault>
    ensures text { IfOk result (λ s. s.now ≡ bytes.now) }
    ensures utf8 { OnOk result (IsUtf8 bytes.now) }
    ensures short { OnOk result (length bytes.now ≤ LONGEST_QUERY) }
    ensures bad { (w : QueryWhy) (at : ℕ) → IsErrOf result (QueryFault.Bad at w) → IsTokenFaultAt bytes.now w at }
{
    if bytes.len() > LONGEST_QUERY {
        return Err(QueryFault::Bad {
            at: LONGEST_QUERY,
            why: QueryWhy::TooLong,
        });
    }
    match std::str::from_utf8(bytes) {
        Ok(text) => Ok(text),
        Err(error) => Err(QueryFault::Bad {
            at: error.valid_up_to(),
            why: QueryWhy::Utf8,
        }),
    }
}

/// The characters of a text.
pub fn characters(alloc: Global, text: &str) -> Result<Vec<char>, QueryFault>
    requires { length text.now ≤ LONGEST_QUERY }
    ensures chars { IfOk result (λ v. v.items ≡ chars text.now) }
    ensures short { IfOk result (λ v. length v.items ≤ LONGEST_QUERY) }
    ensures memory { IfErr result (λ e. e ≡ QueryFault.OutOfMemory) }
{
    match decode(alloc, text) {
        Ok(chars) => Ok(chars),
        Err(_) => Err(QueryFault::OutOfMemory),
    }
}

/// The tokens among some characters.
pub fn pieces_of(alloc: Global, chars: &[char]) -> Result<Vec<Piece>, QueryFault>
    requires { length chars.now ≤ LONGEST_QUERY }
    ensures tokens { IfOk result (λ v. AreTokens chars.now v.items) }
    ensures fits { IfOk result (λ v. All (Fits chars.now) v.items) }
    ensures bad { (w : QueryWhy) (at : ℕ) → IsErrOf result (QueryFault.Bad at w) → (w ≡ QueryWhy.Token)
        × (place : ℕ) × IsTokenFault chars.now place × (at ≡ byte_place chars.now place) }
{
    match pieces(alloc, chars) {
        Ok(pieces) => Ok(pieces),
        Err(PieceFault::At(at)) => Err(QueryFault::Bad {
            at,
            why: QueryWhy::Token,
        }),
        Err(PieceFault::OutOfMemory) => Err(QueryFault::OutOfMemory),
    }
}

fn tokens_of(alloc: Global, pieces: &[Piece]) -> Result<Vec<Token>, OutOfMemory>
    ensures { IfOk result (λ v. v.items ≡ map token_of pieces.now) }
{
    let mut tokens = Vec::new(alloc);
    for piece in pieces {
        tokens.push(Token {
            at: piece.at,
            to: piece.to,
            kind: token_kind(piece.kind),
        })?;
    }
    Ok(tokens)
}

/// The tokens of a query's text (SPARQL 1.1, section 19.8), by longest match, in rising order;
/// white space and comments stand between them and are none. `Bad` exactly where the text has more
/// than `LONGEST_QUERY` bytes (262144; TooLong), is not UTF-8 (Utf8), or has a place that begins no token
/// (Token), with the place that the kind names; `OutOfMemory` comes only where memory runs out.
pub fn tokens(alloc: Global, text: &[u8]) -> Result<Vec<Token>, QueryFault>
    ensures ok { IfOk result (λ v. IsTokenList text.now v.items) }
    ensures bad { (w : QueryWhy) (at : ℕ) → IsErrOf result (QueryFault.Bad at w) → IsTokenFaultAt text.now w at }
{
    let chars = characters(alloc, text_of(text)?)?;
    let pieces = pieces_of(alloc, chars.as_slice())?;
    Ok(tokens_of(alloc, pieces.as_slice())?)
}
