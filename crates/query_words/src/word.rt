// The tokens of a query, each with what it says.
ghost use Rattle.std.specs.Prelude.{◌≡◌, ◌≤◌, length, if◌then◌else◌, IfOk, All};
ghost use Rattle.query_tokens.specs.declared.piece.TheConstants.{LONGEST_QUERY};
ghost use Rattle.query_tokens.specs.Pieces.{Fits};
ghost use Rattle.query_words.specs.Words.{word_value, is_number, has_text, value_of, word_of, words_of, kind_of, kinds_of};

use crate::text::{
    is_a, local_text, prefix_text, resolved_text, same_word, text_after_first, text_of,
};
use query_grammar::kind::Kind;
use query_tokens::kind::PieceKind;
use query_tokens::piece::Piece;
use std::alloc::Global;
use text_base::{OutOfMemory, Text};

/// What a token says: its text without its marks and with its escapes resolved, or which word or
/// mark it is.
pub enum Value {
    /// An IRI, as it is written between `<` and `>`.
    Iri(Text),
    /// The name of a prefix.
    Prefix(Text),
    /// The name of a prefix, and a local part.
    Prefixed(Text, Text),
    /// A name of a variable, without its mark.
    Variable(Text),
    /// A label of a blank node, with its `_:`.
    Label(Text),
    /// `[]`.
    Anonymous,
    /// A string, without its quotation marks.
    Str(Text),
    /// A language tag, without its `@`, in the case in which it is written.
    Tag(Text),
    /// An integer, as it is written.
    Integer(Text),
    /// A decimal, as it is written.
    Decimal(Text),
    /// A double, as it is written.
    Double(Text),
    /// `PREFIX`, in any case.
    PrefixWord,
    /// `SELECT`, in any case.
    SelectWord,
    /// `WHERE`, in any case.
    WhereWord,
    /// `true`, in any case.
    True,
    /// `false`, in any case.
    False,
    /// The word `a`, in lower case.
    TypeWord,
    /// `DISTINCT`, in any case.
    DistinctWord,
    /// `OPTIONAL`, in any case.
    OptionalWord,
    /// `UNION`, in any case.
    UnionWord,
    /// Any other word.
    OtherWord,
    OpenBrace,
    CloseBrace,
    Dot,
    Semicolon,
    Comma,
    Star,
    Carets,
}

// Written out, so that who drops one calls this, and does not take it apart at each exit.
impl Drop for Value {
    fn drop(self) {
        match self {
            Value::Iri(_iri) => {}
            Value::Prefix(_prefix) => {}
            Value::Prefixed(_a, _b) => {}
            Value::Variable(_variable) => {}
            Value::Label(_label) => {}
            Value::Anonymous => {}
            Value::Str(_str) => {}
            Value::Tag(_tag) => {}
            Value::Integer(_integer) => {}
            Value::Decimal(_decimal) => {}
            Value::Double(_double) => {}
            Value::PrefixWord => {}
            Value::SelectWord => {}
            Value::WhereWord => {}
            Value::True => {}
            Value::False => {}
            Value::TypeWord => {}
            Value::DistinctWord => {}
            Value::OptionalWord => {}
            Value::UnionWord => {}
            Value::OtherWord => {}
            Value::OpenBrace => {}
            Value::CloseBrace => {}
            Value::Dot => {}
            Value::Semicolon => {}
            Value::Comma => {}
            Value::Star => {}
            Value::Carets => {}
        }
    }
}

/// What a token says, with the place of its first byte, counted from 0.
pub struct Word {
    pub at: usize,
    pub value: Value,
}

// Written out, so that who drops one calls this, and does not take it apart at each exit.
impl Drop for Word {
    fn drop(self) {
        let Word {
            at: _at,
            value: _value,
        } = self;
    }
}

#[tactic(auto, unfolding(crate::specs::Words::word_value))]
fn word_value(chars: &[char]) -> Value
    ensures { result ≡ word_value chars.now }
{
    if same_word(b"prefix".as_slice(), chars) {
        Value::PrefixWord
    } else if same_word(b"select".as_slice(), chars) {
        Value::SelectWord
    } else if same_word(b"where".as_slice(), chars) {
        Value::WhereWord
    } else if same_word(b"true".as_slice(), chars) {
        Value::True
    } else if same_word(b"false".as_slice(), chars) {
        Value::False
    } else if is_a(chars) {
        Value::TypeWord
    } else if same_word(b"distinct".as_slice(), chars) {
        Value::DistinctWord
    } else if same_word(b"optional".as_slice(), chars) {
        Value::OptionalWord
    } else if same_word(b"union".as_slice(), chars) {
        Value::UnionWord
    } else {
        Value::OtherWord
    }
}

#[tactic(auto, unfolding(crate::specs::Words::value_of))]
fn number_value(alloc: Global, kind: PieceKind, chars: &[char]) -> Result<Value, OutOfMemory>
    ensures { IfOk result (λ v. v ≡ (if is_number kind then value_of kind chars.now else Value.OtherWord)) }
{
    let text = text_of(alloc, chars)?;
    Ok(match kind {
        PieceKind::Integer => Value::Integer(text),
        PieceKind::Decimal => Value::Decimal(text),
        PieceKind::Double => Value::Double(text),
        _ => Value::OtherWord,
    })
}

/// Which word or mark it is.
#[tactic(auto, unfolding(crate::specs::Words::value_of))]
fn mark_value(kind: PieceKind, chars: &[char]) -> Value
    ensures { result ≡ (if has_text kind then Value.OtherWord else value_of kind chars.now) }
{
    match kind {
        PieceKind::Anonymous => Value::Anonymous,
        PieceKind::Word => word_value(chars),
        PieceKind::OpenBrace => Value::OpenBrace,
        PieceKind::CloseBrace => Value::CloseBrace,
        PieceKind::Dot => Value::Dot,
        PieceKind::Semicolon => Value::Semicolon,
        PieceKind::Comma => Value::Comma,
        PieceKind::Star => Value::Star,
        PieceKind::Carets => Value::Carets,
        _ => Value::OtherWord,
    }
}

#[tactic(auto, unfolding(crate::specs::Words::value_of))]
fn value_of(alloc: Global, kind: PieceKind, chars: &[char]) -> Result<Value, OutOfMemory>
    requires { length chars.now ≤ LONGEST_QUERY }
    ensures { IfOk result (λ v. v ≡ value_of kind chars.now) }
{
    Ok(match kind {
        PieceKind::Iri => Value::Iri(resolved_text(alloc, chars)?),
        PieceKind::Prefix => Value::Prefix(prefix_text(alloc, chars)?),
        PieceKind::Prefixed => Value::Prefixed(
            prefix_text(alloc, chars)?,
            local_text(alloc, chars)?,
        ),
        PieceKind::Variable => Value::Variable(text_after_first(alloc, chars)?),
        PieceKind::Blank => Value::Label(text_of(alloc, chars)?),
        PieceKind::Str => Value::Str(resolved_text(alloc, chars)?),
        PieceKind::Tag => Value::Tag(text_after_first(alloc, chars)?),
        PieceKind::Integer | PieceKind::Decimal | PieceKind::Double => number_value(
            alloc, kind, chars,
        )?,
        _ => mark_value(kind, chars),
    })
}

fn word_of(alloc: Global, chars: &[char], piece: &Piece) -> Result<Word, OutOfMemory>
    requires short { length chars.now ≤ LONGEST_QUERY }
    requires fits { Fits chars.now piece.now }
    ensures { IfOk result (λ w. w ≡ word_of chars.now piece.now) }
{
    let text = &chars[piece.place..piece.place + piece.len];
    let value = value_of(alloc, piece.kind, text)?;
    Ok(Word {
        at: piece.at,
        value,
    })
}

/// What the tokens of a text say, in their order; the text has at most `LONGEST_QUERY` characters
/// (262144), and the tokens lie within it. `OutOfMemory` comes only where memory runs out.
pub fn words_of(alloc: Global, chars: &[char], pieces: &[Piece]) -> Result<Vec<Word>, OutOfMemory>
    requires short { length chars.now ≤ LONGEST_QUERY }
    requires fits { All (Fits chars.now) pieces.now }
    ensures { IfOk result (λ v. v.items ≡ words_of chars.now pieces.now) }
{
    let mut words = Vec::with_capacity(alloc, pieces.len())?;
    for piece in pieces {
        words.push(word_of(alloc, chars, piece)?)?;
    }
    Ok(words)
}

fn kind_of(value: &Value) -> Kind
    ensures { result ≡ kind_of value.now }
{
    match value {
        Value::Iri(_) => Kind::Iri,
        Value::Prefix(_) => Kind::Prefix,
        Value::Prefixed(_, _) => Kind::Prefixed,
        Value::Variable(_) => Kind::Variable,
        Value::Label(_) => Kind::Blank,
        Value::Anonymous => Kind::Anonymous,
        Value::Str(_) => Kind::Str,
        Value::Tag(_) => Kind::Tag,
        Value::Integer(_) | Value::Decimal(_) | Value::Double(_) => Kind::Number,
        Value::PrefixWord => Kind::PrefixWord,
        Value::SelectWord => Kind::SelectWord,
        Value::WhereWord => Kind::WhereWord,
        Value::True => Kind::TrueWord,
        Value::False => Kind::FalseWord,
        Value::TypeWord => Kind::TypeWord,
        Value::DistinctWord => Kind::DistinctWord,
        Value::OptionalWord => Kind::OptionalWord,
        Value::UnionWord => Kind::UnionWord,
        Value::OtherWord => Kind::OtherWord,
        Value::OpenBrace => Kind::OpenBrace,
        Value::CloseBrace => Kind::CloseBrace,
        Value::Dot => Kind::Dot,
        Value::Semicolon => Kind::Semicolon,
        Value::Comma => Kind::Comma,
        Value::Star => Kind::Star,
        Value::Carets => Kind::Carets,
    }
}

/// What the grammar sees of some tokens, in their order. `OutOfMemory` comes only where memory runs
/// out.
pub fn kinds_of(alloc: Global, words: &[Word]) -> Result<Vec<Kind>, OutOfMemory>
    ensures { IfOk result (λ v. v.items ≡ kinds_of words.now) }
{
    let mut kinds = Vec::with_capacity(alloc, words.len())?;
    for word in words {
        kinds.push(kind_of(&word.value))?;
    }
    Ok(kinds)
}
