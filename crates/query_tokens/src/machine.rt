// The machine that reads one token: where it stands inside the token, and where it goes with a
// character. Its states are named by what they have read of the token.
ghost use Rattle.std.specs.Prelude.{◌≡◌, None, if◌then◌else◌};
ghost use Rattle.query_tokens.specs.Machine.{next, kind_at, is_enclosed, is_in_name, is_in_number, is_in_local};

use crate::class::Class;
use crate::kind::PieceKind;

/// Where the machine stands inside a token.
#[derive(Clone, Copy)]
pub enum State {
    Start,
    White,
    Comment,
    IriItems,
    Quoted,
    Apostrophed,
    OpenBrace,
    CloseBrace,
    Caret,
    VariableMark,
    Underscore,
    Prefix,
    Dot,
    Semicolon,
    Comma,
    Star,
    OpenBracket,
    At,
    Sign,
    Digits,
    Word,
    Name,
    Iri,
    IriEscape,
    Str,
    QuotedEscape,
    ApostrophedEscape,
    Carets,
    Variable,
    LabelStart,
    LocalFirstEscape,
    Local,
    LocalFirstPercent,
    Fraction,
    Anonymous,
    Tag,
    SignDot,
    DigitsDot,
    Exponent,
    NameDots,
    Label,
    LocalEscape,
    LocalDots,
    LocalPercent,
    LocalFirstPercentHex,
    TagMinus,
    ExponentSign,
    ExponentDigits,
    LabelDots,
    LocalPercentHex,
    TagMore,
}

impl State {
    /// The token that has just been read, where the state ends one.
    pub fn kind(self) -> Option<PieceKind>
        ensures { result ≡ kind_at self }
    {
        match self {
            State::White => Some(PieceKind::White),
            State::Comment => Some(PieceKind::Comment),
            State::OpenBrace => Some(PieceKind::OpenBrace),
            State::CloseBrace => Some(PieceKind::CloseBrace),
            State::Prefix => Some(PieceKind::Prefix),
            State::Dot => Some(PieceKind::Dot),
            State::Semicolon => Some(PieceKind::Semicolon),
            State::Comma => Some(PieceKind::Comma),
            State::Star => Some(PieceKind::Star),
            State::Digits => Some(PieceKind::Integer),
            State::Word => Some(PieceKind::Word),
            State::Iri => Some(PieceKind::Iri),
            State::Str => Some(PieceKind::Str),
            State::Carets => Some(PieceKind::Carets),
            State::Variable => Some(PieceKind::Variable),
            State::Local => Some(PieceKind::Prefixed),
            State::Fraction => Some(PieceKind::Decimal),
            State::Anonymous => Some(PieceKind::Anonymous),
            State::Tag => Some(PieceKind::Tag),
            State::Label => Some(PieceKind::Blank),
            State::ExponentDigits => Some(PieceKind::Double),
            State::TagMore => Some(PieceKind::Tag),
            _ => None,
        }
    }
}

fn after_start(class: Class) -> Option<State>
    ensures { result ≡ next State.Start class }
{
    match class {
        Class::Hash => Some(State::Comment),
        Class::Less => Some(State::IriItems),
        Class::Quote => Some(State::Quoted),
        Class::Apostrophe => Some(State::Apostrophed),
        Class::OpenBrace => Some(State::OpenBrace),
        Class::CloseBrace => Some(State::CloseBrace),
        Class::Caret => Some(State::Caret),
        Class::VariableMark => Some(State::VariableMark),
        Class::Underscore => Some(State::Underscore),
        Class::Colon => Some(State::Prefix),
        Class::Dot => Some(State::Dot),
        Class::Semicolon => Some(State::Semicolon),
        Class::Comma => Some(State::Comma),
        Class::Star => Some(State::Star),
        Class::OpenBracket => Some(State::OpenBracket),
        Class::At => Some(State::At),
        Class::Digit => Some(State::Digits),
        Class::Base => Some(State::Name),
        Class::Space | Class::LineEnd => Some(State::White),
        Class::Plus | Class::Minus => Some(State::Sign),
        Class::LetterE | Class::Hex | Class::Letter => Some(State::Word),
        _ => None,
    }
}

// The state at the end of the first edge whose set has the class. Edges are written as a test of the
// class and the state to which it leads.
macro_rules! edges {
    ($class:expr, $($test:ident($($only:expr)?) => $to:ident),+) => {
        $(if $class.$test($($only)?) {
            Some(State::$to)
        } else)+ {
            None
        }
    };
}

fn step_in_number(state: State, class: Class) -> Option<State>
    ensures { result ≡ (if is_in_number state then next state class else None) }
{
    match state {
        State::Sign => edges!(class, is(Class::Dot) => SignDot, is(Class::Digit) => Digits),
        State::Digits =>
            edges!(class, is(Class::Dot) => DigitsDot, is(Class::Digit) => Digits, is(Class::LetterE) => Exponent),
        State::SignDot => edges!(class, is(Class::Digit) => Fraction),
        State::Fraction | State::DigitsDot =>
            edges!(class, is(Class::Digit) => Fraction, is(Class::LetterE) => Exponent),
        State::Exponent =>
            edges!(class, is(Class::Digit) => ExponentDigits, is_plus_or_minus() => ExponentSign),
        State::ExponentSign | State::ExponentDigits =>
            edges!(class, is(Class::Digit) => ExponentDigits),
        _ => None,
    }
}

// The states behind the colon of a prefix, where a local part is read.
macro_rules! local {
    () => {
        State::Prefix
            | State::LocalFirstEscape
            | State::LocalFirstPercent
            | State::LocalFirstPercentHex
            | State::Local
            | State::LocalDots
            | State::LocalEscape
            | State::LocalPercent
            | State::LocalPercentHex
    };
}

fn step_in_local(state: State, class: Class) -> Option<State>
    ensures { result ≡ (if is_in_local state then next state class else None) }
{
    match state {
        State::Prefix =>
            edges!(class, is(Class::Backslash) => LocalFirstEscape, is(Class::Percent) => LocalFirstPercent, is_local_start() => Local),
        State::LocalFirstPercent => edges!(class, is_hex() => LocalFirstPercentHex),
        State::Local | State::LocalDots =>
            edges!(class, is(Class::Backslash) => LocalEscape, is(Class::Dot) => LocalDots, is(Class::Percent) => LocalPercent, is_local_char() => Local),
        State::LocalPercent => edges!(class, is_hex() => LocalPercentHex),
        State::LocalFirstPercentHex | State::LocalPercentHex => edges!(class, is_hex() => Local),
        State::LocalFirstEscape | State::LocalEscape => edges!(class, is_escaped() => Local),
        _ => None,
    }
}

// The states inside an IRI or a string.
macro_rules! enclosed {
    () => {
        State::IriItems
            | State::IriEscape
            | State::Quoted
            | State::QuotedEscape
            | State::Apostrophed
            | State::ApostrophedEscape
    };
}

fn step_enclosed(state: State, class: Class) -> Option<State>
    ensures { result ≡ (if is_enclosed state then next state class else None) }
{
    match state {
        State::IriItems =>
            edges!(class, is(Class::Greater) => Iri, is(Class::Backslash) => IriEscape, is_iri_char() => IriItems),
        State::IriEscape => edges!(class, is_iri_char() => IriItems),
        State::Quoted =>
            edges!(class, is(Class::Quote) => Str, is(Class::Backslash) => QuotedEscape, is_quoted_char() => Quoted),
        State::QuotedEscape => edges!(class, is_line_char() => Quoted),
        State::Apostrophed =>
            edges!(class, is(Class::Apostrophe) => Str, is(Class::Backslash) => ApostrophedEscape, is_apostrophed_char() => Apostrophed),
        State::ApostrophedEscape => edges!(class, is_line_char() => Apostrophed),
        _ => None,
    }
}

// The states inside a word, and inside the name of a variable, a blank node's label or a language tag.
macro_rules! name {
    () => {
        State::Word
            | State::Name
            | State::NameDots
            | State::Variable
            | State::LabelStart
            | State::Label
            | State::LabelDots
            | State::Tag
            | State::TagMinus
            | State::TagMore
    };
}

fn step_in_name(state: State, class: Class) -> Option<State>
    ensures { result ≡ (if is_in_name state then next state class else None) }
{
    match state {
        State::Word =>
            edges!(class, is(Class::Colon) => Prefix, is(Class::Dot) => NameDots, is_letter() => Word, is_name_char() => Name),
        State::Name =>
            edges!(class, is_name_char() => Name, is(Class::Dot) => NameDots, is(Class::Colon) => Prefix),
        State::NameDots => edges!(class, is_name_char() => Name, is(Class::Dot) => NameDots),
        State::Variable => edges!(class, is_variable_char() => Variable),
        State::LabelStart => edges!(class, is_name_start() => Label),
        State::Label | State::LabelDots =>
            edges!(class, is(Class::Dot) => LabelDots, is_name_char() => Label),
        State::Tag => edges!(class, is(Class::Minus) => TagMinus, is_letter() => Tag),
        State::TagMinus => edges!(class, is_letter_or_digit() => TagMore),
        State::TagMore =>
            edges!(class, is(Class::Minus) => TagMinus, is_letter_or_digit() => TagMore),
        _ => None,
    }
}

/// The state after one more character of a class, where there is one.
pub fn step(state: State, class: Class) -> Option<State>
    ensures { result ≡ next state class }
{
    match state {
        State::Start => after_start(class),
        State::White => edges!(class, is_white() => White),
        State::Comment => edges!(class, is_line_char() => Comment),
        State::Caret => edges!(class, is(Class::Caret) => Carets),
        State::VariableMark => edges!(class, is_name_start() => Variable),
        State::Underscore => edges!(class, is(Class::Colon) => LabelStart),
        State::Dot => edges!(class, is(Class::Digit) => Fraction),
        State::OpenBracket =>
            edges!(class, is(Class::CloseBracket) => Anonymous, is_white() => OpenBracket),
        State::At => edges!(class, is_letter() => Tag),
        enclosed!() => step_enclosed(state, class),
        name!() => step_in_name(state, class),
        local!() => step_in_local(state, class),
        _ => step_in_number(state, class),
    }
}
