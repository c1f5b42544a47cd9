// The machine that reads kinds of token: where it stands in a query, and where it goes with the
// next token.
ghost use Rattle.std.specs.Prelude.{◌≡◌};
ghost use Rattle.query_grammar.specs.Steps.{next, is_end};

use crate::kind::Kind;

/// Where the machine stands between two tokens.
#[derive(Clone, Copy, PartialEq, Eq)]
pub enum State {
    Start,
    AfterPrefixWord,
    AfterSelect,
    AfterPrefix,
    InVariables,
    AfterStar,
    AfterWhere,
    AtSubject,
    AtVerb,
    AfterSubjectString,
    AtEnd,
    AtObject,
    AtSubjectType,
    AfterObject,
    AfterObjectString,
    AfterSemicolon,
    AtObjectType,
}

// iri: an IRI or a prefixed name, which a prefix alone is too.
macro_rules! iri {
    () => {
        Kind::Iri | Kind::Prefix | Kind::Prefixed
    };
}

// Verb, without paths.
macro_rules! verb {
    () => {
        iri!() | Kind::Variable | Kind::TypeWord
    };
}

// VarOrTerm, but strings.
macro_rules! term {
    () => {
        iri!()
            | Kind::Variable
            | Kind::Blank
            | Kind::Anonymous
            | Kind::Number
            | Kind::TrueWord
            | Kind::FalseWord
    };
}

/// The state after one more token, where there is one.
pub fn next(state: State, kind: Kind) -> Option<State>
    ensures { result ≡ next state kind }
{
    match (state, kind) {
        (State::Start, Kind::PrefixWord) => Some(State::AfterPrefixWord),
        (State::AfterPrefixWord, Kind::Prefix) => Some(State::AfterPrefix),
        (State::AfterPrefix, Kind::Iri) => Some(State::Start),
        (State::Start, Kind::SelectWord) => Some(State::AfterSelect),
        (State::AfterSelect | State::InVariables, Kind::Variable) => Some(State::InVariables),
        (State::AfterSelect, Kind::Star) => Some(State::AfterStar),
        (State::InVariables | State::AfterStar, Kind::WhereWord) => Some(State::AfterWhere),
        (State::InVariables | State::AfterStar | State::AfterWhere, Kind::OpenBrace) => Some(
            State::AtSubject,
        ),
        (State::AtSubject, term!()) => Some(State::AtVerb),
        (State::AtObject, term!()) => Some(State::AfterObject),
        (State::AtSubject, Kind::Str) => Some(State::AfterSubjectString),
        (State::AtObject, Kind::Str) => Some(State::AfterObjectString),
        (State::AfterSubjectString, Kind::Tag) => Some(State::AtVerb),
        (State::AfterObjectString, Kind::Tag) => Some(State::AfterObject),
        (State::AfterSubjectString, Kind::Carets) => Some(State::AtSubjectType),
        (State::AfterObjectString, Kind::Carets) => Some(State::AtObjectType),
        (State::AtSubjectType, iri!()) => Some(State::AtVerb),
        (State::AtObjectType, iri!()) => Some(State::AfterObject),
        (State::AtVerb | State::AfterSubjectString | State::AfterSemicolon, verb!()) => Some(
            State::AtObject,
        ),
        (State::AfterObject | State::AfterObjectString, Kind::Comma) => Some(State::AtObject),
        (State::AfterObject | State::AfterObjectString | State::AfterSemicolon, Kind::Semicolon) =>
            Some(State::AfterSemicolon),
        (State::AfterObject | State::AfterObjectString | State::AfterSemicolon, Kind::Dot) => Some(
            State::AtSubject,
        ),
        (
            State::AtSubject
            | State::AfterObject
            | State::AfterObjectString
            | State::AfterSemicolon,
            Kind::CloseBrace,
        ) => Some(State::AtEnd),
        _ => None,
    }
}

/// Whether the tokens may end here.
pub fn is_end(state: State) -> bool
    ensures { result ≡ is_end state }
{
    matches!(state, State::AtEnd)
}
