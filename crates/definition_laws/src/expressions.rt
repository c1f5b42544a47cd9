// What a regular expression matches and begins, what is left of one after a letter, and which match the empty text.
ghost use Rattle.regular_expressions.specs.Regular.{MatchingIsDecided, BeginningIsDecided, LeftIsExact, NullableIsExact, AliveBegins};

/// A text matches an expression or does not; what is left after the text says which.
pub fn matching_is_decided()
    ensures { MatchingIsDecided }
{}

/// A text is a prefix of some text that matches an expression, or of none.
pub fn beginning_is_decided()
    ensures { BeginningIsDecided }
{}

/// What is left of an expression after a letter matches exactly the texts that may follow it.
pub fn left_is_exact()
    ensures { LeftIsExact }
{}

/// `nullable` says exactly which expressions the empty text matches.
pub fn nullable_is_exact()
    ensures { NullableIsExact }
{}

/// Some text matches an expression that is alive: no part of it is nothing, or an empty set.
pub fn alive_begins()
    ensures { AliveBegins }
{}
