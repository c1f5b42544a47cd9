//! What one end of HTTP writes, the other reads: the laws that join the request texts of a client
//! with the heads that a server finds, and the answers of a server with the replies that a client
//! reads (RFC 9112). Its proofs have too how the response to the bytes of a connection grows.
//!
//! A law is a function that does nothing: what its contract says is known where it was called. So a
//! law above this crate calls those that it rests on:
//!
//! ```rust
//! pub fn an_honest_reply_is_refused_as_too_long_alone()
//!     ensures { RefusedAsTooLongAlone }
//! {
//!     a_response_is_cut();
//!     an_answer_is_read();
//!     a_reading_stays();
//! }
//! ```
#![tactic(auto)]

ghost use Rattle.http_ends.specs.Answers.{AnswersAreRead, AnswersHaveStatus, HeadsAreShort, KeptBeforeTheEnd, LongHeadsAreRefused, PagesAreNQuads, ReadingsStay, ServerAnswersAreRead};
ghost use Rattle.http_ends.specs.Cuts.{NextAnswerIsCut, PartsAreNotOwed, RepliesAreCut, RequestIsSent, ResponseIsCut};
ghost use Rattle.http_ends.specs.Requests.{AddressesArePlain, PartsHaveNone, PiecesAreRequests, RequestsAreCut, RequestsDiffer};

/// The authority and the target of an address have no space, CR or LF (`plain`), so requests are
/// told apart: equal bytes begin with equal requests, and none is a proper prefix of another
/// (`differ`, `part`). The bytes of a link are whole requests and a rest without one in one way
/// (`once`), and are cut so behind each empty line (`pieces`).
pub fn requests_are_cut()
    ensures plain { AddressesArePlain }
    ensures differ { RequestsDiffer }
    ensures part { PartsHaveNone }
    ensures once { RequestsAreCut }
    ensures pieces { PiecesAreRequests }
{}

/// An answer of N-Quads with status 200 whose body is within the limit is read as its body, of exactly
/// its length, whatever follows it, and each proper prefix of it wants more; any other answer is refused
/// as soon as its head stands, by its status, by its media type or as too long (`read`, `refused`). A
/// head is within the limit of heads unless its body's length has tens of thousands of digits
/// (`short`), so each answer of a server is read so (`server`, `status`). An answer with status 200 is
/// of N-Quads unless a reload was asked for (`pages`).
pub fn an_answer_is_read()
    ensures read { AnswersAreRead }
    ensures refused { LongHeadsAreRefused }
    ensures short { HeadsAreShort }
    ensures status { AnswersHaveStatus }
    ensures server { ServerAnswersAreRead }
    ensures pages { PagesAreNQuads }
{}

/// A whole reply, or a refusal, is read the same with more bytes behind it, and at the end of them
/// (`stays`). A reply that runs to the close keeps nothing, so one that keeps the link is whole
/// before the end (`kept`; RFC 9112, sections 6.3 and 9.3).
pub fn a_reading_stays()
    ensures stays { ReadingsStay }
    ensures kept { KeptBeforeTheEnd }
{}

/// Behind whole requests a link stands as at what follows them: what is owed is one whole answer for
/// each, and then what is owed for the rest (`sent`, `cut`); a part of a request is owed nothing
/// (`part`). Over an honest other end, where each request so far was answered by one whole reply,
/// each reply is the answer to its own request over its own mark (`replies`), and what comes next is
/// the answer to the next request (`next`).
pub fn a_response_is_cut()
    ensures sent { RequestIsSent }
    ensures cut { ResponseIsCut }
    ensures part { PartsAreNotOwed }
    ensures replies { RepliesAreCut }
    ensures next { NextAnswerIsCut }
{}
