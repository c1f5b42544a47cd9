// What a request asks for.
ghost use Rattle.std.specs.Prelude.{◌≡◌, ◌≤◌, ◌+◌, ◌^◌, ◌&&◌, ℕ, Some, bytes_eq, drop, length, is_some, IfOk, [], true, false};
ghost use Rattle.template_fill.specs.ReadAddress.{path_of};
ghost use Rattle.template_fill.specs.Answers.{is_path_of_reload};
ghost use Rattle.tpf_server.specs.Parameters.{page_in, question_in, rows_in};
ghost use Rattle.tpf_server.specs.Asked.{IsAsked, answer_at, answer_for, answer_for_target, answer_of, is_head, is_other, refused_with};
ghost use Rattle.tpf_server.specs.Reloads.{outcome_queued};

use crate::Server;
use crate::outcome::Reloaded;
use crate::parameters::{PageNumber, Parameters, found_in, page, path_length, slots};
use crate::rows::{RowValues, Rows};
use http_wire::{Asked, RequestHead};
use page_responses::{Snapshot, Status};
use rdf_terms::Slots;
use std::alloc::Global;
use tpf_base::OutOfMemory;

/// What is to be answered: a status without a page, the number of the version that a reload reached, or
/// a page of what is selected of a version of the data, which may be past the last.
#[derive(Drop)]
pub enum Asking {
    Refused(Status),
    Reloaded(u64),
    Page {
        slots: Slots,
        rows: Rows,
        page: u64,
        snapshot: Snapshot,
    },
}

/// An answer that is not yet begun.
#[derive(Drop)]
pub struct Queued {
    pub asking: Asking,
    /// The head alone is asked for.
    pub without_body: bool,
    /// The connection ends with this answer.
    pub closes: bool,
}

/// What parameters ask for whose page has this number.
#[tactic(auto, using(crate::proofs::AskedLaws::numbered_answer, crate::proofs::AskedLaws::no_slots_answer, crate::proofs::AskedLaws::no_rows_answer, crate::proofs::AskedLaws::some_fit))]
fn asked_by_number(
    alloc: Global,
    server: &Server,
    found: Parameters,
    page: u64,
) -> Result<Asking, OutOfMemory>
    requires number { page_in found.page ≡ Some page }
    requires some { 1 ≤ page }
    ensures asked { IfOk result IsAsked }
    ensures answer { IfOk result
        (λ asking. answer_of server.now.config asking ≡ answer_at server.now (question_in found)) }
{
    let slots = slots(alloc, &found);
    let rows = found.into_rows();
    let Some(slots) = slots? else {
        return Ok(Asking::Refused(Status::BadRequest));
    };
    match rows {
        RowValues::Read(rows) => match server.share() {
            Ok(snapshot) => Ok(Asking::Page {
                slots,
                rows,
                page,
                snapshot,
            }),
            Err(fault) => {
                drop(slots);
                Err(fault)
            }
        },
        RowValues::Refused => {
            // Dropped here, so that no exit below has it.
            drop(slots);
            Ok(Asking::Refused(Status::BadRequest))
        }
    }
}

/// Whether slots and rows are given.
fn are_given(slots: Option<Slots>, rows: &RowValues) -> bool
    ensures { result ≡ (is_some slots && is_some (rows_in rows.now)) }
{
    let some = slots.is_some();
    drop(slots);
    some && matches!(rows, RowValues::Read(_))
}

/// What parameters ask for whose page has a number that 64 bits do not hold: a page has at least one
/// triple, and a table fewer triples than that.
fn asked_beyond(alloc: Global, server: &Server, found: &Parameters) -> Result<Asking, OutOfMemory>
    requires { (n : ℕ) × ((page_in found.now.page ≡ Some n) × (2 ^ 64 ≤ n)) }
    ensures asked { IfOk result IsAsked }
    ensures answer { IfOk result
        (λ asking. answer_of server.now.config asking ≡ answer_at server.now (question_in found.now)) }
{
    let _triples = server.table().len();
    let _size = server.config().page_size();
    let slots = slots(alloc, found)?;
    if are_given(slots, &found.rows) {
        Ok(Asking::Refused(Status::NotFound))
    } else {
        Ok(Asking::Refused(Status::BadRequest))
    }
}

/// What these parameters ask for.
#[tactic(auto, using(crate::proofs::AskedLaws::no_page_answer))]
fn asked_by_parameters(
    alloc: Global,
    server: &Server,
    found: Parameters,
) -> Result<Asking, OutOfMemory>
    ensures asked { IfOk result IsAsked }
    ensures answer { IfOk result
        (λ asking. answer_of server.now.config asking ≡ answer_at server.now (question_in found)) }
{
    match page(&found.page) {
        PageNumber::Number(page) => asked_by_number(alloc, server, found, page),
        PageNumber::Beyond => {
            let asking = asked_beyond(alloc, server, &found);
            drop(found);
            asking
        }
        PageNumber::Refused => {
            drop(found);
            Ok(Asking::Refused(Status::BadRequest))
        }
    }
}

/// Whether a path is that of the base.
fn is_base(server: &Server, path: &[u8]) -> bool
    ensures { result ≡ bytes_eq path.now server.now.config.base.path }
{
    path == server.config().base().target().as_bytes()
}

/// What stands behind the mark at the end of a path.
fn query_after(target: &[u8], path: usize) -> &[u8]
    requires { path ≤ length target.now }
    ensures { result.now ≡ drop (path + 1) target.now }
{
    if path < target.len() {
        &target[path + 1..]
    } else {
        &[]
    }
}

/// What a GET or HEAD for a target asks for.
#[tactic(auto, using(crate::proofs::AskedLaws::other_path, crate::proofs::AskedLaws::base_path))]
fn asked_by_target(alloc: Global, server: &Server, target: &[u8]) -> Result<Asking, OutOfMemory>
    ensures asked { IfOk result IsAsked }
    ensures answer { IfOk result
        (λ asking. answer_of server.now.config asking ≡ answer_for_target server.now target.now) }
{
    let path = path_length(target);
    if !is_base(server, &target[..path]) {
        return Ok(Asking::Refused(Status::NotFound));
    }
    let reads_rows = server.config().reads_rows();
    let found = found_in(alloc, reads_rows, query_after(target, path))?;
    asked_by_parameters(alloc, server, found)
}

/// What a request for a target asks for.
#[tactic(auto, unfolding(crate::specs::Asked::answer_for, crate::specs::Asked::answer_of))]
fn asked_for(
    alloc: Global,
    server: &Server,
    method: Asked,
    target: &[u8],
) -> Result<Asking, OutOfMemory>
    ensures asked { IfOk result IsAsked }
    ensures answer { IfOk result
        (λ asking. answer_of server.now.config asking ≡ answer_for server.now method target.now) }
{
    match method {
        Asked::Other => Ok(Asking::Refused(Status::MethodNotAllowed)),
        Asked::Get => asked_by_target(alloc, server, target),
        Asked::Head => asked_by_target(alloc, server, target),
    }
}

/// Whether a target has the path of a reload.
fn is_reload_target(server: &Server, target: &[u8]) -> bool
    ensures { result ≡ is_path_of_reload server.now.config.reload (path_of target.now) }
{
    let path = path_length(target);
    server.config().is_reload(&target[..path])
}

/// Whether a request asks for a reload.
pub fn asks_reload(server: &Server, head: &RequestHead) -> bool
    ensures { result ≡ (is_other head.now.method
        && is_path_of_reload server.now.config.reload (path_of head.now.target)) }
{
    match head.method {
        Asked::Get => false,
        Asked::Head => false,
        Asked::Other => is_reload_target(server, head.target.as_str().as_bytes()),
    }
}

/// What a request asks for that asks for no reload.
pub fn asked_by(alloc: Global, server: &Server, head: &RequestHead) -> Result<Queued, OutOfMemory>
    ensures asked { IfOk result (λ queued. IsAsked queued.asking) }
    ensures answer { IfOk result (λ queued.
        answer_of server.now.config queued.asking ≡ answer_for server.now head.now.method head.now.target) }
    ensures body { IfOk result (λ queued. queued.without_body ≡ is_head head.now.method) }
    ensures closes { IfOk result (λ queued. queued.closes ≡ head.now.closes) }
{
    let asking = asked_for(alloc, server, head.method, head.target.as_str().as_bytes())?;
    Ok(Queued {
        asking,
        without_body: matches!(head.method, Asked::Head),
        closes: head.closes,
    })
}

/// The answer to a head that is refused, with which the connection ends.
pub fn refusal_of(status: u16) -> Queued
    ensures { result ≡ record { asking = Asking.Refused (refused_with status); without_body = false; closes = true } }
{
    let status = if status == 431 {
        Status::HeaderFieldsTooLarge
    } else {
        Status::BadRequest
    };
    Queued {
        asking: Asking::Refused(status),
        without_body: false,
        closes: true,
    }
}

/// The answer to a request for a reload that came out so.
pub fn reload_answer(outcome: Reloaded, closes: bool) -> Queued
    ensures { result ≡ outcome_queued outcome closes }
{
    let asking = match outcome {
        Reloaded::Version(number) => Asking::Reloaded(number),
        Reloaded::Failed => Asking::Refused(Status::InternalServerError),
        Reloaded::OutOfMemory => Asking::Refused(Status::ServiceUnavailable),
    };
    Queued {
        asking,
        without_body: false,
        closes,
    }
}
