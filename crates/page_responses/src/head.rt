// The head of an answer.
ghost use Rattle.std.specs.Prelude.{◌≡◌, ◌≤◌, ◌==◌, ◌++◌, [], ◌∷◌, codes, length, true, false, unwrap_or, OnOk, IfOk};
ghost use Rattle.http.specs.StatusCode.{reason_phrase};
ghost use Rattle.http_wire.specs.Fields.{pair_of, pairs_of};
ghost use Rattle.list_laws.specs.Begins.{Begins};
ghost use Rattle.tpf_base.specs.Decimals.{decimal_text};
ghost use Rattle.template_fill.specs.HttpAnswer.{answer_fields, field_if, head_text, media_text};
ghost use Rattle.page_responses.specs.declared.limits.TheConstants.{LONGEST_PART};
ghost use Rattle.page_responses.specs.Statuses.{code, media_of};

use crate::limits::LONGEST_PART;
use crate::lines::append;
use crate::status::Status;
use http::StatusCode;
use http_wire::{Field, write_head};
use itoa::Buffer;
use std::alloc::Global;
use tpf_base::{OutOfMemory, Text};

/// More bytes than the head of a page has.
const HEAD: usize = 256;

/// What a body is (RFC 9110, section 8.3.1).
#[derive(Clone, Copy)]
pub enum MediaType {
    NQuads,
    PlainText,
}

fn media_text(media: MediaType) -> &'static str
    ensures { result.now ≡ media_text (media_of media) }
{
    match media {
        MediaType::NQuads => "application/n-quads",
        MediaType::PlainText => "text/plain",
    }
}

fn field(alloc: Global, name: &str, value: &str) -> Result<Field, OutOfMemory>
    ensures { IfOk result (λ field. pair_of field ≡ (name.now, value.now)) }
{
    Ok(Field {
        name: Text::copy(alloc, name)?,
        value: Text::copy(alloc, value)?,
    })
}

/// The field that tells the length of a body (RFC 9110, section 8.6).
#[tactic(auto, using(tpf_base::proofs::DecimalTexts::decimal_of_u128))]
fn length_field(alloc: Global, length: u128) -> Result<Field, OutOfMemory>
    ensures { IfOk result (λ field. pair_of field ≡ (codes "Content-Length", decimal_text length)) }
{
    Ok(Field {
        name: Text::copy(alloc, "Content-Length")?,
        value: Text::from_string(length.to_string(alloc)?),
    })
}

/// Adds a field, where it is wanted.
fn push_if(
    fields: &mut Vec<Field>,
    alloc: Global,
    wanted: bool,
    name: &str,
    value: &str,
) -> Result<(), OutOfMemory>
    ensures { OnOk result
        (pairs_of fields.new.items ≡ pairs_of fields.old.items ++ field_if wanted name.now value.now) }
{
    if wanted {
        fields.push(field(alloc, name, value)?)?;
    }
    Ok(())
}

/// The fields that tell what a body is.
fn body_fields(alloc: Global, media: MediaType, length: u128) -> Result<Vec<Field>, OutOfMemory>
    ensures { IfOk result (λ fields. pairs_of fields.items
        ≡ (codes "Content-Type", media_text (media_of media)) ∷ (codes "Content-Length", decimal_text length) ∷ []) }
{
    let mut fields = Vec::with_capacity(alloc, 4)?;
    fields.push(field(alloc, "Content-Type", media_text(media))?)?;
    fields.push(length_field(alloc, length)?)?;
    Ok(fields)
}

/// The fields of an answer whose body has this length.
#[tactic(auto, unfolding(template_fill::specs::HttpAnswer::answer_fields))]
fn fields(
    alloc: Global,
    status: Status,
    media: MediaType,
    length: u128,
    closes: bool,
) -> Result<Vec<Field>, OutOfMemory>
    ensures { IfOk result
        (λ fields. pairs_of fields.items ≡ answer_fields (code status) (media_of media) length closes) }
{
    let mut fields = body_fields(alloc, media, length)?;
    push_if(
        &mut fields,
        alloc,
        status == Status::MethodNotAllowed,
        "Allow",
        "GET, HEAD",
    )?;
    push_if(&mut fields, alloc, closes, "Connection", "close")?;
    Ok(fields)
}

/// Whether an answer is a page, on a connection that goes on.
fn is_page(status: Status, media: MediaType, closes: bool) -> bool
    ensures { result ≡ true → (status ≡ Status.Success) × ((media ≡ MediaType.NQuads) × (closes ≡ false)) }
{
    if closes {
        return false;
    }
    match media {
        MediaType::NQuads => matches!(status, Status::Success),
        MediaType::PlainText => false,
    }
}

/// How many bytes a buffer is made with for a page and its head: 0 where a connection keeps none as long.
fn buffer_length(body_length: u128) -> usize {
    if body_length > LONGEST_PART as u128 {
        return 0;
    }
    let wanted = body_length as usize + HEAD;
    if wanted > LONGEST_PART {
        return 0;
    }
    wanted.next_power_of_two()
}

/// Makes room for a page at once, where nothing is pending and it has its place in a buffer that a
/// connection keeps: grown part by part, a buffer might pass what is kept, and be made anew for each page.
fn make_room(body_length: u128, out: &mut Vec<u8>) -> Result<(), OutOfMemory>
    ensures same { out.new.items ≡ out.old.items }
{
    let length = buffer_length(body_length);
    if out.is_empty() && out.capacity() < length {
        out.reserve_exact(length)?;
    }
    Ok(())
}

/// Appends the head of a page, on a connection that goes on. All but the length of its body is the same
/// on every page, so no list of fields is made.
fn write_page_head(body_length: u128, out: &mut Vec<u8>) -> Result<(), OutOfMemory>
    ensures ok { OnOk result (out.new.items
        ≡ out.old.items ++ head_text (code Status.Success) (media_of MediaType.NQuads) body_length false) }
    ensures front { Begins out.old.items out.new.items }
{
    make_room(body_length, out)?;
    let mut digits = Buffer::new();
    append(
        "HTTP/1.1 200 OK\r\nContent-Type: application/n-quads\r\nContent-Length: ",
        out,
    )?;
    append(digits.format(body_length), out)?;
    append("\r\n\r\n", out)?;
    Ok(())
}

/// The phrase that is registered for a status (RFC 9110, section 15).
fn phrase_of(status: StatusCode) -> &'static str
    ensures { result.now ≡ unwrap_or (reason_phrase status) [] }
{
    status.canonical_reason().unwrap_or("")
}

/// Appends the head of an answer whose body has this length; `closes` tells that the connection ends with it.
///
/// `OutOfMemory` comes only where memory runs out.
#[tactic(auto, using(list_laws::proofs::Begins::same_begins, list_laws::proofs::Begins::more_begins, crate::proofs::HeadLaws::short_head))]
pub fn write_answer_head(
    alloc: Global,
    status: Status,
    media: MediaType,
    body_length: u128,
    closes: bool,
    out: &mut Vec<u8>,
) -> Result<(), OutOfMemory>
    ensures ok { OnOk result
        (out.new.items ≡ out.old.items ++ head_text (code status) (media_of media) body_length closes) }
    ensures few { length (head_text (code status) (media_of media) body_length closes) ≤ LONGEST_PART }
    ensures front { Begins out.old.items out.new.items }
{
    if is_page(status, media, closes) {
        return write_page_head(body_length, out);
    }
    let fields = fields(alloc, status, media, body_length, closes)?;
    let code = status.code();
    write_head(code.as_str(), phrase_of(code), fields.as_slice(), out)
}
