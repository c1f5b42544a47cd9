// The bytes of a request and of the head of an answer.
ghost use Rattle.std.specs.Prelude.{◌≡◌, ◌++◌, length, take, OnOk, OnErr};
ghost use Rattle.std.specs.List.{flat_map};
ghost use Rattle.tpf_base.specs.HttpText.{answer_head, status_line, field_line, request_text};
ghost use Rattle.http_wire.specs.Fields.{pair_of, pairs_of};

use crate::message::Field;
use tpf_base::OutOfMemory;

/// How many bytes the parts have, or the most that can be counted.
fn total_length(parts: &[&[u8]]) -> usize {
    let mut total = 0usize;
    for part in parts {
        total = total.saturating_add(part.len());
    }
    total
}

/// Appends the parts, or as many of them as there is memory for.
#[tactic(auto, using(crate::proofs::WriteLemmas::fronts))]
fn append_parts(out: &mut Vec<u8>, parts: &[&[u8]]) -> Result<(), OutOfMemory>
    ensures ok { OnOk result (out.new.items ≡ out.old.items ++ flat_map (λ p. p.now) parts.now) }
    ensures kept { take (length out.old.items) out.new.items ≡ out.old.items }
{
    for part in parts {
        out.extend_from_slice(part)?;
    }
    Ok(())
}

/// Appends these parts; out of memory, nothing is appended.
fn append_all(out: &mut Vec<u8>, parts: &[&[u8]]) -> Result<(), OutOfMemory>
    ensures ok { OnOk result (out.new.items ≡ out.old.items ++ flat_map (λ p. p.now) parts.now) }
    ensures err { OnErr result (out.new.items ≡ out.old.items) }
{
    out.reserve(total_length(parts))?;
    let length = out.len();
    let done = append_parts(out, parts);
    if done.is_err() {
        out.truncate(length);
    }
    done
}

/// Appends a GET request for a target of an authority, which its Host field names; it accepts N-Quads
/// (RFC 9112, section 3). Out of memory, nothing is appended.
#[tactic(auto, using(crate::proofs::WriteLemmas::request_is))]
pub fn write_request(authority: &str, target: &str, out: &mut Vec<u8>) -> Result<(), OutOfMemory>
    ensures ok { OnOk result (out.new.items ≡ out.old.items ++ request_text authority.now target.now) }
    ensures err { OnErr result (out.new.items ≡ out.old.items) }
{
    append_all(
        out,
        &[
            b"GET ",
            target.as_bytes(),
            b" HTTP/1.1\r\nHost: ",
            authority.as_bytes(),
            b"\r\nAccept: application/n-quads\r\n\r\n",
        ],
    )
}

/// Appends a status line.
#[tactic(auto, using(crate::proofs::WriteLemmas::status_is))]
fn append_line(out: &mut Vec<u8>, digits: &[u8], phrase: &[u8]) -> Result<(), OutOfMemory>
    ensures ok { OnOk result (out.new.items ≡ out.old.items ++ status_line digits.now phrase.now) }
    ensures err { OnErr result (out.new.items ≡ out.old.items) }
{
    append_all(out, &[b"HTTP/1.1 ", digits, b" ", phrase, b"\r\n"])
}

/// Appends a field line.
#[tactic(auto, using(crate::proofs::WriteLemmas::field_is))]
fn append_field(field: &Field, out: &mut Vec<u8>) -> Result<(), OutOfMemory>
    ensures ok { OnOk result (out.new.items ≡ out.old.items ++ field_line (pair_of field.now)) }
    ensures err { OnErr result (out.new.items ≡ out.old.items) }
{
    append_all(
        out,
        &[
            field.name.as_str().as_bytes(),
            b": ",
            field.value.as_str().as_bytes(),
            b"\r\n",
        ],
    )
}

/// Appends the head of an answer, or a part of it.
#[tactic(auto, using(crate::proofs::WriteLemmas::fronts, crate::proofs::WriteLemmas::head_more))]
fn append_head(
    digits: &[u8],
    phrase: &[u8],
    fields: &[Field],
    out: &mut Vec<u8>,
) -> Result<(), OutOfMemory>
    ensures ok { OnOk result (out.new.items
        ≡ out.old.items ++ answer_head digits.now phrase.now (pairs_of fields.now)) }
    ensures kept { take (length out.old.items) out.new.items ≡ out.old.items }
{
    append_line(out, digits, phrase)?;
    for field in fields {
        append_field(field, out)?;
    }
    out.extend_from_slice(b"\r\n")?;
    Ok(())
}

/// Appends the head of an answer (RFC 9112, sections 4 and 5): the status line with the digits of the status code
/// and its reason phrase, each field in order, and the empty line. Out of memory, nothing is appended.
pub fn write_head(
    code: &str,
    phrase: &str,
    fields: &[Field],
    out: &mut Vec<u8>,
) -> Result<(), OutOfMemory>
    ensures ok { OnOk result
        (out.new.items ≡ out.old.items ++ answer_head code.now phrase.now (pairs_of fields.now)) }
    ensures err { OnErr result (out.new.items ≡ out.old.items) }
{
    let before = out.len();
    let done = append_head(code.as_bytes(), phrase.as_bytes(), fields, out);
    if done.is_err() {
        out.truncate(before);
    }
    done
}
