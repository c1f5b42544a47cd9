// The target of a request.
ghost use Rattle.std.specs.Prelude.{◌≡◌, ◌==◌, ◌&&◌, nat_le, not, drop, true, IfOk};
ghost use Rattle.std.specs.Str.{IsAscii};
ghost use Rattle.tpf_base.specs.HttpHeads.{begins_with, are_visible, is_target, from_path, with_path, origin_form};

use std::alloc::Global;
use tpf_base::{OutOfMemory, Text};

/// Whether the byte may stand in a target.
fn is_visible(b: u8) -> bool
    ensures { result ≡ (nat_le 33 b && (nat_le b 126 && not (b == 35))) }
{
    b >= b'!' && b <= b'~' && b != b'#'
}

#[tactic(auto, unfolding(tpf_base::specs::HttpHeads::begins_with))]
fn begins_with(bytes: &[u8], front: &[u8]) -> bool
    ensures { result ≡ begins_with bytes.now front.now }
{
    bytes.starts_with(front)
}

#[tactic(auto, unfolding(tpf_base::specs::HttpHeads::are_visible))]
fn are_visible(bytes: &[u8]) -> bool
    ensures { result ≡ are_visible bytes.now }
{
    bytes.iter().all(|b| is_visible(*b))
}

/// Whether a request with this target is answered.
#[tactic(auto, unfolding(tpf_base::specs::HttpHeads::is_target))]
pub fn is_target(target: &[u8]) -> bool
    ensures { result ≡ is_target target.now }
{
    are_visible(target) && (begins_with(target, b"/") || begins_with(target, b"http://"))
}

/// What stands from the first `/` or `?` on.
#[tactic(auto, unfolding(tpf_base::specs::HttpHeads::from_path))]
fn from_path(bytes: &[u8]) -> &[u8]
    ensures { result.now ≡ from_path bytes.now }
{
    for (i, b) in bytes.iter().enumerate() {
        if *b == b'/' || *b == b'?' {
            return &bytes[i..];
        }
    }
    &[]
}

/// The same bytes as text.
#[tactic(auto, using(crate::proofs::FieldLemmas::ascii_text))]
fn ascii_text(bytes: &[u8]) -> &str
    requires { IsAscii bytes.now }
    ensures { result.now ≡ bytes.now }
{
    match str::from_utf8(bytes) {
        Ok(text) => text,
        Err(_) => "",
    }
}

/// What follows `http://`.
fn after_scheme(target: &[u8]) -> &[u8]
    ensures { result.now ≡ drop 7 target.now }
{
    if target.len() < 7 {
        return &[];
    }
    &target[7..]
}

/// The path and the query, with `/` for an empty path.
#[tactic(auto, unfolding(tpf_base::specs::HttpHeads::with_path))]
fn with_path(alloc: Global, rest: &[u8]) -> Result<Text, OutOfMemory>
    requires { IsAscii rest.now }
    ensures { IfOk result (λ t. t ≡ with_path rest.now) }
{
    if begins_with(rest, b"/") {
        return Text::copy(alloc, ascii_text(rest));
    }
    let mut text = String::new(alloc);
    text.push('/')?;
    text.push_str(ascii_text(rest))?;
    Ok(Text::from_string(text))
}

/// The path and the query of a target.
#[tactic(auto, using(crate::proofs::FieldLemmas::target_is_ascii, crate::proofs::FieldLemmas::path_is_ascii), unfolding(tpf_base::specs::HttpHeads::origin_form))]
pub fn origin_form(alloc: Global, target: &[u8]) -> Result<Text, OutOfMemory>
    requires { is_target target.now ≡ true }
    ensures { IfOk result (λ t. t ≡ origin_form target.now) }
{
    if begins_with(target, b"/") {
        return Text::copy(alloc, ascii_text(target));
    }
    with_path(alloc, from_path(after_scheme(target)))
}
