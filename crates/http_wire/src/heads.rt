// Where a head begins and ends.
ghost use Rattle.std.specs.Prelude.{◌≡◌, ◌+◌, ◌≤◌, ◌==◌, length, count_by, take, drop, None, IfSome};
ghost use Rattle.std.specs.List.{between};
ghost use Rattle.tpf_base.specs.HttpHeads.{blank_length, ends_empty, least_below, head_length};

/// The bytes from a place on.
pub fn behind(bytes: &[u8], n: usize) -> &[u8]
    requires { n ≤ length bytes.now }
    ensures { result.now ≡ drop n bytes.now }
{
    &bytes[n..]
}

/// The first so many bytes.
pub fn front(bytes: &[u8], n: usize) -> &[u8]
    requires { n ≤ length bytes.now }
    ensures { result.now ≡ take n bytes.now }
{
    &bytes[..n]
}

/// The bytes from one place up to another.
pub fn part_of(bytes: &[u8], from: usize, to: usize) -> &[u8]
    requires ordered { from ≤ to }
    requires within { to ≤ length bytes.now }
    ensures { result.now ≡ between from to bytes.now }
{
    &bytes[from..to]
}

/// Whether the first `n` bytes end in an empty line after another line.
#[tactic(auto, unfolding(tpf_base::specs::HttpHeads::ends_empty))]
pub fn ends_empty(bytes: &[u8], n: usize) -> bool
    requires { n ≤ length bytes.now }
    ensures { result ≡ ends_empty bytes.now n }
{
    n > 1
        && bytes[n - 1] == b'\n'
        && (bytes[n - 2] == b'\n' || (n > 2 && bytes[n - 2] == b'\r' && bytes[n - 3] == b'\n'))
}

/// How many bytes of empty lines stand at the front.
#[tactic(auto, unfolding(tpf_base::specs::HttpHeads::blank_length))]
pub fn blank_length(bytes: &[u8]) -> usize
    ensures is { result ≡ blank_length bytes.now }
    ensures within { result ≤ length bytes.now }
{
    let mut rest = bytes;
    loop {
        match rest {
            [b'\n', after @ ..] => rest = after,
            [b'\r', b'\n', after @ ..] => rest = after,
            _ => return bytes.len() - rest.len(),
        }
    }
}

/// The length of the head at the front, where none of fewer than `from` bytes stands there.
#[tactic(auto, using(crate::proofs::HeadLemmas::least_found, crate::proofs::HeadLemmas::least_step))]
pub fn head_length(bytes: &[u8], from: usize) -> Option<usize>
    requires none_before { least_below from (ends_empty bytes.now) ≡ None }
    requires in_range { from ≤ length bytes.now + 1 }
    ensures is { result ≡ head_length bytes.now }
    ensures within { IfSome result (λ n. n ≤ length bytes.now) }
{
    for n in from..=bytes.len() {
        if ends_empty(bytes, n) {
            return Some(n);
        }
    }
    None
}

/// How many line feeds a head has.
pub fn line_feeds(head: &[u8]) -> usize
    ensures { result ≡ count_by (λ b. b == 10) head.now }
{
    head.iter().filter(|b| **b == b'\n').count()
}
