// Numbers, as a server writes them.
ghost use Rattle.std.specs.Prelude.{◌≡◌, ◌≤◌, IfSome, IsTrue, get_or, length};
ghost use Rattle.tpf_base.specs.declared.limits.TheConstants.{HIGHEST_NUMBER};
ghost use Rattle.tpf_base.specs.Decimals.{decimal_text};

use control_triples::number_of_digits;

/// Whether there are digits, and no 0 stands before others.
fn is_plain(digits: &[u8]) -> bool
    ensures { IsTrue result → get_or digits.now 0 0 ≡ 48 → length digits.now ≡ 1 }
{
    match digits {
        [] => false,
        [_] => true,
        [b, ..] => *b != b'0',
    }
}

/// The number that these digits are written for: at most `MOST_DIGITS`, with no 0 in front.
pub(crate) fn number(digits: &str) -> Option<u64>
    ensures digits { IfSome result (λ n. decimal_text n ≡ digits.now) }
    ensures few { IfSome result (λ n. n ≤ HIGHEST_NUMBER) }
{
    if !is_plain(digits.as_bytes()) {
        return None;
    }
    number_of_digits(digits)
}
