// Numbers as literals write them.
ghost use Rattle.std.specs.Prelude.{ℕ, ◌≡◌, true, false, Some, MatchOption};
ghost use Rattle.std.specs.List.{list_all};
ghost use Rattle.std.specs.Char.{is_ascii_digit};
ghost use Rattle.std.specs.Str.Parse.{digits_value};
ghost use Rattle.control_triples.specs.Controls.{is_count_text, IsNumber};

use rdf_terms::Term;
use tpf_base::MOST_DIGITS;

fn are_digits(bytes: &[u8]) -> bool
    ensures { result ≡ list_all is_ascii_digit bytes.now }
{
    bytes.iter().all(|b| b.is_ascii_digit())
}

pub(crate) fn is_count_text(digits: &[u8]) -> bool
    ensures { result ≡ is_count_text digits.now }
{
    digits.len() >= 1 && (digits.len() <= MOST_DIGITS && are_digits(digits))
}

/// The number that up to `MOST_DIGITS` digits write.
fn value_of(digits: &str) -> Option<u64>
    requires { is_count_text digits.now ≡ true }
    ensures { result ≡ Some (digits_value 10 digits.now) }
{
    digits.parse::<u64>().ok()
}

/// The number that a text of 1 to `MOST_DIGITS` (19) digits writes; no other text is one.
pub fn number_of_digits(digits: &str) -> Option<u64>
    ensures { MatchOption result (is_count_text digits.now ≡ false)
        (λ n. (is_count_text digits.now ≡ true) × (n ≡ digits_value 10 digits.now)) }
{
    if is_count_text(digits.as_bytes()) {
        value_of(digits)
    } else {
        None
    }
}

/// The number that a literal of 1 to `MOST_DIGITS` digits (19) is; no other term is one.
pub fn number(term: &Term) -> Option<u64>
    ensures { MatchOption result ((n : ℕ) → IsNumber term.now n → ⊥) (λ n. IsNumber term.now n) }
{
    let Term::Literal { form, .. } = term else {
        return None;
    };
    number_of_digits(form.as_str())
}
