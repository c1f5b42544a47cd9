// Canonical text (N-Triples, "A Canonical form of N-Triples"): the bytes that are written with a backslash, and lengths.
ghost use Rattle.std.specs.Prelude.{◌≡◌, ◌≤◌, ◌<◌, ◌^◌, length};
ghost use Rattle.rdf_terms.specs.Canon.{is_marked, after_mark, marks, kind_len, canonical_term};

use crate::{Kind, Term};

/// Whether a byte of a lexical form is written with a backslash: a quote, a backslash, LF or CR.
#[inline]
pub fn is_marked(b: u8) -> bool
    ensures { result ≡ is_marked b }
{
    matches!(b, b'"' | b'\\' | b'\n' | b'\r')
}

/// What stands behind the backslash for such a byte: `n` for LF, `r` for CR, and else the byte itself.
#[inline]
pub fn after_mark(b: u8) -> u8
    ensures { result ≡ after_mark b }
{
    match b {
        b'\n' => b'n',
        b'\r' => b'r',
        _ => b,
    }
}

/// How many bytes of a lexical form are written with a backslash.
pub fn marks(form: &[u8]) -> usize
    ensures marks { result ≡ marks form.now }
    ensures within { result ≤ length form.now }
{
    let mut marks = 0;
    for b in form {
        if is_marked(*b) {
            marks += 1;
        }
    }
    marks
}

impl Kind {
    /// How many bytes stand behind the closing quote of a literal.
    fn canonical_len(&self) -> u128
        ensures length { result ≡ kind_len self.now }
        ensures small { result < 2 ^ 65 }
    {
        match self {
            Kind::Plain => 0,
            Kind::Typed(datatype) => datatype.as_str().len() as u128 + 4,
            Kind::Tagged(tag) => tag.as_str().len() as u128 + 1,
        }
    }
}

impl Term {
    /// How many bytes the canonical text of the term has, found without making it.
    #[tactic(auto, using(crate::proofs::Lengths::canonical_len_is))]
    pub fn canonical_len(&self) -> u128
        ensures length { result ≡ length (canonical_term self.now) }
        ensures small { result < 2 ^ 67 }
    {
        match self {
            Term::Iri(text) => text.as_str().len() as u128 + 2,
            Term::Blank(label) => label.as_str().len() as u128 + 2,
            Term::Literal { form, kind } => {
                let form = form.as_str().as_bytes();
                form.len() as u128 + marks(form) as u128 + 2 + kind.canonical_len()
            }
        }
    }
}
