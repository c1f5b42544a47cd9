// The order of terms and of triples, found without making canonical text.
ghost use Rattle.std.specs.Prelude.{◌≡◌, ◌<◌, length, IsTrue};
ghost use Rattle.rdf_terms.specs.Fronts.{is_front, byte_behind};
ghost use Rattle.rdf_terms.specs.Compare.{ended_cmp, first_written, byte_cmp, form_cmp, kind_cmp, term_cmp};
ghost use Rattle.rdf_terms.specs.Order.{bytes_order};

use crate::canon::{after_mark, is_marked};
use crate::{Kind, Term, Triple};
use std::cmp::Ordering;

fn first_written(b: u8) -> u8
    ensures { result ≡ first_written b }
{
    if is_marked(b) { b'\\' } else { b }
}

fn byte_cmp(x: u8, y: u8) -> Ordering
    ensures { result ≡ byte_cmp x y }
{
    if is_marked(x) {
        if is_marked(y) {
            after_mark(x).cmp(&after_mark(y))
        } else {
            b'\\'.cmp(&y)
        }
    } else if is_marked(y) {
        x.cmp(&b'\\')
    } else {
        x.cmp(&y)
    }
}

/// Whether the first text is a prefix of the second, which is longer.
#[tactic(auto, using(crate::proofs::Ended::front_short, crate::proofs::Ended::front_long))]
fn is_front(a: &[u8], b: &[u8]) -> bool
    ensures front { result ≡ is_front a.now b.now }
    ensures shorter { IsTrue result → length a.now < length b.now }
{
    a.len() < b.len() && b.starts_with(a)
}

/// The byte of the second text behind the first, which is a prefix of it.
#[tactic(auto, using(crate::proofs::Ended::behind_is))]
fn byte_behind(a: &[u8], b: &[u8]) -> u8
    requires front { IsTrue (is_front a.now b.now) }
    requires shorter { length a.now < length b.now }
    ensures { result ≡ byte_behind a.now b.now }
{
    b[a.len()]
}

/// Two texts, each with this byte behind it: their own order decides, unless one is a prefix of the other.
#[tactic(auto, using(crate::proofs::Ended::by_order, crate::proofs::Ended::by_first, crate::proofs::Ended::by_second))]
fn ended_cmp(end: u8, a: &str, b: &str) -> Ordering
    ensures { result ≡ ended_cmp end a.now b.now }
{
    let (x, y) = (a.as_bytes(), b.as_bytes());
    if is_front(x, y) {
        end.cmp(&byte_behind(x, y)).then(Ordering::Less)
    } else if is_front(y, x) {
        byte_behind(y, x).cmp(&end).then(Ordering::Greater)
    } else {
        a.cmp(b)
    }
}

/// Two lexical forms as they are written; where they are the same, the rest decides.
fn form_cmp(rest: Ordering, a: &[u8], b: &[u8]) -> Ordering
    ensures { result ≡ form_cmp rest a.now b.now }
{
    let mut n: usize = 0;
    while n < a.len() && n < b.len() {
        if a[n] != b[n] {
            return byte_cmp(a[n], b[n]);
        }
        n += 1;
    }
    if n < b.len() {
        b'"'.cmp(&first_written(b[n]))
    } else if n < a.len() {
        first_written(a[n]).cmp(&b'"')
    } else {
        rest
    }
}

fn bytes_cmp(a: &str, b: &str) -> Ordering
    ensures { result ≡ bytes_order a.now b.now }
{
    a.cmp(b)
}

fn kind_cmp(a: &Kind, b: &Kind) -> Ordering
    ensures { result ≡ kind_cmp a.now b.now }
{
    match a {
        Kind::Plain => match b {
            Kind::Plain => Ordering::Equal,
            _ => Ordering::Less,
        },
        Kind::Typed(d) => match b {
            Kind::Typed(e) => ended_cmp(b'>', d.as_str(), e.as_str()),
            _ => Ordering::Greater,
        },
        Kind::Tagged(t) => match b {
            Kind::Plain => Ordering::Greater,
            Kind::Typed(_) => Ordering::Less,
            Kind::Tagged(u) => bytes_cmp(t.as_str(), u.as_str()),
        },
    }
}

fn term_cmp(a: &Term, b: &Term) -> Ordering
    ensures { result ≡ term_cmp a.now b.now }
{
    match a {
        Term::Iri(a) => match b {
            Term::Iri(b) => ended_cmp(b'>', a.as_str(), b.as_str()),
            _ => Ordering::Less,
        },
        Term::Blank(a) => match b {
            Term::Iri(_) => Ordering::Greater,
            Term::Blank(b) => bytes_cmp(a.as_str(), b.as_str()),
            _ => Ordering::Less,
        },
        Term::Literal { form: f, kind: k } => match b {
            Term::Literal { form: g, kind: l } => {
                form_cmp(kind_cmp(k, l), f.as_str().as_bytes(), g.as_str().as_bytes())
            }
            _ => Ordering::Greater,
        },
    }
}

impl PartialOrd for Term {
    ghost use Rattle.std.specs.Ordering.{as_partial_cmp};
    ghost use Rattle.rdf_terms.specs.Order.{term_order};
    ghost use Rattle.rdf_terms.specs.OrderLaws.{term_partial};

    ghost partial_cmp = { as_partial_cmp term_order };

    ghost laws = { term_partial };

    fn partial_cmp(&self, other: &Term) -> Option<Ordering> {
        Some(self.cmp(other))
    }
}

/// IRIs come before blank nodes, and these before literals; within a class the bytes of the canonical text decide. Terms
/// are equal in this order exactly where they are the same. It takes no memory.
impl Ord for Term {
    ghost use Rattle.std.proofs.Common.{refl};
    ghost use Rattle.rdf_terms.specs.Order.{term_order};
    ghost use Rattle.rdf_terms.specs.OrderLaws.{term_total, term_ties};

    ghost cmp = { term_order };

    ghost total = { term_total };

    ghost matches_partial_cmp = { λ _ _. refl };

    ghost matches_eq = { term_ties };

    #[tactic(auto, using(crate::specs::OrderLaws::cmp_is))]
    fn cmp(&self, other: &Term) -> Ordering {
        term_cmp(self, other)
    }
}

impl PartialOrd for Triple {
    ghost use Rattle.std.specs.Ordering.{as_partial_cmp};
    ghost use Rattle.rdf_terms.specs.Order.{triple_order};
    ghost use Rattle.rdf_terms.specs.OrderLaws.{triple_partial};

    ghost partial_cmp = { as_partial_cmp triple_order };

    ghost laws = { triple_partial };

    fn partial_cmp(&self, other: &Triple) -> Option<Ordering> {
        Some(self.cmp(other))
    }
}

/// By subject, then predicate, then object.
impl Ord for Triple {
    ghost use Rattle.std.proofs.Common.{refl};
    ghost use Rattle.rdf_terms.specs.Order.{triple_order};
    ghost use Rattle.rdf_terms.specs.OrderLaws.{triple_total, triple_ties};

    ghost cmp = { triple_order };

    ghost total = { triple_total };

    ghost matches_partial_cmp = { λ _ _. refl };

    ghost matches_eq = { triple_ties };

    fn cmp(&self, other: &Triple) -> Ordering {
        self.subject
            .cmp(&other.subject)
            .then(self.predicate.cmp(&other.predicate))
            .then(self.object.cmp(&other.object))
    }
}
