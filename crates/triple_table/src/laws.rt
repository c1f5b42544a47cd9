// Laws of the data that are served.
ghost use Rattle.std.specs.Prelude.{ℕ, ◌≡◌, List};
ghost use Rattle.rdf_terms.specs.declared.term.Triple.{Triple};
ghost use Rattle.triple_table.specs.Served.{IsServed};
ghost use Rattle.triple_table.specs.Short.{AuthoritiesAreShort, ServedAreShort};

/// The served data are one list: what `served` and `Table::build` give is fixed by the authority and the
/// chosen triples.
pub fn served_is_one()
    ensures { (authority : List ℕ) (triples xs ys : List Triple) → IsServed authority triples xs →
        IsServed authority triples ys → xs ≡ ys }
{}

/// Where each term of the quads has a canonical text of at most so many bytes, and each label at most
/// `LONGEST_LABEL` (1024) bytes, then each term that is served has such a canonical text, if the IRIs of blank
/// nodes fit too: they have at most 1052 bytes beside their authority.
pub fn served_terms_are_short()
    ensures { ServedAreShort }
{}

/// An authority has at most 261 bytes: a host of at most 255, a colon and a port of at most five digits.
pub fn authorities_are_short()
    ensures { AuthoritiesAreShort }
{}
