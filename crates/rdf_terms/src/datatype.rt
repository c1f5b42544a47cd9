// Datatypes of typed literals.
ghost use Rattle.std.specs.Str.{IsUtf8};
ghost use Rattle.std.specs.Prelude.{ℕ, ◌≡◌, List, IsTrue, IfOk};
ghost use Rattle.rdf_terms.specs.Datatype.{xsd_string, lang_string, is_xsd_string, is_lang_string, is_datatype};

use crate::iri::is_iri;
use std::alloc::Global;
use std::marker::Model;
use text_base::{OutOfMemory, Text};

/// Whether a text is the IRI xsd:string, the datatype of plain literals (RDF 1.1 Concepts 3.3).
#[tactic(auto, unfolding(crate::specs::Datatype::xsd_string))]
pub fn is_xsd_string(text: &str) -> bool
    ensures { result ≡ is_xsd_string text.now }
{
    text == "http://www.w3.org/2001/XMLSchema#string"
}

/// Whether a text is the IRI rdf:langString, the datatype of literals with a tag (RDF 1.1 Concepts 3.3).
#[tactic(auto, unfolding(crate::specs::Datatype::lang_string))]
pub fn is_lang_string(text: &str) -> bool
    ensures { result ≡ is_lang_string text.now }
{
    text == "http://www.w3.org/1999/02/22-rdf-syntax-ns#langString"
}

/// Whether a text may be the datatype of a typed literal: an IRI with a scheme, and neither of the two above.
pub fn is_datatype(text: &str) -> bool
    ensures { result ≡ is_datatype text.now }
{
    is_iri(text) && !is_xsd_string(text) && !is_lang_string(text)
}

/// A datatype of a typed literal, which contracts see as its bytes.
#[derive(Drop)]
pub struct Datatype {
    text: Text,
}

impl Model for Datatype {
    ghost use Rattle.std.specs.Prelude.{ℕ, ◌≡◌, List, true};
    ghost use Rattle.rdf_terms.specs.Datatype.{is_datatype};

    ghost Value = { List ℕ };

    ghost view = { λ i. i.text };

    ghost invariant = { λ i. is_datatype i.text ≡ true };
}

impl Datatype {
    /// Takes a datatype as it is, and no memory.
    pub fn from_text(text: Text) -> Datatype
        requires { IsTrue (is_datatype text) }
        ensures { result ≡ text }
    {
        Datatype { text }
    }

    /// The datatype's IRI.
    pub fn as_str(&self) -> &str
        ensures text { result.now ≡ self.now }
        ensures datatype { IsTrue (is_datatype self.now) }
        ensures utf8 { IsUtf8 self.now }
    {
        self.text.as_str()
    }

    /// The same datatype again. Its one error is out of memory.
    pub fn copy(&self, alloc: Global) -> Result<Datatype, OutOfMemory>
        ensures { IfOk result (λ i. i ≡ self.now) }
    {
        let text = Text::copy(alloc, self.text.as_str())?;
        Ok(Datatype { text })
    }
}

impl PartialEq for Datatype {
    ghost use Rattle.std.specs.Str.{bytes_eq};
    ghost use Rattle.std.specs.Cmp.{partial_equiv_from_equiv};
    ghost use Rattle.std.specs.Cmp.Lexicographic.{nat_list_eq_equiv};

    ghost eq = { bytes_eq };

    ghost laws = { partial_equiv_from_equiv nat_list_eq_equiv };

    fn eq(&self, other: &Datatype) -> bool {
        self.text == other.text
    }
}

impl Eq for Datatype {
    ghost use Rattle.std.specs.Cmp.Lexicographic.{nat_list_eq_equiv};

    ghost laws = { nat_list_eq_equiv };
}
