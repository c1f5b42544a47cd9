// What every term keeps, told by calls that do nothing.
ghost use Rattle.rdf_terms.specs.Valid.{IsValidKind, IsValidTerm};

use crate::{Kind, Term};

impl Kind {
    /// The datatype and the tag of a literal keep their rules. The call does nothing; it tells a proof of it.
    pub fn is_valid(&self)
        ensures { IsValidKind self.now }
    {
        match self {
            Kind::Plain => {}
            Kind::Typed(datatype) => {
                let _text = datatype.as_str();
            }
            Kind::Tagged(tag) => {
                let _text = tag.as_str();
            }
        }
    }
}

impl Term {
    /// The texts of a term keep their rules: an IRI has a scheme, a label is one of N-Quads, a datatype is neither
    /// xsd:string nor rdf:langString, a tag is in lower case, and each text is UTF-8. The call does nothing; it tells a
    /// proof of it.
    pub fn is_valid(&self)
        ensures { IsValidTerm self.now }
    {
        match self {
            Term::Iri(text) => {
                let _text = text.as_str();
            }
            Term::Blank(label) => {
                let _text = label.as_str();
            }
            Term::Literal { form, kind } => {
                let _text = form.as_str();
                kind.is_valid();
            }
        }
    }
}
