// Quads as the texts that they are of.
ghost use Rattle.std.specs.Prelude.{◌≡◌, IfOk};
ghost use Rattle.metadata_quads.specs.TermTexts.{AreTerms, quad_of};

use crate::term_text::TermText;
use rdf_terms::{Quad, Triple};
use std::alloc::Global;
use tpf_base::OutOfMemory;

/// A quad by the texts of its terms.
#[derive(Clone, Copy)]
pub(crate) struct QuadText<'a> {
    pub subject: TermText<'a>,
    pub predicate: TermText<'a>,
    pub object: TermText<'a>,
    pub graph: TermText<'a>,
}

impl<'a> QuadText<'a> {
    /// The triple of its first three terms.
    fn bare_triple(self, alloc: Global) -> Result<Triple, OutOfMemory>
        requires { AreTerms self }
        ensures { IfOk result (λ triple. triple ≡ (quad_of self.entry).triple) }
    {
        let subject = self.subject.term(alloc)?;
        let predicate = match self.predicate.term(alloc) {
            Ok(predicate) => predicate,
            Err(fault) => {
                // Dropped here, so that no other way out has it.
                drop(subject);
                return Err(fault);
            }
        };
        match self.object.term(alloc) {
            Ok(object) => Ok(Triple {
                subject,
                predicate,
                object,
            }),
            Err(fault) => {
                drop(subject);
                drop(predicate);
                Err(fault)
            }
        }
    }

    /// The quad.
    pub(crate) fn quad(self, alloc: Global) -> Result<Quad, OutOfMemory>
        requires { AreTerms self }
        ensures { IfOk result (λ quad. quad ≡ quad_of self.entry) }
    {
        let triple = self.bare_triple(alloc)?;
        match self.graph.term(alloc) {
            Ok(graph) => Ok(Quad {
                triple,
                graph: Some(graph),
            }),
            Err(fault) => {
                drop(triple);
                Err(fault)
            }
        }
    }
}
