// Laws of what is read and of what is written.
ghost use Rattle.nquads_text.specs.Laws.{ReadIsReadable, CanonReadsBack};

/// The quads of a text that is read have RDF's classes, terms that keep the rules of their parts, and texts within the limits.
pub fn what_is_read_is_readable()
    ensures { ReadIsReadable }
{}

/// The canonical text of quads that a text can be read as is read as these quads.
pub fn canonical_text_reads_back()
    ensures { CanonReadsBack }
{}
