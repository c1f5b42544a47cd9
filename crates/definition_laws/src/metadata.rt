// A law of the metadata.
ghost use Rattle.hydra_controls.specs.Laws.{MetadataIsRdf};

/// The quads of a page's metadata are RDF (RDF 1.1 Concepts, section 3.1).
pub fn metadata_is_rdf()
    ensures { MetadataIsRdf }
{}
