//! Laws of the definitions: each the contract of a function with an empty body.
ghost use Rattle.iiif_canonical.specs.Laws.{CanonicalMeansTheSame, EscapesReadBack};

/// Proves that a request and its canonical form have equal images, whatever the picture.
pub fn canonical_means_the_same()
    ensures { CanonicalMeansTheSame }
{}

/// Proves that an escaped identifier is one segment of a path, and decodes to the identifier.
pub fn escapes_read_back()
    ensures { EscapesReadBack }
{}
