//! Laws of the information. The functions compute nothing: their contracts are the laws.

ghost use Rattle.iiif_info.specs.Laws.{LastLevelIsLeast, SampleText, LargerSampleText};

/// Proves that the scale factors end at the first one at which a single tile covers the image.
pub fn last_level_is_least()
    ensures { LastLevelIsLeast }
{}

/// Proves that the definition by members gives the text of an example, and lists one feature more where a result may be larger than
/// its region.
pub fn sample_has_its_text()
    ensures sample { SampleText }
    ensures larger { LargerSampleText }
{}
