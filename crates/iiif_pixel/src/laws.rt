//! Laws of all pictures, as contracts of functions that compute nothing. A caller that calls one may use its law in its own proof.

ghost use Rattle.iiif_pixel.specs.Laws.{CropOfCrop, QualityOfCrop, CropOfScale, SampleOfScale, RowsAfterRows, AllRows, CropIsWhole};
ghost use Rattle.iiif_pixel.specs.Laws.{TurnIsWhole, QualityIsWhole, ScaleIsWhole};

/// States that a crop of a crop is one crop.
pub fn crop_of_crop()
    ensures { CropOfCrop }
{}

/// States that quality and crop commute, so a picture's quality can be taken band by band. (`same_part` of
/// [`unturn_rect`](crate::unturn_rect) says it of turns.)
pub fn quality_of_crop()
    ensures { QualityOfCrop }
{}

/// States that a crop of a scaled picture is made of the averages at its places.
pub fn crop_of_scale()
    ensures picture { CropOfScale }
    ensures samples { SampleOfScale }
{}

/// States that bands of rows, one after another, have the samples of the rows together; and that all rows are the picture.
pub fn bands_follow()
    ensures bands { RowsAfterRows }
    ensures all { AllRows }
{}

/// States that crop, turn, quality and scale keep a picture whole.
pub fn whole_stays_whole()
    ensures crop { CropIsWhole }
    ensures turn { TurnIsWhole }
    ensures quality { QualityIsWhole }
    ensures scale { ScaleIsWhole }
{}
