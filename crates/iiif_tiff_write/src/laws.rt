//! Laws of written files. The functions compute nothing: their contracts are the laws.

ghost use Rattle.iiif_tiff_write.specs.Laws.{StripOfNoRows, StripOfMoreRows, StripOfAllRows, StripOfBands, ResultsFit, LengthsFit};
ghost use Rattle.iiif_tiff_write.specs.Laws.{ResolutionsStand, FileIsAccepted, FileShowsPicture, BitsShowBitonal};

/// Proves that a picture can be written band by band: the strips of its bands, one after another, are its strip. A sender that
/// holds one band at a time takes the steps `none`, `more` and `all`; `bands` says it of all bands at once.
pub fn bands_join()
    ensures none { StripOfNoRows }
    ensures more { StripOfMoreRows }
    ensures all { StripOfAllRows }
    ensures bands { StripOfBands }
{}

/// Proves that lengths of files fit 32 bits within 16,384 by 16,384 pixels, and 64 bits within 1,000,000 by 1,000,000.
pub fn lengths_fit()
    ensures in_32_bits { ResultsFit }
    ensures in_64_bits { LengthsFit }
{}

/// Proves that the resolutions stand where their entries say. That the bits of each sample do is part of `written_is_read`.
pub fn resolutions_stand()
    ensures { ResolutionsStand }
{}

/// Proves that a reader accepts each written file and finds the picture in it: the picture itself where the kind holds it, and
/// the picture in black and white in a file of bits.
pub fn written_is_read()
    ensures accepted { FileIsAccepted }
    ensures shown { FileShowsPicture }
    ensures bits { BitsShowBitonal }
{}
