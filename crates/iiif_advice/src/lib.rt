//! Advice on a file that the server can't serve, in plain words.
#![tactic(auto)]

ghost use Rattle.std.specs.Prelude.{◌≡◌, true, nat_eq};
ghost use Rattle.std.specs.List.{list_all, starts_with};
ghost use Rattle.iiif_advice.specs.Lines.{is_line_byte, field_of, cause_of};

use iiif_tiff::tag;
use iiif_tiff_read::OpenFault;

/// Returns the advice on a file whose field of this tag has a value that isn't read.
fn unsupported(tag: u16) -> &'static str
    ensures one_line { list_all is_line_byte result.now ≡ true }
    ensures named { starts_with nat_eq result.now (field_of tag) ≡ true }
{
    match tag {
        tag::COMPRESSION => {
            "Compression (259): its samples are compressed: tiffcp -c none IN.tif OUT.tif"
        }
        tag::BITS_PER_SAMPLE => {
            "BitsPerSample (258): a sample has neither 1, 8 nor 16 bits: vips cast IN.tif OUT.tif uchar"
        }
        tag::SAMPLE_FORMAT => {
            "SampleFormat (339): its samples are signed or floats: vips cast IN.tif OUT.tif uchar"
        }
        tag::SAMPLES_PER_PIXEL => {
            "SamplesPerPixel (277): with alpha: vips flatten IN.tif OUT.tif; in CMYK: vips colourspace IN.tif OUT.tif srgb"
        }
        tag::EXTRA_SAMPLES => {
            "ExtraSamples (338): it has extra samples: vips extract_band IN.tif OUT.tif 0"
        }
        tag::PHOTOMETRIC_INTERPRETATION => {
            "PhotometricInterpretation (262): it is neither gray nor RGB, as a palette: vips colourspace IN.tif OUT.tif srgb"
        }
        tag::PLANAR_CONFIGURATION => {
            "PlanarConfiguration (284): its channels stand in planes: tiffcp -c none -p contig IN.tif OUT.tif"
        }
        tag::FILL_ORDER => {
            "FillOrder (266): its bits stand low first: tiffcp -c none -f msb2lsb IN.tif OUT.tif"
        }
        tag::ORIENTATION => "Orientation (274): it is turned: vips autorot IN.tif OUT.tif",
        _ => "a field has a value that isn't read: vips copy IN.tif OUT.tif",
    }
}

/// Returns the advice on a file that is refused: one line, without its end.
pub fn advice(fault: &OpenFault) -> &'static str
    ensures one_line { list_all is_line_byte result.now ≡ true }
    ensures named { starts_with nat_eq result.now (cause_of fault.now) ≡ true }
{
    match fault {
        OpenFault::NotTiff => {
            "it is no TIFF file of the classic kind: tiffcp -c none IN.tif OUT.tif for BigTIFF, vips copy IN OUT.tif for other formats"
        }
        OpenFault::Truncated => "it ends too early: fetch it again",
        OpenFault::Missing(tag::PHOTOMETRIC_INTERPRETATION) => {
            "PhotometricInterpretation (262): it doesn't say whether 0 is black: tiffset -s 262 1 FILE.tif says so"
        }
        OpenFault::Missing(_) => {
            "it lacks a field that it needs: tiffcp -c none IN.tif OUT.tif writes it anew"
        }
        OpenFault::Unsupported(tag) => unsupported(*tag),
        OpenFault::BadField(_) => {
            "a field is wrong, or the file is sparse: gdal_translate IN.tif OUT.tif"
        }
        OpenFault::TooLarge => {
            "it is too large, or has too many tiles: cut it up, or tiffcp -c none -t -w 1024 -l 1024 IN.tif OUT.tif"
        }
        OpenFault::Source(_) => "a read failed: look at the disk, and whether it is a folder",
        OpenFault::NoMemory => "memory was refused: give the process more",
    }
}
