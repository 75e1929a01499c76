//! Warnings of dot segments: names and base URLs by which no client that normalizes URIs can ask for an image.

ghost use Rattle.std.specs.Prelude.{◌≡◌, OnOk, map};
ghost use Rattle.std.specs.List.{after_first};
ghost use Rattle.std.specs.Io.KnownBytes.{Appends};
ghost use Rattle.iiif_start.specs.DotSegments.{has_dot_segment, is_dot_segment, is_slash, path_of};
ghost use Rattle.iiif_start.specs.DotSegments.{warning_of_base, warning_of_name, warnings};

use std::io;
use std::io::Write;

/// Returns whether a segment of a path is `.` or `..`, which a client removes before it asks (RFC 3986, section 5.2.4).
pub fn is_dot_segment(segment: &[u8]) -> bool
    ensures { result ≡ is_dot_segment segment.now }
{
    segment == b".".as_slice() || segment == b"..".as_slice()
}

/// Lends the text behind its first slash.
fn behind_slash(text: &str) -> &str
    ensures { result.now ≡ after_first is_slash text.now }
{
    match text.split_once('/') {
        Some((_, rest)) => rest,
        None => "",
    }
}

/// Lends the path of a base URL, behind its first slash.
fn path_of(url: &str) -> &str
    ensures { result.now ≡ path_of url.now }
{
    behind_slash(behind_slash(behind_slash(url)))
}

/// Returns whether the path of a base URL has a dot segment.
pub fn has_dot_segment(url: &str) -> bool
    ensures { result ≡ has_dot_segment url.now }
{
    path_of(url)
        .as_bytes()
        .split(|b| *b == b'/')
        .any(is_dot_segment)
}

/// Warns in a line of a base URL that has a dot segment.
fn warn_of_base<W: Write>(err: &mut W, base: &str) -> io::Result<()>
    ensures { OnOk result (Appends (W.contents err.old) (W.contents err.new) (warning_of_base base.now)) }
{
    if has_dot_segment(base) {
        writeln!(
            err,
            "warning: base {base}: clients remove the segments . and .. of a URI before they ask for it"
        )?;
    }
    Ok(())
}

/// Warns in a line of an image whose name is a dot segment. Such a name needs no escape.
fn warn_of_name<W: Write>(err: &mut W, name: &str) -> io::Result<()>
    ensures { OnOk result (Appends (W.contents err.old) (W.contents err.new) (warning_of_name name.now)) }
{
    if is_dot_segment(name.as_bytes()) {
        writeln!(
            err,
            "warning: image {name}: clients remove the segments . and .. of a URI before they ask for it"
        )?;
    }
    Ok(())
}

/// Warns of the base URL and of the images, each in a line, where clients can't ask for them. It needs no memory.
pub fn warn<W: Write>(err: &mut W, base: &str, images: &[(&str, &str)]) -> io::Result<()>
    ensures { OnOk result (Appends (W.contents err.old) (W.contents err.new) (warnings base.now (map (λ i. i.0.now) images.now))) }
{
    warn_of_base(err, base)?;
    for (name, _) in images {
        warn_of_name(err, name)?;
    }
    Ok(())
}
