//! Texts of requests: IIIF Image API 3.0, sections 2.1 and 9.
ghost use Rattle.std.specs.Prelude.{◌≡◌, ◌++◌, IfOk, OnOk, string_bytes};
ghost use Rattle.iiif_request.specs.Requests.{IsShort, IsShortRegion, IsShortForm, HasShortDecimals};
ghost use Rattle.iiif_canonical.specs.Texts.{last_digits, decimal_text, region_text, form_text, size_text, rotation_text, quality_text};
ghost use Rattle.iiif_canonical.specs.Texts.{text_of, CanBeSpelled, IsTextOf};

use iiif_pixel::{NoMemory, Quality};
use iiif_request::{Decimal, Form, Region, Request, Rotation, Size};
use std::alloc::Global;
use std::fmt::Write;

/// Writes the last n digits of a number.
fn push_last_digits(out: &mut String, n: u8, value: u64) -> Result<(), NoMemory>
    ensures { OnOk result (string_bytes out.new ≡ string_bytes out.old ++ last_digits n value) }
{
    if n == 0 {
        return Ok(());
    }
    push_last_digits(out, n - 1, value / 10)?;
    let digit = value % 10;
    write!(out, "{digit}")
}

/// Writes a decimal.
#[tactic(auto, using(crate::proofs::Powers::ten_some), unfolding(crate::specs::Texts::decimal_text))]
fn push_decimal(out: &mut String, n: Decimal) -> Result<(), NoMemory>
    requires { IsShort n }
    ensures { OnOk result (string_bytes out.new ≡ string_bytes out.old ++ decimal_text n) }
{
    let digits = n.digits;
    if n.places == 0 {
        return write!(out, "{digits}");
    }
    let whole = digits / 10u64.pow(u32::from(n.places));
    write!(out, "{whole}.")?;
    push_last_digits(out, n.places, digits)
}

/// Writes four decimals with commas between.
fn push_percents(
    out: &mut String,
    x: Decimal,
    y: Decimal,
    w: Decimal,
    h: Decimal,
) -> Result<(), NoMemory>
    requires x { IsShort x }
    requires y { IsShort y }
    requires w { IsShort w }
    requires h { IsShort h }
    ensures { OnOk result (string_bytes out.new ≡ string_bytes out.old ++ region_text (Region.Percents x y w h)) }
{
    out.push_str("pct:")?;
    push_decimal(out, x)?;
    out.push_str(",")?;
    push_decimal(out, y)?;
    out.push_str(",")?;
    push_decimal(out, w)?;
    out.push_str(",")?;
    push_decimal(out, h)
}

/// Writes a region.
fn push_region(out: &mut String, region: Region) -> Result<(), NoMemory>
    requires { IsShortRegion region }
    ensures { OnOk result (string_bytes out.new ≡ string_bytes out.old ++ region_text region) }
{
    match region {
        Region::Full => out.push_str("full"),
        Region::Square => out.push_str("square"),
        Region::Pixels(x, y, w, h) => write!(out, "{x},{y},{w},{h}"),
        Region::Percents(x, y, w, h) => push_percents(out, x, y, w, h),
    }
}

/// Writes a size, without the `^`.
fn push_form(out: &mut String, form: Form) -> Result<(), NoMemory>
    requires { IsShortForm form }
    ensures { OnOk result (string_bytes out.new ≡ string_bytes out.old ++ form_text form) }
{
    match form {
        Form::Max => out.push_str("max"),
        Form::Width(w) => write!(out, "{w},"),
        Form::Height(h) => write!(out, ",{h}"),
        Form::Percent(n) => {
            out.push_str("pct:")?;
            push_decimal(out, n)
        }
        Form::Both(w, h) => write!(out, "{w},{h}"),
        Form::Within(w, h) => write!(out, "!{w},{h}"),
    }
}

/// Writes a size.
fn push_size(out: &mut String, size: Size) -> Result<(), NoMemory>
    requires { IsShortForm size.form }
    ensures { OnOk result (string_bytes out.new ≡ string_bytes out.old ++ size_text size) }
{
    if size.up {
        out.push_str("%5E")?;
    }
    push_form(out, size.form)
}

/// Writes a rotation.
fn push_rotation(out: &mut String, rotation: Rotation) -> Result<(), NoMemory>
    requires { IsShort rotation.degrees }
    ensures { OnOk result (string_bytes out.new ≡ string_bytes out.old ++ rotation_text rotation) }
{
    if rotation.mirror {
        out.push_str("!")?;
    }
    push_decimal(out, rotation.degrees)
}

/// Returns the word of a quality.
fn quality_word(quality: Quality) -> &'static str
    ensures { result.now ≡ quality_text quality }
{
    match quality {
        Quality::Default => "default",
        Quality::Color => "color",
        Quality::Gray => "gray",
        Quality::Bitonal => "bitonal",
    }
}

/// Writes the text of a request.
#[tactic(auto, unfolding(crate::specs::Texts::text_of))]
fn push_text(out: &mut String, request: &Request) -> Result<(), NoMemory>
    requires { HasShortDecimals request.now }
    ensures { OnOk result (string_bytes out.new ≡ string_bytes out.old ++ text_of request.now) }
{
    push_region(out, request.region)?;
    out.push_str("/")?;
    push_size(out, request.size)?;
    out.push_str("/")?;
    push_rotation(out, request.rotation)?;
    let quality = quality_word(request.quality);
    write!(out, "/{quality}.tif")
}

/// Formats a request as `region/size/rotation/quality.format`, with the `^` of a size escaped. A request that no words spell, as
/// one with a number of ten digits, has a text too.
///
/// # Errors
///
/// `NoMemory` where memory for the text runs out.
pub fn text(alloc: Global, request: &Request) -> Result<String, NoMemory>
    requires { HasShortDecimals request.now }
    ensures value { IfOk result (λ s. string_bytes s ≡ text_of request.now) }
    ensures spells { CanBeSpelled request.now → IfOk result (λ s. IsTextOf request.now (string_bytes s)) }
{
    let mut text = String::new(alloc);
    push_text(&mut text, request)?;
    Ok(text)
}
