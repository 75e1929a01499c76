//! All images opened once, and what they are.

ghost use Rattle.std.specs.Prelude.{◌≡◌, List, ℕ, IfOk, IsSome, IsTrue, OnOk, Some, length, map};
ghost use Rattle.std.specs.List.{filter};
ghost use Rattle.iiif_fixity.specs.Bags.{digest_of};
ghost use Rattle.iiif_fixity.specs.Reads.{IsDigestOfReads};
ghost use Rattle.iiif_start.specs.Comparisons.{has_come_to};
ghost use Rattle.iiif_start.specs.Statuses.{are_unfit, end_of, has_unfit, has_unfit_alone};

use crate::holding::Holding;
use crate::name::Word;
use crate::opening::{open_image, share_files, unheld};
use crate::stop::Stop;
use crate::stored::Stored;
use crate::unfit::Unfit;
use iiif_command_line::Options;
use iiif_fixity::{Bag, compare};
use iiif_io::Outlet;
use iiif_keys::Shape;
use iiif_open_files::{OpenFiles, Opens};
use iiif_pixel::{Depth, Kind};
use iiif_source::Source;
use std::alloc::Global;
use std::io;
use std::io::ErrorKind;
use std::sync::{Arc, Wait};

/// An image's shape, whether its file would be held in memory, and whether the file was compared with its digest and has it.
#[derive(Clone, Copy)]
pub struct Found {
    pub shape: Shape,
    pub is_held: bool,
    pub is_listed: bool,
}

/// How a file and the bag compare: it has the digest that is listed of it, it has another one, or none is listed.
#[derive(Clone, Copy)]
pub(crate) enum Comparison {
    Same,
    Different,
    Absent,
}

/// An image that was opened once: its name, and what it is, or why it can't be served.
#[derive(Clone, Copy)]
pub struct Checked<'a> {
    pub name: &'a str,
    pub found: Result<Found, Unfit>,
}

impl<'a> Checked<'a> {
    /// Returns whether that came of its file and the bag.
    fn has_come_to(&self, comparison: Comparison) -> bool
        ensures { result ≡ has_come_to comparison self.now.found }
    {
        match (comparison, &self.found) {
            (Comparison::Same, Ok(found)) => found.is_listed,
            (Comparison::Different, Err(Unfit::Differs)) => true,
            (Comparison::Absent, Err(Unfit::Unlisted)) => true,
            _ => false,
        }
    }

    /// Says in a line what the image is, or as at a start why it can't be served.
    fn report<O: Outlet>(&self, out: &mut O) -> io::Result<()> {
        let Found {
            shape,
            is_held,
            is_listed,
        } = match &self.found {
            Ok(found) => found,
            Err(unfit) => return unfit.report(out, Word(self.name)),
        };
        let kind = match shape.kind {
            Kind::Gray => "gray",
            Kind::Rgb => "RGB",
        };
        let bits = match shape.depth {
            Depth::Eight => 8,
            Depth::Sixteen => 16,
        };
        let held = if *is_held { ", held" } else { "" };
        let listed = if *is_listed { ", as listed" } else { "" };
        let (name, w, h) = (Word(self.name), shape.dim.w, shape.dim.h);
        writeln!(out, "{name}: {w} by {h}, {kind}, {bits} bits{held}{listed}")
    }
}

/// Reads an image's file, and compares it with the digest that a bag lists of its path.
fn compare_with<'a, R, S: Source<R>>(
    rt: &R,
    alloc: Global,
    image: (&'a str, &str),
    source: &S,
    bag: &Bag<'_>,
) -> Result<(), Stop<'a>>
    ensures { OnOk result ((digest : List ℕ) × (digest_of bag.now image.entry.1.now ≡ Some digest) ×
        IsDigestOfReads (S.keeps source.now) (S.bytes source.now) digest) }
{
    let (name, path) = image;
    let Some(digest) = bag.digest_of(path) else {
        return Err(Stop::Image(name, Unfit::Unlisted));
    };
    match compare(rt, alloc, source, digest) {
        Ok(()) => Ok(()),
        Err(fault) => Err(unheld(name, fault)),
    }
}

/// Compares an image's file with its digest, where a bag lists digests, and returns whether it did. One that is held was compared when it
/// was read, and the built-in source is none of a bag.
fn compares<'a, R>(
    rt: &R,
    alloc: Global,
    image: (&'a str, &str),
    source: &Stored<R>,
    bag: Option<Bag<'_>>,
) -> Result<bool, Stop<'a>>
where
    R: Opens + Wait,
    ensures { IfOk result (λ is. IsTrue is → IsSome bag.entry) }
{
    let Some(bag) = bag else {
        return Ok(false);
    };
    if image.1 == ":sample" {
        return Ok(false);
    }
    match source {
        Stored::Memory(_) => Ok(true),
        Stored::File(source) => match compare_with(rt, alloc, image, source, &bag) {
            Ok(()) => Ok(true),
            Err(stop) => Err(stop),
        },
    }
}

/// Opens an image, compares its file with its digest where a bag lists digests, and says what it is.
fn find<'a, R>(
    rt: &R,
    alloc: Global,
    files: &Arc<OpenFiles<R>>,
    image: (&'a str, &str),
    holding: Holding<'_>,
) -> Result<Found, Stop<'a>>
where
    R: Opens + Wait,
{
    let (name, path) = image;
    match open_image(rt, alloc, files, name, path, holding) {
        Ok((source, layout)) => Ok(Found {
            shape: Shape {
                dim: layout.dim(),
                kind: layout.kind(),
                depth: layout.depth(),
            },
            is_held: source.is_held(),
            is_listed: compares(rt, alloc, image, &source, holding.bag)?,
        }),
        Err(stop) => Err(stop),
    }
}

/// Opens an image, and says what it is.
fn look<'a, R>(
    rt: &R,
    alloc: Global,
    files: &Arc<OpenFiles<R>>,
    image: (&'a str, &str),
    holding: Holding<'_>,
) -> Result<Checked<'a>, Stop<'a>>
where
    R: Opens + Wait,
    ensures { IfOk result (λ c. c.name.now ≡ image.entry.0.now) }
{
    let found = match find(rt, alloc, files, image, holding) {
        Ok(found) => Ok(found),
        Err(Stop::Image(_name, unfit)) => Err(unfit),
        Err(stop) => return Err(stop),
    };
    Ok(Checked {
        name: image.0,
        found,
    })
}

/// Opens the images, in order, and says of each what it is. The only errors are lack of memory and a line that can't be written.
#[tactic(auto, using(crate::proofs::Names::names_more))]
fn check_each<'a, R, O>(
    rt: &R,
    alloc: Global,
    files: &Arc<OpenFiles<R>>,
    images: &[(&'a str, &'a str)],
    holding: Holding<'_>,
    out: &mut O,
) -> Result<Vec<Checked<'a>>, Stop<'a>>
where
    R: Opens + Wait,
    O: Outlet,
    ensures names { IfOk result (λ all. map (λ c. c.name.now) all.items ≡ map (λ i. i.0.now) images.now) }
{
    let mut all = Vec::new(alloc);
    for image in images {
        let image = look(rt, alloc, files, *image, holding)?;
        match image.report(out) {
            Ok(()) => {}
            Err(error) if error.kind() == ErrorKind::OutOfMemory => return Err(Stop::Memory),
            Err(_) => return Err(Stop::Write),
        }
        if all.push(image).is_err() {
            return Err(Stop::Memory);
        }
    }
    Ok(all)
}

/// Returns of how many of these images that came.
fn count(all: &[Checked<'_>], comparison: Comparison) -> usize
    ensures { result ≡ length (filter (λ c. has_come_to comparison c.found) all.now) }
{
    all.iter()
        .filter(|image| image.has_come_to(comparison))
        .count()
}

/// Says in a line how many of these images' files have the digests that are listed of them.
fn report_compared<O: Outlet>(all: &[Checked<'_>], out: &mut O) -> io::Result<()> {
    let same = count(all, Comparison::Same);
    let different = count(all, Comparison::Different);
    let absent = count(all, Comparison::Absent);
    let images = all.len();
    writeln!(
        out,
        "manifest: {images} images, {same} as listed, {different} that differ, {absent} not listed"
    )
}

/// Returns whether one of these images can't be served.
fn has_unfit(all: &[Checked<'_>]) -> bool
    ensures { result ≡ has_unfit all.now }
{
    all.iter().any(|image| image.found.is_err())
}

/// Returns whether each of these images can't be served.
fn are_unfit(all: &[Checked<'_>]) -> bool
    ensures { result ≡ are_unfit all.now }
{
    all.iter().all(|image| image.found.is_err())
}

/// Returns whether each of these images can't be served, and there is one.
fn has_unfit_alone(all: &[Checked<'_>]) -> bool
    ensures { result ≡ has_unfit_alone all.now }
{
    !all.is_empty() && are_unfit(all)
}

/// Returns how the program ends once these images were looked at, where those that can't be served are left out or aren't.
fn end_of<'a>(all: &[Checked<'a>], skip_unfit: bool) -> Result<(), Stop<'a>>
    ensures { result ≡ end_of all.now skip_unfit }
{
    let is_refused = if skip_unfit {
        has_unfit_alone(all)
    } else {
        has_unfit(all)
    };
    if is_refused {
        Err(Stop::Faulty)
    } else {
        Ok(())
    }
}

/// Opens all images, and says of each in a line what it is. Where a bag lists digests, it compares each file with its digest, also one that
/// isn't held, and says at the end how many have it. It is at fault where a start would be refused, or one of the files differs: where one
/// of them can't be served, or where none can be and those that can't are left out.
pub fn check<'a, R, O>(
    rt: &R,
    alloc: Global,
    options: &Options<'a>,
    out: &mut O,
) -> Result<(), Stop<'a>>
where
    R: Opens + Wait,
    O: Outlet,
{
    let files = share_files(alloc, options.open_files, None)?;
    let holding = Holding {
        bytes: options.hold,
        bag: options.bag,
    };
    let all = check_each(rt, alloc, &files, &options.images, holding, out)?;
    if options.bag.is_some() && report_compared(&all, out).is_err() {
        return Err(Stop::Write);
    }
    end_of(&all, options.skip_unfit)
}
