//! The images that the words name.

ghost use Rattle.std.specs.Prelude.{◌≡◌, ◌≤◌, ◌<◌, ◌⊎◌, ◌++◌, ◌∷◌, [], ℕ, List, IfNone, IfOk, IfSome, OnOk, None, codes, length, map};
ghost use Rattle.std.specs.Prelude.{string_bytes, true, false};
ghost use denote.Ref.{Bor};
ghost use Rattle.std.specs.Arc.{arc_value};
ghost use Rattle.std.specs.List.{AllZip};
ghost use Rattle.iiif_tiff.specs.Tiff.{refusal_of, scheme};
ghost use Rattle.iiif_tiff_read.specs.Layouts.{FitsIn};
ghost use Rattle.iiif_start.specs.Folders.{IsImageIn};
ghost use Rattle.iiif_start.specs.Opened.{AreOpened};
ghost use Rattle.iiif_start.specs.Parts.{Parts};
ghost use Rattle.iiif_start.specs.Stored.{bytes_of, is_held, keeps_of, AreListed, IsItemOf, IsSourceOf};

use crate::holding::{Holding, read_whole};
use crate::reason::Reason;
use crate::sample::sample;
use crate::stop::Stop;
use crate::stored::Stored;
use crate::unfit::Unfit;
use clap::ArgMatches;
use iiif_command_line::LineFault;
use iiif_fixity::{HoldFault, hold};
use iiif_image_list::{FolderImage, name_of};
use iiif_open_files::{OpenFiles, Opens, PathSource, ReadFailures, Texts};
use iiif_source::{MemSource, OpenFile, Opened, ReadFault, Source};
use iiif_tiff_read::{Layout, OpenFault, open};
use iiif_tile_group::Catalogue;
use std::alloc::{AllocError, Global};
use std::io::{Error, ErrorKind};
use std::num::NonZeroUsize;
use std::sync::{Arc, Wait};

/// Reads the text of the list of images, empty where none is named.
pub fn read_list<R>(rt: &R, alloc: Global, matches: &ArgMatches<'_>) -> Result<Vec<u8>, LineFault>
where
    R: Texts,
{
    let Some(file) = matches.get_str("list") else {
        return Ok(Vec::new(alloc));
    };
    match rt.text(alloc, file) {
        Ok(text) => Ok(text),
        Err(error) if error.kind() == ErrorKind::OutOfMemory => Err(LineFault::NoMemory),
        Err(_) => Err(LineFault::Unread),
    }
}

/// Reads the text of the manifest, if one is named.
pub fn read_manifest<R>(
    rt: &R,
    alloc: Global,
    matches: &ArgMatches<'_>,
) -> Result<Option<Vec<u8>>, LineFault>
where
    R: Texts,
{
    let Some(file) = matches.get_str("manifest") else {
        return Ok(None);
    };
    match rt.text(alloc, file) {
        Ok(text) => Ok(Some(text)),
        Err(error) if error.kind() == ErrorKind::OutOfMemory => Err(LineFault::NoMemory),
        Err(_) => Err(LineFault::UnreadManifest),
    }
}

/// Returns the text between a folder's path and a file's name.
fn separator_behind(folder: &str) -> &'static str
    ensures { (result.now ≡ []) ⊎ (result.now ≡ codes "/") }
{
    if folder.ends_with('/') { "" } else { "/" }
}

/// Makes an image of a folder's file. None where its name is none of an image's.
fn folder_image(alloc: Global, folder: &str, file: &str) -> Result<Option<FolderImage>, AllocError>
    ensures { IfOk result (λ found. IfSome found (λ image. IsImageIn folder.now file.now image)) }
{
    let Some(name) = name_of(file) else {
        return Ok(None);
    };
    let slash = separator_behind(folder);
    Ok(Some(FolderImage {
        name: String::from_str(alloc, name)?,
        path: format!(in alloc; "{folder}{slash}{file}")?,
    }))
}

/// Makes the images of a folder's files, in the order of the files' names.
fn folder_images(
    alloc: Global,
    folder: &str,
    mut files: Vec<String>,
) -> Result<Vec<FolderImage>, AllocError> {
    files.sort()?;
    let mut images = Vec::new(alloc);
    for file in &files {
        if let Some(image) = folder_image(alloc, folder, file.as_str())? {
            images.push(image)?;
        }
    }
    Ok(images)
}

/// Reads the images of the folder, none where no folder is named.
pub fn read_folder<R>(
    rt: &R,
    alloc: Global,
    matches: &ArgMatches<'_>,
) -> Result<Vec<FolderImage>, LineFault>
where
    R: Texts,
{
    let Some(folder) = matches.get_str("folder") else {
        return Ok(Vec::new(alloc));
    };
    let files = match rt.names(alloc, folder) {
        Ok(files) => files,
        Err(error) => return Err(unread_folder(&error)),
    };
    match folder_images(alloc, folder, files) {
        Ok(images) => Ok(images),
        Err(_) => Err(LineFault::NoMemory),
    }
}

/// Returns why a folder names no images whose files' names can't be read.
fn unread_folder(error: &Error) -> LineFault {
    match error.kind() {
        ErrorKind::OutOfMemory => LineFault::NoMemory,
        ErrorKind::InvalidFilename => LineFault::FolderEncoding,
        _ => LineFault::UnreadFolder,
    }
}

/// Shares what reads that fail are noted in, where there is something.
fn share_failures<'a>(
    failures: Option<&Arc<ReadFailures>>,
) -> Result<Option<Arc<ReadFailures>>, Stop<'a>> {
    let Some(failures) = failures else {
        return Ok(None);
    };
    match failures.clone() {
        Ok(failures) => Ok(Some(failures)),
        Err(_) => Err(Stop::Memory),
    }
}

/// Makes the cache in which so many of the images' files stay open, and whose failed reads are noted, where there is something to note them
/// in.
pub(crate) fn share_files<'a, R: Opens>(
    alloc: Global,
    most: NonZeroUsize,
    failures: Option<&Arc<ReadFailures>>,
) -> Result<Arc<OpenFiles<R>>, Stop<'a>> {
    let failures = share_failures(failures)?;
    let Ok(files) = OpenFiles::noting(alloc, most, failures) else {
        return Err(Stop::Memory);
    };
    match Arc::new(alloc, files) {
        Ok(files) => Ok(files),
        Err(_) => Err(Stop::Memory),
    }
}

/// Makes the built-in source.
fn sample_source<'a, R: Opens>(alloc: Global) -> Result<Stored<R>, Stop<'a>>
    ensures { IfOk result (λ s. is_held s ≡ true) }
{
    match sample(alloc) {
        Ok(source) => Ok(Stored::Memory(source)),
        Err(_) => Err(Stop::Memory),
    }
}

/// Returns why the image of a name isn't served whose file can't be opened.
fn closed<'a>(name: &'a str, error: &Error) -> Stop<'a> {
    match error.kind() {
        ErrorKind::OutOfMemory => Stop::Memory,
        ErrorKind::InvalidInput => Stop::Image(name, Unfit::NotPlain),
        _ => Stop::Image(name, Unfit::Closed(Reason::new(error))),
    }
}

/// Returns why the image of a name isn't served whose file can't be read.
fn unread<'a>(name: &'a str, fault: ReadFault) -> Stop<'a> {
    Stop::Image(name, Unfit::Refused(OpenFault::Source(fault)))
}

/// Returns why the image of a name isn't served whose file has become shorter while it was opened.
fn shortened<'a>(name: &'a str) -> Stop<'a> {
    let cause = ReadFault::ENDED;
    unread(name, ReadFault { place: 0, cause })
}

/// Makes a path that is shared.
pub(crate) fn share_path(alloc: Global, path: &str) -> Result<Arc<String>, AllocError>
    ensures { IfOk result (λ p. string_bytes (arc_value p) ≡ path.now) }
{
    let path = String::from_str(alloc, path)?;
    match Arc::new(alloc, path) {
        Ok(path) => Ok(path),
        Err(_) => Err(AllocError),
    }
}

/// Opens the file of an image of this name, and returns it with its length in bytes.
fn open_measured<'a, R: Opens>(
    rt: &R,
    alloc: Global,
    name: &'a str,
    path: &str,
) -> Result<(OpenFile<R>, u64), Stop<'a>>
    ensures path { IfOk result (λ f. string_bytes (arc_value f.0.path) ≡ path.now) }
    ensures length { R.keeps path.now → IfOk result (λ f. f.1 ≡ length (R.holds path.now)) }
{
    let Ok(path) = share_path(alloc, path) else {
        return Err(Stop::Memory);
    };
    let file = match OpenFile::open(rt, path) {
        Ok(file) => file,
        Err(error) => return Err(closed(name, &error)),
    };
    match file.metadata(rt) {
        Ok(found) => Ok((file, found.len())),
        Err(error) => Err(closed(name, &error)),
    }
}

/// Returns why the image of a name isn't served whose file is to be held and can't be.
pub(crate) fn unheld<'a>(name: &'a str, fault: HoldFault) -> Stop<'a> {
    match fault {
        HoldFault::Read(fault) => unread(name, fault),
        HoldFault::Differs => Stop::Image(name, Unfit::Differs),
        HoldFault::NoMemory => Stop::Memory,
    }
}

/// Reads all bytes of an image's file as a source in memory. Where there is a bag, they have the digest that is listed of the file's path.
fn hold_whole<'a, R, S: Source<R>>(
    rt: &R,
    alloc: Global,
    name: &'a str,
    path: &str,
    source: &S,
    holding: Holding<'_>,
) -> Result<MemSource, Stop<'a>>
    ensures bytes { S.keeps source.now → IfOk result (λ s. s ≡ S.bytes source.now) }
    ensures length { IfOk result (λ s. length s ≡ length (S.bytes source.now)) }
    ensures listed { IfOk result (λ s. AreListed holding.entry.bag path.now s) }
{
    let Some(bag) = holding.bag else {
        return match read_whole(rt, alloc, source) {
            Ok(held) => Ok(held),
            Err(fault) => Err(unheld(name, fault)),
        };
    };
    let Some(digest) = bag.digest_of(path) else {
        return Err(Stop::Image(name, Unfit::Unlisted));
    };
    match hold(rt, alloc, source, digest) {
        Ok(held) => Ok(held),
        Err(fault) => Err(unheld(name, fault)),
    }
}

/// Reads a file of at most so many bytes once, as a source in memory, and closes it. None of a longer one.
#[tactic(auto, using(crate::proofs::SourceLemmas::whole, crate::proofs::SourceLemmas::fitted_length))]
fn hold_small<'a, R: Opens>(
    rt: &R,
    alloc: Global,
    name: &'a str,
    path: &str,
    holding: Holding<'_>,
) -> Result<Option<MemSource>, Stop<'a>>
    ensures bytes { R.keeps path.now → IfOk result (λ found. IfSome found (λ s. s ≡ R.holds path.now)) }
    ensures small { IfOk result (λ found. IfSome found (λ s. length s ≤ holding.entry.bytes)) }
    ensures listed { IfOk result (λ found. IfSome found (λ s. AreListed holding.entry.bag path.now s)) }
{
    let (file, len) = open_measured(rt, alloc, name, path)?;
    if len > holding.bytes {
        return Ok(None);
    }
    let source = Opened { file: &file, len };
    match hold_whole(rt, alloc, name, path, &source, holding) {
        Ok(source) => Ok(Some(source)),
        Err(stop) => Err(stop),
    }
}

/// Makes a source of a file that is opened when it is read.
fn open_large<'a, R>(
    rt: &R,
    alloc: Global,
    files: &Arc<OpenFiles<R>>,
    name: &'a str,
    path: &str,
) -> Result<PathSource<R>, Stop<'a>>
where
    R: Opens + Wait,
    ensures path { IfOk result (λ s. s.path ≡ path.now) }
    ensures length { R.keeps path.now → IfOk result (λ s. s.len ≡ length (R.holds path.now)) }
{
    let Ok(path) = String::from_str(alloc, path) else {
        return Err(Stop::Memory);
    };
    let Ok(files) = files.clone() else {
        return Err(Stop::Memory);
    };
    match PathSource::open(rt, files, path) {
        Ok(source) => Ok(source),
        Err(error) => Err(closed(name, &error)),
    }
}

/// Opens a file as the source of an image of this name. Where there is a bag, it lists the file. With a hold above 0 one of at most so many
/// bytes is held in memory.
#[tactic(auto, using(crate::proofs::SourceLemmas::whole))]
fn open_file<'a, R>(
    rt: &R,
    alloc: Global,
    files: &Arc<OpenFiles<R>>,
    name: &'a str,
    path: &str,
    holding: Holding<'_>,
) -> Result<Stored<R>, Stop<'a>>
where
    R: Opens + Wait,
    ensures { IfOk result (λ s. IsSourceOf R.holds R.keeps holding.entry path.now s) }
{
    if !holding.names(path) {
        return Err(Stop::Image(name, Unfit::Unlisted));
    }
    if holding.bytes > 0 {
        if let Some(source) = hold_small(rt, alloc, name, path, holding)? {
            return Ok(Stored::Memory(source));
        }
    }
    let source = open_large(rt, alloc, files, name, path)?;
    if holding.bytes > 0 && source.len() <= holding.bytes {
        return Err(shortened(name));
    }
    Ok(Stored::File(source))
}

/// Opens the source of a file's name.
fn open_source<'a, R>(
    rt: &R,
    alloc: Global,
    files: &Arc<OpenFiles<R>>,
    name: &'a str,
    path: &str,
    holding: Holding<'_>,
) -> Result<Stored<R>, Stop<'a>>
where
    R: Opens + Wait,
    ensures { IfOk result (λ s. IsSourceOf R.holds R.keeps holding.entry path.now s) }
{
    if path == ":sample" {
        sample_source(alloc)
    } else {
        open_file(rt, alloc, files, name, path, holding)
    }
}

/// Opens an image's source, and reads what its file says of it.
pub(crate) fn open_image<'a, R>(
    rt: &R,
    alloc: Global,
    files: &Arc<OpenFiles<R>>,
    name: &'a str,
    path: &str,
    holding: Holding<'_>,
) -> Result<(Stored<R>, Layout), Stop<'a>>
where
    R: Opens + Wait,
    ensures source { IfOk result (λ o. IsSourceOf R.holds R.keeps holding.entry path.now o.0) }
    ensures in_file { IfOk result (λ o. FitsIn o.1 (length (bytes_of R.holds o.0))) }
    ensures accepted { IfOk result (λ o. keeps_of R.keeps o.0 → refusal_of (bytes_of R.holds o.0) ≡ None) }
    ensures shown { IfOk result (λ o. keeps_of R.keeps o.0 → o.1 ≡ scheme (bytes_of R.holds o.0)) }
{
    let source = open_source(rt, alloc, files, name, path, holding)?;
    match open(rt, alloc, &source) {
        Ok(layout) => Ok((source, layout)),
        Err(fault) => Err(Stop::Image(name, Unfit::Refused(fault))),
    }
}

/// The images that the start opened: those that are served, and those that can't be.
#[derive(Drop)]
pub struct OpenedImages<'a, R: Opens + Wait> {
    pub catalogue: Catalogue<R, Stored<R>>,
    /// The names and files of the catalogue's images, in its order.
    pub served: Vec<(&'a str, &'a str)>,
    /// The names and files of those that can't be served, and why, in the order in which they were named.
    pub unfit: Vec<((&'a str, &'a str), Unfit)>,
}

impl<'a, R: Opens + Wait> OpenedImages<'a, R> {
    /// Makes no image yet.
    fn new(alloc: Global) -> OpenedImages<'a, R>
        ensures catalogue { result.catalogue ≡ [] }
        ensures served { result.served.items ≡ [] }
        ensures unfit { result.unfit.items ≡ [] }
    {
        OpenedImages {
            catalogue: Catalogue::new(alloc),
            served: Vec::new(alloc),
            unfit: Vec::new(alloc),
        }
    }
}

/// How images are opened: how many of their files stay open, which are held in memory, whether those that can't be served are left out, and
/// what reads that fail are noted in.
#[derive(Clone, Copy)]
pub struct Opening<'m> {
    pub open_files: NonZeroUsize,
    pub holding: Holding<'m>,
    pub skip_unfit: bool,
    pub failures: Option<&'m Arc<ReadFailures>>,
}

/// Adds an image to a catalogue, under its name.
fn add_image<'a, R>(
    alloc: Global,
    catalogue: &mut Catalogue<R, Stored<R>>,
    name: &str,
    source: Stored<R>,
    layout: Layout,
) -> Result<(), Stop<'a>>
where
    R: Opens + Wait,
    requires in_file { FitsIn layout (length (bytes_of R.holds source)) }
    requires accepted { keeps_of R.keeps source → refusal_of (bytes_of R.holds source) ≡ None }
    requires shown { keeps_of R.keeps source → layout ≡ scheme (bytes_of R.holds source) }
    ensures { OnOk result (catalogue.new ≡ catalogue.old ++ (record { name = name.now; source = source; layout = layout }) ∷ []) }
{
    let Ok(text) = String::from_str(alloc, name) else {
        return Err(Stop::Memory);
    };
    match catalogue.add(text, source, layout) {
        Ok(()) => Ok(()),
        Err(_) => Err(Stop::Memory),
    }
}

/// Opens one more image, and keeps it among those that are served or, where that is asked for, among those that can't be.
#[tactic(auto, using(crate::proofs::OpenedLemmas::opened_left, crate::proofs::OpenedLemmas::opened_right))]
fn open_next<'a, R>(
    rt: &R,
    alloc: Global,
    files: &Arc<OpenFiles<R>>,
    image: (&'a str, &'a str),
    opening: Opening<'_>,
    opened: &mut OpenedImages<'a, R>,
) -> Result<(), Stop<'a>>
where
    R: Opens + Wait,
    ensures { (front : List (Bor (List ℕ) × Bor (List ℕ))) → AreOpened R.holds R.keeps opening.entry.holding opening.entry.skip_unfit front
        opened.old.catalogue opened.old.served.items (map (λ u. u.0) opened.old.unfit.items)
        → OnOk result (AreOpened R.holds R.keeps opening.entry.holding opening.entry.skip_unfit (front ++ image.entry ∷ [])
        opened.new.catalogue opened.new.served.items (map (λ u. u.0) opened.new.unfit.items)) }
{
    let (name, path) = image;
    match open_image(rt, alloc, files, name, path, opening.holding) {
        Ok((source, layout)) => {
            add_image(alloc, &mut opened.catalogue, name, source, layout)?;
            match opened.served.push(image) {
                Ok(()) => Ok(()),
                Err(_) => Err(Stop::Memory),
            }
        }
        Err(Stop::Image(_, unfit)) if opening.skip_unfit => {
            match opened.unfit.push((image, unfit)) {
                Ok(()) => Ok(()),
                Err(_) => Err(Stop::Memory),
            }
        }
        Err(stop) => Err(stop),
    }
}

/// Returns why none of some images can be served, where none can be and one is known of which that is so.
fn none_served<'a, R>(opened: &OpenedImages<'a, R>) -> Option<Stop<'a>>
where
    R: Opens + Wait,
    ensures { IfNone result ((opened.now.unfit.items ≡ []) ⊎ (0 < length opened.now.served.items)) }
{
    if !opened.served.is_empty() {
        return None;
    }
    match opened.unfit.first() {
        Some((image, unfit)) => Some(Stop::Image(image.0, *unfit)),
        None => None,
    }
}

/// Opens the images in the order given. A file that is to be held is read once, compared with its digest where a bag lists digests, held
/// in memory, and closed; of the others so many stay open. Where one can't be served, none is, or it is left out, as is asked for; where
/// none can be, the first of them is told.
#[tactic(auto, using(crate::proofs::OpenedLemmas::opened_next, crate::proofs::OpenedLemmas::opened_some))]
pub fn open_images<'a, R>(
    rt: &R,
    alloc: Global,
    images: &[(&'a str, &'a str)],
    opening: Opening<'_>,
) -> Result<OpenedImages<'a, R>, Stop<'a>>
where
    R: Opens + Wait,
    ensures names { IfOk result (λ o. map (λ i. i.name) o.catalogue ≡ map (λ i. i.0.now) o.served.items) }
    ensures items { IfOk result (λ o. AllZip (IsItemOf R.holds R.keeps opening.entry.holding) o.served.items o.catalogue) }
    ensures each { IfOk result (λ o. Parts images.now o.served.items (map (λ u. u.0) o.unfit.items)) }
    ensures all { opening.entry.skip_unfit ≡ false → IfOk result (λ o. o.served.items ≡ images.now) }
    ensures some { 0 < length images.now → IfOk result (λ o. 0 < length o.served.items) }
{
    let files = share_files(alloc, opening.open_files, opening.failures)?;
    let mut opened = OpenedImages::new(alloc);
    for image in images {
        open_next(rt, alloc, &files, *image, opening, &mut opened)?;
    }
    match none_served(&opened) {
        Some(stop) => Err(stop),
        None => Ok(opened),
    }
}
