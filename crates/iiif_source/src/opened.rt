//! Open files.

ghost use Rattle.std.specs.Prelude.{◌||◌, ◌==◌, ◌≡◌, ℕ, IfErr, IfOk, IsTrue, length, string_bytes};
ghost use Rattle.std.specs.Arc.{arc_value};
ghost use Rattle.std.specs.Fs.{file_type, metadata_len, IsFile};
ghost use Rattle.iiif_source.specs.Cause.{failed, ended, gave_of, IsCauseOf};
ghost use Rattle.iiif_source.specs.Files.{fitted, Named, Says};

use crate::{Opens, ReadFault, Source};
use std::fs::Metadata;
use std::io;
use std::io::{Error, ErrorKind};
use std::marker::Model;
use std::sync::Arc;

/// An open file with the path that it was opened under.
#[derive(Drop)]
pub struct OpenFile<R: Opens> {
    pub path: Arc<String>,
    pub handle: R::Handle,
    pub ghost of: { IsTrue (R.is_of handle (string_bytes (arc_value path))) },
}

/// Makes the error for a path that is no plain file, of kind [`ErrorKind::InvalidInput`].
fn not_plain() -> Error {
    Error::new(ErrorKind::InvalidInput, "not a plain file")
}

/// Opens a path whose metadata, read first, is a plain file's.
fn open_handle<R: Opens>(rt: &R, path: &str) -> io::Result<R::Handle>
    ensures { IfOk result (λ file. IsTrue (R.is_of file path.now)) }
{
    let found = rt.look(path)?;
    if !found.is_file() {
        return Err(not_plain());
    }
    rt.open(path)
}

impl<R: Opens> OpenFile<R> {
    /// Opens a plain file. Anything else (a folder, a pipe, a device) is an error of kind [`ErrorKind::InvalidInput`]. The metadata is read
    /// before, since opening a pipe waits for a writer, and again after, since another file may have taken the name meanwhile.
    pub fn open(rt: &R, path: Arc<String>) -> io::Result<OpenFile<R>>
        ensures path { IfOk result (λ f. f.path ≡ path) }
        ensures plain { IfOk result (λ f. Says R.tells f.handle (λ found. IsFile (file_type found))) }
    {
        let handle = open_handle(rt, path.as_str())?;
        let told = rt.metadata(path.as_str(), &handle)?;
        if !told.is_file() {
            return Err(not_plain());
        }
        Ok(OpenFile { path, handle })
    }

    /// Asks the system for the file's metadata.
    pub fn metadata(&self, rt: &R) -> io::Result<Metadata>
        ensures told { IfOk result (λ m. IsTrue (R.tells self.now.handle m)) }
        ensures length { R.keeps (string_bytes (arc_value self.now.path)) →
            IfOk result (λ m. metadata_len m ≡ length (R.holds (string_bytes (arc_value self.now.path)))) }
    {
        rt.metadata(self.path.as_str(), &self.handle)
    }
}

/// A borrowed open file as a source. Contracts see its path and the length that it is known to have.
#[derive(Drop)]
pub struct Opened<'a, R: Opens> {
    pub file: &'a OpenFile<R>,
    pub len: u64,
}

impl<'a, R: Opens> Model for Opened<'a, R> {
    ghost Value = { Named };

    ghost view = { λ s. record { path = string_bytes (arc_value s.file.now.path); len = s.len } };
}

impl<R: Opens> Source<R> for Opened<'_, R> {
    ghost bytes = { λ s. fitted s.len (R.holds s.path) };

    ghost keeps = { λ s. R.keeps s.path };

    ghost gave = { λ s. gave_of (R.gave s.path) };

    ghost reads = { λ s. R.reads s.path };

    fn len(&self) -> u64 {
        self.len
    }

    fn read_at(&self, rt: &R, at: u64, buffer: &mut [u8]) -> Result<(), ReadFault> {
        match rt.read(self.file.path.as_str(), &self.file.handle, at, buffer) {
            Ok(()) => Ok(()),
            Err(error) => Err(ReadFault {
                place: at,
                cause: cause_of(error.kind()),
            }),
        }
    }
}

/// Returns the cause of a fault by the system's error: the file ended, or the read failed.
fn cause_of(kind: ErrorKind) -> u8
    ensures cause { IsCauseOf kind result }
    ensures known { IsTrue (result == failed || result == ended) }
{
    match kind {
        ErrorKind::UnexpectedEof => ReadFault::ENDED,
        _ => ReadFault::FAILED,
    }
}
