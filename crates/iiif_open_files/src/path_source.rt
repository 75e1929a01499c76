//! A file as a source, opened when it is read.

ghost use Rattle.std.specs.Prelude.{◌||◌, ◌==◌, ◌≡◌, ◌≤◌, ◌+◌, ◌*◌, take, drop, IfErr, IfOk, IfSome, OnOk, IsTrue, length, string_bytes};
ghost use Rattle.std.specs.Arc.{arc_value};
ghost use Rattle.std.specs.Fs.{metadata_len};
ghost use Rattle.iiif_source.specs.Cause.{failed, ended, gave_of};
ghost use Rattle.iiif_source.specs.Files.{fitted, Named, Says};
ghost use Rattle.iiif_source.specs.Runs.{AreIn, BeginsAt, HoldsRuns};

use crate::file_cache::Opening;
use crate::known::Known;
use crate::open_files::OpenFiles;
use crate::read_failures::FailureReason;
use iiif_source::{OpenFile, Opened, Opens, ReadFault, Runs, Source};
use std::io;
use std::io::Error;
use std::marker::Model;
use std::sync::{Arc, Wait};

/// A file by its path, opened when it is read. It is seen as its path and the length that it had when the source was made. Behind each read
/// its length and the time of its last change are looked at once more: a file that was written over since the source was made gives no
/// bytes, so no picture is made of old bytes and new. That is as good as the time that the file system tells.
#[derive(Drop)]
pub struct PathSource<R: Opens> {
    files: Arc<OpenFiles<R>>,
    number: u64,
    path: Arc<String>,
    known: Known,
}

impl<R: Opens> Model for PathSource<R> {
    ghost Value = { Named };

    ghost view = { λ s. record { path = string_bytes (arc_value s.path); len = s.known.len } };
}

impl<R: Opens + Wait> PathSource<R> {
    /// The source of a file, which has to be there and a plain one: it is opened, its length is taken, and it is kept open as those
    /// are that were read.
    pub fn open(rt: &R, files: Arc<OpenFiles<R>>, path: String) -> io::Result<PathSource<R>>
        ensures path { IfOk result (λ s. s.path ≡ string_bytes path) }
        ensures length { R.keeps (string_bytes path) → IfOk result (λ s. s.len ≡ length (R.holds (string_bytes path))) }
    {
        let path = files.share_path(path)?;
        let file = OpenFile::open(rt, path.clone()?)?;
        let known = Known::new(&file.metadata(rt)?);
        let opening = Opening {
            number: files.take_number(),
            file,
        };
        let number = files.take_number();
        files.keep(rt, number, opening);
        Ok(PathSource {
            files,
            number,
            path,
            known,
        })
    }

    /// The file, where it is kept open.
    fn find_kept(&self, rt: &R) -> Option<Arc<Opening<R>>>
        ensures { IfSome result (λ o. string_bytes (arc_value (arc_value o).file.path) ≡ self.now.path) }
    {
        self.files.find(rt, self.number, self.path.as_str())
    }

    /// Notes that a read which began at this place failed.
    fn note(&self, rt: &R, place: u64, reason: FailureReason) {
        self.files.note(rt, &self.path, place, reason);
    }

    /// Finds why a read of an open file failed: the file has changed by now, or else the system refused the read.
    fn reason_of(&self, rt: &R, opening: &Opening<R>, cause: u8) -> FailureReason {
        if cause == ReadFault::ENDED {
            return FailureReason::Shorter;
        }
        match opening.file.metadata(rt) {
            Ok(now) if self.known.change(&Known::new(&now)).is_some() => FailureReason::Changed,
            _ => FailureReason::Refused,
        }
    }

    /// Notes a read of an open file, where it failed.
    fn note_read(&self, rt: &R, opening: &Opening<R>, read: &Result<(), ReadFault>) {
        if let Err(fault) = read {
            let reason = self.reason_of(rt, opening, fault.cause);
            self.note(rt, fault.place, reason);
        }
    }

    /// Notes a read that began at this place, since the file isn't what it was, and returns the cause.
    fn note_change(&self, rt: &R, place: u64, cause: u8) -> u8
        ensures { result ≡ cause }
    {
        let reason = if cause == ReadFault::ENDED {
            FailureReason::Shorter
        } else {
            FailureReason::Changed
        };
        self.note(rt, place, reason);
        cause
    }

    /// Notes a read that began at this place, since the file couldn't be opened, and returns the cause.
    fn note_unopened(&self, rt: &R, place: u64, error: &Error) -> u8
        ensures { result ≡ failed }
    {
        self.note(rt, place, FailureReason::new(error));
        ReadFault::FAILED
    }

    /// The file, opened again for a read from a place on, or the cause of its fault: it is gone, it can't be opened, or it isn't what it
    /// was. The opening has a number of its own, so nothing that was read ahead of an earlier one is used for it.
    fn reopen(&self, rt: &R, place: u64) -> Result<Opening<R>, u8>
        ensures path { IfOk result (λ o. string_bytes (arc_value o.file.path) ≡ self.now.path) }
        ensures length { IfOk result (λ o. Says R.tells o.file.handle (λ found. metadata_len found ≡ self.now.len)) }
        ensures cause { IfErr result (λ cause. IsTrue (cause == failed || cause == ended)) }
    {
        let Ok(path) = self.path.clone() else {
            return Err(ReadFault::FAILED);
        };
        let file = match OpenFile::open(rt, path) {
            Ok(file) => file,
            Err(error) => return Err(self.note_unopened(rt, place, &error)),
        };
        let now = match file.metadata(rt) {
            Ok(now) => now,
            Err(error) => return Err(self.note_unopened(rt, place, &error)),
        };
        match self.known.change(&Known::new(&now)) {
            None => Ok(Opening {
                number: self.files.take_number(),
                file,
            }),
            Some(cause) => Err(self.note_change(rt, place, cause)),
        }
    }

    /// Looks whether an open file is still what it was when the source was made. If not, what was read of it is of no use, and a read that
    /// began at this place has failed; rows that were read ahead of this opening are let go.
    fn check_unchanged(&self, rt: &R, opening: &Opening<R>, at: u64) -> Result<(), ReadFault>
        ensures length { OnOk result (Says R.tells opening.now.file.handle (λ found. metadata_len found ≡ self.now.len)) }
        ensures place { IfErr result (λ f. f.place ≡ at) }
        ensures cause { IfErr result (λ f. IsTrue (f.cause == failed || f.cause == ended)) }
    {
        let cause = match opening.file.metadata(rt) {
            Ok(now) => self.known.change(&Known::new(&now)),
            Err(_) => Some(ReadFault::FAILED),
        };
        let Some(cause) = cause else {
            return Ok(());
        };
        self.files.forget_rows(rt, opening.number);
        Err(ReadFault { place: at, cause })
    }

    /// Reads runs of the open file. Where they lie apart they are taken from rows that were read ahead of this opening, or their rows are
    /// read ahead: a read of these that fails isn't made again, its fault is the runs'. Where nothing is to be read ahead they are read
    /// alone. A file that was changed by then gives nothing.
    #[tactic(auto, using(iiif_source::proofs::Faults::by_cause, iiif_source::proofs::Faults::first_begins))]
    fn read_runs_of(
        &self,
        rt: &R,
        opening: &Opening<R>,
        runs: Runs,
        buffer: &mut [u8],
    ) -> Result<(), ReadFault>
        requires path { string_bytes (arc_value opening.now.file.path) ≡ self.now.path }
        requires runs { AreIn self.now.len runs }
        requires length { length buffer.old ≡ runs.count * runs.len }
        ensures length { length buffer.new ≡ length buffer.old }
        ensures runs { R.keeps self.now.path →
            OnOk result (HoldsRuns (fitted self.now.len (R.holds self.now.path)) runs runs.count buffer.new) }
        ensures checked { OnOk result (Says R.tells opening.now.file.handle (λ found. metadata_len found ≡ self.now.len)) }
        ensures place { IfErr result (λ f. BeginsAt runs f.place) }
        ensures cause { IfErr result (λ f. IsTrue (f.cause == failed || f.cause == ended)) }
    {
        let lie_apart = runs.count > 1 && (runs.len as u64) < runs.stride;
        if lie_apart
            && self
                .files
                .read_ahead(rt, opening, self.known.len, runs, buffer)?
        {
            return self.check_unchanged(rt, opening, runs.at);
        }
        let source = Opened {
            file: &opening.file,
            len: self.known.len,
        };
        source.read_runs(rt, runs, buffer)?;
        self.check_unchanged(rt, opening, runs.at)
    }

    /// Reads bytes of the open file. A file that was changed by then gives nothing.
    #[tactic(auto, using(iiif_source::proofs::Faults::by_cause))]
    fn fill(
        &self,
        rt: &R,
        opening: &Opening<R>,
        at: u64,
        buffer: &mut [u8],
    ) -> Result<(), ReadFault>
        requires path { string_bytes (arc_value opening.now.file.path) ≡ self.now.path }
        requires within { at + length buffer.old ≤ self.now.len }
        ensures bytes { R.keeps self.now.path →
            OnOk result (buffer.new ≡ take (length buffer.old) (drop at (fitted self.now.len (R.holds self.now.path)))) }
        ensures read { OnOk result (R.reads self.now.path at buffer.new) }
        ensures checked { OnOk result (Says R.tells opening.now.file.handle (λ found. metadata_len found ≡ self.now.len)) }
        ensures place { IfErr result (λ f. f.place ≡ at) }
        ensures cause { IfErr result (λ f. IsTrue (f.cause == failed || f.cause == ended)) }
    {
        let source = Opened {
            file: &opening.file,
            len: self.known.len,
        };
        source.read_at(rt, at, buffer)?;
        self.check_unchanged(rt, opening, at)
    }
}

impl<R: Opens + Wait> Source<R> for PathSource<R> {
    ghost bytes = { λ s. fitted s.len (R.holds s.path) };

    ghost keeps = { λ s. R.keeps s.path };

    ghost gave = { λ _ f. f.cause == failed || f.cause == ended };

    ghost reads = { λ s. R.reads s.path };

    fn len(&self) -> u64 {
        self.known.len
    }

    fn read_at(&self, rt: &R, at: u64, buffer: &mut [u8]) -> Result<(), ReadFault> {
        if let Some(opening) = self.find_kept(rt) {
            let read = self.fill(rt, &opening, at, buffer);
            self.note_read(rt, &opening, &read);
            return read;
        }
        let opening = match self.reopen(rt, at) {
            Ok(opening) => opening,
            Err(cause) => return Err(ReadFault { place: at, cause }),
        };
        let read = self.fill(rt, &opening, at, buffer);
        self.note_read(rt, &opening, &read);
        self.files.keep(rt, self.number, opening);
        read
    }

    #[tactic(auto, using(iiif_source::proofs::Faults::first_begins))]
    fn read_runs(&self, rt: &R, runs: Runs, buffer: &mut [u8]) -> Result<(), ReadFault> {
        if let Some(opening) = self.find_kept(rt) {
            let read = self.read_runs_of(rt, &opening, runs, buffer);
            self.note_read(rt, &opening, &read);
            return read;
        }
        let opening = match self.reopen(rt, runs.at) {
            Ok(opening) => opening,
            Err(cause) => {
                let place = runs.at;
                return Err(ReadFault { place, cause });
            }
        };
        let read = self.read_runs_of(rt, &opening, runs, buffer);
        self.note_read(rt, &opening, &read);
        self.files.keep(rt, self.number, opening);
        read
    }
}
