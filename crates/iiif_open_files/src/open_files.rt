//! The open files of many sources, and what was read ahead of them.

ghost use Rattle.std.specs.Prelude.{◌≡◌, ◌*◌, ◌≤◌, length, IfErr, IfOk, IfSome, IsTrue, string_bytes};
ghost use Rattle.std.specs.Arc.{arc_value};
ghost use Rattle.iiif_source.specs.Cause.{gave_of};
ghost use Rattle.iiif_source.specs.Runs.{AreIn, BeginsAt, HoldsRuns};
ghost use Rattle.iiif_open_files.specs.Kept.{size_of};
ghost use Rattle.iiif_open_files.specs.Rows.{room_of, AreAmong};

use crate::file_cache::{FileCache, Opening};
use crate::read_failures::{FailureReason, ReadFailures};
use crate::row_cache::RowCache;
use crate::wide_rows::WideRows;
use crate::widening::FEW;
use iiif_source::{Opens, ReadFault, Runs};
use std::alloc::{AllocError, Global};
use std::num::NonZeroUsize;
use std::sync::atomic::{AtomicU64, Ordering};
use std::sync::{Arc, Mutex, Wait};

/// The files that the sources of one program keep open between their reads, as many as a [`FileCache`] has room for. No lock is held
/// while a file is opened or read. So the files that are open at once are those that are kept, and one for each read that goes on.
/// Beside them stand the rows that were read ahead: at most 16 times many rows, and 256 times few.
#[derive(Drop)]
pub struct OpenFiles<R: Opens> {
    files: Mutex<FileCache<R>>,
    many: Mutex<RowCache<R, 16, 1_048_576>>,
    few: Mutex<RowCache<R, 256, 65_536>>,
    numbers: AtomicU64,
    failures: Option<Arc<ReadFailures>>,
    alloc: Global,
}

impl<R: Opens> OpenFiles<R> {
    /// No file is open, and so many are kept.
    pub fn new(alloc: Global, most: NonZeroUsize) -> Result<OpenFiles<R>, AllocError> {
        OpenFiles::noting(alloc, most, None)
    }

    /// No file is open, and so many are kept. Reads that fail are noted, where there is something to note them in.
    pub fn noting(
        alloc: Global,
        most: NonZeroUsize,
        failures: Option<Arc<ReadFailures>>,
    ) -> Result<OpenFiles<R>, AllocError> {
        Ok(OpenFiles {
            files: Mutex::new(FileCache::new(alloc, most)?),
            many: Mutex::new(RowCache::new(alloc)),
            few: Mutex::new(RowCache::new(alloc)),
            numbers: AtomicU64::new(0),
            failures,
            alloc,
        })
    }

    /// A number that no earlier source and no earlier opening has.
    pub(crate) fn take_number(&self) -> u64 {
        self.numbers.fetch_add(1, Ordering::SeqCst)
    }

    /// A path that is shared by a source and what it opens.
    pub(crate) fn share_path(&self, path: String) -> Result<Arc<String>, AllocError>
        ensures { IfOk result (λ p. arc_value p ≡ path) }
    {
        Ok(Arc::new(self.alloc, path)?)
    }
}

impl<R: Opens + Wait> OpenFiles<R> {
    /// How many files are kept open now.
    pub fn kept(&self, rt: &R) -> usize {
        self.files.lock(rt).len()
    }

    /// The open file of a source's number, where it is kept and was opened under the path.
    pub(crate) fn find(&self, rt: &R, number: u64, path: &str) -> Option<Arc<Opening<R>>>
        ensures { IfSome result (λ o. string_bytes (arc_value (arc_value o).file.path) ≡ path.now) }
    {
        let opening = self.files.lock(rt).find(number)?;
        if opening.file.path.as_str() == path {
            Some(opening)
        } else {
            None
        }
    }

    /// Notes a read of the file of a path that failed.
    pub(crate) fn note(&self, rt: &R, path: &Arc<String>, place: u64, reason: FailureReason) {
        if let Some(failures) = &self.failures {
            failures.note(rt, path, place, reason);
        }
    }

    /// Keeps the open file of a source's number. It is closed where memory runs out.
    pub(crate) fn keep(&self, rt: &R, number: u64, file: Opening<R>) {
        if let Ok(file) = Arc::new(self.alloc, file) {
            self.files.lock(rt).keep(number, file);
        }
    }

    /// Reads runs of an open file of so many bytes from rows that were read ahead of this opening, or reads ahead and keeps what it
    /// read. Where it doesn't, the buffer's bytes are of no use; a fault is that of the read that was made ahead.
    pub(crate) fn read_ahead(
        &self,
        rt: &R,
        opening: &Opening<R>,
        len: u64,
        runs: Runs,
        buffer: &mut [u8],
    ) -> Result<bool, ReadFault>
        requires runs { AreIn len runs }
        requires length { length buffer.old ≡ runs.count * runs.len }
        ensures length { length buffer.new ≡ length buffer.old }
        ensures runs { R.keeps (string_bytes (arc_value opening.now.file.path)) → IfOk result (λ done. IsTrue done →
            HoldsRuns (R.holds (string_bytes (arc_value opening.now.file.path))) runs runs.count buffer.new) }
        ensures place { IfErr result (λ f. BeginsAt runs f.place) }
        ensures fault { IfErr result (λ f. IsTrue (gave_of (R.gave (string_bytes (arc_value opening.now.file.path))) f)) }
    {
        if let Some(rows) = self.find_rows(rt, opening, runs) {
            rows.copy(rt, runs, buffer);
            return Ok(true);
        }
        let Some(rows) = WideRows::read_ahead(rt, self.alloc, opening, len, runs)? else {
            return Ok(false);
        };
        rows.copy(rt, runs, buffer);
        self.keep_rows(rt, rows);
        Ok(true)
    }

    /// Rows that are kept of an opening and have these runs.
    fn find_rows(&self, rt: &R, opening: &Opening<R>, runs: Runs) -> Option<Arc<WideRows<R>>>
        ensures path { IfSome result (λ w. string_bytes (arc_value (arc_value w).path) ≡ string_bytes (arc_value opening.now.file.path)) }
        ensures number { IfSome result (λ w. (arc_value w).number ≡ opening.now.number) }
        ensures among { IfSome result (λ w. AreAmong (arc_value w).runs runs) }
    {
        if runs.count > FEW {
            find_in(rt, &self.many, opening, runs)
        } else {
            find_in(rt, &self.few, opening, runs)
        }
    }

    /// Keeps rows that were read ahead. They are let go where memory runs out.
    fn keep_rows(&self, rt: &R, rows: WideRows<R>)
        requires { size_of rows ≤ room_of rows.runs.count }
    {
        let count = rows.runs.count;
        let Ok(rows) = Arc::new(self.alloc, rows) else {
            return;
        };
        if count > FEW {
            self.many.lock(rt).keep(rows);
        } else {
            self.few.lock(rt).keep(rows);
        }
    }

    /// Lets go what was read ahead of the opening of a number.
    pub(crate) fn forget_rows(&self, rt: &R, number: u64) {
        self.many.lock(rt).forget(number);
        self.few.lock(rt).forget(number);
    }
}

/// Finds rows of a cache that are of an opening and have these runs.
fn find_in<R: Opens + Wait, const MOST: usize, const ROOM: usize>(
    rt: &R,
    rows: &Mutex<RowCache<R, MOST, ROOM>>,
    opening: &Opening<R>,
    runs: Runs,
) -> Option<Arc<WideRows<R>>>
    ensures path { IfSome result (λ w. string_bytes (arc_value (arc_value w).path) ≡ string_bytes (arc_value opening.now.file.path)) }
    ensures number { IfSome result (λ w. (arc_value w).number ≡ opening.now.number) }
    ensures among { IfSome result (λ w. AreAmong (arc_value w).runs runs) }
{
    let path = opening.file.path.as_str();
    rows.lock(rt).find(path, opening.number, runs)
}
