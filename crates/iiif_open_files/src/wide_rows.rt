//! Rows of bytes that were read ahead.

ghost use Rattle.std.specs.Prelude.{◌≡◌, ◌+◌, ◌*◌, ◌^◌, ◌<◌, ◌≤◌, ℕ, List, length, IfErr, IfOk, IfSome, IsTrue, string_bytes};
ghost use Rattle.std.specs.Arc.{arc_value};
ghost use Rattle.iiif_source.specs.Cause.{gave_of};
ghost use Rattle.iiif_source.specs.Files.{fitted};
ghost use Rattle.iiif_source.specs.Runs.{AreIn, BeginsAt, HoldsRuns};
ghost use Rattle.iiif_open_files.specs.Rows.{AreAmong, room_of};

use crate::file_cache::Opening;
use crate::widening::wider;
use iiif_source::{MemSource, Opened, Opens, ReadFault, Runs, Source};
use std::alloc::Global;
use std::marker::PhantomData;
use std::sync::Arc;

/// Bytes of the file of a path, read by the opening of a number: where its rows stand there, and their bytes, one row after another.
#[derive(Drop)]
pub struct WideRows<R: Opens> {
    pub path: Arc<String>,
    pub number: u64,
    pub runs: Runs,
    pub bytes: MemSource,
    pub of: PhantomData<R::Handle>,
    pub ghost small: { (runs.at ≤ 2 ^ 61) × (runs.len ≤ 2 ^ 23) },
    pub ghost some: { 0 < runs.count },
    pub ghost held: { length bytes ≡ runs.count * runs.len },
    pub ghost there: { R.keeps (string_bytes (arc_value path)) →
        HoldsRuns (R.holds (string_bytes (arc_value path))) runs runs.count bytes },
}

impl<R: Opens> WideRows<R> {
    /// Reads runs of an open file of so many bytes. None where memory runs out.
    fn read_bytes(
        rt: &R,
        alloc: Global,
        opening: &Opening<R>,
        len: u64,
        runs: Runs,
    ) -> Result<Option<MemSource>, ReadFault>
        requires { AreIn len runs }
        ensures length { IfOk result (λ found. IfSome found (λ bytes. length bytes ≡ runs.count * runs.len)) }
        ensures there { IfOk result (λ found. IfSome found (λ bytes. R.keeps (string_bytes (arc_value opening.now.file.path)) →
            HoldsRuns (fitted len (R.holds (string_bytes (arc_value opening.now.file.path)))) runs runs.count bytes)) }
        ensures place { IfErr result (λ f. BeginsAt runs f.place) }
        ensures fault { IfErr result (λ f. IsTrue (gave_of (R.gave (string_bytes (arc_value opening.now.file.path))) f)) }
    {
        let Ok(mut bytes) = vec![in alloc; 0u8; runs.count as usize * runs.len] else {
            return Ok(None);
        };
        let source = Opened {
            file: &opening.file,
            len,
        };
        source.read_runs(rt, runs, &mut bytes)?;
        Ok(Some(MemSource::new(bytes)))
    }

    /// Reads rows of an open file of so many bytes. None where memory runs out.
    pub fn read(
        rt: &R,
        alloc: Global,
        opening: &Opening<R>,
        len: u64,
        runs: Runs,
    ) -> Result<Option<WideRows<R>>, ReadFault>
        requires { AreIn len runs }
        ensures path { IfOk result (λ found. IfSome found (λ w. arc_value w.path ≡ arc_value opening.now.file.path)) }
        ensures number { IfOk result (λ found. IfSome found (λ w. w.number ≡ opening.now.number)) }
        ensures runs { IfOk result (λ found. IfSome found (λ w. w.runs ≡ runs)) }
        ensures place { IfErr result (λ f. BeginsAt runs f.place) }
        ensures fault { IfErr result (λ f. IsTrue (gave_of (R.gave (string_bytes (arc_value opening.now.file.path))) f)) }
    {
        let Ok(path) = opening.file.path.clone() else {
            return Ok(None);
        };
        let Some(bytes) = WideRows::read_bytes(rt, alloc, opening, len, runs)? else {
            return Ok(None);
        };
        Ok(Some(WideRows {
            path,
            number: opening.number,
            runs,
            bytes,
            of: PhantomData,
        }))
    }

    /// Reads longer runs of an open file of so many bytes at the places of those that are asked for. None where there is no room for
    /// longer ones, or memory runs out.
    pub fn read_ahead(
        rt: &R,
        alloc: Global,
        opening: &Opening<R>,
        len: u64,
        runs: Runs,
    ) -> Result<Option<WideRows<R>>, ReadFault>
        requires { AreIn len runs }
        ensures path { IfOk result (λ found. IfSome found (λ w. arc_value w.path ≡ arc_value opening.now.file.path)) }
        ensures number { IfOk result (λ found. IfSome found (λ w. w.number ≡ opening.now.number)) }
        ensures among { IfOk result (λ found. IfSome found (λ w. AreAmong w.runs runs)) }
        ensures room { IfOk result (λ found. IfSome found (λ w. length w.bytes ≤ room_of w.runs.count)) }
        ensures place { IfErr result (λ f. BeginsAt runs f.place) }
        ensures fault { IfErr result (λ f. IsTrue (gave_of (R.gave (string_bytes (arc_value opening.now.file.path))) f)) }
    {
        let Some(rows) = wider(runs, len) else {
            return Ok(None);
        };
        WideRows::read(rt, alloc, opening, len, rows)
    }

    /// Whether these are rows of the file of the path, of the opening of the number, and have these runs of it.
    pub fn have(&self, path: &str, number: u64, runs: Runs) -> bool
        ensures right { IsTrue result → (string_bytes (arc_value self.now.path) ≡ path.now) × (self.now.number ≡ number) ×
            AreAmong self.now.runs runs }
        ensures all { string_bytes (arc_value self.now.path) ≡ path.now → self.now.number ≡ number → AreAmong self.now.runs runs →
            IsTrue result }
    {
        let rows = self.runs;
        if self.number != number || rows.stride != runs.stride || rows.count != runs.count {
            return false;
        }
        if runs.at < rows.at || runs.len > rows.len {
            return false;
        }
        runs.at - rows.at <= (rows.len - runs.len) as u64 && self.path.as_str() == path
    }

    /// Copies runs that the rows have, one after another into the buffer.
    pub fn copy(&self, rt: &R, runs: Runs, buffer: &mut [u8])
        requires among { AreAmong self.now.runs runs }
        requires length { length buffer.old ≡ runs.count * runs.len }
        ensures length { length buffer.new ≡ length buffer.old }
        ensures runs { (bytes : List ℕ) → HoldsRuns bytes self.now.runs self.now.runs.count self.now.bytes →
            HoldsRuns bytes runs runs.count buffer.new }
    {
        let inner = Runs {
            at: runs.at - self.runs.at,
            stride: self.runs.len as u64,
            len: runs.len,
            count: runs.count,
        };
        match self.bytes.read_runs(rt, inner, buffer) {
            Ok(()) => {}
            Err(_) => unreachable!(),
        }
    }
}
