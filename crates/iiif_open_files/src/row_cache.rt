//! A bounded number of rows that were read ahead.

ghost use Rattle.std.specs.Prelude.{◌≡◌, ◌==◌, ◌<◌, ◌≤◌, ◌⊎◌, ◌++◌, ◌∷◌, [], All, None, if◌then◌else◌, filter, not, string_bytes, IfSome};
ghost use Rattle.std.specs.Prelude.{slice_index_or};
ghost use Rattle.std.specs.Arc.{arc_value};
ghost use Rattle.std.specs.Vec.{vec_len};
ghost use Rattle.std.specs.List.{remove};
ghost use Rattle.iiif_open_files.specs.Kept.{number_of, size_of, LastUsed};
ghost use Rattle.iiif_open_files.specs.Rows.{AreAmong};

use crate::wide_rows::WideRows;
use iiif_source::{Opens, Runs};
use std::alloc::Global;
use std::sync::Arc;

/// Rows that were read ahead: at most so many, of at most so many bytes each, the ones that were used last behind all others.
#[derive(Drop)]
pub struct RowCache<R: Opens, const MOST: usize, const ROOM: usize> {
    rows: Vec<Arc<WideRows<R>>>,
    ghost some: { 0 < MOST },
    ghost few: { vec_len rows ≤ MOST },
    ghost small: { All (λ w. size_of (arc_value w) ≤ ROOM) rows.items },
}

impl<R: Opens, const MOST: usize, const ROOM: usize> RowCache<R, MOST, ROOM> {
    /// No rows.
    pub fn new(alloc: Global) -> RowCache<R, MOST, ROOM>
        requires { 0 < MOST }
        ensures { result.rows.items ≡ [] }
    {
        RowCache {
            rows: Vec::new(alloc),
        }
    }

    /// How many are kept.
    pub fn len(&self) -> usize
        ensures count { result ≡ vec_len self.now.rows }
        ensures within { result ≤ MOST }
    {
        self.rows.len()
    }

    /// Rows of the file of a path, of the opening of a number, that have these runs, and their place: those that were used last are
    /// looked at first.
    fn placed(&self, path: &str, number: u64, runs: Runs) -> Option<(usize, Arc<WideRows<R>>)>
        ensures place { IfSome result (λ p. p.0 < vec_len self.now.rows) }
        ensures there { IfSome result (λ p. (d : _) → arc_value (slice_index_or self.now.rows.items p.0 d) ≡ arc_value p.1) }
        ensures path { IfSome result (λ p. string_bytes (arc_value (arc_value p.1).path) ≡ path.now) }
        ensures number { IfSome result (λ p. (arc_value p.1).number ≡ number) }
        ensures among { IfSome result (λ p. AreAmong (arc_value p.1).runs runs) }
    {
        for newer in 0..self.rows.len() {
            let place = self.rows.len() - 1 - newer;
            let rows = &self.rows[place];
            if rows.have(path, number, runs) {
                return match rows.clone() {
                    Ok(rows) => Some((place, rows)),
                    Err(_) => None,
                };
            }
        }
        None
    }

    /// Rows of the file of a path, of the opening of a number, that have these runs; they are then the ones that were used last.
    pub fn find(&mut self, path: &str, number: u64, runs: Runs) -> Option<Arc<WideRows<R>>>
        ensures path { IfSome result (λ w. string_bytes (arc_value (arc_value w).path) ≡ path.now) }
        ensures number { IfSome result (λ w. (arc_value w).number ≡ number) }
        ensures among { IfSome result (λ w. AreAmong (arc_value w).runs runs) }
        ensures used { IfSome result (λ w. LastUsed arc_value (arc_value w) self.old.rows.items self.new.rows.items) }
        ensures unused { result ≡ None → self.new.rows.items ≡ self.old.rows.items }
    {
        match self.placed(path, number, runs) {
            Some((place, found)) => {
                self.rows[place..].rotate_left(1);
                Some(found)
            }
            None => None,
        }
    }

    /// Lets go the rows that were used longest ago, where there is no room for others.
    fn make_room(&mut self)
        ensures rows { self.new.rows.items ≡ (if vec_len self.old.rows == MOST then remove self.old.rows.items 0 else self.old.rows.items) }
        ensures room { vec_len self.new.rows < MOST }
    {
        if self.rows.len() == MOST {
            let _oldest = self.rows.remove(0);
        }
    }

    /// Keeps rows, and lets go the ones that were used longest ago where there is no room. Where memory runs out these are let go
    /// too.
    pub fn keep(&mut self, rows: Arc<WideRows<R>>)
        requires { size_of (arc_value rows) ≤ ROOM }
        ensures { let rest = (if vec_len self.old.rows == MOST then remove self.old.rows.items 0 else self.old.rows.items) in
            (self.new.rows.items ≡ rest ++ (rows ∷ [])) ⊎ (self.new.rows.items ≡ rest) }
    {
        self.make_room();
        let _ = self.rows.push(rows);
    }

    /// Lets go all rows of the opening of a number.
    pub fn forget(&mut self, number: u64)
        ensures { self.new.rows.items ≡ filter (λ w. not (number_of (arc_value w) == number)) self.old.rows.items }
    {
        self.rows.retain(|rows| rows.number != number);
    }
}
