//! Sums whose parts the caller gets: a worker begins with a key, and finishes with the values of its parts.

ghost use Rattle.std.specs.Prelude.{◌≡◌, ◌<◌, IfOk};
ghost use Rattle.iiif_keys.specs.Bytes.{sum_key_bytes};
ghost use Rattle.iiif_keys.specs.Meaning.{sums_below};
ghost use Rattle.iiif_group.specs.Beginning.{open_key, AsksOwner};
ghost use Rattle.iiif_sum_group.specs.Calls.{Begins};
ghost use Rattle.iiif_sum_group.specs.Outcomes.{AreOfQuarters, EndsWith, Quarters, TellsAll};
ghost use Rattle.iiif_sum_group.specs.Values.{MayBeSums};

use crate::groups::Groups;
use crate::making::combine_parts;
use iiif_group::{Begun, Completed, Gate, Link, Open, Passes, SumCalls};
use iiif_keys::laws::{fitting_keys_have_parts, parts_are_exact};
use iiif_keys::{CacheKey, Fault, Parts, SumKey, SumVal, System, TileKey, parts};
use iiif_source::Source;
use std::sync::{Arc, Wait};

impl<
    R: Wait,
    S: Source<R> + Drop,
    J: System,
    N: Link<TileKey, J, R> + Link<SumKey, J, R>,
    T: Gate<R>,
> Groups<R, S, J, N, T> {
    /// Returns the keys of a block's quarters.
    pub fn quarters(&self, key: &SumKey) -> Result<Vec<SumKey>, Fault>
        requires level { 0 < key.now.level }
        ensures { Quarters J.System key.now result }
    {
        // A law of keys.
        fitting_keys_have_parts();
        let _shape = self.tiles.images().shape_of(key)?;
        match parts(self.alloc, key) {
            Ok(Parts::Sums(quarters)) => Ok(quarters),
            // That is level 0.
            Ok(Parts::Tile(_tile)) => Err(Fault::NoMemory),
            Err(_) => Err(Fault::NoMemory),
        }
    }

    /// Begins a call for sums: returns the outcome of a flight of the key, or the duty to make its value. Then the caller gets the values
    /// of the quarters, and finishes. Where another node owns the key, that node is asked first. No tile is got, and no other sums.
    pub fn begin(
        &self,
        rt: &R,
        passes: &mut Passes<J>,
        key: &SumKey,
    ) -> Result<Begun<SumKey, J, SumCalls<J>>, Fault>
        ensures begins { Begins key.now passes.old passes.new result }
        // A load is owed once the owner was asked, if that is another node.
        ensures asked { IfOk result (AsksOwner self.now.sums (sum_key_bytes key.now)) }
    {
        let shape = self.tiles.images().shape_of(key)?;
        match self.sums.begin(rt, &mut passes.sum, key, &shape) {
            Ok(begun) => Ok(begun),
            Err(_) => Err(Fault::NoMemory),
        }
    }

    /// Makes the value of a block above level 0 of those of its quarters.
    fn merged(&self, key: &SumKey, values: Vec<Arc<SumVal>>) -> Result<Arc<SumVal>, Fault>
        requires level { 0 < key.now.level }
        requires values { MayBeSums J.pictures J.stable J.honest (sums_below key.now) values.items }
        ensures { EndsWith J.System key.now result }
    {
        // Laws of parts and of keys.
        parts_are_exact();
        SumKey::laws();
        let Ok(shape) = self.tiles.images().shape_of(key) else {
            return Err(Fault::NoMemory);
        };
        combine_parts::<J>(self.alloc, &shape, key, values)
    }

    /// Completes what was begun with a key above level 0, with the values of its quarters or the fault of one, and tells all that wait. The
    /// fault of a quarter is the block's.
    pub fn finish(
        &self,
        rt: &R,
        load: Open<SumKey, J, SumCalls<J>>,
        key: &SumKey,
        values: Result<Vec<Arc<SumVal>>, Fault>,
    ) -> Completed<SumKey, J, SumCalls<J>>
        requires key { open_key load ≡ key.now }
        requires values { AreOfQuarters J.System key.now values }
        ensures { TellsAll key.now values result }
    {
        match values {
            Ok(values) => self.complete(rt, load, key, self.merged(key, values)),
            Err(fault) => self.complete(rt, load, key, Err(fault)),
        }
    }
}
