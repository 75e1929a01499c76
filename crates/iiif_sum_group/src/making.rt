//! Making of sums of their parts.

ghost use Rattle.std.specs.Prelude.{◌≡◌, ◌<◌, ◌∷◌, [], Err, IfErr, IfOk, IsTrue, OnOk, length};
ghost use Rattle.iiif_keys.specs.Names.{named, IsSource};
ghost use Rattle.iiif_keys.specs.Shapes.{HasPicture};
ghost use Rattle.iiif_outcome.specs.Outcomes.{is_given};
ghost use Rattle.iiif_sum_group.specs.Asking.{AskedAll, AsksSoMany, HasAsManyParts, Makes, MakesOfParts, MakesOne, Rises};
ghost use Rattle.iiif_sum_group.specs.declared.make_error.MakeError.TheVariants.{Total};
ghost use Rattle.iiif_sum_group.specs.Code.{Boxes, CanTotal, FitsShape, HasQuarters, HasTile, HasValues, Keeps, Totals};
ghost use Rattle.iiif_sum_group.specs.Outcomes.{EndsWith};
ghost use Rattle.iiif_sum_group.specs.Values.{AreValuesOf, MayBeAsked};

use crate::below::Below;
use crate::make_error::MakeError;
use iiif_group::{Gate, Link, Passes, share, take_outcome};
use iiif_keys::laws::{fitting_keys_have_parts, parts_are_exact, parts_make_the_meaning};
use iiif_keys::{CacheKey, Fault, Parts, Shape, SumKey, SumVal, System, TileKey, parts};
use iiif_source::Source;
use std::alloc::Global;
use std::sync::{Arc, Wait};

/// Appends a value.
fn keep(values: &mut Vec<Arc<SumVal>>, value: Arc<SumVal>) -> Result<(), Fault>
    ensures { Keeps values.old.items values.new.items value result }
{
    match values.push(value) {
        Ok(()) => Ok(()),
        Err(_) => Err(Fault::NoMemory),
    }
}

/// Shares what was made among all that wait.
fn share_result(alloc: Global, made: Result<SumVal, Fault>) -> Result<Arc<SumVal>, Fault>
    ensures { Boxes made result }
{
    match made {
        Ok(value) => share(alloc, value),
        Err(fault) => Err(fault),
    }
}

/// Takes the only value of a list.
fn into_only(mut values: Vec<Arc<SumVal>>) -> Arc<SumVal>
    requires { length values.items ≡ 1 }
    ensures { values.items ≡ result ∷ [] }
{
    values.remove(0)
}

/// Merges the values of the parts of a block above level 0.
fn total(alloc: Global, shape: &Shape, key: &SumKey, parts: &[Arc<SumVal>]) -> Result<SumVal, Fault>
    requires { CanTotal shape.now key.now parts.now }
    ensures { Totals shape.now key.now parts.now result }
{
    match SumVal::of_parts(alloc, key, shape, parts) {
        Ok(total) => Ok(total),
        Err(_) => Err(Fault::NoMemory),
    }
}

/// Makes the value of a block above level 0 of those of its quarters, for all that wait. The sums of a lone quarter are its own, and
/// aren't copied.
pub(crate) fn combine_parts<J: System>(
    alloc: Global,
    shape: &Shape,
    key: &SumKey,
    values: Vec<Arc<SumVal>>,
) -> Result<Arc<SumVal>, Fault>
    requires { HasValues J.System key.now shape.now values.items }
    ensures { EndsWith J.System key.now result }
{
    // Laws of parts and of keys.
    parts_are_exact();
    parts_make_the_meaning();
    SumKey::laws();
    if values.len() == 1 {
        return Ok(into_only(values));
    }
    share_result(alloc, total(alloc, shape, key, &values))
}

impl<
    'a,
    R: Wait,
    S: Source<R> + Drop,
    J: System,
    N: Link<TileKey, J, R> + Link<SumKey, J, R>,
    T: Gate<R>,
> Below<'a, R, S, J, N, T> {
    ghost use Rattle.iiif_sum_group.specs.Levels.{level_above};

    /// Makes the sums of a block of level 0: gets its tile, and sums that.
    fn make_of_tile(
        &self,
        rt: &R,
        passes: &mut Passes<J>,
        shape: &Shape,
        key: &SumKey,
        tile: &TileKey,
    ) -> Result<SumVal, Fault>
        requires { HasTile J.System key.now shape.now tile.now }
        ensures { MakesOne J.System key.now passes.old passes.new result }
    {
        // Laws of keys.
        TileKey::laws();
        SumKey::laws();
        let Ok(receipt) = self.ask_tile(rt, &mut passes.tile, tile) else {
            return Err(Fault::NoMemory);
        };
        let value = take_outcome(receipt, tile)?;
        match SumVal::of_tile(self.alloc(), key, shape, &*value) {
            Ok(sums) => Ok(sums),
            Err(_) => Err(Fault::NoMemory),
        }
    }

    /// Makes the value of a key that fits of its parts: of one tile, or of sums of the level below. A call that leads a flight runs this,
    /// and so does `load`, which copies the value.
    #[cycle(sums)]
    pub(crate) fn make(
        &self,
        rt: &R,
        passes: &mut Passes<J>,
        shape: &Shape,
        key: &SumKey,
    ) -> Result<Arc<SumVal>, Fault>
        requires level { level_above self.now ≡ key.now.level }
        requires known { HasPicture J.pictures key.now.name shape.now }
        requires source { IsSource (named J.pictures key.now.name) }
        requires fits { FitsShape shape.now key.now }
        ensures { Makes J.System key.now passes.old passes.new result }
    {
        // A law of keys.
        fitting_keys_have_parts();
        match parts(self.alloc(), key) {
            Ok(Parts::Tile(tile)) => {
                share_result(
                    self.alloc(),
                    self.make_of_tile(rt, passes, shape, key, &tile),
                )
            }
            Ok(Parts::Sums(quarters)) => match self.make_of_parts(
                rt, passes, shape, key, &quarters,
            ) {
                Ok(value) => Ok(value),
                Err(error) => Err(error.fault()),
            },
            Err(_) => Err(Fault::NoMemory),
        }
    }

    /// Makes the value of a block above level 0 of its quarters. Memory for it is taken once each of these was asked for, so a block that
    /// waits for its parts holds no sums of its own.
    #[cycle(sums)]
    fn make_of_parts(
        &self,
        rt: &R,
        passes: &mut Passes<J>,
        shape: &Shape,
        key: &SumKey,
        quarters: &[SumKey],
    ) -> Result<Arc<SumVal>, MakeError>
        requires level { level_above self.now ≡ key.now.level }
        requires quarters { HasQuarters J.System key.now shape.now quarters.now }
        ensures made { MakesOfParts J.System key.now passes.old passes.new result }
        ensures late { result ≡ Err Total → AskedAll quarters.now passes.old passes.new }
    {
        // A law of parts.
        parts_are_exact();
        match self.ask_parts(rt, passes, shape, key, quarters) {
            Ok(values) => match combine_parts::<J>(self.alloc(), shape, key, values) {
                Ok(value) => Ok(value),
                Err(_) => Err(MakeError::Total),
            },
            Err(fault) => Err(MakeError::Part(fault)),
        }
    }

    /// Gets the values of a block's parts, in their order: one after another, and each is waited for.
    #[cycle(sums)]
    fn ask_parts(
        &self,
        rt: &R,
        passes: &mut Passes<J>,
        shape: &Shape,
        key: &SumKey,
        keys: &[SumKey],
    ) -> Result<Vec<Arc<SumVal>>, Fault>
        requires level { level_above self.now ≡ key.now.level }
        requires may { MayBeAsked J.pictures shape.now key.now keys.now }
        ensures values { IfOk result (λ v. AreValuesOf J.pictures shape.now (J.stable key.now.name × IsTrue J.honest) keys.now v.items) }
        ensures given { IfErr result (λ f. IsTrue (is_given (J.gave key.now.name) f)) }
        ensures counted { Rises passes.old passes.new }
        ensures asked { OnOk result (AskedAll keys.now passes.old passes.new) }
        ensures below { AsksSoMany key.now.level (length keys.now) passes.old passes.new }
        ensures parts { HasAsManyParts passes.old passes.new }
    {
        // Laws of keys.
        SumKey::laws();
        let mut values = Vec::new(self.alloc());
        for part in keys {
            let receipt = self.ask_part(rt, passes, shape, part)?;
            let value = take_outcome(receipt, part)?;
            keep(&mut values, value)?;
        }
        Ok(values)
    }
}
