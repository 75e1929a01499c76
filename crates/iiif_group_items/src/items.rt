//! The groups of a node as groups that answer for keys.

ghost use Rattle.std.specs.Prelude.{◌≡◌, ◌+◌, ◌<◌, ◌≤◌, [], Err, IfErr, IfOk, IsTrue, Ok};
ghost use Rattle.std.specs.Arc.{arc_value};
ghost use Rattle.std.specs.declared.alloc.Global.{Global};
ghost use Rattle.std.specs.declared.sync.Arc.{Arc};
ghost use Rattle.iiif_assemble.specs.Opening.{AreValuesOf, IsFaultOf};
ghost use Rattle.iiif_assemble.specs.declared.opened.Opened.TheVariants.{Known};
ghost use Rattle.iiif_group.specs.Beginning.{open_key};
ghost use Rattle.iiif_keys.specs.Meaning.{sums_below};
ghost use Rattle.iiif_outcome.specs.Outcomes.{is_given};
ghost use Rattle.iiif_group_items.specs.Values.{SumGave, SumIsNamed, SumMayBe, TileGave, TileIsNamed, TileMayBe};

use crate::job_queue::{JobQueue, Queued};
use iiif_assemble::{Items, Opened};
use iiif_delivery::Admission;
use iiif_keys::laws::parts_are_exact;
use iiif_keys::{Fault, SumKey, SumVal, System, TileKey, TileVal};
use iiif_source::Source;
use iiif_sum_group::{Begun, Gate, Handle, Link, Open, Passes, SumCalls, TileCalls, take_outcome};
use std::sync::ledger::Ledger;
use std::sync::{Arc, Wait};
use std::time::{Clock, Duration};

/// The groups of a node, of whose values images are made, and the queues that admit jobs to the making of sums. By a handle nothing is
/// loaded but behind a call that entered its group.
#[derive(Drop)]
pub struct GroupItems<'a, R, S: Source<R>, J: System, N, T>(
    pub Handle<'a, R, S, J, N, T>,
    pub &'a JobQueue,
)
where
    TileCalls<J>: Ledger,
    SumCalls<J>: Ledger;

/// The least level of a block whose parts are shared out. These are of up to 16 tiles, which take half a millisecond to load and sum: for
/// fewer a thread costs as much as it saves.
const SHARED: u8 = 3;

/// Wraps a value that is known, or why there is none.
fn known<K, V, O>(came: Result<Arc<V>, Fault>) -> Result<Opened<K, V, O>, Fault>
    ensures value { IfOk result (λ b. (v : Arc V Global) × (came ≡ Ok v) × (b ≡ Known v)) }
    ensures fault { IfErr result (λ f. came ≡ Err f) }
{
    match came {
        Ok(value) => Ok(Opened::Known(value)),
        Err(fault) => Err(fault),
    }
}

/// Answers for tiles: by the cached value, or the outcome of a flight. A worker asks with a pass of each group.
impl<
    'a,
    R: Wait + Clock,
    S: Source<R> + Drop,
    J: System,
    N: Link<TileKey, J, R> + Link<SumKey, J, R>,
    T: Gate<R>,
> Items<TileKey, TileVal, Passes<J>, R> for GroupItems<'a, R, S, J, N, T> {
    type Open = ();

    ghost fits = { λ _ k. TileIsNamed J.pictures J.edge k };

    ghost means = { λ _ k v. TileMayBe J.pictures J.stable J.honest k v };

    ghost failed = { λ _ k f. IsTrue (is_given (J.gave k.name) f) };

    ghost rank = { λ _ k. 0 };

    ghost is_open = { λ _ o k parts. parts ≡ [] };

    // By one call, which asks the tile's owner at most once.
    ghost asked = { λ _ old new. (old.tile.gets + 1 ≤ new.tile.gets) × (new.tile.gets ≤ old.tile.gets + 2) };

    fn open(
        &self,
        rt: &R,
        pass: &mut Passes<J>,
        key: &TileKey,
    ) -> Result<Opened<TileKey, TileVal, ()>, Fault> {
        match self.0.get_tile(rt, &mut pass.tile, key) {
            Ok(receipt) => known(take_outcome(receipt, key)),
            Err(fault) => Err(fault),
        }
    }

    /// Is never called with values: no tile has parts.
    fn close(
        &self,
        _rt: &R,
        _load: (),
        key: &TileKey,
        parts: Vec<TileKey>,
        values: Result<Vec<Arc<TileVal>>, Fault>,
    ) -> Result<Arc<TileVal>, Fault>
        requires fits { TileIsNamed J.pictures J.edge key.now }
        requires open { parts.items ≡ [] }
        requires values { IfOk values (λ v. AreValuesOf (TileMayBe J.pictures J.stable J.honest) parts.items v.items) }
        requires fault { IfErr values (IsFaultOf (TileGave J.gave) key.now) }
        ensures value { IfOk result (λ v. TileMayBe J.pictures J.stable J.honest key.now (arc_value v)) }
        ensures fault { IfErr result (IsFaultOf (TileGave J.gave) key.now) }
        ensures same { IfErr values (λ f. result ≡ Err f) }
    {
        drop(parts);
        match values {
            Ok(_) => Err(Fault::NoMemory),
            Err(fault) => Err(fault),
        }
    }

    fn is_cached(&self, rt: &R, key: &TileKey) -> bool {
        self.0.tiles().holds(rt, key)
    }
}

/// Answers for sums in the same way, and shares out the making of those that have many parts.
impl<
    'a,
    R: Wait + Clock,
    S: Source<R> + Drop,
    J: System,
    N: Link<TileKey, J, R> + Link<SumKey, J, R>,
    T: Gate<R>,
> Items<SumKey, SumVal, Passes<J>, R> for GroupItems<'a, R, S, J, N, T> {
    type Open = Open<SumKey, J, SumCalls<J>>;

    ghost fits = { λ _ k. SumIsNamed J.pictures J.edge k };

    ghost means = { λ _ k v. SumMayBe J.pictures J.stable J.honest k v };

    ghost failed = { λ _ k f. IsTrue (is_given (J.gave k.name) f) };

    ghost rank = { λ _ k. k.level };

    ghost is_open = { λ _ o k parts. (open_key o ≡ k) × (parts ≡ sums_below k) × (0 < k.level) };

    ghost asked = { λ _ old new. old.sum.gets + 1 ≤ new.sum.gets };

    fn open(
        &self,
        rt: &R,
        pass: &mut Passes<J>,
        key: &SumKey,
    ) -> Result<Opened<SumKey, SumVal, Open<SumKey, J, SumCalls<J>>>, Fault> {
        // A law of parts.
        parts_are_exact();
        if key.level < SHARED {
            return match self.0.get(rt, pass, key) {
                Ok(receipt) => known(take_outcome(receipt, key)),
                Err(fault) => Err(fault),
            };
        }
        let parts = self.0.quarters(key)?;
        match self.0.begin(rt, pass, key) {
            Ok(Begun::Known(receipt)) => known(take_outcome(receipt, key)),
            Ok(Begun::Load(load)) => Ok(Opened::Parts(load, parts)),
            Err(fault) => Err(fault),
        }
    }

    fn close(
        &self,
        rt: &R,
        load: Open<SumKey, J, SumCalls<J>>,
        key: &SumKey,
        parts: Vec<SumKey>,
        values: Result<Vec<Arc<SumVal>>, Fault>,
    ) -> Result<Arc<SumVal>, Fault>
        requires fits { SumIsNamed J.pictures J.edge key.now }
        requires open { (open_key load ≡ key.now) × (parts.items ≡ sums_below key.now) × (0 < key.now.level) }
        requires values { IfOk values (λ v. AreValuesOf (SumMayBe J.pictures J.stable J.honest) parts.items v.items) }
        requires fault { IfErr values (IsFaultOf (SumGave J.gave) key.now) }
        ensures value { IfOk result (λ v. SumMayBe J.pictures J.stable J.honest key.now (arc_value v)) }
        ensures fault { IfErr result (IsFaultOf (SumGave J.gave) key.now) }
        ensures same { IfErr values (λ f. result ≡ Err f) }
    {
        drop(parts);
        match values {
            Ok(values) => take_outcome(self.0.finish(rt, load, key, Ok(values)).receipt, key),
            Err(fault) => {
                drop(self.0.finish(rt, load, key, Err(fault)));
                Err(fault)
            }
        }
    }

    fn is_cached(&self, rt: &R, key: &SumKey) -> bool {
        self.0.sums().holds(rt, key)
    }
}

/// Admits jobs to the making of sums, by the queues of the node.
impl<'a, R: Wait + Clock, S: Source<R> + Drop, J: System, N, T> Admission<R>
    for GroupItems<'a, R, S, J, N, T> {
    type Queued = Queued;

    ghost work_of = { λ _ job. job.work };

    fn enqueue(&self, rt: &R, work: u64) -> Queued {
        self.1.enqueue(rt, work)
    }

    fn wait(&self, rt: &R, job: &Queued, limit: Duration) -> bool {
        self.1.wait(rt, job, limit)
    }

    fn release(&self, rt: &R, job: Queued) {
        self.1.release(rt, job);
    }
}
