//! The items of a band, asked by several workers.

ghost use Rattle.std.specs.Prelude.{◌≡◌, ℕ, ◌+◌, ◌<◌, ◌≤◌, ◌++◌, ◌∷◌, [], List, All, IfOk, IfErr, IfSome, IsNone, OnOk, OnErr, length, map};
ghost use Rattle.std.specs.Prelude.{◌-◌, ◌/◌, ◌^◌, max, min, take, vec_len};
ghost use Rattle.std.specs.Arc.{arc_value};
ghost use Rattle.iiif_keys.specs.declared.fault.Fault.TheVariants as Fault;
ghost use Rattle.iiif_assemble.specs.Gathering.{AreValues, IsItemFault};
ghost use denote.Param.Send.{IsSync};

use crate::idle::{IdleWorkers, Worker};
use crate::items::Items;
use crate::parts::{Pool, ask};
use iiif_keys::Fault;
use std::alloc::Global;
use std::sync::{Arc, Wait};
use std::thread::{Threads, join};

/// Appends a value.
pub(crate) fn keep<V: Drop>(values: &mut Vec<Arc<V>>, value: Arc<V>) -> Result<(), Fault>
    ensures ok { OnOk result (values.new.items ≡ values.old.items ++ value ∷ []) }
    ensures err { IfErr result (λ f. f ≡ Fault.NoMemory) }
{
    match values.push(value) {
        Ok(()) => Ok(()),
        Err(_) => Err(Fault::NoMemory),
    }
}

/// Appends a list of values to another.
pub(crate) fn concat<V: Drop>(
    mut first: Vec<Arc<V>>,
    rest: Vec<Arc<V>>,
) -> Result<Vec<Arc<V>>, Fault>
    ensures ok { IfOk result (λ v. v.items ≡ first.items ++ rest.items) }
    ensures err { IfErr result (λ f. f ≡ Fault.NoMemory) }
{
    for value in rest {
        keep(&mut first, value)?;
    }
    Ok(first)
}

/// The progress of one worker.
struct SoFar<'x, 'a, V, P, R: Wait> {
    /// The values of the first items.
    values: Vec<Arc<V>>,
    /// An idle worker that was taken to help, as more than one item was left. None where all have their values.
    worker: Option<Worker<'x, 'a, P, R>>,
}

/// Asks for items one after another, until more than one is left and another worker is idle; or returns the first fault.
fn begin<
    'x,
    'a,
    G: Items<K, V, P, R> + Sync,
    K: Sync,
    V: Drop + Send + Sync,
    P: Send,
    R: Threads + Wait + Sync,
>(
    pool: &Pool<'x, 'a, G, P, R>,
    own: &mut P,
    keys: &[K],
    items: &[usize],
) -> Result<SoFar<'x, 'a, V, P, R>, Fault>
    requires within { All (λ i. i < length keys.now) items.now }
    requires fits { All (G.fits pool.now.group.now) keys.now }
    ensures left { IfOk result (λ b. IfSome b.worker (λ h. vec_len b.values + 2 ≤ length items.now)) }
    ensures all { IfOk result (λ b. IsNone b.worker → vec_len b.values ≡ length items.now) }
    ensures values { IfOk result (λ b. AreValues (G.means pool.now.group.now) keys.now (take (vec_len b.values) items.now)
        (map arc_value b.values.items)) }
    ensures fault { IfErr result (IsItemFault (G.means pool.now.group.now) (G.failed pool.now.group.now) keys.now items.now) }
{
    let mut values = Vec::new(pool.alloc);
    for n in 0..items.len() {
        let key = &keys[items[n]];
        // A worker that is alone takes no lock to see whether help would pay.
        let may_share = items.len() - n > 1 && !pool.idle.is_empty();
        if may_share && !pool.group.is_cached(pool.rt, key) {
            if let Some(worker) = pool.idle.take(pool.rt) {
                return Ok(SoFar {
                    values,
                    worker: Some(worker),
                });
            }
        }
        match ask(pool, own, key) {
            Ok(value) => keep(&mut values, value)?,
            Err(fault) => return Err(fault),
        }
    }
    Ok(SoFar {
        values,
        worker: None,
    })
}

/// Counts the items of those that are left which one of so many idle workers gets: an equal share, where all of them help, or one.
fn share_of(left: usize, idle: usize) -> usize
    requires { (2 ≤ left) × (1 ≤ idle) }
    ensures share { result ≡ max (left / min (idle + 1) (2 ^ 64 - 1)) 1 }
    ensures some { 1 ≤ result }
    ensures rest { result < left }
{
    (left / idle.saturating_add(1)).max(1)
}

/// Gathers the values of all items, in their order. While this worker asks for one after another, it gives an idle one an equal share of
/// those that are left, from their end, and that worker does the same with them. Where a thread can't be started the calling one does its
/// share. The fault is that of the first item that failed, whichever worker met one first. The number of workers is in no clause.
#[cycle(shares)]
fn share_out<
    G: Items<K, V, P, R> + Sync,
    K: Sync,
    V: Drop + Send + Sync,
    P: Send,
    R: Threads + Wait + Sync,
>(
    pool: &Pool<'_, '_, G, P, R>,
    own: &mut P,
    keys: &[K],
    items: &[usize],
) -> Result<Vec<Arc<V>>, Fault>
    requires within { All (λ i. i < length keys.now) items.now }
    requires fits { All (G.fits pool.now.group.now) keys.now }
    ensures values { IfOk result (λ v. AreValues (G.means pool.now.group.now) keys.now items.now (map arc_value v.items)) }
    ensures fault { IfErr result (IsItemFault (G.means pool.now.group.now) (G.failed pool.now.group.now) keys.now items.now) }
{
    let SoFar { values, worker } = begin(pool, own, keys, items)?;
    let Some(worker) = worker else {
        return Ok(values);
    };
    let (_done, left) = items.split_at(values.len());
    match split(pool, own, worker, keys, left) {
        Ok(rest) => concat(values, rest),
        Err(fault) => Err(fault),
    }
}

/// Gathers the values of items by two workers, each of which gets a share of them.
#[cycle(shares)]
fn split<
    'a,
    G: Items<K, V, P, R> + Sync,
    K: Sync,
    V: Drop + Send + Sync,
    P: Send,
    R: Threads + Wait + Sync,
>(
    pool: &Pool<'_, 'a, G, P, R>,
    own: &mut P,
    worker: Worker<'_, 'a, P, R>,
    keys: &[K],
    items: &[usize],
) -> Result<Vec<Arc<V>>, Fault>
    requires some { 2 ≤ length items.now }
    requires within { All (λ i. i < length keys.now) items.now }
    requires fits { All (G.fits pool.now.group.now) keys.now }
    ensures values { IfOk result (λ v. AreValues (G.means pool.now.group.now) keys.now items.now (map arc_value v.items)) }
    ensures fault { IfErr result (IsItemFault (G.means pool.now.group.now) (G.failed pool.now.group.now) keys.now items.now) }
{
    // This worker keeps what doesn't divide: it waits once it is done, while one that was taken is idle then, and helps again.
    let kept = items.len() - share_of(items.len(), worker.idle_count());
    let (mine, theirs) = items.split_at(kept);
    // The worker has the thread that is started, so this worker goes on at once.
    let (rest, first) = join(
        pool.rt,
        || -> Result<Vec<Arc<V>>, Fault>
            requires { IsSync R.row × All (λ i. i < length keys.now) theirs.now × All (G.fits pool.now.group.now) keys.now }
            ensures { IfOk result (λ v. AreValues (G.means pool.entry.now.group.now) keys.entry.now theirs.entry.now
                (map arc_value v.items))
                × IfErr result (IsItemFault (G.means pool.entry.now.group.now) (G.failed pool.entry.now.group.now) keys.entry.now
                theirs.entry.now) }
        { help(pool, worker, keys, theirs) },
        || -> Result<Vec<Arc<V>>, Fault>
            requires { IsSync R.row × All (λ i. i < length keys.now) mine.now × All (G.fits pool.now.group.now) keys.now }
            ensures { IfOk result (λ v. AreValues (G.means pool.entry.now.group.now) keys.entry.now mine.entry.now (map arc_value v.items))
                × IfErr result (IsItemFault (G.means pool.entry.now.group.now) (G.failed pool.entry.now.group.now) keys.entry.now
                mine.entry.now) }
        { share_out(pool, own, keys, mine) },
    );
    match first {
        Ok(first) => match rest {
            Ok(rest) => concat(first, rest),
            Err(later) => Err(later),
        },
        Err(earlier) => Err(earlier),
    }
}

/// Gathers the values of items by a worker that was idle, and is idle again then.
#[cycle(shares)]
fn help<
    'a,
    G: Items<K, V, P, R> + Sync,
    K: Sync,
    V: Drop + Send + Sync,
    P: Send,
    R: Threads + Wait + Sync,
>(
    pool: &Pool<'_, 'a, G, P, R>,
    mut worker: Worker<'_, 'a, P, R>,
    keys: &[K],
    items: &[usize],
) -> Result<Vec<Arc<V>>, Fault>
    requires within { All (λ i. i < length keys.now) items.now }
    requires fits { All (G.fits pool.now.group.now) keys.now }
    ensures values { IfOk result (λ v. AreValues (G.means pool.now.group.now) keys.now items.now (map arc_value v.items)) }
    ensures fault { IfErr result (IsItemFault (G.means pool.now.group.now) (G.failed pool.now.group.now) keys.now items.now) }
{
    let values = share_out(pool, worker.pass(), keys, items);
    // The worker is idle again.
    drop(worker);
    values
}

/// Returns whether all items are cached.
fn are_cached<G: Items<K, V, P, R>, K, V, P, R>(
    rt: &R,
    group: &G,
    keys: &[K],
    items: &[usize],
) -> bool {
    for item in items {
        match keys.get(*item) {
            Some(key) if group.is_cached(rt, key) => {}
            _ => return false,
        }
    }
    true
}

/// Gathers the values of these items of the keys, by a worker and those that are idle.
fn gather_by_crew<
    G: Items<K, V, P, R> + Sync,
    K: Sync,
    V: Drop + Send + Sync,
    P: Send,
    R: Threads + Wait + Sync,
>(
    rt: &R,
    alloc: Global,
    group: &G,
    idle: &IdleWorkers<'_, P>,
    own: &mut P,
    asked: (&[K], &[usize]),
) -> Result<Vec<Arc<V>>, Fault>
    requires within { All (λ i. i < length asked.0.now) asked.1.now }
    requires fits { All (G.fits group.now) asked.0.now }
    ensures values { IfOk result (λ v. AreValues (G.means group.now) asked.entry.0.now asked.entry.1.now (map arc_value v.items)) }
    ensures fault { IfErr result (IsItemFault (G.means group.now) (G.failed group.now) asked.entry.0.now asked.entry.1.now) }
{
    let (keys, items) = asked;
    let pool = Pool {
        rt,
        alloc,
        group,
        idle,
    };
    share_out(&pool, own, keys, items)
}

/// Gathers the values of all items, in their order, by one worker for each pass: by the first alone where all are cached, so that no thread
/// is started for values that are found at once.
///
/// # Errors
///
/// The fault of the first item that failed, whichever worker met one first; or `NoMemory`.
pub fn gather<
    G: Items<K, V, P, R> + Sync,
    K: Sync,
    V: Drop + Send + Sync,
    P: Send,
    R: Threads + Wait + Sync,
>(
    rt: &R,
    alloc: Global,
    group: &G,
    passes: &mut [P],
    keys: &[K],
    items: &[usize],
) -> Result<Vec<Arc<V>>, Fault>
    requires some { 0 < length passes.old }
    requires within { All (λ i. i < length keys.now) items.now }
    requires fits { All (G.fits group.now) keys.now }
    ensures values { IfOk result (λ v. AreValues (G.means group.now) keys.now items.now (map arc_value v.items)) }
    ensures fault { IfErr result (IsItemFault (G.means group.now) (G.failed group.now) keys.now items.now) }
{
    let Some((own, others)) = passes.split_first_mut() else {
        return Err(Fault::NoMemory);
    };
    if others.is_empty() || are_cached(rt, group, keys, items) {
        let idle = IdleWorkers::empty(alloc);
        return gather_by_crew(rt, alloc, group, &idle, own, (keys, items));
    }
    let Ok(idle) = IdleWorkers::new(alloc, others) else {
        return Err(Fault::NoMemory);
    };
    gather_by_crew(rt, alloc, group, &idle, own, (keys, items))
}
