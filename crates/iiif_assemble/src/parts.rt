//! A value made of its parts, asked by several workers.

ghost use Rattle.std.specs.Prelude.{◌≡◌, ◌≤◌, ◌<◌, ◌++◌, All, IfOk, IfErr, length};
ghost use Rattle.std.specs.Arc.{arc_value};
ghost use Rattle.iiif_assemble.specs.Opening.{AreValuesOf, IsFaultOf, IsPart, IsPartsFault};
ghost use denote.Param.Send.{IsSync};

use crate::idle::{IdleWorkers, Worker};
use crate::items::Items;
use crate::opened::Opened;
use crate::pool::{concat, keep};
use iiif_keys::Fault;
use std::alloc::Global;
use std::sync::{Arc, Wait};
use std::thread::{Threads, join};

/// The group that is asked, and the workers that are idle.
#[derive(Drop)]
pub(crate) struct Pool<'x, 'a, G, P, R> {
    pub rt: &'x R,
    pub alloc: Global,
    pub group: &'x G,
    pub idle: &'x IdleWorkers<'a, P>,
}

/// Gets the value of a key. Where it is made of parts, idle workers ask for some of these.
#[cycle(parts)]
pub(crate) fn ask<
    G: Items<K, V, P, R> + Sync,
    K: Sync,
    V: Drop + Send + Sync,
    P: Send,
    R: Threads + Wait + Sync,
>(pool: &Pool<'_, '_, G, P, R>, own: &mut P, key: &K) -> Result<Arc<V>, Fault>
    requires { G.fits pool.now.group.now key.now }
    ensures value { IfOk result (λ v. G.means pool.now.group.now key.now (arc_value v)) }
    ensures fault { IfErr result (IsFaultOf (G.failed pool.now.group.now) key.now) }
{
    match pool.group.open(pool.rt, own, key) {
        Ok(Opened::Known(value)) => Ok(value),
        Ok(Opened::Parts(load, parts)) => {
            let values = share(pool, own, key, &parts);
            pool.group.close(pool.rt, load, key, parts, values)
        }
        Err(fault) => Err(fault),
    }
}

/// Gathers the values of a key's parts, in their order, each asked once; or the fault of the first of them that failed. An idle worker asks
/// for the last of them, while this one asks for the others. So behind a part that failed none is begun; one that is under way is ended, as
/// others may wait for it.
#[cycle(parts)]
fn share<
    G: Items<K, V, P, R> + Sync,
    K: Sync,
    V: Drop + Send + Sync,
    P: Send,
    R: Threads + Wait + Sync,
>(pool: &Pool<'_, '_, G, P, R>, own: &mut P, key: &K, parts: &[K]) -> Result<Vec<Arc<V>>, Fault>
    requires few { length parts.now ≤ 4 }
    requires parts { All (IsPart (G.fits pool.now.group.now) (G.rank pool.now.group.now) (G.failed pool.now.group.now) key.now) parts.now }
    ensures values { IfOk result (λ v. AreValuesOf (G.means pool.now.group.now) parts.now v.items) }
    ensures fault { IfErr result (IsPartsFault (G.means pool.now.group.now) (G.failed pool.now.group.now) parts.now) }
{
    if parts.len() < 2 {
        return ask_in_turn(pool, own, key, parts);
    }
    let Some(worker) = pool.idle.take(pool.rt) else {
        let (front, back) = parts.split_at(1);
        let first = ask_in_turn(pool, own, key, front)?;
        let rest = share(pool, own, key, back)?;
        return concat(first, rest);
    };
    let (front, back) = parts.split_at(parts.len() - 1);
    // The worker has the thread that is started, so this worker goes on at once.
    let (rest, first) = join(
        pool.rt,
        || -> Result<Vec<Arc<V>>, Fault>
            requires { IsSync R.row × All (IsPart (G.fits pool.now.group.now) (G.rank pool.now.group.now) (G.failed pool.now.group.now)
                key.now) back.now }
            ensures { IfOk result (λ v. AreValuesOf (G.means pool.entry.now.group.now) back.entry.now v.items)
                × IfErr result (IsPartsFault (G.means pool.entry.now.group.now) (G.failed pool.entry.now.group.now) back.entry.now) }
        { help(pool, worker, key, back) },
        || -> Result<Vec<Arc<V>>, Fault>
            requires { IsSync R.row × (length front.now ≤ 3) × All (IsPart (G.fits pool.now.group.now) (G.rank pool.now.group.now)
                (G.failed pool.now.group.now) key.now) front.now }
            ensures { IfOk result (λ v. AreValuesOf (G.means pool.entry.now.group.now) front.entry.now v.items)
                × IfErr result (IsPartsFault (G.means pool.entry.now.group.now) (G.failed pool.entry.now.group.now) front.entry.now) }
        { share(pool, own, key, front) },
    );
    match first {
        Ok(first) => match rest {
            Ok(rest) => concat(first, rest),
            Err(later) => Err(later),
        },
        Err(earlier) => Err(earlier),
    }
}

/// Gathers the values of parts by a worker that was idle, and is idle again then.
#[cycle(parts)]
fn help<
    'a,
    G: Items<K, V, P, R> + Sync,
    K: Sync,
    V: Drop + Send + Sync,
    P: Send,
    R: Threads + Wait + Sync,
>(
    pool: &Pool<'_, 'a, G, P, R>,
    mut worker: Worker<'_, 'a, P, R>,
    key: &K,
    parts: &[K],
) -> Result<Vec<Arc<V>>, Fault>
    requires { All (IsPart (G.fits pool.now.group.now) (G.rank pool.now.group.now) (G.failed pool.now.group.now) key.now) parts.now }
    ensures values { IfOk result (λ v. AreValuesOf (G.means pool.now.group.now) parts.now v.items) }
    ensures fault { IfErr result (IsPartsFault (G.means pool.now.group.now) (G.failed pool.now.group.now) parts.now) }
{
    let values = ask_in_turn(pool, worker.pass(), key, parts);
    // The worker is idle again.
    drop(worker);
    values
}

/// Gathers the values of parts by asking for one after another.
#[cycle(parts)]
fn ask_in_turn<
    G: Items<K, V, P, R> + Sync,
    K: Sync,
    V: Drop + Send + Sync,
    P: Send,
    R: Threads + Wait + Sync,
>(pool: &Pool<'_, '_, G, P, R>, own: &mut P, key: &K, parts: &[K]) -> Result<Vec<Arc<V>>, Fault>
    requires { All (IsPart (G.fits pool.now.group.now) (G.rank pool.now.group.now) (G.failed pool.now.group.now) key.now) parts.now }
    ensures values { IfOk result (λ v. AreValuesOf (G.means pool.now.group.now) parts.now v.items) }
    ensures fault { IfErr result (IsPartsFault (G.means pool.now.group.now) (G.failed pool.now.group.now) parts.now) }
{
    let mut values = Vec::new(pool.alloc);
    for part in parts {
        let value = ask(pool, own, part)?;
        keep(&mut values, value)?;
    }
    Ok(values)
}
