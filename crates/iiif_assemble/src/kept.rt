//! Sums of blocks that are kept from band to band.

ghost use Rattle.std.specs.Prelude.{◌≡◌, ◌<◌, ◌≤◌, ◌⊎◌, All, Contains, Err, IfErr, IfOk, IfSome, OnOk, length, true};
ghost use Rattle.std.specs.Arc.{arc_value};
ghost use Rattle.iiif_assemble.specs.Faults.{IsSumsFault};
ghost use Rattle.iiif_assemble.specs.Gathering.{IsItemFault};
ghost use Rattle.iiif_assemble.specs.Kept.{AreKept, AreOfItems, AreOneEach, HasAll, IsKeptToo, IsOfItems, KeepsFew, kept_len};
ghost use Rattle.iiif_assemble.specs.Opening.{AreValuesOf, IsFaultOf};
ghost use Rattle.iiif_assemble.specs.Jobs.{IsBandOf, IsJob, SumsServe};

use crate::context::RenderContext;
use crate::items::Items;
use crate::job::Job;
use crate::opened::Opened;
use crate::pool::gather;
use iiif_keys::{CacheKey, Fault, SumKey, SumVal};
use iiif_pixel::NoMemory;
use iiif_planner::{Band, Plan};
use std::alloc::Global;
use std::sync::{Arc, Wait};
use std::thread::Threads;

/// The sums of a block that are kept.
#[derive(Drop)]
pub struct KeptSum {
    key: SumKey,
    value: Arc<SumVal>,
}

/// A group of sums with some of them kept in front of it: these are answered at once, and the group is asked for the others alone.
#[derive(Drop)]
pub struct WithKept<'a, B> {
    /// The group of sums.
    pub sums: &'a B,
    /// The sums that are kept.
    pub kept: &'a [KeptSum],
}

/// Finds the sum that is kept for an equal key.
fn kept_for<'a>(kept: &'a [KeptSum], key: &SumKey) -> Option<&'a KeptSum>
    ensures { IfSome result (λ s. (s.now.key ≡ key.now) × Contains kept.now s.now) }
{
    for sum in kept {
        if sum.key == *key {
            return Some(sum);
        }
    }
    None
}

/// Answers a key that is kept by its sums. A key may be asked for where each kept value is one that the group may answer for its key.
impl<'a, B: Items<SumKey, SumVal, P, R>, P, R> Items<SumKey, SumVal, P, R> for WithKept<'a, B> {
    type Open = B::Open;

    ghost fits = { λ a k. B.fits a.sums.now k × AreKept (B.means a.sums.now) a.kept.now };

    ghost means = { λ a k v. B.means a.sums.now k v };

    ghost failed = { λ a k f. B.failed a.sums.now k f };

    ghost rank = { λ a k. B.rank a.sums.now k };

    ghost is_open = { λ a o k parts. B.is_open a.sums.now o k parts };

    ghost asked = { λ a old new. (new ≡ old) ⊎ B.asked a.sums.now old new };

    fn open(
        &self,
        rt: &R,
        pass: &mut P,
        key: &SumKey,
    ) -> Result<Opened<SumKey, SumVal, B::Open>, Fault> {
        match kept_for(self.kept, key) {
            Some(sum) => match Arc::try_clone(&sum.value) {
                Ok(value) => Ok(Opened::Known(value)),
                Err(_) => Err(Fault::NoMemory),
            },
            None => self.sums.open(rt, pass, key),
        }
    }

    fn close(
        &self,
        rt: &R,
        load: B::Open,
        key: &SumKey,
        parts: Vec<SumKey>,
        values: Result<Vec<Arc<SumVal>>, Fault>,
    ) -> Result<Arc<SumVal>, Fault>
        requires fits { B.fits self.now.sums.now key.now × AreKept (B.means self.now.sums.now) self.now.kept.now }
        requires open { B.is_open self.now.sums.now load key.now parts.items }
        requires values { IfOk values (λ v. AreValuesOf (B.means self.now.sums.now) parts.items v.items) }
        requires fault { IfErr values (IsFaultOf (B.failed self.now.sums.now) key.now) }
        ensures value { IfOk result (λ v. B.means self.now.sums.now key.now (arc_value v)) }
        ensures fault { IfErr result (IsFaultOf (B.failed self.now.sums.now) key.now) }
        ensures same { IfErr values (λ f. result ≡ Err f) }
    {
        self.sums.close(rt, load, key, parts, values)
    }

    fn is_cached(&self, rt: &R, key: &SumKey) -> bool {
        kept_for(self.kept, key).is_some() || self.sums.is_cached(rt, key)
    }
}

/// Returns whether the sums of all these items are kept.
fn has_all(kept: &[KeptSum], keys: &[SumKey], items: &[usize]) -> bool
    ensures { result ≡ true → HasAll keys.now items.now kept.now }
{
    for item in items {
        let Some(key) = keys.get(*item) else {
            return false;
        };
        let Some(_sum) = kept_for(kept, key) else {
            return false;
        };
    }
    true
}

/// Returns whether a key is that of one of the items.
#[tactic(auto, using(crate::proofs::KeptLemmas::item_is))]
fn is_of(key: &SumKey, keys: &[SumKey], items: &[usize]) -> bool
    ensures { result ≡ true → IsOfItems keys.now items.now key.now }
{
    for item in items {
        if let Some(own) = keys.get(*item) {
            if own == key {
                return true;
            }
        }
    }
    false
}

/// Appends a key and its value to the sums that are kept.
fn keep(kept: &mut Vec<KeptSum>, key: &SumKey, value: &Arc<SumVal>) -> Result<(), NoMemory>
    ensures { OnOk result (IsKeptToo key.now (arc_value value.now) kept.old.items kept.new.items) }
{
    let key = key.copy()?;
    let value = Arc::try_clone(value)?;
    kept.push(KeptSum { key, value })?;
    Ok(())
}

impl<'a, B> WithKept<'a, B> {
    /// Copies, of the sums that are kept, those of the items. The only error is lack of memory.
    #[tactic(auto, using(crate::proofs::KeptLemmas::kept_more, crate::proofs::KeptLemmas::of_items_more, crate::proofs::KeptLemmas::one_longer))]
    fn kept_of<P, R>(
        &self,
        alloc: Global,
        keys: &[SumKey],
        items: &[usize],
    ) -> Result<Vec<KeptSum>, NoMemory>
    where
        B: Items<SumKey, SumVal, P, R>,
        requires { AreKept (B.means self.now.sums.now) self.now.kept.now }
        ensures kept { IfOk result (λ v. AreKept (B.means self.now.sums.now) v.items) }
        ensures few { IfOk result (λ v. AreOfItems keys.now items.now v.items × (length v.items ≤ length self.now.kept.now)) }
    {
        let mut rest = Vec::new(alloc);
        for sum in self.kept {
            if is_of(&sum.key, keys, items) {
                keep(&mut rest, &sum.key, &sum.value)?;
            }
        }
        Ok(rest)
    }
}

/// Gathers the sums of the items, to be kept: those that are kept already, and the others, for which a worker for each pass asks.
#[tactic(auto, using(crate::proofs::KeptLemmas::each_of_all))]
fn gather_kept<A, B: Items<SumKey, SumVal, P, R> + Sync, P: Send, R: Threads + Wait + Sync>(
    context: &RenderContext<'_, A, B, R>,
    passes: &mut [P],
    keys: &[SumKey],
    items: &[usize],
    kept: &[KeptSum],
) -> Result<Vec<KeptSum>, Fault>
    requires some { 0 < length passes.old }
    requires within { All (λ i. i < length keys.now) items.now }
    requires fits { All (B.fits context.now.sums.now) keys.now }
    requires kept { AreKept (B.means context.now.sums.now) kept.now }
    ensures kept { IfOk result (λ v. AreKept (B.means context.now.sums.now) v.items) }
    ensures few { IfOk result (λ v. AreOneEach keys.now items.now v.items) }
    ensures fault { IfErr result (IsItemFault (B.means context.now.sums.now) (B.failed context.now.sums.now) keys.now items.now) }
{
    let before = WithKept {
        sums: context.sums,
        kept,
    };
    let values = gather(context.rt, context.alloc, &before, passes, keys, items)?;
    let mut asked = Vec::new(context.alloc);
    for n in 0..items.len() {
        keep(&mut asked, &keys[items[n]], &values[n])?;
    }
    Ok(asked)
}

/// Counts the sums that are kept. The count stops at the greatest that its type holds.
#[tactic(auto, using(std::proofs::lemmas::List::Sums::sum_by_more))]
pub fn count_kept(kept: &[KeptSum]) -> u64
    ensures { result ≡ kept_len kept.now }
{
    let mut count = 0u64;
    for sum in kept {
        count = count.saturating_add(sum.value.sums.sums().len() as u64);
    }
    count
}

/// The most blocks of a band whose sums are kept. A band of more is so wide that its rows take longer than its blocks.
const MOST: usize = 64;

/// Returns whether a job may ask twice for an item of its plan, where its result is cut into bands of `rows`: for a tile with places of two
/// bands, or for a block of a band of more blocks than are kept. The only error is lack of memory.
pub fn asks_again(alloc: Global, job: &Job, rows: u32) -> Result<bool, NoMemory>
    requires job { IsJob job.now }
    requires rows { 0 < rows }
{
    let count = job.band_count(rows);
    let Plan::Sum(_) = &job.plan else {
        return Ok(count > 1);
    };
    for i in 0..count {
        let band = job.band(alloc, rows, i)?;
        if count > 1 && band.items.len() > MOST {
            return Ok(true);
        }
    }
    Ok(false)
}

/// Keeps the sums of a band's blocks, where the job's plan is of blocks: those that are kept already, and the others, for which a worker
/// for each pass asks, once the sums of bands that are gone are dropped. So where no band has more than 64 blocks, each block of a job is
/// asked for once, also where it has places of several bands, however little a cache keeps.
///
/// Of a band of more blocks only those stay that were kept: the others are asked for once it is made.
///
/// # Errors
///
/// The fault of the first block of the band, in the plan's order, that failed; or `NoMemory`. Then nothing is kept.
#[tactic(auto, using(crate::proofs::KeptLemmas::all_keep, crate::proofs::KeptLemmas::each_kept, crate::proofs::KeptLemmas::none_kept, crate::proofs::KeptLemmas::some_kept, crate::proofs::KeptLemmas::tiles_keep))]
pub fn keep_band<A, B: Items<SumKey, SumVal, P, R> + Sync, P: Send, R: Threads + Wait + Sync>(
    context: &RenderContext<'_, A, B, R>,
    passes: &mut [P],
    job: &Job,
    band: &Band,
    kept: &mut Vec<KeptSum>,
) -> Result<(), Fault>
    requires some { 0 < length passes.old }
    requires job { IsJob job.now }
    requires band { IsBandOf job.now band.now }
    requires sums { SumsServe job.now (B.fits context.now.sums.now) (B.means context.now.sums.now) }
    requires kept { AreKept (B.means context.now.sums.now) kept.old.items }
    ensures kept { AreKept (B.means context.now.sums.now) kept.new.items }
    ensures few { KeepsFew job.now.plan band.now.items.items kept.old.items kept.new.items result }
    ensures fault { IfErr result (IsSumsFault (B.means context.now.sums.now) (B.failed context.now.sums.now) job.now.plan
        band.now.items.items) }
{
    let Plan::Sum(keys) = &job.plan else {
        return Ok(());
    };
    let items = band.items.as_slice();
    if has_all(kept, keys, items) {
        return Ok(());
    }
    let before = WithKept {
        sums: context.sums,
        kept: kept.as_slice(),
    };
    let own = before.kept_of::<P, R>(context.alloc, keys, items);
    kept.clear();
    let Ok(own) = own else {
        return Err(Fault::NoMemory);
    };
    if items.len() > MOST {
        *kept = own;
        return Ok(());
    }
    *kept = gather_kept(context, passes, keys, items, &own)?;
    Ok(())
}
