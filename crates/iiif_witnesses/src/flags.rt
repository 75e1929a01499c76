//! Items of which it is fixed which can't be had: so the premise of the law of the first fault holds, and a fault says which item failed.

ghost use Rattle.std.specs.Prelude.{◌≡◌, ◌≢◌, ◌<◌, [], All, Err, IfErr, IfOk, length};
ghost use Rattle.std.specs.Arc.{arc_value};
ghost use Rattle.iiif_keys.specs.declared.fault.Fault.TheVariants as Fault;
ghost use Rattle.iiif_assemble.specs.FirstFault.{IsOfFirstBad};
ghost use Rattle.iiif_assemble.specs.Opening.{AreValuesOf, IsFaultOf};
ghost use Rattle.iiif_witnesses.specs.Flags.{is_bad, FailsAt, IsGood};

use iiif_assemble::laws::first_bad_is_told;
use iiif_assemble::{Items, Opened, gather};
use iiif_keys::Fault;
use iiif_source::ReadFault;
use std::alloc::Global;
use std::sync::{Arc, Wait};
use std::thread::Threads;

/// Items by their places in a list of flags, of which those can't be had whose flag is true.
#[derive(Drop)]
pub struct Flags<'a> {
    pub alloc: Global,
    pub bad: &'a [bool],
}

impl<'a, P, R> Items<usize, (), P, R> for Flags<'a> {
    type Open = ();

    ghost fits = { λ s k. k < length s.bad.now };

    ghost means = { λ s k v. IsGood s k v };

    ghost failed = { λ s k f. FailsAt s k f };

    ghost rank = { λ s k. 0 };

    ghost is_open = { λ s o k parts. parts ≡ [] };

    ghost asked = { λ s old new. new ≡ old };

    fn open(&self, _rt: &R, _pass: &mut P, key: &usize) -> Result<Opened<usize, (), ()>, Fault> {
        if self.bad[*key] {
            return Err(Fault::Source(ReadFault {
                place: *key as u64,
                cause: 1,
            }));
        }
        match Arc::new(self.alloc, ()) {
            Ok(value) => Ok(Opened::Known(value)),
            Err(_) => Err(Fault::NoMemory),
        }
    }

    /// Completes nothing: no item has parts.
    fn close(
        &self,
        _rt: &R,
        _load: (),
        key: &usize,
        parts: Vec<usize>,
        values: Result<Vec<Arc<()>>, Fault>,
    ) -> Result<Arc<()>, Fault>
        requires fits { key.now < length self.now.bad.now }
        requires open { parts.items ≡ [] }
        requires values { IfOk values (λ v. AreValuesOf (IsGood self.now) parts.items v.items) }
        requires fault { IfErr values (IsFaultOf (FailsAt self.now) key.now) }
        ensures value { IfOk result (λ v. IsGood self.now key.now (arc_value v)) }
        ensures fault { IfErr result (IsFaultOf (FailsAt self.now) key.now) }
        ensures same { IfErr values (λ f. result ≡ Err f) }
    {
        drop(parts);
        match values {
            Ok(_) => Err(Fault::NoMemory),
            Err(fault) => Err(fault),
        }
    }

    fn is_cached(&self, _rt: &R, _key: &usize) -> bool {
        false
    }
}

/// Gathers the values of items by a worker for each pass.
///
/// # Errors
///
/// A read at the place of the first item that can't be had, whichever worker met one first; or `NoMemory`.
pub fn gather_flagged<P: Send, R: Threads + Wait + Sync>(
    rt: &R,
    flags: &Flags<'_>,
    passes: &mut [P],
    keys: &[usize],
    items: &[usize],
) -> Result<Vec<Arc<()>>, Fault>
    requires some { 0 < length passes.old }
    requires within { All (λ i. i < length keys.now) items.now }
    requires fits { All (λ k. k < length flags.now.bad.now) keys.now }
    ensures first { IfErr result (λ f. f ≢ Fault.NoMemory
        → IsOfFirstBad (is_bad flags.now) (FailsAt flags.now) keys.now items.now f) }
{
    // The law of the first fault.
    first_bad_is_told::<Flags<'_>, usize, (), P, R>(flags);
    gather(rt, flags.alloc, flags, passes, keys, items)
}
