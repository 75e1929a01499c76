//! Counting a flight that lands, and keeping its value.

ghost use Rattle.std.specs.Prelude.{◌≡◌, ◌+◌, ◌<◌, ◌≤◌, Some, IfSome, IsFalse, IsSomeAnd, IsTrue, is_some};
ghost use Rattle.std.specs.Option.{ForSome};
ghost use Rattle.std.specs.Arc.{arc_value};
ghost use Rattle.iiif_tables.specs.Flights.{storing};
ghost use Rattle.iiif_outcome.specs.Outcomes.{value_of};
ghost use Rattle.iiif_outcome.specs.Views.{entry_size, receipt_known, receipt_ticket, SameReceipt};
ghost use Rattle.iiif_byte_cache.specs.View.{cache_of};
ghost use Rattle.iiif_singleflight.specs.Counting.{counted_as};
ghost use Rattle.iiif_singleflight.specs.Keeping.{list_for};

use iiif_byte_cache::{ByteCache, Evicted};
use iiif_keys::{CacheKey, Fault, System};
use iiif_outcome::{Entry, Receipt};
use iiif_tables::{Book, Place};
use std::sync::Arc;

/// Shares the value of an outcome. None where it has none, or where the value refuses another share.
pub(crate) fn share_of<V: Drop>(outcome: &Result<Arc<V>, Fault>) -> Option<Arc<V>>
    ensures { IfSome result (λ v. value_of outcome.now ≡ Some (arc_value v)) }
{
    match outcome {
        Ok(value) => match Arc::try_clone(value) {
            Ok(value) => Some(value),
            Err(_) => None,
        },
        Err(_) => None,
    }
}

/// Counts a flight that lands.
pub(crate) fn count(book: &mut Book, found: bool, fault: bool, place: Place)
    requires landed { book.old.landed ≡ book.old.again_hits + book.old.loads }
    requires faults { book.old.faults ≤ book.old.loads }
    requires peer { book.old.peer ≤ book.old.loads }
    requires room { book.old.landed < book.old.leads }
    ensures { book.new ≡ counted_as found fault place book.old }
{
    // Read, so that it is known to be a number of 64 bits, and what is counted below it too.
    let _leads = book.leads;
    book.landed += 1;
    if found {
        book.again_hits += 1;
        return;
    }
    book.loads += 1;
    if fault {
        book.faults += 1;
        return;
    }
    match place {
        Place::Nowhere | Place::Main => {}
        Place::Peer => book.peer += 1,
    }
}

/// Arrival of a value: the place by which it is kept, and how many values came from peers so far.
#[derive(Clone, Copy)]
pub(crate) struct Arrival {
    pub place: Place,
    pub peer: u64,
}

/// List of a cache.
#[derive(Clone, Copy)]
pub enum List {
    /// Values that this node loaded.
    Main,
    /// Values of other nodes.
    Hot,
}

/// Returns the list for an arrival: main for a load, hot for each tenth that came from a peer. None for any other.
fn list_of(arrival: Arrival) -> Option<List>
    ensures { result ≡ list_for arrival.place arrival.peer }
{
    match arrival.place {
        Place::Main => Some(List::Main),
        Place::Peer if arrival.peer % 10 == 0 => Some(List::Hot),
        Place::Peer | Place::Nowhere => None,
    }
}

/// Puts a value that arrives into its list, with the receipt of its flight, and hands out the entries that leave. None where nothing is
/// put: there is no value or no list for it, memory runs out, or the value is too big.
pub(crate) fn keep<K: CacheKey, J: System, L>(
    cache: &mut ByteCache<K, J, L>,
    arrival: Arrival,
    key: &K,
    value: Option<Arc<K::Value>>,
    receipt: &mut Receipt<K, J, L>,
) -> Option<Evicted<K, Entry<K, J, L>>>
    requires value { IfSome value (λ v. ForSome (receipt_known receipt.old) (λ x. value_of x.outcome ≡ Some (arc_value v))) }
    requires of_key { IfSome value (λ v. ForSome (receipt_known receipt.old) (λ x. arc_value x.key ≡ key.now)) }
    ensures kept { IsTrue (is_some result) → IsSomeAnd value
        (λ v. cache_of cache.new ≡ storing K.eq (entry_size K.key_bytes K.val_bytes) arrival.place arrival.peer key.now
        (record { value = arc_value v; ticket = receipt_ticket receipt.old }) (cache_of cache.old)) }
    ensures unkept { IsFalse (is_some result) → cache_of cache.new ≡ cache_of cache.old }
    ensures same { SameReceipt receipt.old receipt.new }
{
    let value = value?;
    let list = list_of(arrival)?;
    let key = key.copy().ok()?;
    let receipt = receipt.share().ok()?;
    let entry = Entry::new(value, receipt);
    match list {
        List::Main => cache.put_main(key, entry).ok(),
        List::Hot => cache.put_hot(key, entry).ok(),
    }
}
