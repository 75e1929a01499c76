//! A law of two threads that learn of one flight.

ghost use Rattle.std.specs.Prelude.{◌≡◌, IfOk, IfSome};
ghost use Rattle.iiif_outcome.specs.Views.{flight_cell, flight_ticket, receipt_cell, receipt_known, receipt_ticket};

use crate::flight::Flight;
use crate::receipt::Receipt;
use iiif_keys::{CacheKey, System};
use std::thread::{Threads, join};

/// States that two threads which learn of one flight learn one outcome of one ticket, a fault too. None where one of them learns
/// nothing yet.
pub fn learn_apart<
    K: CacheKey + Send + Sync,
    J: System + Send + Sync,
    L: Send + Sync,
    R: Threads + Sync,
>(
    rt: &R,
    one: Flight<K, J, L>,
    other: Flight<K, J, L>,
) -> Option<(Receipt<K, J, L>, Receipt<K, J, L>)>
where
    K::Value: Send + Sync,
    requires { flight_cell one ≡ flight_cell other }
    ensures outcome { IfSome result (λ r. receipt_known r.0 ≡ receipt_known r.1) }
    ensures ticket { IfSome result (λ r. (receipt_ticket r.0 ≡ flight_ticket one) × (receipt_ticket r.1 ≡ flight_ticket one)) }
{
    let (a, b) = join(
        rt,
        move || -> Result<Receipt<K, J, L>, Flight<K, J, L>>
            ensures { IfOk result (λ r. (receipt_cell r ≡ flight_cell one) × (receipt_ticket r ≡ flight_ticket one)) }
        { one.learn() },
        move || -> Result<Receipt<K, J, L>, Flight<K, J, L>>
            ensures { IfOk result (λ r. receipt_cell r ≡ flight_cell other) }
        { other.learn() },
    );
    let mut a = a.ok()?;
    let mut b = b.ok()?;
    a.agree(&mut b);
    Some((a, b))
}
