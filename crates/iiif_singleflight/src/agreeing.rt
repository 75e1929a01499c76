//! A law of calls that join a flight of a table, which is lent as it stands behind a group's lock.

ghost use Rattle.std.specs.Prelude.{◌≡◌, IfSome, Some};
ghost use Rattle.iiif_outcome.specs.Outcomes.{OutcomeFor};
ghost use Rattle.iiif_outcome.specs.Views.{lead_cell, lead_class, lead_key, receipt_known, receipt_ticket};
ghost use Rattle.iiif_singleflight.specs.View.{cells_of};

use crate::entered::Entered;
use crate::flight_condvar::FlightCondvar;
use crate::pass::Pass;
use crate::table::Table;
use iiif_keys::{CacheKey, Fault, System};
use iiif_outcome::{Lead, Receipt};
use iiif_tables::Place;
use std::sync::Arc;
use std::sync::ledger::Ledger;

/// States that a call which joins an open flight learns what the flight lands with: the receipts of the leader and of the caller
/// that joined have one ticket and one outcome, a fault too. None where memory runs out, or nothing is learned.
pub fn who_joins_learns_what_lands<K: CacheKey, J: System, L: Ledger>(
    table: &mut Table<K, J, L>,
    pass: &mut Pass<L>,
    lead: Lead<K, J, L>,
    outcome: Result<Arc<K::Value>, Fault>,
    place: Place,
    waiting: &FlightCondvar<L>,
) -> Option<(Receipt<K, J, L>, Receipt<K, J, L>)>
    requires is_open { cells_of K.eq table.old (lead_class lead) (lead_key lead) ≡ Some (lead_cell lead) }
    requires ends { OutcomeFor K.CacheKey.own J.System (lead_key lead) outcome }
    ensures outcome { IfSome result (λ r. receipt_known r.0 ≡ receipt_known r.1) }
    ensures ticket { IfSome result (λ r. receipt_ticket r.0 ≡ receipt_ticket r.1) }
{
    let class = lead.class();
    let entered = table.enter(pass, lead.key(), class);
    let completion = table.land(lead, outcome, place);
    let woken = completion.wake(waiting);
    let (mut receipt, _refused) = completion.into_receipt(woken);
    let flight = match entered {
        Ok(Entered::Joined(flight)) => flight,
        Ok(Entered::Lead(lead)) => {
            give_up(table, lead, waiting);
            return None;
        }
        Ok(Entered::Hit(hit)) => {
            drop(hit);
            return None;
        }
        Err(_) => return None,
    };
    let Ok(mut learned) = flight.learn() else {
        return None;
    };
    receipt.agree(&mut learned);
    Some((receipt, learned))
}

/// Lands a flight with lack of memory.
fn give_up<K: CacheKey, J: System, L: Ledger>(
    table: &mut Table<K, J, L>,
    lead: Lead<K, J, L>,
    waiting: &FlightCondvar<L>,
) {
    let completion = table.land(lead, Err(Fault::NoMemory), Place::Nowhere);
    let woken = completion.wake(waiting);
    drop(completion.into_receipt(woken));
}
