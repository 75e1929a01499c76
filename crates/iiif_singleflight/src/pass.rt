//! Passes: the callers' shares of what a table counts.

ghost use Rattle.std.specs.Prelude.{◌≡◌, ◌+◌, ◌-◌, ◌^◌, ◌<◌, ◌≤◌};
ghost use Rattle.iiif_singleflight.specs.Classes.{one_if_wide};

use iiif_tables::Class;
use std::sync::ledger::{Book as Tally, Ledger, Share};

/// Caller's share of the calls that a table counts, of the ledger of that table and no other.
#[derive(Drop)]
pub struct Pass<L: Ledger> {
    pub(crate) share: Share<L>,
    /// Which pass of the group it is, counted from 1. 0 is the pass that stays home.
    pub id: u64,
    /// How many of the ledger's parts it has.
    pub parts: u64,
    /// How many calls it entered.
    pub gets: u64,
    /// How many wide flights these calls led.
    pub(crate) led: u64,
    pub ghost parts_are: { share.parts ≡ parts },
    pub ghost gets_are: { share.amount ≡ gets },
    pub ghost some: { 0 < parts },
    pub ghost led_by_calls: { led ≤ gets },
}

impl<L: Ledger> Pass<L> {
    /// Counts one more call, and how many wide flights it leads.
    pub(crate) fn count(&mut self, tally: &mut Tally<L>, led: u64)
        requires one { led ≤ 1 }
        requires room { tally.old.total < 2 ^ 64 - 1 }
        ensures gets { self.new.gets ≡ self.old.gets + 1 }
        ensures parts { self.new.parts ≡ self.old.parts }
        ensures led { self.new.led ≡ self.old.led + led }
        ensures total { tally.new.total ≡ tally.old.total + 1 }
    {
        tally.audit(&mut self.share);
        tally.add(&mut self.share, 1);
        self.gets += 1;
        self.led += led;
    }
}

/// Returns how many wide flights a lead of this class leads.
pub(crate) fn count_wide(class: Class) -> u64
    ensures value { result ≡ one_if_wide class }
    ensures one { result ≤ 1 }
{
    match class {
        Class::Wide => 1,
        Class::Local => 0,
    }
}
