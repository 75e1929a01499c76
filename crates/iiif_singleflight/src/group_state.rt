//! The state that a group's lock guards.

ghost use Rattle.std.specs.Prelude.{◌≡◌, ◌^◌, ◌≤◌, ℕ, IfSome, IfNone};
ghost use Rattle.std.specs.List.{sum_by};

use crate::checked::{Again, CheckedLead};
use crate::completion::Completion;
use crate::entered::{Entered, Lookup};
use crate::follower::Follower;
use crate::full_ledger::FullLedger;
use crate::pass::Pass;
use crate::table::{Kept, Table};
use iiif_keys::{CacheKey, Fault, PARTS, System};
use iiif_pixel::NoMemory;
use iiif_tables::{Book, Class, Place};
use std::sync::Arc;
use std::sync::ledger::{Ledger, Share};

/// State of a group, which its lock guards: the table, and the share of the ledger that no pass has. It keeps one part, so that 65,536
/// passes can be out. The table is reached by the calls below alone: a call that leads looks again, and one that joined is a follower.
#[derive(Drop)]
pub struct GroupState<K: CacheKey, J: System, L: Ledger> {
    pub(crate) table: Table<K, J, L>,
    share: Share<L>,
    full: FullLedger<L>,
    /// The number of the pass that was taken last.
    last_pass: u64,
    /// How many parts are home.
    pub parts: u64,
    /// How many calls the passes had entered that came home.
    pub gets: u64,
    pub ghost parts_are: { share.parts ≡ parts },
    pub ghost gets_are: { share.amount ≡ gets },
}

/// Returns the parts of all passes together, or None where the sum has no room.
#[tactic(auto, using(std::proofs::lemmas::List::Sums::sum_by_more))]
fn parts_of<L: Ledger>(passes: &[Pass<L>]) -> Option<u64>
    ensures some { IfSome result (λ n. n ≡ sum_by (λ p. p.parts) passes.now) }
    ensures none { IfNone result (2 ^ 64 ≤ sum_by (λ p. p.parts) passes.now) }
{
    let mut parts = 0u64;
    for pass in passes {
        parts = parts.checked_add(pass.parts)?;
    }
    Some(parts)
}

impl<K: CacheKey, J: System, L: Ledger> GroupState<K, J, L> {
    ghost use Rattle.std.specs.Prelude.{◌≢◌, ◌+◌, ◌<◌, ◌%◌, IfOk, IfErr, OnOk, is_some, length};
    ghost use Rattle.iiif_keys.specs.Ledgers.{all_parts};
    ghost use Rattle.iiif_tables.specs.Cache.{bytes_in, kept_for};
    ghost use Rattle.iiif_tables.specs.Flights.{IsBook};
    ghost use Rattle.iiif_outcome.specs.Outcomes.{OutcomeFor};
    ghost use Rattle.iiif_outcome.specs.Views.{entry_size};
    ghost use Rattle.iiif_singleflight.specs.Calls.{Enters, HasPlace, Lands};
    ghost use Rattle.iiif_singleflight.specs.Handles.{checked_class, checked_key, checked_lead, entered_of, MeetsFor};
    ghost use Rattle.iiif_singleflight.specs.View.{cells_of, table_of, wide_leads};

    /// Makes the state of a table and of the pass that has all parts of its ledger.
    pub fn new(table: Table<K, J, L>, pass: Pass<L>, full: FullLedger<L>) -> GroupState<K, J, L>
        ensures table { table_of K.eq result.table ≡ table_of K.eq table }
        ensures cells { cells_of K.eq result.table ≡ cells_of K.eq table }
        ensures parts { (result.parts ≡ pass.parts) × (result.gets ≡ pass.gets) }
        ensures last_pass { result.last_pass ≡ pass.id }
    {
        let Pass {
            share,
            id,
            parts,
            gets,
            led: _,
        } = pass;
        GroupState {
            table,
            share,
            full,
            last_pass: id,
            parts,
            gets,
        }
    }

    /// Enters a call for a key, and looks again where it leads. Both happen under one lock, so nothing is kept for the key by then. The
    /// only error is lack of memory, or that 2^64 - 1 calls have entered.
    pub fn enter(
        &mut self,
        pass: &mut Pass<L>,
        key: &K,
        class: Class,
    ) -> Result<Lookup<K, J, L>, NoMemory>
        ensures entered { Enters entered_of class key.now self.old.table self.new.table pass.old pass.new result }
        ensures met { IfOk result (MeetsFor class key.now) }
        ensures home { (self.new.parts ≡ self.old.parts) × (self.new.gets ≡ self.old.gets) }
    {
        match self.table.enter(pass, key, class)? {
            Entered::Hit(receipt) => Ok(Lookup::Hit(receipt)),
            Entered::Joined(flight) => Ok(Lookup::Joined(Follower::new(flight))),
            Entered::Lead(lead) => match self.table.look_again(lead) {
                Again::Nothing(lead) => Ok(Lookup::Leads(lead)),
                Again::Found(_lead, _value) => unreachable!(),
                Again::Refused(_lead) => unreachable!(),
            },
        }
    }

    /// Lands a flight whose leader looked again, as `Table::land` does: a local one with a value for main, a wide one never.
    pub fn land(
        &mut self,
        lead: CheckedLead<K, J, L>,
        outcome: Result<Arc<K::Value>, Fault>,
        place: Place,
    ) -> Completion<K, J, L>
        requires outcome { OutcomeFor K.CacheKey.own J.System (checked_key lead) outcome }
        requires place { HasPlace (checked_class lead) place }
        ensures landed { Lands (checked_lead lead) outcome place self.old.table self.new.table result }
        ensures home { (self.new.parts ≡ self.old.parts) × (self.new.gets ≡ self.old.gets) }
    {
        self.table.land(lead.into_lead(), outcome, place)
    }

    /// Returns the counts.
    pub fn book(&self) -> Book
        ensures book { result ≡ (table_of K.eq self.now.table).book }
        ensures sums { IsBook (table_of K.eq self.now.table).in_flight result }
    {
        self.table.book()
    }

    /// Returns whether a value is kept for the key. It changes and counts nothing, and takes no memory.
    pub fn holds(&self, key: &K) -> bool
        ensures { result ≡ is_some (kept_for K.eq key.now (table_of K.eq self.now.table).cache) }
    {
        self.table.holds(key)
    }

    /// Returns how much is kept. It takes no memory.
    pub fn kept(&self) -> Kept
        ensures bytes { result.bytes ≡ bytes_in (entry_size K.key_bytes K.val_bytes) (table_of K.eq self.now.table).cache }
        ensures small { result.bytes < 2 ^ 63 }
        ensures entries { result.entries ≡
            length (table_of K.eq self.now.table).cache.main + length (table_of K.eq self.now.table).cache.hot }
    {
        self.table.kept()
    }

    /// Takes a pass out for a caller. None where all are out. Passes are numbered one after another, modulo 2^64.
    pub fn pass(&mut self) -> Option<Pass<L>>
        ensures some { IfSome result (λ p. (p.parts ≡ 1) × (p.gets ≡ 0) × (wide_leads p ≡ 0) × (self.new.parts + 1 ≡ self.old.parts)) }
        ensures id { IfSome result (λ p. (p.id ≡ (self.old.last_pass + 1) % 2 ^ 64) × (self.new.last_pass ≡ p.id)) }
        ensures home { self.new.gets ≡ self.old.gets }
        ensures none { IfNone result ((self.old.parts ≤ 1) × (self.new.parts ≡ self.old.parts) ×
            (self.new.last_pass ≡ self.old.last_pass)) }
        ensures table { table_of K.eq self.new.table ≡ table_of K.eq self.old.table }
        ensures cells { cells_of K.eq self.new.table ≡ cells_of K.eq self.old.table }
    {
        if self.parts <= 1 {
            return None;
        }
        let share = self.share.split_off(1, 0);
        self.parts -= 1;
        let id = self.last_pass.wrapping_add(1);
        self.last_pass = id;
        Some(Pass {
            share,
            id,
            parts: 1,
            gets: 0,
            led: 0,
        })
    }

    /// Adds a pass's share and parts to those at home, and changes nothing else.
    pub fn give_back(&mut self, pass: Pass<L>)
        ensures parts { self.new.parts ≡ self.old.parts + pass.parts }
        ensures gets { self.new.gets ≡ self.old.gets + pass.gets }
        ensures table { table_of K.eq self.new.table ≡ table_of K.eq self.old.table }
        ensures cells { cells_of K.eq self.new.table ≡ cells_of K.eq self.old.table }
    {
        let Pass {
            share,
            id: _,
            parts,
            gets,
            led: _,
        } = pass;
        self.share.merge(share);
        self.table.tally.audit(&mut self.share);
        // Read, so that it is known to be a number of 64 bits.
        let _all = self.table.book.gets;
        self.parts += parts;
        self.gets += gets;
    }

    /// Returns the book, and the share of it that was home, where all passes are handed in: then all of the ledger is home. Else hands
    /// the passes back.
    pub fn gather(&mut self, passes: Vec<Pass<L>>) -> Result<(Book, u64), Vec<Pass<L>>>
        ensures ok { IfOk result (λ r. (r.0.gets ≡ r.1 + sum_by (λ p. p.gets) passes.items) × (r.1 ≡ self.old.gets)) }
        ensures book { IfOk result (λ r. r.0 ≡ (table_of K.eq self.old.table).book) }
        ensures home { OnOk result ((self.new.parts ≡ all_parts) × (self.new.gets ≡ (table_of K.eq self.new.table).book.gets)) }
        ensures err { IfErr result (λ ps. (ps.items ≡ passes.items) × (self.new.parts ≡ self.old.parts) × (self.new.gets ≡ self.old.gets)) }
        ensures missing { IfErr result (λ ps. self.old.parts + sum_by (λ p. p.parts) passes.items ≢ all_parts) }
        ensures table { table_of K.eq self.new.table ≡ table_of K.eq self.old.table }
        ensures cells { cells_of K.eq self.new.table ≡ cells_of K.eq self.old.table }
    {
        let Some(parts) = parts_of(passes.as_slice()) else {
            return Err(passes);
        };
        if parts.checked_add(self.parts) != Some(PARTS) {
            return Err(passes);
        }
        let home = self.gets;
        for pass in passes {
            self.give_back(pass);
        }
        self.table.tally.audit(&mut self.share);
        Ok((self.table.book, home))
    }
}
