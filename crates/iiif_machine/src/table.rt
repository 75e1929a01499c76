//! A table, as plain lists.

ghost use Rattle.std.specs.Bool.{OnTrue};
ghost use Rattle.std.specs.Prelude.{◌≡◌, ◌∷◌, ◌++◌, [], ◌+◌, position, true, false, ◌<◌, ◌^◌, IfSome, OnErr, OnOk};
ghost use Rattle.iiif_tables.specs.Flights.{counting, same_class as class_eq};
ghost use Rattle.iiif_machine.specs.Open.{are_once, is_named};

use crate::caching::{PlainCache, Retention};
use crate::keys::{Key, Value, same};
use crate::listing::Found;
use iiif_pixel::NoMemory;
use iiif_tables::{Book, Class, Place};
use std::alloc::{AllocError, Global};

/// A flight that is open in a table.
#[derive(Drop)]
pub struct OpenFlight {
    pub key: Key,
    pub class: Class,
    pub ticket: u64,
    pub found: bool,
}

/// A table: the cache, the open flights, and the counts.
#[derive(Drop)]
pub struct PlainTable {
    pub cache: PlainCache,
    pub flights: Vec<OpenFlight>,
    pub book: Book,
    pub ghost once: { are_once flights.items ≡ true },
}

/// The outcome of a call's entry.
#[derive(Drop)]
pub enum Entered {
    Hit(Found),
    Joined(u64),
    Led(u64),
}

/// Nothing was counted.
const EMPTY: Book = Book {
    gets: 0,
    hits: 0,
    joins: 0,
    leads: 0,
    again_hits: 0,
    loads: 0,
    peer: 0,
    landed: 0,
    faults: 0,
};

/// Whether two classes are one.
pub(crate) fn same_class(a: Class, b: Class) -> bool
    ensures { result ≡ class_eq a b }
{
    match (a, b) {
        (Class::Wide, Class::Wide) | (Class::Local, Class::Local) => true,
        _ => false,
    }
}

/// The place of the open flight of a class and a key.
fn open_at(flights: &[OpenFlight], class: Class, key: &Key) -> Option<usize>
    ensures { result ≡ position (is_named class key.now) flights.now }
{
    flights
        .iter()
        .position(|f| same_class(f.class, class) && same(&f.key, key))
}

/// Whether a call more can be counted.
fn can_count(book: &Book) -> bool
    ensures { OnTrue result ((book.now.gets + 1 < 2 ^ 64) × (book.now.hits + 1 < 2 ^ 64) × (book.now.joins + 1 < 2 ^ 64) ×
        (book.now.leads + 1 < 2 ^ 64)) }
{
    let most = u64::MAX;
    book.gets < most && book.hits < most && book.joins < most && book.leads < most
}

/// The counts after a flight, found or not, that landed with this value, or with a fault; none, where they are full.
fn counted(book: &Book, found: bool, value: &Option<Value>, place: Place) -> Option<Book>
    ensures { IfSome result (λ b. b ≡ counting found value.now place book.now) }
{
    let most = u64::MAX;
    if book.landed == most || book.again_hits == most || book.loads == most {
        return None;
    }
    if book.peer == most || book.faults == most {
        return None;
    }
    let mut after = *book;
    after.landed += 1;
    if found {
        after.again_hits += 1;
        return Some(after);
    }
    after.loads += 1;
    match (value, place) {
        (None, _) => after.faults += 1,
        (Some(_), Place::Peer) => after.peer += 1,
        (Some(_), Place::Nowhere | Place::Main) => {}
    }
    Some(after)
}

/// A flight more is open.
fn open(flights: &mut Vec<OpenFlight>, key: Key, class: Class, ticket: u64) -> Result<(), NoMemory>
    ensures ok { OnOk result (flights.new.items ≡ flights.old.items ++ record { key = key; class = class; ticket = ticket; found = false } ∷
        []) }
    ensures err { OnErr result (flights.new.items ≡ flights.old.items) }
{
    flights.push(OpenFlight {
        key,
        class,
        ticket,
        found: false,
    })?;
    Ok(())
}

impl PlainTable {
    ghost use Rattle.std.specs.Prelude.{slice_get, ◌≡◌, ◌+◌, position, true, None, Some, ◌<◌, ◌^◌, IfOk, OnErr, OnOk};
    ghost use Rattle.iiif_tables.specs.Flights.{again as looking_again, empty_table, enter as entering, land as landed, with_flight};
    ghost use Rattle.iiif_tables.specs.Cache.{kept_for};
    ghost use Rattle.iiif_machine.specs.Keys.{entry_size, key_eq};
    ghost use Rattle.iiif_machine.specs.Tables.{emptied, evicted};
    ghost use Rattle.iiif_machine.specs.Nodes.{entered_of, table_of};
    ghost use Rattle.iiif_machine.specs.Open.{is_named};
    ghost use Rattle.iiif_machine.specs.declared.table.OpenFlight.{OpenFlight};

    /// A table with these limits in which nothing is kept, open or counted.
    pub fn new(alloc: Global, limit: u64, room: usize) -> PlainTable
        ensures { table_of result ≡ empty_table limit room }
    {
        PlainTable {
            cache: PlainCache {
                main: Vec::new(alloc),
                hot: Vec::new(alloc),
                limit,
                room,
            },
            flights: Vec::new(alloc),
            book: EMPTY,
        }
    }

    /// The table begins anew, with its limits.
    #[tactic(auto, unfolding(crate::specs::Tables::emptied))]
    pub(crate) fn empty(&mut self)
        ensures { table_of self.new ≡ emptied (table_of self.old) }
    {
        self.cache.main.clear();
        self.cache.hot.clear();
        self.flights.clear();
        self.book = EMPTY;
    }

    /// The keys' entries go.
    #[tactic(auto, unfolding(crate::specs::Tables::evicted))]
    pub(crate) fn evict(&mut self, keys: &[Key])
        ensures { table_of self.new ≡ evicted (table_of self.old) keys.now }
    {
        self.cache.remove_all(keys);
    }

    /// Enters a call. After an error all is as before.
    pub(crate) fn enter(&mut self, key: &Key, class: Class) -> Result<Entered, NoMemory>
        ensures ok { IfOk result (λ r. entering key_eq class key.now (table_of self.old) ≡ (entered_of r, table_of self.new)) }
        ensures err { OnErr result (table_of self.new ≡ table_of self.old) }
    {
        if !can_count(&self.book) {
            return Err(AllocError);
        }
        let kept = self.cache.kept(key)?;
        match kept {
            Some(found) => {
                self.cache.touch(key);
                self.book.gets += 1;
                self.book.hits += 1;
                Ok(Entered::Hit(found))
            }
            None => self.enter_flight(key, class),
        }
    }

    /// Enters a call for a key that isn't kept.
    fn enter_flight(&mut self, key: &Key, class: Class) -> Result<Entered, NoMemory>
        requires absent { kept_for key_eq key.now (table_of self.old).cache ≡ None }
        requires count { ((table_of self.old).book.gets + 1 < 2 ^ 64) × ((table_of self.old).book.joins + 1 < 2 ^ 64) ×
            ((table_of self.old).book.leads + 1 < 2 ^ 64) }
        ensures ok { IfOk result (λ r. entering key_eq class key.now (table_of self.old) ≡ (entered_of r, table_of self.new)) }
        ensures err { OnErr result (table_of self.new ≡ table_of self.old) }
    {
        match open_at(&self.flights, class, key) {
            Some(place) => {
                let ticket = self.flights[place].ticket;
                self.book.gets += 1;
                self.book.joins += 1;
                Ok(Entered::Joined(ticket))
            }
            None => {
                let copy = key.copy()?;
                let ticket = self.book.leads + 1;
                open(&mut self.flights, copy, class, ticket)?;
                self.book.gets += 1;
                self.book.leads = ticket;
                Ok(Entered::Led(ticket))
            }
        }
    }

    /// The leader of a flight looks again. After an error all is as before.
    pub(crate) fn again(
        &mut self,
        key: &Key,
        class: Class,
        ticket: u64,
    ) -> Result<Option<Value>, NoMemory>
        ensures ok { IfOk result (λ r. looking_again key_eq class key.now ticket (table_of self.old) ≡ (r, table_of self.new)) }
        ensures err { OnErr result (table_of self.new ≡ table_of self.old) }
    {
        let Some(place) = open_at(&self.flights, class, key) else {
            return Ok(None);
        };
        if self.flights[place].ticket != ticket {
            return Ok(None);
        }
        match self.cache.kept(key)? {
            None => Ok(None),
            Some(found) => {
                self.cache.touch(key);
                self.mark(place, class, key);
                Ok(Some(found.value))
            }
        }
    }

    /// The open flight at a place, of a class and a key, is found.
    fn mark(&mut self, place: usize, class: Class, key: &Key)
        requires { position (is_named class key.now) self.old.flights.items ≡ Some place }
        ensures flights { (f : OpenFlight) → slice_get self.old.flights.items place ≡ Some f
            → (table_of self.new).flights ≡ with_flight key_eq class key.now (Some (record { ticket = f.ticket; found = true }))
            (table_of self.old).flights }
        ensures in_flight { (table_of self.new).in_flight ≡ (table_of self.old).in_flight }
        ensures rest { ((table_of self.new).cache ≡ (table_of self.old).cache) × ((table_of self.new).book ≡ (table_of self.old).book) }
    {
        self.flights[place].found = true;
    }

    /// A flight lands with a value, or with a fault, and the value is kept by its place where it is to be kept. After an error all is
    /// as before.
    pub(crate) fn land(
        &mut self,
        key: &Key,
        class: Class,
        ticket: u64,
        value: Option<Value>,
        retention: Retention,
    ) -> Result<(), NoMemory>
        ensures ok { OnOk result (table_of self.new
            ≡ landed key_eq entry_size retention.keep class key.now ticket value retention.place (table_of self.old)) }
        ensures err { OnErr result (table_of self.new ≡ table_of self.old) }
    {
        let Some(at) = open_at(&self.flights, class, key) else {
            return Ok(());
        };
        if self.flights[at].ticket != ticket {
            return Ok(());
        }
        let found = self.flights[at].found;
        let Some(book) = counted(&self.book, found, &value, retention.place) else {
            return Err(AllocError);
        };
        self.cache.keep(retention, book.peer, key, ticket, value)?;
        self.close(at, class, key);
        self.book = book;
        Ok(())
    }

    /// The open flight at a place, of a class and a key, is closed.
    fn close(&mut self, place: usize, class: Class, key: &Key)
        requires { position (is_named class key.now) self.old.flights.items ≡ Some place }
        ensures flights { (table_of self.new).flights ≡ with_flight key_eq class key.now None (table_of self.old).flights }
        ensures in_flight { (table_of self.new).in_flight + 1 ≡ (table_of self.old).in_flight }
        ensures rest { ((table_of self.new).cache ≡ (table_of self.old).cache) × ((table_of self.new).book ≡ (table_of self.old).book) }
    {
        let _gone = self.flights.remove(place);
    }
}
