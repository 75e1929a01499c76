//! A list of entries.

ghost use Rattle.std.specs.Prelude.{◌≡◌, ◌<◌, ◌∷◌, ℕ, true, false, is_some, length, position, slice_get, Some, MatchOption, option_map};
ghost use Rattle.std.specs.Prelude.{IfOk, OnErr, OnOk, vec_len};
ghost use Rattle.std.specs.List.{remove};
ghost use Rattle.std.specs.Map.{lookup, remove_entry};
ghost use Rattle.iiif_tables.specs.Cache.{added, replaced, to_front as fronted, bytes_of};
ghost use Rattle.iiif_machine.specs.Keys.{entry_size, key_eq};
ghost use Rattle.iiif_machine.specs.declared.listing.Entry.{Entry};
ghost use Rattle.iiif_machine.specs.Entries.{entry_of, kept_of, rows};

use crate::keys::{Key, Value, copy_value, same, size};
use iiif_pixel::NoMemory;

/// A key with its kept value.
#[derive(Drop)]
pub struct Entry {
    pub key: Key,
    pub value: Value,
    pub ticket: u64,
}

/// The place of the key's entry.
pub(crate) fn place_of(list: &[Entry], key: &Key) -> Option<usize>
    ensures { result ≡ position (λ e. key_eq key.now e.key) list.now }
{
    list.iter().position(|e| same(key, &e.key))
}

/// The entry at a place goes to the front.
pub(crate) fn move_to_front(list: &mut Vec<Entry>, place: usize)
    requires { place < vec_len list.old }
    ensures { (e : Entry) → slice_get list.old.items place ≡ Some e → list.new.items ≡ e ∷ remove list.old.items place }
{
    // Read, so that one entry less is known to leave room for one.
    let _count = list.len();
    let entry = list.remove(place);
    match list.insert(0, entry) {
        Ok(()) | Err(_) => {}
    }
}

/// The entry at a place goes, and another one goes to the front.
fn renew(list: &mut Vec<Entry>, place: usize, entry: Entry)
    requires { place < vec_len list.old }
    ensures { list.new.items ≡ entry ∷ remove list.old.items place }
{
    // Read, so that one entry less is known to leave room for one.
    let _count = list.len();
    let _gone = list.remove(place);
    match list.insert(0, entry) {
        Ok(()) | Err(_) => {}
    }
}

/// The key's entry goes to the front; whether there is one.
pub(crate) fn touch_in(list: &mut Vec<Entry>, key: &Key) -> bool
    ensures was { result ≡ is_some (lookup (key_eq key.now) (rows list.old.items)) }
    ensures absent { result ≡ false → list.new.items ≡ list.old.items }
    ensures rows { rows list.new.items ≡ fronted key_eq key.now (rows list.old.items) }
{
    match place_of(list, key) {
        Some(place) => {
            move_to_front(list, place);
            true
        }
        None => false,
    }
}

/// The key's entry goes.
pub(crate) fn remove_in(list: &mut Vec<Entry>, key: &Key)
    ensures { rows list.new.items ≡ remove_entry (key_eq key.now) (rows list.old.items) }
{
    match place_of(list, key) {
        Some(place) => {
            let _gone = list.remove(place);
        }
        None => {}
    }
}

/// An entry takes the place of its key's entry and goes to the front, or comes back where there is none.
pub(crate) fn replace_in(list: &mut Vec<Entry>, entry: Entry) -> Option<Entry>
    ensures { MatchOption result
        ((is_some (lookup (key_eq entry.key) (rows list.old.items)) ≡ true) ×
        (rows list.new.items ≡ replaced key_eq entry.key (entry_of entry).1 (rows list.old.items)))
        (λ e. (e ≡ entry) × (list.new.items ≡ list.old.items) × (is_some (lookup (key_eq entry.key) (rows list.old.items)) ≡ false)) }
{
    match place_of(list, &entry.key) {
        Some(place) => {
            renew(list, place, entry);
            None
        }
        None => Some(entry),
    }
}

/// An entry goes to the front, and the last one goes where there are too many.
pub(crate) fn add_in(list: &mut Vec<Entry>, room: usize, entry: Entry) -> Result<(), NoMemory>
    ensures ok { OnOk result (rows list.new.items ≡ added room (entry_of entry) (rows list.old.items)) }
    ensures err { OnErr result (list.new.items ≡ list.old.items) }
{
    list.insert(0, entry)?;
    list.truncate(room.max(1));
    Ok(())
}

/// How many bytes the entries take.
pub(crate) fn bytes(list: &[Entry]) -> u128
    ensures sum { result ≡ bytes_of entry_size (rows list.now) }
{
    let mut sum: u128 = 0;
    for entry in list {
        sum += u128::from(size(&entry.key, &entry.value));
    }
    sum
}

/// A hit: a copy of the value, and its ticket.
#[derive(Drop)]
pub struct Found {
    pub value: Value,
    pub ticket: u64,
}

/// Looks up the key's entry. The only error is lack of memory.
pub(crate) fn find_in(list: &Vec<Entry>, key: &Key) -> Result<Option<Found>, NoMemory>
    ensures { IfOk result (λ r. option_map kept_of r ≡ lookup (key_eq key.now) (rows list.now.items)) }
{
    match place_of(list, key) {
        Some(place) => {
            let entry = &list[place];
            let value = copy_value(*list.allocator(), &entry.value)?;
            Ok(Some(Found {
                value,
                ticket: entry.ticket,
            }))
        }
        None => Ok(None),
    }
}
