//! The ring.

ghost use Rattle.std.specs.Prelude.{false, ◌≡◌, ℕ, ◌<◌, ◌≤◌, ◌^◌, ◌↔◌, List, [], length, IsTrue, IfOk, IfSome, IfNone, IsErrOf, IsSomeAnd};
ghost use Rattle.std.specs.Prelude.{Some, slice_get};
ghost use Rattle.std.specs.BTreeMap.{get};
ghost use Rattle.std.specs.Ordering.{nat_cmp};
ghost use Rattle.iiif_ring.specs.Code.{name_at, EachFits, EachIsPoint, IsNext, IsTable};
ghost use Rattle.iiif_ring.specs.Names.{names_of, AreDistinct, HasTwice};
ghost use Rattle.iiif_ring.specs.Owner.{HaveSameNames, IsOwner, IsUpTo};

use crate::fault::RingFault;
use crate::hash::{hash_of, point_of};
use std::alloc::{AllocError, Global};
use std::collections::BTreeMap;
use std::marker::Model;

/// How many names a ring has at most.
pub const NAMES: usize = 64;

/// How many points each name has.
pub const REPLICAS: u8 = 50;

/// Names of nodes, each with its points on the ring. A clause sees the names, in the order in which they were given.
#[derive(Drop)]
pub struct Ring {
    names: Vec<String>,
    points: BTreeMap<u64, usize>,
}

impl Model for Ring {
    ghost Value = { List (List ℕ) };

    ghost view = { λ ring. names_of ring.names.items };

    ghost invariant = { λ ring. (0 < length ring.names.items) × IsTable (names_of ring.names.items) ring.points };
}

impl Ring {
    /// The ring of these names, and the first fault where they make none. The names' tests take no memory.
    pub fn new(alloc: Global, names: Vec<String>) -> Result<Self, RingFault>
        ensures ok { IfOk result (λ ring. ring ≡ names_of names.items) }
        ensures usable { IfOk result (λ ring. (0 < length ring) × (length ring ≤ NAMES) × AreDistinct ring) }
        ensures empty { IsErrOf result RingFault.Empty ↔ (names.items ≡ []) }
        ensures twice { IsErrOf result RingFault.Twice ↔ HasTwice (names_of names.items) }
        ensures too_many { IsErrOf result RingFault.TooMany ↔ (AreDistinct (names_of names.items) × (NAMES < length names.items)) }
    {
        if names.len() == 0 {
            return Err(RingFault::Empty);
        }
        if has_twice(&names) {
            return Err(RingFault::Twice);
        }
        if names.len() > NAMES {
            return Err(RingFault::TooMany);
        }
        match table_of(alloc, &names) {
            Ok(points) => Ok(Ring { names, points }),
            Err(_) => Err(RingFault::NoMemory),
        }
    }

    /// The names, in the order in which they were given.
    pub fn names(&self) -> &[String]
        ensures { names_of result.now ≡ self.now }
    {
        &self.names
    }

    /// The place of the name that owns the key.
    pub fn owner(&self, key: &[u8]) -> usize
        // The name at that place is the owner.
        ensures owner { IsSomeAnd (slice_get self.now result) (IsOwner self.now key.now) }
        // No other name is: the owner is the same whatever order the names were given in.
        ensures only { (names : List (List ℕ)) (name : List ℕ) → HaveSameNames names self.now
            → IsOwner names key.now name → slice_get self.now result ≡ Some name }
    {
        // A name that is alone owns each key, whatever its hash.
        let is_alone = self.names.len() == 1;
        if is_alone {
            return 0;
        }
        match next_place(&self.points, hash_of(key)) {
            Some(place) => place,
            None => unreachable!(),
        }
    }
}

/// What stands at the next point of the ring from a place on, if there is any point.
fn next_place(points: &BTreeMap<u64, usize>, from: u64) -> Option<usize>
    requires { EachFits points.now }
    ensures next { IfSome result (IsNext points.now from) }
    ensures none { IfNone result ((here : ℕ) → here < 2 ^ 64 → get nat_cmp points.now here ≡ None) }
{
    match points.range(from..).next() {
        Some((_, place)) => Some(*place),
        None => match points.first_key_value() {
            Some((_, place)) => Some(*place),
            None => None,
        },
    }
}

/// Whether two places hold one name.
fn has_twice(names: &[String]) -> bool
    ensures twice { IsTrue result → HasTwice (names_of names.now) }
    ensures distinct { result ≡ false → AreDistinct (names_of names.now) }
{
    for (late, name) in names.iter().enumerate() {
        for early in 0..late {
            if names[early] == *name {
                return true;
            }
        }
    }
    false
}

/// Whether a point is taken by a name that is no larger than the one at the place.
fn is_taken(names: &[String], points: &BTreeMap<u64, usize>, here: u64, place: usize) -> bool
    requires within { place < length names.now }
    requires each { EachIsPoint (names_of names.now) points.now }
    ensures taken { IsTrue result → IsSomeAnd (get nat_cmp points.now here)
        (λ other. IsUpTo (name_at (names_of names.now) other) (name_at (names_of names.now) place)) }
    ensures free { result ≡ false → IfSome (get nat_cmp points.now here)
        (λ other. IsUpTo (name_at (names_of names.now) place) (name_at (names_of names.now) other)) }
{
    match points.get(&here) {
        Some(other) => names[*other] <= names[place],
        None => false,
    }
}

/// The points of all names.
fn table_of(alloc: Global, names: &[String]) -> Result<BTreeMap<u64, usize>, AllocError>
    ensures { IfOk result (λ points. IsTable (names_of names.now) points) }
{
    let mut points = BTreeMap::new(alloc);
    for (place, name) in names.iter().enumerate() {
        for replica in 0..REPLICAS {
            let here = point_of(alloc, name, replica)?;
            if !is_taken(names, &points, here, place) {
                points.insert(here, place)?;
            }
        }
    }
    Ok(points)
}
