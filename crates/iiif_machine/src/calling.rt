//! Calls that are made, one after another.

ghost use Rattle.std.specs.Prelude.{◌≡◌, ◌<◌, List, length, map, Some, IfOk};
ghost use Rattle.iiif_keys.specs.Blocks.{HasParts};
ghost use Rattle.iiif_keys.specs.Meaning.{sums_below, tile_below};
ghost use Rattle.iiif_machine.specs.Keys.{parts_of};
ghost use Rattle.iiif_machine.specs.Plans.{keys_in};
ghost use Rattle.iiif_machine.specs.declared.keys.Key.{Key};
ghost use Rattle.iiif_machine.specs.Worlds.{call_for, fresh, numbers};
ghost use Rattle.iiif_machine.specs.Nodes.{node_of};

use crate::keys::Key;
use crate::node::Node;
use crate::rows::{Call, CallState, Caller, Purpose};
use iiif_keys::{Parts, SumKey, TileKey, parts};
use iiif_pixel::NoMemory;
use iiif_planner::Plan;
use std::alloc::{AllocError, Global};

/// The keys of tiles. The only error is lack of memory.
fn tile_keys(alloc: Global, tiles: Vec<TileKey>) -> Result<Vec<Key>, NoMemory>
    ensures { IfOk result (λ v. v.items ≡ map (λ k. Key.Tile k) tiles.items) }
{
    let mut keys = Vec::new(alloc);
    for tile in tiles {
        keys.push(Key::Tile(tile))?;
    }
    Ok(keys)
}

/// The keys of sums. The only error is lack of memory.
fn sum_keys(alloc: Global, sums: Vec<SumKey>) -> Result<Vec<Key>, NoMemory>
    ensures { IfOk result (λ v. v.items ≡ map (λ k. Key.Sum k) sums.items) }
{
    let mut keys = Vec::new(alloc);
    for sum in sums {
        keys.push(Key::Sum(sum))?;
    }
    Ok(keys)
}

/// The keys of a plan, in its order. The only error is lack of memory.
pub fn keys_of(alloc: Global, plan: Plan) -> Result<Vec<Key>, NoMemory>
    ensures { IfOk result (λ v. v.items ≡ keys_in plan) }
{
    match plan {
        Plan::Copy(tiles) => tile_keys(alloc, tiles),
        Plan::Grow(tiles) => tile_keys(alloc, tiles),
        Plan::Sum(sums) => sum_keys(alloc, sums),
    }
}

/// The key of the tile that a block of level 0 is. The only error is lack of memory.
fn one_key(alloc: Global, key: &SumKey, tile: TileKey) -> Result<Vec<Key>, NoMemory>
    requires { (key.now.level ≡ 0) × (tile ≡ tile_below key.now) }
    ensures { IfOk result (λ v. parts_of (Key.Sum key.now) ≡ Some v.items) }
{
    let mut keys = Vec::new(alloc);
    keys.push(Key::Tile(tile))?;
    Ok(keys)
}

/// The keys of the blocks below. The only error is lack of memory.
fn part_keys(alloc: Global, key: &SumKey, sums: Vec<SumKey>) -> Result<Vec<Key>, NoMemory>
    requires { (0 < key.now.level) × (sums.items ≡ sums_below key.now) }
    ensures { IfOk result (λ v. parts_of (Key.Sum key.now) ≡ Some v.items) }
{
    let keys = sum_keys(alloc, sums)?;
    Ok(keys)
}

/// The keys of a sum's parts. The only error is lack of memory.
#[tactic(auto, unfolding(crate::specs::Keys::parts_of))]
pub fn parts_in(alloc: Global, key: &SumKey) -> Result<Vec<Key>, NoMemory>
    requires { HasParts key.now }
    ensures { IfOk result (λ v. parts_of (Key.Sum key.now) ≡ Some v.items) }
{
    match parts(alloc, key)? {
        Parts::Tile(tile) => one_key(alloc, key, tile),
        Parts::Sums(sums) => part_keys(alloc, key, sums),
    }
}

/// A call that is made.
fn fresh_call(
    alloc: Global,
    number: usize,
    node: &Node,
    purpose: Purpose,
    key: Key,
) -> Result<Call, NoMemory>
    ensures { IfOk result (λ c. c ≡ fresh (call_for number (node_of node.now) purpose key)) }
{
    let class = node.class(alloc, &key)?;
    Ok(Call {
        caller: Caller {
            node: number,
            key,
            class,
            purpose,
        },
        state: CallState::Fresh,
    })
}

/// A node's calls of some keys. The only error is lack of memory.
pub fn calls_of(
    alloc: Global,
    number: usize,
    node: &Node,
    purpose: Purpose,
    keys: Vec<Key>,
) -> Result<Vec<Call>, NoMemory>
    ensures { IfOk result (λ v. v.items ≡ map fresh (map (call_for number (node_of node.now) purpose) keys.items)) }
{
    let mut calls = Vec::new(alloc);
    for key in keys {
        calls.push(fresh_call(alloc, number, node, purpose, key)?)?;
    }
    Ok(calls)
}

/// The numbers of `count` calls, from `first` on. The only error is lack of memory.
pub fn numbers_of(alloc: Global, first: usize, count: usize) -> Result<Vec<usize>, NoMemory>
    ensures { IfOk result (λ v. (keys : List Key) → length keys ≡ count → v.items ≡ numbers first keys) }
{
    let Some(end) = first.checked_add(count) else {
        return Err(AllocError);
    };
    let mut numbers = Vec::new(alloc);
    for number in first..end {
        numbers.push(number)?;
    }
    Ok(numbers)
}
