//! Facts of a running node that clauses name and nothing computes.

ghost use Rattle.std.specs.Prelude.{ℕ, Bool, List};
ghost use Rattle.iiif_source.specs.declared.ReadFault.{ReadFault};
ghost use Rattle.iiif_keys.specs.Names.{Pictures};

use std::marker::Brand;

/// Parts of the ledger of a group: one for each of the 65,536 passes that can be lent, and one that stays with the group.
pub const PARTS: u64 = 65_537;

/// Facts of a node: the pictures of its names, what its sources and its peers are trusted to do, and the ledgers that count its
/// calls. It has no function: the types and functions of a node take it as a parameter so that their clauses can name these facts.
pub trait System {
    /// The picture of each name. Of a source whose bytes may change: some picture of the sides, the channels and the depth that
    /// its file said.
    ghost pictures: { Pictures };

    /// The side of a tile.
    ghost edge: { ℕ };

    /// The faults that the source of each name gave.
    ghost gave: { List ℕ → ReadFault → Bool };

    /// The premise that the bytes of a name's source don't change, and show the name's picture. Nothing tests it.
    ghost stable: { List ℕ → Type 0 };

    /// The premise that other nodes answer their keys' meanings. A link that promises nothing of them has it false.
    ghost honest: { Bool };

    /// The ledger that counts the calls of the group of tiles.
    ghost tiles_name: { ℕ };

    /// The parts of the ledger of tiles.
    ghost tiles_parts: { ℕ };

    /// The ledger that counts the calls of the group of sums.
    ghost sums_name: { ℕ };

    /// The parts of the ledger of sums.
    ghost sums_parts: { ℕ };
}

impl System for Brand {
    ghost use Rattle.std.specs.Prelude.{None, false};

    ghost pictures = { λ _. None };

    ghost edge = { 0 };

    ghost gave = { λ _ _. false };

    ghost stable = { λ _. ⊥ };

    ghost honest = { false };

    ghost tiles_name = { 0 };

    ghost tiles_parts = { 0 };

    ghost sums_name = { 0 };

    ghost sums_parts = { 0 };
}
