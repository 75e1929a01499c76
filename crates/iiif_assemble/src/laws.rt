//! Laws of first faults. The functions compute nothing: their contracts are the laws, for the crates above.

ghost use Rattle.iiif_assemble.specs.FirstFault.{FirstBadIsTold};

use crate::items::Items;

/// Where it is fixed which keys can't be had, the fault that is told is that of the first of these in the plan's order, whichever worker
/// meets one first.
pub fn first_bad_is_told<G: Items<K, V, P, R>, K, V, P, R>(_group: &G)
    ensures { FirstBadIsTold (G.means _group.now) (G.failed _group.now) }
{}
