//! Laws of digests and of lists of them. The functions compute nothing: their contracts are the laws.

ghost use Rattle.std.specs.Prelude.{◌≡◌, ℕ, List, length, take, drop};
ghost use Rattle.iiif_fixity.specs.Laws.{PieceOrCollide, SameListOrCollide, SameOrCollide};
ghost use Rattle.iiif_fixity.specs.Pieces.{IsListOf, IsTold};

use crate::checked_source::CheckedSource;
use iiif_source::Source;

/// Two texts with one digest are the same, or a collision is at hand.
#[tactic(auto, using(crate::proofs::Lawful::same_or_collide))]
pub fn same_or_collide()
    ensures { SameOrCollide }
{}

/// Bytes with the digest that is listed of a piece are that piece, or a collision is at hand.
#[tactic(auto, using(crate::proofs::Lawful::piece_or_collide))]
pub fn piece_or_collide()
    ensures { PieceOrCollide }
{}

/// Two files of one length with one list are the same, or a collision is at hand.
#[tactic(auto, using(crate::proofs::Lawful::same_list_or_collide))]
pub fn same_list_or_collide()
    ensures { SameListOrCollide }
{}

/// Where the device gives its bytes and the list is theirs, the premise of a checked source holds: no more is asked of the device than of
/// one that isn't checked.
#[tactic(auto, using(crate::proofs::Lawful::kept_is_told))]
pub fn kept_is_told<R, S: Source<R>>(checked: &CheckedSource<S>)
    requires list { IsListOf checked.now.pieces.size checked.now.pieces.digests.items (S.bytes checked.now.inner) }
    requires right { (at : ℕ) (found : List ℕ) → S.reads checked.now.inner at found →
        found ≡ take (length found) (drop at (S.bytes checked.now.inner)) }
    ensures { IsTold (S.reads checked.now.inner) checked.now.pieces.size checked.now.pieces.digests.items (S.bytes checked.now.inner) }
{}
