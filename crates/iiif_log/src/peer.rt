//! The line of a link to another node.

ghost use Rattle.std.specs.Prelude.{◌≡◌, ◌++◌, ◌∷◌, [], IfOk, OnOk, string_bytes};
ghost use Rattle.iiif_log.specs.PeerLines.{IsPeerLineOf, turn_word};

use crate::escape::push_escaped;
use crate::moment::{Moment, NoMemory, push_moment};
use std::alloc::Global;

/// Room for a line of the usual length.
const USUAL_LENGTH: usize = 64;

/// A turn of a link to another node.
#[derive(Clone, Copy, PartialEq, Eq)]
pub enum Turn {
    /// The node failed, and is left alone from now on.
    LeftAlone,
    /// The node answered, and is asked again.
    AskedAgain,
    /// Its address leads to the node that looks: it isn't asked.
    Itself,
}

/// A link's turn, as a line tells it.
#[derive(Clone, Copy)]
pub struct PeerTurn<'a> {
    /// When it turned.
    pub at: Moment,
    /// The node's name.
    pub name: &'a [u8],
    pub turn: Turn,
}

/// Writes what became of a link, and the line's end.
fn push_turn(text: &mut String, turn: Turn) -> Result<(), NoMemory>
    ensures { OnOk result (string_bytes text.new ≡ string_bytes text.old ++ (turn_word turn ++ 10 ∷ [])) }
{
    match turn {
        Turn::LeftAlone => text.push_str("left-alone\n"),
        Turn::AskedAgain => text.push_str("asked-again\n"),
        Turn::Itself => text.push_str("itself\n"),
    }
}

/// The line of a link, as `2026-11-23T11:42:05.123Z peer two left-alone`. It has four words, so it is no answer's.
pub fn peer_line_bytes(alloc: Global, told: &PeerTurn<'_>) -> Result<Vec<u8>, NoMemory>
    ensures { IfOk result (λ bytes. IsPeerLineOf told.now bytes.items) }
{
    let mut text = String::with_capacity(alloc, USUAL_LENGTH)?;
    push_moment(&mut text, told.at)?;
    text.push_str(" peer ")?;
    push_escaped(&mut text, told.name)?;
    text.push_str(" ")?;
    push_turn(&mut text, told.turn)?;
    Ok(text.into_bytes())
}
