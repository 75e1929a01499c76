//! Watches of a connection's answers.

use iiif_answers::{Cut, Sent};
use iiif_http_front::Call;

/// Listener for each answer, as for a log and for counters. R is the runtime.
pub trait Watch<R> {
    /// State that is kept while an answer is made, as the time at which it began.
    type Begun: Drop;

    /// Takes in that an answer begins: a head was read, or the bytes that came are none.
    fn begin(&self, rt: &R) -> Self::Begun;

    /// Takes in how that answer ended. There is no call where the bytes that came are no head, or where memory ran out to read it.
    fn report(&self, rt: &R, begun: Self::Begun, call: Option<&Call>, outcome: &Result<Sent, Cut>);
}

/// Watches nothing.
impl<R> Watch<R> for () {
    type Begun = ();

    fn begin(&self, _rt: &R) {}

    fn report(&self, _rt: &R, _begun: (), _call: Option<&Call>, _outcome: &Result<Sent, Cut>) {}
}
