//! Connections for one ask: it is written first, then its reply is read.

use iiif_io::{Inlet, Outlet};

/// A writer of an ask that turns into the reader of its reply.
pub trait Exchange<I: Inlet>: Outlet {
    /// A writer in this state turned into this reader.
    ghost turned: { Self → I → Type 0 };

    /// Ends the writing, and returns the reader of the reply.
    fn turn(self) -> I
        ensures { turned self result };
}
