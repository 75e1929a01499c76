//! The network as a trait: what other nodes answer is an assumption of one impl, not of each link.

ghost use Rattle.std.specs.Prelude.{◌≡◌, ℕ, Bool, List, [], Option, IfOk, IsTrue, Some};
ghost use Rattle.std.specs.Io.{ReadsAtMost, WritesAtMost};
ghost use Rattle.std.specs.Io.KnownBytes.{ReadConsumes, WriteAppends};
ghost use Rattle.iiif_peer_link.specs.Honest.{Carries};

use std::io;
use std::net::SocketAddr;
use std::time::Duration;

/// A runtime that reaches other nodes. It says what these answer, so all code between it and a link is proved to give that. Its own impl
/// alone is trusted.
pub trait Reaches {
    /// A connection to a node.
    type Line: Drop;

    /// The answers of the nodes: one that was reached answered the first bytes by the second.
    ghost answers: { List ℕ → List ℕ → Type 0 };

    /// The premise of each promise on connections: all that is written reaches the node, and all that is read is its answer.
    ghost keeps: { Bool };

    /// The bytes that were written to a connection, where they are known.
    ghost written: { Self.Line → Option (List ℕ) };

    /// The bytes that are still to be read from a connection, where they are known.
    ghost unread: { Self.Line → Option (List ℕ) };

    /// Connects to a node, to which nothing is written yet. It fails where that takes longer.
    fn connect(&self, address: &SocketAddr, left: Duration) -> io::Result<Self::Line>
        ensures { IsTrue keeps → IfOk result (λ line. written line ≡ Some []) };

    /// Writes some of the bytes. It fails where none are taken within that time.
    fn put(&self, line: &mut Self::Line, left: Duration, bytes: &[u8]) -> io::Result<usize>
        ensures bound { WritesAtMost result bytes.now }
        ensures bytes { WriteAppends (written line.old) (written line.new) result bytes.now };

    /// Ends the writing: all that is read from here on answers what was written.
    fn turn(&self, line: Self::Line) -> Self::Line
        ensures { IsTrue keeps → Carries answers (written line) (unread result) };

    /// Reads some bytes into the buffer, as `Inlet::pull` does. It fails where none come within that time.
    fn pull(&self, line: &mut Self::Line, left: Duration, buffer: &mut [u8]) -> io::Result<usize>
        ensures bound { ReadsAtMost result buffer.new }
        ensures bytes { ReadConsumes (unread line.old) (unread line.new) result buffer.new };
}
