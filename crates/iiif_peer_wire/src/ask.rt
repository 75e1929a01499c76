//! Asks.

ghost use Rattle.std.specs.Prelude.{◌≡◌, ℕ, ◌++◌, List, [], Some, MatchResult, IfErr, IfNone, IfOk, IfSome, IsErrOf, IsNone, IsSomeAnd};
ghost use Rattle.std.specs.Prelude.{OnOk};
ghost use Rattle.std.specs.Io.KnownBytes.{Appends, Consumes, IsAtEnd};
ghost use Rattle.iiif_peer_wire.specs.Faults.{IsCut, IsRefusal, LeftAt};
ghost use Rattle.iiif_peer_wire.specs.Messages.{ask_text, IsAsk, IsFrontOfAsk};
ghost use Rattle.iiif_peer_wire.specs.Reading.{ask_at, IsInput, IsUnfinishedAsk};
ghost use Rattle.iiif_peer_wire.specs.declared.version.Version.{Version};

use crate::fault::WireFault;
use crate::fields::ask_from;
use crate::sending::send_part;
use crate::version::Version;
use iiif_io::{Inlet, Outlet};
use std::alloc::Global;

/// An ask: for the value of a key in a group.
#[derive(Drop)]
pub struct Ask {
    /// The version in which it was asked, and in which the reply is to be.
    pub version: Version,
    /// 1 for tiles, 2 for sums.
    pub group: u8,
    /// The key's bytes, at most 4,096.
    pub key: Vec<u8>,
}

/// Writes an ask. The only fault is `Io`.
pub fn write_ask<W: Outlet>(
    writer: &mut W,
    version: Version,
    group: u8,
    key: &[u8],
) -> Result<(), WireFault>
    requires { IsAsk group key.now }
    ensures whole { OnOk result (Appends (W.contents writer.old) (W.contents writer.new) (ask_text version group key.now)) }
    ensures cut { IfErr result (IsCut W.contents W.fails writer.old writer.new (ask_text version group key.now)) }
{
    let size = (key.len() as u32).to_be_bytes();
    let digit = version.digit();
    let head = [
        b'I', b'G', b'A', digit, group, size[0], size[1], size[2], size[3],
    ];
    send_part(writer, &head, key)
}

/// Reads an ask and leaves the rest unread, or answers none where the input is at its end. Memory is taken for the key
/// as it comes.
pub fn read_ask<I: Inlet>(alloc: Global, reader: &mut I) -> Result<Option<Ask>, WireFault>
    // What is read was spelled, and no more of the input was taken.
    ensures known { IfOk result (λ answer. IfSome answer (λ ask. IsAsk ask.group ask.key.items)) }
    ensures text { IfOk result (λ answer. IfSome answer (λ ask.
        Consumes (I.remaining reader.old) (I.remaining reader.new) (ask_text ask.version ask.group ask.key.items))) }
    ensures end { IfOk result (λ answer. IfNone answer (Consumes (I.remaining reader.old) (I.remaining reader.new) []
        × IsAtEnd (I.remaining reader.new))) }

    // What is spelled is read, and a clean end is none, unless a read failed or memory was refused.
    ensures only { (version : Version) (group : ℕ) (key rest : List ℕ) → IsAsk group key →
        I.remaining reader.old ≡ Some (ask_text version group key ++ rest)
        → MatchResult result (λ answer. IsSomeAnd answer (λ ask. (ask.version ≡ version) × (ask.group ≡ group) × (ask.key.items ≡ key)) ×
        (I.remaining reader.new ≡ Some rest))
        (λ fault. ¬ IsRefusal fault) }
    ensures only_end { I.remaining reader.old ≡ Some [] → MatchResult result (λ answer. IsNone answer) (λ fault. ¬ IsRefusal fault) }

    // A refusal is the first from the left, and `Io` says that a read failed. No ask that came is lost then: what was taken holds none.
    ensures refused { IfErr result (λ fault. IsRefusal fault
        → (input : List ℕ) × IsInput (I.remaining reader.old) input × (ask_at input ≡ Err fault)) }
    ensures io { IsErrOf result WireFault.Io → LeftAt I.fails reader.new }
    ensures unfinished { IsErrOf result WireFault.Io → (text : List ℕ) × IsUnfinishedAsk text
        × Consumes (I.remaining reader.old) (I.remaining reader.new) text }

    // Memory is wanted inside an ask alone, once the first bytes of its key have come.
    ensures memory { IsErrOf result WireFault.NoMemory → (text : List ℕ) × IsFrontOfAsk text
        × Consumes (I.remaining reader.old) (I.remaining reader.new) text }
{
    ask_from(alloc, reader)
}
