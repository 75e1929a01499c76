//! Replies.

ghost use Rattle.std.specs.Prelude.{◌≡◌, ℕ, ◌≤◌, ◌∷◌, ◌++◌, List, length, Some, MatchResult, IfErr, IfOk, IsErrOf, OnOk};
ghost use Rattle.std.specs.Io.KnownBytes.{Appends, Consumes};
ghost use Rattle.iiif_peer_wire.specs.Faults.{IsCut, IsRefusal, LeftAt};
ghost use Rattle.iiif_peer_wire.specs.Messages.{field, IsFrontOfReply, IsReply, key_limit, reply_magic, reply_text, value_limit};
ghost use Rattle.sha2.specs.Sha256.{sha256};
ghost use Rattle.iiif_peer_wire.specs.Reading.{IsInput, reply_at};

use crate::fault::WireFault;
use crate::fields::read_reply_fields;
use crate::sending::send_part;
use crate::version::Version;
use iiif_io::{Inlet, Outlet, send};
use sha2::{Digest, Sha256};
use std::alloc::Global;

/// Writes a reply: status 0 with the value, or the number of a fault with none. The only fault is `Io`.
pub fn write_reply<W: Outlet>(
    writer: &mut W,
    version: Version,
    key: &[u8],
    status: u8,
    value: &[u8],
) -> Result<(), WireFault>
    requires { IsReply key.now status value.now }
    ensures whole { OnOk result (Appends (W.contents writer.old) (W.contents writer.new) (reply_text version key.now status value.now)) }
    ensures cut { IfErr result (IsCut W.contents W.fails writer.old writer.new (reply_text version key.now status value.now)) }
{
    write_key(writer, version, key)?;
    write_value(writer, status, value)?;
    write_digest(writer, key, value)
}

/// Writes a reply's magic and key.
fn write_key<W: Outlet>(writer: &mut W, version: Version, key: &[u8]) -> Result<(), WireFault>
    requires { length key.now ≤ key_limit }
    ensures whole { OnOk result (Appends (W.contents writer.old) (W.contents writer.new) (reply_magic version ++ field key.now)) }
    ensures cut { IfErr result (IsCut W.contents W.fails writer.old writer.new (reply_magic version ++ field key.now)) }
{
    let size = (key.len() as u32).to_be_bytes();
    let digit = version.digit();
    let head = [b'I', b'G', b'R', digit, size[0], size[1], size[2], size[3]];
    send_part(writer, &head, key)
}

/// Writes a reply's status and value.
fn write_value<W: Outlet>(writer: &mut W, status: u8, value: &[u8]) -> Result<(), WireFault>
    requires { length value.now ≤ value_limit }
    ensures whole { OnOk result (Appends (W.contents writer.old) (W.contents writer.new) (status ∷ field value.now)) }
    ensures cut { IfErr result (IsCut W.contents W.fails writer.old writer.new (status ∷ field value.now)) }
{
    let size = (value.len() as u32).to_be_bytes();
    let head = [status, size[0], size[1], size[2], size[3]];
    send_part(writer, &head, value)
}

/// Writes a reply's digest, of the key and the value.
fn write_digest<W: Outlet>(writer: &mut W, key: &[u8], value: &[u8]) -> Result<(), WireFault>
    ensures whole { OnOk result (Appends (W.contents writer.old) (W.contents writer.new) (sha256 (key.now ++ value.now))) }
    ensures cut { IfErr result (IsCut W.contents W.fails writer.old writer.new (sha256 (key.now ++ value.now))) }
{
    let mut hasher = Sha256::new();
    hasher.update(key);
    hasher.update(value);
    match send(writer, &hasher.finalize()) {
        Ok(()) => Ok(()),
        Err(_) => Err(WireFault::Io),
    }
}

/// Reads a reply of the version and for the key that were asked, its status and value, and leaves the rest unread. Memory is taken for the
/// value as it comes.
pub fn read_reply<I: Inlet>(
    alloc: Global,
    reader: &mut I,
    version: Version,
    asked_key: &[u8],
) -> Result<(u8, Vec<u8>), WireFault>
    // What is read was spelled in this version for this key, and no more of the input was taken.
    ensures known { IfOk result (λ answer. IsReply asked_key.now answer.0 answer.1.items) }
    ensures text { IfOk result (λ answer. Consumes (I.remaining reader.old) (I.remaining reader.new)
        (reply_text version asked_key.now answer.0 answer.1.items)) }

    // What is spelled for this key is read, unless a read failed or memory was refused.
    ensures only { (status : ℕ) (value rest : List ℕ) → IsReply asked_key.now status value
        → I.remaining reader.old ≡ Some (reply_text version asked_key.now status value ++ rest)
        → MatchResult result (λ answer. (answer.0 ≡ status) × (answer.1.items ≡ value) × (I.remaining reader.new ≡ Some rest))
        (λ fault. ¬ IsRefusal fault) }

    // A refusal is the first from the left, and `Io` says that a read failed.
    ensures refused { IfErr result (λ fault. IsRefusal fault
        → (input : List ℕ) × IsInput (I.remaining reader.old) input × (reply_at version asked_key.now input ≡ Err fault)) }
    ensures io { IsErrOf result WireFault.Io → LeftAt I.fails reader.new }

    // Memory is wanted inside a reply for this key alone, once the first bytes of its value have come.
    ensures memory { IsErrOf result WireFault.NoMemory → (text : List ℕ) × IsFrontOfReply version asked_key.now text
        × Consumes (I.remaining reader.old) (I.remaining reader.new) text }
{
    read_reply_fields(alloc, reader, version, asked_key)
}
