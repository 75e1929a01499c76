//! Asks for the values of keys.

ghost use Rattle.std.specs.Prelude.{◌≤◌, IfErr, IfOk, IfSome, length};
ghost use Rattle.iiif_peer_versions.specs.Keys.{IsSpelled};
ghost use Rattle.iiif_peer_versions.specs.Told.{told_by};
ghost use Rattle.iiif_peer_wire.specs.Messages.{IsAsk, IsGroup, key_limit};
ghost use Rattle.iiif_peer_link.specs.Asking.{FailedFor, Replied, terms};
ghost use Rattle.iiif_peer_link.specs.Versions.{wire_version};

use crate::ask::ask_over;
use crate::exchange::Exchange;
use crate::versions::version_for;
use iiif_group::LinkFault;
use iiif_io::Inlet;
use iiif_keys::{CacheKey, KeyFault, Shape};
use iiif_peer_versions::FileVersions;
use iiif_peer_wire::{Version, WireFault};
use std::alloc::Global;

/// Asks for the value of a key that these bytes stand for, in a group and a version of the messages.
pub fn ask_spelled_over<K: CacheKey, I: Inlet + Drop, W: Exchange<I> + Drop>(
    alloc: Global,
    out: W,
    version: Version,
    group: u8,
    wire: &[u8],
) -> Result<K::Value, LinkFault>
    requires { IsAsk group wire.now }
    ensures is_value { IfOk result (λ v. K.is_value v) }
    ensures value { IfOk result (λ v. Replied (terms W.contents W.fails W.turned I.remaining I.fails out version group wire.now) 0
        (K.val_bytes v)) }
    ensures fault { IfErr result (FailedFor K.val_refusal (terms W.contents W.fails W.turned I.remaining I.fails out version group
        wire.now)) }
{
    let value = ask_over(alloc, out, version, group, wire)?;
    match K::value_from(alloc, value.as_slice()) {
        Ok(value) => Ok(value),
        Err(KeyFault::NoMemory) => Err(LinkFault::Wire(WireFault::NoMemory)),
        Err(_) => Err(LinkFault::Value),
    }
}

/// Asks for the value of a key that fits an image of this shape, in a group, in the version of the image's depth.
pub fn ask_value_over<K: CacheKey, I: Inlet + Drop, W: Exchange<I> + Drop>(
    alloc: Global,
    out: W,
    group: u8,
    key: &K,
    shape: &Shape,
) -> Result<K::Value, LinkFault>
    requires group { IsGroup group }
    requires fits { K.fits_in shape.now key.now }
    ensures is_value { IfOk result (λ v. K.is_value v) }
    ensures value { IfOk result (λ v. Replied (terms W.contents W.fails W.turned I.remaining I.fails out (wire_version shape.now.depth)
        group (K.key_bytes key.now)) 0 (K.val_bytes v)) }
    ensures fault { IfErr result (FailedFor K.val_refusal (terms W.contents W.fails W.turned I.remaining I.fails out
        (wire_version shape.now.depth) group (K.key_bytes key.now))) }
{
    // Laws of keys.
    K::laws();
    // Read, so that they are known to be a name and two numbers of 32 bits.
    let _name = key.name();
    let (_columns, _rows) = (shape.dim.w, shape.dim.h);
    let Ok(bytes) = key.bytes(alloc) else {
        return Err(LinkFault::Wire(WireFault::NoMemory));
    };
    let version = version_for(shape.depth);
    ask_spelled_over::<K, I, W>(alloc, out, version, group, bytes.as_slice())
}

/// The bytes of a key that fits an image of this shape, as they are spelled where these versions of images' files are known. None where
/// there is no such spelling, or memory runs out.
pub fn spelled_key<K: CacheKey>(
    alloc: Global,
    versions: Option<&FileVersions>,
    key: &K,
    shape: &Shape,
) -> Option<Vec<u8>>
    requires { K.fits_in shape.now key.now }
    ensures spelled { IfSome result (λ wire. IsSpelled (told_by versions.entry) (K.key_bytes key.now) wire.items) }
    ensures within { IfSome result (λ wire. length wire.items ≤ key_limit) }
{
    // Laws of keys.
    K::laws();
    // Read, so that they are known to be a name and two numbers of 32 bits.
    let _name = key.name();
    let (_columns, _rows) = (shape.dim.w, shape.dim.h);
    let bytes = key.bytes(alloc).ok()?;
    match versions {
        None => Some(bytes),
        Some(versions) => versions.put_on(alloc, bytes.as_slice()).ok()?,
    }
}
