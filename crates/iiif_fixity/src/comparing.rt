//! Files that are compared with digests, and aren't held.

ghost use Rattle.std.specs.Prelude.{◌≢◌, ◌+◌, ◌≤◌, IfErr, IfOk, IsErrOf, OnOk, length};
ghost use Rattle.sha2.specs.Sha256.{sha256};
ghost use Rattle.iiif_fixity.specs.Faults.{IsHoldFault, IsReadingFault};
ghost use Rattle.iiif_fixity.specs.Reads.{IsDigestOfReads, IsFed};

use crate::holding::HoldFault;
use iiif_source::Source;
use sha2::{Digest, Sha256};
use std::alloc::Global;

/// How many bytes are read at a time.
const STEP: usize = 65_536;

/// Reads bytes of a source that stand behind those that a hasher was fed with, and feeds it with them.
#[tactic(auto, using(crate::proofs::Feeding::fed_more))]
fn feed_piece<R, S: Source<R>>(
    rt: &R,
    source: &S,
    at: u64,
    piece: &mut [u8],
    hasher: &mut Sha256,
) -> Result<(), HoldFault>
    requires there { at + length piece.old ≤ length (S.bytes source.now) }
    ensures fed { IsFed (S.keeps source.now) (S.bytes source.now) at hasher.old →
        OnOk result (IsFed (S.keeps source.now) (S.bytes source.now) (at + length piece.old) hasher.new) }
    ensures fault { IfErr result (IsReadingFault (S.gave source.now)) }
{
    if let Err(fault) = source.read_at(rt, at, piece) {
        return Err(HoldFault::Read(fault));
    }
    hasher.update(&*piece);
    Ok(())
}

/// Reads so many bytes of a source that stand behind those that a hasher was fed with, and feeds it with them.
fn feed_next<R, S: Source<R>>(
    rt: &R,
    alloc: Global,
    source: &S,
    at: u64,
    count: usize,
    hasher: &mut Sha256,
) -> Result<(), HoldFault>
    requires there { at + count ≤ length (S.bytes source.now) }
    ensures fed { IsFed (S.keeps source.now) (S.bytes source.now) at hasher.old →
        OnOk result (IsFed (S.keeps source.now) (S.bytes source.now) (at + count) hasher.new) }
    ensures fault { IfErr result (IsReadingFault (S.gave source.now)) }
{
    let Ok(mut piece) = vec![in alloc; 0u8; count] else {
        return Err(HoldFault::NoMemory);
    };
    feed_piece(rt, source, at, &mut piece, hasher)?;
    Ok(())
}

/// Reads a file once from its front, and returns the digest of what was read. One step of it is in memory at a time.
#[tactic(auto, using(crate::proofs::Feeding::fed_all))]
pub fn digest_whole<R, S: Source<R>>(
    rt: &R,
    alloc: Global,
    source: &S,
) -> Result<[u8; 32], HoldFault>
    ensures digest { IfOk result (IsDigestOfReads (S.keeps source.now) (S.bytes source.now)) }
    ensures fault { IfErr result (IsReadingFault (S.gave source.now)) }
{
    let len = source.len();
    let mut hasher = Sha256::new();
    let mut at = 0;
    while at < len {
        let count = (len - at).min(STEP as u64) as usize;
        feed_next(rt, alloc, source, at, count, &mut hasher)?;
        at += count as u64;
    }
    Ok(hasher.finalize())
}

/// Reads a file once, and compares the digest of what was read with the one that is listed. Nothing of the file is kept.
#[tactic(auto, using(crate::proofs::Feeding::other_differs, crate::proofs::Feeding::reading_fault, crate::proofs::Feeding::never_differs))]
pub fn compare<R, S: Source<R>>(
    rt: &R,
    alloc: Global,
    source: &S,
    digest: &[u8; 32],
) -> Result<(), HoldFault>
    ensures same { OnOk result (IsDigestOfReads (S.keeps source.now) (S.bytes source.now) digest.now) }
    ensures differs { S.keeps source.now → IsErrOf result HoldFault.Differs → sha256 (S.bytes source.now) ≢ digest.now }
    ensures fault { IfErr result (IsHoldFault (S.gave source.now)) }
{
    match digest_whole(rt, alloc, source) {
        Ok(read) if read == *digest => Ok(()),
        Ok(_) => Err(HoldFault::Differs),
        Err(fault) => Err(fault),
    }
}
