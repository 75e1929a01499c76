//! Files that are taken into memory if they have the digest that is listed.

ghost use Rattle.std.specs.Prelude.{◌≡◌, ◌≢◌, IfErr, IfOk, IsErrOf, IsTrue, false, length};
ghost use Rattle.sha2.specs.Sha256.{sha256};
ghost use Rattle.iiif_fixity.specs.Faults.{IsHoldFault};

use iiif_source::{MemSource, ReadFault, Source};
use sha2::{Digest, Sha256};
use std::alloc::Global;
use thiserror::Error;

/// Why a file isn't taken into memory.
#[derive(Clone, Copy, Debug, PartialEq, Eq, Error)]
pub enum HoldFault {
    /// It can't be read.
    #[error("{0}")]
    Read(ReadFault),
    /// The bytes that were read don't have the digest that is listed.
    #[error("the file differs from its digest")]
    Differs,
    /// Memory was refused.
    #[error("out of memory")]
    NoMemory,
}

/// Reads a file once, and takes it into memory if the bytes that were read have the digest that is listed. Nothing is assumed of the
/// device: whatever it gave, bytes with another digest are refused.
#[tactic(auto, using(crate::proofs::WholeFiles::all_read, crate::proofs::WholeFiles::all_differs))]
pub fn hold<R, S: Source<R>>(
    rt: &R,
    alloc: Global,
    source: &S,
    digest: &[u8; 32],
) -> Result<MemSource, HoldFault>
    ensures listed { IfOk result (λ s. sha256 s ≡ digest.now) }
    ensures bytes { S.keeps source.now → IfOk result (λ s. s ≡ S.bytes source.now) }
    ensures length { IfOk result (λ s. length s ≡ length (S.bytes source.now)) }
    ensures differs { S.keeps source.now → IsErrOf result HoldFault.Differs → sha256 (S.bytes source.now) ≢ digest.now }
    ensures fault { IfErr result (IsHoldFault (S.gave source.now)) }
{
    let Ok(mut bytes) = vec![in alloc; 0u8; source.len() as usize] else {
        return Err(HoldFault::NoMemory);
    };
    if let Err(fault) = source.read_at(rt, 0, &mut bytes) {
        return Err(HoldFault::Read(fault));
    }
    if !has_digest(bytes.as_slice(), digest) {
        return Err(HoldFault::Differs);
    }
    Ok(MemSource::new(bytes))
}

/// Returns whether bytes have a digest.
fn has_digest(bytes: &[u8], digest: &[u8; 32]) -> bool
    ensures same { IsTrue result → sha256 bytes.now ≡ digest.now }
    ensures other { result ≡ false → sha256 bytes.now ≢ digest.now }
{
    Sha256::digest(bytes) == *digest
}
