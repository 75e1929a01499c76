//! A checked source over a device that turns bits: its premise holds, though the device doesn't keep its bytes.

ghost use Rattle.std.specs.Prelude.{◌≡◌, take, IfOk, IfSome};
ghost use Rattle.iiif_fixity.specs.Pieces.{IsTold};
ghost use Rattle.iiif_witnesses.specs.Flips.{six, IsReadOf};

use crate::flipping::Flipping;
use iiif_fixity::{CheckedSource, PieceDigests};
use iiif_source::Source;
use sha2::{Digest, Sha256};
use std::alloc::{AllocError, Global};

/// Makes a source of six bytes on a device that turns bits, checked in pieces of four.
pub fn check_flipping(alloc: Global) -> Result<CheckedSource<Flipping>, AllocError>
    ensures bytes { IfOk result (λ s. s.inner ≡ six) }
    ensures told { IfOk result (λ s. IsTold (IsReadOf s.inner) s.pieces.size s.pieces.digests.items s.inner) }
    ensures premise { IfOk result (λ s. ⟦<CheckedSource<Flipping> as Source<Global>>⟧.keeps s) }
    ensures no_premise { IfOk result (λ s. ⟦<Flipping as Source<Global>>⟧.keeps s.inner → ⊥) }
{
    let mut digests = Vec::new(alloc);
    digests.push(Sha256::digest(&[1u8, 2, 3, 4]))?;
    digests.push(Sha256::digest(&[5u8, 6]))?;
    let bytes = vec![in alloc; 1u8, 2, 3, 4, 5, 6]?;
    Ok(CheckedSource {
        inner: Flipping::new(bytes),
        pieces: PieceDigests { size: 4, digests },
    })
}

/// Reads the first four bytes of that device, again where the first read is at fault. They are given as they are, or not at all: no premise
/// is left.
pub fn read_four(alloc: Global) -> Option<[u8; 4]>
    ensures { IfSome result (λ four. four ≡ take 4 six) }
{
    let source = check_flipping(alloc).ok()?;
    let mut four = [0u8; 4];
    let _turned = source.read_at(&alloc, 0, &mut four);
    source.read_at(&alloc, 0, &mut four).ok()?;
    Some(four)
}
