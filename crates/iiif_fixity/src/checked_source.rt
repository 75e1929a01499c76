//! A source whose reads are compared with digests.

ghost use Rattle.std.specs.Prelude.{◌≡◌, ◌+◌, ◌-◌, ◌*◌, ◌%◌, ◌<◌, ◌≤◌, ◌||◌, ◌==◌, [], vec_len, length, take, drop, min, IfErr, OnOk};
ghost use Rattle.std.specs.Prelude.{IsTrue, Some};
ghost use Rattle.sha2.specs.Sha256.{sha256};
ghost use Rattle.iiif_source.specs.Cause.{failed, differs};
ghost use Rattle.iiif_fixity.specs.Pieces.{listed, IsPieceOf, IsTold, any_gave};

use crate::pieces::PieceDigests;
use iiif_source::{ReadFault, Runs, Source};
use sha2::{Digest, Sha256};
use std::alloc::Global;

/// A source that reads whole pieces, compares each with its digest, and gives nothing of a piece that differs: that read has the fault
/// [`ReadFault::DIFFERS`]. The list is for one file of one length; a piece that isn't listed differs.
#[derive(Drop)]
pub struct CheckedSource<S> {
    pub inner: S,
    pub pieces: PieceDigests,
}

/// The piece that was read last, and its number, or an empty one. It lives as long as one call.
#[derive(Drop)]
struct Kept {
    number: u64,
    piece: Vec<u8>,
}

impl Kept {
    /// Makes an empty one.
    fn empty(alloc: Global) -> Kept
        ensures { result.piece.items ≡ [] }
    {
        Kept {
            number: 0,
            piece: Vec::new(alloc),
        }
    }
}

impl<S> CheckedSource<S> {
    /// Reads a whole piece, and compares it with its digest. Nothing is assumed of the device: what is given has the digest that is listed.
    pub fn read_piece<R>(&self, rt: &R, number: u64, piece: &mut [u8]) -> Result<(), ReadFault>
    where
        S: Source<R>,
        requires there { number * self.now.pieces.size + length piece.old ≤ length (S.bytes self.now.inner) }
        requires some { 0 < length piece.old }
        ensures length { length piece.new ≡ length piece.old }
        ensures digest { OnOk result (listed self.now.pieces.digests.items number ≡ Some (sha256 piece.new)) }
        ensures read { OnOk result (S.reads self.now.inner (number * self.now.pieces.size) piece.new) }
        ensures fault { IfErr result (λ f.
            IsTrue (any_gave (S.gave self.now.inner) self.now.pieces.size f.cause (length (S.bytes self.now.inner))
            || f.cause == differs)) }
    {
        let _len = self.inner.len();
        let place = number * self.pieces.size as u64;
        if let Err(fault) = self.inner.read_at(rt, place, piece) {
            return Err(fault);
        }
        let digest = Sha256::digest(&*piece);
        if self.pieces.get(number) == Some(&digest) {
            return Ok(());
        }
        Err(ReadFault {
            place,
            cause: ReadFault::DIFFERS,
        })
    }

    /// Brings a piece: finds it kept, or else reads, compares and keeps it.
    fn bring<R>(&self, rt: &R, number: u64, kept: &mut Kept) -> Result<(), ReadFault>
    where
        S: Source<R>,
        requires there { number * self.now.pieces.size < length (S.bytes self.now.inner) }
        requires kept { IsTold (S.reads self.now.inner) self.now.pieces.size self.now.pieces.digests.items (S.bytes self.now.inner) →
            IsPieceOf self.now.pieces.size (S.bytes self.now.inner) kept.old.number kept.old.piece.items }
        ensures kept { IsTold (S.reads self.now.inner) self.now.pieces.size self.now.pieces.digests.items (S.bytes self.now.inner) →
            IsPieceOf self.now.pieces.size (S.bytes self.now.inner) kept.new.number kept.new.piece.items }
        ensures number { OnOk result (kept.new.number ≡ number) }
        ensures length { OnOk result (vec_len kept.new.piece ≡
            min self.now.pieces.size (length (S.bytes self.now.inner) - number * self.now.pieces.size)) }
        ensures fault { IfErr result (λ f.
            IsTrue (any_gave (S.gave self.now.inner) self.now.pieces.size f.cause (length (S.bytes self.now.inner))
            || f.cause == differs || f.cause == failed)) }
    {
        let len = self.inner.len();
        let first = number * self.pieces.size as u64;
        let count = (self.pieces.size as u64).min(len - first) as usize;
        if kept.number == number && kept.piece.len() == count {
            return Ok(());
        }
        let alloc = *self.pieces.digests.allocator();
        let Ok(mut piece) = vec![in alloc; 0u8; count] else {
            return Err(ReadFault {
                place: first,
                cause: ReadFault::FAILED,
            });
        };
        self.read_piece(rt, number, &mut piece)?;
        *kept = Kept { number, piece };
        Ok(())
    }

    /// Reads bytes that lie in one piece.
    fn read_part<R>(
        &self,
        rt: &R,
        at: u64,
        part: &mut [u8],
        kept: &mut Kept,
    ) -> Result<(), ReadFault>
    where
        S: Source<R>,
        requires within { at % self.now.pieces.size + length part.old ≤ self.now.pieces.size }
        requires there { at + length part.old ≤ length (S.bytes self.now.inner) }
        requires some { 0 < length part.old }
        requires kept { IsTold (S.reads self.now.inner) self.now.pieces.size self.now.pieces.digests.items (S.bytes self.now.inner) →
            IsPieceOf self.now.pieces.size (S.bytes self.now.inner) kept.old.number kept.old.piece.items }
        ensures kept { IsTold (S.reads self.now.inner) self.now.pieces.size self.now.pieces.digests.items (S.bytes self.now.inner) →
            IsPieceOf self.now.pieces.size (S.bytes self.now.inner) kept.new.number kept.new.piece.items }
        ensures length { length part.new ≡ length part.old }
        ensures bytes { IsTold (S.reads self.now.inner) self.now.pieces.size self.now.pieces.digests.items (S.bytes self.now.inner) →
            OnOk result (part.new ≡ take (length part.old) (drop at (S.bytes self.now.inner))) }
        ensures fault { IfErr result (λ f.
            IsTrue (any_gave (S.gave self.now.inner) self.now.pieces.size f.cause (length (S.bytes self.now.inner))
            || f.cause == differs || f.cause == failed)) }
    {
        let _len = self.inner.len();
        let number = at / self.pieces.size as u64;
        self.bring(rt, number, kept)?;
        let skip = (at - number * self.pieces.size as u64) as usize;
        part.copy_from_slice(&kept.piece[skip..skip + part.len()]);
        Ok(())
    }

    /// Reads bytes piece by piece, and keeps the last piece, so runs in order read and compare each piece once.
    fn read_with<R>(
        &self,
        rt: &R,
        at: u64,
        buffer: &mut [u8],
        kept: &mut Kept,
    ) -> Result<(), ReadFault>
    where
        S: Source<R>,
        requires there { at + length buffer.old ≤ length (S.bytes self.now.inner) }
        requires kept { IsTold (S.reads self.now.inner) self.now.pieces.size self.now.pieces.digests.items (S.bytes self.now.inner) →
            IsPieceOf self.now.pieces.size (S.bytes self.now.inner) kept.old.number kept.old.piece.items }
        ensures kept { IsTold (S.reads self.now.inner) self.now.pieces.size self.now.pieces.digests.items (S.bytes self.now.inner) →
            IsPieceOf self.now.pieces.size (S.bytes self.now.inner) kept.new.number kept.new.piece.items }
        ensures length { length buffer.new ≡ length buffer.old }
        ensures bytes { IsTold (S.reads self.now.inner) self.now.pieces.size self.now.pieces.digests.items (S.bytes self.now.inner) →
            OnOk result (buffer.new ≡ take (length buffer.old) (drop at (S.bytes self.now.inner))) }
        ensures place { IfErr result (λ f. f.place ≡ at) }
        ensures fault { IfErr result (λ f.
            IsTrue (any_gave (S.gave self.now.inner) self.now.pieces.size f.cause (length (S.bytes self.now.inner))
            || f.cause == differs || f.cause == failed)) }
    {
        let _len = self.inner.len();
        let size = self.pieces.size as u64;
        let mut done = 0;
        while done < buffer.len() {
            let place = at + done as u64;
            let room = size - place % size;
            let count = room.min((buffer.len() - done) as u64) as usize;
            let part = &mut buffer[done..done + count];
            if let Err(fault) = self.read_part(rt, place, part, kept) {
                return Err(ReadFault {
                    place: at,
                    cause: fault.cause,
                });
            }
            done += count;
        }
        Ok(())
    }
}

impl<R, S: Source<R>> Source<R> for CheckedSource<S> {
    ghost bytes = { λ s. S.bytes s.inner };

    ghost keeps = { λ s. IsTold (S.reads s.inner) s.pieces.size s.pieces.digests.items (S.bytes s.inner) };

    ghost gave = { λ s f. any_gave (S.gave s.inner) s.pieces.size f.cause (length (S.bytes s.inner))
        || f.cause == differs || f.cause == failed };

    fn len(&self) -> u64 {
        self.inner.len()
    }

    fn read_at(&self, rt: &R, at: u64, buffer: &mut [u8]) -> Result<(), ReadFault> {
        let mut kept = Kept::empty(*self.pieces.digests.allocator());
        self.read_with(rt, at, buffer, &mut kept)
    }

    fn read_runs(&self, rt: &R, runs: Runs, buffer: &mut [u8]) -> Result<(), ReadFault> {
        let mut kept = Kept::empty(*self.pieces.digests.allocator());
        for j in 0..runs.count {
            let start = j as usize * runs.len;
            let run = &mut buffer[start..start + runs.len];
            let place = runs.at + j as u64 * runs.stride;
            if let Err(fault) = self.read_with(rt, place, run, &mut kept) {
                return Err(fault);
            }
        }
        Ok(())
    }
}
