//! Sending of images.

ghost use Rattle.std.specs.Prelude.{◌≡◌, ◌+◌, ◌*◌, ◌<◌, ◌≤◌, ◌⊎◌, ℕ, [], ◌++◌, ◌^◌, min, IfOk, IfErr, IfSome, IsNone, OnOk, length};
ghost use Rattle.std.specs.Io.KnownBytes.{Appends};
ghost use Rattle.iiif_io.specs.Sending.{WasCut};
ghost use Rattle.iiif_tiff_write.specs.File.{file_len, head_of, row_len, strip_offset};
ghost use Rattle.iiif_delivery.specs.Code.{StopsFor};
ghost use Rattle.iiif_delivery.specs.Delivery.{FailsIn, IsBufferedIn, IsHeldIn, IsKeptIn, MaySend, NeedsBands, Sends, SendsWhole};
ghost use Rattle.iiif_delivery.specs.Delivery.{StopsWithin};
ghost use Rattle.iiif_delivery.specs.declared.delivery.Stopped.TheVariants.{Writer};

use crate::admission::Admission;
use crate::rows::{BandError, laws_of_bands, make_band};
use crate::sending::Sending;
use crate::tile::send_tile;
use iiif_assemble::{Items, RenderContext};
use iiif_io::{Outlet, check_connected, send};
use iiif_keys::{Fault, SumKey, SumVal, TileKey, TileVal};
use iiif_pixel::{Dim, NoMemory};
use iiif_tiff_write::{OutKind, head, total_len};
use std::alloc::Global;
use std::sync::Wait;
use std::thread::Threads;

/// An image that was sent whole.
#[derive(Clone, Copy, PartialEq, Eq)]
pub struct Delivered {
    /// How many bytes were written.
    pub bytes: u64,
    /// How many samples and sums of the image were held at once, at most.
    pub held: u64,
    /// How many shared values' samples and sums were kept beside these at once, at most: sums of blocks that have places of several bands,
    /// or the samples of the tile that is the image as it stands.
    pub kept: u64,
    /// How many bytes of the answer were buffered at once, at most.
    pub buffered: u64,
}

/// Why an image wasn't sent whole, and how many bytes were written before.
#[derive(Clone, Copy, PartialEq, Eq)]
pub enum Stopped {
    /// The writer failed.
    Writer(u64),
    /// A band could not be made. Where it was the first, nothing was written.
    Load(u64, Fault),
}

/// How many bytes of rows are buffered before they are sent, so that a small image takes one write.
const PIECE: usize = 65_536;

/// Computes for how many bytes room is made where a file is sent in bands of `rows`: for all of a small file, else for its head, and for a
/// band behind the rows that wait.
fn room(kind: OutKind, dim: Dim, rows: u32) -> usize
    requires { file_len kind dim < 2 ^ 32 }
    ensures small { result ≤ file_len kind dim }
    ensures bounded { result ≤ PIECE + (strip_offset kind + row_len kind dim.w * min rows dim.h) }
    ensures enough { (result ≡ file_len kind dim) ⊎ (strip_offset kind + row_len kind dim.w * min rows dim.h ≤ result) }
{
    let first = Dim {
        w: dim.w,
        h: rows.min(dim.h),
    };
    let band = total_len(kind, first) as usize;
    // No rows wait where each band goes out by itself.
    let most = if band < PIECE { PIECE + band } else { band };
    most.min(total_len(kind, dim) as usize)
}

/// Makes the text that stands before the rows: the head of an answer, and that of the file. It has room for the rows, so that bytes needn't
/// be moved as more come.
fn front(alloc: Global, sending: &Sending<'_>, dim: Dim) -> Result<Vec<u8>, NoMemory>
    requires { file_len sending.now.kind dim < 2 ^ 32 }
    ensures { IfOk result (λ v. v.items ≡ sending.now.start.now ++ head_of sending.now.kind dim) }
{
    let mut text = Vec::from_slice(alloc, sending.start)?;
    text.reserve_exact(room(sending.kind, dim, sending.rows))?;
    text.extend_from_slice(head(sending.kind, dim).as_slice())?;
    Ok(text)
}

/// Flushes the buffered text, which is empty then. Says how many bytes were sent in all, with those `sent` before it.
fn flush<W: Outlet>(out: &mut W, text: &mut Vec<u8>, sent: u64) -> Result<u64, Stopped>
    requires { sent + length text.old.items < 2 ^ 64 }
    ensures count { IfOk result (λ n. n ≡ sent + length text.old.items) }
    ensures none { OnOk result (text.new.items ≡ []) }
    ensures whole { OnOk result (Appends (W.contents out.old) (W.contents out.new) text.old.items) }
    ensures cut { IfErr result (λ s. (m : ℕ) × (s ≡ Writer (sent + m)) × WasCut W.contents W.fails out.old out.new text.old.items m) }
{
    match send(out, text) {
        Ok(()) => {
            let all = sent + text.len() as u64;
            text.clear();
            Ok(all)
        }
        Err(more) => Err(Stopped::Writer(sent + more)),
    }
}

/// Ends a sending where a band can't be made, and says why it stopped. Before any was made nothing is written, else the buffered text.
fn stop<W: Outlet>(out: &mut W, text: &mut Vec<u8>, sent: u64, held: u64, fault: Fault) -> Stopped
    requires { sent + length text.old.items < 2 ^ 64 }
    ensures { StopsFor W.contents W.fails out.old out.new text.old.items sent held fault result }
{
    if held == 0 {
        return Stopped::Load(sent, fault);
    }
    match flush(out, text, sent) {
        Ok(all) => Stopped::Load(all, fault),
        Err(stopped) => stopped,
    }
}

/// Sends an image that is a tile of 8 bits as it stands, as `send_image` does. None where it is no such tile; nothing was sent then.
fn send_lone<
    A: Items<TileKey, TileVal, P, R> + Sync,
    B: Items<SumKey, SumVal, P, R>,
    P: Send,
    R: Threads + Wait + Sync,
    W: Outlet,
>(
    context: &RenderContext<'_, A, B, R>,
    passes: &mut [P],
    sending: &Sending<'_>,
    out: &mut W,
) -> Option<Result<Delivered, Stopped>>
    requires some { 0 < length passes.old }
    requires sending { MaySend A.Items B.Items context.now sending.now }
    ensures none { IsNone result → out.new ≡ out.old }
    ensures bands { IsNone result → NeedsBands sending.now }
    ensures sent { IfSome result (Sends A.Items B.Items context.now sending.now W.contents W.fails out.old out.new) }
{
    // Laws of pictures and of files.
    laws_of_bands();
    match send_tile(context, passes, sending, out) {
        Some(result) => Some(result),
        None => None,
    }
}

/// Sends an image in bands, as `send_image` does where it is not a tile as it stands.
fn send_bands<
    A: Items<TileKey, TileVal, P, R> + Sync,
    B: Items<SumKey, SumVal, P, R> + Admission<R> + Sync,
    P: Send,
    R: Threads + Wait + Sync,
    W: Outlet,
>(
    context: &RenderContext<'_, A, B, R>,
    passes: &mut [P],
    sending: &Sending<'_>,
    out: &mut W,
) -> Result<Delivered, Stopped>
    requires some { 0 < length passes.old }
    requires sending { MaySend A.Items B.Items context.now sending.now }
    requires bands { NeedsBands sending.now }
    ensures whole { IfOk result (SendsWhole A.Items B.Items context.now sending.now W.contents out.old out.new) }
    ensures held { IfOk result (IsHeldIn sending.now) }
    ensures kept { IfOk result (IsKeptIn A.Items B.Items context.now sending.now) }
    ensures buffered { IfOk result (IsBufferedIn sending.now) }
    ensures stopped { IfErr result (StopsWithin A.Items B.Items context.now sending.now W.contents W.fails out.old out.new) }
    ensures fault { IfErr result (FailsIn A.Items B.Items context.now sending.now) }
{
    // Laws of bands.
    laws_of_bands();
    let dim = sending.job.resolved.size.turned(sending.job.resolved.turn);
    let Ok(mut text) = front(context.alloc, sending, dim) else {
        return Err(Stopped::Load(0, Fault::NoMemory));
    };
    let mut sent = 0u64;
    let mut held = 0u64;
    let mut most_kept = 0u64;
    let mut buffered = 0u64;
    let mut kept = Vec::new(context.alloc);
    for i in 0..sending.job.band_count(sending.rows) {
        // We check for client disconnects between bands. Where no rows wait, some were just written.
        if let Err(more) = check_connected(out, &text) {
            return Err(Stopped::Writer(sent + more));
        }
        match make_band(context, passes, sending, i, out, &mut kept, &mut text) {
            Ok(counts) => {
                held = held.max(counts.held);
                most_kept = most_kept.max(counts.kept);
            }
            Err(BandError::Disconnected) => return Err(Stopped::Writer(sent)),
            Err(BandError::Faulted(fault)) => return Err(stop(out, &mut text, sent, held, fault)),
        }
        buffered = buffered.max(text.len() as u64);
        if text.len() >= PIECE {
            match flush(out, &mut text, sent) {
                Ok(all) => sent = all,
                Err(stopped) => return Err(stopped),
            }
        }
    }
    match flush(out, &mut text, sent) {
        Ok(bytes) => Ok(Delivered {
            bytes,
            held,
            kept: most_kept,
            buffered,
        }),
        Err(stopped) => Err(stopped),
    }
}

/// Sends the image of a job behind a text, in bands: each is made, and dropped but for its rows in the file before the next is made. The
/// text goes out with the rows of the first, and rows once they take 64 KiB, or where a band that follows can't be made. There is
/// a worker for each pass, and which of them asks for an item changes nothing.
///
/// An image of 8 bits that is a tile as it stands is not made in bands: the tile's samples are its rows, and go out as they are. Then
/// `held` counts a band of them, and `kept` all.
///
/// Of an image that is made of blocks, the sums of those of a band are kept until those of the next are asked for, of 64 at most. None is
/// asked for before its band is made. Before some are, the job waits until it is admitted, and checks meanwhile whether its client has
/// disconnected.
///
/// # Errors
///
/// The first fault of a band, the writer's, or `NoMemory`.
pub fn send_image<
    A: Items<TileKey, TileVal, P, R> + Sync,
    B: Items<SumKey, SumVal, P, R> + Admission<R> + Sync,
    P: Send,
    R: Threads + Wait + Sync,
    W: Outlet,
>(
    context: &RenderContext<'_, A, B, R>,
    passes: &mut [P],
    sending: &Sending<'_>,
    out: &mut W,
) -> Result<Delivered, Stopped>
    requires some { 0 < length passes.old }
    requires sending { MaySend A.Items B.Items context.now sending.now }
    ensures { Sends A.Items B.Items context.now sending.now W.contents W.fails out.old out.new result }
{
    match send_lone(context, passes, sending, out) {
        Some(result) => result,
        None => send_bands(context, passes, sending, out),
    }
}
