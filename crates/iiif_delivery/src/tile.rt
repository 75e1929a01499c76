//! Sending of images that are a tile as it stands.

ghost use Rattle.std.specs.Prelude.{◌≡◌, ◌*◌, ◌^◌, ◌<◌, ◌++◌, IfOk, length};
ghost use Rattle.iiif_tiff_write.specs.File.{file_len, head_of};
ghost use Rattle.iiif_delivery.specs.Code.{IsInBytes, SendsRaster, SendsTile};
ghost use Rattle.iiif_delivery.specs.Delivery.{MaySend};

use crate::delivery::{Delivered, Stopped};
use crate::sending::Sending;
use iiif_assemble::{Items, RenderContext, lone_tile};
use iiif_io::{Outlet, send_both};
use iiif_keys::{Fault, SumKey, SumVal, TileKey, TileVal};
use iiif_pixel::{Dim, NoMemory, Raster, Span};
use iiif_tiff_write::{OutKind, byte_rows, head};
use std::alloc::Global;
use std::sync::Wait;
use std::thread::Threads;

/// Joins a text and the head of a file.
fn front(alloc: Global, start: &[u8], kind: OutKind, dim: Dim) -> Result<Vec<u8>, NoMemory>
    requires { file_len kind dim < 2 ^ 32 }
    ensures { IfOk result (λ v. v.items ≡ start.now ++ head_of kind dim) }
{
    let head = head(kind, dim);
    let mut text = Vec::from_slice(alloc, start)?;
    text.extend_from_slice(head.as_slice())?;
    Ok(text)
}

/// Sends a text and a picture's file behind it, whose samples go out as they stand, in one write with the heads where the writer takes two
/// texts at once. Says how many bytes were sent.
fn send_raster<W: Outlet>(
    alloc: Global,
    out: &mut W,
    start: &[u8],
    kind: OutKind,
    raster: &Raster,
) -> Result<u64, Stopped>
    requires { IsInBytes kind raster.now }
    ensures { SendsRaster W.contents W.fails start.now kind raster.now out.old out.new result }
{
    let rows = byte_rows(raster, kind);
    let Ok(text) = front(alloc, start, kind, raster.dim()) else {
        return Err(Stopped::Load(0, Fault::NoMemory));
    };
    match send_both(out, &text, rows) {
        Ok(()) => Ok(text.len() as u64 + rows.len() as u64),
        Err(sent) => Err(Stopped::Writer(sent)),
    }
}

/// Counts the samples of a picture.
fn count_samples(raster: &Raster) -> u64
    ensures count { result ≡ raster.now.width * raster.now.height * raster.now.channels }
    ensures small { result < 2 ^ 63 }
{
    match raster.samples() {
        Span::Eight(samples) => samples.len() as u64,
        Span::Sixteen(samples) => samples.len() as u64,
    }
}

/// Sends the image of a job behind a text where it is a tile of 8 bits as it stands: the tile's samples are its rows in the file. None
/// where it is no such tile; nothing was sent then.
pub(crate) fn send_tile<
    A: Items<TileKey, TileVal, P, R> + Sync,
    B: Items<SumKey, SumVal, P, R>,
    P: Send,
    R: Threads + Wait + Sync,
    W: Outlet,
>(
    context: &RenderContext<'_, A, B, R>,
    passes: &mut [P],
    sending: &Sending<'_>,
    out: &mut W,
) -> Option<Result<Delivered, Stopped>>
    requires some { 0 < length passes.old }
    requires sending { MaySend A.Items B.Items context.now sending.now }
    ensures { SendsTile A.Items context.now.tiles.now sending.now W.contents W.fails out.old out.new result }
{
    match sending.kind {
        OutKind::Gray | OutKind::Rgb => {}
        OutKind::Bitonal | OutKind::Gray16 | OutKind::Rgb16 => return None,
    }
    let (job, rows) = (sending.job, sending.rows);
    let tile = match lone_tile(context.rt, context.alloc, context.tiles, passes, job, rows) {
        Ok(found) => found?,
        Err(fault) => return Some(Err(Stopped::Load(0, fault))),
    };
    let raster = &tile.raster;
    let dim = raster.dim();
    let kept = count_samples(raster);
    let held = u64::from(rows.min(dim.h)) * u64::from(dim.w) * job.shape.kind.channels() as u64;
    // The samples are no copy.
    let front = head(sending.kind, dim);
    let buffered = sending.start.len() as u64 + front.as_slice().len() as u64;
    match send_raster(context.alloc, out, sending.start, sending.kind, raster) {
        Ok(bytes) => Some(Ok(Delivered {
            bytes,
            held,
            kept,
            buffered,
        })),
        Err(stopped) => Some(Err(stopped)),
    }
}
