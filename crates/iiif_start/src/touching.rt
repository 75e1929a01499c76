//! Memory that is written to before it is needed.

ghost use Rattle.std.specs.Prelude.{◌≡◌, IfOk};
ghost use Rattle.std.specs.Int.{div_ceil};

use std::alloc::{AllocError, Global};

/// So many bytes are taken at a time.
const PIECE: u64 = 1_048_576;

/// Takes memory in pieces of 1 MiB, as many as hold so many bytes, writes to all of it, and gives it back: how many pieces there were. The
/// system finds pages for it then, and the C library keeps them for later values where what it may keep
/// (`glibc.malloc.trim_threshold`) is more, and takes pieces from one arena.
///
/// # Errors
///
/// Lack of memory; what was taken until then is given back.
pub fn touch(alloc: Global, bytes: u64) -> Result<usize, AllocError>
    ensures { IfOk result (λ n. n ≡ div_ceil bytes 1048576) }
{
    let mut pieces: Vec<Vec<u8>> = Vec::new(alloc);
    for _ in 0..bytes.div_ceil(PIECE) {
        let piece = vec![in alloc; 1u8; PIECE as usize]?;
        pieces.push(piece)?;
    }
    Ok(pieces.len())
}
