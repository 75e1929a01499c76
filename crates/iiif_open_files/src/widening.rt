//! How much more than what is asked for is read.

ghost use Rattle.std.specs.Prelude.{◌≡◌, ◌+◌, ◌*◌, ◌^◌, ◌<◌, ◌≤◌, IfSome};
ghost use Rattle.iiif_source.specs.Runs.{AreIn};
ghost use Rattle.iiif_open_files.specs.Rows.{AreWider, room_of};

use iiif_source::Runs;

/// So many rows are few. More of them are kept, and each time fewer bytes: a tile of a file in short strips has many such.
pub const FEW: u32 = 16;

/// So many bytes are read ahead at most.
const ROOM: u64 = 1_048_576;

/// So many bytes of few rows.
const ROOM_OF_FEW: u64 = 65_536;

/// So many runs beside one another are read at once.
const BESIDE: u64 = 8;

/// Where rows are at most so many times as long as the runs, whole rows are read, all by one read.
const NARROW: u64 = 16;

/// So are rows of at most so many bytes: to copy them costs less than a read a row.
const SHORT: u64 = 4_096;

/// How many bytes so many rows have together at most.
fn room_for(count: u32) -> u64
    ensures { result ≡ room_of count }
{
    if count > FEW { ROOM } else { ROOM_OF_FEW }
}

/// How many bytes of each row are read: the whole row where it is short and all rows have room, else several runs' bytes. `left` is
/// how many bytes the source has from the last run's place on.
fn width_of(runs: Runs, left: u64) -> u64
    requires count { 0 < runs.count }
    requires len { (0 < runs.len) × (runs.len ≤ runs.stride) × (runs.stride ≤ 2 ^ 23) }
    ensures row { result ≤ runs.stride }
    ensures left { result ≤ left }
    ensures room { runs.count * result ≤ room_of runs.count }
{
    let len = runs.len as u64;
    let most = left
        .min(room_for(runs.count) / runs.count as u64)
        .min(runs.stride);
    if runs.stride <= (NARROW * len).max(SHORT) && most == runs.stride {
        return most;
    }
    most.min(BESIDE * len) / len * len
}

/// Longer runs at the same places of a source of so many bytes, where there is room for longer ones. None where the runs are one, or
/// lie together.
pub fn wider(runs: Runs, source: u64) -> Option<Runs>
    requires { AreIn source runs }
    ensures { IfSome result (AreWider source runs) }
{
    if runs.count < 2 || runs.len == 0 || runs.len as u64 >= runs.stride {
        return None;
    }
    let last = runs.at + (runs.count - 1) as u64 * runs.stride;
    let width = width_of(runs, source - last);
    if width <= runs.len as u64 {
        return None;
    }
    Some(Runs {
        at: runs.at,
        stride: runs.stride,
        len: width as usize,
        count: runs.count,
    })
}
