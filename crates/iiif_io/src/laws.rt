//! Laws of writers. The functions compute nothing: their contracts are the laws.

ghost use Rattle.iiif_io.specs.Sending.{TakesWhatFits};

/// States that a text for which a [`FixedBuffer`](crate::FixedBuffer) has room is sent whole.
pub fn takes_what_fits<const ROOM: usize>()
    ensures { TakesWhatFits ROOM }
{}
