//! Laws of the least rate. The functions compute nothing: their contracts are the laws.

ghost use Rattle.iiif_listener.specs.Flow.{IsAlwaysCutBelow, IsNeverCutAbove};

/// Shows that a viewer who takes an answer at the rate or faster is never cut for it.
pub fn is_never_cut_above()
    ensures { IsNeverCutAbove }
{}

/// Shows that a slower one holds its place no longer than a period and a write, however it reads.
pub fn is_always_cut_below()
    ensures { IsAlwaysCutBelow }
{}
