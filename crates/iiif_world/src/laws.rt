//! The law of lists of events. The function computes nothing: its contract is the law.

ghost use Rattle.iiif_world.specs.Stepping.{RunsCompose};

/// A list of events may go on where another ended: together they make what the other makes of the first one's world.
#[tactic(auto, using(crate::proofs::Run::runs_compose))]
pub fn lists_go_on()
    ensures { RunsCompose }
{}
