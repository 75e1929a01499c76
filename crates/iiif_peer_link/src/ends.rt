//! How an ask ended, as the link takes it in.

ghost use Rattle.std.specs.Prelude.{◌≡◌};
ghost use Rattle.iiif_peer_link.specs.Ends.{ask_end};

use iiif_breaker::Outcome;
use iiif_group::LinkFault;
use iiif_peer_wire::WireFault;

/// Returns the outcome of an ask for the breaker, `late` where its time was over. A node that refuses is there. Lack of memory here says
/// nothing of it.
pub fn outcome_of<V>(came: &Result<V, LinkFault>, late: bool) -> Option<Outcome>
    ensures { result ≡ ask_end came.now late }
{
    match came {
        Ok(_) => Some(Outcome::Answered),
        Err(LinkFault::Refused(_)) => Some(Outcome::Refused),
        Err(LinkFault::Wire(WireFault::NoMemory)) => None,
        Err(_) if late => Some(Outcome::TimedOut),
        Err(_) => Some(Outcome::Failed),
    }
}
