//! Links to other nodes.

ghost use Rattle.std.specs.Prelude.{◌≡◌, IfOk, IsTrue, Result};
ghost use Rattle.iiif_keys.specs.Shapes.{HasPicture};
ghost use Rattle.iiif_group.specs.declared.link.LinkFault.{LinkFault};

use iiif_fault::Numbered;
use iiif_keys::{CacheKey, Shape, System};
use iiif_peer_wire::WireFault;
use thiserror::Error;

/// Fault of asking another node.
#[derive(Clone, Copy, Debug, PartialEq, Eq, Error)]
pub enum LinkFault {
    /// The ask wasn't written, or no reply of the key was read. Where there is no connection it is `Io`.
    #[error("no reply of the key was read")]
    Wire(WireFault),
    /// The node refused, with this status.
    #[error("the node refused")]
    Refused(u8),
    /// The reply's value was none of the key's kind.
    #[error("the reply's value is none of the key")]
    Value,
}

impl Numbered for LinkFault {
    ghost use Rattle.iiif_group.specs.Faults.{link_fault_number};

    ghost number_of = { link_fault_number };

    fn number(&self) -> u8 {
        match self {
            LinkFault::Wire(_) => 1,
            LinkFault::Refused(_) => 2,
            LinkFault::Value => 3,
        }
    }
}

/// Link to another node. R is the runtime over which it asks.
pub trait Link<K: CacheKey, J: System, R> {
    /// The replies of this link: asked for this key, it gave this one, right or wrong. No premise stands before it.
    ghost replied: { Self → K → Result K.Value LinkFault → Type 0 } = { λ _ _ _. Unit {0} };

    /// Asks the node that owns a key for its value; the key fits an image of this shape. The value is the key's meaning where the
    /// image's bytes are stable and other nodes are honest. The caller checks its shape.
    fn ask(&self, rt: &R, key: &K, shape: &Shape) -> Result<K::Value, LinkFault>
        requires known { HasPicture J.pictures (K.name_of key.now) shape.now }
        requires fits { K.fits_in shape.now key.now }
        ensures meant { J.stable (K.name_of key.now) → IsTrue J.honest → IfOk result (λ v. v ≡ K.meaning J.pictures key.now) }
        ensures reply { replied self.now key.now result };
}

/// Link to no node: it refuses with status 3, that no image has the name.
#[derive(Clone, Copy, Drop)]
pub struct NoLink;

impl<K: CacheKey, J: System, R> Link<K, J, R> for NoLink {
    fn ask(&self, _rt: &R, _key: &K, _shape: &Shape) -> Result<K::Value, LinkFault> {
        Err(LinkFault::Refused(3))
    }
}
