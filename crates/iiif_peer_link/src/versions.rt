//! The version of the messages of a key.

ghost use Rattle.std.specs.Prelude.{◌≡◌, ◌+◌};
ghost use Rattle.iiif_keys.specs.Shapes.{version_of};
ghost use Rattle.iiif_peer_wire.specs.Messages.{digit_of};
ghost use Rattle.iiif_peer_link.specs.Versions.{wire_version};

use iiif_peer_wire::Version;
use iiif_pixel::Depth;

/// The version in which the keys and the values of an image of this depth are sent. Its digit is that of the version's number.
pub fn version_for(depth: Depth) -> Version
    ensures version { result ≡ wire_version depth }
    ensures number { digit_of result ≡ 48 + version_of depth }
{
    match depth {
        Depth::Eight => Version::One,
        Depth::Sixteen => Version::Two,
    }
}
