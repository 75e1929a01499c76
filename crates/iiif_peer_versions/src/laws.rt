//! Laws of every key that is spelled with a version. The functions compute nothing: the contract of each is a law.

ghost use Rattle.iiif_peer_versions.specs.Laws.{KeysStayApart, PlainIsAsItIs, PlainIsRepliedTo, VersionsStayApart};

use iiif_peer_wire::Answers;

/// So two nodes that read the same bytes read the same key, and have the same version of its image's file, whatever names their images
/// have: also where a name itself ends in such digits.
pub fn keys_stay_apart()
    ensures { KeysStayApart }
{}

/// So files of other lengths, or that were changed at other times, have other digits.
pub fn versions_stay_apart()
    ensures { VersionsStayApart }
{}

/// So nodes that are told nothing of versions spell keys as they are, byte for byte.
pub fn plain_is_as_it_is()
    ensures { PlainIsAsItIs }
{}

/// So they reply to them as who answers does, and to no other asks.
pub fn plain_is_replied_to<R, P, A: Answers<R, P>>(_service: &A)
    ensures { PlainIsRepliedTo (A.answers _service.now) }
{}
