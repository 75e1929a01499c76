//! A law of every message. The function computes nothing: its contract is the law.

ghost use Rattle.iiif_peer_wire.specs.Reading.{RefusesOtherVersions};

/// So a node never takes a reply of one version for a reply of the other.
pub fn other_versions_are_refused()
    ensures { RefusesOtherVersions }
{}
