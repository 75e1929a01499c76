//! The messages between nodes, how they are read, and which node owns a key. Digests and owners were computed by Python's `hashlib`.
#![tactic(auto, unfolding(crate::proofs::Computing::wire))]

ghost use Rattle.std.specs.Prelude.{◌≡◌, ℕ, List, ◌-◌, ◌^◌, ◌++◌, codes, take, None, Some, Ok, Err, [], ◌∷◌};
ghost use Rattle.iiif_peer_wire.specs.Messages.{ask_text, reply_text};
ghost use Rattle.iiif_peer_wire.specs.Reading.{ask_at, reply_at};
ghost use Rattle.iiif_peer_wire.specs.declared.fault.WireFault.TheVariants.{Digest, Key, Long, Magic, Short, Status};
ghost use Rattle.iiif_peer_wire.specs.declared.version.Version.TheVariants.{One, Two};
ghost use Rattle.iiif_ring.specs.Owner.{IsOwner, distance, point};
ghost use Rattle.iiif_examples.specs.Files.{with_byte};
ghost use Rattle.iiif_examples.specs.Keys.{tile_bytes};
ghost use Rattle.iiif_examples.specs.Messages.{ask, reply, reply_front};

/// Writes IGA1, the group and the key behind its length; of 16 bits IGA2.
pub fn asks_have_these_bytes()
    ensures one { ask_text One 1 tile_bytes ≡ ask }
    ensures two { take 5 (ask_text Two 2 tile_bytes) ≡ 73 ∷ 71 ∷ 65 ∷ 50 ∷ 2 ∷ [] }
{}

/// Reads an ask, and leaves what stands behind it. Bytes that end inside it are short, a group of 3 is none, and a key has at most 4,096
/// bytes.
pub fn asks_are_read_field_by_field()
    ensures whole { ask_at (ask ++ 73 ∷ []) ≡ Ok (Some (One, (1, tile_bytes)), 73 ∷ []) }
    ensures end { ask_at [] ≡ Ok (None, []) }
    ensures cut { ask_at (take 1 ask) ≡ Err Short }
    ensures cut_late { ask_at (take 23 ask) ≡ Err Short }
    ensures magic { ask_at (with_byte 3 51 ask) ≡ Err Magic }
    ensures group { ask_at (with_byte 4 3 ask) ≡ Err Magic }
    ensures long { ask_at (73 ∷ 71 ∷ 65 ∷ 49 ∷ 1 ∷ 0 ∷ 0 ∷ 16 ∷ 1 ∷ []) ≡ Err Long }
{}

/// Writes the key, the status, the value and the digest of key and value.
pub fn reply_has_these_bytes()
    ensures { reply_text One tile_bytes 0 (1 ∷ 2 ∷ 3 ∷ []) ≡ reply }
{}

/// Reads the reply for the key that was asked. Another version and another key are refused, a status above 4, a fault with a value, a value
/// of 67,108,865 bytes, and one of which a byte was changed.
pub fn replies_are_read_field_by_field()
    ensures whole { reply_at One tile_bytes reply ≡ Ok ((0, 1 ∷ 2 ∷ 3 ∷ []), []) }
    ensures version { reply_at Two tile_bytes reply ≡ Err Magic }
    ensures key { reply_at One (with_byte 2 98 tile_bytes) reply ≡ Err Key }
    ensures status { reply_at One tile_bytes (reply_front ++ 5 ∷ []) ≡ Err Status }
    ensures fault_with_value { reply_at One tile_bytes (reply_front ++ 2 ∷ 0 ∷ 0 ∷ 0 ∷ 1 ∷ 9 ∷ []) ≡ Err Status }
    ensures long { reply_at One tile_bytes (reply_front ++ 0 ∷ 4 ∷ 0 ∷ 0 ∷ 1 ∷ []) ≡ Err Long }
    ensures changed { reply_at One tile_bytes (with_byte 29 3 reply) ≡ Err Digest }
    ensures cut { reply_at One tile_bytes (take 62 reply) ≡ Err Short }
{}

/// Hashes `11x` for replica 11 of `x` and for replica 1 of `1x`. Behind the last place of the ring comes the first.
pub fn two_names_may_share_a_point()
    ensures shared { point (codes "x") 11 ≡ point (codes "1x") 1 }
    ensures round { distance 3 5 ≡ 2 ^ 64 - 2 }
    ensures ahead { distance 5 3 ≡ 2 }
{}

/// Gives the first tile's key to `q`, whose replica 5 comes next behind it. A key behind the last point goes to the first, replica 29 of
/// `m`. Where replica 31 of `x` and replica 3 of `1x` come next at one point, both being `31x`, the name that is smaller by its bytes owns
/// the key. One name owns every key.
pub fn owner_has_the_next_point()
    ensures next { IsOwner (codes "p" ∷ codes "q" ∷ []) tile_bytes (codes "q") }
    ensures round { IsOwner (codes "n" ∷ codes "m" ∷ []) (codes "wrap-80") (codes "m") }
    ensures tied { IsOwner (codes "x" ∷ codes "1x" ∷ []) (with_byte 10 6 tile_bytes) (codes "1x") }
    ensures alone { (key : List ℕ) → IsOwner (codes "n" ∷ []) key (codes "n") }
{}
