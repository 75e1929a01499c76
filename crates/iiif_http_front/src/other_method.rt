//! Methods that the server doesn't know.

ghost use Rattle.std.specs.Prelude.{◌≡◌, false, bytes_eq, codes};

/// The name of a method that is neither GET nor HEAD, as the ghost fields say.
#[derive(Drop)]
pub struct OtherMethod {
    /// The name, as the request line spells it. That it is a token (RFC 9110, section 9.1) is known of a call that was read, by its head.
    pub name: Vec<u8>,
    pub ghost not_get: { bytes_eq name.items (codes "GET") ≡ false },
    pub ghost not_head: { bytes_eq name.items (codes "HEAD") ≡ false },
}
