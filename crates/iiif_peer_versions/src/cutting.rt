//! Names in front of the bytes of keys.

ghost use Rattle.std.specs.Prelude.{◌≡◌, ℕ, ◌+◌, ◌<◌, ◌≤◌, ◌++◌, List, IfNone, IfOk, IfSome, length, take};
ghost use Rattle.std.specs.Int.{w16, from_be_bytes};
ghost use Rattle.iiif_keys.specs.Bytes.{name_bytes};
ghost use Rattle.iiif_keys.specs.Reading.{behind_name, name_at, name_len};

use std::alloc::{AllocError, Global};

/// The number of the first two bytes.
fn len_of(bytes: &[u8]) -> usize
    requires { 2 ≤ length bytes.now }
    ensures { result ≡ name_len bytes.now }
{
    let b = &bytes[..2];
    usize::from(u16::from_be_bytes([b[0], b[1]]))
}

/// The name that stands in front, and the bytes behind it. None where no name does, as long as its first two bytes say.
pub fn cut_name(bytes: &[u8]) -> Option<(&[u8], &[u8])>
    ensures whole { IfSome result (λ parts. bytes.now ≡ name_bytes parts.0.now ++ parts.1.now) }
    ensures within { IfSome result (λ parts. length parts.0.now < 65536) }
    ensures none { IfNone result ((name rest : List ℕ) → length name < 65536 → bytes.now ≡ name_bytes name ++ rest → ⊥) }
{
    if bytes.len() < 2 {
        return None;
    }
    let len = len_of(bytes);
    let (_, behind) = bytes.split_at(2);
    if behind.len() < len {
        return None;
    }
    Some(behind.split_at(len))
}

/// A text without its last 32 bytes, and these. None where it is shorter.
pub fn cut_digits(text: &[u8]) -> Option<(&[u8], &[u8])>
    ensures whole { IfSome result (λ parts. text.now ≡ parts.0.now ++ parts.1.now) }
    ensures size { IfSome result (λ parts. length parts.1.now ≡ 32) }
    ensures none { IfNone result (length text.now < 32) }
{
    let len = text.len().checked_sub(32)?;
    Some(text.split_at(len))
}

/// The bytes of a key that begins with a name, which these follow. The only error is lack of memory.
pub fn join(alloc: Global, name: &[u8], rest: &[u8]) -> Result<Vec<u8>, AllocError>
    requires { length name.now < 65536 }
    ensures { IfOk result (λ key. key.items ≡ name_bytes name.now ++ rest.now) }
{
    let mut key = Vec::new(alloc);
    key.extend_from_slice(&(name.len() as u16).to_be_bytes())?;
    key.extend_from_slice(name)?;
    key.extend_from_slice(rest)?;
    Ok(key)
}
