//! Keys with versions of files in them, as they are spelled between nodes.

ghost use Rattle.std.specs.Prelude.{◌≡◌, ◌≢◌, ◌≤◌, ◌++◌, List, ℕ, IfNone, IfOk, IfSome, false, length, true};
ghost use Rattle.iiif_keys.specs.Bytes.{name_bytes};
ghost use Rattle.iiif_peer_versions.specs.Digits.{name_limit};
ghost use Rattle.iiif_peer_wire.specs.Messages.{key_limit};

use crate::cutting::{cut_digits, cut_name, join};
use crate::file_versions::FileVersions;
use std::alloc::{AllocError, Global};
use std::str;

/// The most bytes of a key on the wire.
const KEY_LIMIT: usize = 4_096;

/// Whether a version's digits are these.
fn is_same(own: &[u8; 32], digits: &[u8]) -> bool
    ensures same { result ≡ true → own.now ≡ digits.now }
    ensures other { result ≡ false → own.now ≢ digits.now }
{
    own.as_slice() == digits
}

impl FileVersions {
    ghost use Rattle.iiif_peer_versions.specs.Keys.{IsWireOf};
    ghost use Rattle.iiif_peer_versions.specs.Told.{told};

    /// The key with the version of its image's file behind the name. None where no version is known of it, the name has no room for one, or
    /// the key has none then. The only error is lack of memory.
    pub fn put_on(&self, alloc: Global, key: &[u8]) -> Result<Option<Vec<u8>>, AllocError>
        ensures spelled { IfOk result (λ found. IfSome found (λ wire. IsWireOf (told self.now) key.now wire.items)) }
        ensures within { IfOk result (λ found. IfSome found (λ wire. length wire.items ≤ key_limit)) }
    {
        let Some((name, rest)) = cut_name(key) else {
            return Ok(None);
        };
        let Some(digits) = self.told_of(name) else {
            return Ok(None);
        };
        let mut text = Vec::from_slice(alloc, name)?;
        text.extend_from_slice(&digits)?;
        let wire = join(alloc, text.as_slice(), rest)?;
        if wire.len() > KEY_LIMIT {
            return Ok(None);
        }
        Ok(Some(wire))
    }

    /// The name of a key that has this image's version behind it, and the bytes behind that. None where the version is another.
    pub fn cut_own<'w>(&self, wire: &'w [u8]) -> Option<(&'w [u8], &'w [u8])>
        ensures own { IfSome result (λ parts. IsWireOf (told self.now) (name_bytes parts.0.now ++ parts.1.now) wire.now) }
        ensures short { IfSome result (λ parts. length parts.0.now ≤ name_limit) }
        ensures none { IfNone result ((key : List ℕ) → IsWireOf (told self.now) key wire.now → ⊥) }
    {
        let (text, rest) = cut_name(wire)?;
        let (name, digits) = cut_digits(text)?;
        let Some(own) = self.told_of(name) else {
            return None;
        };
        if is_same(&own, digits) {
            return Some((name, rest));
        }
        None
    }

    /// The key that is spelled so with the version of its image's file. None where there is none: no name stands in front, no version
    /// behind it, none is known of that name, or another one is. The only error is lack of memory.
    pub fn take_off(&self, alloc: Global, wire: &[u8]) -> Result<Option<Vec<u8>>, AllocError>
        ensures spelled { IfOk result (λ found. IfSome found (λ key. IsWireOf (told self.now) key.items wire.now)) }
        ensures none { IfOk result (λ found. IfNone found ((key : List ℕ) → IsWireOf (told self.now) key wire.now → ⊥)) }
    {
        match self.cut_own(wire) {
            Some((name, rest)) => Ok(Some(join(alloc, name, rest)?)),
            None => Ok(None),
        }
    }

    /// The name in the bytes of a key with a version, where a version of its file is known.
    pub fn known_name<'w>(&self, wire: &'w [u8]) -> Option<&'w str> {
        let (text, _) = cut_name(wire)?;
        let (name, _) = cut_digits(text)?;
        self.told_of(name)?;
        str::from_utf8(name).ok()
    }
}
