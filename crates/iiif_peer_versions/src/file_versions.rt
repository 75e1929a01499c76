//! The versions of images' files.

ghost use Rattle.std.specs.Prelude.{◌≡◌, ℕ, ◌≤◌, List, None, Some, IfNone, IfSome, OnOk, bytes_eq, length};
ghost use Rattle.std.specs.Map.{update};
ghost use Rattle.iiif_keys.specs.Names.{IsName};
ghost use Rattle.iiif_peer_versions.specs.Digits.{name_limit, version_digits};

use crate::file_version::FileVersion;
use std::alloc::{AllocError, Global};
use std::collections::BTreeMap;
use std::str;

/// The most bytes of a name that has room for a version behind it.
pub const NAME_LIMIT: usize = 992;

/// The versions of images' files, by the images' names: of each the digits that tell it.
#[derive(Drop)]
pub struct FileVersions {
    digits: BTreeMap<String, [u8; 32]>,
}

impl FileVersions {
    ghost use Rattle.iiif_peer_versions.specs.Told.{told};

    /// Makes an empty list.
    pub fn new(alloc: Global) -> FileVersions
        ensures { (name : List ℕ) → told result name ≡ None }
    {
        FileVersions {
            digits: BTreeMap::new(alloc),
        }
    }

    /// Adds the version of the file of an image, in place of one that was added before. The only error is lack of memory.
    pub fn add(&mut self, alloc: Global, name: &str, version: FileVersion) -> Result<(), AllocError>
        ensures { OnOk result ((other : List ℕ) →
            told self.new other ≡ update bytes_eq (told self.old) name.now (Some (version_digits version)) other) }
    {
        let name = String::from_str(alloc, name)?;
        self.digits.insert(name, version.digits())?;
        Ok(())
    }

    /// Returns the digits of the version of the file of an image, where one is known.
    pub fn digits_of(&self, name: &str) -> Option<[u8; 32]>
        ensures { result ≡ told self.now name.now }
    {
        self.digits.get(name).copied()
    }

    /// Returns those of the image whose name these bytes are. None where they are no name that has room for a version.
    pub(crate) fn told_of(&self, name: &[u8]) -> Option<[u8; 32]>
        ensures told { IfSome result (λ digits. told self.now name.now ≡ Some digits) }
        ensures size { IfSome result (λ digits. length digits ≡ 32) }
        ensures named { IfSome result (λ _. IsName name.now) }
        ensures short { IfSome result (λ _. length name.now ≤ name_limit) }
        ensures none { IfNone result ((digits : List ℕ) → IsName name.now → length name.now ≤ name_limit →
            told self.now name.now ≡ Some digits → ⊥) }
    {
        if name.is_empty() || name.len() > NAME_LIMIT {
            return None;
        }
        match str::from_utf8(name) {
            Ok(text) => self.digits_of(text),
            Err(_) => None,
        }
    }
}
