//! Folders with a manifest.

ghost use Rattle.std.specs.Prelude.{◌≡◌, ◌≢◌, ◌-◌, ◌<◌, ◌≤◌, IsTrue, false, length, option_copied, slice_index};
ghost use Rattle.iiif_fixity.specs.Bags.{digest_of, name_under, IsFolderOf};

use crate::manifest::Manifest;

/// A folder and the manifest that stands in it, as in a bag of BagIt.
#[derive(Clone, Copy)]
pub struct Bag<'m> {
    /// The folder's path, up to its last slash, or nothing for the current one.
    pub folder: &'m [u8],
    pub manifest: &'m Manifest<'m>,
}

impl<'m> Bag<'m> {
    /// Returns the digest that is listed of a path: of what stands behind the folder, where the path begins with that.
    pub fn digest_of(&self, path: &str) -> Option<&[u8; 32]>
        ensures { option_copied result ≡ digest_of self.now path.now }
    {
        self.manifest
            .named(name_under(self.folder, path.as_bytes()))
    }
}

/// Returns a path as a manifest of a folder names it.
fn name_under<'a>(folder: &[u8], path: &'a [u8]) -> &'a [u8]
    ensures { result.now ≡ name_under folder.now path.now }
{
    match path.strip_prefix(folder) {
        Some(name) => name,
        None => path,
    }
}

/// Returns whether the last of the first `len` bytes is none of a slash.
fn ends_in_name(path: &[u8], len: usize) -> bool
    requires { len ≤ length path.now }
    ensures some { IsTrue result → 0 < len }
    ensures name { IsTrue result → slice_index path.now (len - 1) ≢ 47 }
    ensures slash { result ≡ false → 0 < len → slice_index path.now (len - 1) ≡ 47 }
{
    len > 0 && path[len - 1] != b'/'
}

/// Returns the folder that a path leads to: the path up to its last slash.
pub fn folder_of(path: &[u8]) -> &[u8]
    ensures { IsFolderOf path.now result.now }
{
    let mut len = path.len();
    while ends_in_name(path, len) {
        len -= 1;
    }
    &path[..len]
}
