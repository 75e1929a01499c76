//! A file in memory.

ghost use Rattle.std.specs.Prelude.{◌≡◌, ℕ, List, string_bytes};
ghost use Rattle.iiif_open_files.specs.Memory.{as_bytes};

use std::marker::{Brand, PhantomData};

/// Contents of the files of a memory. A call picks them.
pub trait Contents {
    /// The content of the file of a path.
    ghost content: { List ℕ → List ℕ };
}

impl Contents for Brand {
    ghost use Rattle.std.specs.Prelude.{[]};

    ghost content = { λ _. [] };
}

/// A file in memory: its path, and its bytes.
#[derive(Drop)]
pub struct MemFile<C: Contents> {
    pub path: String,
    pub bytes: Vec<u8>,
    pub of: PhantomData<C>,
    pub ghost same: { bytes.items ≡ as_bytes (C.content (string_bytes path)) },
}

impl<C: Contents> MemFile<C> {
    /// The file of a path, which has what the contents have there.
    #[tactic(auto, using(crate::proofs::MemoryBytes::bytes_stay))]
    pub fn new(path: String, bytes: Vec<u8>) -> MemFile<C>
        requires { bytes.items ≡ C.content (string_bytes path) }
        ensures path { result.path ≡ path }
        ensures bytes { result.bytes ≡ bytes }
    {
        let _bytes = bytes.as_slice();
        MemFile {
            path,
            bytes,
            of: PhantomData,
        }
    }
}
