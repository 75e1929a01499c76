//! The file system as a trait: what its files hold is an assumption of one impl, not of each source.

ghost use Rattle.std.specs.Prelude.{◌≡◌, ◌≤◌, ℕ, List, All, length, take, drop, Bool, IfErr, IfOk, OnOk, IsTrue};
ghost use Rattle.std.specs.Fs.{file_type, metadata_len, IsFile};
ghost use Rattle.std.specs.IoError.{error_kind};
ghost use Rattle.std.specs.declared.fs.Metadata.{Metadata};
ghost use Rattle.iiif_source.specs.Cause.{IsCauseOf};
ghost use Rattle.iiif_source.specs.Files.{Says};
ghost use Rattle.iiif_source.specs.declared.ReadFault.{ReadFault};

use std::fs::Metadata;
use std::io;

/// A runtime that opens files and reads them. It says what its files hold, so all code between it and a [`Source`] is proved to give those
/// bytes. Its own impl alone is trusted.
///
/// [`Source`]: crate::Source
pub trait Opens {
    /// The handle of an open file.
    type Handle: Drop;

    /// The bytes that the file of a path holds by right.
    ghost holds: { List ℕ → List ℕ };

    /// The premise of each promise on a path's file: its bytes don't change, and each read of a file that was opened under this path gives
    /// them.
    ghost keeps: { List ℕ → Type 0 };

    /// The path that a handle was opened under.
    ghost is_of: { Self.Handle → List ℕ → Bool };

    /// The metadata that the system told of a path.
    ghost shows: { List ℕ → Metadata → Bool };

    /// The metadata that the system told of an open file.
    ghost tells: { Self.Handle → Metadata → Bool };

    /// The faults of reads of a path's file.
    ghost gave: { List ℕ → ReadFault → Bool };

    /// The reads of a path's file: at this offset one gave these bytes, right or wrong. No premise stands before it.
    ghost reads: { List ℕ → ℕ → List ℕ → Type 0 } = { λ _ _ _. Unit {0} };

    /// Asks for the metadata of a path, without opening it.
    fn look(&self, path: &str) -> io::Result<Metadata>
        ensures shown { IfOk result (λ found. IsTrue (shows path.now found)) };

    /// Opens the file of a path for reading. Its metadata was read before and was a plain file's, since opening a pipe waits for a writer.
    fn open(&self, path: &str) -> io::Result<Self::Handle>
        requires plain { Says shows path.now (λ found. IsFile (file_type found)) }
        ensures of { IfOk result (λ file. IsTrue (is_of file path.now)) };

    /// Asks for the metadata of a file that was opened under this path.
    fn metadata(&self, path: &str, file: &Self::Handle) -> io::Result<Metadata>
        requires of { IsTrue (is_of file.now path.now) }
        ensures told { IfOk result (λ found. IsTrue (tells file.now found)) }
        ensures length { keeps path.now → IfOk result (λ found. metadata_len found ≡ length (holds path.now)) };

    /// Fills the buffer with the bytes from `at` on of a file that was opened under this path.
    fn read(&self, path: &str, file: &Self::Handle, at: u64, buffer: &mut [u8]) -> io::Result<()>
        requires of { IsTrue (is_of file.now path.now) }
        ensures bytes { keeps path.now → OnOk result (buffer.new ≡ take (length buffer.old) (drop at (holds path.now))) }
        ensures read { OnOk result (reads path.now at buffer.new) }
        ensures fault { IfErr result (λ e. (cause : ℕ) → IsCauseOf (error_kind e) cause →
            IsTrue (gave path.now (record { place = at; cause = cause }))) };

    /// Each file holds bytes: numbers of at most 255.
    ghost holds_bytes: { (path : List ℕ) → All (λ b. b ≤ 255) (holds path) };
}
