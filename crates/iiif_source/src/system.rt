//! The operating system's files. All trust in them is here: a file's bytes stay as they are, a read gives the bytes of the path that
//! was opened, and the length that the system tells is theirs. None of this can be proved of an operating system. So the premise `keeps`
//! of its files is false, it may tell anything of a file, and it may fail at will. Each body is one system call, so no code of ours stands
//! below the premise.

ghost use Rattle.std.proofs.Common.{rules};
ghost use Rattle.std.specs.Prelude.{[], true};

use crate::opens::Opens;
use std::fs::{File, Metadata};
use std::os::unix::fs::FileExt;
use std::rt::Files;
use std::{fs, io};

impl<R: Files<File = File>> Opens for R {
    type Handle = File;

    ghost holds = { λ _. [] };

    ghost keeps = { λ _. ⊥ };

    ghost is_of = { λ _ _. true };

    ghost shows = { λ _ _. true };

    ghost tells = { λ _ _. true };

    ghost gave = { λ _ _. true };

    ghost holds_bytes = { λ _. Prim.search rules };

    fn look(&self, path: &str) -> io::Result<Metadata> {
        fs::metadata(self, path)
    }

    fn open(&self, path: &str) -> io::Result<File> {
        fs::open(self, path)
    }

    fn metadata(&self, _path: &str, file: &File) -> io::Result<Metadata> {
        file.metadata()
    }

    fn read(&self, _path: &str, file: &File, at: u64, buffer: &mut [u8]) -> io::Result<()> {
        file.read_exact_at(buffer, at)
    }
}
