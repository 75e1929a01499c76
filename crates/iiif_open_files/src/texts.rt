//! Texts in files, and the names of a folder's files.

use std::alloc::Global;
use std::fs::File;
use std::io::Read;
use std::rt::Files;
use std::{fs, io};

/// Reads texts, and the names in folders. It stands for the bound `Files<File = File>` where threads are started: what rests on that one
/// can't be sent to them.
pub trait Texts {
    /// All bytes of a file of any kind: a list of images may come out of a pipe. Nothing is promised of them.
    fn text(&self, alloc: Global, path: &str) -> io::Result<Vec<u8>>;

    /// An empty file, to be written.
    fn create(&self, path: &str) -> io::Result<File>;

    /// The names of what stands in a folder, in any order, but for `.` and `..`. A name that isn't UTF-8 is an error of the kind
    /// `InvalidFilename`. Nothing is promised of them.
    fn names(&self, alloc: Global, folder: &str) -> io::Result<Vec<String>>;
}

impl<R: Files<File = File> + AllocGlobal + Clone + Drop> Texts for R {
    fn text(&self, alloc: Global, path: &str) -> io::Result<Vec<u8>> {
        let mut text = Vec::new(alloc);
        fs::open(self, path)?.read_to_end(&mut text)?;
        Ok(text)
    }

    fn create(&self, path: &str) -> io::Result<File> {
        fs::create(self, path)
    }

    fn names(&self, alloc: Global, folder: &str) -> io::Result<Vec<String>> {
        let mut names = Vec::new(alloc);
        for entry in fs::read_dir(self, folder)? {
            let entry = entry?;
            names.push(String::from_str(alloc, entry.file_name())?)?;
        }
        Ok(names)
    }
}
