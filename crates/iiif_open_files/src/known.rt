//! How a file is known again when it is opened once more.

ghost use Rattle.std.specs.Prelude.{◌≡◌, None};
ghost use Rattle.std.specs.Fs.{metadata_len};
ghost use Rattle.iiif_open_files.specs.Files.{change_of};

use iiif_source::ReadFault;
use std::fs::Metadata;
use std::io;
use std::os::unix::fs::MetadataExt;
use std::time::{SystemTime, UNIX_EPOCH};

/// Identity of a file: the device and the node that it is, when it was made, when its bytes were last changed, and how many they
/// are. A system may give the node of a file that was removed to the next one that is made, so the node alone doesn't tell them apart.
#[derive(Clone, Copy, Debug, PartialEq, Eq)]
pub struct Known {
    pub device: u64,
    pub node: u64,
    /// When it was made, in nanoseconds since the beginning of 1970; 0 where the file system doesn't say.
    pub born: u64,
    /// When its bytes were last changed, in nanoseconds since the beginning of 1970; 0 where the file system doesn't say.
    pub changed: u64,
    /// Its length in bytes.
    pub len: u64,
}

/// A moment in nanoseconds since the beginning of 1970; 0 where the file system doesn't say, or says an earlier one.
fn nanos(moment: io::Result<SystemTime>) -> u64 {
    let Ok(moment) = moment else {
        return 0;
    };
    match moment.duration_since(UNIX_EPOCH) {
        Ok(since) => u64::try_from(since.as_nanos()).unwrap_or(0),
        Err(_) => 0,
    }
}

impl Known {
    /// Makes the identity of the system's metadata of a file.
    pub fn new(file: &Metadata) -> Known
        ensures { result.len ≡ metadata_len file.now }
    {
        Known {
            device: file.dev(),
            node: file.ino(),
            born: nanos(file.created()),
            changed: nanos(file.modified()),
            len: file.len(),
        }
    }

    /// The cause of the fault of a read, where the file now isn't the one that was there, or its bytes were changed since.
    pub fn change(&self, now: &Known) -> Option<u8>
        ensures change { result ≡ change_of self.now now.now }
        ensures length { result ≡ None → now.now.len ≡ self.now.len }
    {
        let same = now.device == self.device && now.node == self.node && now.born == self.born;
        if same && now.len == self.len && now.changed == self.changed {
            None
        } else if same && now.len < self.len {
            Some(ReadFault::ENDED)
        } else {
            Some(ReadFault::FAILED)
        }
    }
}
