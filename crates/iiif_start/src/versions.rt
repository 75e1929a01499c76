//! The versions of the images' files.

use crate::opening::share_path;
use crate::stop::Stop;
use iiif_open_files::{Known, Opens};
use iiif_peer_versions::{FileVersion, FileVersions};
use iiif_source::OpenFile;
use std::alloc::{AllocError, Global};
use std::io::ErrorKind;

/// The version of the built-in source, which never changes.
const SAMPLE: FileVersion = FileVersion {
    len: 138,
    changed: 0,
};

/// Reads the version of a path's file. None where it can't be looked at. The only error is lack of memory.
fn version_of<R: Opens>(
    rt: &R,
    alloc: Global,
    path: &str,
) -> Result<Option<FileVersion>, AllocError> {
    if path == ":sample" {
        return Ok(Some(SAMPLE));
    }
    let file = match OpenFile::open(rt, share_path(alloc, path)?) {
        Ok(file) => file,
        Err(error) if error.kind() == ErrorKind::OutOfMemory => return Err(AllocError),
        Err(_) => return Ok(None),
    };
    match file.metadata(rt) {
        Ok(found) => {
            let Known { len, changed, .. } = Known::new(&found);
            Ok(Some(FileVersion { len, changed }))
        }
        Err(_) => Ok(None),
    }
}

/// Reads the versions of the images' files as they are now: of all that can be looked at or, behind an earlier look, of those that are as
/// they were then. So a file that is written over while it is opened has none. The only error is lack of memory.
pub fn read_versions<'a, R: Opens>(
    rt: &R,
    alloc: Global,
    images: &[(&'a str, &'a str)],
    before: Option<&FileVersions>,
) -> Result<FileVersions, Stop<'a>> {
    let mut versions = FileVersions::new(alloc);
    for image in images {
        let (name, path) = *image;
        let Ok(found) = version_of(rt, alloc, path) else {
            return Err(Stop::Memory);
        };
        if let Some(version) = found {
            if is_as_before(before, name, version) && versions.add(alloc, name, version).is_err() {
                return Err(Stop::Memory);
            }
        }
    }
    Ok(versions)
}

/// Returns whether an image's file has the version that it had at an earlier look, where there was one.
fn is_as_before(before: Option<&FileVersions>, name: &str, version: FileVersion) -> bool {
    match before {
        Some(before) => before.digits_of(name) == Some(version.digits()),
        None => true,
    }
}
