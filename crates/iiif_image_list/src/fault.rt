//! Faults of lists of images.

use thiserror::Error;

/// Why a word or a line is none of a list of images.
#[derive(Clone, Copy, Debug, PartialEq, Eq, Error)]
pub enum Fault {
    #[error("the text isn't UTF-8")]
    Encoding,
    #[error("there is no = between a name and a file")]
    Parts,
    #[error("there is a blank before or behind the name")]
    Blank,
    #[error("a name has 1 to 1,024 bytes")]
    Name,
    #[error("there is an image of that name")]
    Twice,
    #[error("out of memory")]
    NoMemory,
}

/// The line of a text that is at fault, counted from 1, and why.
#[derive(Clone, Copy, Debug, PartialEq, Eq, Error)]
#[error("line {line}: {fault}")]
pub struct ListFault {
    pub line: u64,
    pub fault: Fault,
}

/// The image of a folder that is at fault, counted from 0, and why.
#[derive(Clone, Copy, Debug, PartialEq, Eq, Error)]
#[error("file {place}: {fault}")]
pub struct FolderFault {
    pub place: usize,
    pub fault: Fault,
}
