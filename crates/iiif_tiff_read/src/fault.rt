//! Faults of opening a file and of reading its samples.

ghost use Rattle.std.specs.Prelude.{◌≡◌};
ghost use Rattle.iiif_tiff_read.specs.Faults.{open_number, load_number};
ghost use Rattle.iiif_tiff_read.specs.declared.fault.OpenFault.TheVariants.{Source, NoMemory};
ghost use Rattle.iiif_tiff_read.specs.declared.fault.LoadFault.TheVariants as loads;

use iiif_fault::Numbered;
use iiif_source::ReadFault;
use std::alloc::{AllocError, AllocFailed};
use thiserror::Error;

/// Fault of opening a file. A number in it is the tag of the field at fault (TIFF 6.0, sections 8 and 15).
#[derive(Clone, Copy, Debug, PartialEq, Eq, Error)]
pub enum OpenFault {
    /// The file is shorter than eight bytes, or doesn't begin with II 42 or MM 42.
    #[error("not a TIFF file")]
    NotTiff,
    /// The directory, the values of a field, or a strip or tile reaches past the end of the file.
    #[error("the file is cut off")]
    Truncated,
    /// A required field is absent.
    #[error("field {0} is missing")]
    Missing(u16),
    /// A field has a value that this reader doesn't support, such as a compression, a palette or planes.
    #[error("field {0} has a value that is not supported")]
    Unsupported(u16),
    /// A field has a wrong type or count, or is 0 where it may not be; or the byte count of a strip or tile is too small for its samples.
    #[error("field {0} is wrong")]
    BadField(u16),
    /// A side, the area, a side of the tiles or the number of tiles is above its limit.
    #[error("the image is too large")]
    TooLarge,
    /// The source failed to read.
    #[error("a read at byte {place} failed, cause {cause}", place = .0.place, cause = .0.cause)]
    Source(ReadFault),
    /// An allocation failed.
    #[error("out of memory")]
    NoMemory,
}

impl Numbered for OpenFault {
    ghost number_of = { open_number };

    fn number(&self) -> u8 {
        match self {
            OpenFault::NotTiff => 1,
            OpenFault::Truncated => 2,
            OpenFault::Missing(_) => 3,
            OpenFault::Unsupported(_) => 4,
            OpenFault::BadField(_) => 5,
            OpenFault::TooLarge => 6,
            OpenFault::Source(_) => 7,
            OpenFault::NoMemory => 8,
        }
    }
}

impl From<ReadFault> for OpenFault {
    ghost from_gives = { λ f e. e ≡ Source f };

    fn from(fault: ReadFault) -> OpenFault {
        OpenFault::Source(fault)
    }
}

impl From<AllocError> for OpenFault {
    ghost from_gives = { λ _ e. e ≡ NoMemory };

    fn from(_error: AllocError) -> OpenFault {
        OpenFault::NoMemory
    }
}

impl<T: Drop> From<AllocFailed<T>> for OpenFault {
    ghost from_gives = { λ _ e. e ≡ NoMemory };

    fn from(_error: AllocFailed<T>) -> OpenFault {
        OpenFault::NoMemory
    }
}

/// Fault of reading a rectangle.
#[derive(Clone, Copy, Debug, PartialEq, Eq, Error)]
pub enum LoadFault {
    /// The source failed to read.
    #[error("a read at byte {place} failed, cause {cause}", place = .0.place, cause = .0.cause)]
    Source(ReadFault),
    /// An allocation failed.
    #[error("out of memory")]
    NoMemory,
}

impl Numbered for LoadFault {
    ghost number_of = { load_number };

    fn number(&self) -> u8 {
        match self {
            LoadFault::Source(_) => 1,
            LoadFault::NoMemory => 2,
        }
    }
}

impl From<ReadFault> for LoadFault {
    ghost from_gives = { λ f e. e ≡ loads.Source f };

    fn from(fault: ReadFault) -> LoadFault {
        LoadFault::Source(fault)
    }
}

impl From<AllocError> for LoadFault {
    ghost from_gives = { λ _ e. e ≡ loads.NoMemory };

    fn from(_error: AllocError) -> LoadFault {
        LoadFault::NoMemory
    }
}

impl<T: Drop> From<AllocFailed<T>> for LoadFault {
    ghost from_gives = { λ _ e. e ≡ loads.NoMemory };

    fn from(_error: AllocFailed<T>) -> LoadFault {
        LoadFault::NoMemory
    }
}
