//! Faults of lines.

use iiif_pixel::NoMemory;
use thiserror::Error;

/// A fault of a line.
#[derive(Clone, Copy, Debug, PartialEq, Eq, Error)]
pub enum LineFault {
    /// It is no setting and no event, or stands where it can't.
    #[error("it is no setting and no event, or stands where it can't")]
    Bad,
    /// Memory was refused.
    #[error("out of memory")]
    NoMemory,
}

impl From<NoMemory> for LineFault {
    ghost use Rattle.std.specs.Prelude.{◌≡◌};
    ghost use Rattle.iiif_event_list.specs.declared.fault.LineFault.TheVariants.{NoMemory};

    ghost from_gives = { λ _ f. f ≡ NoMemory };

    fn from(_error: NoMemory) -> LineFault {
        LineFault::NoMemory
    }
}
