//! Why a block above level 0 has no value.

ghost use Rattle.std.specs.Prelude.{◌≡◌};
ghost use Rattle.iiif_sum_group.specs.Asking.{fault_in};

use iiif_keys::Fault;

/// Fault of making the value of a block above level 0.
#[derive(Clone, Copy, PartialEq, Eq)]
pub enum MakeError {
    /// One of its parts has no value.
    Part(Fault),
    /// There is no memory for its own; its parts have theirs.
    Total,
}

impl MakeError {
    /// Returns the fault that all are told.
    pub(crate) fn fault(self) -> Fault
        ensures { result ≡ fault_in self }
    {
        match self {
            MakeError::Part(fault) => fault,
            MakeError::Total => Fault::NoMemory,
        }
    }
}
