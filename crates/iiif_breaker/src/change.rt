//! Changes of a link that are logged.

/// A change of a link that is logged.
#[derive(Clone, Copy, PartialEq, Eq)]
pub enum Change {
    /// It failed, and is left alone from now on.
    LeftAlone,
    /// It answered, and is asked by all again.
    AskedAgain,
}
