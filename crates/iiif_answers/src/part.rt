//! Parts of answers.

/// Which part of an answer is sent, and whether the connection closes after it.
#[derive(Clone, Copy, PartialEq, Eq)]
pub enum Part {
    /// The body alone.
    Body,
    /// Head and body.
    Whole {
        /// The connection closes after it, as the head says.
        closes: bool,
    },
    /// The head alone, which says how long the body is that it leaves out.
    Head {
        /// The connection closes after it, as the head says.
        closes: bool,
    },
}
