//! How an ask ended.

/// How an ask of another node ended.
#[derive(Clone, Copy, PartialEq, Eq)]
pub enum Outcome {
    /// A value of the key came.
    Answered,
    /// The node refused: it is there.
    Refused,
    /// There was no connection, or what came was no reply of the key.
    Failed,
    /// No whole reply came in its time.
    TimedOut,
}
