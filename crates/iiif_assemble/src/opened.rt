//! Outcomes of a worker's ask for a key.

use std::sync::Arc;

/// Outcome of a worker's ask for a key. O is the load in flight, for which others wait.
pub enum Opened<K, V, O> {
    /// The value.
    Known(Arc<V>),
    /// The value is to be made of those of these keys, of at most four.
    Parts(O, Vec<K>),
}
