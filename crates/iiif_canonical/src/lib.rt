//! Resolution of image requests: rectangle and size for an image, the canonical form, its text and its URI (IIIF Image API 3.0,
//! sections 4 and 9).
#![tactic(auto)]

pub use forms::canonical;
pub use laws::{canonical_means_the_same, escapes_read_back};
pub use resolved::{Limits, Resolved, resolve};
pub use texts::text;
pub use uris::{image_uri, push_escaped, uri};

pub mod forms;
pub mod laws;
mod regions;
pub mod resolved;
mod sizes;
pub mod texts;
pub mod uris;
