//! Writes the information about an image, its `info.json` (IIIF Image API 3.0, section 5).
#![tactic(auto)]

pub use document::info;

pub mod document;
pub mod laws;
mod values;
