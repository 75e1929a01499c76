//! Images to be sent.

use iiif_assemble::Job;
use iiif_tiff_write::OutKind;

/// Image to be sent: that of a job as a file, behind a text.
#[derive(Clone, Copy)]
pub struct Sending<'a> {
    /// The job, planned.
    pub job: &'a Job,
    /// How many rows a band has.
    pub rows: u32,
    /// The kind of the file.
    pub kind: OutKind,
    /// The text before the file, such as the head of an answer.
    pub start: &'a [u8],
}
