//! Work of a node.

use iiif_command_line::{Mode, Options};
use iiif_connections::Times;
use iiif_services::Addresses;

/// One target, whether the body of its answer is written as hexadecimal digits, and whether the words say how many bytes a cache keeps.
#[derive(Clone, Copy)]
pub struct One<'a> {
    pub target: &'a str,
    pub hex: bool,
    pub cache_given: bool,
}

/// Where a node listens, for how long it waits, whether a line is written for each answer, and the file of the record of its steps, with
/// the most bytes that it gets.
#[derive(Clone, Copy)]
pub(crate) struct Listening<'a> {
    pub addresses: Addresses<'a>,
    pub times: Times,
    pub logs: bool,
    pub record: Option<(&'a str, u64)>,
}

/// The work of a node: the answer to one target, or an answer to each call of those who connect.
#[derive(Clone, Copy)]
pub(crate) enum Work<'a> {
    One(One<'a>),
    Listen(Listening<'a>),
}

impl<'a> Work<'a> {
    /// Finds the work of a node in the options. A check of the images has none.
    pub(crate) fn from_options(options: &'a Options<'_>) -> Option<Work<'a>> {
        match options.mode {
            Mode::One {
                target,
                hex,
                cache_given,
            } => Some(Work::One(One {
                target,
                hex,
                cache_given,
            })),
            Mode::Listen {
                viewers,
                peers,
                log,
                stats,
                peer_only,
                control,
                record,
            } => Some(Work::Listen(Listening {
                addresses: Addresses {
                    viewers,
                    peers,
                    statistics: stats,
                    control,
                    per_address: options.limits.per_address,
                    known: if peer_only {
                        Some(options.peers.as_slice())
                    } else {
                        None
                    },
                },
                times: Times::within(options.limits),
                logs: log,
                record,
            })),
            Mode::Check => None,
        }
    }
}
