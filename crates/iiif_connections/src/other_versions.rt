//! Other nodes that asked for other versions of images' files than those that are here.

use crate::watcher::Watcher;
use iiif_log::{Moment, OtherVersion};
use iiif_peer_versions::Notice;
use std::alloc::Global;
use std::collections::BTreeSet;
use std::sync::{Mutex, Wait};
use std::time::Clock;

/// The most pairs of a node and an image that are remembered.
const MOST: usize = 65_536;

/// Asks for other versions: the pairs of a node and an image in this generation, and the number of those in all generations.
#[derive(Drop)]
struct Seen {
    pairs: BTreeSet<String>,
    count: u64,
}

/// The addresses of nodes that asked for another version of an image's file, each with the image's name.
#[derive(Drop)]
pub struct OtherVersions {
    alloc: Global,
    seen: Mutex<Seen>,
}

impl OtherVersions {
    /// Makes an empty list.
    pub fn new(alloc: Global) -> OtherVersions {
        OtherVersions {
            alloc,
            seen: Mutex::new(Seen {
                pairs: BTreeSet::new(alloc),
                count: 0,
            }),
        }
    }

    /// Forgets the pairs, since another generation has versions of its own. The count stays.
    pub(crate) fn forget<R: Wait>(&self, rt: &R) {
        self.seen.lock(rt).pairs = BTreeSet::new(self.alloc);
    }

    /// Remembers that the node at an address asked for another version of an image of this name. Returns whether that is new to this
    /// generation: never where no more can be remembered.
    fn is_first<R: Wait>(&self, rt: &R, address: &str, name: &str) -> bool {
        let Ok(pair) = format!(in self.alloc; "{address} {name}") else {
            return false;
        };
        let mut seen = self.seen.lock(rt);
        if seen.pairs.len() >= MOST || seen.pairs.contains(pair.as_str()) {
            return false;
        }
        let is_first = seen.pairs.insert(pair).is_ok();
        if is_first {
            seen.count = seen.count.saturating_add(1);
        }
        is_first
    }

    /// Counts the pairs of a node and an image, in all generations.
    pub fn count<R: Wait>(&self, rt: &R) -> u64 {
        self.seen.lock(rt).count
    }
}

/// Notices that the node at an address asked for another version: each image's first is counted and logged.
#[derive(Drop)]
pub struct VersionNotice<'a> {
    pub watcher: &'a Watcher,
    pub address: &'a str,
}

impl<'a, R: Wait + Clock> Notice<R> for VersionNotice<'a> {
    fn report_other(&self, rt: &R, name: &str) {
        let others = &self.watcher.peers.others_asked;
        if !others.is_first(rt, self.address, name) {
            return;
        }
        if let Some(log) = &self.watcher.log {
            log.tell_other_version(
                rt,
                &OtherVersion {
                    at: Moment::now(rt),
                    address: self.address.as_bytes(),
                    image: name.as_bytes(),
                },
            );
        }
    }
}
