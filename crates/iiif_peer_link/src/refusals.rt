//! Images for which another node refused asks.

use std::alloc::Global;
use std::collections::BTreeMap;
use std::sync::{Mutex, Wait};
use std::time::{Clock, Duration, Instant};

/// For how many seconds a node isn't asked for an image after it said that it knows no such image, or another one.
const REST: u64 = 60;

/// How many images are remembered at most.
const MOST: usize = 65_536;

/// Images of which a node said that it knows none of that name, or one with no such part, and when it did last. So a node that was told
/// another list, other files or another side of tiles is asked once a minute for each image, and not for each part of one.
#[derive(Drop)]
pub struct Refusals {
    alloc: Global,
    last: Mutex<BTreeMap<String, Instant>>,
}

impl Refusals {
    /// Makes an empty list.
    pub fn new(alloc: Global) -> Refusals {
        Refusals {
            alloc,
            last: Mutex::new(BTreeMap::new(alloc)),
        }
    }

    /// Whether the node isn't asked for an image of this name now.
    pub fn has<R: Clock + Wait>(&self, rt: &R, name: &str) -> bool {
        let last = self.last.lock(rt);
        let Some(at) = last.get(name) else {
            return false;
        };
        match at.elapsed(rt) {
            Ok(passed) => passed < Duration::from_secs(REST),
            Err(_) => false,
        }
    }

    /// Keeps that the node refused an ask for an image of this name now, and says whether that is the first one for it. Where there is no
    /// clock or no memory, or too many are remembered, it is forgotten, and none is the first.
    pub fn keep<R: Clock + Wait>(&self, rt: &R, name: &str) -> bool {
        let (Ok(now), Ok(name)) = (Instant::now(rt), String::from_str(self.alloc, name)) else {
            return false;
        };
        let mut last = self.last.lock(rt);
        if last.len() >= MOST {
            return false;
        }
        matches!(last.insert(name, now), Ok(None))
    }

    /// Returns for how many images the node refused an ask so far.
    pub fn count<R: Wait>(&self, rt: &R) -> u64 {
        self.last.lock(rt).len() as u64
    }
}
