//! Settings of a server.

ghost use Rattle.std.specs.Prelude.{◌≡◌, ◌<◌};
ghost use Rattle.iiif_keys.specs.Blocks.{IsEdge};
ghost use Rattle.iiif_answers.specs.BaseUrl.{path_of};
ghost use Rattle.iiif_answers.specs.Settings.{AreLegal, Configures, is_within, limits_of, number_of, refusal_of, settings_of};

use crate::base_url::{is_base_url, path_of};
use iiif_canonical::Limits;
use std::alloc::Global;
use std::marker::Model;
use thiserror::Error;

/// Why settings are refused: the first of the first five that applies, in this order, or lack of memory.
#[derive(Clone, Copy, Debug, PartialEq, Eq, Error)]
pub enum ConfigFault {
    #[error("the base URL is none")]
    Base,
    #[error("the edge of a tile is out of its bounds")]
    Edge,
    #[error("a greatest side is out of its bounds")]
    Max,
    #[error("the rows of a band are out of their bounds")]
    Band,
    #[error("the workers are out of their bounds")]
    Workers,
    #[error("out of memory")]
    NoMemory,
}

impl ConfigFault {
    /// The number by which the fault is known outside, 1 to 6.
    pub const fn number(self) -> u8
        ensures { result ≡ number_of self }
    {
        match self {
            ConfigFault::Base => 1,
            ConfigFault::Edge => 2,
            ConfigFault::Max => 3,
            ConfigFault::Band => 4,
            ConfigFault::Workers => 5,
            ConfigFault::NoMemory => 6,
        }
    }
}

/// Settings of a server, all of them legal.
#[derive(Drop)]
pub struct Config {
    base: String,
    edge: u32,
    limits: Limits,
    band: u32,
    workers: u32,
}

impl Model for Config {
    ghost use Rattle.std.specs.Prelude.{string_bytes};
    ghost use Rattle.iiif_answers.specs.Settings.{Settings, IsLegal, settings_of};

    ghost Value = { Settings };

    ghost view = { λ c. settings_of (string_bytes c.base) c.edge c.limits c.band c.workers };

    ghost invariant = { λ c. IsLegal (settings_of (string_bytes c.base) c.edge c.limits c.band c.workers) };
}

/// Whether a number is from 1 to a greatest one.
fn is_within(most: u32, number: u32) -> bool
    ensures { result ≡ is_within most number }
{
    0 < number && number <= most
}

/// The first setting that isn't legal.
#[tactic(auto, unfolding(crate::specs::Settings::refusal_of))]
fn refusal(base: &str, edge: u32, limits: Limits, band: u32, workers: u32) -> Option<ConfigFault>
    ensures { result ≡ refusal_of (settings_of base.now edge limits band workers) }
{
    if !is_base_url(base) {
        Some(ConfigFault::Base)
    } else if !(is_within(1024, edge) && edge <= limits.max_w && edge <= limits.max_h) {
        Some(ConfigFault::Edge)
    } else if !(is_within(16384, limits.max_w) && is_within(16384, limits.max_h)) {
        Some(ConfigFault::Max)
    } else if !is_within(16384, band) {
        Some(ConfigFault::Band)
    } else if !is_within(16, workers) {
        Some(ConfigFault::Workers)
    } else {
        None
    }
}

impl Config {
    /// A configuration: the base URL; the edge of a tile in pixels; how large a result may be, in pixels; the rows of a
    /// band; the workers of a request. The URL is copied.
    pub fn new(
        alloc: Global,
        base: &str,
        edge: u32,
        limits: Limits,
        band: u32,
        workers: u32,
    ) -> Result<Config, ConfigFault>
        ensures { Configures (settings_of base.now edge limits band workers) result }
    {
        if let Some(fault) = refusal(base, edge, limits, band, workers) {
            return Err(fault);
        }
        match String::from_str(alloc, base) {
            Ok(base) => Ok(Config {
                base,
                edge,
                limits,
                band,
                workers,
            }),
            Err(_) => Err(ConfigFault::NoMemory),
        }
    }

    /// The base URL.
    pub fn base(&self) -> &str
        ensures { result.now ≡ self.now.base }
    {
        self.base.as_str()
    }

    /// The path of the base URL, which begins each target.
    pub fn prefix(&self) -> &[u8]
        ensures { result.now ≡ path_of self.now.base }
    {
        path_of(self.base.as_str())
    }

    /// The edge of a tile, in pixels.
    pub fn edge(&self) -> u32
        ensures value { result ≡ self.now.edge }
        ensures edge { IsEdge result }
        ensures some { 0 < result }
    {
        self.edge
    }

    /// How large a result may be.
    pub fn limits(&self) -> Limits
        ensures all { result ≡ limits_of self.now }
        ensures legal { AreLegal result }
    {
        self.limits
    }

    /// How many rows a band of an image has at most.
    pub fn band(&self) -> u32
        ensures value { result ≡ self.now.band }
        ensures some { 0 < result }
    {
        self.band
    }

    /// How many workers make an image.
    pub fn workers(&self) -> u32
        ensures value { result ≡ self.now.workers }
        ensures some { 0 < result }
    {
        self.workers
    }
}
