//! Worlds in which nothing has happened.

ghost use Rattle.std.specs.Prelude.{◌≡◌, ◌<◌, false, length, map, IfErr, IfOk, IsTrue};
ghost use Rattle.iiif_tiff.specs.Tiff.{IsReadable};
ghost use Rattle.iiif_keys.specs.Names.{IsSource};
ghost use Rattle.iiif_machine.specs.Worlds.{new_world};
ghost use Rattle.iiif_machine.specs.Sound.{Each};
ghost use Rattle.iiif_ring.specs.Names.{names_of};
ghost use Rattle.iiif_machine.specs.Nodes.{node_of};
ghost use Rattle.iiif_world.specs.Code.{scene_of, world_of, IsSoundWorld};
ghost use Rattle.iiif_world.specs.Starting.{node_for, AreSources, HasNodeName, IsNamed, IsSetupFault, NamesNodes};

use crate::contents::{Contents, Item};
use crate::world::World;
use iiif_canonical::Limits;
use iiif_keys::Name;
use iiif_machine::node::Node;
use iiif_machine::table::PlainTable;
use iiif_pixel::{Dim, NoMemory, Raster};
use iiif_ring::Ring;
use iiif_tiff::{MAX_AREA, MAX_SIDE};
use std::alloc::Global;
use thiserror::Error;

/// The settings of a node: its name, the names on its ring, the last version of messages that it speaks, and how many bytes and
/// entries its tables keep at most.
#[derive(Drop)]
pub struct Setup {
    pub name: Name,
    pub ring: Ring,
    pub version: u8,
    pub limit: u64,
    pub room: usize,
}

/// Why a world can't begin so: the first that applies.
#[derive(Clone, Copy, Debug, PartialEq, Eq, Error)]
pub enum SetupFault {
    /// A tile's side isn't 1 to 1,024.
    #[error("a tile's side is 1 to 1,024")]
    Edge,
    /// A plan has room for no sum, or for more than 65,536.
    #[error("a plan has room for 1 to 65,536 sums")]
    Room,
    /// A picture has more than 1,000,000 columns or rows, or more than 2^32 places, or none.
    #[error("a picture has 1 to 1,000,000 columns and rows, and at most 2^32 places")]
    Picture,
    /// A ring names no node.
    #[error("a ring names no node")]
    Ring,
    /// A node's name has more than 255 bytes.
    #[error("a node's name has at most 255 bytes")]
    Name,
    /// Memory was refused.
    #[error("out of memory")]
    NoMemory,
}

impl SetupFault {
    ghost use Rattle.std.specs.Prelude.{◌≡◌};
    ghost use Rattle.iiif_world.specs.Faults.{number_of};

    /// The number by which the fault is known outside, 1 to 6.
    pub const fn number(self) -> u8
        ensures { result ≡ number_of self }
    {
        match self {
            SetupFault::Edge => 1,
            SetupFault::Room => 2,
            SetupFault::Picture => 3,
            SetupFault::Ring => 4,
            SetupFault::NoMemory => 5,
            SetupFault::Name => 6,
        }
    }
}

/// Whether these are sides of an image that is read.
fn is_readable(dim: Dim) -> bool
    ensures yes { IsTrue result → IsReadable dim }
    ensures no { result ≡ false → ¬ IsReadable dim }
{
    0 < dim.w
        && dim.w <= MAX_SIDE
        && 0 < dim.h
        && dim.h <= MAX_SIDE
        && u64::from(dim.w) * u64::from(dim.h) <= MAX_AREA
}

/// Whether a picture is within the limits on an image's sides.
fn is_source(picture: &Raster) -> bool
    ensures yes { IsTrue result → IsSource picture.now }
    ensures no { result ≡ false → ¬ IsSource picture.now }
{
    // Whole: it has a channel or three, and samples up to its top.
    picture.is_whole();
    is_readable(picture.dim())
}

fn are_sources(items: &[Item]) -> bool
    ensures yes { IsTrue result → AreSources items.now }
    ensures no { result ≡ false → ¬ AreSources items.now }
{
    for item in items {
        if !is_source(&item.picture) {
            return false;
        }
    }
    true
}

/// Whether one of the nodes has this name.
fn is_named(setups: &[Setup], name: &str) -> bool
    ensures yes { IsTrue result → IsNamed setups.now name.now }
    ensures no { result ≡ false → ¬ IsNamed setups.now name.now }
{
    for setup in setups {
        if setup.name.as_str() == name {
            return true;
        }
    }
    false
}

/// Whether there are names, and each is a node's.
fn are_named(setups: &[Setup], names: &[String]) -> bool
    ensures yes { IsTrue result → (0 < length (names_of names.now)) × Each (IsNamed setups.now) (names_of names.now) }
    ensures no { result ≡ false → ¬ ((0 < length (names_of names.now)) × Each (IsNamed setups.now) (names_of names.now)) }
{
    if names.is_empty() {
        return false;
    }
    for name in names {
        if !is_named(setups, name.as_str()) {
            return false;
        }
    }
    true
}

/// Whether each name on each ring is a node's.
fn rings_name_nodes(setups: &[Setup]) -> bool
    ensures yes { IsTrue result → Each (NamesNodes setups.now) setups.now }
    ensures no { result ≡ false → ¬ Each (NamesNodes setups.now) setups.now }
{
    for setup in setups {
        if !are_named(setups, setup.ring.names()) {
            return false;
        }
    }
    true
}

/// How many bytes a node's name has at most.
const NODE_NAME_LIMIT: usize = 255;

/// Whether each node's name is within the limit.
fn have_node_names(setups: &[Setup]) -> bool
    ensures yes { IsTrue result → Each HasNodeName setups.now }
    ensures no { result ≡ false → ¬ Each HasNodeName setups.now }
{
    for setup in setups {
        if setup.name.as_str().len() > NODE_NAME_LIMIT {
            return false;
        }
    }
    true
}

/// The nodes that are made so. The only error is lack of memory.
fn nodes_of(alloc: Global, setups: Vec<Setup>) -> Result<Vec<Node>, NoMemory>
    ensures { IfOk result (λ v. map node_of v.items ≡ map node_for setups.items) }
{
    let mut nodes = Vec::new(alloc);
    for setup in setups {
        nodes.push(Node {
            tiles: PlainTable::new(alloc, setup.limit, setup.room),
            sums: PlainTable::new(alloc, setup.limit, setup.room),
            name: setup.name,
            ring: setup.ring,
            version: setup.version,
        })?;
    }
    Ok(nodes)
}

/// The contents of a world of these images and nodes in which nothing has happened.
fn begun(
    alloc: Global,
    catalogue: Vec<Item>,
    edge: u32,
    limits: Limits,
    room: u64,
    faults_early: bool,
    nodes: Vec<Node>,
) -> Contents
    ensures { world_of result ≡ new_world (scene_of catalogue.items edge limits room faults_early) (map node_of nodes.items) }
{
    Contents {
        catalogue,
        edge,
        limits,
        room,
        faults_early,
        nodes,
        given: Vec::new(alloc),
        requests: Vec::new(alloc),
        calls: Vec::new(alloc),
        flights: Vec::new(alloc),
        asks: Vec::new(alloc),
        replies: Vec::new(alloc),
    }
}

impl World {
    /// A world in which nothing has happened, of these images and nodes. Where faults are early, one counts as soon as it is certain.
    ///
    /// # Errors
    ///
    /// The first of `Edge`, `Room`, `Picture`, `Ring` and `Name` that applies; or `NoMemory`.
    pub fn new(
        alloc: Global,
        catalogue: Vec<Item>,
        edge: u32,
        limits: Limits,
        room: u64,
        faults_early: bool,
        setups: Vec<Setup>,
    ) -> Result<World, SetupFault>
        ensures new { IfOk result (λ w. world_of w
            ≡ new_world (scene_of catalogue.items edge limits room faults_early) (map node_for setups.items)) }
        ensures sound { IfOk result (λ w. IsSoundWorld (world_of w)) }
        ensures named { IfOk result (λ _. Each HasNodeName setups.items) }
        ensures fault { IfErr result (IsSetupFault catalogue.items edge room setups.items) }
    {
        if edge == 0 || 1024 < edge {
            return Err(SetupFault::Edge);
        }
        if room == 0 || 65_536 < room {
            return Err(SetupFault::Room);
        }
        if !are_sources(&catalogue) {
            return Err(SetupFault::Picture);
        }
        if !rings_name_nodes(&setups) {
            return Err(SetupFault::Ring);
        }
        if !have_node_names(&setups) {
            return Err(SetupFault::Name);
        }
        match nodes_of(alloc, setups) {
            Ok(nodes) => Ok(World::from_contents(begun(
                alloc,
                catalogue,
                edge,
                limits,
                room,
                faults_early,
                nodes,
            ))),
            Err(_) => Err(SetupFault::NoMemory),
        }
    }
}
