//! How a node over an image in memory is made, as one of two.

ghost use Rattle.std.specs.Prelude.{◌≡◌, ℕ, ◌<◌, List, IfOk, IsTrue, length, vec_len};
ghost use Rattle.iiif_keys.specs.Ledgers.{all_parts};
ghost use Rattle.iiif_witnesses.specs.Code.{images_of, IsLocal};

use crate::other::OtherLink;
use crate::pair::PairFault;
use iiif_group::{Cluster, Group, NoGate, NoLink};
use iiif_keys::{CacheKey, Fault, Name, System};
use iiif_pixel::NoMemory;
use iiif_ring::Ring;
use iiif_source::MemSource;
use iiif_sum_group::{Groups, Handle, Tiles};
use iiif_tiff_read::open;
use iiif_tile_group::{Catalogue, Images};
use std::alloc::{AllocError, Global};
use std::num::NonZeroUsize;
use std::sync::ledger::{Blank, Ledger};

/// The most bytes and entries that a group keeps.
pub(crate) const BYTES: u64 = 1_000_000;

pub(crate) const ENTRIES: usize = 100;

/// The names of the nodes.
const FIRST: &str = "left";

const SECOND: &str = "right";

/// A node over memory.
pub(crate) type Node<R, J, N> = Groups<R, MemSource, J, N, NoGate>;

/// A link to a node over memory that asks no other.
pub(crate) type Other<'a, R, I, J> = OtherLink<'a, R, MemSource, I, J, NoLink, NoGate>;

/// A handle to a node over memory that asks no other.
pub(crate) type ToNode<'a, R, I> = Handle<'a, R, MemSource, I, NoLink, NoGate>;

/// Holds a file in memory, as the only image, under a name.
pub(crate) fn hold<R>(
    rt: &R,
    alloc: Global,
    name: &Name,
    file: &[u8],
) -> Result<Catalogue<R, MemSource>, PairFault>
    ensures { IfOk result (λ c. c ≡ images_of name.now file.now) }
{
    let (Ok(bytes), Ok(text)) = (
        Vec::from_slice(alloc, file),
        String::from_str(alloc, name.as_str()),
    ) else {
        return Err(PairFault::Ask(Fault::NoMemory));
    };
    let source = MemSource::new(bytes);
    let layout = match open(rt, alloc, &source) {
        Ok(layout) => layout,
        Err(fault) => return Err(PairFault::Open(fault)),
    };
    let mut catalogue = Catalogue::new(alloc);
    match catalogue.add(text, source, layout) {
        Ok(()) => Ok(catalogue),
        Err(_) => Err(PairFault::Ask(Fault::NoMemory)),
    }
}

/// The ring of both nodes.
pub(crate) fn ring(alloc: Global) -> Result<Ring, NoMemory>
    ensures { IfOk result (λ ring. length ring ≡ 2) }
{
    let mut names = Vec::new(alloc);
    names.push(String::from_str(alloc, FIRST)?)?;
    names.push(String::from_str(alloc, SECOND)?)?;
    match Ring::new(alloc, names) {
        Ok(ring) => Ok(ring),
        Err(_) => Err(AllocError),
    }
}

/// A group of a node that stands at this place of the ring.
fn make_group<K: CacheKey, J: System, L: Ledger, N: Drop>(
    alloc: Global,
    place: usize,
    links: Vec<N>,
    blank: Blank,
) -> Result<Group<K, J, L, N, NoGate>, NoMemory>
    requires place { place < 2 }
    requires links { vec_len links ≡ 2 }
    requires name { blank.name ≡ L.name }
    requires parts { blank.parts ≡ L.parts }
    requires all { L.parts ≡ all_parts }
{
    let Some(entries) = NonZeroUsize::new(ENTRIES) else {
        return Err(AllocError);
    };
    let cluster = Cluster {
        ring: ring(alloc)?,
        own: Some(place),
        links,
    };
    Group::new(alloc, BYTES, entries, NoGate, cluster, blank)
}

/// Makes a node of the system J over these images, which stands at this place of the ring. Of links and of blanks the first is for tiles,
/// the second for sums.
pub(crate) fn make_node<R, J: System, N: Drop>(
    alloc: Global,
    catalogue: Catalogue<R, MemSource>,
    edge: u32,
    place: usize,
    links: (Vec<N>, Vec<N>),
    blanks: (Blank, Blank),
) -> Result<Node<R, J, N>, NoMemory>
    requires local { IsLocal J.System edge catalogue blanks }
    requires place { place < 2 }
    requires tiles { vec_len links.0 ≡ 2 }
    requires sums { vec_len links.1 ≡ 2 }
{
    let images = Images::new(catalogue, edge);
    let group = make_group(alloc, place, links.0, blanks.0)?;
    let tiles = Tiles::new(alloc, images, group);
    let group = make_group(alloc, place, links.1, blanks.1)?;
    Ok(Groups::new(alloc, tiles, group))
}

/// Links to no node, for both places.
pub(crate) fn no_links(alloc: Global) -> Result<Vec<NoLink>, NoMemory>
    ensures { IfOk result (λ v. vec_len v ≡ 2) }
{
    let mut links = Vec::new(alloc);
    links.push(NoLink)?;
    links.push(NoLink)?;
    Ok(links)
}

/// Links to a node of the system I, for both places of the ring.
pub(crate) fn links_to<'a, R, I: System, J: System>(
    alloc: Global,
    node: (ToNode<'a, R, I>, ToNode<'a, R, I>),
) -> Result<Vec<Other<'a, R, I, J>>, NoMemory>
    requires same { I.pictures ≡ J.pictures }
    requires stable { (name : List ℕ) → J.stable name → ∥ I.stable name ∥₁ }
    requires honest { IsTrue J.honest → IsTrue I.honest }
    ensures { IfOk result (λ v. vec_len v ≡ 2) }
{
    let mut links = Vec::new(alloc);
    links.push(OtherLink::new(node.0, alloc))?;
    links.push(OtherLink::new(node.1, alloc))?;
    Ok(links)
}
