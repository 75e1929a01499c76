//! Two nodes of one process over one image in memory, each asked for a value.

ghost use Rattle.std.specs.Prelude.{◌≡◌, ℕ, ◌<◌, List, IfOk, IsTrue, vec_len};
ghost use Rattle.std.specs.Result.{ForOk};
ghost use Rattle.std.specs.Arc.{arc_value};
ghost use Rattle.iiif_keys.specs.Ledgers.{all_parts};
ghost use Rattle.iiif_keys.specs.Meaning.{sum_meaning, tile_meaning};
ghost use Rattle.iiif_witnesses.specs.Code.{images_of, IsLocal};
ghost use Rattle.iiif_witnesses.specs.Values.{AreSumsOf, IsTileOf};

use crate::by_two::{get_sums_by_two, get_tile_by_two};
use crate::nodes::{Node, Other, hold, links_to, make_node, no_links};
use crate::other::OtherLink;
use iiif_group::{Gate, Link, NoLink};
use iiif_keys::{Fault, Name, PARTS, SumKey, SumVal, System, TileKey, TileVal};
use iiif_pixel::NoMemory;
use iiif_source::{MemSource, Source};
use iiif_sum_group::{Groups, Handle, Passes, take_outcome};
use iiif_tables::Book;
use iiif_tiff_read::OpenFault;
use iiif_tile_group::Catalogue;
use std::alloc::Global;
use std::marker::Brand;
use std::sync::ledger::Blank;
use std::sync::{Arc, Wait};
use thiserror::Error;

/// Why two nodes gave no value.
#[derive(Clone, Copy, Debug, PartialEq, Eq, Error)]
pub enum PairFault {
    /// The file shows no picture that is read.
    #[error("the file can't be opened")]
    Open(OpenFault),
    /// The key names nothing, or memory ran out.
    #[error("the node has no value")]
    Ask(Fault),
}

/// The value that one of two nodes answered, and what both counted meanwhile in their group of such values.
#[derive(Drop)]
pub struct Answer<V: Drop> {
    pub value: Arc<V>,
    /// Counts of the node that was asked.
    pub asked: Book,
    /// Counts of the other.
    pub other: Book,
}

/// The images of two nodes, which are the same, and which of the two stands first in the ring.
#[derive(Drop)]
pub(crate) struct Pair<R> {
    pub asked: Catalogue<R, MemSource>,
    pub other: Catalogue<R, MemSource>,
    pub edge: u32,
    pub is_first: bool,
    pub ghost same: { other ≡ asked },
}

/// Ledgers of tiles and of sums.
pub(crate) type Blanks = (Blank, Blank);

/// Ledgers that no other has.
pub(crate) fn blanks() -> Blanks
    ensures { (result.0.parts ≡ all_parts) × (result.1.parts ≡ all_parts) }
{
    (Blank::new(PARTS), Blank::new(PARTS))
}

impl<R> Pair<R> {
    /// Holds a file twice, once for each node.
    pub(crate) fn new(
        rt: &R,
        alloc: Global,
        file: &[u8],
        is_first: bool,
        name: &Name,
        edge: u32,
    ) -> Result<Pair<R>, PairFault>
        ensures { IfOk result (λ p. (p.asked ≡ images_of name.now file.now) × (p.edge ≡ edge)) }
    {
        let asked = hold(rt, alloc, name, file)?;
        let other = hold(rt, alloc, name, file)?;
        Ok(Pair {
            asked,
            other,
            edge,
            is_first,
        })
    }

    /// The places in the ring of the node that is asked and of the other.
    pub(crate) fn places(&self) -> (usize, usize)
        ensures { (result.0 < 2) × (result.1 < 2) }
    {
        if self.is_first { (0, 1) } else { (1, 0) }
    }
}

/// Makes a node of the system I, which has a link to no node.
fn make_other<R, I: System>(
    alloc: Global,
    catalogue: Catalogue<R, MemSource>,
    edge: u32,
    place: usize,
    blanks: Blanks,
) -> Result<Node<R, I, NoLink>, NoMemory>
    requires local { IsLocal I.System edge catalogue blanks }
    requires place { place < 2 }
{
    let links = (no_links(alloc)?, no_links(alloc)?);
    make_node(alloc, catalogue, edge, place, links, blanks)
}

/// Makes a node of the system J, which has links to one of the system I.
fn make_asked<'a, R, I: System, J: System>(
    alloc: Global,
    other: &'a Node<R, I, NoLink>,
    catalogue: Catalogue<R, MemSource>,
    edge: u32,
    place: usize,
    blanks: Blanks,
) -> Result<Node<R, J, Other<'a, R, I, J>>, NoMemory>
    requires local { IsLocal J.System edge catalogue blanks }
    requires place { place < 2 }
    requires same { I.pictures ≡ J.pictures }
    requires stable { (name : List ℕ) → J.stable name → ∥ I.stable name ∥₁ }
    requires honest { IsTrue J.honest → IsTrue I.honest }
{
    let links = (
        links_to(alloc, (Handle::new(other), Handle::new(other)))?,
        links_to(alloc, (Handle::new(other), Handle::new(other)))?,
    );
    make_node(alloc, catalogue, edge, place, links, blanks)
}

/// Asks a node for a tile.
fn get_tile<R: Wait, S: Source<R> + Drop, I: System, J: System, N, T: Gate<R>>(
    rt: &R,
    node: &Groups<R, S, J, OtherLink<'_, R, S, I, J, N, T>, T>,
    key: &TileKey,
) -> Result<Arc<TileVal>, Fault>
    requires honest { IsTrue J.honest }
    requires stable { J.stable key.now.name }
    ensures { ForOk result (λ v. arc_value v ≡ tile_meaning J.pictures key.now) }
{
    let tiles = node.tiles();
    let Some(mut pass) = tiles.group().pass(rt) else {
        return Err(Fault::NoMemory);
    };
    let tile = get_tile_by_two(rt, tiles, &mut pass, key);
    tiles.group().give_back(rt, pass);
    match tile {
        Ok(receipt) => take_outcome(receipt, key),
        Err(fault) => Err(fault),
    }
}

/// Asks a node for sums.
fn get_sums<
    R: Wait,
    S: Source<R> + Drop,
    I: System,
    J: System,
    N: Link<TileKey, I, R> + Link<SumKey, I, R>,
    T: Gate<R>,
>(
    rt: &R,
    node: &Groups<R, S, J, OtherLink<'_, R, S, I, J, N, T>, T>,
    key: &SumKey,
) -> Result<Arc<SumVal>, Fault>
    requires honest { IsTrue J.honest }
    requires stable { J.stable key.now.name }
    ensures { ForOk result (λ v. arc_value v ≡ sum_meaning J.pictures key.now) }
{
    let (tiles, sums) = (node.tiles().group(), node.sums());
    let Some(tile) = tiles.pass(rt) else {
        return Err(Fault::NoMemory);
    };
    let Some(sum) = sums.pass(rt) else {
        tiles.give_back(rt, tile);
        return Err(Fault::NoMemory);
    };
    let mut passes = Passes { tile, sum };
    let block = get_sums_by_two(rt, node, &mut passes, key);
    let Passes { tile, sum } = passes;
    tiles.give_back(rt, tile);
    sums.give_back(rt, sum);
    match block {
        Ok(receipt) => take_outcome(receipt, key),
        Err(fault) => Err(fault),
    }
}

/// Asks a node of the system J, which asks a node of the system I, for a tile.
fn tile_of<R: Wait, I: System, J: System>(
    rt: &R,
    alloc: Global,
    pair: Pair<R>,
    blanks: (Blanks, Blanks),
    key: &TileKey,
) -> Result<Answer<TileVal>, Fault>
    requires asked { IsLocal J.System pair.edge pair.asked blanks.0 }
    requires other { IsLocal I.System pair.edge pair.other blanks.1 }
    requires same { I.pictures ≡ J.pictures }
    requires stable { (name : List ℕ) → J.stable name → ∥ I.stable name ∥₁ }
    ensures { IfOk result (λ a. arc_value a.value ≡ tile_meaning J.pictures key.now) }
{
    let (place, other_place) = pair.places();
    let other: Node<R, I, NoLink> = make_other(
        alloc,
        pair.other,
        pair.edge,
        other_place,
        blanks.1,
    )?;
    let node = make_asked::<R, I, J>(alloc, &other, pair.asked, pair.edge, place, blanks.0)?;
    let value = get_tile(rt, &node, key)?;
    Ok(Answer {
        value,
        asked: node.tiles().group().book(rt),
        other: other.tiles().group().book(rt),
    })
}

/// Asks a node of the system J, which asks a node of the system I, for sums.
fn sums_of<R: Wait, I: System, J: System>(
    rt: &R,
    alloc: Global,
    pair: Pair<R>,
    blanks: (Blanks, Blanks),
    key: &SumKey,
) -> Result<Answer<SumVal>, Fault>
    requires asked { IsLocal J.System pair.edge pair.asked blanks.0 }
    requires other { IsLocal I.System pair.edge pair.other blanks.1 }
    requires same { I.pictures ≡ J.pictures }
    requires stable { (name : List ℕ) → J.stable name → ∥ I.stable name ∥₁ }
    ensures { IfOk result (λ a. arc_value a.value ≡ sum_meaning J.pictures key.now) }
{
    let (place, other_place) = pair.places();
    let other: Node<R, I, NoLink> = make_other(
        alloc,
        pair.other,
        pair.edge,
        other_place,
        blanks.1,
    )?;
    let node = make_asked::<R, I, J>(alloc, &other, pair.asked, pair.edge, place, blanks.0)?;
    let value = get_sums(rt, &node, key)?;
    Ok(Answer {
        value,
        asked: node.sums().book(rt),
        other: other.sums().book(rt),
    })
}

/// Makes two nodes over a file in memory, cut into tiles of the key's side, and asks one of them for a tile: the first of the ring or the
/// second. It asks the other where that owns the key; the other has no link. The tile is the key's part of the picture that the file shows,
/// whichever node loads it: no premise is left.
pub fn ask_tile<R: Wait>(
    rt: &R,
    alloc: Global,
    file: &[u8],
    is_first: bool,
    key: &TileKey,
) -> Result<Answer<TileVal>, PairFault>
    ensures { IfOk result (λ a. IsTileOf file.now key.now (arc_value a.value)) }
{
    let pair = Pair::new(rt, alloc, file, is_first, &key.name, key.edge)?;
    match tile_of::<R, Brand, Brand>(rt, alloc, pair, (blanks(), blanks()), key) {
        Ok(answer) => Ok(answer),
        Err(fault) => Err(PairFault::Ask(fault)),
    }
}

/// Makes two such nodes, and asks one of them for the sums over a block: they are those of its part of the picture that the file shows,
/// whichever nodes load them and their parts.
pub fn ask_sums<R: Wait>(
    rt: &R,
    alloc: Global,
    file: &[u8],
    is_first: bool,
    key: &SumKey,
) -> Result<Answer<SumVal>, PairFault>
    ensures { IfOk result (λ a. AreSumsOf file.now key.now (arc_value a.value)) }
{
    let pair = Pair::new(rt, alloc, file, is_first, &key.name, key.edge)?;
    match sums_of::<R, Brand, Brand>(rt, alloc, pair, (blanks(), blanks()), key) {
        Ok(answer) => Ok(answer),
        Err(fault) => Err(PairFault::Ask(fault)),
    }
}
