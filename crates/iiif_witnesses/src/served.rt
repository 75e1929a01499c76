//! Two servers of one process over one image in memory, one of which asks the other for what that owns.

ghost use Rattle.std.specs.Prelude.{◌≡◌, ℕ, ◌<◌, List, IfOk, IsTrue, vec_len};
ghost use Rattle.std.specs.Result.{OnErr};
ghost use Rattle.iiif_witnesses.specs.Code.{images_of, IsLocal};
ghost use Rattle.iiif_witnesses.specs.Served.{GivesShown, SendsOfMemory};
ghost use Rattle.iiif_server.specs.GroupConfigs.{HasGroupConfig};

use crate::nodes::{BYTES, ENTRIES, Other, hold, links_to, no_links, ring};
use crate::pair::{Blanks, Pair, PairFault, blanks};
use iiif_group::{NoGate, NoLink};
use iiif_http_front::Call;
use iiif_io::Outlet;
use iiif_keys::{Fault, Name, System};
use iiif_pixel::NoMemory;
use iiif_server::{Config, Cut, GroupConfig, Node, Room, Sent};
use iiif_source::MemSource;
use iiif_tables::Book;
use iiif_tile_group::Catalogue;
use std::alloc::{AllocError, Global};
use std::marker::Brand;
use std::num::NonZeroUsize;
use std::slice;
use std::sync::Wait;
use std::sync::ledger::Blank;
use std::thread::Threads;
use std::time::Clock;

/// A server over memory.
type Server<R, J, N> = Node<R, MemSource, J, N, NoGate>;

/// A file that two servers hold in memory, the name of its image, and which of them is asked: the first of the ring or the second.
#[derive(Drop)]
pub struct SharedImage<'a> {
    pub file: &'a [u8],
    pub name: &'a Name,
    pub is_first: bool,
}

/// How the answer of one of two servers ended, and what both counted meanwhile.
#[derive(Drop)]
pub struct ServedByTwo {
    pub outcome: Result<Sent, Cut>,
    /// Counts of tiles of the server that was asked, and of the other.
    pub tiles: (Book, Book),
    /// Counts of sums of both.
    pub sums: (Book, Book),
}

/// Makes what a group of a server is made with, which stands at this place of the ring.
fn make_group_config<N: Drop>(
    alloc: Global,
    place: usize,
    links: Vec<N>,
    blank: Blank,
) -> Result<GroupConfig<N, NoGate>, NoMemory>
    requires place { place < 2 }
    requires links { vec_len links ≡ 2 }
    ensures { HasGroupConfig blank (λ config. config) result }
{
    let Some(entries) = NonZeroUsize::new(ENTRIES) else {
        return Err(AllocError);
    };
    Ok(GroupConfig {
        room: Room {
            bytes: BYTES,
            entries,
        },
        gate: NoGate,
        ring: ring(alloc)?,
        own: Some(place),
        links,
        blank,
    })
}

/// Makes a server of the system J over these images, which stands at this place of the ring. Of links and of blanks the first is for tiles,
/// the second for sums.
fn make_server<R, J: System, N: Drop>(
    alloc: Global,
    config: Config,
    catalogue: Catalogue<R, MemSource>,
    place: usize,
    links: (Vec<N>, Vec<N>),
    blanks: Blanks,
) -> Result<Server<R, J, N>, NoMemory>
    requires local { IsLocal J.System config.edge catalogue blanks }
    requires place { place < 2 }
    requires tiles { vec_len links.0 ≡ 2 }
    requires sums { vec_len links.1 ≡ 2 }
    ensures settings { IfOk result (λ n. n.settings ≡ config) }
    ensures items { IfOk result (λ n. n.items ≡ catalogue) }
{
    let tiles = make_group_config(alloc, place, links.0, blanks.0)?;
    let sums = make_group_config(alloc, place, links.1, blanks.1)?;
    Node::new(alloc, config, catalogue, tiles, sums)
}

/// Makes a server of the system I, which has a link to no node.
fn make_other<R, I: System>(
    alloc: Global,
    config: Config,
    catalogue: Catalogue<R, MemSource>,
    place: usize,
    blanks: Blanks,
) -> Result<Server<R, I, NoLink>, NoMemory>
    requires local { IsLocal I.System config.edge catalogue blanks }
    requires place { place < 2 }
{
    let links = (no_links(alloc)?, no_links(alloc)?);
    make_server(alloc, config, catalogue, place, links, blanks)
}

/// Makes a server of the system J, which has links to one of the system I.
fn make_asked<'a, R, I: System, J: System>(
    alloc: Global,
    other: &'a Server<R, I, NoLink>,
    config: Config,
    catalogue: Catalogue<R, MemSource>,
    place: usize,
    blanks: Blanks,
) -> Result<Server<R, J, Other<'a, R, I, J>>, NoMemory>
    requires local { IsLocal J.System config.edge catalogue blanks }
    requires place { place < 2 }
    requires same { I.pictures ≡ J.pictures }
    requires stable { (name : List ℕ) → J.stable name → ∥ I.stable name ∥₁ }
    requires honest { IsTrue J.honest → IsTrue I.honest }
    ensures settings { IfOk result (λ n. n.settings ≡ config) }
    ensures items { IfOk result (λ n. n.items ≡ catalogue) }
{
    let links = (
        links_to(alloc, (other.groups(), other.groups()))?,
        links_to(alloc, (other.groups(), other.groups()))?,
    );
    make_server(alloc, config, catalogue, place, links, blanks)
}

/// Answers a call by a server of the system J, which asks a server of the system I. Where no server was made, nothing is written.
fn serve_pair<
    R: Threads + Wait + Clock + Sync,
    W: Outlet,
    I: System + Send + Sync,
    J: System + Send + Sync,
>(
    rt: &R,
    alloc: Global,
    pair: Pair<R>,
    configs: (Config, Config),
    blanks: (Blanks, Blanks),
    call: &Call,
    out: &mut W,
) -> Result<ServedByTwo, NoMemory>
    requires asked { IsLocal J.System configs.0.edge pair.asked blanks.0 }
    requires other { IsLocal I.System configs.1.edge pair.other blanks.1 }
    requires same { I.pictures ≡ J.pictures }
    requires stable { (name : List ℕ) → J.stable name → ∥ I.stable name ∥₁ }
    ensures sends { IfOk result (λ s. SendsOfMemory configs.0 pair.asked call.now W.contents W.fails out.old out.new s.outcome) }
    ensures untouched { OnErr result (out.new ≡ out.old) }
{
    let (place, other_place) = pair.places();
    let made: Server<R, I, NoLink> = make_other(
        alloc,
        configs.1,
        pair.other,
        other_place,
        blanks.1,
    )?;
    let other = &made;
    let node = make_asked::<R, I, J>(alloc, other, configs.0, pair.asked, place, blanks.0)?;
    let asked = &node;
    let Some(mut passes) = asked.pass(rt) else {
        return Err(AllocError);
    };
    let outcome = asked.serve_one(rt, alloc, slice::from_mut(&mut passes), call, out);
    asked.give_back(rt, passes);
    let (groups, others) = (asked.groups(), other.groups());
    Ok(ServedByTwo {
        outcome,
        tiles: (groups.tiles().book(rt), others.tiles().book(rt)),
        sums: (groups.sums().book(rt), others.sums().book(rt)),
    })
}

/// Makes the settings of another server as those of a first one. The only error is lack of memory.
fn same_config(alloc: Global, config: &Config) -> Result<Config, NoMemory> {
    match Config::new(
        alloc,
        config.base(),
        config.edge(),
        config.limits(),
        config.band(),
        config.workers(),
    ) {
        Ok(same) => Ok(same),
        Err(_) => Err(AllocError),
    }
}

/// Makes two servers over a file in memory, with these settings, and answers a call by one of them. It asks the other for each tile and
/// block that that owns; the other has no link. An image that is given is the one that is asked for, of the picture that the file shows,
/// whichever server loads its parts: no premise is left. Where no server was made, nothing is written.
pub fn serve_one_by_two<R: Threads + Wait + Clock + Sync, W: Outlet>(
    rt: &R,
    alloc: Global,
    image: &SharedImage<'_>,
    config: Config,
    call: &Call,
    out: &mut W,
) -> Result<ServedByTwo, PairFault>
    ensures sends { IfOk result (λ s. SendsOfMemory config (images_of image.now.name.now image.now.file.now) call.now W.contents W.fails
        out.old out.new s.outcome) }
    ensures shown { IfOk result (λ _. GivesShown config image.now.name.now image.now.file.now call.now) }
    ensures untouched { OnErr result (out.new ≡ out.old) }
{
    let edge = config.edge();
    let pair = Pair::new(rt, alloc, image.file, image.is_first, image.name, edge)?;
    let Ok(other) = same_config(alloc, &config) else {
        return Err(PairFault::Ask(Fault::NoMemory));
    };
    let configs = (config, other);
    match serve_pair::<R, W, Brand, Brand>(
        rt,
        alloc,
        pair,
        configs,
        (blanks(), blanks()),
        call,
        out,
    ) {
        Ok(served) => Ok(served),
        Err(_) => Err(PairFault::Ask(Fault::NoMemory)),
    }
}
