//! The answer to one target by a node that asks no other.

ghost use Rattle.std.specs.Prelude.{◌≡◌, ◌<◌, ◌^◌, ℕ, List, Some, true};
ghost use Rattle.std.specs.Io.KnownBytes.{Appends};
ghost use Rattle.iiif_source.specs.declared.ReadFault.{ReadFault};
ghost use Rattle.iiif_tile_group.specs.Collection.{item_named};
ghost use Rattle.iiif_tile_group.specs.Named.{gave_of, pictures_of};
ghost use Rattle.iiif_connections.specs.Held.{AllHeld};
ghost use Rattle.iiif_program.specs.Alone.{IsAnswerOfHeld};
ghost use Rattle.iiif_start.specs.Stored.{bytes_of, keeps_of, stored_gave};
ghost use Rattle.iiif_keys.specs.Ledgers.{all_parts};

use crate::node_config::NodeConfig;
use crate::one::answer_one;
use iiif_connections::Node;
use iiif_io::Outlet;
use iiif_keys::{PARTS, System};
use iiif_open_files::Opens;
use iiif_start::{Stop, Stored};
use std::alloc::Global;
use std::marker::Brand;
use std::sync::Wait;
use std::sync::ledger::Blank;
use std::thread::Threads;
use std::time::Clock;

/// The target that is asked for. It has a type of its own, since ghost members can't be picked at a call that takes a `&str`.
#[derive(Drop)]
struct Asked<'t> {
    target: &'t str,
}

/// Makes a node that asks no other, and writes the body of its answer to a target. Where all its images are held in memory, nothing is
/// assumed in what is said of the answer: an image that is written is, pixel for pixel, the one that is asked for, of the bytes in memory.
pub fn answer_alone<'a, R, O>(
    rt: &R,
    alloc: Global,
    alone: NodeConfig<R>,
    target: &str,
    out: &mut O,
) -> Result<(), Stop<'a>>
where
    R: Opens + Threads + Wait + Clock + Sync,
    R::Handle: Send + Sync,
    O: Outlet,
    ensures held { AllHeld alone.catalogue → (text : List ℕ) × Appends (O.contents out.old) (O.contents out.new) text
        × IsAnswerOfHeld (bytes_of R.holds) alone.config alone.catalogue target.now ((before : O) × O.fails before out.new) text result }
{
    let (tiles, sums) = (Blank::new(PARTS), Blank::new(PARTS));
    let asked = Asked { target };
    answer_counted::<R, O, Brand>(rt, alloc, alone, (tiles, sums), &asked, out)
}

/// Answers so, where J says what the images' names stand for, and which ledgers count the calls.
fn answer_counted<'a, R, O, J: System + Send + Sync>(
    rt: &R,
    alloc: Global,
    alone: NodeConfig<R>,
    blanks: (Blank, Blank),
    asked: &Asked<'_>,
    out: &mut O,
) -> Result<(), Stop<'a>>
where
    R: Opens + Threads + Wait + Clock + Sync,
    R::Handle: Send + Sync,
    O: Outlet,
    requires pictures { (name : List ℕ) → J.pictures name ≡ pictures_of (bytes_of R.holds) alone.catalogue name }
    requires gave { (name : List ℕ) (f : ReadFault) → J.gave name f ≡ gave_of stored_gave alone.catalogue name f }
    requires stable { (name : List ℕ) (item : _) → item_named alone.catalogue name ≡ Some item → J.stable name →
        ∥ keeps_of R.keeps item.source ∥₁ }
    requires kept { (name : List ℕ) (item : _) → item_named alone.catalogue name ≡ Some item → keeps_of R.keeps item.source →
        J.stable name }
    requires edge { alone.config.edge ≡ J.edge }
    requires honest { J.honest ≡ true }
    requires tiles { (blanks.0.name ≡ J.tiles_name) × (blanks.0.parts ≡ J.tiles_parts) × (J.tiles_parts ≡ all_parts) }
    requires sums { (blanks.1.name ≡ J.sums_name) × (blanks.1.parts ≡ J.sums_parts) × (J.sums_parts ≡ all_parts) }
    ensures held { AllHeld alone.catalogue → (text : List ℕ) × Appends (O.contents out.old) (O.contents out.new) text
        × IsAnswerOfHeld (bytes_of R.holds) alone.config alone.catalogue asked.now.target.now ((before : O) × O.fails before out.new) text
        result }
{
    let NodeConfig {
        config,
        catalogue,
        room,
        ..
    } = alone;
    let workers = config.workers();
    let (tiles, sums) = blanks;
    let Ok(node) = Node::<R, Stored<R>, J>::alone(alloc, config, catalogue, room, tiles, sums)
    else {
        return Err(Stop::Memory);
    };
    answer_one(rt, alloc, &node, workers, asked.target, out)
}
