//! The answer to the one target of the words.

ghost use Rattle.std.specs.Prelude.{◌≡◌, ◌<◌, ◌^◌, ℕ, List, Some, None, IsTrue};
ghost use Rattle.iiif_source.specs.declared.ReadFault.{ReadFault};
ghost use Rattle.iiif_tile_group.specs.Collection.{item_named};
ghost use Rattle.iiif_tile_group.specs.Named.{gave_of, pictures_of};
ghost use Rattle.iiif_start.specs.Stored.{bytes_of, keeps_of, stored_gave};
ghost use Rattle.iiif_answers.specs.Settings.{refusal_of};
ghost use Rattle.iiif_program.specs.Lines.{settings_in};
ghost use Rattle.iiif_keys.specs.Ledgers.{all_parts};
ghost use Rattle.iiif_peer_link.specs.Honest.{IsHonestTo};
ghost use Rattle.iiif_peer_versions.specs.Keys.{IsSpelled};
ghost use Rattle.iiif_peer_versions.specs.Told.{told_by};

use crate::keeping::open_for_one;
use crate::node_config::{NodeConfig, versions_for, watcher_of};
use crate::one::{answer_in_hex, answer_one, write_in_hex};
use crate::opened::answer_opened;
use crate::work::One;
use iiif_command_line::Options;
use iiif_connections::{Watcher, among};
use iiif_io::Outlet;
use iiif_keys::{PARTS, System};
use iiif_open_files::Opens;
use iiif_peer_link::Reaches;
use iiif_peer_versions::FileVersions;
use iiif_start::Stop;
use std::alloc::Global;
use std::io::Write;
use std::marker::Brand;
use std::net::{Net, TcpListener, TcpStream};
use std::rt::Clock;
use std::sync::Wait;
use std::sync::ledger::Blank;
use std::thread::Threads;

/// Writes the body of the answer to a target, by a node as the options ask for. Of images that are left out it is said why.
pub(crate) fn answer_target<'a, R, O, E>(
    rt: &R,
    alloc: Global,
    options: &Options<'a>,
    one: &One<'_>,
    out: &mut O,
    err: &mut E,
) -> Result<(), Stop<'a>>
where
    R: Opens
        + Net<Listener = TcpListener, Stream = TcpStream>
        + Threads
        + Wait
        + Clock
        + Sync
        + AllocGlobal,
    R::Handle: Send + Sync,
    O: Outlet,
    E: Write,
    requires { refusal_of (settings_in options.now) ≡ None }
{
    let before = versions_for(rt, alloc, options, None)?;
    if options.peers.is_empty() {
        return write_one_alone(rt, alloc, options, one, out, err);
    }
    let made = open_for_one(rt, alloc, options, one, err)?;
    let versions = versions_for(rt, alloc, options, before.as_ref())?;
    let watcher = watcher_of(alloc, options, false)?;
    watcher.peers.look_up(rt, alloc);
    write_among(rt, made, &watcher, &versions, one, out)
}

/// Writes the body of the answer to a target by a node that is made now and asks the watcher's others.
fn write_among<'a, R, O>(
    rt: &R,
    made: NodeConfig<R>,
    watcher: &Watcher,
    versions: &Option<FileVersions>,
    one: &One<'_>,
    out: &mut O,
) -> Result<(), Stop<'a>>
where
    R: Opens
        + Net<Listener = TcpListener, Stream = TcpStream>
        + Threads
        + Wait
        + Clock
        + Sync
        + AllocGlobal,
    R::Handle: Send + Sync,
    O: Outlet,
{
    let blanks = (Blank::new(PARTS), Blank::new(PARTS));
    let versions = versions.as_ref();
    write_one_among::<R, O, Brand>(rt, made, blanks, watcher, versions, one, out)
}

/// Writes the body of the answer to a target by a node that asks no other, perhaps as hexadecimal digits.
fn write_one_alone<'a, R, O, E>(
    rt: &R,
    alloc: Global,
    options: &Options<'a>,
    one: &One<'_>,
    out: &mut O,
    err: &mut E,
) -> Result<(), Stop<'a>>
where
    R: Opens + Threads + Wait + Clock + Sync,
    R::Handle: Send + Sync,
    O: Outlet,
    E: Write,
    requires { refusal_of (settings_in options.now) ≡ None }
{
    if !one.hex {
        return answer_opened(rt, alloc, options, one, out, err);
    }
    let mut body = Vec::new(alloc);
    let answered = answer_opened(rt, alloc, options, one, &mut body, err);
    write_in_hex(answered, &body, out)
}

/// Writes the body of the answer to a target by a node that asks the watcher's others, by these versions of the images' files, if any;
/// perhaps as hexadecimal digits.
fn write_one_among<'a, R, O, J: System + Send + Sync>(
    rt: &R,
    made: NodeConfig<R>,
    blanks: (Blank, Blank),
    watcher: &Watcher,
    versions: Option<&FileVersions>,
    one: &One<'_>,
    out: &mut O,
) -> Result<(), Stop<'a>>
where
    R: Opens
        + Reaches<Line = TcpStream>
        + Net<Listener = TcpListener, Stream = TcpStream>
        + Threads
        + Wait
        + Clock
        + Sync
        + AllocGlobal,
    R::Handle: Send + Sync,
    O: Outlet,
    requires pictures { (name : List ℕ) → J.pictures name ≡ pictures_of (bytes_of R.holds) made.catalogue name }
    requires gave { (name : List ℕ) (f : ReadFault) → J.gave name f ≡ gave_of stored_gave made.catalogue name f }
    requires stable { (name : List ℕ) (item : _) → item_named made.catalogue name ≡ Some item → J.stable name →
        ∥ keeps_of R.Opens.keeps item.source ∥₁ }
    requires kept { (name : List ℕ) (item : _) → item_named made.catalogue name ≡ Some item → keeps_of R.Opens.keeps item.source →
        J.stable name }
    requires edge { made.config.edge ≡ J.edge }
    requires honest { IsTrue J.honest → IsTrue R.Reaches.keeps
        × IsHonestTo (IsSpelled (told_by versions)) R.answers J.stable J.pictures }
    requires tiles { (blanks.0.name ≡ J.tiles_name) × (blanks.0.parts ≡ J.tiles_parts) × (J.tiles_parts ≡ all_parts) }
    requires sums { (blanks.1.name ≡ J.sums_name) × (blanks.1.parts ≡ J.sums_parts) × (J.sums_parts ≡ all_parts) }
{
    let NodeConfig {
        config,
        catalogue,
        room,
        ..
    } = made;
    let (alloc, workers) = (rt.alloc(), config.workers());
    let Ok(node) = among::<R, R, J>(alloc, config, catalogue, watcher, versions, room, blanks)
    else {
        return Err(Stop::Memory);
    };
    if one.hex {
        answer_in_hex(rt, alloc, &node, workers, one.target, out)
    } else {
        answer_one(rt, alloc, &node, workers, one.target, out)
    }
}
