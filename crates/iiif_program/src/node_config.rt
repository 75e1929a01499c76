//! The parts of the program's node.

ghost use Rattle.std.specs.Prelude.{◌≡◌, None, IfOk};
ghost use Rattle.iiif_answers.specs.Settings.{refusal_of};
ghost use Rattle.iiif_program.specs.Lines.{holding_in, settings_in};
ghost use Rattle.iiif_program.specs.Alone.{IsCatalogueOf};

use crate::settings::config;
use iiif_command_line::{Mode, Options};
use iiif_connections::{Catalogue, Config, Nodes, Room, Times, Watcher};
use iiif_open_files::{Opens, ReadFailures};
use iiif_peer_versions::FileVersions;
use iiif_start::{
    Held, Holding, Images, Opening, Stop, Stored, open_images, read_versions, report_unfit,
};
use std::alloc::Global;
use std::io::Write;
use std::sync::{Arc, Wait};

/// The parts of a node: its settings, its images, and the room of each group's cache; and how many images were left out.
#[derive(Drop)]
pub struct NodeConfig<R: Opens + Wait> {
    pub config: Config,
    pub catalogue: Catalogue<R, Stored<R>>,
    pub room: Room,
    pub unfit: u64,
}

/// Makes the parts of the options' node: the images are opened, and reads of them that fail are noted, where there is something to note them
/// in. Of those that are left out it is said why they can't be served. An image that is held has the digest that the options' manifest lists
/// of its path, where there is one, whatever the disk gave.
#[tactic(auto, using(crate::proofs::AloneLemmas::catalogue_of))]
pub fn open_node<'a, R: Opens + Wait, E: Write>(
    rt: &R,
    alloc: Global,
    options: &Options<'a>,
    failures: Option<&Arc<ReadFailures>>,
    err: &mut E,
) -> Result<NodeConfig<R>, Stop<'a>>
    requires { refusal_of (settings_in options.now) ≡ None }
    ensures config { IfOk result (λ m. m.config ≡ settings_in options.now) }
    ensures catalogue { IfOk result (λ m. IsCatalogueOf R.holds R.keeps (holding_in options.now) options.now.skip_unfit
        options.now.images.items m.catalogue) }
    ensures bytes { IfOk result (λ m. m.room.bytes ≡ options.now.cache_bytes) }
    ensures entries { IfOk result (λ m. m.room.entries ≡ options.now.cache_entries) }
{
    let config = config(alloc, options)?;
    let opening = Opening {
        open_files: options.open_files,
        holding: Holding {
            bytes: options.hold,
            bag: options.bag,
        },
        skip_unfit: options.skip_unfit,
        failures,
    };
    let opened = open_images(rt, alloc, &options.images, opening)?;
    // Where that can't be written, the others are served all the same.
    let _ = report_unfit(err, &opened.unfit);
    Ok(NodeConfig {
        config,
        unfit: opened.unfit.len() as u64,
        catalogue: opened.catalogue,
        room: Room {
            bytes: options.cache_bytes,
            entries: options.cache_entries,
        },
    })
}

/// Reads the versions of the images' files, where the options ask for them: all that are known now or, behind an earlier look, those that
/// are as they were then.
pub(crate) fn versions_for<'a, R: Opens>(
    rt: &R,
    alloc: Global,
    options: &Options<'a>,
    before: Option<&FileVersions>,
) -> Result<Option<FileVersions>, Stop<'a>> {
    if !options.peer_versions {
        return Ok(None);
    }
    Ok(Some(read_versions(rt, alloc, &options.images, before)?))
}

/// Counts the images of a node that is made of these.
pub(crate) fn images_of<'a, R: Opens + Wait>(
    made: &NodeConfig<R>,
    options: &Options<'a>,
) -> Images {
    Images {
        served: (options.images.len() as u64).saturating_sub(made.unfit),
        unfit: made.unfit,
        held: Held::among(&made.catalogue, &options.images),
    }
}

/// Makes the watcher of the nodes' answers, with a log where one is wanted, and of the asks of the options' other nodes. The only error is
/// lack of memory.
pub(crate) fn watcher_of<'a>(
    alloc: Global,
    options: &Options<'a>,
    logs: bool,
) -> Result<Watcher, Stop<'a>> {
    let listen = match options.mode {
        Mode::Listen { peers, .. } => peers.unwrap_or(""),
        Mode::One { .. } | Mode::Check => "",
    };
    let nodes = Nodes {
        own: options.name,
        listen,
        peers: &options.peers,
        ask: Times::within(options.limits).ask,
    };
    match Watcher::new(alloc, logs, &nodes) {
        Ok(watcher) => Ok(watcher),
        Err(_) => Err(Stop::Memory),
    }
}
