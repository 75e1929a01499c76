//! Caches of a node that answers one target, and is asked nothing again.

ghost use Rattle.std.specs.Prelude.{◌≡◌, None, IfOk};
ghost use Rattle.iiif_answers.specs.Outcomes.{IsReady};
ghost use Rattle.iiif_answers.specs.Settings.{refusal_of};
ghost use Rattle.iiif_program.specs.Lines.{holding_in, settings_in};
ghost use Rattle.iiif_program.specs.Alone.{IsCatalogueOf};

use crate::node_config::{NodeConfig, open_node};
use crate::work::One;
use iiif_answers::accepted::Accepted;
use iiif_answers::images::job_of;
use iiif_answers::outcome::{Outcome, outcome_of};
use iiif_assemble::asks_again;
use iiif_command_line::Options;
use iiif_connections::{Config, Room};
use iiif_open_files::Opens;
use iiif_start::{Stop, Stored};
use iiif_tile_group::ImageEntry;
use std::alloc::Global;
use std::io::Write;
use std::sync::Wait;

/// Returns whether an accepted request may ask for a tile or a block twice. Where memory lacks it may.
fn repeats<R: Opens + Wait>(
    alloc: Global,
    config: &Config,
    entry: &ImageEntry<R, Stored<R>>,
    accepted: &Accepted,
) -> bool
    requires ready { IsReady entry.now.layout accepted.now }
{
    let Ok(job) = job_of(alloc, config.edge(), entry, accepted) else {
        return true;
    };
    match asks_again(alloc, &job, config.band()) {
        Ok(again) => again,
        Err(_) => true,
    }
}

/// Returns whether the answer to a target may ask for a tile or a block twice. A refusal and the information ask for none.
fn target_repeats<R: Opens + Wait>(alloc: Global, made: &NodeConfig<R>, target: &str) -> bool {
    match outcome_of(alloc, &made.config, &made.catalogue, target.as_bytes()) {
        Outcome::Image(entry, accepted) => repeats(alloc, &made.config, entry, &accepted),
        _ => false,
    }
}

/// Opens the images of a node that answers one target. Unless the words say how many bytes its caches keep, they keep nothing where the
/// answer asks for nothing twice.
pub(crate) fn open_for_one<'a, R: Opens + Wait, E: Write>(
    rt: &R,
    alloc: Global,
    options: &Options<'a>,
    one: &One<'_>,
    err: &mut E,
) -> Result<NodeConfig<R>, Stop<'a>>
    requires { refusal_of (settings_in options.now) ≡ None }
    ensures config { IfOk result (λ m. m.config ≡ settings_in options.now) }
    ensures catalogue { IfOk result (λ m. IsCatalogueOf R.holds R.keeps (holding_in options.now) options.now.skip_unfit
        options.now.images.items m.catalogue) }
{
    let mut made = open_node(rt, alloc, options, None, err)?;
    if !one.cache_given && !target_repeats(alloc, &made, one.target) {
        made.room = Room {
            bytes: 0,
            entries: made.room.entries,
        };
    }
    Ok(made)
}
