//! The settings of the server that the words name.

ghost use Rattle.std.specs.Prelude.{◌≡◌, true, None, IfOk};
ghost use Rattle.iiif_answers.specs.BaseUrl.{is_base_url};
ghost use Rattle.iiif_answers.specs.Settings.{refusal_of};
ghost use Rattle.iiif_program.specs.Lines.{settings_in};

use clap::ArgMatches;
use iiif_canonical::Limits;
use iiif_command_line::{LineFault, Listed, Options, options_in};
use iiif_connections::{Config, ConfigFault, is_base_url};
use iiif_start::Stop;
use std::alloc::Global;

/// Returns the base URL of the words.
fn base_in<'a>(matches: &ArgMatches<'a>) -> Result<&'a str, LineFault>
    ensures { IfOk result (λ b. is_base_url b.now ≡ true) }
{
    match matches.get_str("base") {
        Some(base) if is_base_url(base) => Ok(base),
        _ => Err(LineFault::Base),
    }
}

/// Reads the options of the words and of the images that are listed beside them, or finds the first of them that is wrong. Where the list
/// or the folder can't be read, that comes in its place, at the images.
#[tactic(auto, unfolding(iiif_answers::specs::Settings::refusal_of))]
pub(crate) fn options_of<'t, 'a: 't>(
    alloc: Global,
    matches: &ArgMatches<'a>,
    listed: Result<Listed<'t>, LineFault>,
) -> Result<Options<'t>, LineFault>
    ensures { IfOk result (λ o. refusal_of (settings_in o) ≡ None) }
{
    let base = base_in(matches)?;
    options_in(alloc, matches, base, listed)
}

/// Makes the settings in the options. Those of a line that isn't wrong are legal, so the only error is lack of memory.
pub(crate) fn config<'a>(alloc: Global, options: &Options<'a>) -> Result<Config, Stop<'a>>
    requires { refusal_of (settings_in options.now) ≡ None }
    ensures { IfOk result (λ c. c ≡ settings_in options.now) }
{
    let limits = Limits {
        max_w: options.max,
        max_h: options.max,
        upscale: options.upscale,
    };
    let (edge, band, workers) = (options.edge, options.band, options.workers);
    match Config::new(alloc, options.base, edge, limits, band, workers) {
        Ok(config) => Ok(config),
        Err(ConfigFault::NoMemory) => Err(Stop::Memory),
        Err(_) => unreachable!(),
    }
}
