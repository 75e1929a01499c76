//! The links to other nodes, as they are told.

ghost use Rattle.std.specs.Prelude.{◌≡◌, ◌++◌, ◌∷◌, [], OnOk, IfOk, map, string_bytes};
ghost use Rattle.std.specs.List.{flat_map};
ghost use Rattle.iiif_metrics.specs.Exposition.{sample_line, sample_view};
ghost use Rattle.iiif_metrics.specs.Links.{asks_of_link, ask_samples, bucket_samples, head_lines, label_byte, label_text, link_number};
ghost use Rattle.iiif_metrics.specs.Links.{link_labels, link_sample, links_text, refusals_of_link, seconds_text, state_number, state_of_link};
ghost use Rattle.iiif_metrics.specs.Links.{sum_line};

use crate::metrics::LinkMetrics;
use crate::text::{
    MetricKind, NoMemory, Sample, push_help, push_sample, push_samples, push_type, sample_of,
};
use iiif_breaker::{Asks, Durations, State};
use std::alloc::Global;
use std::fmt::Write;

/// The family of the asks.
const ASKS: &str = "iiif_peer_asks_total";

/// The family of the states.
const STATE: &str = "iiif_peer_state";

/// The family of the images for which asks were refused.
const REFUSED: &str = "iiif_peer_refused_images_total";

/// The family of the times.
const SECONDS: &str = "iiif_peer_ask_seconds";

/// Writes a byte of the value of a label.
fn push_label_byte(text: &mut Vec<u8>, byte: u8) -> Result<(), NoMemory>
    ensures { OnOk result (text.new.items ≡ text.old.items ++ label_byte byte) }
{
    match byte {
        b'\\' => text.extend_from_slice(b"\\\\"),
        b'"' => text.extend_from_slice(b"\\\""),
        b'\n' => text.extend_from_slice(b"\\n"),
        _ => {
            text.push(byte)?;
            Ok(())
        }
    }
}

/// Writes the value of a label, in which the backslash, quotes and line feeds are escaped, as the format has it.
fn push_label(text: &mut Vec<u8>, value: &[u8]) -> Result<(), NoMemory>
    ensures { OnOk result (text.new.items ≡ text.old.items ++ label_text value.now) }
{
    for byte in value {
        push_label_byte(text, *byte)?;
    }
    Ok(())
}

/// Writes the line of a sample of a node. Its labels are the node's name and what stands behind that.
#[tactic(auto, unfolding(crate::specs::Exposition::sample_line))]
fn push_link_sample(
    alloc: Global,
    text: &mut Vec<u8>,
    name: &str,
    peer: &str,
    sample: &Sample<'_>,
) -> Result<(), NoMemory>
    ensures { OnOk result (text.new.items ≡ text.old.items ++ sample_line name.now (link_sample peer.now (sample_view sample.now))) }
{
    text.extend_from_slice(name.as_bytes())?;
    text.extend_from_slice(b"{peer=\"")?;
    push_label(text, peer.as_bytes())?;
    text.extend_from_slice(sample.labels.as_bytes())?;
    let value = sample.value;
    let number = format!(in alloc; " {value}\n")?;
    text.extend_from_slice(number.as_bytes())
}

/// Writes the lines of samples of a node.
fn push_link_samples(
    alloc: Global,
    text: &mut Vec<u8>,
    name: &str,
    peer: &str,
    samples: &[Sample<'_>],
) -> Result<(), NoMemory>
    ensures { OnOk result (text.new.items ≡ text.old.items ++ flat_map (sample_line name.now)
        (map (link_sample peer.now) (map sample_view samples.now))) }
{
    for sample in samples {
        push_link_sample(alloc, text, name, peer, sample)?;
    }
    Ok(())
}

/// Counts how a node's asks ended.
fn ask_samples_of(asks: &Asks) -> [Sample<'static>; 5]
    ensures { map sample_view result ≡ ask_samples asks.now }
{
    [
        sample_of("\",outcome=\"answered\"}", asks.answered),
        sample_of("\",outcome=\"refused\"}", asks.refused),
        sample_of("\",outcome=\"failed\"}", asks.failed),
        sample_of("\",outcome=\"late\"}", asks.timed_out),
        sample_of("\",outcome=\"left_alone\"}", asks.skipped),
    ]
}

/// Writes how the asks of a node ended.
fn push_asks(alloc: Global, text: &mut Vec<u8>, link: &LinkMetrics) -> Result<(), NoMemory>
    ensures { OnOk result (text.new.items ≡ text.old.items ++ asks_of_link link.now) }
{
    let samples = ask_samples_of(&link.asks);
    push_link_samples(alloc, text, ASKS, link.name.as_str(), &samples)?;
    Ok(())
}

/// Returns the number for a state.
fn state_number(state: State) -> u64
    ensures { result ≡ state_number state }
{
    match state {
        State::Closed { .. } => 0,
        State::HalfOpen { .. } => 1,
        State::Open { .. } => 2,
    }
}

/// Returns the number for a link: for its state, or for a node that is the one that asks.
fn link_number(link: &LinkMetrics) -> u64
    ensures { result ≡ link_number link.now }
{
    if link.is_itself {
        3
    } else {
        state_number(link.state)
    }
}

/// Writes whether a node is asked.
fn push_state(alloc: Global, text: &mut Vec<u8>, link: &LinkMetrics) -> Result<(), NoMemory>
    ensures { OnOk result (text.new.items ≡ text.old.items ++ state_of_link link.now) }
{
    let sample = sample_of("\"}", link_number(link));
    push_link_sample(alloc, text, STATE, link.name.as_str(), &sample)
}

/// Writes for how many images a node refused asks.
fn push_refusals(alloc: Global, text: &mut Vec<u8>, link: &LinkMetrics) -> Result<(), NoMemory>
    ensures { OnOk result (text.new.items ≡ text.old.items ++ refusals_of_link link.now) }
{
    let sample = sample_of("\"}", link.refused_images);
    push_link_sample(alloc, text, REFUSED, link.name.as_str(), &sample)
}

/// Writes the lines of help and of type of a family.
fn push_head(
    alloc: Global,
    text: &mut Vec<u8>,
    name: &str,
    help: &str,
    kind: MetricKind,
) -> Result<(), NoMemory>
    ensures { OnOk result (text.new.items ≡ text.old.items ++ head_lines name.now help.now kind) }
{
    let mut head = String::new(alloc);
    push_help(&mut head, "", name, help)?;
    push_type(&mut head, "", name, kind)?;
    text.extend_from_slice(head.as_bytes())
}

/// Writes how the asks of each node ended.
fn push_all_asks(alloc: Global, text: &mut Vec<u8>, links: &[LinkMetrics]) -> Result<(), NoMemory>
    ensures { OnOk result (text.new.items ≡ text.old.items ++ flat_map asks_of_link links.now) }
{
    for link in links {
        push_asks(alloc, text, link)?;
    }
    Ok(())
}

/// Writes whether each node is asked.
fn push_all_states(alloc: Global, text: &mut Vec<u8>, links: &[LinkMetrics]) -> Result<(), NoMemory>
    ensures { OnOk result (text.new.items ≡ text.old.items ++ flat_map state_of_link links.now) }
{
    for link in links {
        push_state(alloc, text, link)?;
    }
    Ok(())
}

/// Writes for how many images each node refused asks.
fn push_all_refusals(
    alloc: Global,
    text: &mut Vec<u8>,
    links: &[LinkMetrics],
) -> Result<(), NoMemory>
    ensures { OnOk result (text.new.items ≡ text.old.items ++ flat_map refusals_of_link links.now) }
{
    for link in links {
        push_refusals(alloc, text, link)?;
    }
    Ok(())
}

/// Writes what is told of each link.
pub(crate) fn push_links(
    alloc: Global,
    text: &mut Vec<u8>,
    links: &[LinkMetrics],
) -> Result<(), NoMemory>
    ensures { OnOk result (text.new.items ≡ text.old.items ++ links_text links.now) }
{
    push_head(
        alloc,
        text,
        ASKS,
        "Asks of another node by how they ended, and those that weren't made.",
        MetricKind::Counter,
    )?;
    push_all_asks(alloc, text, links)?;
    push_head(
        alloc,
        text,
        STATE,
        "0 where another node is asked, 1 where one ask tries it, 2 where it is left alone, 3 where it is this node.",
        MetricKind::Gauge,
    )?;
    push_all_states(alloc, text, links)?;
    push_head(
        alloc,
        text,
        REFUSED,
        "Images for which another node refused asks.",
        MetricKind::Counter,
    )?;
    push_all_refusals(alloc, text, links)?;
    Ok(())
}

/// Counts the asks that took at most so long.
fn bucket_samples_of(within: &[u64; 8], all: u64) -> [Sample<'static>; 9]
    ensures { map sample_view result ≡ bucket_samples within.now all }
{
    [
        sample_of("{le=\"0.001\"}", within[0]),
        sample_of("{le=\"0.005\"}", within[1]),
        sample_of("{le=\"0.01\"}", within[2]),
        sample_of("{le=\"0.05\"}", within[3]),
        sample_of("{le=\"0.1\"}", within[4]),
        sample_of("{le=\"0.5\"}", within[5]),
        sample_of("{le=\"1\"}", within[6]),
        sample_of("{le=\"10\"}", within[7]),
        sample_of("{le=\"+Inf\"}", all),
    ]
}

/// Writes the line of the sum of all times, which is one of seconds.
#[tactic(auto, unfolding(crate::specs::Links::sum_line))]
fn push_sum(text: &mut String, micros: u64) -> Result<(), NoMemory>
    ensures { OnOk result (string_bytes text.new ≡ string_bytes text.old ++ sum_line micros) }
{
    write!(text, "iiif_peer_ask_seconds_sum {micros}e-6\n")
}

/// Writes how long all asks took.
pub(crate) fn push_seconds(text: &mut String, durations: &Durations) -> Result<(), NoMemory>
    ensures { OnOk result (string_bytes text.new ≡ string_bytes text.old ++ seconds_text durations.now) }
{
    push_help(text, "", SECONDS, "How long asks of other nodes took.")?;
    push_type(text, "", SECONDS, MetricKind::Histogram)?;
    let samples = bucket_samples_of(&durations.within, durations.all);
    push_samples(text, "", "iiif_peer_ask_seconds_bucket", &samples)?;
    push_sum(text, durations.micros)?;
    push_sample(text, "", "iiif_peer_ask_seconds_count", "", durations.all)?;
    Ok(())
}
