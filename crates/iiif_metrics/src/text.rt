//! The text format.

ghost use Rattle.std.specs.Prelude.{◌≡◌, ◌++◌, ℕ, List, IfOk, OnOk, map, string_bytes};
ghost use Rattle.std.specs.List.{flat_map};
ghost use Rattle.iiif_metrics.specs.Exposition.{answer_family, cache_families, cut_family, cut_samples, family_of, family_text};
ghost use Rattle.iiif_metrics.specs.Exposition.{families_text, held_families, image_families, ousted_family};
ghost use Rattle.iiif_metrics.specs.Exposition.{help_line, kind_word, listener_samples, open_family, refused_family, row_family};
ghost use Rattle.iiif_metrics.specs.Exposition.{sample_line, sample_view, server_families, single, status_samples, type_line};
ghost use Rattle.iiif_metrics.specs.Page.{text_of};
ghost use Rattle.iiif_metrics.specs.declared.text.MetricKind.TheVariants as MetricKind;

use crate::links::{push_links, push_seconds};
use crate::metrics::{CacheMetrics, HeldMetrics, ImageMetrics, Metrics, PeerMetrics};
use crate::times::push_times;
pub use std::alloc::AllocError as NoMemory;
use std::alloc::Global;
use std::fmt::Write;

/// Room for a text of the usual length.
const USUAL_LENGTH: usize = 4096;

/// The type of a family of samples.
#[derive(Clone, Copy, PartialEq, Eq)]
pub enum MetricKind {
    /// It never falls while the server runs.
    Counter,
    Gauge,
    /// How many took at most so long, for some limits.
    Histogram,
}

/// A family of one sample.
#[derive(Clone, Copy)]
pub struct Row<'a> {
    /// The name, without its front.
    pub name: &'a str,
    pub help: &'a str,
    pub kind: MetricKind,
    pub value: u64,
}

/// A sample of a family.
#[derive(Clone, Copy)]
pub struct Sample<'a> {
    pub labels: &'a str,
    pub value: u64,
}

/// Makes the family of a number that only grows.
fn counter(name: &'static str, help: &'static str, value: u64) -> Row<'static>
    ensures { (front : List ℕ) → row_family front result ≡ single (front ++ name.now) help.now MetricKind.Counter value }
{
    let kind = MetricKind::Counter;
    Row {
        name,
        help,
        kind,
        value,
    }
}

/// Makes the family of a number that grows and falls.
fn gauge(name: &'static str, help: &'static str, value: u64) -> Row<'static>
    ensures { (front : List ℕ) → row_family front result ≡ single (front ++ name.now) help.now MetricKind.Gauge value }
{
    let kind = MetricKind::Gauge;
    Row {
        name,
        help,
        kind,
        value,
    }
}

/// Returns the word for a type.
fn kind_text(kind: MetricKind) -> &'static str
    ensures { result.now ≡ kind_word kind }
{
    match kind {
        MetricKind::Counter => "counter",
        MetricKind::Gauge => "gauge",
        MetricKind::Histogram => "histogram",
    }
}

/// Writes the line of help of a family of that name.
#[tactic(auto, unfolding(crate::specs::Exposition::help_line))]
pub(crate) fn push_help(
    text: &mut String,
    front: &str,
    name: &str,
    help: &str,
) -> Result<(), NoMemory>
    ensures { OnOk result (string_bytes text.new ≡ string_bytes text.old ++ help_line (front.now ++ name.now) help.now) }
{
    write!(text, "# HELP {front}{name} {help}\n")
}

/// Writes the line of type of a family of that name.
#[tactic(auto, unfolding(crate::specs::Exposition::type_line))]
pub(crate) fn push_type(
    text: &mut String,
    front: &str,
    name: &str,
    kind: MetricKind,
) -> Result<(), NoMemory>
    ensures { OnOk result (string_bytes text.new ≡ string_bytes text.old ++ type_line (front.now ++ name.now) kind) }
{
    let word = kind_text(kind);
    write!(text, "# TYPE {front}{name} {word}\n")
}

/// Writes the line of a sample.
#[tactic(auto, unfolding(crate::specs::Exposition::sample_line))]
pub(crate) fn push_sample(
    text: &mut String,
    front: &str,
    name: &str,
    labels: &str,
    value: u64,
) -> Result<(), NoMemory>
    ensures { OnOk result (string_bytes text.new ≡ string_bytes text.old ++ sample_line (front.now ++ name.now) (labels.now, value)) }
{
    write!(text, "{front}{name}{labels} {value}\n")
}

/// Writes the lines of a family of one sample.
fn push_row(text: &mut String, front: &str, row: &Row<'_>) -> Result<(), NoMemory>
    ensures { OnOk result (string_bytes text.new ≡ string_bytes text.old ++ family_text (row_family front.now row.now)) }
{
    push_help(text, front, row.name, row.help)?;
    push_type(text, front, row.name, row.kind)?;
    push_sample(text, front, row.name, "", row.value)
}

/// Writes the lines of families of one sample each.
fn push_rows(text: &mut String, front: &str, rows: &[Row<'_>]) -> Result<(), NoMemory>
    ensures { OnOk result (string_bytes text.new ≡ string_bytes text.old ++ families_text (map (row_family front.now) rows.now)) }
{
    for row in rows {
        push_row(text, front, row)?;
    }
    Ok(())
}

/// Returns the counts of a cache and its flights, and of the values that are kept.
fn cache_rows(cache: &CacheMetrics) -> [Row<'static>; 11]
    ensures { (front : List ℕ) → map (row_family front) result ≡ cache_families front cache.now }
{
    let book = cache.book;
    [
        counter("gets_total", "Calls that asked for a value.", book.gets),
        counter("hits_total", "Calls that met a kept value.", book.hits),
        counter(
            "joins_total",
            "Calls that joined a load in flight.",
            book.joins,
        ),
        counter("leads_total", "Calls that began a load.", book.leads),
        counter(
            "again_hits_total",
            "Loads whose leader found the value kept by then.",
            book.again_hits,
        ),
        counter("loads_total", "Loads that were made.", book.loads),
        counter(
            "peer_total",
            "Loads whose value came from another node.",
            book.peer,
        ),
        counter("landed_total", "Loads that ended.", book.landed),
        counter(
            "faults_total",
            "Loads that ended with a fault.",
            book.faults,
        ),
        gauge("bytes", "Bytes of kept values and their keys.", cache.bytes),
        gauge("entries", "Kept values.", cache.entries),
    ]
}

/// Counts the images whose files are held in memory.
fn held_rows(held: &HeldMetrics) -> [Row<'static>; 2]
    ensures { (front : List ℕ) → map (row_family front) result ≡ held_families front held.now }
{
    [
        gauge(
            "bytes",
            "Bytes of the images' files that are held in memory.",
            held.bytes,
        ),
        gauge(
            "images",
            "Images whose files are held in memory.",
            held.images,
        ),
    ]
}

/// Counts the images that the start named.
fn image_rows(images: &ImageMetrics) -> [Row<'static>; 4]
    ensures { (front : List ℕ) → map (row_family front) result ≡ image_families front images.now }
{
    [
        gauge("images", "Images that are served.", images.served),
        gauge(
            "images_unfit",
            "Images that can't be served, and are left out.",
            images.unfit,
        ),
        counter(
            "images_other_versions_total",
            "Other nodes' asks for another version of an image, once a node and an image.",
            images.other_versions,
        ),
        counter(
            "read_failures_total",
            "Reads of images' files that failed.",
            images.read_failures,
        ),
    ]
}

/// Returns the counts of answers, whatever their status, of what was kept beside one of them, and of lost lines, and the server's start.
fn server_rows(metrics: &Metrics) -> [Row<'static>; 4]
    ensures { (front : List ℕ) → map (row_family front) result ≡ server_families front metrics.now }
{
    [
        counter(
            "answer_bytes_total",
            "Bytes of answers and their heads.",
            metrics.counts.bytes,
        ),
        gauge(
            "answer_kept_most",
            "Samples and sums of shared values that were kept beside one answer, at most.",
            metrics.kept,
        ),
        counter(
            "log_lines_lost_total",
            "Lines of the log that were lost.",
            metrics.lost_lines,
        ),
        gauge(
            "start_time_seconds",
            "When the server was started, in seconds since 1970.",
            metrics.started,
        ),
    ]
}

/// Writes the lines of samples of one family.
pub(crate) fn push_samples(
    text: &mut String,
    front: &str,
    name: &str,
    samples: &[Sample<'_>],
) -> Result<(), NoMemory>
    ensures { OnOk result (string_bytes text.new ≡ string_bytes text.old ++ flat_map (sample_line (front.now ++ name.now))
        (map sample_view samples.now)) }
{
    for sample in samples {
        push_sample(text, front, name, sample.labels, sample.value)?;
    }
    Ok(())
}

/// Makes a sample with these labels.
pub(crate) fn sample_of(labels: &'static str, value: u64) -> Sample<'static>
    ensures { sample_view result ≡ (labels.now, value) }
{
    Sample { labels, value }
}

/// Counts the answers of each status.
fn status_samples_in(whole: &[u64; 8]) -> [Sample<'static>; 8]
    ensures { map sample_view result ≡ status_samples whole.now }
{
    [
        sample_of("{status=\"200\"}", whole[0]),
        sample_of("{status=\"303\"}", whole[1]),
        sample_of("{status=\"400\"}", whole[2]),
        sample_of("{status=\"404\"}", whole[3]),
        sample_of("{status=\"405\"}", whole[4]),
        sample_of("{status=\"500\"}", whole[5]),
        sample_of("{status=\"501\"}", whole[6]),
        sample_of("{status=\"other\"}", whole[7]),
    ]
}

/// Counts the answers that were cut off for each cause.
fn cut_samples_in(cut: &[u64; 6]) -> [Sample<'static>; 6]
    ensures { map sample_view result ≡ cut_samples cut.now }
{
    [
        sample_of("{cause=\"viewer\"}", cut[0]),
        sample_of("{cause=\"slow\"}", cut[1]),
        sample_of("{cause=\"rate\"}", cut[2]),
        sample_of("{cause=\"source\"}", cut[3]),
        sample_of("{cause=\"memory\"}", cut[4]),
        sample_of("{cause=\"ousted\"}", cut[5]),
    ]
}

/// Returns the counts of each listener.
fn listener_samples_in(counts: &[u64; 3]) -> [Sample<'static>; 3]
    ensures { map sample_view result ≡ listener_samples counts.now }
{
    [
        sample_of("{listener=\"viewers\"}", counts[0]),
        sample_of("{listener=\"peers\"}", counts[1]),
        sample_of("{listener=\"statistics\"}", counts[2]),
    ]
}

/// Writes the lines of a family of samples with labels.
fn push_family(
    text: &mut String,
    name: &str,
    help: &str,
    kind: MetricKind,
    samples: &[Sample<'_>],
) -> Result<(), NoMemory>
    ensures { OnOk result (string_bytes text.new ≡ string_bytes text.old ++ family_text (family_of name.now help.now kind samples.now)) }
{
    push_help(text, "", name, help)?;
    push_type(text, "", name, kind)?;
    push_samples(text, "", name, samples)?;
    Ok(())
}

/// Writes the connections that are open, by listener.
fn push_open(text: &mut String, open_now: &[u64; 3]) -> Result<(), NoMemory>
    ensures { OnOk result (string_bytes text.new ≡ string_bytes text.old ++ family_text (open_family open_now.now)) }
{
    push_family(
        text,
        "iiif_connections_open",
        "Connections that are open.",
        MetricKind::Gauge,
        &listener_samples_in(open_now),
    )
}

/// Writes those that were closed unanswered, by listener.
fn push_refused(text: &mut String, refused: &[u64; 3]) -> Result<(), NoMemory>
    ensures { OnOk result (string_bytes text.new ≡ string_bytes text.old ++ family_text (refused_family refused.now)) }
{
    push_family(
        text,
        "iiif_connections_refused_total",
        "Connections that were closed unanswered.",
        MetricKind::Counter,
        &listener_samples_in(refused),
    )
}

/// Writes those whose place another one was given, by listener.
fn push_ousted(text: &mut String, ousted: &[u64; 3]) -> Result<(), NoMemory>
    ensures { OnOk result (string_bytes text.new ≡ string_bytes text.old ++ family_text (ousted_family ousted.now)) }
{
    push_family(
        text,
        "iiif_connections_ousted_total",
        "Connections that were closed for another one.",
        MetricKind::Counter,
        &listener_samples_in(ousted),
    )
}

/// Writes the answers that were cut off, by cause.
fn push_cut(text: &mut String, cut: &[u64; 6]) -> Result<(), NoMemory>
    ensures { OnOk result (string_bytes text.new ≡ string_bytes text.old ++ family_text (cut_family cut.now)) }
{
    push_family(
        text,
        "iiif_answers_cut_total",
        "Answers that were cut off.",
        MetricKind::Counter,
        &cut_samples_in(cut),
    )
}

/// Writes the answers by status.
fn push_answers(text: &mut String, whole: &[u64; 8]) -> Result<(), NoMemory>
    ensures { OnOk result (string_bytes text.new ≡ string_bytes text.old ++ family_text (answer_family whole.now)) }
{
    push_family(
        text,
        "iiif_answers_total",
        "Answers that were sent whole.",
        MetricKind::Counter,
        &status_samples_in(whole),
    )
}

/// Writes all that is told, in the text format of version 0.0.4. The only error is lack of memory.
pub fn metrics_text(
    alloc: Global,
    metrics: &Metrics,
    peers: &PeerMetrics,
) -> Result<Vec<u8>, NoMemory>
    ensures { IfOk result (λ bytes. bytes.items ≡ text_of metrics.now peers.now) }
{
    let mut text = String::with_capacity(alloc, USUAL_LENGTH)?;
    push_rows(&mut text, "iiif_tile_cache_", &cache_rows(&metrics.tiles))?;
    push_rows(&mut text, "iiif_sum_cache_", &cache_rows(&metrics.sums))?;
    push_rows(&mut text, "iiif_", &image_rows(&metrics.images))?;
    push_rows(&mut text, "iiif_held_", &held_rows(&metrics.held))?;
    push_open(&mut text, &metrics.counts.open_now)?;
    push_refused(&mut text, &metrics.counts.refused)?;
    push_ousted(&mut text, &metrics.counts.ousted)?;
    push_cut(&mut text, &metrics.counts.cut)?;
    push_rows(&mut text, "iiif_", &server_rows(metrics))?;
    push_answers(&mut text, &metrics.counts.whole)?;
    push_times(&mut text, &metrics.times)?;
    push_seconds(&mut text, &peers.durations)?;
    let mut text = text.into_bytes();
    push_links(alloc, &mut text, peers.links.as_slice())?;
    Ok(text)
}
