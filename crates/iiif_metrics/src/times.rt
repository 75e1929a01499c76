//! How long answers took, by kind.

ghost use Rattle.std.specs.Prelude.{◌≡◌, ◌++◌, ◌∷◌, [], OnOk, map, string_bytes};
ghost use Rattle.std.specs.List.{flat_map};
ghost use Rattle.iiif_metrics.specs.Links.{head_lines};
ghost use Rattle.iiif_metrics.specs.Times.{bucket_line, bucket_view, buckets_of, count_line, kind_text, no_times, sum_line, times_text, with_time};

use crate::text::{MetricKind, NoMemory, push_help, push_type};
use iiif_breaker::Durations;
use std::fmt::Write;

/// The family of the times.
const SECONDS: &str = "iiif_answer_seconds";

/// A kind of answer.
#[derive(Clone, Copy, Debug, PartialEq, Eq)]
pub enum AnswerKind {
    Image,
    /// The information of an image.
    Info,
    /// A redirect, or a refusal.
    Other,
}

/// How long whole answers took, by kind.
#[derive(Clone, Copy, PartialEq, Eq)]
pub struct AnswerTimes {
    pub image: Durations,
    pub info: Durations,
    pub other: Durations,
}

impl AnswerTimes {
    /// Begins with no answer.
    pub fn new() -> AnswerTimes
        ensures { result ≡ no_times }
    {
        AnswerTimes {
            image: Durations::new(),
            info: Durations::new(),
            other: Durations::new(),
        }
    }

    /// Counts an answer of this kind, which took so many microseconds.
    pub fn count(&mut self, kind: AnswerKind, micros: u64)
        ensures { self.new ≡ with_time kind micros self.old }
    {
        match kind {
            AnswerKind::Image => self.image.count(micros),
            AnswerKind::Info => self.info.count(micros),
            AnswerKind::Other => self.other.count(micros),
        }
    }
}

/// How many answers took at most so many seconds.
#[derive(Clone, Copy)]
pub struct Bucket {
    pub most: &'static str,
    pub count: u64,
}

/// Makes the bucket of a limit.
fn make_bucket(most: &'static str, count: u64) -> Bucket
    ensures { bucket_view result ≡ (most.now, count) }
{
    Bucket { most, count }
}

/// Counts the answers that took at most so long, for each limit.
fn buckets_in(durations: &Durations) -> [Bucket; 9]
    ensures { map bucket_view result ≡ buckets_of durations.now }
{
    let within = durations.within;
    [
        make_bucket("0.001", within[0]),
        make_bucket("0.005", within[1]),
        make_bucket("0.01", within[2]),
        make_bucket("0.05", within[3]),
        make_bucket("0.1", within[4]),
        make_bucket("0.5", within[5]),
        make_bucket("1", within[6]),
        make_bucket("10", within[7]),
        make_bucket("+Inf", durations.all),
    ]
}

/// Writes the line of a bucket of a kind.
#[tactic(auto, unfolding(crate::specs::Times::bucket_line))]
fn push_bucket(text: &mut String, kind: &str, bucket: &Bucket) -> Result<(), NoMemory>
    ensures { OnOk result (string_bytes text.new ≡ string_bytes text.old ++ bucket_line kind.now (bucket_view bucket.now)) }
{
    let front = "iiif_answer_seconds_bucket{kind=\"";
    let middle = "\",le=\"";
    let back = "\"} ";
    let (most, count) = (bucket.most, bucket.count);
    write!(text, "{front}{kind}{middle}{most}{back}{count}\n")
}

/// Writes the lines of buckets of a kind.
fn push_buckets(text: &mut String, kind: &str, buckets: &[Bucket]) -> Result<(), NoMemory>
    ensures { OnOk result (string_bytes text.new ≡ string_bytes text.old ++ flat_map (bucket_line kind.now) (map bucket_view buckets.now)) }
{
    for bucket in buckets {
        push_bucket(text, kind, bucket)?;
    }
    Ok(())
}

/// Writes the line of the sum of a kind's times, which is one of seconds.
#[tactic(auto, unfolding(crate::specs::Times::sum_line))]
fn push_sum(text: &mut String, kind: &str, micros: u64) -> Result<(), NoMemory>
    ensures { OnOk result (string_bytes text.new ≡ string_bytes text.old ++ sum_line kind.now micros) }
{
    let front = "iiif_answer_seconds_sum{kind=\"";
    let back = "\"} ";
    write!(text, "{front}{kind}{back}{micros}e-6\n")
}

/// Writes the line of the number of a kind's answers.
#[tactic(auto, unfolding(crate::specs::Times::count_line))]
fn push_count(text: &mut String, kind: &str, count: u64) -> Result<(), NoMemory>
    ensures { OnOk result (string_bytes text.new ≡ string_bytes text.old ++ count_line kind.now count) }
{
    let front = "iiif_answer_seconds_count{kind=\"";
    let back = "\"} ";
    write!(text, "{front}{kind}{back}{count}\n")
}

/// Writes how long the answers of a kind took.
fn push_kind(text: &mut String, kind: &str, durations: &Durations) -> Result<(), NoMemory>
    ensures { OnOk result (string_bytes text.new ≡ string_bytes text.old ++ kind_text kind.now durations.now) }
{
    push_buckets(text, kind, &buckets_in(durations))?;
    push_sum(text, kind, durations.micros)?;
    push_count(text, kind, durations.all)?;
    Ok(())
}

/// Writes how long answers took.
pub(crate) fn push_times(text: &mut String, times: &AnswerTimes) -> Result<(), NoMemory>
    ensures { OnOk result (string_bytes text.new ≡ string_bytes text.old ++ times_text times.now) }
{
    push_help(
        text,
        "",
        SECONDS,
        "How long whole answers took, from their head to their last byte.",
    )?;
    push_type(text, "", SECONDS, MetricKind::Histogram)?;
    push_kind(text, "image", &times.image)?;
    push_kind(text, "info", &times.info)?;
    push_kind(text, "other", &times.other)?;
    Ok(())
}
