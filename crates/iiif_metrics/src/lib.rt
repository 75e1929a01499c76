//! The counts of a server, as Prometheus reads them, and which of its services go on; and the answers to who asks for these.
#![tactic(auto)]

pub use counts::{Counts, STATUSES, Tally, Visitors};
pub use health::{Service, Services, services_text};
pub use metrics::{
    CacheMetrics, HeldMetrics, ImageMetrics, LinkMetrics, Metrics, PeerMetrics, Telling,
};
pub use serve::{Measure, serve_metrics};
pub use text::{NoMemory, metrics_text};
pub use times::{AnswerKind, AnswerTimes};

pub mod counts;
pub mod health;
mod links;
pub mod metrics;
pub mod serve;
pub mod text;
pub mod times;
