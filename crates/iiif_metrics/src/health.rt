//! Whether the services of a node go on.

ghost use Rattle.std.specs.Prelude.{◌≡◌, ◌++◌, IfOk, OnOk, string_bytes};
ghost use Rattle.iiif_metrics.specs.Health.{all_go_on, goes_on, health_text, service_line};

use crate::text::NoMemory;
use std::alloc::Global;
use std::fmt::Write;

/// Room for a text of the usual length.
const USUAL_LENGTH: usize = 64;

/// Whether a service goes on.
#[derive(Clone, Copy, PartialEq, Eq)]
pub enum Service {
    /// The node was started without it.
    Unwanted,
    /// The images are being opened.
    Starts,
    GoesOn,
    Gone,
}

/// The services of a node: its listeners, and the thread that writes its log.
#[derive(Clone, Copy, PartialEq, Eq)]
pub struct Services {
    pub viewers: Service,
    pub peers: Service,
    pub statistics: Service,
    pub log: Service,
}

/// Returns whether nothing is missing of a service.
fn goes_on(service: Service) -> bool
    ensures { result ≡ goes_on service }
{
    match service {
        Service::Unwanted | Service::GoesOn => true,
        Service::Starts | Service::Gone => false,
    }
}

/// Returns whether each service goes on that the node was started with.
pub fn all_go_on(services: &Services) -> bool
    ensures { result ≡ all_go_on services.now }
{
    goes_on(services.viewers)
        && goes_on(services.peers)
        && goes_on(services.statistics)
        && goes_on(services.log)
}

/// Writes the line of a service, where the node was started with it.
fn push_service(text: &mut String, name: &str, service: Service) -> Result<(), NoMemory>
    ensures { OnOk result (string_bytes text.new ≡ string_bytes text.old ++ service_line name.now service) }
{
    match service {
        Service::Unwanted => Ok(()),
        Service::Starts => write!(text, "{name} starting\n"),
        Service::GoesOn => write!(text, "{name} ok\n"),
        Service::Gone => write!(text, "{name} gone\n"),
    }
}

/// Makes a line for each service that the node was started with. The only error is lack of memory.
pub fn services_text(alloc: Global, services: &Services) -> Result<Vec<u8>, NoMemory>
    ensures { IfOk result (λ bytes. bytes.items ≡ health_text services.now) }
{
    let mut text = String::with_capacity(alloc, USUAL_LENGTH)?;
    push_service(&mut text, "viewers", services.viewers)?;
    push_service(&mut text, "peers", services.peers)?;
    push_service(&mut text, "statistics", services.statistics)?;
    push_service(&mut text, "log", services.log)?;
    Ok(text.into_bytes())
}
