//! The stop of a node, done to rows.

ghost use Rattle.std.specs.Prelude.{◌≡◌, map};
ghost use Rattle.iiif_machine.specs.Steps.{call_stopped, flight_stopped, request_stopped};

use crate::rows::{Call, CallState, Flight, Progress, RequestRow, Stage};

/// A flight of the node, if it is open, ends without an outcome.
fn stop_flight(flight: &mut Flight, node: usize)
    ensures { flight.new ≡ flight_stopped node flight.old }
{
    if flight.lead.node == node {
        match flight.stage {
            Stage::Ended(_) => {}
            _ => flight.stage = Stage::Ended(None),
        }
    }
}

/// A call of the node goes.
fn stop_call(call: &mut Call, node: usize)
    ensures { call.new ≡ call_stopped node call.old }
{
    if call.caller.node == node {
        call.state = CallState::Gone;
    }
}

/// A request of the node, if it waits, goes.
fn stop_request(request: &mut RequestRow, node: usize)
    ensures { request.new ≡ request_stopped node request.old }
{
    if request.info.node == node {
        match request.progress {
            Progress::Waiting(_, _) => request.progress = Progress::Dropped,
            _ => {}
        }
    }
}

/// The flights of the node that are open end without an outcome.
pub fn stop_flights(flights: &mut [Flight], node: usize)
    ensures { flights.new ≡ map (flight_stopped node) flights.old }
{
    for flight in flights.iter_mut() {
        stop_flight(flight, node);
    }
}

/// The calls of the node go.
pub fn stop_calls(calls: &mut [Call], node: usize)
    ensures { calls.new ≡ map (call_stopped node) calls.old }
{
    for call in calls.iter_mut() {
        stop_call(call, node);
    }
}

/// The requests of the node that wait go.
pub fn stop_requests(requests: &mut [RequestRow], node: usize)
    ensures { requests.new ≡ map (request_stopped node) requests.old }
{
    for request in requests.iter_mut() {
        stop_request(request, node);
    }
}
