//! All rows of a world, as text.

use crate::values::{
    put_answer, put_fault, put_key, put_name, put_numbers, put_outcome, put_value,
};
use iiif_machine::listing::Entry;
use iiif_machine::node::Node;
use iiif_machine::table::{OpenFlight, PlainTable};
use iiif_machine::{
    Ask, Call, CallState, Flight, Given, Progress, Purpose, Reply, RequestRow, Stage,
};
use iiif_pixel::NoMemory;
use iiif_records::class_word;
use iiif_tables::{Book, Place};
use iiif_world::World;

/// The entries of a list, the one used last first.
fn put_entries(text: &mut String, entries: &[Entry]) -> Result<(), NoMemory> {
    for entry in entries {
        text.push_str("; ")?;
        put_key(text, &entry.key)?;
        write!(text, " #{} ", entry.ticket)?;
        put_value(text, &entry.value)?;
    }
    Ok(())
}

/// The open flights of a table.
fn put_open(text: &mut String, flights: &[OpenFlight]) -> Result<(), NoMemory> {
    for flight in flights {
        let (class, found) = (class_word(flight.class), flight.found);
        write!(text, "; {} ", class)?;
        put_key(text, &flight.key)?;
        write!(text, " #{} {}", flight.ticket, found)?;
    }
    Ok(())
}

/// The counters of a table.
fn put_book(text: &mut String, book: &Book) -> Result<(), NoMemory> {
    let counts = [
        book.gets,
        book.hits,
        book.joins,
        book.leads,
        book.again_hits,
        book.loads,
        book.peer,
        book.landed,
        book.faults,
    ];
    text.push_str(" book")?;
    for count in &counts {
        write!(text, " {}", count)?;
    }
    text.push_str("\n")
}

fn put_table(text: &mut String, table: &PlainTable) -> Result<(), NoMemory> {
    text.push_str(" main")?;
    put_entries(text, &table.cache.main)?;
    text.push_str(" hot")?;
    put_entries(text, &table.cache.hot)?;
    text.push_str(" open")?;
    put_open(text, &table.flights)?;
    put_book(text, &table.book)
}

fn put_node(text: &mut String, number: usize, node: &Node) -> Result<(), NoMemory> {
    write!(text, "node {} tiles", number)?;
    put_table(text, &node.tiles)?;
    write!(text, "node {} sums", number)?;
    put_table(text, &node.sums)
}

fn put_given(text: &mut String, number: usize, given: &Given) -> Result<(), NoMemory> {
    write!(text, "given {}: node {} ", number, given.node)?;
    put_name(text, &given.name)?;
    text.push_str(" ")?;
    put_fault(text, &given.fault)?;
    text.push_str("\n")
}

/// How far a request is.
fn put_progress(text: &mut String, progress: &Progress) -> Result<(), NoMemory> {
    match progress {
        Progress::Waiting(_, calls) => {
            text.push_str("waiting")?;
            put_numbers(text, calls)
        }
        Progress::Answered(answer) => put_answer(text, answer),
        Progress::Dropped => text.push_str("dropped"),
    }
}

fn put_request(text: &mut String, number: usize, wanted: &RequestRow) -> Result<(), NoMemory> {
    write!(text, "request {}: node {} ", number, wanted.info.node)?;
    put_name(text, &wanted.info.name)?;
    text.push_str(" ")?;
    put_progress(text, &wanted.progress)?;
    text.push_str("\n")
}

fn put_purpose(text: &mut String, purpose: Purpose) -> Result<(), NoMemory> {
    match purpose {
        Purpose::ForRequest(number) => write!(text, " for request {}", number),
        Purpose::ForPart(number) => write!(text, " for part {}", number),
        Purpose::ForFallback(number) => write!(text, " for fallback {}", number),
        Purpose::ForAsk(number) => write!(text, " for ask {}", number),
    }
}

/// Writes the outcome that a call knows.
fn put_state(text: &mut String, state: &CallState) -> Result<(), NoMemory> {
    match state {
        CallState::Fresh => text.push_str(": fresh"),
        CallState::Hit(value) => {
            text.push_str(": hit ")?;
            put_value(text, value)
        }
        CallState::In(flight) => write!(text, ": in {}", flight),
        CallState::Gone => text.push_str(": gone"),
    }
}

fn put_call(text: &mut String, number: usize, call: &Call) -> Result<(), NoMemory> {
    let caller = &call.caller;
    let class = class_word(caller.class);
    write!(text, "call {}: node {} {} ", number, caller.node, class)?;
    put_key(text, &caller.key)?;
    put_purpose(text, caller.purpose)?;
    put_state(text, &call.state)?;
    text.push_str("\n")
}

fn place_word(place: Place) -> &'static str {
    match place {
        Place::Nowhere => "nowhere",
        Place::Main => "main",
        Place::Peer => "peer",
    }
}

fn put_stage(text: &mut String, stage: &Stage) -> Result<(), NoMemory> {
    match stage {
        Stage::New => text.push_str("new"),
        Stage::Looked => text.push_str("looked"),
        Stage::Asking => text.push_str("asking"),
        Stage::Fallback(None) => text.push_str("fallback"),
        Stage::Fallback(Some(call)) => write!(text, "fallback {}", call),
        Stage::Parts(calls) => {
            text.push_str("parts")?;
            put_numbers(text, calls)
        }
        Stage::Ready(outcome, place) => {
            let place = place_word(*place);
            write!(text, "ready {} ", place)?;
            put_outcome(text, outcome)
        }
        Stage::Ended(None) => text.push_str("ended"),
        Stage::Ended(Some(outcome)) => {
            text.push_str("ended ")?;
            put_outcome(text, outcome)
        }
    }
}

fn put_flight(text: &mut String, number: usize, flight: &Flight) -> Result<(), NoMemory> {
    let lead = &flight.lead;
    let class = class_word(lead.class);
    write!(text, "flight {}: node {} {} ", number, lead.node, class)?;
    put_key(text, &lead.key)?;
    write!(text, " #{}: ", lead.ticket)?;
    put_stage(text, &flight.stage)?;
    text.push_str("\n")
}

fn put_ask(text: &mut String, number: usize, ask: &Ask) -> Result<(), NoMemory> {
    write!(text, "ask {}: node {} ", number, ask.node)?;
    put_key(text, &ask.key)?;
    write!(text, " version {} for flight {}\n", ask.version, ask.flight)
}

fn put_reply(text: &mut String, number: usize, reply: &Reply) -> Result<(), NoMemory> {
    write!(text, "reply {}: ", number)?;
    put_key(text, &reply.key)?;
    text.push_str(" ")?;
    put_outcome(text, &reply.outcome)?;
    text.push_str("\n")
}

fn put_nodes(text: &mut String, nodes: &[Node]) -> Result<(), NoMemory> {
    for (number, node) in nodes.iter().enumerate() {
        put_node(text, number, node)?;
    }
    Ok(())
}

fn put_all_given(text: &mut String, given: &[Given]) -> Result<(), NoMemory> {
    for (number, row) in given.iter().enumerate() {
        put_given(text, number, row)?;
    }
    Ok(())
}

fn put_requests(text: &mut String, requests: &[RequestRow]) -> Result<(), NoMemory> {
    for (number, wanted) in requests.iter().enumerate() {
        put_request(text, number, wanted)?;
    }
    Ok(())
}

fn put_calls(text: &mut String, calls: &[Call]) -> Result<(), NoMemory> {
    for (number, call) in calls.iter().enumerate() {
        put_call(text, number, call)?;
    }
    Ok(())
}

fn put_flights(text: &mut String, flights: &[Flight]) -> Result<(), NoMemory> {
    for (number, flight) in flights.iter().enumerate() {
        put_flight(text, number, flight)?;
    }
    Ok(())
}

fn put_asks(text: &mut String, asks: &[Ask]) -> Result<(), NoMemory> {
    for (number, ask) in asks.iter().enumerate() {
        put_ask(text, number, ask)?;
    }
    Ok(())
}

fn put_replies(text: &mut String, replies: &[Reply]) -> Result<(), NoMemory> {
    for (number, reply) in replies.iter().enumerate() {
        put_reply(text, number, reply)?;
    }
    Ok(())
}

/// All rows, one a line.
pub(crate) fn put_rows(text: &mut String, world: &World) -> Result<(), NoMemory> {
    let all = world.contents();
    put_nodes(text, &all.nodes)?;
    put_all_given(text, &all.given)?;
    put_requests(text, &all.requests)?;
    put_calls(text, &all.calls)?;
    put_flights(text, &all.flights)?;
    put_asks(text, &all.asks)?;
    put_replies(text, &all.replies)
}
