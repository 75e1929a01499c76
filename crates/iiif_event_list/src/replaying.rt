//! Worlds and their events, line by line.

ghost use Rattle.std.specs.Prelude.{◌≡◌, ◌++◌, ◌<◌, ◌-◌, ◌⊎◌, [], List, None, true, false, codes, length, option_copied};
ghost use Rattle.std.specs.Prelude.{slice_get};
ghost use Rattle.std.specs.Prelude.{string_bytes, Some, IfOk, IsErrOf, OnOk};
ghost use Rattle.iiif_machine.specs.Worlds.{answers};
ghost use Rattle.iiif_machine.specs.declared.events.Event.{Event};
ghost use Rattle.iiif_machine.specs.declared.events.WorldFault.{WorldFault};
ghost use Rattle.iiif_machine.specs.Nodes.{node_of};
ghost use Rattle.iiif_world.specs.Code.{world_of};
ghost use Rattle.iiif_tables.specs.declared.table.Class.TheVariants.{Local};
ghost use Rattle.iiif_event_list.specs.Texts.{answer_line, answers_text, ending_word, entered_text, failed_text, flight_ticket, kept_word};
ghost use Rattle.iiif_event_list.specs.Texts.{landed_text, landing_word, lead_text, loaded_text, meeting_word, met_text, note_text, outcome_text};
ghost use Rattle.iiif_event_list.specs.Texts.{read_text, replied_text, said_text, served_text, spaced, taken_text, taken_word, text_of, ticket_at};
ghost use Rattle.iiif_event_list.specs.Texts.{ticket_kept};
ghost use Rattle.iiif_records.specs.Lines.{step_line, ticket_words};
ghost use Rattle.iiif_event_list.specs.Code.{NeverBad};
ghost use Rattle.iiif_event_list.specs.Spellings.{AreNoEvent, IsSetting};
ghost use Rattle.iiif_event_list.specs.Replays.{AreBad, AreWordsOf, BeginsNone, Comes, Happens, HasBegun, IsAlone, IsBad, IsComment};
ghost use Rattle.iiif_event_list.specs.Replays.{IsDescribed, IsNew, IsOutcome, IsReason, LineComes, Sets, ended_text, world_in};
ghost use Rattle.iiif_event_list.specs.declared.fault.LineFault.{LineFault};

use crate::describing::Description;
use crate::fault::LineFault;
use crate::reading::event;
use crate::rows::put_rows;
use crate::values::{key_bytes, put_answer};
use iiif_machine::node::Node;
use iiif_machine::{
    Answer, Call, CallState, Caller, Event, Flight, Key, Lead, Stage, Value, WorldFault,
};
use iiif_pixel::NoMemory;
use iiif_records::{Step, push_step};
use iiif_source::ReadFault;
use iiif_tables::Class;
use iiif_world::World;
use std::alloc::Global;
use std::mem::replace;

/// A world that is described line by line, or has begun.
#[derive(Drop)]
pub enum State {
    /// It has not begun.
    Described(Description),
    /// It has, and this is what its events so far made of it.
    Begun(World),
    /// It could not begin: no event is allowed in it.
    Lost,
}

/// Outcome of a line.
#[derive(Drop)]
pub struct LineOutcome {
    /// Text that is written of it.
    pub text: String,
    /// Whether it is no event, or one that was allowed.
    pub allowed: bool,
}

/// The lines that were read so far: a description, or a world that has begun.
#[derive(Drop)]
pub struct Replay {
    /// Of the world that was read last.
    pub state: State,
}

/// The ticket of what a node keeps for a key. The only error is lack of memory.
fn ticket_at(node: &Node, key: &Key) -> Result<Option<u64>, NoMemory>
    ensures { IfOk result (λ t. t ≡ ticket_at (node_of node.now) key.now) }
{
    match node.kept(key)? {
        Some(found) => Ok(Some(found.ticket)),
        None => Ok(None),
    }
}

/// The ticket of what the node of this number keeps for a key. The only error is lack of memory.
#[tactic(auto, using(crate::proofs::Said::there, crate::proofs::Said::missing))]
fn ticket_kept(world: &World, node: usize, key: &Key) -> Result<Option<u64>, NoMemory>
    ensures { IfOk result (λ t. t ≡ ticket_kept (world_of world.now) node key.now) }
{
    match world.contents().nodes.get(node) {
        Some(node) => ticket_at(node, key),
        None => Ok(None),
    }
}

/// Writes a ticket, where there is one.
fn put_ticket(text: &mut String, ticket: Option<u64>) -> Result<(), NoMemory>
    ensures { OnOk result (string_bytes text.new ≡ string_bytes text.old ++ ticket_words ticket) }
{
    match ticket {
        Some(ticket) => write!(text, " {ticket}"),
        None => Ok(()),
    }
}

/// The ticket of a flight, where it is there.
fn flight_ticket(world: &World, flight: usize) -> Option<u64>
    ensures { result ≡ flight_ticket (world_of world.now) flight }
{
    match world.contents().flights.get(flight) {
        Some(flight) => Some(flight.lead.ticket),
        None => None,
    }
}

/// Writes a step, as a record tells it.
fn put_step(
    text: &mut String,
    words: &str,
    class: Class,
    ticket: Option<u64>,
    key: &[u8],
) -> Result<(), NoMemory>
    ensures { OnOk result (string_bytes text.new ≡ string_bytes text.old ++ step_line words.now class ticket key.now) }
{
    let step = Step {
        words,
        class,
        ticket,
        key,
    };
    push_step(text, &step)
}

/// Writes a step that a node writes: its words, the class, the ticket of the flight and the key.
fn put_note(
    alloc: Global,
    text: &mut String,
    node: usize,
    step: &str,
    class: Class,
    ticket: Option<u64>,
    key: &Key,
) -> Result<(), NoMemory>
    ensures { OnOk result (string_bytes text.new ≡ string_bytes text.old ++ note_text node step.now class ticket key.now) }
{
    let bytes = key_bytes(alloc, key)?;
    write!(text, "\n> {node} ")?;
    put_step(text, step, class, ticket, bytes.as_slice())
}

/// Whether a call joins a flight, or leads it.
fn meeting_word(joins: bool) -> &'static str
    ensures { result.now ≡ meeting_word joins }
{
    if joins { "joins" } else { "leads" }
}

/// Writes that a call found what is kept, by the ticket.
fn put_hit(alloc: Global, text: &mut String, world: &World, who: &Caller) -> Result<(), NoMemory>
    ensures { OnOk result (string_bytes text.new ≡ string_bytes text.old
        ++ (codes ": hit" ++ ticket_words (ticket_kept (world_of world.now) who.now.node who.now.key)
        ++ note_text who.now.node (codes "hit") who.now.class (ticket_kept (world_of world.now) who.now.node who.now.key) who.now.key)) }
{
    let ticket = ticket_kept(world, who.node, &who.key)?;
    text.push_str(": hit")?;
    put_ticket(text, ticket)?;
    put_note(alloc, text, who.node, "hit", who.class, ticket, &who.key)
}

/// Writes that a call joins a flight, or leads it: its ticket and its number.
fn put_flight(
    alloc: Global,
    text: &mut String,
    joins: bool,
    ticket: Option<u64>,
    flight: usize,
    who: &Caller,
) -> Result<(), NoMemory>
    ensures { OnOk result (string_bytes text.new ≡ string_bytes text.old
        ++ (codes ": " ++ meeting_word joins ++ ticket_words ticket ++ spaced flight
        ++ note_text who.now.node (meeting_word joins) who.now.class ticket who.now.key)) }
{
    let word = meeting_word(joins);
    text.push_str(": ")?;
    text.push_str(word)?;
    put_ticket(text, ticket)?;
    write!(text, " {flight}")?;
    put_note(alloc, text, who.node, word, who.class, ticket, &who.key)
}

/// Writes what a call that entered met, where there were so many flights before.
fn put_met(
    alloc: Global,
    text: &mut String,
    world: &World,
    flights: usize,
    call: &Call,
) -> Result<(), NoMemory>
    ensures { OnOk result (string_bytes text.new
        ≡ string_bytes text.old ++ met_text flights (world_of world.now) call.now.caller call.now.state) }
{
    match &call.state {
        CallState::Hit(_) => put_hit(alloc, text, world, &call.caller),
        CallState::In(flight) => {
            let ticket = flight_ticket(world, *flight);
            put_flight(
                alloc,
                text,
                *flight < flights,
                ticket,
                *flight,
                &call.caller,
            )
        }
        CallState::Fresh | CallState::Gone => Ok(()),
    }
}

fn put_entered(
    alloc: Global,
    text: &mut String,
    world: &World,
    flights: usize,
    call: usize,
) -> Result<(), NoMemory>
    ensures { OnOk result (string_bytes text.new
        ≡ string_bytes text.old ++ entered_text flights (world_of world.now) (slice_get (world_of world.now).calls call)) }
{
    match world.contents().calls.get(call) {
        Some(call) => put_met(alloc, text, world, flights, call),
        None => Ok(()),
    }
}

/// Writes a step of the leader of a flight.
fn put_lead(alloc: Global, text: &mut String, step: &str, lead: &Lead) -> Result<(), NoMemory>
    ensures { OnOk result (string_bytes text.new ≡ string_bytes text.old
        ++ note_text lead.now.node step.now lead.now.class (Some lead.now.ticket) lead.now.key) }
{
    let ticket = Some(lead.ticket);
    put_note(alloc, text, lead.node, step, lead.class, ticket, &lead.key)
}

/// Writes a step of the leader of a flight of this number, where it is there.
fn put_led(
    alloc: Global,
    text: &mut String,
    world: &World,
    step: &str,
    flight: usize,
) -> Result<(), NoMemory>
    ensures { OnOk result (string_bytes text.new
        ≡ string_bytes text.old ++ lead_text step.now (slice_get (world_of world.now).flights flight)) }
{
    match world.contents().flights.get(flight) {
        Some(flight) => put_lead(alloc, text, step, &flight.lead),
        None => Ok(()),
    }
}

/// Whether an owner that was asked answered with a value.
fn taken_word(stage: &Stage) -> &'static str
    ensures { result.now ≡ taken_word stage.now }
{
    match stage {
        Stage::Ready(_, _) => "answered",
        Stage::New
        | Stage::Looked
        | Stage::Asking
        | Stage::Fallback(_)
        | Stage::Parts(_)
        | Stage::Ended(_) => "failed",
    }
}

fn put_taken(alloc: Global, text: &mut String, world: &World, flight: usize) -> Result<(), NoMemory>
    ensures { OnOk result (string_bytes text.new
        ≡ string_bytes text.old ++ taken_text (slice_get (world_of world.now).flights flight)) }
{
    match world.contents().flights.get(flight) {
        Some(flight) => put_lead(alloc, text, taken_word(&flight.stage), &flight.lead),
        None => Ok(()),
    }
}

/// Whether it is a value.
fn ending_word(outcome: &Result<Value, ReadFault>) -> &'static str
    ensures { result.now ≡ ending_word outcome.now }
{
    match outcome {
        Ok(_) => "value",
        Err(_) => "fault",
    }
}

/// With what a flight landed.
fn landing_word(stage: &Stage) -> &'static str
    ensures { result.now ≡ landing_word stage.now }
{
    match stage {
        Stage::Ended(Some(outcome)) => ending_word(outcome),
        Stage::Ended(None)
        | Stage::New
        | Stage::Looked
        | Stage::Asking
        | Stage::Fallback(_)
        | Stage::Parts(_)
        | Stage::Ready(_, _) => "",
    }
}

/// Whether what a flight landed with is kept, by its ticket.
fn kept_word(ticket: u64, kept: Option<u64>) -> &'static str
    ensures { result.now ≡ kept_word ticket kept }
{
    match kept {
        Some(kept) if kept == ticket => "kept",
        _ => "dropped",
    }
}

/// The words of a landing.
fn landing(alloc: Global, ending: &str, kept: &str) -> Result<String, NoMemory>
    ensures { IfOk result (λ step. string_bytes step ≡ codes "lands " ++ ending.now ++ codes " " ++ kept.now) }
{
    let mut step = String::from_str(alloc, "lands ")?;
    step.push_str(ending)?;
    step.push_str(" ")?;
    step.push_str(kept)?;
    Ok(step)
}

/// Writes whether what a flight landed with is kept, and the step of its leader.
fn put_landing(
    alloc: Global,
    text: &mut String,
    flight: &Flight,
    kept: &str,
) -> Result<(), NoMemory>
    ensures { OnOk result (string_bytes text.new ≡ string_bytes text.old ++ (codes ": " ++ kept.now
        ++ lead_text (codes "lands " ++ landing_word flight.now.stage ++ codes " " ++ kept.now) (Some flight.now))) }
{
    let step = landing(alloc, landing_word(&flight.stage), kept)?;
    text.push_str(": ")?;
    text.push_str(kept)?;
    put_lead(alloc, text, step.as_str(), &flight.lead)
}

fn put_landed(
    alloc: Global,
    text: &mut String,
    world: &World,
    flight: usize,
) -> Result<(), NoMemory>
    ensures { OnOk result (string_bytes text.new
        ≡ string_bytes text.old ++ landed_text (world_of world.now) (slice_get (world_of world.now).flights flight)) }
{
    match world.contents().flights.get(flight) {
        Some(flight) => {
            let lead = &flight.lead;
            let kept = ticket_kept(world, lead.node, &lead.key)?;
            put_landing(alloc, text, flight, kept_word(lead.ticket, kept))
        }
        None => Ok(()),
    }
}

/// Writes the step of a node that serves an ask.
fn put_served(alloc: Global, text: &mut String, world: &World, ask: usize) -> Result<(), NoMemory>
    ensures { OnOk result (string_bytes text.new
        ≡ string_bytes text.old ++ served_text (slice_get (world_of world.now).asks ask)) }
{
    match world.contents().asks.get(ask) {
        Some(ask) => put_note(
            alloc,
            text,
            ask.node,
            "serves",
            Class::Local,
            None,
            &ask.key,
        ),
        None => Ok(()),
    }
}

/// Writes the step of a node that replies what its call knows.
fn put_reply(
    alloc: Global,
    text: &mut String,
    call: &Call,
    outcome: &Result<Value, ReadFault>,
) -> Result<(), NoMemory>
    ensures { OnOk result (string_bytes text.new ≡ string_bytes text.old
        ++ note_text call.now.caller.node (codes "replies " ++ ending_word outcome.now) Local None call.now.caller.key) }
{
    let word = ending_word(outcome);
    let step = format!(in alloc; "replies {word}")?;
    let who = &call.caller;
    put_note(
        alloc,
        text,
        who.node,
        step.as_str(),
        Class::Local,
        None,
        &who.key,
    )
}

fn put_replied(alloc: Global, text: &mut String, world: &World, call: usize) -> Result<(), NoMemory>
    ensures { OnOk result (string_bytes text.new ≡ string_bytes text.old
        ++ replied_text (slice_get (world_of world.now).calls call)
        (slice_get (world_of world.now).replies (length (world_of world.now).replies - 1))) }
{
    let all = world.contents();
    match (all.calls.get(call), all.replies.last()) {
        (Some(call), Some(reply)) => put_reply(alloc, text, call, &reply.outcome),
        _ => Ok(()),
    }
}

/// Writes the step of a read of this key: a sum is read nowhere.
fn put_read(alloc: Global, text: &mut String, node: usize, key: &Key) -> Result<(), NoMemory>
    ensures { OnOk result (string_bytes text.new ≡ string_bytes text.old ++ read_text node key.now) }
{
    match key {
        Key::Tile(_) => put_note(alloc, text, node, "reads", Class::Local, None, key),
        Key::Sum(_) => Ok(()),
    }
}

fn put_loaded(
    alloc: Global,
    text: &mut String,
    world: &World,
    flight: usize,
) -> Result<(), NoMemory>
    ensures { OnOk result (string_bytes text.new
        ≡ string_bytes text.old ++ loaded_text (slice_get (world_of world.now).flights flight)) }
{
    match world.contents().flights.get(flight) {
        Some(flight) => put_read(alloc, text, flight.lead.node, &flight.lead.key),
        None => Ok(()),
    }
}

/// Writes the step of a read that failed.
fn put_failed(
    alloc: Global,
    text: &mut String,
    world: &World,
    flight: usize,
    fault: &ReadFault,
) -> Result<(), NoMemory>
    ensures { OnOk result (string_bytes text.new
        ≡ string_bytes text.old ++ failed_text fault.now (slice_get (world_of world.now).flights flight)) }
{
    match world.contents().flights.get(flight) {
        Some(flight) => {
            let step = format!(in alloc; "fails {} {}", fault.place, fault.cause)?;
            let lead = &flight.lead;
            put_note(
                alloc,
                text,
                lead.node,
                step.as_str(),
                Class::Local,
                None,
                &lead.key,
            )
        }
        None => Ok(()),
    }
}

/// Writes what is said of an event that was done, where there were so many flights before, and the step that a node writes of it.
fn put_said(
    alloc: Global,
    text: &mut String,
    flights: usize,
    event: &Event,
    world: &World,
) -> Result<(), NoMemory>
    ensures { OnOk result (string_bytes text.new ≡ string_bytes text.old ++ said_text flights event.now (world_of world.now)) }
{
    match event {
        Event::Enter(call) => put_entered(alloc, text, world, flights, *call),
        Event::AskPeer(flight) => put_led(alloc, text, world, "asks", *flight),
        Event::Serve(ask) => put_served(alloc, text, world, *ask),
        Event::Reply(call) => put_replied(alloc, text, world, *call),
        Event::Take(flight, _) => put_taken(alloc, text, world, *flight),
        Event::Lose(flight) => put_led(alloc, text, world, "failed", *flight),
        Event::Load(flight) => put_loaded(alloc, text, world, *flight),
        Event::SourceFault(flight, fault) => put_failed(alloc, text, world, *flight, fault),
        Event::Land(flight, _) => put_landed(alloc, text, world, *flight),
        Event::Stop(node) => write!(text, "\n> {node} stopped"),
        _ => Ok(()),
    }
}

/// Text of an event that was done: `done`, and what is said of it.
fn done_word(
    alloc: Global,
    flights: usize,
    event: &Event,
    world: &World,
) -> Result<String, NoMemory>
    ensures { IfOk result (λ text. string_bytes text ≡ codes "done" ++ said_text flights event.now (world_of world.now)) }
{
    let mut text = String::from_str(alloc, "done")?;
    put_said(alloc, &mut text, flights, event, world)?;
    Ok(text)
}

/// The line of an event: its line's number, its words, and what it came to.
fn outcome_line(alloc: Global, number: u64, line: &str, word: &str) -> Result<String, LineFault>
    ensures line { IfOk result (λ text. string_bytes text ≡ outcome_text number line.now word.now) }
    ensures never { NeverBad result }
{
    let words = line.trim();
    Ok(format!(in alloc; "{number} {words}: {word}\n")?)
}

/// The line of an event that was done, of a world that had so many flights.
fn done(
    alloc: Global,
    number: u64,
    line: &str,
    flights: usize,
    event: &Event,
    world: &World,
) -> Result<LineOutcome, LineFault>
    ensures line { IfOk result (λ o. (o.allowed ≡ true)
        × (string_bytes o.text ≡ outcome_text number line.now (codes "done" ++ said_text flights event.now (world_of world.now)))) }
    ensures never { NeverBad result }
{
    let word = done_word(alloc, flights, event, world)?;
    Ok(LineOutcome {
        text: outcome_line(alloc, number, line, word.as_str())?,
        allowed: true,
    })
}

/// The line of an event that isn't allowed now.
fn not_done(
    alloc: Global,
    number: u64,
    line: &str,
    fault: WorldFault,
) -> Result<LineOutcome, LineFault>
    ensures line { IfOk result (λ o. (fault ≡ WorldFault.NotNow) × (o.allowed ≡ false)
        × (string_bytes o.text ≡ outcome_text number line.now (codes "not now"))) }
    ensures never { NeverBad result }
{
    match fault {
        WorldFault::NotNow => Ok(LineOutcome {
            text: outcome_line(alloc, number, line, "not now")?,
            allowed: false,
        }),
        WorldFault::NoMemory => Err(LineFault::NoMemory),
    }
}

/// How many flights a world has.
fn flight_count(world: &World) -> usize
    ensures { result ≡ length (world_of world.now).flights }
{
    world.contents().flights.len()
}

/// Does an event, and writes its line: the number, the words and the outcome.
fn run_one(
    alloc: Global,
    world: &mut World,
    number: u64,
    line: &str,
    event: Event,
) -> Result<LineOutcome, LineFault>
    ensures come { IfOk result (λ o. (done : List Event)
        × IsOutcome number line.now (world_of world.old) event o.allowed done (world_of world.new) (string_bytes o.text)) }
    ensures never { NeverBad result }
{
    let flights = flight_count(world);
    match world.step(&event) {
        Ok(()) => done(alloc, number, line, flights, &event, world),
        Err(fault) => not_done(alloc, number, line, fault),
    }
}

/// Writes a request's answer, or that there is none.
fn put_answer_or_none(text: &mut String, answer: Option<&Answer>) -> Result<(), NoMemory>
    ensures { OnOk result (string_bytes text.new ≡ string_bytes text.old ++ text_of (option_copied answer.entry)) }
{
    match answer {
        Some(answer) => put_answer(text, answer),
        None => text.push_str("none"),
    }
}

/// The line of a request of this number.
fn put_line(text: &mut String, number: usize, answer: Option<&Answer>) -> Result<(), NoMemory>
    ensures { OnOk result (string_bytes text.new ≡ string_bytes text.old ++ answer_line number (option_copied answer.entry)) }
{
    write!(text, "request {number}: ")?;
    put_answer_or_none(text, answer)?;
    text.push_str("\n")
}

/// The answer of a request that is there.
fn answer_of(world: &World, request: usize) -> Option<&Answer>
    requires { request < length (answers (world_of world.now)) }
    ensures { slice_get (answers (world_of world.now)) request ≡ Some (option_copied result) }
{
    world.answer(request)
}

/// The answers of a world, a line a request, in the order of their numbers: `none`, where it has no answer.
#[tactic(auto, using(crate::proofs::Lines::lines_next))]
pub fn answers(alloc: Global, world: &World) -> Result<String, NoMemory>
    ensures { IfOk result (λ text. string_bytes text ≡ answers_text (answers (world_of world.now))) }
{
    let mut text = String::new(alloc);
    for request in 0..world.request_count() {
        put_line(&mut text, request, answer_of(world, request))?;
    }
    Ok(text)
}

/// All rows of a world, one a line: nodes, faults given, requests, calls, flights, asks, replies.
pub fn rows(alloc: Global, world: &World) -> Result<String, NoMemory> {
    let mut text = String::new(alloc);
    put_rows(&mut text, world)?;
    Ok(text)
}

/// Whether the first word begins with a number sign.
#[tactic(auto, using(crate::proofs::Words::comment_at))]
fn is_comment(words: &[&str]) -> bool
    ensures yes { result ≡ true → IsComment words.now }
    ensures no { result ≡ false → ¬ IsComment words.now }
{
    let Some(word) = words.first() else {
        return false;
    };
    match word.as_bytes().first() {
        Some(byte) => *byte == b'#',
        None => false,
    }
}

/// Whether two words are the same.
fn is_same(left: &str, right: &str) -> bool
    ensures yes { result ≡ true → left.now ≡ right.now }
    ensures no { result ≡ false → ¬ (left.now ≡ right.now) }
{
    left == right
}

/// Whether this word is the only one.
#[tactic(auto, using(crate::proofs::Words::alone_at))]
fn is_alone(words: &[&str], name: &str) -> bool
    ensures yes { result ≡ true → IsAlone words.now name.now }
    ensures no { result ≡ false → ¬ IsAlone words.now name.now }
{
    if words.len() != 1 {
        return false;
    }
    match words.first() {
        Some(word) => is_same(word, name),
        None => false,
    }
}

/// The words of a line.
fn words_of<'a>(alloc: Global, line: &'a str) -> Result<Vec<&'a str>, NoMemory>
    ensures { IfOk result (λ words. AreWordsOf line.now words.items) }
{
    Ok(line.split_whitespace().collect(alloc)?)
}

impl LineOutcome {
    /// Nothing is written.
    fn nothing(alloc: Global) -> LineOutcome
        ensures fine { result.allowed ≡ true }
        ensures nothing { string_bytes result.text ≡ [] }
    {
        LineOutcome {
            text: String::new(alloc),
            allowed: true,
        }
    }
}

/// Makes the outcome of a line that is no event, with this text.
fn told(text: Result<String, NoMemory>) -> Result<LineOutcome, LineFault>
    ensures fine { IfOk result (λ o. o.allowed ≡ true) }
    ensures never { NeverBad result }
{
    Ok(LineOutcome {
        text: text?,
        allowed: true,
    })
}

impl Replay {
    /// Nothing was read.
    pub fn new(alloc: Global) -> Replay
        ensures { IsNew result.state }
    {
        Replay {
            state: State::Described(Description::new(alloc)),
        }
    }

    /// The world begins, where it has not.
    fn begin(&mut self, alloc: Global) -> Result<(), LineFault>
        ensures same { OnOk result (world_in self.new.state ≡ world_in self.old.state) }
        ensures begun { OnOk result (HasBegun self.new.state) }
        ensures bad { IsErrOf result LineFault.Bad → BeginsNone self.old.state }
    {
        match replace(&mut self.state, State::Lost) {
            State::Described(description) => {
                self.state = State::Begun(description.begin(alloc)?);
                Ok(())
            }
            State::Begun(world) => {
                // It is sound.
                world.contents();
                self.state = State::Begun(world);
                Ok(())
            }
            State::Lost => Err(LineFault::Bad),
        }
    }

    /// The answers of the world that has begun, a line a request; nothing, if none has.
    pub fn ended(&self, alloc: Global) -> Result<String, LineFault>
        ensures text { IfOk result (λ text. string_bytes text ≡ ended_text self.now.state) }
        ensures never { NeverBad result }
    {
        match &self.state {
            State::Begun(world) => Ok(answers(alloc, world)?),
            State::Described(_) | State::Lost => Ok(String::new(alloc)),
        }
    }

    /// All rows of the world that has begun.
    fn show(&mut self, alloc: Global) -> Result<LineOutcome, LineFault>
        ensures fine { IfOk result (λ o. o.allowed ≡ true) }
        ensures same { OnOk result (world_in self.new.state ≡ world_in self.old.state) }
        ensures begun { OnOk result (HasBegun self.new.state) }
        ensures bad { IsErrOf result LineFault.Bad → BeginsNone self.old.state }
    {
        self.begin(alloc)?;
        match &self.state {
            State::Begun(world) => told(rows(alloc, world)),
            State::Described(_) | State::Lost => Err(LineFault::Bad),
        }
    }

    /// The next world: the answers of the last one.
    fn next_world(&mut self, alloc: Global) -> Result<LineOutcome, LineFault>
        ensures new { OnOk result (IsNew self.new.state) }
        ensures ended { IfOk result (λ o. (o.allowed ≡ true) × (string_bytes o.text ≡ ended_text self.old.state)) }
        ensures never { NeverBad result }
    {
        let text = self.ended(alloc)?;
        self.state = State::Described(Description::new(alloc));
        Ok(LineOutcome {
            text,
            allowed: true,
        })
    }

    /// An event.
    fn run_event(
        &mut self,
        alloc: Global,
        number: u64,
        line: &str,
        words: &[&str],
    ) -> Result<LineOutcome, LineFault>
        ensures happens { IfOk result (λ o. (done : List Event)
            × Happens number line.now words.now self.old.state o.allowed done self.new.state (string_bytes o.text)) }
        ensures bad { IsErrOf result LineFault.Bad → AreNoEvent words.now ⊎ BeginsNone self.old.state }
    {
        let event = event(alloc, words)?;
        self.begin(alloc)?;
        match &mut self.state {
            State::Begun(world) => run_one(alloc, world, number, line, event),
            State::Described(_) | State::Lost => Err(LineFault::Bad),
        }
    }

    /// Whether words set something of the world that is described.
    fn set(&mut self, alloc: Global, words: &[&str]) -> Result<bool, LineFault>
        requires { ¬ (length words.now ≡ 0) }
        ensures yes { IfOk result (λ set. set ≡ true → Sets words.now self.old.state self.new.state) }
        ensures no { IfOk result (λ set. set ≡ false → self.new.state ≡ self.old.state) }
        ensures bad { IsErrOf result LineFault.Bad → IsSetting words.now × IsDescribed self.old.state }
    {
        match &mut self.state {
            State::Described(description) => description.set(alloc, words),
            State::Begun(_) | State::Lost => Ok(false),
        }
    }

    /// The outcome of a line's words, which are no comment.
    fn run_words(
        &mut self,
        alloc: Global,
        number: u64,
        line: &str,
        words: &[&str],
    ) -> Result<LineOutcome, LineFault>
        requires some { ¬ (length words.now ≡ 0) }
        requires other { ¬ IsAlone words.now (codes "rows") }
        ensures comes { IfOk result (λ o. (done : List Event)
            × Comes number line.now words.now self.old.state o.allowed done self.new.state (string_bytes o.text)) }
        ensures bad { IsErrOf result LineFault.Bad → IsReason words.now self.old.state }
    {
        if self.set(alloc, words)? {
            return Ok(LineOutcome::nothing(alloc));
        }
        self.run_event(alloc, number, line, words)
    }

    /// The outcome of words, which are those of a line.
    fn come(
        &mut self,
        alloc: Global,
        number: u64,
        line: &str,
        words: &[&str],
    ) -> Result<LineOutcome, LineFault>
        ensures comes { IfOk result (λ o. (done : List Event)
            × Comes number line.now words.now self.old.state o.allowed done self.new.state (string_bytes o.text)) }
        ensures bad { IsErrOf result LineFault.Bad → AreBad words.now self.old.state }
    {
        if words.is_empty() || is_comment(words) {
            return Ok(LineOutcome::nothing(alloc));
        }
        if is_alone(words, "world") {
            return self.next_world(alloc);
        }
        if is_alone(words, "rows") {
            return self.show(alloc);
        }
        self.run_words(alloc, number, line, words)
    }

    /// The outcome of a line, of a number: an event's outcome, behind the number and the words; at `world` the answers of the last one; at
    /// `rows` all rows; else nothing.
    ///
    /// # Errors
    ///
    /// `Bad`, where the line is no event and no setting that can be read, sets something of a world that has begun, or comes where the
    /// world can't begin: then each further event is `Bad` until `world`. `NoMemory`: an event may be done, or the world lost.
    pub fn run_line(
        &mut self,
        alloc: Global,
        number: u64,
        line: &str,
    ) -> Result<LineOutcome, LineFault>
        ensures comes { IfOk result (λ o. (done : List Event)
            × LineComes number line.now self.old.state o.allowed done self.new.state (string_bytes o.text)) }
        ensures bad { IsErrOf result LineFault.Bad → IsBad line.now self.old.state }
    {
        let words = words_of(alloc, line)?;
        self.come(alloc, number, line, &words)
    }
}
