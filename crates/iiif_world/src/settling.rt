//! Settling: flights resume and requests are answered once their calls know.

ghost use Rattle.std.specs.Prelude.{◌≡◌, ℕ, length, map, slice_get, Some, IfOk};
ghost use Rattle.iiif_machine.specs.Scenes.{IsProper};
ghost use Rattle.iiif_machine.specs.Sound.{IsHonestWorld};
ghost use Rattle.iiif_machine.specs.Worlds.{settled};
ghost use Rattle.iiif_world.specs.Code.{world_of};
ghost use Rattle.iiif_world.specs.Settling.{answer_due, answered_if, due, joined, ready_if};

use crate::contents::Contents;
use iiif_machine::hearing::Heard;
use iiif_machine::making::image;
use iiif_machine::{Answer, Flight, Progress, RequestRow, Stage, Value};
use iiif_pixel::NoMemory;
use iiif_source::ReadFault;
use iiif_tables::Place;

/// The changes that settling will make: for each flight its outcome, if it is ready by now, and for each request its answer.
#[derive(Drop)]
pub(crate) struct Settling {
    pub outcomes: Vec<Option<Result<Value, ReadFault>>>,
    pub answers: Vec<Option<Answer>>,
}

/// A flight that has its outcome by now is ready.
fn put_outcome(flight: &mut Flight, outcome: Option<Result<Value, ReadFault>>)
    ensures { flight.new ≡ ready_if flight.old outcome }
{
    if let Some(outcome) = outcome {
        flight.stage = Stage::Ready(outcome, Place::Nowhere);
    }
}

/// A request that has its answer by now is answered.
fn put_answer(wanted: &mut RequestRow, answer: Option<Answer>)
    ensures { wanted.new ≡ answered_if wanted.old answer }
{
    if let Some(answer) = answer {
        wanted.progress = Progress::Answered(answer);
    }
}

fn put_outcomes(flights: &mut Vec<Flight>, outcomes: Vec<Option<Result<Value, ReadFault>>>)
    requires { length outcomes.items ≡ length flights.old.items }
    ensures { flights.new.items ≡ joined ready_if flights.old.items outcomes.items }
{
    let mut left = outcomes;
    while let Some(outcome) = left.pop() {
        let place = left.len();
        put_outcome(&mut flights[place], outcome);
    }
}

fn put_answers(requests: &mut Vec<RequestRow>, answers: Vec<Option<Answer>>)
    requires { length answers.items ≡ length requests.old.items }
    ensures { requests.new.items ≡ joined answered_if requests.old.items answers.items }
{
    let mut left = answers;
    while let Some(answer) = left.pop() {
        let place = left.len();
        put_answer(&mut requests[place], answer);
    }
}

impl Contents {
    /// The outcome that a flight which asked in vain has by now.
    fn outcome_due(&self, flight: &Flight) -> Result<Option<Result<Value, ReadFault>>, NoMemory>
        ensures { IfOk result (λ o. o ≡ due (world_of self.now) flight.now) }
    {
        match flight.stage {
            Stage::Fallback(Some(call)) => self.learned(call),
            _ => Ok(None),
        }
    }

    fn outcomes_due(&self) -> Result<Vec<Option<Result<Value, ReadFault>>>, NoMemory>
        ensures { IfOk result (λ v. v.items ≡ map (due (world_of self.now)) (world_of self.now).flights) }
    {
        let mut all = Vec::new(*self.calls.allocator());
        for flight in &self.flights {
            all.push(self.outcome_due(flight)?)?;
        }
        Ok(all)
    }

    /// The answer that a request has by now. In a sound world what the items' values make is the request's image, and so it is made of
    /// the whole picture.
    fn answer_of(&self, wanted: &RequestRow) -> Result<Option<Answer>, NoMemory>
        requires proper { IsProper (world_of self.now).scene }
        requires honest { IsHonestWorld (world_of self.now) }
        requires there { (i : ℕ) × (slice_get (world_of self.now).requests i ≡ Some wanted.now) }
        ensures { IfOk result (λ a. a ≡ answer_due (world_of self.now) wanted.now) }
    {
        let Progress::Waiting(resolved, calls) = &wanted.progress else {
            return Ok(None);
        };
        let Some(picture) = self.picture(&wanted.info.name) else {
            return Ok(None);
        };
        match self.gathered(calls.items()) {
            Heard::Nothing => Ok(None),
            Heard::Fault(fault) => Ok(Some(Answer::Failed(fault))),
            Heard::Value => {
                let image = image(*self.calls.allocator(), picture, resolved)?;
                Ok(Some(Answer::Image(image)))
            }
        }
    }

    fn answers_due(&self) -> Result<Vec<Option<Answer>>, NoMemory>
        requires proper { IsProper (world_of self.now).scene }
        requires honest { IsHonestWorld (world_of self.now) }
        ensures { IfOk result (λ v. v.items ≡ map (answer_due (world_of self.now)) (world_of self.now).requests) }
    {
        let mut all = Vec::new(*self.calls.allocator());
        for wanted in &self.requests {
            all.push(self.answer_of(wanted)?)?;
        }
        Ok(all)
    }

    /// The changes that settling will make. The only error is lack of memory.
    pub(crate) fn settling(&self) -> Result<Settling, NoMemory>
        requires proper { IsProper (world_of self.now).scene }
        requires honest { IsHonestWorld (world_of self.now) }
        ensures outcomes { IfOk result (λ s. s.outcomes.items ≡ map (due (world_of self.now)) (world_of self.now).flights) }
        ensures answers { IfOk result (λ s. s.answers.items ≡ map (answer_due (world_of self.now)) (world_of self.now).requests) }
    {
        Ok(Settling {
            outcomes: self.outcomes_due()?,
            answers: self.answers_due()?,
        })
    }

    /// Each flight and each request sees what calls know by now.
    pub(crate) fn settle(&mut self, settling: Settling)
        requires outcomes { settling.outcomes.items ≡ map (due (world_of self.old)) (world_of self.old).flights }
        requires answers { settling.answers.items ≡ map (answer_due (world_of self.old)) (world_of self.old).requests }
        ensures { world_of self.new ≡ settled (world_of self.old) }
    {
        let Settling { outcomes, answers } = settling;
        put_outcomes(&mut self.flights, outcomes);
        put_answers(&mut self.requests, answers);
    }
}
