//! One event, and the answers of requests.

ghost use Rattle.std.specs.Prelude.{◌≡◌, slice_get, Some, None, IfErr, IfOk, OnErr, OnOk, MatchOption};
ghost use Rattle.iiif_machine.specs.Steps.{step};
ghost use Rattle.iiif_machine.specs.Worlds.{answer_in, answers};
ghost use Rattle.iiif_machine.specs.Promises.{Follows};
ghost use Rattle.iiif_machine.specs.declared.rows.Answer.{Answer};
ghost use Rattle.iiif_machine.specs.declared.events.WorldFault.{WorldFault};
ghost use Rattle.iiif_world.specs.Code.{world_of, IsSoundWorld};

use crate::contents::Contents;
use iiif_machine::{Answer, Event, Progress, WorldFault};
use iiif_pixel::NoMemory;

/// An equal answer. The only error is lack of memory.
fn copy_answer(answer: &Answer) -> Result<Answer, NoMemory>
    ensures { IfOk result (λ a. a ≡ answer.now) }
{
    match answer {
        Answer::Refused(refusal) => Ok(Answer::Refused(*refusal)),
        Answer::Image(image) => Ok(Answer::Image(image.copy()?)),
        Answer::Failed(fault) => Ok(Answer::Failed(*fault)),
    }
}

/// A copy of a request's answer, if it is answered. The only error is lack of memory.
fn answer_in(progress: &Progress) -> Result<Option<Answer>, NoMemory>
    ensures { IfOk result (λ a. a ≡ answer_in progress.now) }
{
    match progress {
        Progress::Answered(answer) => Ok(Some(copy_answer(answer)?)),
        Progress::Waiting(_, _) | Progress::Dropped => Ok(None),
    }
}

impl Contents {
    /// Does an event to contents that are sound. `World::step` does it to its own.
    ///
    /// # Errors
    ///
    /// Those of `World::step`. The contents are as they were.
    pub fn happen(&mut self, event: &Event) -> Result<(), WorldFault>
        requires sound { IsSoundWorld (world_of self.old) }
        ensures ok { OnOk result (step (world_of self.old) event.now ≡ Some (world_of self.new)) }
        ensures not_now { IfErr result (λ f. f ≡ WorldFault.NotNow → step (world_of self.old) event.now ≡ None) }
        ensures no_memory { IfErr result (λ f. f ≡ WorldFault.NoMemory → ¬ (step (world_of self.old) event.now ≡ None)) }
        ensures same { OnErr result (world_of self.new ≡ world_of self.old) }
    {
        match event {
            Event::Want(node, name, request) => self.want(*node, name, request),
            Event::Enter(call) => self.enter(*call),
            Event::Again(flight) => self.again(*flight),
            Event::AskPeer(flight) => self.ask_peer(*flight),
            Event::Serve(ask) => self.serve(*ask),
            Event::Reply(call) => self.reply(*call),
            Event::Take(flight, reply) => self.take(*flight, *reply),
            Event::Lose(flight) => self.lose(*flight),
            Event::GoLocal(flight) => self.go_local(*flight),
            Event::Load(flight) => self.load(*flight),
            Event::SourceFault(flight, fault) => self.source_fault(*flight, *fault),
            Event::Land(flight, keep) => self.land(*flight, *keep),
            Event::Evict(node, keys) => self.evict(*node, keys),
            Event::Stop(node) => self.stop(*node),
        }
    }

    /// One event, which keeps the world sound.
    pub(crate) fn step(&mut self, event: &Event) -> Result<(), WorldFault>
        requires sound { IsSoundWorld (world_of self.old) }
        ensures ok { OnOk result (step (world_of self.old) event.now ≡ Some (world_of self.new)) }
        ensures not_now { IfErr result (λ f. f ≡ WorldFault.NotNow → step (world_of self.old) event.now ≡ None) }
        ensures no_memory { IfErr result (λ f. f ≡ WorldFault.NoMemory → ¬ (step (world_of self.old) event.now ≡ None)) }
        ensures same { OnErr result (world_of self.new ≡ world_of self.old) }
        ensures follows { OnOk result (Follows (world_of self.old) (world_of self.new)) }
        ensures sound { IsSoundWorld (world_of self.new) }
    {
        match self.happen(event) {
            Ok(()) => Ok(()),
            Err(fault) => Err(fault),
        }
    }

    /// The answer to a request: none where it waits, or went with its node.
    pub(crate) fn answer(&self, request: usize) -> Option<&Answer>
        ensures { MatchOption result ((a : Answer) → slice_get (answers (world_of self.now)) request ≡ Some (Some a) → ⊥)
            (λ a. slice_get (answers (world_of self.now)) request ≡ Some (Some a.now)) }
    {
        match self.requests.get(request) {
            None => None,
            Some(wanted) => match &wanted.progress {
                Progress::Answered(answer) => Some(answer),
                Progress::Waiting(_, _) | Progress::Dropped => None,
            },
        }
    }

    /// The answers, by the requests' numbers.
    pub(crate) fn answers(&self) -> Result<Vec<Option<Answer>>, NoMemory>
        ensures { IfOk result (λ v. v.items ≡ answers (world_of self.now)) }
    {
        let mut all = Vec::new(*self.calls.allocator());
        for wanted in &self.requests {
            all.push(answer_in(&wanted.progress)?)?;
        }
        Ok(all)
    }
}
