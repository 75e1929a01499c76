//! Worlds that events have made.

use crate::contents::Contents;
use iiif_machine::{Answer, Event, WorldFault};
use iiif_pixel::NoMemory;
use std::marker::Model;

/// A world: it begins by `new`, and goes on by `step` and `run`. So it is sound at all times. A clause sees its contents.
#[derive(Drop)]
pub struct World {
    contents: Contents,
}

impl Model for World {
    ghost use Rattle.iiif_world.specs.declared.contents.Contents.{Contents};
    ghost use Rattle.iiif_world.specs.Code.{world_of, IsSoundWorld};

    ghost Value = { Contents };

    ghost view = { λ world. world.contents };

    ghost invariant = { λ world. IsSoundWorld (world_of world.contents) };
}

impl World {
    ghost use Rattle.std.specs.Prelude.{◌≡◌, length, take, slice_get, Some, None, IfErr, IfOk, OnErr, OnOk, MatchOption};
    ghost use Rattle.iiif_machine.specs.Steps.{run, step};
    ghost use Rattle.iiif_machine.specs.Worlds.{answers};
    ghost use Rattle.iiif_machine.specs.Promises.{Follows};
    ghost use Rattle.iiif_machine.specs.Headline.{Headline};
    ghost use Rattle.iiif_machine.specs.declared.rows.Answer.{Answer};
    ghost use Rattle.iiif_machine.specs.declared.events.WorldFault.{WorldFault};
    ghost use Rattle.iiif_world.specs.Code.{world_of, IsSoundWorld};
    ghost use Rattle.iiif_world.specs.Stepping.{AreRightAnswers, IsRightAnswer, StopsRightAt};

    /// The world of these contents.
    pub(crate) fn from_contents(contents: Contents) -> World
        requires { IsSoundWorld (world_of contents) }
        ensures contents { result ≡ contents }
        ensures sound { IsSoundWorld (world_of result) }
    {
        World { contents }
    }

    /// Its pictures, nodes and rows, which are sound.
    pub fn contents(&self) -> &Contents
        ensures contents { result.now ≡ self.now }
        ensures sound { IsSoundWorld (world_of self.now) }
    {
        &self.contents
    }

    /// One event.
    ///
    /// # Errors
    ///
    /// `NotNow` where it isn't allowed; and `NoMemory` where it is, and memory was refused. The world is as it was.
    pub fn step(&mut self, event: &Event) -> Result<(), WorldFault>
        ensures ok { OnOk result (step (world_of self.old) event.now ≡ Some (world_of self.new)) }
        ensures not_now { IfErr result (λ f. f ≡ WorldFault.NotNow → step (world_of self.old) event.now ≡ None) }
        ensures no_memory { IfErr result (λ f. f ≡ WorldFault.NoMemory → ¬ (step (world_of self.old) event.now ≡ None)) }
        ensures same { OnErr result (world_of self.new ≡ world_of self.old) }
        ensures follows { OnOk result (Follows (world_of self.old) (world_of self.new)) }
        ensures sound { IsSoundWorld (world_of self.new) }
    {
        self.contents.step(event)
    }

    /// How many requests came.
    pub fn request_count(&self) -> usize
        ensures { result ≡ length (world_of self.now).requests }
    {
        self.contents().requests.len()
    }

    /// The answer to a request: none where it waits, or went with its node.
    pub fn answer(&self, request: usize) -> Option<&Answer>
        ensures answer { MatchOption result ((a : Answer) → slice_get (answers (world_of self.now)) request ≡ Some (Some a) → ⊥)
            (λ a. slice_get (answers (world_of self.now)) request ≡ Some (Some a.now)) }
        ensures right { MatchOption result (Unit {0}) (λ a. IsRightAnswer (world_of self.now) request a.now) }
    {
        self.contents().answer(request)
    }

    /// The answers, by the requests' numbers: none where a request waits, or went with its node. The only error is lack of memory.
    pub fn answers(&self) -> Result<Vec<Option<Answer>>, NoMemory>
        ensures answers { IfOk result (λ v. v.items ≡ answers (world_of self.now)) }
        ensures right { IfOk result (λ v. AreRightAnswers (world_of self.now) v.items) }
    {
        self.contents().answers()
    }

    /// Runs events, one after another: the world after all of them. Where one isn't done, the world is given up.
    ///
    /// # Errors
    ///
    /// The place of the first event that was not allowed, with `NotNow`; or of one that was, and for which memory was refused, with
    /// `NoMemory`.
    pub fn run(self, events: &[Event]) -> Result<World, (usize, WorldFault)>
        ensures ok { IfOk result (λ w. run (world_of self) events.now ≡ Some (world_of w)) }
        ensures err { IfErr result (λ e. StopsRightAt (world_of self) events.now e.0 e.1) }
        ensures follows { IfOk result (λ w. Follows (world_of self) (world_of w)) }
        ensures sound { IfOk result (λ w. IsSoundWorld (world_of w)) }
        ensures headline { IfOk result (λ w. Headline (world_of self) events.now (world_of w)) }
    {
        let mut world = self;
        // It is sound, and so is what comes of it.
        world.contents();
        for (place, event) in events.iter().enumerate() {
            match world.step(event) {
                Ok(()) => {}
                Err(fault) => return Err((place, fault)),
            }
        }
        Ok(world)
    }
}
