//! Values of keys, made of whole pictures.

ghost use Rattle.std.specs.Prelude.{◌≡◌, IfOk, Some};
ghost use Rattle.iiif_machine.specs.Keys.{Fits, meaning};
ghost use Rattle.iiif_machine.specs.Scenes.{IsProper};
ghost use Rattle.iiif_world.specs.Code.{world_of};

use crate::contents::Contents;
use iiif_machine::making::{sums, tile};
use iiif_machine::{Key, Value};
use iiif_pixel::NoMemory;

impl Contents {
    /// The value that a key names, made of the whole picture. The only error is lack of memory.
    #[tactic(auto, unfolding(iiif_machine::specs::Keys::meaning))]
    pub(crate) fn meaning(&self, key: &Key) -> Result<Value, NoMemory>
        requires proper { IsProper (world_of self.now).scene }
        requires fits { Fits (world_of self.now).scene key.now }
        ensures { IfOk result (λ v. v ≡ meaning (world_of self.now).scene key.now) }
    {
        let alloc = *self.calls.allocator();
        match key {
            Key::Tile(key) => match self.picture(&key.name) {
                Some(picture) => Ok(Value::Tile(tile(picture, key)?)),
                None => unreachable!(),
            },
            Key::Sum(key) => match self.picture(&key.name) {
                Some(picture) => Ok(Value::Sum(sums(alloc, picture, key)?)),
                None => unreachable!(),
            },
        }
    }
}
