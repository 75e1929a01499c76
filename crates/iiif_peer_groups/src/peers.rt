//! A node's groups as other nodes have them.

ghost use Rattle.std.specs.Prelude.{◌≡◌, ◌+◌, ◌≤◌, IfErr, IfOk, OnOk, length};
ghost use Rattle.iiif_tile_group.specs.Faults.{IsKeyFault};
ghost use Rattle.iiif_keys.specs.Blocks.{NamesPart};
ghost use Rattle.iiif_keys.specs.Shapes.{HasPicture};
ghost use Rattle.iiif_peer_groups.specs.Kinds.{sum_kind, system, tile_kind};
ghost use Rattle.iiif_peer_groups.specs.Replying.{Carries, HasFault, HasValue, MayReply};
ghost use Rattle.iiif_peer_wire.specs.Messages.{value_limit, IsAsk, IsReply};

use crate::keys::key_of;
use crate::replies::{reply_of, value_bytes};
use iiif_keys::{CacheKey, Fault, Shape, SumKey, System, TileKey};
use iiif_peer_wire::{Answers, Ask, Version};
use iiif_pixel::Depth;
use iiif_source::Source;
use iiif_sum_group::{Gate, Link, LocalHandle, Note, Passes, Step, SumCalls, TileCalls};
use iiif_tables::Class;
use std::alloc::Global;
use std::sync::Wait;
use std::sync::ledger::Ledger;

/// Makes the note of a step of an ask, which the calls of this pass answer.
fn note_of<'a>(ask: &'a Ask, pass: u64, step: Step) -> Note<'a> {
    Note {
        step,
        class: Class::Local,
        rank: if ask.group == 1 { 0 } else { 1 },
        pass,
        ticket: 0,
        key: ask.key.as_slice(),
    }
}

/// A node's groups as other nodes have them: each ask is answered by this node, and no other is asked for the key. The handle has no way to
/// ask one, and none to a source, so a value is the outcome of a call that entered its group.
#[derive(Drop)]
pub struct Peers<'a, R, S: Source<R>, J: System, N, T>
where
    TileCalls<J>: Ledger,
    SumCalls<J>: Ledger,
{
    pub groups: LocalHandle<'a, R, S, J, N, T>,
}

impl<
    'a,
    R: Wait,
    S: Source<R> + Drop,
    J: System,
    N: Link<TileKey, J, R> + Link<SumKey, J, R>,
    T: Gate<R>,
> Peers<'a, R, S, J, N, T> {
    /// The shape of the image that a key names, where messages of this version carry its values.
    fn shape_of<K: CacheKey>(&self, version: Version, key: &K) -> Result<Shape, Fault>
        ensures known { IfOk result (HasPicture J.pictures (K.name_of key.now)) }
        ensures fits { IfOk result (λ s. K.fits_in s key.now) }
        ensures names { IfOk result (λ s. NamesPart J.pictures J.edge (K.name_of key.now) (K.edge_of key.now)
            (λ s. K.fits_in s key.now × Carries version s.depth)) }
        ensures refused { IfErr result (IsKeyFault J.pictures J.edge (K.name_of key.now) (K.edge_of key.now)
            (λ s. K.fits_in s key.now × Carries version s.depth)) }
    {
        let shape = self.groups.shape_of(key)?;
        match (version, shape.depth) {
            (Version::One, Depth::Sixteen) => Err(Fault::BadKey),
            _ => Ok(shape),
        }
    }

    /// Gets the bytes of the tile that the bytes of a key name.
    pub fn get_tile(
        &self,
        rt: &R,
        alloc: Global,
        passes: &mut Passes<J>,
        version: Version,
        bytes: &[u8],
    ) -> Result<Vec<u8>, Fault>
        ensures value { IfOk result (λ v. HasValue tile_kind (system J.pictures J.edge J.gave J.stable J.honest) version bytes.now
            v.items) }
        ensures within { IfOk result (λ v. length v.items ≤ value_limit) }
        ensures fault { IfErr result (HasFault tile_kind (system J.pictures J.edge J.gave J.stable J.honest) version bytes.now) }
        // The value is that of a call that entered the group, once.
        ensures counted { OnOk result (passes.new.tile.gets ≡ passes.old.tile.gets + 1) }
    {
        let key: TileKey = key_of(alloc, bytes)?;
        let shape = self.shape_of(version, &key)?;
        let receipt = self.groups.get_tile_local(rt, &mut passes.tile, &key)?;
        value_bytes(alloc, &key, &shape, receipt)
    }

    /// Gets the bytes of the sums that the bytes of a key name.
    pub fn get_sums(
        &self,
        rt: &R,
        alloc: Global,
        passes: &mut Passes<J>,
        version: Version,
        bytes: &[u8],
    ) -> Result<Vec<u8>, Fault>
        ensures value { IfOk result (λ v. HasValue sum_kind (system J.pictures J.edge J.gave J.stable J.honest) version bytes.now v.items) }
        ensures within { IfOk result (λ v. length v.items ≤ value_limit) }
        ensures fault { IfErr result (HasFault sum_kind (system J.pictures J.edge J.gave J.stable J.honest) version bytes.now) }
        // The value is that of a call that entered the group.
        ensures counted { OnOk result (passes.old.sum.gets + 1 ≤ passes.new.sum.gets) }
    {
        let key: SumKey = key_of(alloc, bytes)?;
        let shape = self.shape_of(version, &key)?;
        let receipt = self.groups.get_local(rt, passes, &key)?;
        value_bytes(alloc, &key, &shape, receipt)
    }

    /// Returns the status and the value of the reply to an ask.
    pub fn reply(&self, rt: &R, alloc: Global, passes: &mut Passes<J>, ask: &Ask) -> (u8, Vec<u8>)
        requires { IsAsk ask.now.group ask.now.key.items }
        ensures spelled { IsReply ask.now.key.items result.0 result.1.items }
        ensures allowed { MayReply (system J.pictures J.edge J.gave J.stable J.honest) ask.now.version ask.now.group ask.now.key.items
            result.0 result.1.items }
    {
        let key = ask.key.as_slice();
        if ask.group == 1 {
            let outcome = self.get_tile(rt, alloc, passes, ask.version, key);
            return reply_of(alloc, outcome);
        }
        let outcome = self.get_sums(rt, alloc, passes, ask.version, key);
        reply_of(alloc, outcome)
    }
}

impl<
    'a,
    R: Wait,
    S: Source<R> + Drop,
    J: System,
    N: Link<TileKey, J, R> + Link<SumKey, J, R>,
    T: Gate<R>,
> Answers<R, Passes<J>> for Peers<'a, R, S, J, N, T> {
    ghost answers = { λ _ version group key status value.
        MayReply (system J.pictures J.edge J.gave J.stable J.honest) version group key status value };

    fn answer(&self, rt: &R, alloc: Global, passes: &mut Passes<J>, ask: &Ask) -> (u8, Vec<u8>) {
        let gate = self.groups.gate();
        if !gate.records() {
            return self.reply(rt, alloc, passes, ask);
        }
        let pass = passes.tile.id;
        gate.note(rt, &note_of(ask, pass, Step::Served));
        let reply = self.reply(rt, alloc, passes, ask);
        gate.note(rt, &note_of(ask, pass, Step::Replied(reply.0)));
        reply
    }
}
