//! Connections of other nodes.

ghost use Rattle.iiif_io.specs.Devices.{reads, writes};
ghost use Rattle.iiif_server.specs.Peers.{RepliesToAsk, ServesPeer};

use crate::links::Links;
use crate::node::Node;
use iiif_io::{Inlet, Outlet};
use iiif_keys::System;
use iiif_peer_groups::Peers;
use iiif_peer_wire::{Answers, Ask, serve_peer};
use iiif_source::Source;
use iiif_sum_group::{Gate, Passes};
use std::alloc::Global;
use std::sync::Wait;

impl<R: Wait, S: Source<R> + Drop, J: System, N: Links<J, R>, T: Gate<R>> Answers<R, Passes<J>>
    for Node<R, S, J, N, T> {
    ghost answers = { λ node version group key status value.
        RepliesToAsk S.bytes S.gave S.keeps J.honest node version group key status value };

    fn answer(&self, rt: &R, alloc: Global, passes: &mut Passes<J>, ask: &Ask) -> (u8, Vec<u8>) {
        // Read, so that it is known what the names stand for.
        let _images = self.images();
        let peers = Peers {
            groups: self.groups().local(),
        };
        peers.answer(rt, alloc, passes, ask)
    }
}

impl<R: Wait, S: Source<R> + Drop, J: System, N: Links<J, R>, T: Gate<R>> Node<R, S, J, N, T> {
    /// Answers the asks of another node's connection in order, each in its version with a reply of its key, until the input ends, an
    /// ask is at fault, a reply is cut off, or the 1,000th ask was answered. Then the connection is to be closed. No other node is asked
    /// for the key of an ask: its value is found or made here.
    pub fn serve_peer<I: Inlet, W: Outlet>(
        &self,
        rt: &R,
        alloc: Global,
        passes: &mut Passes<J>,
        reader: &mut I,
        out: &mut W,
    )
        ensures { ServesPeer S.Source J.honest self.now (reads I.remaining I.fails reader.old reader.new)
            (writes W.contents W.fails out.old out.new) }
    {
        serve_peer(rt, alloc, self, passes, reader, out)
    }
}
