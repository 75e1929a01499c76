//! Asks over any writer that turns into a reader.

ghost use Rattle.std.specs.Prelude.{IfErr, IfOk};
ghost use Rattle.iiif_peer_wire.specs.Messages.{IsAsk};
ghost use Rattle.iiif_peer_link.specs.Asking.{Failed, Replied, terms};

use crate::exchange::Exchange;
use iiif_group::LinkFault;
use iiif_io::Inlet;
use iiif_peer_wire::{Version, WireFault, read_reply, write_ask};
use std::alloc::Global;

/// Asks for a key's value in a group, and reads the reply, which is of the ask's version.
pub fn ask_over<I: Inlet + Drop, W: Exchange<I> + Drop>(
    alloc: Global,
    mut out: W,
    version: Version,
    group: u8,
    key: &[u8],
) -> Result<Vec<u8>, LinkFault>
    requires { IsAsk group key.now }
    ensures value { IfOk result (λ v. Replied (terms W.contents W.fails W.turned I.remaining I.fails out version group key.now) 0 v.items) }
    ensures fault { IfErr result (Failed (terms W.contents W.fails W.turned I.remaining I.fails out version group key.now)) }
{
    match write_ask(&mut out, version, group, key) {
        Ok(()) => {}
        Err(_) => return Err(LinkFault::Wire(WireFault::Io)),
    }
    let mut reader = out.turn();
    match read_reply(alloc, &mut reader, version, key) {
        Ok((0, value)) => Ok(value),
        Ok((status, _)) => Err(LinkFault::Refused(status)),
        Err(fault) => Err(LinkFault::Wire(fault)),
    }
}
