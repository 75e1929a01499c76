//! Parts of messages, sent to any writer.

ghost use Rattle.std.specs.Prelude.{◌++◌, IfErr, OnOk};
ghost use Rattle.std.specs.Io.KnownBytes.{Appends};
ghost use Rattle.iiif_peer_wire.specs.Faults.{IsCut};

use crate::fault::WireFault;
use iiif_io::{Outlet, send_both};

/// Writes numbers and then a field's bytes.
pub fn send_part<W: Outlet>(writer: &mut W, head: &[u8], bytes: &[u8]) -> Result<(), WireFault>
    ensures whole { OnOk result (Appends (W.contents writer.old) (W.contents writer.new) (head.now ++ bytes.now)) }
    ensures cut { IfErr result (IsCut W.contents W.fails writer.old writer.new (head.now ++ bytes.now)) }
{
    match send_both(writer, head, bytes) {
        Ok(()) => Ok(()),
        Err(_) => Err(WireFault::Io),
    }
}
