//! Texts sent whole, or cut off where the writer fails.

ghost use Rattle.std.specs.Prelude.{◌≡◌, ◌++◌, IfErr, OnOk};
ghost use Rattle.iiif_io.specs.Devices.{writes};
ghost use Rattle.iiif_io.specs.Sending.{Sends, IsCutOff};

use crate::Outlet;

/// Writes a whole text. The error is the number of bytes that were written before the writer failed.
pub fn send<W: Outlet>(out: &mut W, text: &[u8]) -> Result<(), u64>
    ensures whole { OnOk result (Sends (writes W.contents W.fails out.old out.new) text.now) }
    ensures cut { IfErr result (IsCutOff (writes W.contents W.fails out.old out.new) text.now) }
{
    let mut at = 0usize;
    while at < text.len() {
        let (_, rest) = text.split_at(at);
        match out.put(rest) {
            Ok(0) | Err(_) => return Err(at as u64),
            Ok(n) => at += n,
        }
    }
    Ok(())
}

/// Checks for a disconnect before more of a pending text is computed: `Err(0)`, as if the writer failed at its first byte, where the
/// client is gone. Nothing is checked where no text is pending, since a write just succeeded.
pub fn check_connected<W: Outlet>(out: &W, text: &[u8]) -> Result<(), u64>
    ensures none { IfErr result (λ sent. sent ≡ 0) }
    ensures cut { IfErr result (IsCutOff (writes W.contents W.fails out.now out.now) text.now) }
{
    if !text.is_empty() && out.is_gone() {
        Err(0)
    } else {
        Ok(())
    }
}

/// Writes two whole texts, together where the writer takes both at once. The error is the number of bytes of both that were written before
/// the writer failed.
pub fn send_both<W: Outlet>(out: &mut W, first: &[u8], second: &[u8]) -> Result<(), u64>
    ensures whole { OnOk result (Sends (writes W.contents W.fails out.old out.new) (first.now ++ second.now)) }
    ensures cut { IfErr result (IsCutOff (writes W.contents W.fails out.old out.new) (first.now ++ second.now)) }
{
    let mut taken = 0usize;
    while taken < first.len() {
        let (_, rest) = first.split_at(taken);
        match out.put_both(rest, second) {
            Ok(0) | Err(_) => return Err(taken as u64),
            Ok(n) => taken += n,
        }
    }
    // All of the first text was taken, and perhaps some of the second.
    let (_, rest) = second.split_at(taken - first.len());
    match send(out, rest) {
        Ok(()) => Ok(()),
        Err(sent) => Err(taken as u64 + sent),
    }
}
