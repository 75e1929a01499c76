//! Answers sent.

ghost use Rattle.std.specs.Prelude.{◌≡◌, ◌⊎◌, IfOk, IfErr};
ghost use Rattle.iiif_source.specs.declared.ReadFault.{ReadFault};
ghost use Rattle.iiif_keys.specs.declared.fault.Fault.TheVariants as Fault;
ghost use Rattle.iiif_answers.specs.Responses.{source_fault, want_of_memory, written};
ghost use Rattle.iiif_answers.specs.Sent.{answer_of, IsSent};

use crate::answer::{Cause, Cut, Sent};
use crate::message::{Message, memory_body, memory_head, source_message};
use crate::part::Part;
use iiif_io::{Outlet, send_both};
use iiif_keys::Fault;
use iiif_pixel::NoMemory;
use std::alloc::{AllocError, Global};

/// Sends an answer of this status.
fn send_answer<W: Outlet>(out: &mut W, status: u16, head: &[u8], body: &[u8]) -> Result<Sent, Cut>
    ensures { IsSent W.contents W.fails out.old out.new (record { status = status; head = head.now; body = body.now }) result }
{
    match send_both(out, head, body) {
        Ok(()) => Ok(Sent {
            status,
            bytes: head.len() as u64 + body.len() as u64,
            held: 0,
        }),
        Err(sent) => Err(Cut {
            sent,
            cause: Cause::Writer,
        }),
    }
}

/// Sends an answer, or, where there was no memory for it, the one that stands ready.
pub fn send_message<W: Outlet>(
    out: &mut W,
    part: Part,
    message: Result<Message, NoMemory>,
) -> Result<Sent, Cut>
    ensures made { IfOk message (λ m. IsSent W.contents W.fails out.old out.new (answer_of m) result) }
    ensures memory { IfErr message (λ _. IsSent W.contents W.fails out.old out.new (written part want_of_memory) result) }
{
    match message {
        Ok(message) => send_answer(out, message.status, &message.head, &message.body),
        Err(_) => send_answer(out, 500, memory_head(part), memory_body(part)),
    }
}

/// Sends the answer to a GET of an image of which nothing could be made.
pub fn send_fault<W: Outlet>(
    alloc: Global,
    part: Part,
    fault: Fault,
    out: &mut W,
) -> Result<Sent, Cut>
    ensures { ((f : ReadFault) × (fault ≡ Fault.Source f) × IsSent W.contents W.fails out.old out.new (written part source_fault) result)
        ⊎ IsSent W.contents W.fails out.old out.new (written part want_of_memory) result }
{
    match fault {
        Fault::Source(_) => {
            let message = source_message(alloc, part);
            send_message(out, part, message)
        }
        _ => send_message(out, part, Err(AllocError)),
    }
}
