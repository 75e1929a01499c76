//! The reader of request heads.

ghost use Rattle.std.specs.Prelude.{◌≡◌, ◌<◌, true, false, ℕ, List, [], ◌++◌, length, Option, None, Some, Err};
ghost use Rattle.std.specs.Prelude.{IfOk, IfErr, IfSome, OnOk, OnErr};
ghost use Rattle.std.specs.Io.KnownBytes.{prepend_known, Consumes, IsAtEnd};
ghost use Rattle.httparse.specs.Grammar.{RequestHead};
ghost use Rattle.iiif_http_front.specs.RequestHeads.{BeginsWithCall};
ghost use Rattle.iiif_http_front.specs.Reading.{Answers, IsNeeded, IsPrompt, IsPromptRefusal, IsRefused, IsUnfinished, input_of};
ghost use Rattle.iiif_http_front.specs.Code.{IsOpen, EndsWith};
ghost use Rattle.iiif_http_front.specs.declared.head_fault.HeadFault.TheVariants as HeadFault;

use crate::call::Call;
use crate::head_fault::HeadFault;
use crate::search::{Found, find_call, has_line_feed};
use crate::unread::{BYTE_LIMIT, Unread};
use iiif_io::Inlet;
pub use std::alloc::AllocError as NoMemory;
use std::alloc::Global;
use std::io;
use std::marker::Model;

/// A reader of the heads of a connection. Clauses see the bytes that were read and belong to no call yet, the reader, and the fault that
/// ended it.
#[derive(Drop)]
pub struct Heads<I> {
    alloc: Global,
    unread: Unread,
    reader: I,
    fault: Option<HeadFault>,
}

impl<I> Model for Heads<I> {
    ghost use Rattle.iiif_http_front.specs.Reading.{Reading};

    ghost Value = { Reading I };

    ghost view = { λ h. record { unread = h.unread; reader = h.reader; fault = h.fault } };
}

impl<I: Inlet + Drop> Heads<I> {
    /// Begins at the reader's next byte. The only buffer is allocated here; where that fails the reader is dropped.
    pub fn new(alloc: Global, reader: I) -> Result<Heads<I>, NoMemory>
        ensures { IfOk result (λ heads. heads ≡ record { unread = []; reader = reader; fault = None }) }
    {
        Ok(Heads {
            alloc,
            unread: Unread::new(alloc)?,
            reader,
            fault: None,
        })
    }

    /// Reads the next call, or `None` where the input ends before a head begins. After a fault it returns that fault again and reads
    /// nothing.
    pub fn read_head(&mut self) -> Result<Option<Call>, HeadFault>
        // A call whose head is in the buffer is returned without a read.
        ensures ready { self.old.fault ≡ None → (h : RequestHead) (rest : List ℕ) → BeginsWithCall self.old.unread h rest
            → self.new.reader ≡ self.old.reader }

        // Where the remaining bytes are known, as in memory, the answer depends on the whole input alone, however the reads cut it.
        ensures answers { self.old.fault ≡ None → IfSome (input_of I.remaining self.old) (λ input.
            Answers input (input_of I.remaining self.new) result) }

        // Where they aren't, as at a socket, it is the answer to the bytes that were read so far.
        ensures came { self.old.fault ≡ None → (came : List ℕ) × Answers (self.old.unread ++ came) (Some self.new.unread) result }

        // A call is returned at once: its head wasn't whole before the last read that was made for it.
        ensures last { self.old.fault ≡ None → IfOk result (λ answer. IfSome answer
            (IsPrompt I.gave self.old.unread self.old.reader self.new.unread self.new.reader)) }

        // A whole head that isn't accepted, or whole lines of one, are refused without a read where they are in the buffer.
        ensures refused { self.old.fault ≡ None → IsRefused self.old.unread
            → (result ≡ Err HeadFault.Bad) × (self.new.reader ≡ self.old.reader) }

        // They are refused at once: before the last read that was made, they weren't whole.
        ensures at_once { self.old.fault ≡ None → result ≡ Err HeadFault.Bad
            → IsPromptRefusal I.gave self.old.unread self.old.reader self.new.unread self.new.reader }

        // `Io` only where a read failed in this call, and the bytes that came before hold no call and nothing to refuse.
        ensures io { self.old.fault ≡ None → result ≡ Err HeadFault.Io → (before : I) × I.fails before self.new.reader }
        ensures held { self.old.fault ≡ None → result ≡ Err HeadFault.Io → IsUnfinished self.new.unread }

        ensures repeats { IfSome self.old.fault (λ fault. (result ≡ Err fault) × (self.new ≡ self.old)) }
        ensures remembers { IfErr result (λ fault. self.new.fault ≡ Some fault) }
        ensures goes_on { OnOk result (self.new.fault ≡ None) }
    {
        if let Some(fault) = self.fault {
            return Err(fault);
        }
        let answer = next_head(self.alloc, &mut self.unread, &mut self.reader);
        if let Err(fault) = &answer {
            self.fault = Some(*fault);
        }
        answer
    }
}

/// Reads until a head may be whole, which ends with a line feed, or the buffer is full. The first bytes that come are enough, so that
/// input which begins no head is refused at once. `false` at the end of the input.
fn fill_line<I: Inlet>(unread: &mut Unread, reader: &mut I) -> io::Result<bool>
    requires { IsOpen unread.old }
    ensures came { (came : List ℕ) × (unread.new ≡ unread.old ++ came) × Consumes (I.remaining reader.old) (I.remaining reader.new) came }
    ensures needed { IfOk result (λ more. more ≡ true →
        IsNeeded I.gave unread.old unread.new reader.new × (length unread.old < length unread.new)) }
    ensures end { IfOk result (λ more. more ≡ false → IsOpen unread.new × IsAtEnd (I.remaining reader.new)) }
    ensures failed { OnErr result (IsOpen unread.new × ((before : I) × I.fails before reader.new)) }
{
    'reads: loop {
        let held = unread.as_slice().len();
        if unread.fill(reader)? == 0 {
            return Ok(false);
        }
        let bytes = unread.as_slice();
        let (_, came) = bytes.split_at(held);
        if held == 0 || bytes.len() >= BYTE_LIMIT || has_line_feed(came) {
            return Ok(true);
        }
    }
}

/// Returns the fault of an input that ends behind these bytes, or fails there: `Bad` where they begin no head, else the given one.
fn fault_at_end(alloc: Global, bytes: &[u8], fault: HeadFault) -> HeadFault
    requires { IsOpen bytes.now }
    ensures { EndsWith bytes.now fault result }
{
    match find_call(alloc, bytes) {
        Err(found) => found,
        Ok(_) => fault,
    }
}

/// Reads the next call, where no fault came yet. The bytes are parsed once a line, not at each read.
fn next_head<I: Inlet>(
    alloc: Global,
    unread: &mut Unread,
    reader: &mut I,
) -> Result<Option<Call>, HeadFault>
    ensures answers { IfSome (prepend_known unread.old (I.remaining reader.old)) (λ input.
        Answers input (prepend_known unread.new (I.remaining reader.new)) result) }
    ensures came { (came : List ℕ) × Answers (unread.old ++ came) (Some unread.new) result }
    ensures ready { (h : RequestHead) (rest : List ℕ) → BeginsWithCall unread.old h rest → reader.new ≡ reader.old }
    ensures last { IfOk result (λ answer. IfSome answer (IsPrompt I.gave unread.old reader.old unread.new reader.new)) }
    ensures refused { IsRefused unread.old → (result ≡ Err HeadFault.Bad) × (reader.new ≡ reader.old) }
    ensures at_once { result ≡ Err HeadFault.Bad → IsPromptRefusal I.gave unread.old reader.old unread.new reader.new }
    ensures io { result ≡ Err HeadFault.Io → (before : I) × I.fails before reader.new }
    ensures held { result ≡ Err HeadFault.Io → IsUnfinished unread.new }
{
    'heads: loop {
        match find_call(alloc, unread.as_slice()) {
            Err(fault) => return Err(fault),
            Ok(Found::Whole(call, length)) => {
                unread.consume(length);
                return Ok(Some(call));
            }
            Ok(Found::Partial) => {}
        }
        if unread.as_slice().len() >= BYTE_LIMIT {
            return Err(HeadFault::TooLong);
        }
        let Ok(more) = fill_line(unread, reader) else {
            return Err(fault_at_end(alloc, unread.as_slice(), HeadFault::Io));
        };
        if !more {
            if unread.as_slice().is_empty() {
                return Ok(None);
            }
            return Err(fault_at_end(alloc, unread.as_slice(), HeadFault::Cut));
        }
    }
}
