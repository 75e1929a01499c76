//! Ledgers that cover all passes of a group.

ghost use Rattle.std.specs.Prelude.{◌≡◌};
ghost use Rattle.iiif_keys.specs.Ledgers.{all_parts};

use std::marker::PhantomData;
use std::sync::ledger::Ledger;

/// Evidence that a ledger has 65,537 parts: one for each pass that can be out, and one that stays home.
#[derive(Drop)]
pub struct FullLedger<L: Ledger> {
    of: PhantomData<L>,
    pub ghost parts: { L.parts ≡ all_parts },
}

impl<L: Ledger> FullLedger<L> {
    /// Makes the evidence.
    pub fn new() -> FullLedger<L>
        requires { L.parts ≡ all_parts }
    {
        FullLedger { of: PhantomData }
    }
}
