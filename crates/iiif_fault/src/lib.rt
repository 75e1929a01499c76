//! Faults by number.
#![tactic(auto)]

ghost use Rattle.std.specs.Prelude.{◌≡◌, ℕ};

/// A fault with a number. Programs report faults by it, and peers send it as the status of a reply, so a variant never changes
/// its number.
pub trait Numbered {
    /// The number of each fault.
    ghost number_of: { Self → ℕ };

    /// Returns the fault's number.
    fn number(&self) -> u8
        ensures { result ≡ number_of self.now };
}
