//! Numbers of calls.

use std::marker::Model;

/// Numbers, one after another. A clause sees their list.
#[derive(Drop)]
pub struct Numbers {
    items: Vec<usize>,
}

impl Model for Numbers {
    ghost use Rattle.std.specs.Prelude.{ℕ, List};

    ghost Value = { List ℕ };

    ghost view = { λ numbers. numbers.items.items };
}

impl Numbers {
    ghost use Rattle.std.specs.Prelude.{◌≡◌};

    /// These numbers.
    pub fn new(items: Vec<usize>) -> Numbers
        ensures { result ≡ items.items }
    {
        Numbers { items }
    }

    /// The numbers.
    pub fn items(&self) -> &[usize]
        ensures { result.now ≡ self.now }
    {
        &self.items
    }
}
