//! Entries of a cache.

ghost use Rattle.std.specs.Prelude.{◌≡◌};
ghost use Rattle.std.specs.declared.option.Option.TheVariants.{Some};
ghost use Rattle.std.specs.Option.{ForSome};
ghost use Rattle.std.specs.Arc.{arc_value};
ghost use Rattle.iiif_outcome.specs.Outcomes.{value_of};

use crate::receipt::Receipt;
use iiif_keys::{CacheKey, System};
use iiif_pixel::NoMemory;
use std::sync::Arc;

/// Cache entry: a value, and the receipt of the flight that landed with it.
#[derive(Drop)]
pub struct Entry<K: CacheKey, J: System, L> {
    pub(crate) value: Arc<K::Value>,
    pub(crate) receipt: Receipt<K, J, L>,
    pub ghost holds: { ForSome receipt.note.known (λ x. value_of x.outcome ≡ Some (arc_value value)) },
}

impl<K: CacheKey, J: System, L> Entry<K, J, L> {
    ghost use Rattle.std.specs.Prelude.{IfOk};
    ghost use Rattle.iiif_outcome.specs.Views.{entry_known, entry_size, kept_of, receipt_known, receipt_ticket};

    /// Makes an entry of a value and the receipt that knows it.
    pub fn new(value: Arc<K::Value>, receipt: Receipt<K, J, L>) -> Entry<K, J, L>
        requires { ForSome (receipt_known receipt) (λ x. value_of x.outcome ≡ Some (arc_value value)) }
        ensures kept { kept_of result ≡ record { value = arc_value value; ticket = receipt_ticket receipt } }
        ensures known { entry_known result ≡ receipt_known receipt }
    {
        Entry { value, receipt }
    }

    /// Returns how many bytes the entry takes with its key.
    pub fn size(&self, key: &K) -> u64
        ensures { result ≡ entry_size K.key_bytes K.val_bytes key.now (kept_of self.now).value }
    {
        key.size(&self.value)
    }

    /// Shares the entry with a caller that hits it. The only error is a value or a cell that refuses another share.
    pub fn share(&mut self) -> Result<Entry<K, J, L>, NoMemory>
        ensures same { kept_of self.new ≡ kept_of self.old }
        ensures same_known { entry_known self.new ≡ entry_known self.old }
        ensures shared { IfOk result (λ e. kept_of e ≡ kept_of self.old) }
        ensures shared_known { IfOk result (λ e. entry_known e ≡ entry_known self.old) }
    {
        let value = Arc::try_clone(&self.value)?;
        let receipt = self.receipt.share()?;
        Ok(Entry { value, receipt })
    }

    /// Returns the value.
    pub fn value(&self) -> &Arc<K::Value>
        ensures { arc_value result.now ≡ (kept_of self.now).value }
    {
        &self.value
    }

    /// Takes the value out, and drops the receipt.
    pub fn into_value(self) -> Arc<K::Value>
        ensures { arc_value result ≡ (kept_of self).value }
    {
        let Entry { value, receipt: _ } = self;
        value
    }

    /// Takes out the receipt of the flight that landed with the value.
    pub fn into_receipt(self) -> Receipt<K, J, L>
        ensures same { (receipt_known result ≡ entry_known self) × (receipt_ticket result ≡ (kept_of self).ticket) }
        ensures holds { ForSome (receipt_known result) (λ x. value_of x.outcome ≡ Some (kept_of self).value) }
    {
        let Entry { value: _, receipt } = self;
        receipt
    }
}
