// Puts and deletes that become one block.
ghost use Rattle.std.specs.Prelude.{◌≡◌, IfOk, IfSome, OnOk, OnErr};
ghost use Rattle.mc_model.specs.Batch.{empty_batch, is_empty_batch, batch_put, batch_delete, batch_delta};
ghost use Rattle.mc_model.specs.Cuts.{pairs};
ghost use Rattle.mc_model.specs.Kept.{processed};
ghost use Rattle.mc_keep.specs.Calls.{Reads};
ghost use Rattle.mc_keep.specs.Plan.{is_fault};

use crate::dropped::{add_pairs, tombs_of_dropped};
use crate::elements::{drop_element, elements_of_puts, put_element};
use crate::seen::seen_pairs;
use mc_base::{Bytes, Cid, List};
use mc_keep::{KeepError, Keeper};
use mc_key::Key;
use mc_model::Delta;
use std::alloc::{AllocError, Global};
use std::collections::BTreeMap;
use std::marker::Model;

/// Puts and deletes that become one block. It has at most one element of a key; a contract sees it as an open batch:
/// the elements, ascending by the key, and the deleted keys with the blocks that had live elements of them, ascending.
#[derive(Drop)]
pub struct Batch {
    alloc: Global,
    elements: BTreeMap<String, Bytes>,
    dropped: BTreeMap<String, List<Cid>>,
}

impl Model for Batch {
    ghost use Rattle.std.specs.String.{string_cmp};
    ghost use Rattle.std.specs.BTreeMap.{IsOrdered};
    ghost use Rattle.mc_model.specs.State.{OpenBatch};
    ghost use Rattle.mc_write.specs.Held.{elements_in, deleted_in, AreHeld};

    ghost Value = { OpenBatch };

    ghost view = { λ batch. record {
      elements = elements_in batch.elements.entries;
      pairs = deleted_in batch.dropped.entries;
    } };

    ghost invariant = { λ batch.
        IsOrdered string_cmp batch.elements × IsOrdered string_cmp batch.dropped × AreHeld batch.dropped.entries };
}

impl Batch {
    /// Nothing is put or deleted. Takes no memory.
    pub fn new(alloc: Global) -> Batch
        ensures { result ≡ empty_batch }
    {
        Batch {
            alloc,
            elements: BTreeMap::new(alloc),
            dropped: BTreeMap::new(alloc),
        }
    }

    /// Puts a value, in the place of the batch's element of the key. A refusal leaves the batch unchanged.
    pub fn put(&mut self, key: &Key<'_>, value: &[u8]) -> Result<(), AllocError>
        ensures ok { OnOk result (self.new ≡ batch_put key.now value.now self.old) }
        ensures err { OnErr result (self.new ≡ self.old) }
    {
        let name = String::from_str(self.alloc, key.as_str())?;
        let value = Bytes::from_slice(self.alloc, value)?;
        put_element(&mut self.elements, name, value)
    }

    /// Drops the batch's element of the key, and adds the blocks with a live element of it that a delete would take
    /// now. A refusal leaves the batch unchanged.
    pub fn delete<K: Keeper>(&mut self, key: &Key<'_>, keeper: &mut K) -> Result<(), KeepError>
        ensures ok { OnOk result (IfSome (K.told keeper.old) (λ kept.
            self.new ≡ batch_delete key.now (pairs (processed kept) key.now) self.old)) }
        ensures err { OnErr result (self.new ≡ self.old) }
        ensures reads { Reads K.Keeper (is_fault result) keeper.old keeper.new }
    {
        let pairs = seen_pairs(keeper, self.alloc, key.as_str())?;
        add_pairs(
            self.alloc,
            &mut self.dropped,
            key.as_str(),
            pairs.as_slice(),
        )?;
        drop_element(&mut self.elements, key.as_str());
        Ok(())
    }

    /// Whether nothing is put or deleted.
    pub fn is_empty(&self) -> bool
        ensures { result ≡ is_empty_batch self.now }
    {
        self.elements.is_empty() && self.dropped.is_empty()
    }

    /// The delta of the batch: its elements ascending by the key, and its tombstones by the key and then the block.
    pub fn delta(&self, alloc: Global, priority: u64) -> Result<Delta, AllocError>
        ensures { IfOk result (λ delta. delta ≡ batch_delta priority self.now) }
    {
        Ok(Delta {
            elements: elements_of_puts(alloc, &self.elements)?,
            tombstones: tombs_of_dropped(alloc, &self.dropped)?,
            priority,
        })
    }
}
