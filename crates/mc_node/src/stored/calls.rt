// The calls of a replica that change it, each with what it leaves in the log.
ghost use Rattle.std.specs.Prelude.{◌≡◌, true, IfErr};
ghost use Rattle.mc_turn.specs.Lists.{Begins};
ghost use Rattle.mc_core.specs.Exact.{DecidesAlone};
ghost use Rattle.mc_node.specs.Entries.{is_open, items};
ghost use Rattle.mc_node.specs.Moves.{DeleteDoes, HearDoes, PutDoes};

use super::Stored;
use super::entries::{note, noted};
use crate::note::Note;
use mc_core::{CoreError, Deleted, Heard, Written, replicas_only_grow};
use mc_fetch::Naming;
use mc_keep::Keeper;
use mc_model::kept_is_durable;
use std::alloc::Global;

impl<K: Keeper, J: Naming> Stored<K, J> {
    // Puts.
    pub(crate) fn put(
        &mut self,
        alloc: Global,
        key: &str,
        value: &[u8],
    ) -> Result<Written, CoreError>
        requires unsealed { is_open self.old.log.items ≡ true }
        ensures extends { Begins self.old.log.items self.new.log.items }
        ensures does { PutDoes key.now value.now result (items K.Keeper self.old.log.items)
            (items K.Keeper self.new.log.items) }
    {
        replicas_only_grow();
        kept_is_durable();
        match self.begin() {
            Ok(_) => {}
            Err(error) => return Err(error),
        }
        self.replica.is_sound();
        let result = self.replica.put(alloc, key, value);
        let entry = noted(&result, Some(Note::Made), None);
        note(&mut self.log, &self.replica, entry);
        result
    }

    // Deletes. A want of memory is noted too, since some first blocks may have been made.
    pub(crate) fn delete(&mut self, alloc: Global, key: &str) -> Result<Deleted, CoreError>
        requires unsealed { is_open self.old.log.items ≡ true }
        ensures extends { Begins self.old.log.items self.new.log.items }
        ensures does { DeleteDoes key.now result (items K.Keeper self.old.log.items)
            (items K.Keeper self.new.log.items) }
    {
        replicas_only_grow();
        kept_is_durable();
        match self.begin() {
            Ok(_) => {}
            Err(error) => return Err(error),
        }
        self.replica.is_sound();
        let result = self.replica.delete(alloc, key);
        let entry = noted(&result, Some(Note::Made), Some(Note::Made));
        note(&mut self.log, &self.replica, entry);
        result
    }

    // Hears a message.
    pub(crate) fn hear(&mut self, alloc: Global, message: &[u8]) -> Result<Heard, CoreError>
        requires unsealed { is_open self.old.log.items ≡ true }
        ensures extends { Begins self.old.log.items self.new.log.items }
        ensures does { HearDoes message.now result (items K.Keeper self.old.log.items)
            (items K.Keeper self.new.log.items) }
        ensures seen { IfErr result DecidesAlone }
    {
        replicas_only_grow();
        kept_is_durable();
        match self.begin() {
            Ok(_) => {}
            Err(error) => return Err(error),
        }
        self.replica.is_sound();
        let result = self.replica.hear(alloc, message);
        let entry = noted(&result, Some(Note::Heard), None);
        note(&mut self.log, &self.replica, entry);
        result
    }
}
