// The calls of a replica on its batch.
ghost use Rattle.std.specs.Prelude.{◌≡◌, ◌≤◌, ◌++◌, ◌∷◌, [], false, None, Some, IfOk, IfSome, IfErr, is_some, not};
ghost use Rattle.std.specs.Option.{option_map};
ghost use Rattle.mc_model.specs.Batch.{batch_put, empty_batch, is_empty_batch};
ghost use Rattle.mc_model.specs.Events.{Batch as Closed};
ghost use Rattle.mc_plan.specs.declared.error.CoreError.{CoreError as Refused};
ghost use Rattle.mc_plan.specs.Batches.{AddsBatch, BeginEvents, BatchDeleteEvents, BatchPutEvents, CommitEvents};
ghost use Rattle.mc_plan.specs.Batches.{batch_once};
ghost use Rattle.mc_plan.specs.Batches.{batch_delete_refusal, batch_put_refusal, begin_refusal};
ghost use Rattle.mc_plan.specs.Batches.{commit_refusal};
ghost use Rattle.mc_plan.specs.Calls.{Stays};
ghost use Rattle.mc_plan.specs.Events.{Part};
ghost use Rattle.mc_core.specs.Exact.{DecidesAlone, IfRefusedOrShort, NoMemory, front_of, put_front, stop_front};
ghost use Rattle.mc_plan.specs.Uptakes.{IsShaped, IsSomeUptake, uptake_events, uptake_rows};
ghost use Rattle.mc_plan.specs.Refusals.{Is, is_fault, key_refusal, no_batch_refusal, open_batch_refusal};
ghost use Rattle.mc_core.specs.Words.{Acts, Becomes, Continues, TellsSame};

use crate::Replica;
use mc_keep::{Keeper, changes_fit, commits_are_events};
use mc_model::kept_is_durable;
use mc_plan::{CoreError, Planned, Written, check_key, check_value, is_sound, plan_batch, stops};
use mc_write::Batch;
use std::alloc::Global;

impl<K: Keeper> Replica<K> {
    /// Opens a batch, with nothing in it. Takes no memory. Refusals in their order: `Stopped`, `BatchOpen`.
    pub fn batch_begin(&mut self, alloc: Global) -> Result<(), CoreError>
        ensures call { Acts K.Keeper (λ s. Is (begin_refusal s)) (λ s. BeginEvents) Stays result self.old self.new }
        ensures keeps { Continues K.Keeper (is_fault result) self.old self.new }
        ensures front { front_of result ≡ stop_front self.old.stopped (open_batch_refusal self.old.batch) }
        ensures seen { IfErr result DecidesAlone }
        ensures no_memory { NoMemory result }
        ensures no_fault { is_fault result ≡ false }
        ensures untouched { (self.new.keeper ≡ self.old.keeper) × (self.new.queue ≡ self.old.queue)
            × (self.new.walk ≡ self.old.walk) × (self.new.whole ≡ self.old.whole) }
        ensures inbox { self.new.inbox ≡ self.old.inbox }
        ensures begun { self.new.batch ≡ batch_once result (Some empty_batch) self.old.batch }
    {
        if self.stopped {
            return Err(CoreError::Stopped);
        }
        if self.batch.is_some() {
            return Err(CoreError::BatchOpen);
        }
        self.batch = Some(Batch::new(alloc));
        Ok(())
    }

    /// Puts a value into the open batch, in the place of the batch's element of the key. Refusals in their order:
    /// `Stopped`, `NoBatch`, `BadKey`, `ValueTooLong`; these and `Memory` leave the replica as it was.
    pub fn batch_put(&mut self, key: &str, value: &[u8]) -> Result<(), CoreError>
        ensures call { Acts K.Keeper (λ s. Is (batch_put_refusal s key.now value.now))
            (λ s. BatchPutEvents s key.now value.now) Stays result self.old self.new }
        ensures keeps { Continues K.Keeper (is_fault result) self.old self.new }
        ensures front { front_of result ≡ stop_front self.old.stopped
            (no_batch_refusal self.old.batch (λ batch. put_front key.now value.now)) }
        ensures seen { IfErr result DecidesAlone }
        ensures no_fault { is_fault result ≡ false }
        ensures untouched { (self.new.keeper ≡ self.old.keeper) × (self.new.queue ≡ self.old.queue)
            × (self.new.walk ≡ self.old.walk) × (self.new.whole ≡ self.old.whole) }
        ensures inbox { self.new.inbox ≡ self.old.inbox }
        ensures added { self.new.batch
            ≡ batch_once result (option_map (batch_put key.now value.now) self.old.batch) self.old.batch }
    {
        if self.stopped {
            return Err(CoreError::Stopped);
        }
        let Some(batch) = &mut self.batch else {
            return Err(CoreError::NoBatch);
        };
        let name = check_key(key)?;
        check_value(value)?;
        match batch.put(&name, value) {
            Ok(()) => Ok(()),
            Err(_) => Err(CoreError::Memory),
        }
    }

    /// Drops the batch's element of a key, and adds the blocks with a live element of it that a delete would take now.
    /// Refusals in their order: `Stopped`, `NoBatch`, `BadKey`; these and `Memory` leave the replica as it was.
    pub fn batch_delete(&mut self, key: &str) -> Result<(), CoreError>
        ensures call { Acts K.Keeper (λ s. Is (batch_delete_refusal s key.now)) (λ s. BatchDeleteEvents s key.now)
            Stays result self.old self.new }
        ensures keeps { Continues K.Keeper (is_fault result) self.old self.new }
        ensures front { front_of result ≡ stop_front self.old.stopped
            (no_batch_refusal self.old.batch (λ batch. key_refusal key.now)) }
        ensures seen { IfErr result DecidesAlone }
        ensures same { TellsSame K.Keeper self.old self.new }
        ensures added { IfErr result (λ error. self.new.batch ≡ self.old.batch) }
        ensures still_open { is_some self.new.batch ≡ is_some self.old.batch }
        ensures whole_same { (self.new.walk ≡ self.old.walk) × (self.new.whole ≡ self.old.whole) }
        ensures inbox { self.new.inbox ≡ self.old.inbox }
    {
        kept_is_durable();
        if self.stopped {
            return Err(CoreError::Stopped);
        }
        let Some(batch) = &mut self.batch else {
            return Err(CoreError::NoBatch);
        };
        let key = check_key(key)?;
        match batch.delete(&key, &mut self.keeper) {
            Ok(()) => Ok(()),
            Err(error) => {
                let error = CoreError::from(error);
                self.stopped = stops(error);
                Err(error)
            }
        }
    }

    /// Makes one block of the open batch, over the heads, stores it unless it is stored, processes it, and closes the
    /// batch. An empty batch is closed without a block. All memory is taken before the first commit. Refusals in their
    /// order: `Stopped`, `NoBatch`, `PriorityFull`, `BlockTooLarge`, `Clash`; these and `Memory` leave the batch open
    /// and the replica as it was.
    pub fn batch_commit(&mut self, alloc: Global) -> Result<Option<Written>, CoreError>
        ensures call { Acts K.Keeper (λ s. Is (commit_refusal s)) CommitEvents Stays result self.old self.new }
        ensures keeps { Continues K.Keeper (is_fault result) self.old self.new }
        ensures front { front_of result ≡ stop_front self.old.stopped
            (no_batch_refusal self.old.batch (λ batch. None)) }
        ensures refused { IfRefusedOrShort result (TellsSame K.Keeper self.old self.new) }
        ensures closed { self.new.batch ≡ batch_once result None self.old.batch }
        ensures empty { IfOk result (λ written. IfSome self.old.batch (λ batch.
            is_some written ≡ not (is_empty_batch batch))) }
        ensures whole_same { (self.new.walk ≡ self.old.walk) × (self.new.whole ≡ self.old.whole) }
        ensures inbox { self.new.inbox ≡ self.old.inbox }
        ensures made { IfOk result (λ written. Becomes K.Keeper (λ rose. AddsBatch written) self.old self.new) }
    {
        kept_is_durable();
        commits_are_events();
        changes_fit();
        is_sound(&self.keeper);
        if self.stopped {
            return Err(CoreError::Stopped);
        }
        let Some(batch) = &self.batch else {
            return Err(CoreError::NoBatch);
        };
        if batch.is_empty() {
            self.batch = None;
            return Ok(None);
        }
        match plan_batch(&mut self.keeper, alloc, batch, self.whole) {
            Ok(planned) => self.take_up_batch(planned),
            Err(error) => {
                self.stopped = stops(error);
                Err(error)
            }
        }
    }

    // The commits of the batch's block, and then no batch is open.
    fn take_up_batch(&mut self, planned: Planned) -> Result<Option<Written>, CoreError>
        requires up { self.old.stopped ≡ false }
        requires room { uptake_rows planned.uptake ≤ K.spare self.old.keeper }
        requires shape { IsShaped planned.uptake }
        requires links { planned.uptake.after.links ≡ [] }
        requires same { planned.uptake.after.cid ≡ planned.written.cid }
        requires uptake { IfSome (K.told self.old.keeper) (λ kept. IsSomeUptake kept self.old.whole planned.uptake) }
        ensures part { Becomes K.Keeper (λ rose.
            Part (uptake_events planned.uptake ++ Closed None ∷ []) rose result) self.old self.new }
        ensures answer { IfOk result (λ written. written ≡ Some planned.written) }
        ensures only { IfErr result (λ error. error ≡ Refused.KeeperFault) }
        ensures closed { self.new.batch ≡ batch_once result None self.old.batch }
        ensures whole_same { (self.new.walk ≡ self.old.walk) × (self.new.whole ≡ self.old.whole) }
        ensures inbox { self.new.inbox ≡ self.old.inbox }
        ensures keeps { Continues K.Keeper (is_fault result) self.old self.new }
    {
        match self.take_up(planned) {
            Ok(written) => {
                self.batch = None;
                Ok(Some(written))
            }
            Err(error) => Err(error),
        }
    }
}
