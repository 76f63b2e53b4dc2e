// The calls of workers on a sealed node. A fault of the keeper alone is noted.
ghost use Rattle.std.specs.Prelude.{◌≡◌, false, true, Err, IfOk};
ghost use Rattle.mc_turn.specs.Lists.{Begins};
ghost use Rattle.mc_fetch.specs.Fits.{NextFits};
ghost use Rattle.mc_queue.specs.Views.{shown};
ghost use Rattle.mc_core.specs.Exact.{RestSame};
ghost use Rattle.mc_core.specs.Words.{Continues, HappensTo};
ghost use Rattle.mc_drain.specs.JobCalls.{back_events};
ghost use Rattle.mc_drain.specs.Words.{begin_failed};
ghost use Rattle.mc_worker.specs.Lookups.{FoundFits};
ghost use Rattle.mc_node.specs.Entries.{is_sealed_log, items, shown as shown_of};
ghost use Rattle.mc_core.specs.Jobs.{found_in};
ghost use Rattle.mc_fetch.specs.declared.job.Found.{Found as FoundOf};
ghost use Rattle.mc_node.specs.Handovers.{AddsFetched, IfCommitted, IfQueued, IsBlock, is_of_fetched};
ghost use Rattle.mc_node.specs.Jobs.{hand_over, has_processed, note_if, shop_answer};
ghost use Rattle.mc_node.specs.Serves.{BackAt, BackWants, HandsAt, NextAt};
ghost use Rattle.mc_node.specs.Pieces.{AfterNone, NextsAt};
ghost use Rattle.mc_node.specs.Works.{IsUnder};

use super::Stored;
use super::entries::note;
use crate::note::Note;
use mc_drain::{DrainEnd, begin_job, deliver_job, give_job_back};
use mc_fetch::{Delivered, Found, Job, Naming};
use mc_keep::Keeper;
use mc_model::kept_is_durable;
use mc_worker::{Handover, ShopError};
use std::alloc::Global;
use std::sync::Wait;

impl<K: Keeper, J: Naming> Stored<K, J> {
    // A job begins, where fewer than `limit` blocks are processed. Where none waits, what was pushed is taken in first, and
    // its links may wait then.
    pub(crate) fn next_job<W: Wait>(
        &mut self,
        alloc: Global,
        limit: u64,
        wait: &W,
    ) -> Result<Option<Job>, ShopError>
        requires sealed { is_sealed_log self.old.log.items ≡ true }
        requires limit { IsUnder J.most limit }
        ensures extends { Begins self.old.log.items self.new.log.items }
        ensures job { IfOk result (NextFits J.found J.kept) }
        ensures does { NextsAt limit result (items K.Keeper self.old.log.items)
            (shown_of K.Keeper self.old.replica.value) (items K.Keeper self.new.log.items)
            (shown_of K.Keeper self.new.replica.value) }
    {
        match self.first_job(alloc, limit) {
            Ok(Some(job)) => Ok(Some(job)),
            Ok(None) => self.job_of_pushed(alloc, limit, wait),
            Err(error) => Err(error),
        }
    }

    // What was pushed is taken in, and then a job begins.
    fn job_of_pushed<W: Wait>(
        &mut self,
        alloc: Global,
        limit: u64,
        wait: &W,
    ) -> Result<Option<Job>, ShopError>
        requires sealed { is_sealed_log self.old.log.items ≡ true }
        requires limit { IsUnder J.most limit }
        ensures extends { Begins self.old.log.items self.new.log.items }
        ensures job { IfOk result (NextFits J.found J.kept) }
        ensures does { AfterNone limit result (items K.Keeper self.old.log.items)
            (shown_of K.Keeper self.old.replica.value) (items K.Keeper self.new.log.items)
            (shown_of K.Keeper self.new.replica.value) }
    {
        match self.gather(alloc, limit, wait) {
            Ok(_) => self.first_job(alloc, limit),
            Err(error) => Err(error),
        }
    }

    // A job begins for the first block that waits, where fewer than `limit` blocks are processed.
    pub(crate) fn first_job(&mut self, alloc: Global, limit: u64) -> Result<Option<Job>, ShopError>
        requires sealed { is_sealed_log self.old.log.items ≡ true }
        ensures extends { Begins self.old.log.items self.new.log.items }
        ensures job { IfOk result (NextFits J.found J.kept) }
        ensures does { NextAt limit result (items K.Keeper self.old.log.items)
            (shown_of K.Keeper self.old.replica.value) (items K.Keeper self.new.log.items)
            (shown_of K.Keeper self.new.replica.value) }
    {
        kept_is_durable();
        if self.is_stopped() {
            return Err(ShopError::Stopped);
        }
        let length = match self.begin() {
            Ok(length) => length,
            Err(_) => return Err(ShopError::Memory),
        };
        if length >= limit {
            return Err(ShopError::Spent);
        }
        self.replica.is_sound();
        let result = begin_job(alloc, &mut self.replica);
        let entry = halted(&result);
        note(&mut self.log, &self.replica, entry);
        answered(result)
    }

    // What was found for a job is delivered, where fewer than `limit` blocks are processed. Else the job is given back.
    pub(crate) fn deliver(
        &mut self,
        alloc: Global,
        limit: u64,
        job: Job,
        found: Found,
    ) -> Result<Handover, ShopError>
        requires sealed { is_sealed_log self.old.log.items ≡ true }
        requires limit { IsUnder J.most limit }
        requires fits { FoundFits J.found job.cid found }
        ensures extends { Begins self.old.log.items self.new.log.items }
        ensures does { HandsAt limit job.cid found result (items K.Keeper self.old.log.items)
            (shown_of K.Keeper self.old.replica.value) (items K.Keeper self.new.log.items)
            (shown_of K.Keeper self.new.replica.value) }
        ensures commits { IfCommitted result (AddsFetched is_of_fetched self.old.log.items self.new.log.items) }
        ensures queued { IfQueued result (λ word. ⊥) }
        ensures blocks { IfCommitted result (λ count. IsBlock job.cid (found_in found)) }
    {
        kept_is_durable();
        if self.is_stopped() {
            return Err(ShopError::Stopped);
        }
        let processed = match self.begin() {
            Ok(processed) => processed,
            Err(_) => {
                self.give_back(job);
                return Err(ShopError::Memory);
            }
        };
        if processed >= limit {
            self.give_back(job);
            return Err(ShopError::Spent);
        }
        self.replica.is_sound();
        let result = deliver_job(alloc, &mut self.replica, job, found);
        let entry = fetched(&result);
        note(&mut self.log, &self.replica, entry);
        handed(answered(result))
    }

    // A job for whose block memory was wanted is given back, with the answer of a delivery.
    pub(crate) fn deliver_short(&mut self, limit: u64, job: Job) -> ShopError
        requires sealed { is_sealed_log self.old.log.items ≡ true }
        ensures extends { Begins self.old.log.items self.new.log.items }
        ensures does { (found : FoundOf) → HandsAt limit job.cid found (Err result) (items K.Keeper self.old.log.items)
            (shown_of K.Keeper self.old.replica.value) (items K.Keeper self.new.log.items)
            (shown_of K.Keeper self.new.replica.value) }
    {
        if self.is_stopped() {
            return ShopError::Stopped;
        }
        let Ok(processed) = self.begin() else {
            self.give_back(job);
            return ShopError::Memory;
        };
        self.give_back(job);
        if limit <= processed {
            return ShopError::Spent;
        }
        ShopError::Memory
    }

    // A job is given back. One of a replica that has stopped is gone with all that was wanted.
    pub(crate) fn give_back(&mut self, job: Job)
        requires sealed { is_sealed_log self.old.log.items ≡ true }
        ensures log { self.new.log.items ≡ self.old.log.items }
        ensures extends { Begins self.old.log.items self.new.log.items }
        ensures goes { HappensTo K.Keeper (back_events job.cid) self.old.replica.value self.new.replica.value }
        ensures keeps { Continues K.Keeper false self.old.replica.value self.new.replica.value }
        ensures rest { RestSame self.old.replica.value self.new.replica.value }
        ensures wants { BackWants job.cid self.old.replica.value.stopped (shown self.old.replica.value.queue)
            (shown self.new.replica.value.queue) }
        ensures does { BackAt job.cid (items K.Keeper self.old.log.items) (shown_of K.Keeper self.old.replica.value)
            (items K.Keeper self.new.log.items) (shown_of K.Keeper self.new.replica.value) }
        ensures relay { self.new.taker ≡ self.old.taker }
    {
        kept_is_durable();
        if self.is_stopped() {
            return;
        }
        self.replica.is_sound();
        give_job_back(&mut self.replica, job);
    }

    // Whether the keeper has failed.
    pub(crate) fn is_stopped(&self) -> bool
        ensures { result ≡ self.now.replica.value.stopped }
    {
        match self.replica.report() {
            Ok(_) => false,
            Err(_) => true,
        }
    }
}

// The entry that a delivery leaves: that of a halt for a fault, and that of a fetched block for one that was processed.
fn fetched(answer: &Result<Delivered, DrainEnd>) -> Option<Note>
    ensures { result ≡ note_if (begin_failed answer.now) (has_processed answer.now) }
{
    match answer {
        Ok(Delivered::Processed { position: _ }) => Some(Note::Fetched),
        Ok(_) => None,
        Err(_) => halted(answer),
    }
}

// What is handed over: a block that was processed is a commit of one.
fn handed(answer: Result<Delivered, ShopError>) -> Result<Handover, ShopError>
    ensures { result ≡ hand_over answer }
{
    match answer {
        Ok(Delivered::Processed { position: _ }) => Ok(Handover::Committed { processed: 1 }),
        Ok(delivered) => Ok(Handover::Delivered(delivered)),
        Err(error) => Err(error),
    }
}

// The entry that another answer leaves: that of a halt for a fault, and else none.
pub(crate) fn halted<T>(answer: &Result<T, DrainEnd>) -> Option<Note>
    ensures { result ≡ note_if (begin_failed answer.now) false }
{
    match answer {
        Ok(_) => None,
        Err(DrainEnd::KeeperFault) => Some(Note::Halted),
        Err(_) => None,
    }
}

// What the shop answers where the replica answers this.
pub(crate) fn answered<T>(answer: Result<T, DrainEnd>) -> Result<T, ShopError>
    ensures { result ≡ shop_answer answer }
{
    match answer {
        Ok(value) => Ok(value),
        Err(DrainEnd::KeeperFault) => Err(ShopError::KeeperFault),
        Err(_) => Err(ShopError::Memory),
    }
}
