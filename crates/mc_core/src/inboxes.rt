// The inbox of a replica: verified blocks that are taken in together.
ghost use Rattle.std.specs.Prelude.{◌≡◌, ◌≤◌, ◌<◌, ◌++◌, ◌∷◌, [], false, None, take, length, IfErr, IfOk, OnErr, OnOk};
ghost use Rattle.mc_inbox.specs.Waiting.{as_stored};
ghost use Rattle.mc_group.specs.Inboxes.{CountsGroup, GroupEvents, GroupWants, InboxAfter, given_back, given_back_queue};
ghost use Rattle.mc_queue.specs.Views.{shown};
ghost use Rattle.mc_plan.specs.Calls.{Stays};
ghost use Rattle.mc_plan.specs.Reads.{read_refusal};
ghost use Rattle.mc_plan.specs.Refusals.{Is, is_fault};
ghost use Rattle.mc_core.specs.Exact.{DecidesAlone, RunSame, front_of, stop_front};
ghost use Rattle.mc_core.specs.Words.{Acts, Continues, HappensTo};

use crate::Replica;
use mc_block::Verified;
use mc_group::{Group, Grouped, give_back_all};
use mc_keep::Keeper;
use mc_model::kept_is_durable;
use mc_plan::CoreError;
use std::alloc::{AllocError, Global};

impl<K: Keeper> Replica<K> {
    /// Makes room for 64 blocks in the inbox. Nothing else changes. Refusals: `Stopped`, `Memory`.
    pub fn inbox_reserve(&mut self) -> Result<(), CoreError>
        ensures front { front_of result ≡ stop_front self.old.stopped None }
        ensures no_fault { is_fault result ≡ false }
        ensures seen { IfErr result DecidesAlone }
        ensures room { OnOk result (64 ≤ self.new.inbox.room) }
        ensures items { self.new.inbox.items ≡ self.old.inbox.items }
        ensures more { self.old.inbox.room ≤ self.new.inbox.room }
        ensures keeper { self.new.keeper ≡ self.old.keeper }
        ensures queue { self.new.queue ≡ self.old.queue }
        ensures stops { self.new.stopped ≡ self.old.stopped }
        ensures rest { RunSame self.old self.new }
    {
        if self.stopped {
            return Err(CoreError::Stopped);
        }
        match self.inbox.reserve() {
            Ok(()) => Ok(()),
            Err(AllocError) => Err(CoreError::Memory),
        }
    }

    /// Adds a block at the back of the inbox. It comes back exactly where the inbox holds 64. It wants room for 64, which
    /// `inbox_reserve` makes once and for all, and takes no memory.
    pub fn inbox_add(&mut self, item: Verified) -> Result<(), Verified>
        requires room { 64 ≤ self.old.inbox.room }
        ensures added { OnOk result ((length self.old.inbox.items < 64)
            × (self.new.inbox.items ≡ self.old.inbox.items ++ as_stored item ∷ [])) }
        ensures full { IfErr result (λ left. (left ≡ item) × (length self.old.inbox.items ≡ 64)
            × (self.new.inbox.items ≡ self.old.inbox.items)) }
        ensures room { self.new.inbox.room ≡ self.old.inbox.room }
        ensures keeper { self.new.keeper ≡ self.old.keeper }
        ensures queue { self.new.queue ≡ self.old.queue }
        ensures stops { self.new.stopped ≡ self.old.stopped }
        ensures rest { RunSame self.old self.new }
    {
        self.inbox.add(item)
    }

    /// The number of blocks in the inbox, at most 64.
    pub fn inbox_len(&self) -> u64
        ensures len { result ≡ length self.now.inbox.items }
        ensures few { length self.now.inbox.items ≤ 64 }
    {
        self.inbox.len()
    }

    /// Takes the first blocks of the inbox in, as many as the limit says, or all: those in flight are stored, unless they
    /// are, by one commit, and processed by one, in their order; of several with one identifier the first is taken up.
    /// Their links that are not processed are wanted, each unless it is. All memory is taken before the first commit.
    /// Refusals: `Stopped`; after `Memory` the replica and its inbox are as before.
    pub fn inbox_commit(&mut self, alloc: Global, limit: u64) -> Result<Grouped, CoreError>
        requires limit { (1 ≤ limit) × (limit ≤ 64) }
        ensures call { Acts K.Keeper (λ s. Is (read_refusal s))
            (λ s. GroupEvents s (take limit self.old.inbox.items)) Stays result self.old self.new }
        ensures keeps { Continues K.Keeper (is_fault result) self.old self.new }
        ensures front { front_of result ≡ stop_front self.old.stopped None }
        ensures seen { IfErr result DecidesAlone }
        ensures rest { RunSame self.old self.new }
        ensures counts { IfOk result (CountsGroup (shown self.old.queue) (take limit self.old.inbox.items)) }
        ensures items { InboxAfter result limit self.old.inbox.items self.new.inbox.items }
        ensures room { self.new.inbox.room ≡ self.old.inbox.room }
        ensures wants { GroupWants result (take limit self.old.inbox.items) (shown self.old.queue)
            (shown self.new.queue) }
    {
        kept_is_durable();
        if self.stopped {
            return Err(CoreError::Stopped);
        }
        match Group::with_room(alloc, limit as usize) {
            Ok(group) => self.take_in(alloc, limit, group),
            Err(AllocError) => Err(CoreError::Memory),
        }
    }

    /// Gives all blocks of the inbox up: each that is in flight comes to the back of what waits, in their order. It takes
    /// no memory and can't fail.
    pub fn inbox_give_back(&mut self)
        ensures goes { HappensTo K.Keeper (λ run. given_back run.queue self.old.inbox.items) self.old self.new }
        ensures empty { self.new.inbox.items ≡ [] }
        ensures room { self.new.inbox.room ≡ self.old.inbox.room }
        ensures keeper { self.new.keeper ≡ self.old.keeper }
        ensures stops { self.new.stopped ≡ self.old.stopped }
        ensures rest { RunSame self.old self.new }
        ensures wants { shown self.new.queue ≡ given_back_queue (shown self.old.queue) self.old.inbox.items }
    {
        give_back_all(&mut self.inbox, &mut self.queue);
    }
}
