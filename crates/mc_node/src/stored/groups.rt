// The inbox of a node's replica: it is filled from the relay, and taken in by groups.
ghost use Rattle.std.specs.Prelude.{◌≡◌, ◌≤◌, ◌<◌, ◌+◌, [], ◌∷◌, ◌++◌, false, true, is_some, length, vec_len, vec_capacity};
ghost use Rattle.std.specs.Prelude.{IfErr, IfOk, IfSome, OnOk};
ghost use Rattle.mc_turn.specs.Lists.{Begins};
ghost use Rattle.mc_core.specs.Counted.{capped};
ghost use Rattle.mc_inbox.specs.Waiting.{as_stored};
ghost use Rattle.mc_relay.specs.Items.{IsRight};
ghost use Rattle.mc_node.specs.Entries.{is_sealed_log, items, shown};
ghost use Rattle.mc_node.specs.Fillings.{CommitsGroup, HasEmptied, Moves, PopsOne, TakesGroup};
ghost use Rattle.mc_node.specs.Handovers.{AddsFetched, is_of_fetched};
ghost use Rattle.mc_node.specs.Jobs.{IsBroken};
ghost use Rattle.mc_node.specs.Moves.{BeginsNot};
ghost use Rattle.mc_node.specs.Serves.{keeper_fails};
ghost use Rattle.mc_node.specs.Works.{IsUnder};

use super::Stored;
use super::entries::{note, note_all};
use super::jobs::{answered, halted};
use mc_block::Verified;
use mc_core::CoreError;
use mc_drain::{give_up_inbox, take_in};
use mc_fetch::Naming;
use mc_group::Grouped;
use mc_keep::Keeper;
use mc_model::kept_is_durable;
use mc_worker::ShopError;
use std::alloc::Global;
use std::sync::Wait;

// The most blocks of one group, and of an inbox.
pub(crate) const GROUP: u64 = 64;

impl<K: Keeper, J: Naming> Stored<K, J> {
    // Whether workers may push.
    pub(crate) fn has_relay(&self) -> bool
        ensures { result ≡ is_some self.now.taker }
    {
        match &self.taker {
            Some(_) => true,
            None => false,
        }
    }

    // Begins a call that takes blocks in, of a replica that runs: takes the memory of the entries of a group and of that
    // of a halt, and that of the inbox. The number of processed blocks, at most `u64::MAX`, where the keeper tells.
    pub(crate) fn begin_group(&mut self) -> Result<u64, CoreError>
        ensures log { self.new.log.items ≡ self.old.log.items }
        ensures shows { shown K.Keeper self.new.replica.value ≡ shown K.Keeper self.old.replica.value }
        ensures relay { self.new.taker ≡ self.old.taker }
        ensures inbox { self.new.replica.value.inbox.items ≡ self.old.replica.value.inbox.items }
        ensures more { self.old.replica.value.inbox.room ≤ self.new.replica.value.inbox.room }
        ensures entries { OnOk result (vec_len self.new.log + 65 ≤ vec_capacity self.new.log) }
        ensures room { OnOk result (64 ≤ self.new.replica.value.inbox.room) }
        ensures runs { OnOk result (self.new.replica.value.stopped ≡ false) }
        ensures length { IfOk result (λ count. IfSome (K.told self.new.replica.value.keeper) (λ kept.
            count ≡ capped (length kept.order))) }
        ensures refused { IfErr result (λ error. BeginsNot self.old.replica.value.stopped error) }
    {
        let processed = match self.replica.report() {
            Ok(report) => report.processed,
            Err(error) => return Err(error),
        };
        match self.log.reserve(65) {
            Ok(()) => {}
            Err(_) => return Err(CoreError::Memory),
        }
        match self.reserve_inbox() {
            Ok(()) => Ok(processed),
            Err(error) => Err(error),
        }
    }

    // Makes room for 64 blocks in the inbox.
    fn reserve_inbox(&mut self) -> Result<(), CoreError>
        ensures log { self.new.log ≡ self.old.log }
        ensures shows { shown K.Keeper self.new.replica.value ≡ shown K.Keeper self.old.replica.value }
        ensures keeper { self.new.replica.value.keeper ≡ self.old.replica.value.keeper }
        ensures relay { self.new.taker ≡ self.old.taker }
        ensures inbox { self.new.replica.value.inbox.items ≡ self.old.replica.value.inbox.items }
        ensures more { self.old.replica.value.inbox.room ≤ self.new.replica.value.inbox.room }
        ensures room { OnOk result (64 ≤ self.new.replica.value.inbox.room) }
        ensures refused { IfErr result (λ error. BeginsNot self.old.replica.value.stopped error) }
    {
        self.replica.inbox_reserve()
    }

    // Moves what was pushed into the inbox, until the relay is empty or the inbox full.
    pub(crate) fn fill<W: Wait>(&mut self, wait: &W)
        requires room { 64 ≤ self.old.replica.value.inbox.room }
        ensures log { self.new.log ≡ self.old.log }
        ensures shows { shown K.Keeper self.new.replica.value ≡ shown K.Keeper self.old.replica.value }
        ensures keeper { self.new.replica.value.keeper ≡ self.old.replica.value.keeper }
        ensures room { 64 ≤ self.new.replica.value.inbox.room }
        ensures relay { is_some self.new.taker ≡ is_some self.old.taker }
        ensures moves { Moves self.old.taker self.new.taker self.old.replica.value.inbox.items []
            self.new.replica.value.inbox.items }
        ensures emptied { is_some self.old.taker ≡ true →
            HasEmptied self.old.taker self.new.taker self.new.replica.value.inbox.items }
    {
        for moved in 0..GROUP {
            if !self.move_one(wait) {
                return;
            }
        }
    }

    // Whether there is a relay, and a place for a block in the inbox.
    pub(crate) fn has_place(&self) -> bool
        ensures relay { result ≡ true → is_some self.now.taker ≡ true }
        ensures left { result ≡ true → length self.now.replica.value.inbox.items < 64 }
        ensures place { is_some self.now.taker ≡ true → length self.now.replica.value.inbox.items < 64 → result ≡ true }
    {
        self.has_relay() && self.replica.inbox_len() < GROUP
    }

    // Moves the block that was pushed first into the inbox. Whether there was one, and room for it.
    fn move_one<W: Wait>(&mut self, wait: &W) -> bool
        requires room { 64 ≤ self.old.replica.value.inbox.room }
        ensures log { self.new.log ≡ self.old.log }
        ensures shows { shown K.Keeper self.new.replica.value ≡ shown K.Keeper self.old.replica.value }
        ensures keeper { self.new.replica.value.keeper ≡ self.old.replica.value.keeper }
        ensures room { 64 ≤ self.new.replica.value.inbox.room }
        ensures relay { is_some self.new.taker ≡ is_some self.old.taker }
        ensures moves { Moves self.old.taker self.new.taker self.old.replica.value.inbox.items []
            self.new.replica.value.inbox.items }
        ensures emptied { result ≡ false → is_some self.old.taker ≡ true →
            HasEmptied self.old.taker self.new.taker self.new.replica.value.inbox.items }
        ensures longer { result ≡ true →
            length self.old.replica.value.inbox.items < length self.new.replica.value.inbox.items }
    {
        if self.replica.inbox_len() >= GROUP {
            return false;
        }
        let Some(item) = self.pop(wait) else {
            return false;
        };
        self.add(item);
        true
    }

    // The block that was pushed first, where there is one.
    pub(crate) fn pop<W: Wait>(&mut self, wait: &W) -> Option<Verified>
        ensures log { self.new.log ≡ self.old.log }
        ensures replica { self.new.replica.value ≡ self.old.replica.value }
        ensures relay { is_some self.new.taker ≡ is_some self.old.taker }
        ensures right { IfSome result (IsRight J.found) }
        ensures takes { PopsOne result self.old.taker self.new.taker }
    {
        match &mut self.taker {
            Some(taker) => taker.pop(wait),
            None => None,
        }
    }

    // Adds a block to the inbox, in which there is room.
    pub(crate) fn add(&mut self, item: Verified)
        requires room { 64 ≤ self.old.replica.value.inbox.room }
        requires left { length self.old.replica.value.inbox.items < 64 }
        requires right { IsRight J.found item }
        ensures log { self.new.log ≡ self.old.log }
        ensures shows { shown K.Keeper self.new.replica.value ≡ shown K.Keeper self.old.replica.value }
        ensures keeper { self.new.replica.value.keeper ≡ self.old.replica.value.keeper }
        ensures room { 64 ≤ self.new.replica.value.inbox.room }
        ensures relay { self.new.taker ≡ self.old.taker }
        ensures added { self.new.replica.value.inbox.items ≡ self.old.replica.value.inbox.items ++ as_stored item ∷ [] }
    {
        match self.replica.inbox_add(item) {
            Ok(()) => {}
            Err(_) => unreachable!(),
        }
    }

    // Gives the blocks of the inbox up: each that is in flight waits again. A replica that has stopped wants nothing.
    pub(crate) fn give_inbox_up(&mut self)
        requires sealed { is_sealed_log self.old.log.items ≡ true }
        ensures log { self.new.log.items ≡ self.old.log.items }
        ensures empty { self.new.replica.value.stopped ≡ false → is_some self.new.taker ≡ true →
            self.new.replica.value.inbox.items ≡ [] }
        ensures relay { self.new.taker ≡ self.old.taker }
    {
        kept_is_durable();
        if self.is_stopped() {
            return;
        }
        if !self.has_relay() {
            return;
        }
        self.replica.is_sound();
        give_up_inbox(&mut self.replica);
    }

    // Takes the first blocks of the inbox in, as many as the limit leaves, or all, and notes each that was processed. So
    // many were before, fewer than the limit, and there is room for the entries.
    pub(crate) fn take_group(
        &mut self,
        alloc: Global,
        processed: u64,
        limit: u64,
    ) -> Result<u64, ShopError>
        requires sealed { is_sealed_log self.old.log.items ≡ true }
        requires limit { IsUnder J.most limit }
        requires below { processed < limit }
        requires count { IfSome (K.told self.old.replica.value.keeper) (λ kept.
            processed ≡ capped (length kept.order)) }
        requires runs { self.old.replica.value.stopped ≡ false }
        requires entries { vec_len self.old.log + 65 ≤ vec_capacity self.old.log }
        requires relay { is_some self.old.taker ≡ true }
        ensures extends { Begins self.old.log.items self.new.log.items }
        ensures does { TakesGroup limit processed result self.old.replica.value.inbox.items
            self.new.replica.value.inbox.items (items K.Keeper self.old.log.items)
            (shown K.Keeper self.old.replica.value) (items K.Keeper self.new.log.items)
            (shown K.Keeper self.new.replica.value) }
        ensures commits { IfOk result (AddsFetched is_of_fetched self.old.log.items self.new.log.items) }
        ensures few { IfOk result (λ count. count ≤ 64) }
        ensures left { OnOk result (length self.new.replica.value.inbox.items < 64) }
        ensures room { self.new.replica.value.inbox.room ≡ self.old.replica.value.inbox.room }
        ensures error { IfErr result IsBroken }
        ensures runs { OnOk result (self.new.replica.value.stopped ≡ false) }
        ensures relay { self.new.taker ≡ self.old.taker }
        ensures more { IfErr result (λ error. keeper_fails result ≡ false → self.new.replica.value.stopped ≡ false) }
    {
        match self.commit_group(alloc, processed, limit) {
            Ok(grouped) => {
                note_all(&mut self.log, &self.replica, grouped.processed);
                Ok(grouped.processed)
            }
            Err(error) => Err(error),
        }
    }

    // The same, with an entry for a halt alone.
    fn commit_group(
        &mut self,
        alloc: Global,
        processed: u64,
        limit: u64,
    ) -> Result<Grouped, ShopError>
        requires sealed { is_sealed_log self.old.log.items ≡ true }
        requires limit { IsUnder J.most limit }
        requires below { processed < limit }
        requires count { IfSome (K.told self.old.replica.value.keeper) (λ kept.
            processed ≡ capped (length kept.order)) }
        requires runs { self.old.replica.value.stopped ≡ false }
        requires entries { vec_len self.old.log + 65 ≤ vec_capacity self.old.log }
        requires relay { is_some self.old.taker ≡ true }
        ensures extends { Begins self.old.log.items self.new.log.items }
        ensures does { CommitsGroup limit processed result self.old.replica.value.inbox.items
            self.new.replica.value.inbox.items (items K.Keeper self.old.log.items)
            (shown K.Keeper self.old.replica.value) (items K.Keeper self.new.log.items)
            (shown K.Keeper self.new.replica.value) }
        ensures log { OnOk result (self.new.log.items ≡ self.old.log.items) }
        ensures entries { IfOk result (λ grouped. vec_len self.new.log + grouped.processed ≤ vec_capacity self.new.log) }
        ensures few { IfOk result (λ grouped. grouped.processed ≤ 64) }
        ensures left { OnOk result (length self.new.replica.value.inbox.items < 64) }
        ensures room { self.new.replica.value.inbox.room ≡ self.old.replica.value.inbox.room }
        ensures error { IfErr result IsBroken }
        ensures runs { keeper_fails result ≡ false → self.new.replica.value.stopped ≡ false }
        ensures relay { self.new.taker ≡ self.old.taker }
    {
        kept_is_durable();
        self.replica.is_sound();
        let _few = self.replica.inbox_len();
        let most = (limit - processed).min(GROUP);
        let result = take_in(alloc, &mut self.replica, most);
        let entry = halted(&result);
        note(&mut self.log, &self.replica, entry);
        answered(result)
    }
}
