// What workers pushed is taken in.
ghost use Rattle.std.specs.Prelude.{◌≡◌, ◌≤◌, ◌<◌, ◌+◌, ℕ, false, true, [], ◌∷◌, ◌++◌, is_some, length, vec_len, vec_capacity};
ghost use Rattle.std.specs.Prelude.{IfErr, IfOk};
ghost use Rattle.std.specs.Prelude.{IfSome, OnOk};
ghost use Rattle.mc_turn.specs.Lists.{Begins};
ghost use Rattle.mc_core.specs.Counted.{capped};
ghost use Rattle.mc_inbox.specs.Waiting.{as_stored};
ghost use Rattle.mc_relay.specs.Items.{IsRight};
ghost use Rattle.mc_node.specs.Entries.{is_sealed_log, items, shown};
ghost use Rattle.mc_node.specs.Fillings.{GathersIn, HasTaken, TakesRound, empties};
ghost use Rattle.mc_node.specs.Handovers.{AddsFetched, is_of_fetched};
ghost use Rattle.mc_node.specs.Jobs.{IsBroken};
ghost use Rattle.mc_node.specs.Pieces.{RunsOn, TakesAt};
ghost use Rattle.mc_node.specs.Works.{IsUnder};

use super::Stored;
use mc_base::Cid;
use mc_block::Verified;
use mc_fetch::{Job, Naming};
use mc_keep::Keeper;
use mc_worker::ShopError;
use std::alloc::Global;
use std::sync::Wait;

impl<K: Keeper, J: Naming> Stored<K, J> {
    // Takes in what was pushed: moves it into the inbox, until the relay is empty or the inbox full, and commits the first
    // blocks of the inbox, as many as the limit leaves, or all. Without a relay there is nothing.
    pub(crate) fn gather<W: Wait>(
        &mut self,
        alloc: Global,
        limit: u64,
        wait: &W,
    ) -> Result<u64, ShopError>
        requires sealed { is_sealed_log self.old.log.items ≡ true }
        requires limit { IsUnder J.most limit }
        ensures extends { Begins self.old.log.items self.new.log.items }
        ensures does { GathersIn limit result self.old.taker self.new.taker self.old.replica.value.inbox.items
            self.new.replica.value.inbox.items (items K.Keeper self.old.log.items)
            (shown K.Keeper self.old.replica.value) (items K.Keeper self.new.log.items)
            (shown K.Keeper self.new.replica.value) }
        ensures commits { IfOk result (AddsFetched is_of_fetched self.old.log.items self.new.log.items) }
        ensures room { OnOk result (64 ≤ self.new.replica.value.inbox.room) }
        ensures left { OnOk result (is_some self.new.taker ≡ true → length self.new.replica.value.inbox.items < 64) }
        ensures runs { OnOk result (self.new.replica.value.stopped ≡ false) }
        ensures noted { empties self.old.taker ≤ empties self.new.taker }
        ensures relay { is_some self.new.taker ≡ is_some self.old.taker }
        ensures few { IfOk result (λ count. count ≤ 64) }
    {
        if self.is_stopped() {
            return Err(ShopError::Stopped);
        }
        let processed = match self.begin_group() {
            Ok(processed) => processed,
            Err(_) => return Err(ShopError::Memory),
        };
        if processed >= limit {
            return Err(ShopError::Spent);
        }
        if !self.has_relay() {
            return Ok(0);
        }
        self.take_round(alloc, processed, limit, wait)
    }

    // What was pushed is moved into the inbox, and a group is taken in.
    fn take_round<W: Wait>(
        &mut self,
        alloc: Global,
        processed: u64,
        limit: u64,
        wait: &W,
    ) -> Result<u64, ShopError>
        requires sealed { is_sealed_log self.old.log.items ≡ true }
        requires limit { IsUnder J.most limit }
        requires below { processed < limit }
        requires count { IfSome (K.told self.old.replica.value.keeper) (λ kept.
            processed ≡ capped (length kept.order)) }
        requires runs { self.old.replica.value.stopped ≡ false }
        requires entries { vec_len self.old.log + 65 ≤ vec_capacity self.old.log }
        requires room { 64 ≤ self.old.replica.value.inbox.room }
        requires relay { is_some self.old.taker ≡ true }
        ensures extends { Begins self.old.log.items self.new.log.items }
        ensures does { TakesRound limit processed result self.old.taker self.new.taker
            self.old.replica.value.inbox.items self.new.replica.value.inbox.items (items K.Keeper self.old.log.items)
            (shown K.Keeper self.old.replica.value) (items K.Keeper self.new.log.items)
            (shown K.Keeper self.new.replica.value) }
        ensures commits { IfOk result (AddsFetched is_of_fetched self.old.log.items self.new.log.items) }
        ensures noted { empties self.old.taker ≤ empties self.new.taker }
        ensures few { IfOk result (λ count. count ≤ 64) }
        ensures left { OnOk result (length self.new.replica.value.inbox.items < 64) }
        ensures room { 64 ≤ self.new.replica.value.inbox.room }
        ensures error { IfErr result IsBroken }
        ensures runs { OnOk result (self.new.replica.value.stopped ≡ false) }
        ensures relay { is_some self.new.taker ≡ true }
    {
        self.fill(wait);
        self.take_group(alloc, processed, limit)
    }

    // The same for a delivery of a block: where it is spent, or wants memory, the block waits again if it is in flight.
    pub(crate) fn take_pushed<W: Wait>(
        &mut self,
        alloc: Global,
        limit: u64,
        cid: Cid,
        wait: &W,
    ) -> Result<u64, ShopError>
        requires sealed { is_sealed_log self.old.log.items ≡ true }
        requires limit { IsUnder J.most limit }
        ensures extends { Begins self.old.log.items self.new.log.items }
        ensures does { TakesAt limit cid result (items K.Keeper self.old.log.items)
            (shown K.Keeper self.old.replica.value) (items K.Keeper self.new.log.items)
            (shown K.Keeper self.new.replica.value) }
        ensures commits { IfOk result (AddsFetched is_of_fetched self.old.log.items self.new.log.items) }
        ensures room { OnOk result (64 ≤ self.new.replica.value.inbox.room) }
        ensures left { OnOk result (is_some self.new.taker ≡ true → length self.new.replica.value.inbox.items < 64) }
        ensures runs { OnOk result (self.new.replica.value.stopped ≡ false) }
        ensures took { OnOk result (HasTaken limit (shown K.Keeper self.old.replica.value).told self.old.taker
            self.new.taker self.old.replica.value.inbox.items self.new.replica.value.inbox.items) }
        ensures few { IfOk result (λ count. count ≤ 64) }
    {
        match self.gather(alloc, limit, wait) {
            Ok(count) => Ok(count),
            Err(ShopError::Stopped) => Err(ShopError::Stopped),
            Err(ShopError::KeeperFault) => Err(ShopError::KeeperFault),
            Err(ShopError::Spent) => {
                self.give_back(Job { cid, own: None });
                Err(ShopError::Spent)
            }
            Err(ShopError::Memory) => {
                self.give_back(Job { cid, own: None });
                Err(ShopError::Memory)
            }
        }
    }

    // The same with this block, which comes into the inbox. It is the first of the one group where there is a place for it;
    // else what waits there comes in first, and then the block. Without a relay it waits again.
    pub(crate) fn take_with<W: Wait>(
        &mut self,
        alloc: Global,
        limit: u64,
        item: Verified,
        wait: &W,
    ) -> Result<u64, ShopError>
        requires sealed { is_sealed_log self.old.log.items ≡ true }
        requires limit { IsUnder J.most limit }
        requires right { IsRight J.found item }
        ensures extends { Begins self.old.log.items self.new.log.items }
        ensures does { TakesAt limit item.cid result (items K.Keeper self.old.log.items)
            (shown K.Keeper self.old.replica.value) (items K.Keeper self.new.log.items)
            (shown K.Keeper self.new.replica.value) }
        ensures commits { IfOk result (AddsFetched is_of_fetched self.old.log.items self.new.log.items) }
        ensures joined { is_some self.old.taker ≡ true → length self.old.replica.value.inbox.items < 64 → OnOk result
            (HasTaken limit (shown K.Keeper self.old.replica.value).told self.old.taker self.new.taker
            (self.old.replica.value.inbox.items ++ as_stored item ∷ []) self.new.replica.value.inbox.items) }
    {
        if self.has_place() {
            return self.take_joined(alloc, limit, item, wait);
        }
        match self.take_pushed(alloc, limit, item.cid, wait) {
            Ok(first) => self.take_own(alloc, limit, first, item, wait),
            Err(error) => Err(error),
        }
    }

    // A block comes into the inbox, and is taken in with what was pushed, by one group.
    fn take_joined<W: Wait>(
        &mut self,
        alloc: Global,
        limit: u64,
        item: Verified,
        wait: &W,
    ) -> Result<u64, ShopError>
        requires sealed { is_sealed_log self.old.log.items ≡ true }
        requires limit { IsUnder J.most limit }
        requires right { IsRight J.found item }
        requires relay { is_some self.old.taker ≡ true }
        requires left { length self.old.replica.value.inbox.items < 64 }
        ensures extends { Begins self.old.log.items self.new.log.items }
        ensures does { TakesAt limit item.cid result (items K.Keeper self.old.log.items)
            (shown K.Keeper self.old.replica.value) (items K.Keeper self.new.log.items)
            (shown K.Keeper self.new.replica.value) }
        ensures commits { IfOk result (AddsFetched is_of_fetched self.old.log.items self.new.log.items) }
        ensures took { OnOk result (HasTaken limit (shown K.Keeper self.old.replica.value).told self.old.taker
            self.new.taker (self.old.replica.value.inbox.items ++ as_stored item ∷ [])
            self.new.replica.value.inbox.items) }
    {
        let cid = item.cid;
        if self.is_stopped() {
            return Err(ShopError::Stopped);
        }
        let processed = match self.begin_group() {
            Ok(processed) => processed,
            Err(_) => {
                self.give_back(Job { cid, own: None });
                return Err(ShopError::Memory);
            }
        };
        if processed >= limit {
            self.give_back(Job { cid, own: None });
            return Err(ShopError::Spent);
        }
        self.add(item);
        match self.take_round(alloc, processed, limit, wait) {
            Ok(count) => Ok(count),
            Err(ShopError::KeeperFault) => Err(ShopError::KeeperFault),
            Err(_) => {
                self.give_back(Job { cid, own: None });
                Err(ShopError::Memory)
            }
        }
    }

    // What is left once all workers have ended: it is taken in, as far as the limit goes, and what is left then is given up
    // and waits again. Inbox and relay hold at most 64 each, so two groups are all.
    pub(crate) fn settle<W: Wait>(&mut self, alloc: Global, limit: u64, wait: &W)
        requires sealed { is_sealed_log self.old.log.items ≡ true }
        requires limit { IsUnder J.most limit }
        ensures extends { Begins self.old.log.items self.new.log.items }
        ensures empty { self.new.replica.value.stopped ≡ false → is_some self.new.taker ≡ true →
            self.new.replica.value.inbox.items ≡ [] }
        ensures emptied { is_some self.old.taker ≡ true → empties self.old.taker < empties self.new.taker }
    {
        let _first = self.gather(alloc, limit, wait);
        let _second = self.gather(alloc, limit, wait);
        self.give_relay_up(wait);
        self.give_inbox_up();
    }

    // Gives up what is left in the relay, into which nobody pushes any more, until it is found empty: each block that is in
    // flight waits again.
    fn give_relay_up<W: Wait>(&mut self, wait: &W)
        requires sealed { is_sealed_log self.old.log.items ≡ true }
        ensures log { self.new.log.items ≡ self.old.log.items }
        ensures emptied { is_some self.old.taker ≡ true → empties self.old.taker < empties self.new.taker }
        ensures noted { empties self.old.taker ≤ empties self.new.taker }
    {
        for _ in wait.forever() {
            let Some(item) = self.pop(wait) else {
                return;
            };
            self.give_back(Job {
                cid: item.cid,
                own: None,
            });
        }
    }

    // A block is added to the inbox, after so many were processed in this call, and the inbox is taken in once more.
    fn take_own<W: Wait>(
        &mut self,
        alloc: Global,
        limit: u64,
        first: u64,
        item: Verified,
        wait: &W,
    ) -> Result<u64, ShopError>
        requires sealed { is_sealed_log self.old.log.items ≡ true }
        requires limit { IsUnder J.most limit }
        requires right { IsRight J.found item }
        requires room { 64 ≤ self.old.replica.value.inbox.room }
        requires left { is_some self.old.taker ≡ true → length self.old.replica.value.inbox.items < 64 }
        requires runs { self.old.replica.value.stopped ≡ false }
        requires few { first ≤ 64 }
        ensures extends { Begins self.old.log.items self.new.log.items }
        ensures does { RunsOn limit first item.cid result (items K.Keeper self.old.log.items)
            (shown K.Keeper self.old.replica.value) (items K.Keeper self.new.log.items)
            (shown K.Keeper self.new.replica.value) }
        ensures commits { IfOk result (λ count. (added : ℕ) × (count ≡ first + added)
            × AddsFetched is_of_fetched self.old.log.items self.new.log.items added) }
    {
        if self.has_relay() {
            return self.take_added(alloc, limit, first, item, wait);
        }
        self.give_back(Job {
            cid: item.cid,
            own: None,
        });
        Ok(first)
    }

    // The same with a relay: what was pushed meanwhile comes in with the block.
    fn take_added<W: Wait>(
        &mut self,
        alloc: Global,
        limit: u64,
        first: u64,
        item: Verified,
        wait: &W,
    ) -> Result<u64, ShopError>
        requires sealed { is_sealed_log self.old.log.items ≡ true }
        requires limit { IsUnder J.most limit }
        requires right { IsRight J.found item }
        requires room { 64 ≤ self.old.replica.value.inbox.room }
        requires left { length self.old.replica.value.inbox.items < 64 }
        requires relay { is_some self.old.taker ≡ true }
        requires runs { self.old.replica.value.stopped ≡ false }
        requires few { first ≤ 64 }
        ensures extends { Begins self.old.log.items self.new.log.items }
        ensures does { RunsOn limit first item.cid result (items K.Keeper self.old.log.items)
            (shown K.Keeper self.old.replica.value) (items K.Keeper self.new.log.items)
            (shown K.Keeper self.new.replica.value) }
        ensures commits { IfOk result (λ count. (added : ℕ) × (count ≡ first + added)
            × AddsFetched is_of_fetched self.old.log.items self.new.log.items added) }
    {
        let cid = item.cid;
        self.add(item);
        let processed = match self.begin_group() {
            Ok(processed) => processed,
            Err(_) => {
                self.give_back(Job { cid, own: None });
                return Err(ShopError::Memory);
            }
        };
        if processed >= limit {
            return Ok(first);
        }
        match self.take_round(alloc, processed, limit, wait) {
            Ok(count) => Ok(first + count),
            Err(ShopError::KeeperFault) => Err(ShopError::KeeperFault),
            Err(_) => {
                self.give_back(Job { cid, own: None });
                Err(ShopError::Memory)
            }
        }
    }
}
