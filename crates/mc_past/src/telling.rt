// Which values changed at which positions.
ghost use Rattle.std.specs.Prelude.{◌≡◌, ◌≤◌, false, None, IfErr};
ghost use Rattle.mc_keep.specs.Causes.{IfTold};
ghost use Rattle.mc_model.specs.Kept.{processed};
ghost use Rattle.mc_core.specs.Exact.{DecidesAlone, IfRefused, RestSame, front_of, stop_front};
ghost use Rattle.mc_core.specs.Refusals.{is_fault};
ghost use Rattle.mc_core.specs.Words.{Answers, Continues, TellsSame};
ghost use Rattle.mc_past.specs.Looks.{Looks};
ghost use Rattle.mc_past.specs.Past.{changes_between};
ghost use Rattle.mc_past.specs.Pasts.{IsPast, PastFits};
ghost use Rattle.mc_past.specs.Tellings.{Reaches, Takes, Tells};

use crate::past::Past;
use crate::reads::{block_at, has_stopped};
use mc_base::List;
use mc_core::{CoreError, Replica};
use mc_feed::{Event, Hook, tell_block};
use mc_keep::Keeper;
use mc_live::Live;
use mc_model::kept_is_durable;
use std::alloc::{AllocError, Global};

/// The changes of values at the positions in the order of processing from `from` on, `count` of them at most: position
/// by position, and of each ascending by key. It reads the blocks from where the last such read ended, or from the
/// first one on where that is behind `from`, and keeps the values in memory, in `past`. After a fault or want of memory
/// nothing is kept there. `Memory` comes also where the positions reach `u64::MAX`. Refusals: `Stopped`.
pub fn changes<K: Keeper>(
    replica: &mut Replica<K>,
    past: &mut Past,
    alloc: Global,
    from: u64,
    count: u64,
) -> Result<List<Event>, CoreError>
    requires fits { PastFits (K.told replica.old.keeper) past.old }
    ensures call { Answers K.Keeper (λ kept events.
        events ≡ changes_between from count (processed kept)) result replica.old replica.new }
    ensures keeps { Continues K.Keeper (is_fault result) replica.old replica.new }
    ensures front { front_of result ≡ stop_front replica.old.stopped None }
    ensures seen { IfErr result DecidesAlone }
    ensures rest { RestSame replica.old replica.new }
    ensures same { TellsSame K.Keeper replica.old replica.new }
    ensures fits { PastFits (K.told replica.old.keeper) past.new }
{
    kept_is_durable();
    if has_stopped(replica) {
        return Err(CoreError::Stopped);
    }
    events_between(replica, past, alloc, from, count)
}

// The events of a replica that runs.
fn events_between<K: Keeper>(
    replica: &mut Replica<K>,
    past: &mut Past,
    alloc: Global,
    from: u64,
    count: u64,
) -> Result<List<Event>, CoreError>
    requires runs { replica.old.stopped ≡ false }
    requires fits { PastFits (K.told replica.old.keeper) past.old }
    ensures events { IfTold (K.told replica.old.keeper) result (λ kept events.
        events ≡ changes_between from count (processed kept)) }
    ensures fits { PastFits (K.told replica.old.keeper) past.new }
    ensures refused { IfRefused result ⊥ }
    ensures looks { Looks K.Keeper (is_fault result) replica.old replica.new }
{
    past.go_back(alloc, from);
    match events_from(replica, past, alloc, from, count) {
        Ok(events) => Ok(events),
        Err(error) => {
            past.clear(alloc);
            Err(error)
        }
    }
}

// The events from a position on, where the values are of no more blocks than stand before it.
fn events_from<K: Keeper>(
    replica: &mut Replica<K>,
    past: &mut Past,
    alloc: Global,
    from: u64,
    count: u64,
) -> Result<List<Event>, CoreError>
    requires runs { replica.old.stopped ≡ false }
    requires fits { PastFits (K.told replica.old.keeper) past.old }
    requires before { past.old.length ≤ from }
    ensures events { IfTold (K.told replica.old.keeper) result (λ kept events.
        events ≡ changes_between from count (processed kept)) }
    ensures fits { IfTold (K.told replica.old.keeper) result (λ kept events. IsPast (processed kept) past.new) }
    ensures refused { IfRefused result ⊥ }
    ensures looks { Looks K.Keeper (is_fault result) replica.old replica.new }
{
    match take_first(replica, past, alloc, from) {
        Ok(true) => tell_next(replica, past, alloc, count),
        Ok(false) => Ok(List::new(alloc)),
        Err(error) => Err(error),
    }
}

// Takes the blocks before a position into the values, and says whether there are as many.
fn take_first<K: Keeper>(
    replica: &mut Replica<K>,
    past: &mut Past,
    alloc: Global,
    from: u64,
) -> Result<bool, CoreError>
    requires runs { replica.old.stopped ≡ false }
    requires fits { PastFits (K.told replica.old.keeper) past.old }
    requires before { past.old.length ≤ from }
    ensures reaches { IfTold (K.told replica.old.keeper) result (λ kept some.
        Reaches some from (processed kept) past.new) }
    ensures fits { IfTold (K.told replica.old.keeper) result (λ kept some. IsPast (processed kept) past.new) }
    ensures refused { IfRefused result ⊥ }
    ensures looks { Looks K.Keeper (is_fault result) replica.old replica.new }
{
    let mut position = past.length;
    while position < from {
        match take_one(replica, alloc, position, &mut past.live) {
            Ok(true) => {
                position += 1;
                past.length = position;
            }
            Ok(false) => return Ok(false),
            Err(error) => return Err(error),
        }
    }
    Ok(true)
}

// Takes the block at a position, and says whether there is one.
fn take_one<K: Keeper>(
    replica: &mut Replica<K>,
    alloc: Global,
    position: u64,
    live: &mut Live,
) -> Result<bool, CoreError>
    requires runs { replica.old.stopped ≡ false }
    ensures takes { IfTold (K.told replica.old.keeper) result (λ kept some.
        Takes some position (processed kept) live.old live.new) }
    ensures refused { IfRefused result ⊥ }
    ensures looks { Looks K.Keeper (is_fault result) replica.old replica.new }
{
    match block_at(replica, alloc, position) {
        Ok(Some(block)) => match live.take(alloc, &block) {
            Ok(()) => Ok(true),
            Err(AllocError) => Err(CoreError::Memory),
        },
        Ok(None) => Ok(false),
        Err(error) => Err(error),
    }
}

// Tells the events of so many blocks behind those that the values are of.
fn tell_next<K: Keeper>(
    replica: &mut Replica<K>,
    past: &mut Past,
    alloc: Global,
    count: u64,
) -> Result<List<Event>, CoreError>
    requires runs { replica.old.stopped ≡ false }
    requires fits { PastFits (K.told replica.old.keeper) past.old }
    ensures events { IfTold (K.told replica.old.keeper) result (λ kept events.
        events ≡ changes_between past.old.length count (processed kept)) }
    ensures fits { IfTold (K.told replica.old.keeper) result (λ kept events. IsPast (processed kept) past.new) }
    ensures refused { IfRefused result ⊥ }
    ensures looks { Looks K.Keeper (is_fault result) replica.old replica.new }
{
    let events = List::new(alloc);
    let mut taken = Taken { events };
    let mut number = 0;
    while number < count {
        let Some(next) = past.length.checked_add(1) else {
            return Err(CoreError::Memory);
        };
        match tell_one(replica, alloc, past.length, &mut past.live, &mut taken) {
            Ok(true) => {
                number += 1;
                past.length = next;
            }
            Ok(false) => return Ok(taken.events),
            Err(error) => return Err(error),
        }
    }
    Ok(taken.events)
}

// Tells the events of the block at a position, and says whether there is one.
fn tell_one<K: Keeper>(
    replica: &mut Replica<K>,
    alloc: Global,
    position: u64,
    live: &mut Live,
    taken: &mut Taken,
) -> Result<bool, CoreError>
    requires runs { replica.old.stopped ≡ false }
    ensures tells { IfTold (K.told replica.old.keeper) result (λ kept some.
        Tells some position (processed kept) live.old live.new taken.old.events taken.new.events) }
    ensures refused { IfRefused result ⊥ }
    ensures looks { Looks K.Keeper (is_fault result) replica.old replica.new }
{
    match block_at(replica, alloc, position) {
        Ok(Some(block)) => match tell_block(alloc, taken, live, position, &block) {
            Ok(()) => Ok(true),
            Err(AllocError) => Err(CoreError::Memory),
        },
        Ok(None) => Ok(false),
        Err(error) => Err(error),
    }
}

// A hook that keeps what it is told.
#[derive(Drop)]
pub(crate) struct Taken {
    pub(crate) events: List<Event>,
}

impl Hook for Taken {
    ghost taken = { λ hook. hook.events };

    fn told(&mut self, event: Event) -> Result<(), AllocError> {
        match self.events.push(event) {
            Ok(()) => Ok(()),
            Err(_refused) => Err(AllocError),
        }
    }
}
