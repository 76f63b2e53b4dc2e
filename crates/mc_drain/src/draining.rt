// The drain.
ghost use Rattle.std.specs.Prelude.{◌≡◌, ◌≢◌, ◌≤◌, [], false, None, Some, IfSome};
ghost use Rattle.mc_fetch.specs.Calls.{Asks};
ghost use Rattle.mc_fetch.specs.Offers.{found_by, surely_by};
ghost use Rattle.mc_queue.specs.Views.{shown};
ghost use Rattle.mc_core.specs.Exact.{RestSame};
ghost use Rattle.mc_core.specs.Replica.{replica_state};
ghost use Rattle.mc_core.specs.Words.{Becomes, Continues};
ghost use Rattle.mc_drain.specs.Leads.{Always, Leads, count, up_to};
ghost use Rattle.mc_drain.specs.Lost.{AreLost, IsLost, Sticks};
ghost use Rattle.mc_drain.specs.Words.{AllGood, DrainLeads, Fetched, HasRested, NothingStuck, is_keeper, is_peer};
ghost use Rattle.mc_drain.specs.Words.{NoneStuck, are_enough, keeper_failed, peer_failed};

use crate::DrainEnd;
use crate::jobs::{recall, requeue};
use crate::numbers::{processed, waiting};
use crate::sorting::sort_waiting;
use crate::turns::take_turn;
use mc_core::Replica;
use mc_fetch::Fetch;
use mc_keep::Keeper;
use mc_model::{found_drains_go_on, order_and_store_grow, parts_stay_right};
use std::alloc::Global;
use std::sync::Wait;

/// Drains the wanted blocks of a replica on the caller's thread, until nothing waits or so many blocks are processed:
/// what is in flight, missing or bad is tried again, and then each block that waits is looked up and delivered. At the
/// limit all that waits is looked at once more, so that the blocks with a good offer wait and the others are missing or
/// bad; where none has one, the drain is idle. Nothing is in flight afterwards, unless the keeper failed.
pub fn drain<K: Keeper, F: Fetch, W: Wait>(
    alloc: Global,
    replica: &mut Replica<K>,
    fetch: &mut F,
    limit: u64,
    wait: &W,
) -> DrainEnd
    requires runs { replica.old.stopped ≡ false }
    ensures leads { Becomes K.Keeper (λ rose s new. DrainLeads result limit
        (Fetched (found_by (F.offers fetch.old))) s new) replica.old replica.new }
    ensures keeps { Continues K.Keeper (is_keeper result) replica.old replica.new }
    ensures rest { RestSame replica.old replica.new }
    ensures asks { Asks F.Fetch (is_peer result) fetch.old fetch.new }
    ensures flight { is_keeper result ≡ false → (shown replica.new.queue).flight ≡ [] }
    ensures lost { IfSome (replica_state K.told K.fuse replica.old) (λ s. is_keeper result ≡ false →
        AreLost (surely_by (F.leading fetch.old)) s.state.durable.graph (shown replica.new.queue)) }
    ensures idle { result ≡ DrainEnd.Idle → (shown replica.new.queue).waiting ≡ [] }
    ensures spent { result ≡ DrainEnd.Spent → (shown replica.new.queue).waiting ≢ [] }
{
    restart(replica);
    match take_turns(alloc, replica, fetch, limit, None, wait) {
        Some(end) => end,
        None => part(alloc, replica, fetch, wait),
    }
}

/// Drains the wanted blocks of a replica as `drain` does, as long as fewer of them wait than are enough for others to work
/// beside the caller. Gives the end of the drain, or none where so many blocks are processed or enough wait. Nothing is in
/// flight afterwards, unless the keeper failed.
pub fn drain_alone<K: Keeper, F: Fetch, W: Wait>(
    alloc: Global,
    replica: &mut Replica<K>,
    fetch: &mut F,
    limit: u64,
    enough: u64,
    wait: &W,
) -> Option<DrainEnd>
    requires runs { replica.old.stopped ≡ false }
    ensures leads { Becomes K.Keeper (λ rose s new. Leads (keeper_failed result) (up_to limit s)
        (Fetched (found_by (F.offers fetch.old))) s new) replica.old replica.new }
    ensures keeps { Continues K.Keeper (keeper_failed result) replica.old replica.new }
    ensures rest { RestSame replica.old replica.new }
    ensures asks { Asks F.Fetch (peer_failed result) fetch.old fetch.new }
    ensures flight { keeper_failed result ≡ false → (shown replica.new.queue).flight ≡ [] }
    ensures idle { result ≡ Some DrainEnd.Idle → (shown replica.new.queue).waiting ≡ [] }
    ensures rested { IfSome (replica_state K.told K.fuse replica.new) (λ s. result ≡ None →
        HasRested limit (Some enough) s (shown replica.new.queue)) }
    ensures unspent { result ≢ Some DrainEnd.Spent }
{
    restart(replica);
    take_turns(alloc, replica, fetch, limit, Some(enough), wait)
}

// What is in flight, missing or bad waits again.
fn restart<K: Keeper>(replica: &mut Replica<K>)
    requires runs { replica.old.stopped ≡ false }
    ensures leads { Becomes K.Keeper (λ rose s new. Leads false (count s) Always s new) replica.old replica.new }
    ensures keeps { Continues K.Keeper false replica.old replica.new }
    ensures rest { RestSame replica.old replica.new }
    ensures flight { (shown replica.new.queue).flight ≡ [] }
    ensures freed { NoneStuck (shown replica.new.queue) }
    ensures fresh { IfSome (replica_state K.told K.fuse replica.new) NothingStuck }
{
    recall(replica);
    requeue(replica);
}

// Turns until the drain is at its end, or none where the limit is reached or enough blocks wait.
fn take_turns<K: Keeper, F: Fetch, W: Wait>(
    alloc: Global,
    replica: &mut Replica<K>,
    fetch: &mut F,
    limit: u64,
    enough: Option<u64>,
    wait: &W,
) -> Option<DrainEnd>
    requires runs { replica.old.stopped ≡ false }
    requires flight { (shown replica.old.queue).flight ≡ [] }
    ensures leads { Becomes K.Keeper (λ rose s new. Leads (keeper_failed result) (up_to limit s)
        (Fetched (found_by (F.offers fetch.old))) s new) replica.old replica.new }
    ensures keeps { Continues K.Keeper (keeper_failed result) replica.old replica.new }
    ensures rest { RestSame replica.old replica.new }
    ensures asks { Asks F.Fetch (peer_failed result) fetch.old fetch.new }
    ensures flight { keeper_failed result ≡ false → (shown replica.new.queue).flight ≡ [] }
    ensures idle { result ≡ Some DrainEnd.Idle → (shown replica.new.queue).waiting ≡ [] }
    ensures sticks { IfSome (replica_state K.told K.fuse replica.old) (λ s. keeper_failed result ≡ false →
        Sticks (IsLost (surely_by (F.leading fetch.old)) s.state.durable.graph) (shown replica.old.queue)
        (shown replica.new.queue)) }
    ensures rested { IfSome (replica_state K.told K.fuse replica.new) (λ s. result ≡ None →
        HasRested limit enough s (shown replica.new.queue)) }
    ensures unspent { result ≢ Some DrainEnd.Spent }
{
    found_drains_go_on();
    order_and_store_grow();
    parts_stay_right();
    for _ in wait.forever() {
        if processed(replica) >= limit {
            return None;
        }
        if are_enough(replica, enough) {
            return None;
        }
        if let Some(end) = take_turn(alloc, replica, fetch, wait) {
            return Some(end);
        }
    }
    unreachable!()
}

// Whether so many blocks wait as are enough.
fn are_enough<K: Keeper>(replica: &Replica<K>, enough: Option<u64>) -> bool
    requires runs { replica.now.stopped ≡ false }
    ensures { result ≡ are_enough enough (shown replica.now.queue).waiting }
{
    match enough {
        Some(enough) => enough <= waiting(replica),
        None => false,
    }
}

// What waits at the limit is parted: where no block with a good offer is left, the drain is idle.
fn part<K: Keeper, F: Fetch, W: Wait>(
    alloc: Global,
    replica: &mut Replica<K>,
    fetch: &mut F,
    wait: &W,
) -> DrainEnd
    requires runs { replica.old.stopped ≡ false }
    requires flight { (shown replica.old.queue).flight ≡ [] }
    ensures leads { Becomes K.Keeper (λ rose s new. Leads (is_keeper result) (count s)
        (Fetched (found_by (F.offers fetch.old))) s new) replica.old replica.new }
    ensures keeps { Continues K.Keeper (is_keeper result) replica.old replica.new }
    ensures rest { RestSame replica.old replica.new }
    ensures asks { Asks F.Fetch (is_peer result) fetch.old fetch.new }
    ensures flight { is_keeper result ≡ false → (shown replica.new.queue).flight ≡ [] }
    ensures idle { result ≡ DrainEnd.Idle → (shown replica.new.queue).waiting ≡ [] }
    ensures spent { result ≡ DrainEnd.Spent → (shown replica.new.queue).waiting ≢ [] }
    ensures sticks { IfSome (replica_state K.told K.fuse replica.old) (λ s. is_keeper result ≡ false →
        Sticks (IsLost (surely_by (F.leading fetch.old)) s.state.durable.graph) (shown replica.old.queue)
        (shown replica.new.queue)) }
    ensures good { IfSome (replica_state K.told K.fuse replica.old) (λ s. result ≡ DrainEnd.Spent →
        AllGood (Fetched (found_by (F.offers fetch.old))) s (shown replica.new.queue).waiting) }
{
    if let Some(end) = sort_waiting(alloc, replica, fetch, wait) {
        return end;
    }
    if waiting(replica) == 0 {
        return DrainEnd::Idle;
    }
    DrainEnd::Spent
}
