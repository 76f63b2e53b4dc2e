// What waits at the limit is parted: blocks with a good offer go on waiting, and the others are missing or bad.
ghost use Rattle.std.specs.Prelude.{◌≡◌, ◌≢◌, ◌∷◌, [], false, None, Some, IfOk, IfSome};
ghost use Rattle.mc_fetch.specs.Calls.{Asks};
ghost use Rattle.mc_fetch.specs.Fits.{FoundHas};
ghost use Rattle.mc_fetch.specs.Offers.{HasDigest, found_by, surely_by};
ghost use Rattle.mc_queue.specs.Views.{shown};
ghost use Rattle.mc_core.specs.Exact.{RestSame};
ghost use Rattle.mc_core.specs.Jobs.{found_in};
ghost use Rattle.mc_core.specs.Replica.{replica_state};
ghost use Rattle.mc_core.specs.Words.{Becomes, Continues};
ghost use Rattle.mc_drain.specs.Leads.{Leads, count};
ghost use Rattle.mc_drain.specs.Lost.{IsLost, Sticks, StuckFor, StuckOf};
ghost use Rattle.mc_drain.specs.Words.{AllGood, Fetched, FetchedFor, FoundFor, IsBroken, IsGoodness, Sorts, SortsFirst};
ghost use Rattle.mc_drain.specs.Words.{keeper_failed, peer_failed};

use crate::DrainEnd;
use crate::end::end_by;
use crate::jobs::{back, begin, deliver};
use crate::numbers::waiting;
use mc_base::Cid;
use mc_block::{BlockError, read_found};
use mc_core::Replica;
use mc_fetch::{Fetch, Found, Job};
use mc_keep::Keeper;
use mc_model::{found_drains_go_on, order_and_store_grow, parts_stay_right};
use mc_worker::look_up;
use std::alloc::{AllocError, Global};
use std::sync::Wait;

// All that waits is looked at once. Nothing is processed. The drain's end, where it is at its end.
pub(crate) fn sort_waiting<K: Keeper, F: Fetch, W: Wait>(
    alloc: Global,
    replica: &mut Replica<K>,
    fetch: &mut F,
    wait: &W,
) -> Option<DrainEnd>
    requires runs { replica.old.stopped ≡ false }
    requires flight { (shown replica.old.queue).flight ≡ [] }
    ensures leads { Becomes K.Keeper (λ rose s new. Leads (keeper_failed result) (count s)
        (Fetched (found_by (F.offers fetch.old))) s new) replica.old replica.new }
    ensures keeps { Continues K.Keeper (keeper_failed result) replica.old replica.new }
    ensures rest { RestSame replica.old replica.new }
    ensures asks { Asks F.Fetch (peer_failed result) fetch.old fetch.new }
    ensures flight { keeper_failed result ≡ false → (shown replica.new.queue).flight ≡ [] }
    ensures idle { result ≡ Some DrainEnd.Idle → (shown replica.new.queue).waiting ≡ [] }
    ensures unspent { result ≢ Some DrainEnd.Spent }
    ensures sticks { IfSome (replica_state K.told K.fuse replica.old) (λ s. keeper_failed result ≡ false →
        Sticks (IsLost (surely_by (F.leading fetch.old)) s.state.durable.graph) (shown replica.old.queue)
        (shown replica.new.queue)) }
    ensures good { IfSome (replica_state K.told K.fuse replica.old) (λ s. result ≡ None →
        AllGood (Fetched (found_by (F.offers fetch.old))) s (shown replica.new.queue).waiting) }
{
    found_drains_go_on();
    order_and_store_grow();
    parts_stay_right();
    let mut left = waiting(replica);
    while left > 0 {
        if let Some(end) = sort_turn(alloc, replica, fetch, wait) {
            return Some(end);
        }
        left -= 1;
    }
    None
}

// The first block that waits is looked at.
fn sort_turn<K: Keeper, F: Fetch, W: Wait>(
    alloc: Global,
    replica: &mut Replica<K>,
    fetch: &mut F,
    wait: &W,
) -> Option<DrainEnd>
    requires runs { replica.old.stopped ≡ false }
    requires flight { (shown replica.old.queue).flight ≡ [] }
    ensures leads { Becomes K.Keeper (λ rose s new. Leads (keeper_failed result) (count s)
        (Fetched (found_by (F.offers fetch.old))) s new) replica.old replica.new }
    ensures keeps { Continues K.Keeper (keeper_failed result) replica.old replica.new }
    ensures rest { RestSame replica.old replica.new }
    ensures asks { Asks F.Fetch (peer_failed result) fetch.old fetch.new }
    ensures flight { keeper_failed result ≡ false → (shown replica.new.queue).flight ≡ [] }
    ensures idle { result ≡ Some DrainEnd.Idle → (shown replica.new.queue).waiting ≡ [] }
    ensures unspent { result ≢ Some DrainEnd.Spent }
    ensures sticks { IfSome (replica_state K.told K.fuse replica.old) (λ s. keeper_failed result ≡ false →
        Sticks (IsLost (surely_by (F.leading fetch.old)) s.state.durable.graph) (shown replica.old.queue)
        (shown replica.new.queue)) }
    ensures sorts { IfSome (replica_state K.told K.fuse replica.old) (λ s. result ≡ None →
        SortsFirst (found_by (F.offers fetch.old)) s (shown replica.old.queue).waiting
        (shown replica.new.queue).waiting) }
{
    replica.is_sound();
    match begin(alloc, replica) {
        Ok(Some(job)) => sort_job(alloc, replica, fetch, job, wait),
        Ok(None) => Some(DrainEnd::Idle),
        Err(end) => Some(end),
    }
}

// A job whose block is not processed.
fn sort_job<K: Keeper, F: Fetch, W: Wait>(
    alloc: Global,
    replica: &mut Replica<K>,
    fetch: &mut F,
    job: Job,
    wait: &W,
) -> Option<DrainEnd>
    requires runs { replica.old.stopped ≡ false }
    requires flight { (shown replica.old.queue).flight ≡ job.cid ∷ [] }
    requires own { IfSome job.own (λ bytes. HasDigest job.cid bytes) }
    ensures leads { Becomes K.Keeper (λ rose s new. Leads (keeper_failed result) (count s)
        (FetchedFor (found_by (F.offers fetch.old)) job.cid job.own) s new) replica.old replica.new }
    ensures keeps { Continues K.Keeper (keeper_failed result) replica.old replica.new }
    ensures rest { RestSame replica.old replica.new }
    ensures asks { Asks F.Fetch (peer_failed result) fetch.old fetch.new }
    ensures flight { keeper_failed result ≡ false → (shown replica.new.queue).flight ≡ [] }
    ensures idle { result ≢ Some DrainEnd.Idle }
    ensures unspent { result ≢ Some DrainEnd.Spent }
    ensures sticks { keeper_failed result ≡ false →
        Sticks (StuckFor (surely_by (F.leading fetch.old)) job.cid job.own) (shown replica.old.queue)
        (shown replica.new.queue) }
    ensures sorts { IfSome (replica_state K.told K.fuse replica.old) (λ s. result ≡ None →
        Sorts (FetchedFor (found_by (F.offers fetch.old)) job.cid job.own) (shown replica.old.queue).waiting
        (shown replica.new.queue).waiting) }
{
    let mut job = job;
    match look_up(alloc, fetch, &mut job, wait) {
        Ok(found) => sort_found(alloc, replica, job, found),
        Err(error) => {
            back(replica, job);
            Some(end_by(error))
        }
    }
}

// A job whose block is good is given back; any other is delivered, and so is missing or bad.
fn sort_found<K: Keeper>(
    alloc: Global,
    replica: &mut Replica<K>,
    job: Job,
    found: Found,
) -> Option<DrainEnd>
    requires runs { replica.old.stopped ≡ false }
    requires flight { (shown replica.old.queue).flight ≡ job.cid ∷ [] }
    requires digest { FoundHas job.cid found }
    ensures leads { Becomes K.Keeper (λ rose s new. Leads (keeper_failed result) (count s)
        (FoundFor job.cid (found_in found)) s new) replica.old replica.new }
    ensures keeps { Continues K.Keeper (keeper_failed result) replica.old replica.new }
    ensures rest { RestSame replica.old replica.new }
    ensures flight { keeper_failed result ≡ false → (shown replica.new.queue).flight ≡ [] }
    ensures broken { IfSome result IsBroken }
    ensures sticks { keeper_failed result ≡ false →
        Sticks (StuckOf job.cid (found_in found)) (shown replica.old.queue) (shown replica.new.queue) }
    ensures sorts { IfSome (replica_state K.told K.fuse replica.old) (λ s. result ≡ None →
        Sorts (FoundFor job.cid (found_in found)) (shown replica.old.queue).waiting
        (shown replica.new.queue).waiting) }
{
    match is_good(alloc, &job.cid, &found) {
        Ok(true) => {
            back(replica, job);
            None
        }
        Ok(false) => deliver(alloc, replica, job, found),
        Err(AllocError) => {
            back(replica, job);
            Some(DrainEnd::Memory)
        }
    }
}

// Whether what was found for a block is a good block.
fn is_good(alloc: Global, cid: &Cid, found: &Found) -> Result<bool, AllocError>
    requires digest { FoundHas cid.now found.now }
    ensures { IfOk result (λ good. IsGoodness good cid.now (found_in found.now)) }
{
    match found {
        Found::Missing => Ok(false),
        Found::Bytes(bytes) => is_block(alloc, cid, bytes.as_slice()),
    }
}

// Whether bytes that have the digest of a block are a good block.
fn is_block(alloc: Global, cid: &Cid, bytes: &[u8]) -> Result<bool, AllocError>
    requires digest { HasDigest cid.now bytes.now }
    ensures { IfOk result (λ good. IsGoodness good cid.now (Some bytes.now)) }
{
    match read_found(alloc, cid, bytes) {
        Ok(_block) => Ok(true),
        Err(BlockError::Damaged(_damage)) => Ok(false),
        Err(BlockError::Memory) => Err(AllocError),
    }
}
