// The turns of a drain: each takes the first block that waits.
ghost use Rattle.std.specs.Prelude.{◌≡◌, ◌≢◌, ◌+◌, ◌∷◌, [], false, None, Some, IfSome};
ghost use Rattle.mc_fetch.specs.Calls.{Asks};
ghost use Rattle.mc_fetch.specs.Offers.{HasDigest, found_by, surely_by};
ghost use Rattle.mc_queue.specs.Views.{shown};
ghost use Rattle.mc_core.specs.Exact.{RestSame};
ghost use Rattle.mc_core.specs.Replica.{replica_state};
ghost use Rattle.mc_core.specs.Words.{Becomes, Continues};
ghost use Rattle.mc_drain.specs.Leads.{Leads, count};
ghost use Rattle.mc_drain.specs.Lost.{IsLost, Sticks, StuckFor};
ghost use Rattle.mc_drain.specs.Words.{EndsJob, Fetched, FetchedFor, Turns, keeper_failed, peer_failed};

use crate::DrainEnd;
use crate::end::end_by;
use crate::jobs::{back, begin, deliver};
use mc_core::Replica;
use mc_fetch::{Fetch, Job};
use mc_keep::Keeper;
use mc_worker::look_up;
use std::alloc::Global;
use std::sync::Wait;

// One turn of a drain: a job begins and ends. The drain's end, where it is at its end.
pub(crate) fn take_turn<K: Keeper, F: Fetch, W: Wait>(
    alloc: Global,
    replica: &mut Replica<K>,
    fetch: &mut F,
    wait: &W,
) -> Option<DrainEnd>
    requires runs { replica.old.stopped ≡ false }
    requires flight { (shown replica.old.queue).flight ≡ [] }
    ensures leads { Becomes K.Keeper (λ rose s new. Leads (keeper_failed result) (count s + 1)
        (Fetched (found_by (F.offers fetch.old))) s new) replica.old replica.new }
    ensures keeps { Continues K.Keeper (keeper_failed result) replica.old replica.new }
    ensures rest { RestSame replica.old replica.new }
    ensures asks { Asks F.Fetch (peer_failed result) fetch.old fetch.new }
    ensures flight { keeper_failed result ≡ false → (shown replica.new.queue).flight ≡ [] }
    ensures sticks { IfSome (replica_state K.told K.fuse replica.old) (λ s. keeper_failed result ≡ false →
        Sticks (IsLost (surely_by (F.leading fetch.old)) s.state.durable.graph) (shown replica.old.queue)
        (shown replica.new.queue)) }
    ensures turn { result ≡ None → Turns (shown replica.old.queue) (shown replica.new.queue) }
    ensures idle { result ≡ Some DrainEnd.Idle → (shown replica.new.queue).waiting ≡ [] }
    ensures unspent { result ≢ Some DrainEnd.Spent }
{
    replica.is_sound();
    match begin(alloc, replica) {
        Ok(Some(job)) => do_job(alloc, replica, fetch, job, wait),
        Ok(None) => Some(DrainEnd::Idle),
        Err(end) => Some(end),
    }
}

// A job: what is found for it is delivered, or it is given back where the fetch gives no answer.
fn do_job<K: Keeper, F: Fetch, W: Wait>(
    alloc: Global,
    replica: &mut Replica<K>,
    fetch: &mut F,
    job: Job,
    wait: &W,
) -> Option<DrainEnd>
    requires runs { replica.old.stopped ≡ false }
    requires flight { (shown replica.old.queue).flight ≡ job.cid ∷ [] }
    requires own { IfSome job.own (λ bytes. HasDigest job.cid bytes) }
    ensures leads { Becomes K.Keeper (λ rose s new. Leads (keeper_failed result) (count s + 1)
        (FetchedFor (found_by (F.offers fetch.old)) job.cid job.own) s new) replica.old replica.new }
    ensures keeps { Continues K.Keeper (keeper_failed result) replica.old replica.new }
    ensures rest { RestSame replica.old replica.new }
    ensures asks { Asks F.Fetch (peer_failed result) fetch.old fetch.new }
    ensures flight { keeper_failed result ≡ false → (shown replica.new.queue).flight ≡ [] }
    ensures sticks { keeper_failed result ≡ false →
        Sticks (StuckFor (surely_by (F.leading fetch.old)) job.cid job.own) (shown replica.old.queue)
        (shown replica.new.queue) }
    ensures ends { result ≡ None → EndsJob (shown replica.old.queue) (shown replica.new.queue) job.cid }
    ensures idle { result ≢ Some DrainEnd.Idle }
    ensures unspent { result ≢ Some DrainEnd.Spent }
{
    let mut job = job;
    match look_up(alloc, fetch, &mut job, wait) {
        Ok(found) => deliver(alloc, replica, job, found),
        Err(error) => {
            back(replica, job);
            Some(end_by(error))
        }
    }
}
