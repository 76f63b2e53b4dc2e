// What the caller does before a round: it goes on alone, over the first fetch, as long as fewer blocks wait than there are
// workers.
ghost use Rattle.std.specs.Prelude.{◌≡◌, ◌≤◌, All, length, true, false, None};
ghost use Rattle.std.specs.List.{AllZip};
ghost use Rattle.mc_fetch.specs.Calls.{Asks};
ghost use Rattle.mc_fetch.specs.Offers.{found_by};
ghost use Rattle.mc_core.specs.Exact.{RestSame, RunSame};
ghost use Rattle.mc_core.specs.Words.{Becomes, Continues};
ghost use Rattle.mc_drain.specs.Leads.{Leads, LeadsBy, Never, up_to};
ghost use Rattle.mc_drain.specs.Rounds.{FindsFrom};
ghost use Rattle.mc_drain.specs.Words.{Fetched, is_peer, keeper_failed, peer_failed};
ghost use Rattle.mc_pull.specs.Hands.{FetchLeft, SomeRose, found_first};

use crate::crew::laws::fetches_follow;
use crate::crew::rounds::round;
use mc_core::Replica;
use mc_drain::{DrainEnd, drain_alone, requeue};
use mc_fetch::Fetch;
use mc_keep::Keeper;
use mc_model::found_drains_go_on;
use mc_worker::Gate;
use std::alloc::Global;
use std::sync::Wait;
use std::thread::Threads;

// Whether a drain ended by a fault of its fetch.
fn is_peer(end: DrainEnd) -> bool
    ensures { result ≡ is_peer end }
{
    match end {
        DrainEnd::PeerFault => true,
        DrainEnd::Idle | DrainEnd::Spent | DrainEnd::KeeperFault | DrainEnd::Memory => false,
    }
}

// Drains alone over the first fetch.
fn start<K: Keeper, F: Fetch, W: Wait>(
    alloc: Global,
    replica: &mut Replica<K>,
    fetches: &mut Vec<F>,
    limit: u64,
    enough: u64,
    wait: &W,
) -> Option<DrainEnd>
    requires runs { replica.old.stopped ≡ false }
    requires some { 1 ≤ length fetches.old.items }
    ensures leads { Becomes K.Keeper (λ rose s new. Leads (keeper_failed result) (up_to limit s)
        (Fetched (found_first F.offers fetches.old.items)) s new) replica.old replica.new }
    ensures keeps { Continues K.Keeper (keeper_failed result) replica.old replica.new }
    ensures rest { RestSame replica.old replica.new }
    ensures left { AllZip (FetchLeft F.Fetch) fetches.old.items fetches.new.items }
    ensures calm { peer_failed result ≡ false → AllZip (Asks F.Fetch false) fetches.old.items fetches.new.items }
    ensures peer { peer_failed result ≡ true → SomeRose F.faults fetches.old.items fetches.new.items }
{
    start_first(alloc, replica, fetches.as_mut_slice(), limit, enough, wait)
}

// The same, of a slice.
fn start_first<K: Keeper, F: Fetch, W: Wait>(
    alloc: Global,
    replica: &mut Replica<K>,
    fetches: &mut [F],
    limit: u64,
    enough: u64,
    wait: &W,
) -> Option<DrainEnd>
    requires runs { replica.old.stopped ≡ false }
    requires some { 1 ≤ length fetches.old }
    ensures leads { Becomes K.Keeper (λ rose s new. Leads (keeper_failed result) (up_to limit s)
        (Fetched (found_first F.offers fetches.old)) s new) replica.old replica.new }
    ensures keeps { Continues K.Keeper (keeper_failed result) replica.old replica.new }
    ensures rest { RestSame replica.old replica.new }
    ensures left { AllZip (FetchLeft F.Fetch) fetches.old fetches.new }
    ensures calm { peer_failed result ≡ false → AllZip (Asks F.Fetch false) fetches.old fetches.new }
    ensures peer { peer_failed result ≡ true → SomeRose F.faults fetches.old fetches.new }
{
    let Some((fetch, _others)) = fetches.split_first_mut() else {
        unreachable!();
    };
    drain_alone(alloc, replica, fetch, limit, enough, wait)
}

/// The part of a work that workers can share, on a replica that runs, to so many processed blocks: the caller goes on
/// alone as long as fewer blocks wait than there are workers, and then there is a round of workers. The replica comes back, and has
/// stopped where its keeper failed, and so do the fetches, and whether one of them failed. Where there is one fetch
/// alone, all is left to the caller.
///
/// Conditions: at most 16 fetches, which all find the same for each block.
pub(crate) fn share<
    K: Keeper + Send + Sync,
    F: Fetch + Send,
    G: Gate + Sync,
    T: Threads + Sync,
    W: Wait + Sync,
>(
    alloc: Global,
    replica: Replica<K>,
    fetches: Vec<F>,
    limit: u64,
    gate: &G,
    threads: &T,
    wait: &W,
) -> (Replica<K>, Vec<F>, bool)
where
    K::Desk: Send,
    requires runs { replica.stopped ≡ false }
    requires few { length fetches.items ≤ 16 }
    requires same { All (λ f. found_by (F.offers f) ≡ found_first F.offers fetches.items) fetches.items }
    ensures leads { Becomes K.Keeper (λ rose s new. LeadsBy result.0.stopped (up_to limit s)
        (FindsFrom (found_first F.offers fetches.items) s.state.durable.graph) Never s new) replica result.0 }
    ensures keeps { Continues K.Keeper result.0.stopped replica result.0 }
    ensures rest { RunSame replica result.0 }
    ensures left { AllZip (FetchLeft F.Fetch) fetches.items result.1.items }
    ensures calm { result.2 ≡ false → AllZip (Asks F.Fetch false) fetches.items result.1.items }
    ensures peer { result.2 ≡ true → SomeRose F.faults fetches.items result.1.items }
{
    fetches_follow::<F>();
    let workers = fetches.len();
    if workers < 2 {
        return (replica, fetches, false);
    }
    found_drains_go_on();
    let mut replica = replica;
    let mut fetches = fetches;
    match start(
        alloc,
        &mut replica,
        &mut fetches,
        limit,
        workers as u64,
        wait,
    ) {
        Some(end) => (replica, fetches, is_peer(end)),
        None => {
            requeue(&mut replica);
            round(alloc, replica, fetches, limit, gate, threads, wait)
        }
    }
}
