// A round: a sealed node is made of the replica, workers work on it beside one another, and it is closed.
ghost use Rattle.std.specs.Prelude.{◌≡◌, ◌≤◌, ◌<◌, [], All, IfSome, length, true, false, None};
ghost use Rattle.std.specs.List.{AllZip};
ghost use Rattle.mc_fetch.specs.Calls.{Asks};
ghost use Rattle.mc_fetch.specs.Fits.{FetchFits};
ghost use Rattle.mc_fetch.specs.Offers.{found_by};
ghost use Rattle.mc_queue.specs.Views.{shown};
ghost use Rattle.mc_core.specs.Exact.{RunSame};
ghost use Rattle.mc_core.specs.Replica.{replica_state};
ghost use Rattle.mc_core.specs.Words.{Becomes, Continues};
ghost use Rattle.mc_drain.specs.Leads.{Leads, up_to};
ghost use Rattle.mc_drain.specs.Rounds.{FindsFrom};
ghost use Rattle.mc_drain.specs.Words.{NoneStuck};
ghost use Rattle.mc_turn.specs.Seats.{IsSeatOf};
ghost use Rattle.mc_node.specs.Entries.{StaysSealed, is_sealed_log};
ghost use Rattle.mc_node.specs.Seats.{knows};
ghost use Rattle.mc_node.specs.Ties.{IsWithin, StoresFound};
ghost use Rattle.mc_node.specs.Works.{IsUnder, WorkersLead};
ghost use Rattle.mc_pull.specs.Hands.{FetchLeft, SomeRose, found_first};

use crate::crew::hands::work_beside;
use crate::crew::laws::fetches_follow;
use mc_core::Replica;
use mc_fetch::{Fetch, Naming};
use mc_keep::Keeper;
use mc_model::found_drains_go_on;
use mc_node::{Node, NodeRefused, NodeSeat, Stored};
use mc_relay::{GiverEnd, TakerEnd, open_relay};
use mc_worker::Gate;
use std::alloc::{AllocError, Global};
use std::marker::Brand;
use std::sync::Wait;
use std::thread::Threads;

// The ends of a relay for so many workers: its taker, and a giver for each. There is none for one worker, who meets
// nobody at the turn, none beside an inbox that isn't empty, and none for want of memory.
fn relay_for<K: Keeper, J: Naming>(
    alloc: Global,
    replica: &Replica<K>,
    workers: u64,
) -> (Option<TakerEnd<J>>, Vec<GiverEnd<J>>)
    requires few { workers ≤ 16 }
    ensures alone { workers < 2 → result.0 ≡ None }
    ensures inbox { IfSome result.0 (λ taker. replica.now.inbox.items ≡ []) }
    ensures givers { IfSome result.0 (λ taker. length result.1.items ≡ workers) }
{
    if workers < 2 || replica.inbox_len() > 0 {
        return (None, Vec::new(alloc));
    }
    match open_relay::<J>(alloc, workers) {
        Ok((taker, givers)) => (Some(taker), givers.into_vec()),
        Err(AllocError) => (None, Vec::new(alloc)),
    }
}

// What the workers of a node with a relay left there is taken in, or given up. Without a relay nothing happens.
fn settle<K: Keeper, J: Naming, W: Wait>(
    alloc: Global,
    node: &Node<Stored<K, J>>,
    seat: &mut NodeSeat<Stored<K, J>, K>,
    relayed: bool,
    limit: u64,
    wait: &W,
)
    requires own { IsSeatOf node.now.turn seat.old.seat }
    requires sealed { is_sealed_log (knows seat.old).seen ≡ true }
    requires limit { IsUnder J.most limit }
    ensures own { IsSeatOf node.now.turn seat.new.seat }
    ensures sealed { StaysSealed (knows seat.old).seen (knows seat.new).seen }
{
    if !relayed {
        return;
    }
    node.settle(alloc, seat, limit, wait);
}

// A round under a name. No type of the signature names `J`.
fn named_round<
    K: Keeper + Send + Sync,
    J: Naming + Send + Sync,
    F: Fetch + Send,
    G: Gate + Sync,
    T: Threads + Sync,
    W: Wait + Sync,
>(
    alloc: Global,
    replica: Replica<K>,
    fetches: Vec<F>,
    limit: u64,
    gate: &G,
    threads: &T,
    wait: &W,
) -> (Replica<K>, Vec<F>, bool)
where
    K::Desk: Send,
    requires runs { replica.stopped ≡ false }
    requires walks { J.walks ≡ false }
    requires most { IsWithin J.most (replica_state K.told K.fuse replica) }
    requires found { StoresFound (record { walks = J.walks; most = J.most; found = J.found; kept = J.kept })
        (replica_state K.told K.fuse replica) }
    requires limit { IsUnder J.most limit }
    requires few { length fetches.items ≤ 16 }
    requires fits { All (λ f. FetchFits J.found J.kept (found_by (F.offers f))) fetches.items }
    ensures leads { Becomes K.Keeper (λ rose s new.
        WorkersLead (record { walks = J.walks; most = J.most; found = J.found; kept = J.kept }) result.0.stopped s new)
        replica result.0 }
    ensures keeps { Continues K.Keeper result.0.stopped replica result.0 }
    ensures rest { RunSame replica result.0 }
    ensures left { AllZip (FetchLeft F.Fetch) fetches.items result.1.items }
    ensures calm { result.2 ≡ false → AllZip (Asks F.Fetch false) fetches.items result.1.items }
    ensures peer { result.2 ≡ true → SomeRose F.faults fetches.items result.1.items }
{
    fetches_follow::<F>();
    if fetches.len() < 2 {
        return (replica, fetches, false);
    }
    let (taker, givers) = relay_for::<K, J>(alloc, &replica, fetches.len() as u64);
    let relayed = taker.is_some();
    match Node::<Stored<K, J>>::new(alloc, replica, true, taker) {
        Ok((node, seat)) => {
            let mut seat = seat;
            let (fetches, failed) = work_beside(
                alloc, &node, &mut seat, fetches, givers, limit, gate, threads, wait,
            );
            settle(alloc, &node, &mut seat, relayed, limit, wait);
            (node.close(seat, wait), fetches, failed)
        }
        Err(refused) => {
            let NodeRefused { replica } = refused;
            (replica, fetches, false)
        }
    }
}

/// A round of workers, one for each fetch, on a replica that runs, to so many processed blocks. The replica comes back,
/// and has stopped where its keeper failed, and so do the fetches, and whether one of them failed. Where there is one
/// fetch alone, or no memory, nobody works, and all is left to the caller. Two workers and more hand their blocks over
/// by a relay, where there is memory for one, and what is left in it when all have ended is taken in as far as the
/// number allows, or waits again.
///
/// Conditions: at most 16 fetches, which all find the same for each block; and nothing is missing or bad, so the
/// workers try all that is wanted.
pub(crate) fn round<
    K: Keeper + Send + Sync,
    F: Fetch + Send,
    G: Gate + Sync,
    T: Threads + Sync,
    W: Wait + Sync,
>(
    alloc: Global,
    replica: Replica<K>,
    fetches: Vec<F>,
    limit: u64,
    gate: &G,
    threads: &T,
    wait: &W,
) -> (Replica<K>, Vec<F>, bool)
where
    K::Desk: Send,
    requires runs { replica.stopped ≡ false }
    requires fresh { NoneStuck (shown replica.queue) }
    requires few { length fetches.items ≤ 16 }
    requires same { All (λ f. found_by (F.offers f) ≡ found_first F.offers fetches.items) fetches.items }
    ensures leads { Becomes K.Keeper (λ rose s new. Leads result.0.stopped (up_to limit s)
        (FindsFrom (found_first F.offers fetches.items) s.state.durable.graph) s new) replica result.0 }
    ensures keeps { Continues K.Keeper result.0.stopped replica result.0 }
    ensures rest { RunSame replica result.0 }
    ensures left { AllZip (FetchLeft F.Fetch) fetches.items result.1.items }
    ensures calm { result.2 ≡ false → AllZip (Asks F.Fetch false) fetches.items result.1.items }
    ensures peer { result.2 ≡ true → SomeRose F.faults fetches.items result.1.items }
{
    found_drains_go_on();
    named_round::<K, Brand, F, G, T, W>(alloc, replica, fetches, limit, gate, threads, wait)
}
