// A work of the wanted blocks of a replica, over its peers.
ghost use Rattle.std.specs.Prelude.{◌≡◌, ◌≤◌, ◌↔◌, true, Err};
ghost use Rattle.mc_queue.specs.Views.{shown};
ghost use Rattle.mc_core.specs.Exact.{RunSame};
ghost use Rattle.mc_core.specs.Words.{Becomes, Continues};
ghost use Rattle.mc_drain.specs.Works.{WorkLeads, WorkWants, keeper_broke, none_broke, peer_broke};
ghost use Rattle.mc_lend.specs.Lending.{HaveDesks, marks_of};
ghost use Rattle.mc_pull.specs.Pulls.{DeskRose, DesksGo, NoneFailed, finds_at};

use crate::answers::answer;
use crate::shows::all_show;
use mc_base::List;
use mc_core::Replica;
use mc_drain::{WorkError, Worked, give_up};
use mc_keep::Keeper;
use mc_lend::{Lent, Site, lend, take_back};
use mc_worker::Gate;
use std::alloc::{AllocError, Global};
use std::sync::Wait;
use std::thread::Threads;

/// Works through the wanted blocks of a replica with so many workers beside one another, each in a thread of its own,
/// as `crew::work` does, and gives the replica back. The workers fetch from the sites that are peers, in order: of each
/// its planted offer, and then its stored block, which each worker reads through a desk of its own. A peer whose keeper
/// is silent silences what it has stored and the peers behind it, and nothing before. The sites and the
/// lists of their desks are in one order, and the desk at each place afterwards is what calls leave of the one that
/// stood there: by its count, its plan, and whether it is quiet.
/// `PeerFault` comes only where a desk of a peer has failed in this call, and after `Memory`, which may be that of the
/// desks too, nothing is in flight.
///
/// Conditions: 1 to 16 workers, and as many desks of each peer.
pub fn work<'a, K: Keeper + Send + Sync, G: Gate + Sync, T: Threads + Sync, W: Wait + Sync>(
    alloc: Global,
    replica: Replica<K>,
    sites: &[Site<'a, K>],
    desks: &mut [List<K::Desk>],
    workers: u64,
    budget: u64,
    gate: &G,
    threads: &T,
    wait: &W,
) -> (Replica<K>, Result<Worked, WorkError>)
where
    K::Desk: Send,
    requires some { 1 ≤ workers }
    requires few { workers ≤ 16 }
    requires desked { HaveDesks workers (marks_of sites.now) desks.old }
    ensures leads { Becomes K.Keeper (λ rose s new. WorkLeads budget (finds_at K.told sites.now) result.1 s new)
        replica result.0 }
    ensures keeps { Continues K.Keeper (keeper_broke result.1) replica result.0 }
    ensures rest { RunSame replica result.0 }
    ensures stopped { result.1 ≡ Err WorkError.Stopped ↔ replica.stopped ≡ true }
    ensures still { replica.stopped ≡ true → result.0 ≡ replica }
    ensures wants { WorkWants result.1 (shown result.0.queue) }
    ensures desks { DesksGo K.Keeper K.Desk.faults sites.now desks.old desks.new }
    ensures calm { none_broke result.1 ≡ true → NoneFailed K.Desk.faults desks.old desks.new }
    ensures peers { peer_broke result.1 ≡ true → DeskRose K.Desk.faults (marks_of sites.now) desks.old desks.new }
{
    let Lent { fetches, rows } = match lend(alloc, sites, desks, workers as usize) {
        Ok(lent) => lent,
        Err(AllocError) => {
            let mut replica = replica;
            let why = give_up(&mut replica);
            return (replica, Err(why));
        }
    };
    let fetches = fetches.into_vec();
    let shows = all_show(fetches.as_slice());
    let (replica, fetches, drained) = crate::crew::work(
        alloc, replica, fetches, budget, gate, threads, wait,
    );
    let fetches = List::from_vec(fetches);
    take_back(sites, desks, Lent { fetches, rows });
    (replica, answer(drained, shows))
}
