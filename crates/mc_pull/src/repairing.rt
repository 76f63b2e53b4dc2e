// A repair of a replica, over its peers.
ghost use Rattle.std.specs.Prelude.{◌≡◌, ◌≤◌, ◌↔◌, true, Err};
ghost use Rattle.mc_queue.specs.Views.{shown};
ghost use Rattle.mc_core.specs.Words.{Becomes, Continues};
ghost use Rattle.mc_drain.specs.Repairs.{RepairLeads, RepairWants, has_walked};
ghost use Rattle.mc_drain.specs.Works.{keeper_broke, none_broke, peer_broke};
ghost use Rattle.mc_lend.specs.Lending.{HaveDesks, marks_of};
ghost use Rattle.mc_pull.specs.Pulls.{DeskRose, DesksGo, NoneFailed, finds_at};

use crate::answers::answer;
use crate::shows::all_show;
use mc_base::List;
use mc_core::Replica;
use mc_drain::{Repaired, WorkError, give_up};
use mc_keep::Keeper;
use mc_lend::{Lent, Site, lend, take_back};
use mc_worker::Gate;
use std::alloc::{AllocError, Global};
use std::sync::Wait;
use std::thread::Threads;

/// Repairs a replica with so many workers beside one another, as `crew::repair` does, and fetches as `work` does.
///
/// Conditions: 1 to 16 workers, and as many desks of each peer.
pub fn repair<'a, K: Keeper + Send + Sync, G: Gate + Sync, T: Threads + Sync, W: Wait + Sync>(
    alloc: Global,
    replica: Replica<K>,
    sites: &[Site<'a, K>],
    desks: &mut [List<K::Desk>],
    workers: u64,
    budget: u64,
    gate: &G,
    threads: &T,
    wait: &W,
) -> (Replica<K>, Result<Repaired, WorkError>)
where
    K::Desk: Send,
    requires some { 1 ≤ workers }
    requires few { workers ≤ 16 }
    requires desked { HaveDesks workers (marks_of sites.now) desks.old }
    ensures leads { Becomes K.Keeper (λ rose s new. RepairLeads budget (finds_at K.told sites.now) result.1 s new)
        replica result.0 }
    ensures keeps { Continues K.Keeper (keeper_broke result.1) replica result.0 }
    ensures batch { result.0.batch ≡ replica.batch }
    ensures whole { has_walked result.1 ≡ true → result.0.whole ≡ true }
    ensures stopped { result.1 ≡ Err WorkError.Stopped ↔ replica.stopped ≡ true }
    ensures still { replica.stopped ≡ true → result.0 ≡ replica }
    ensures wants { RepairWants result.1 (shown result.0.queue) }
    ensures desks { DesksGo K.Keeper K.Desk.faults sites.now desks.old desks.new }
    ensures calm { none_broke result.1 ≡ true → NoneFailed K.Desk.faults desks.old desks.new }
    ensures peers { peer_broke result.1 ≡ true → DeskRose K.Desk.faults (marks_of sites.now) desks.old desks.new }
{
    let Lent { fetches, rows } = match lend(alloc, sites, desks, workers as usize) {
        Ok(lent) => lent,
        Err(AllocError) => {
            let mut replica = replica;
            let why = give_up(&mut replica);
            return (replica, Err(why));
        }
    };
    let fetches = fetches.into_vec();
    let shows = all_show(fetches.as_slice());
    let (replica, fetches, drained) = crate::crew::repair(
        alloc, replica, fetches, budget, gate, threads, wait,
    );
    let fetches = List::from_vec(fetches);
    take_back(sites, desks, Lent { fetches, rows });
    (replica, answer(drained, shows))
}
