// A repair with workers beside one another.
ghost use Rattle.std.specs.Prelude.{◌≡◌, ◌≤◌, ◌↔◌, All, length, false, true, Err};
ghost use Rattle.std.specs.List.{AllZip};
ghost use Rattle.mc_fetch.specs.Calls.{Asks};
ghost use Rattle.mc_fetch.specs.Offers.{found_by};
ghost use Rattle.mc_queue.specs.Views.{shown};
ghost use Rattle.mc_core.specs.Words.{Becomes, Continues};
ghost use Rattle.mc_drain.specs.Repairs.{RepairLeads, RepairWants, has_walked};
ghost use Rattle.mc_drain.specs.Works.{keeper_broke, none_broke, peer_broke};
ghost use Rattle.mc_pull.specs.Hands.{FetchLeft, SomeRose, first_finds, found_first};

use crate::crew::finishing::{go_on_repairing, is_over};
use crate::crew::laws::fetches_follow;
use crate::crew::starting::share;
use mc_core::Replica;
use mc_drain::{Repaired, WorkError, begin_repair, leave_off};
use mc_fetch::Fetch;
use mc_keep::Keeper;
use mc_worker::Gate;
use std::alloc::Global;
use std::sync::Wait;
use std::thread::Threads;

/// Repairs a replica, and gives it back: the caller walks to the walk's end, so that every gap is wanted, and then
/// works through what is wanted with workers, as `work` does. `Clean` comes exactly where no gap is left then, and
/// `Open` where some are. `PeerFault` comes only where the count of a fetch has risen, and every answer but that and
/// `KeeperFault` only where no call of a fetch has failed. `Stopped` comes exactly where an earlier call answered
/// `KeeperFault`, and changes nothing. The fetches come back in their order.
///
/// Conditions: 1 to 16 fetches, which all find the same for each block.
pub fn repair<
    K: Keeper + Send + Sync,
    F: Fetch + Send,
    G: Gate + Sync,
    T: Threads + Sync,
    W: Wait + Sync,
>(
    alloc: Global,
    replica: Replica<K>,
    fetches: Vec<F>,
    budget: u64,
    gate: &G,
    threads: &T,
    wait: &W,
) -> (Replica<K>, Vec<F>, Result<Repaired, WorkError>)
where
    K::Desk: Send,
    requires some { 1 ≤ length fetches.items }
    requires few { length fetches.items ≤ 16 }
    requires same { All (λ f. found_by (F.offers f) ≡ found_first F.offers fetches.items) fetches.items }
    ensures leads { Becomes K.Keeper (λ rose s new.
        RepairLeads budget (first_finds F.offers F.leading fetches.items) result.2 s new) replica result.0 }
    ensures keeps { Continues K.Keeper (keeper_broke result.2) replica result.0 }
    ensures batch { result.0.batch ≡ replica.batch }
    ensures whole { has_walked result.2 ≡ true → result.0.whole ≡ true }
    ensures left { AllZip (FetchLeft F.Fetch) fetches.items result.1.items }
    ensures calm { none_broke result.2 ≡ true → AllZip (Asks F.Fetch false) fetches.items result.1.items }
    ensures peer { peer_broke result.2 ≡ true → SomeRose F.faults fetches.items result.1.items }
    ensures stopped { result.2 ≡ Err WorkError.Stopped ↔ replica.stopped ≡ true }
    ensures still { replica.stopped ≡ true → result.0 ≡ replica }
    ensures wants { RepairWants result.2 (shown result.0.queue) }
{
    fetches_follow::<F>();
    let mut replica = replica;
    let before = match begin_repair(alloc, &mut replica, wait) {
        Ok(before) => before,
        Err(error) => return (replica, fetches, Err(error)),
    };
    let limit = before.saturating_add(budget);
    let (replica, fetches, failed) = share(alloc, replica, fetches, limit, gate, threads, wait);
    let mut replica = replica;
    let mut fetches = fetches;
    if is_over(&replica, failed) {
        let why = leave_off(&mut replica);
        return (replica, fetches, Err(why));
    }
    let answer = go_on_repairing(alloc, &mut replica, &mut fetches, before, budget, wait);
    (replica, fetches, answer)
}
