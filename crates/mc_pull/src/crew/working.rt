// A work of the wanted blocks with workers beside one another.
ghost use Rattle.std.specs.Prelude.{◌≡◌, ◌≤◌, ◌↔◌, All, length, false, true, Err};
ghost use Rattle.std.specs.List.{AllZip};
ghost use Rattle.mc_fetch.specs.Calls.{Asks};
ghost use Rattle.mc_fetch.specs.Offers.{found_by};
ghost use Rattle.mc_queue.specs.Views.{shown};
ghost use Rattle.mc_core.specs.Exact.{RunSame};
ghost use Rattle.mc_core.specs.Words.{Becomes, Continues};
ghost use Rattle.mc_drain.specs.Works.{WorkLeads, WorkWants, keeper_broke, none_broke, peer_broke};
ghost use Rattle.mc_pull.specs.Hands.{FetchLeft, SomeRose, first_finds, found_first};

use crate::crew::finishing::{go_on, is_over};
use crate::crew::laws::fetches_follow;
use crate::crew::starting::share;
use mc_core::Replica;
use mc_drain::{WorkError, Worked, leave_off};
use mc_fetch::Fetch;
use mc_keep::Keeper;
use mc_worker::Gate;
use std::alloc::Global;
use std::sync::Wait;
use std::thread::Threads;

/// Works through the wanted blocks of a replica, and gives it back. What is missing or bad waits again. The caller goes on
/// alone, over the first fetch, as long as fewer blocks wait than there are fetches; then there are workers, of two fetches
/// and more one for each, each in a thread of its own where one can be made; and then the caller goes on alone, as
/// `mc_drain::work` does. Workers and caller together process no more blocks than the budget says. The answer is that of the whole work. Where it is known what is found, `Done`
/// comes exactly where no wanted block has a good offer any more, and the processed blocks are then the closure of what
/// was wanted; after `Again`, `PeerFault` and `Memory` each block that was wanted is processed or still wanted.
/// `PeerFault` comes only where the count of a fetch has risen, and every answer but that and `KeeperFault` only where
/// no call of a fetch has failed. `Stopped` comes exactly where an earlier call answered `KeeperFault`, and changes
/// nothing. The fetches come back in their order.
///
/// Conditions: 1 to 16 fetches, which all find the same for each block.
pub fn work<
    K: Keeper + Send + Sync,
    F: Fetch + Send,
    G: Gate + Sync,
    T: Threads + Sync,
    W: Wait + Sync,
>(
    alloc: Global,
    replica: Replica<K>,
    fetches: Vec<F>,
    budget: u64,
    gate: &G,
    threads: &T,
    wait: &W,
) -> (Replica<K>, Vec<F>, Result<Worked, WorkError>)
where
    K::Desk: Send,
    requires some { 1 ≤ length fetches.items }
    requires few { length fetches.items ≤ 16 }
    requires same { All (λ f. found_by (F.offers f) ≡ found_first F.offers fetches.items) fetches.items }
    ensures leads { Becomes K.Keeper (λ rose s new.
        WorkLeads budget (first_finds F.offers F.leading fetches.items) result.2 s new) replica result.0 }
    ensures keeps { Continues K.Keeper (keeper_broke result.2) replica result.0 }
    ensures rest { RunSame replica result.0 }
    ensures left { AllZip (FetchLeft F.Fetch) fetches.items result.1.items }
    ensures calm { none_broke result.2 ≡ true → AllZip (Asks F.Fetch false) fetches.items result.1.items }
    ensures peer { peer_broke result.2 ≡ true → SomeRose F.faults fetches.items result.1.items }
    ensures stopped { result.2 ≡ Err WorkError.Stopped ↔ replica.stopped ≡ true }
    ensures still { replica.stopped ≡ true → result.0 ≡ replica }
    ensures wants { WorkWants result.2 (shown result.0.queue) }
{
    fetches_follow::<F>();
    replica.is_sound();
    let before = match replica.report() {
        Ok(report) => report.processed,
        Err(_) => return (replica, fetches, Err(WorkError::Stopped)),
    };
    let limit = before.saturating_add(budget);
    let (replica, fetches, failed) = share(alloc, replica, fetches, limit, gate, threads, wait);
    let mut replica = replica;
    let mut fetches = fetches;
    if is_over(&replica, failed) {
        let why = leave_off(&mut replica);
        return (replica, fetches, Err(why));
    }
    let answer = go_on(alloc, &mut replica, &mut fetches, before, budget, wait);
    (replica, fetches, answer)
}
