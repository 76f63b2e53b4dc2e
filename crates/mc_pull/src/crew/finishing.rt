// What the caller does after a round: it goes on alone, over the first fetch, or leaves off.
ghost use Rattle.std.specs.Prelude.{◌≡◌, ◌≢◌, ◌≤◌, ◌||◌, length, true, false, Err};
ghost use Rattle.std.specs.List.{AllZip};
ghost use Rattle.mc_fetch.specs.Calls.{Asks};
ghost use Rattle.mc_queue.specs.Views.{shown};
ghost use Rattle.mc_core.specs.Events.{ReplicaState};
ghost use Rattle.mc_core.specs.Exact.{RestSame};
ghost use Rattle.mc_core.specs.Words.{Becomes, Continues};
ghost use Rattle.mc_drain.specs.Repairs.{RepairLeads, RepairWants};
ghost use Rattle.mc_drain.specs.Rounds.{HasWalkedFrom, HasWorkedFrom};
ghost use Rattle.mc_drain.specs.Works.{WorkLeads, WorkWants, keeper_broke, peer_broke};
ghost use Rattle.mc_pull.specs.Hands.{FetchLeft, SomeRose, first_finds, found_first};

use mc_core::Replica;
use mc_drain::{Repaired, WorkError, Worked, finish_repair, finish_work};
use mc_fetch::Fetch;
use mc_keep::Keeper;
use std::alloc::Global;
use std::sync::Wait;

// Whether a replica has stopped.
fn has_stopped<K: Keeper>(replica: &Replica<K>) -> bool
    ensures { result ≡ replica.now.stopped }
{
    match replica.report() {
        Ok(_) => false,
        Err(_) => true,
    }
}

// Whether a work or a repair is left after a round: a fetch has failed, or the replica has stopped.
pub(crate) fn is_over<K: Keeper>(replica: &Replica<K>, failed: bool) -> bool
    ensures { result ≡ (failed || replica.now.stopped) }
{
    failed || has_stopped(replica)
}

// Goes on with a work over the first fetch.
pub(crate) fn go_on<K: Keeper, F: Fetch, W: Wait>(
    alloc: Global,
    replica: &mut Replica<K>,
    fetches: &mut Vec<F>,
    before: u64,
    budget: u64,
    wait: &W,
) -> Result<Worked, WorkError>
    requires runs { replica.old.stopped ≡ false }
    requires some { 1 ≤ length fetches.old.items }
    ensures leads { Becomes K.Keeper (λ rose s new. (root : ReplicaState) →
        HasWorkedFrom false before budget (found_first F.offers fetches.old.items) root s →
        WorkLeads budget (first_finds F.offers F.leading fetches.old.items) result root new) replica.old replica.new }
    ensures keeps { Continues K.Keeper (keeper_broke result) replica.old replica.new }
    ensures rest { RestSame replica.old replica.new }
    ensures left { AllZip (FetchLeft F.Fetch) fetches.old.items fetches.new.items }
    ensures calm { peer_broke result ≡ false → AllZip (Asks F.Fetch false) fetches.old.items fetches.new.items }
    ensures peer { peer_broke result ≡ true → SomeRose F.faults fetches.old.items fetches.new.items }
    ensures runs { result ≢ Err WorkError.Stopped }
    ensures wants { WorkWants result (shown replica.new.queue) }
{
    go_on_first(alloc, replica, fetches.as_mut_slice(), before, budget, wait)
}

// The same, of a slice.
fn go_on_first<K: Keeper, F: Fetch, W: Wait>(
    alloc: Global,
    replica: &mut Replica<K>,
    fetches: &mut [F],
    before: u64,
    budget: u64,
    wait: &W,
) -> Result<Worked, WorkError>
    requires runs { replica.old.stopped ≡ false }
    requires some { 1 ≤ length fetches.old }
    ensures leads { Becomes K.Keeper (λ rose s new. (root : ReplicaState) →
        HasWorkedFrom false before budget (found_first F.offers fetches.old) root s →
        WorkLeads budget (first_finds F.offers F.leading fetches.old) result root new) replica.old replica.new }
    ensures keeps { Continues K.Keeper (keeper_broke result) replica.old replica.new }
    ensures rest { RestSame replica.old replica.new }
    ensures left { AllZip (FetchLeft F.Fetch) fetches.old fetches.new }
    ensures calm { peer_broke result ≡ false → AllZip (Asks F.Fetch false) fetches.old fetches.new }
    ensures peer { peer_broke result ≡ true → SomeRose F.faults fetches.old fetches.new }
    ensures runs { result ≢ Err WorkError.Stopped }
    ensures wants { WorkWants result (shown replica.new.queue) }
{
    let Some((fetch, _others)) = fetches.split_first_mut() else {
        unreachable!();
    };
    finish_work(alloc, replica, fetch, before, budget, wait)
}

// Goes on with a repair over the first fetch.
pub(crate) fn go_on_repairing<K: Keeper, F: Fetch, W: Wait>(
    alloc: Global,
    replica: &mut Replica<K>,
    fetches: &mut Vec<F>,
    before: u64,
    budget: u64,
    wait: &W,
) -> Result<Repaired, WorkError>
    requires runs { replica.old.stopped ≡ false }
    requires whole { replica.old.whole ≡ true }
    requires some { 1 ≤ length fetches.old.items }
    ensures leads { Becomes K.Keeper (λ rose s new. (root walked : ReplicaState) → HasWalkedFrom root walked →
        HasWorkedFrom false before budget (found_first F.offers fetches.old.items) walked s →
        RepairLeads budget (first_finds F.offers F.leading fetches.old.items) result root new) replica.old replica.new }
    ensures keeps { Continues K.Keeper (keeper_broke result) replica.old replica.new }
    ensures rest { RestSame replica.old replica.new }
    ensures left { AllZip (FetchLeft F.Fetch) fetches.old.items fetches.new.items }
    ensures calm { peer_broke result ≡ false → AllZip (Asks F.Fetch false) fetches.old.items fetches.new.items }
    ensures peer { peer_broke result ≡ true → SomeRose F.faults fetches.old.items fetches.new.items }
    ensures runs { result ≢ Err WorkError.Stopped }
    ensures wants { RepairWants result (shown replica.new.queue) }
{
    repair_over_first(alloc, replica, fetches.as_mut_slice(), before, budget, wait)
}

// The same, of a slice.
fn repair_over_first<K: Keeper, F: Fetch, W: Wait>(
    alloc: Global,
    replica: &mut Replica<K>,
    fetches: &mut [F],
    before: u64,
    budget: u64,
    wait: &W,
) -> Result<Repaired, WorkError>
    requires runs { replica.old.stopped ≡ false }
    requires whole { replica.old.whole ≡ true }
    requires some { 1 ≤ length fetches.old }
    ensures leads { Becomes K.Keeper (λ rose s new. (root walked : ReplicaState) → HasWalkedFrom root walked →
        HasWorkedFrom false before budget (found_first F.offers fetches.old) walked s →
        RepairLeads budget (first_finds F.offers F.leading fetches.old) result root new) replica.old replica.new }
    ensures keeps { Continues K.Keeper (keeper_broke result) replica.old replica.new }
    ensures rest { RestSame replica.old replica.new }
    ensures left { AllZip (FetchLeft F.Fetch) fetches.old fetches.new }
    ensures calm { peer_broke result ≡ false → AllZip (Asks F.Fetch false) fetches.old fetches.new }
    ensures peer { peer_broke result ≡ true → SomeRose F.faults fetches.old fetches.new }
    ensures runs { result ≢ Err WorkError.Stopped }
    ensures wants { RepairWants result (shown replica.new.queue) }
{
    let Some((fetch, _others)) = fetches.split_first_mut() else {
        unreachable!();
    };
    finish_repair(alloc, replica, fetch, before, budget, wait)
}
