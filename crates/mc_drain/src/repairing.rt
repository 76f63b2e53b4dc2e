// A repair.
ghost use Rattle.std.specs.Prelude.{◌≡◌, ◌≢◌, ◌↔◌, ℕ, true, false, Err, IfErr, IfOk, IfSome, OnOk};
ghost use Rattle.mc_fetch.specs.Calls.{Asks};
ghost use Rattle.mc_fetch.specs.Offers.{found_by};
ghost use Rattle.mc_queue.specs.Views.{shown};
ghost use Rattle.mc_model.specs.State.{kept_of};
ghost use Rattle.mc_core.specs.Counted.{capped};
ghost use Rattle.mc_core.specs.Events.{ReplicaState};
ghost use Rattle.mc_core.specs.Exact.{RestSame};
ghost use Rattle.mc_core.specs.Replica.{replica_state};
ghost use Rattle.mc_core.specs.Walks.{gap_count, settled_with};
ghost use Rattle.mc_core.specs.Words.{Becomes, Continues};
ghost use Rattle.mc_drain.specs.Finds.{Finds, finds_by};
ghost use Rattle.mc_drain.specs.Repairs.{RepairAnswer, RepairLeads, RepairWants, has_walked, repaired_of, walk_error};
ghost use Rattle.mc_drain.specs.Leads.{count};
ghost use Rattle.mc_drain.specs.Rounds.{HasWalkedFrom, HasWorkedFrom};
ghost use Rattle.mc_drain.specs.Words.{is_keeper};
ghost use Rattle.mc_drain.specs.Works.{keeper_broke, peer_broke};

use crate::jobs::recall;
use crate::numbers::processed;
use crate::walking::walk;
use crate::{DrainEnd, WorkError, drain};
use mc_core::{Replica, Settled, clean_replicas_are_reached};
use mc_fetch::Fetch;
use mc_keep::Keeper;
use mc_model::{found_drains_go_on, found_repairs_go_on, kept_is_durable, parts_stay_right};
use std::alloc::Global;
use std::sync::Wait;

/// What a repair came to.
#[derive(Clone, Copy, Debug, PartialEq, Eq)]
pub enum Repaired {
    /// No gap is left.
    Clean,
    /// Gaps are left, for which there is no good offer.
    Open {
        /// How many.
        gaps: u64,
    },
    /// So many blocks were processed, which is the budget, and a block that waits has a good offer.
    Again {
        /// How many blocks were processed.
        processed: u64,
    },
}

/// Repairs a replica on the caller's thread: walks to the walk's end, so that every gap is wanted, and then works
/// through what is wanted, as `work` does. Where it is known what is found, the processed blocks are then the closure
/// of what was wanted and of the gaps, or it is `Again`. `Clean` comes exactly where no gap is left then, and `Open`
/// where some are.
/// `Stopped` comes exactly where an earlier call answered `KeeperFault`, and changes nothing.
pub fn repair<K: Keeper, F: Fetch, W: Wait>(
    alloc: Global,
    replica: &mut Replica<K>,
    fetch: &mut F,
    budget: u64,
    wait: &W,
) -> Result<Repaired, WorkError>
    ensures leads { Becomes K.Keeper (λ rose s new.
        RepairLeads budget (finds_by (F.offers fetch.old) (F.leading fetch.old)) result s new)
        replica.old replica.new }
    ensures keeps { Continues K.Keeper (keeper_broke result) replica.old replica.new }
    ensures batch { replica.new.batch ≡ replica.old.batch }
    ensures whole { has_walked result ≡ true → replica.new.whole ≡ true }
    ensures asks { Asks F.Fetch (peer_broke result) fetch.old fetch.new }
    ensures stopped { result ≡ Err WorkError.Stopped ↔ replica.old.stopped ≡ true }
    ensures still { replica.old.stopped ≡ true → replica.new ≡ replica.old }
    ensures wants { RepairWants result (shown replica.new.queue) }
{
    match begin_repair(alloc, replica, wait) {
        Ok(before) => finish_repair(alloc, replica, fetch, before, budget, wait),
        Err(error) => Err(error),
    }
}

/// Begins a repair: all that was in flight waits again, and the walk is made to its end, so that every gap is wanted.
/// How many blocks are processed then, at most `u64::MAX`: as many as before. Where there is no answer, the repair's is
/// the same; `Stopped` comes exactly where an earlier call answered `KeeperFault`, and changes nothing.
pub fn begin_repair<K: Keeper, W: Wait>(
    alloc: Global,
    replica: &mut Replica<K>,
    wait: &W,
) -> Result<u64, WorkError>
    ensures walks { Becomes K.Keeper (λ rose s new. IfOk result (λ before.
        (before ≡ capped (count new)) × HasWalkedFrom s new)) replica.old replica.new }
    ensures leads { Becomes K.Keeper (λ rose s new. IfErr result (λ error. (budget : ℕ) (finds : Finds) →
        RepairLeads budget finds (Err error) s new)) replica.old replica.new }
    ensures keeps { Continues K.Keeper (keeper_broke result) replica.old replica.new }
    ensures batch { replica.new.batch ≡ replica.old.batch }
    ensures whole { OnOk result (replica.new.whole ≡ true) }
    ensures walked { IfErr result (λ error. has_walked (Err error) ≡ false) }
    ensures peers { peer_broke result ≡ false }
    ensures stopped { result ≡ Err WorkError.Stopped ↔ replica.old.stopped ≡ true }
    ensures still { replica.old.stopped ≡ true → replica.new ≡ replica.old }
    ensures wants { IfErr result (λ error. RepairWants (Err error) (shown replica.new.queue)) }
{
    found_drains_go_on();
    found_repairs_go_on();
    replica.is_sound();
    let before = match replica.report() {
        Ok(report) => report.processed,
        Err(_) => return Err(WorkError::Stopped),
    };
    recall(replica);
    replica.is_sound();
    match walk(alloc, replica, wait) {
        Some(end) => {
            replica.is_sound();
            Err(error_of(end))
        }
        None => {
            replica.is_sound();
            Ok(before)
        }
    }
}

/// Goes on with a repair that has begun, on the caller's thread, where workers may have worked since: `before` is how
/// many blocks were processed when it began, and the budget is that of the whole repair. The answer is that of the
/// whole repair.
pub fn finish_repair<K: Keeper, F: Fetch, W: Wait>(
    alloc: Global,
    replica: &mut Replica<K>,
    fetch: &mut F,
    before: u64,
    budget: u64,
    wait: &W,
) -> Result<Repaired, WorkError>
    requires runs { replica.old.stopped ≡ false }
    requires whole { replica.old.whole ≡ true }
    ensures leads { Becomes K.Keeper (λ rose s new. (root walked : ReplicaState) → HasWalkedFrom root walked →
        HasWorkedFrom false before budget (found_by (F.offers fetch.old)) walked s →
        RepairLeads budget (finds_by (F.offers fetch.old) (F.leading fetch.old)) result root new)
        replica.old replica.new }
    ensures keeps { Continues K.Keeper (keeper_broke result) replica.old replica.new }
    ensures rest { RestSame replica.old replica.new }
    ensures asks { Asks F.Fetch (peer_broke result) fetch.old fetch.new }
    ensures runs { result ≢ Err WorkError.Stopped }
    ensures wants { RepairWants result (shown replica.new.queue) }
{
    clean_replicas_are_reached();
    found_drains_go_on();
    found_repairs_go_on();
    kept_is_durable();
    parts_stay_right();
    let limit = before.saturating_add(budget);
    let end = drain(alloc, replica, fetch, limit, wait);
    replica.is_sound();
    answer(replica, end, before)
}

// Why a repair gives no answer whose walk came to no end.
fn error_of(end: DrainEnd) -> WorkError
    ensures { result ≡ walk_error end }
{
    match end {
        DrainEnd::KeeperFault => WorkError::KeeperFault,
        DrainEnd::Idle | DrainEnd::Spent | DrainEnd::PeerFault | DrainEnd::Memory => {
            WorkError::Memory
        }
    }
}

// The answer where the drain after the walk came to this end, and before the repair so many blocks were processed.
fn answer<K: Keeper>(
    replica: &Replica<K>,
    end: DrainEnd,
    before: u64,
) -> Result<Repaired, WorkError>
    requires runs { is_keeper end ≡ false → replica.now.stopped ≡ false }
    requires whole { replica.now.whole ≡ true }
    ensures { RepairAnswer end before (replica_state K.told K.fuse replica.now) result }
{
    match end {
        DrainEnd::Idle => Ok(answer_to(settled(replica))),
        DrainEnd::Spent => Ok(Repaired::Again {
            processed: processed(replica).saturating_sub(before),
        }),
        DrainEnd::KeeperFault => Err(WorkError::KeeperFault),
        DrainEnd::PeerFault => Err(WorkError::PeerFault),
        DrainEnd::Memory => Err(WorkError::Memory),
    }
}

// What is settled where nothing waits.
fn settled<K: Keeper>(replica: &Replica<K>) -> Settled
    requires runs { replica.now.stopped ≡ false }
    requires whole { replica.now.whole ≡ true }
    ensures { IfSome (replica_state K.told K.fuse replica.now) (λ s.
        result ≡ settled_with (gap_count (kept_of s.state.durable))) }
{
    kept_is_durable();
    match replica.settle() {
        Ok(settled) => return settled,
        Err(_) => unreachable!(),
    }
}

// What is settled, as an answer.
fn answer_to(settled: Settled) -> Repaired
    ensures { result ≡ repaired_of settled }
{
    match settled {
        Settled::Clean => Repaired::Clean,
        Settled::Open { gaps } => Repaired::Open { gaps },
    }
}
