// What the caller does after a round of workers: it goes on alone, or leaves off.
ghost use Rattle.std.specs.Prelude.{◌≡◌, ◌≢◌, ◌+◌, ℕ, [], true, false, cond, Err};
ghost use Rattle.mc_fetch.specs.Calls.{Asks};
ghost use Rattle.mc_fetch.specs.Offers.{found_by};
ghost use Rattle.mc_queue.specs.Views.{shown};
ghost use Rattle.mc_core.specs.Events.{ReplicaState};
ghost use Rattle.mc_core.specs.Exact.{RestSame};
ghost use Rattle.mc_core.specs.Replica.{replica_state};
ghost use Rattle.mc_core.specs.Words.{Becomes, Continues};
ghost use Rattle.mc_drain.specs.Finds.{Finds, finds_by};
ghost use Rattle.mc_drain.specs.Repairs.{RepairLeads, RepairWants};
ghost use Rattle.mc_drain.specs.Rounds.{HasWalkedFrom, HasWorkedFrom};
ghost use Rattle.mc_drain.specs.Words.{is_keeper};
ghost use Rattle.mc_drain.specs.Works.{AnswerIs, WorkLeads, WorkWants, keeper_broke, peer_broke};

use crate::jobs::recall;
use crate::numbers::{bad, missing, processed};
use crate::{DrainEnd, WorkError, Worked, drain};
use mc_core::Replica;
use mc_fetch::Fetch;
use mc_keep::Keeper;
use mc_model::{found_drains_go_on, found_repairs_go_on, parts_stay_right};
use std::alloc::Global;
use std::sync::Wait;

/// Goes on with a work on the caller's thread, where workers may have worked before: `before` is how many blocks were
/// processed when the work began, and the budget is that of the whole work, of which the workers have used a part. The
/// answer is that of the whole work.
pub fn finish_work<K: Keeper, F: Fetch, W: Wait>(
    alloc: Global,
    replica: &mut Replica<K>,
    fetch: &mut F,
    before: u64,
    budget: u64,
    wait: &W,
) -> Result<Worked, WorkError>
    requires runs { replica.old.stopped ≡ false }
    ensures leads { Becomes K.Keeper (λ rose s new. (root : ReplicaState) →
        HasWorkedFrom false before budget (found_by (F.offers fetch.old)) root s →
        WorkLeads budget (finds_by (F.offers fetch.old) (F.leading fetch.old)) result root new)
        replica.old replica.new }
    ensures keeps { Continues K.Keeper (keeper_broke result) replica.old replica.new }
    ensures rest { RestSame replica.old replica.new }
    ensures asks { Asks F.Fetch (peer_broke result) fetch.old fetch.new }
    ensures runs { result ≢ Err WorkError.Stopped }
    ensures wants { WorkWants result (shown replica.new.queue) }
{
    found_drains_go_on();
    parts_stay_right();
    let limit = before.saturating_add(budget);
    let end = drain(alloc, replica, fetch, limit, wait);
    replica.is_sound();
    answer(replica, end, before)
}

// The answer where a drain has come to this end, before which so many blocks were processed.
fn answer<K: Keeper>(replica: &Replica<K>, end: DrainEnd, before: u64) -> Result<Worked, WorkError>
    requires runs { is_keeper end ≡ false → replica.now.stopped ≡ false }
    ensures { AnswerIs end before (replica_state K.told K.fuse replica.now) (shown replica.now.queue) result }
{
    match end {
        DrainEnd::Idle => Ok(Worked::Done {
            processed: processed(replica).saturating_sub(before),
            missing: missing(replica),
            bad: bad(replica),
        }),
        DrainEnd::Spent => Ok(Worked::Again {
            processed: processed(replica).saturating_sub(before),
        }),
        DrainEnd::KeeperFault => Err(WorkError::KeeperFault),
        DrainEnd::PeerFault => Err(WorkError::PeerFault),
        DrainEnd::Memory => Err(WorkError::Memory),
    }
}

/// Leaves a work or a repair after workers of whom the keeper or a fetch failed, and says why: `KeeperFault` exactly
/// where the replica has stopped, and then nothing changes; else `PeerFault`, and all that was in flight waits again.
pub fn leave_off<K: Keeper>(replica: &mut Replica<K>) -> WorkError
    ensures works { Becomes K.Keeper (λ rose s new. (before budget : ℕ) (finds : Finds) (root : ReplicaState) →
        HasWorkedFrom replica.old.stopped before budget finds.all root s →
        WorkLeads budget finds (Err result) root new) replica.old replica.new }
    ensures repairs { Becomes K.Keeper (λ rose s new.
        (before budget : ℕ) (finds : Finds) (root walked : ReplicaState) → HasWalkedFrom root walked →
        HasWorkedFrom replica.old.stopped before budget finds.all walked s →
        RepairLeads budget finds (Err result) root new) replica.old replica.new }
    ensures keeps { Continues K.Keeper false replica.old replica.new }
    ensures rest { RestSame replica.old replica.new }
    ensures why { result ≡ cond replica.old.stopped WorkError.KeeperFault WorkError.PeerFault }
    ensures still { replica.old.stopped ≡ true → replica.new ≡ replica.old }
    ensures flight { replica.old.stopped ≡ false → (shown replica.new.queue).flight ≡ [] }
{
    found_drains_go_on();
    found_repairs_go_on();
    parts_stay_right();
    replica.is_sound();
    match replica.report() {
        Ok(_) => (),
        Err(_) => return WorkError::KeeperFault,
    }
    recall(replica);
    replica.is_sound();
    WorkError::PeerFault
}
