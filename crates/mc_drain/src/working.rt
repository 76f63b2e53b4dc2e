// A work of the wanted blocks.
ghost use Rattle.std.specs.Prelude.{◌≡◌, ◌↔◌, true, Err};
ghost use Rattle.mc_fetch.specs.Calls.{Asks};
ghost use Rattle.mc_queue.specs.Views.{shown};
ghost use Rattle.mc_core.specs.Exact.{RestSame};
ghost use Rattle.mc_core.specs.Words.{Becomes, Continues};
ghost use Rattle.mc_drain.specs.Finds.{finds_by};
ghost use Rattle.mc_drain.specs.Works.{WorkLeads, WorkWants, keeper_broke, peer_broke};

use crate::finish_work;
use mc_core::Replica;
use mc_fetch::Fetch;
use mc_keep::Keeper;
use std::alloc::Global;
use std::sync::Wait;
use thiserror::Error;

/// What a work came to.
#[derive(Clone, Copy, Debug, PartialEq, Eq)]
pub enum Worked {
    /// Nothing that is wanted has a good offer.
    Done {
        /// How many blocks were processed.
        processed: u64,
        /// How many are missing now.
        missing: u64,
        /// How many are bad now.
        bad: u64,
    },
    /// So many blocks were processed, which is the budget, and a block that waits has a good offer.
    Again {
        /// How many blocks were processed.
        processed: u64,
    },
}

/// Why a work gave no answer. Nothing is in flight then, but where the keeper failed now or before.
#[derive(Clone, Copy, Debug, PartialEq, Eq, Error)]
pub enum WorkError {
    /// The keeper failed, and the replica has stopped.
    #[error("a keeper failed")]
    KeeperFault,
    /// A place that a fetch asked failed. What was processed so far stays.
    #[error("a place that blocks are fetched from failed")]
    PeerFault,
    /// The replica had stopped.
    #[error("the replica has stopped")]
    Stopped,
    /// Want of memory. What was processed so far stays.
    #[error("out of memory")]
    Memory,
}

/// Works through the wanted blocks of a replica on the caller's thread: what is missing or bad is tried again, and the
/// blocks that wait are looked up and processed, until nothing waits or as many are processed as the budget says. Where
/// it is known what is found, `Done` comes exactly where no wanted block has a good offer any more, and the processed
/// blocks are then the closure of what was wanted; else it is `Again`, and all that wait have a good offer. After
/// `Again`, `PeerFault` and `Memory` each block that was wanted is processed or still wanted. Where some places are
/// silent, no block with a good offer at a leading place is wanted after `Done`, nor missing or bad after `Again`.
/// `Stopped` comes exactly where an earlier call answered `KeeperFault`, and changes nothing.
pub fn work<K: Keeper, F: Fetch, W: Wait>(
    alloc: Global,
    replica: &mut Replica<K>,
    fetch: &mut F,
    budget: u64,
    wait: &W,
) -> Result<Worked, WorkError>
    ensures leads { Becomes K.Keeper (λ rose s new.
        WorkLeads budget (finds_by (F.offers fetch.old) (F.leading fetch.old)) result s new) replica.old replica.new }
    ensures keeps { Continues K.Keeper (keeper_broke result) replica.old replica.new }
    ensures rest { RestSame replica.old replica.new }
    ensures asks { Asks F.Fetch (peer_broke result) fetch.old fetch.new }
    ensures stopped { result ≡ Err WorkError.Stopped ↔ replica.old.stopped ≡ true }
    ensures still { replica.old.stopped ≡ true → replica.new ≡ replica.old }
    ensures wants { WorkWants result (shown replica.new.queue) }
{
    replica.is_sound();
    let before = match replica.report() {
        Ok(report) => report.processed,
        Err(_) => return Err(WorkError::Stopped),
    };
    finish_work(alloc, replica, fetch, before, budget, wait)
}
