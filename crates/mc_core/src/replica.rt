// One replica.
ghost use Rattle.std.specs.Prelude.{◌≡◌, [], true, false, None, IfOk, IfErr, IfSome};
ghost use Rattle.mc_keep.specs.Calls.{Goes, Reads};
ghost use Rattle.mc_plan.specs.Counted.{is_counted, AreSound};
ghost use Rattle.mc_model.specs.State.{HasSoundMark, IsSound};
ghost use Rattle.mc_model.specs.declared.layout.Layout.TheVariants.{Two};
ghost use Rattle.mc_queue.specs.Views.{shown};
ghost use Rattle.mc_core.specs.Openings.{is_fault_cause};

use mc_base::Failed;
use mc_inbox::Inbox;
use mc_keep::{KeepError, Keeper};
use mc_migrate::migrate;
use mc_model::kept_is_durable;
use mc_plan::{Numbers, is_sound, numbers_of};
use mc_queue::Queue;
use mc_walk::Walk;
use mc_write::Batch;
use std::alloc::Global;

/// One replica over its keeper: the stored blocks, the order of the processed ones and the dirty mark are the keeper's;
/// what is lost at a stop is the replica's, among it an inbox of verified blocks, which no event sees. What it does is a list of events of the replica; where the keeper fails,
/// these are cut short, and the replica has stopped. Where it has not, its numbers are those of what its keeper tells.
/// What its keeper tells and what would be lost at a stop are sound together. Its keeper has all winner rows.
#[derive(Drop)]
pub struct Replica<K: Keeper> {
    pub(crate) keeper: K,
    pub(crate) numbers: Numbers,
    pub(crate) queue: Queue,
    pub(crate) walk: Option<Walk>,
    pub(crate) inbox: Inbox,
    pub(crate) batch: Option<Batch>,
    pub(crate) whole: bool,
    pub(crate) stopped: bool,
    pub ghost counted: { is_counted stopped (K.told keeper) numbers ≡ true },
    pub ghost sound: { AreSound stopped (K.told keeper)
        (record { queue = shown queue; walk = walk; batch = batch; whole = whole }) },
    pub ghost laid: { K.layout keeper ≡ Two },
}

/// Why a replica was not opened.
#[derive(Clone, Copy, Debug, PartialEq, Eq)]
pub enum OpenCause {
    /// The keeper failed, and counted it.
    KeeperFault,
    /// Want of memory. Only winner rows that are still to be written take it; a world whose desks want it answers it
    /// too.
    Memory,
}

/// A replica that was not opened: why, and its keeper.
#[derive(Drop)]
pub struct OpenError<K: Keeper> {
    /// Why.
    pub cause: OpenCause,
    /// The keeper, which tells what it told before.
    pub keeper: K,
}

impl<K: Keeper> Replica<K> {
    ghost use Rattle.mc_model.specs.Kept.{IsKept};
    ghost use Rattle.mc_model.specs.Wanted.{no_queue};
    ghost use Rattle.mc_core.specs.Replica.{replica_state, opened_state};

    /// Opens the replica of a keeper: nothing is wanted, and every gap counts as wanted exactly where the dirty mark is
    /// clear. Where the keeper has not all winner rows these are written first, in commits that leave what it tells;
    /// those that were made stay, also where the replica is not opened. Takes no memory where all are there.
    pub fn open(alloc: Global, keeper: K) -> Result<Replica<K>, OpenError<K>>
        requires marked { IfSome (K.told keeper) HasSoundMark }
        ensures opened { IfOk result (λ replica.
            replica_state K.told K.fuse replica ≡ opened_state (K.told keeper) (K.fuse replica.keeper)) }
        ensures same { IfOk result (λ replica. K.told replica.keeper ≡ K.told keeper) }
        ensures goes { IfOk result (λ replica. Goes K.Keeper false keeper replica.keeper) }
        ensures reads { K.layout keeper ≡ Two → IfOk result (λ replica. Reads K.Keeper false keeper replica.keeper) }
        ensures runs { IfOk result (λ replica. (replica.stopped ≡ false) × (replica.batch ≡ None)) }
        ensures fresh { IfOk result (λ replica. (shown replica.queue ≡ no_queue) × (replica.walk ≡ None)) }
        ensures inbox { IfOk result (λ replica. replica.inbox.items ≡ []) }
        ensures refused { IfErr result (λ error. (K.told error.keeper ≡ K.told keeper)
            × Goes K.Keeper (is_fault_cause error.cause) keeper error.keeper) }
        ensures refused_at_two { K.layout keeper ≡ Two → IfErr result (λ error.
            (error.cause ≡ OpenCause.KeeperFault) × Reads K.Keeper true keeper error.keeper) }
    {
        kept_is_durable();
        let mut keeper = match migrated(alloc, keeper) {
            Ok(keeper) => keeper,
            Err(error) => return Err(error),
        };
        is_sound(&keeper);
        match keeper.summary() {
            Ok(summary) => Ok(Replica {
                keeper,
                numbers: numbers_of(summary),
                queue: Queue::new(alloc),
                walk: None,
                inbox: Inbox::new(alloc),
                batch: None,
                whole: !summary.mark,
                stopped: false,
            }),
            Err(Failed) => Err(OpenError {
                cause: OpenCause::KeeperFault,
                keeper,
            }),
        }
    }

    /// What a replica's keeper tells is sound: no block is stored or processed twice, each stored block is good, and
    /// each processed block is stored. So it is together with what would be lost at a stop: no block stands twice
    /// among the processed and the wanted ones, and the mark and the walk tell of the gaps that are not wanted; and
    /// the keeper has all winner rows. A caller has this of every replica, also of one that a lock hands back. Does
    /// nothing.
    pub fn is_sound(&self)
        ensures kept { IfSome (K.told self.now.keeper) IsKept }
        ensures state { IfSome (replica_state K.told K.fuse self.now) (λ s. IsSound s.state) }
        ensures laid { K.layout self.now.keeper ≡ Two }
    {}

    /// The keeper.
    pub fn keeper(&self) -> &K
        ensures { result.now ≡ self.now.keeper }
    {
        &self.keeper
    }

    /// Stops the replica, and hands its keeper back, whose mark is sound, and which has all winner rows.
    pub fn stop(self) -> K
        ensures keeper { result ≡ self.keeper }
        ensures marked { IfSome (K.told result) HasSoundMark }
        ensures laid { K.layout result ≡ Two }
    {
        self.keeper
    }
}

// Writes the winner rows that a keeper has not, and gives it back.
fn migrated<K: Keeper>(alloc: Global, keeper: K) -> Result<K, OpenError<K>>
    ensures two { IfOk result (λ laid. K.layout laid ≡ Two) }
    ensures same { IfOk result (λ laid. K.told laid ≡ K.told keeper) }
    ensures goes { IfOk result (λ laid. Goes K.Keeper false keeper laid) }
    ensures still { K.layout keeper ≡ Two → IfOk result (λ laid. Reads K.Keeper false keeper laid) }
    ensures refused { IfErr result (λ error. (K.told error.keeper ≡ K.told keeper)
        × Goes K.Keeper (is_fault_cause error.cause) keeper error.keeper) }
    ensures refused_at_two { K.layout keeper ≡ Two → IfErr result (λ error.
        (error.cause ≡ OpenCause.KeeperFault) × Reads K.Keeper true keeper error.keeper) }
{
    let mut keeper = keeper;
    match migrate(&mut keeper, alloc) {
        Ok(_done) => Ok(keeper),
        Err(KeepError::Failed) => Err(OpenError {
            cause: OpenCause::KeeperFault,
            keeper,
        }),
        Err(KeepError::Memory) => Err(OpenError {
            cause: OpenCause::Memory,
            keeper,
        }),
    }
}
