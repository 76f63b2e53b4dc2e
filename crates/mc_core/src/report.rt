// The numbers of a replica, without a look at its keeper.
ghost use Rattle.std.specs.Prelude.{◌≡◌, IfOk, IfErr, IfSome, true};
ghost use Rattle.mc_plan.specs.declared.error.CoreError.{CoreError as Refused};
ghost use Rattle.mc_queue.specs.Views.{shown};
ghost use Rattle.mc_core.specs.Reports.{AreCounts, AreNumbers, IsReport};

use crate::Replica;
use mc_keep::Keeper;
use mc_plan::CoreError;
use mc_queue::Counts;

/// The numbers of a replica.
#[derive(Clone, Copy, Debug, PartialEq, Eq)]
pub struct Report {
    /// How many blocks are processed, at most `u64::MAX`.
    pub processed: u64,
    /// How many blocks are stored, at most `u64::MAX`.
    pub stored: u64,
    /// How many blocks are in each part of the wanted set.
    pub counts: Counts,
    /// Whether the dirty mark is set.
    pub mark: bool,
    /// Whether every gap counts as wanted.
    pub whole: bool,
}

impl<K: Keeper> Replica<K> {
    /// The numbers that the replica keeps, which are those of what its keeper tells, and of what is wanted. Takes no
    /// memory and doesn't look at the keeper. Refusals: `Stopped`, and exactly where an earlier call answered
    /// `KeeperFault`.
    pub fn report(&self) -> Result<Report, CoreError>
        ensures report { IfOk result (λ report.
            IfSome (K.told self.now.keeper) (λ kept. IsReport kept self.now.whole report)) }
        ensures numbers { IfOk result (λ report. AreNumbers self.now.numbers self.now.whole report) }
        ensures counts { IfOk result (λ report. AreCounts (shown self.now.queue) report.counts) }
        ensures refused { IfErr result (λ error. (error ≡ Refused.Stopped) × (self.now.stopped ≡ true)) }
        ensures stopped { self.now.stopped ≡ true → IfOk result (λ report. ⊥) }
    {
        if self.stopped {
            return Err(CoreError::Stopped);
        }
        Ok(Report {
            processed: self.numbers.processed,
            stored: self.numbers.stored,
            counts: self.queue.counts(),
            mark: self.numbers.mark,
            whole: self.whole,
        })
    }
}
