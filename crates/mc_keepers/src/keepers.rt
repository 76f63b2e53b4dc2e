// Who makes the keepers of a run, and takes them back.
ghost use Rattle.std.specs.Prelude.{◌≡◌, ◌+◌, ◌-◌, ◌^◌, ℕ, Bool, true, List, None, Option, Result, min, IfOk, IfSome};
ghost use Rattle.std.specs.List.{sum_by};
ghost use Rattle.mc_model.specs.Kept.{Kept};
ghost use Rattle.mc_model.specs.State.{HasSoundMark};
ghost use Rattle.mc_keep.specs.Causes.{CountGoes};
ghost use Rattle.mc_keep.specs.Plan.{is_fault};
ghost use Rattle.mc_keep.specs.declared.error.KeepError.{KeepError as MakeError};
ghost use Rattle.mc_keepers.specs.Making.{MakeSchedule, MakesAsPlanned};

use mc_base::{Counted, List, Text};
use mc_keep::{KeepError, Keeper};
use std::alloc::Global;

/// What kind of keeper a run uses.
#[derive(Debug, Drop)]
pub enum KeeperPlan {
    /// In memory: nothing outlives the run.
    Memory,
    /// A SQLite file for each replica.
    Sqlite {
        /// The folder of the files.
        dir: Text,
    },
}

/// Makes keepers, and takes them back. Its count of faults is that of `make` alone.
pub trait Keepers: Counted {
    ghost use Rattle.mc_keepers.specs.declared.keepers.KeeperPlan.{KeeperPlan};

    /// The keepers that it makes.
    type K: Keeper;

    /// What the keeper of a plan with this index stands for when it is made, where that is told.
    ghost starts: { Self → KeeperPlan → ℕ → Option Kept };

    /// Whether no count of a keeper or desk that it makes from this plan ever rises by itself.
    ghost quiet: { Self → KeeperPlan → Bool };

    /// Which calls of `make` are planned to fail, and what is planned for the keepers, where that is known.
    ghost schedule: { Self → Option MakeSchedule };

    /// The sum of the counts of all keepers and desks that were taken back, at most `u64::MAX`.
    ghost lost: { Self → ℕ };

    /// That a call of `make` by this plan and for this index came to this, and what was before and after it.
    ghost makes: { Self → KeeperPlan → ℕ → Result Self.K MakeError → Self → Type 0 };

    /// That this keeper and these desks were taken back, and what was before and after it.
    ghost takes: { Self → Self.K → List Self.K.Desk → Self → Type 0 };

    /// Makes the keeper of the replica with this index, with the count 0 and no fuse.
    fn make(&mut self, alloc: Global, plan: &KeeperPlan, index: u64) -> Result<Self::K, KeepError>
        ensures made { makes self.old plan.now index result self.new }
        ensures told { IfOk result (λ keeper. Self.K.told keeper ≡ starts self.old plan.now index) }
        ensures fresh { IfOk result (λ keeper.
            (Self.K.faults keeper ≡ 0) × (Self.K.own keeper ≡ 0) × (Self.K.fuse keeper ≡ None)) }
        ensures quiet { quiet self.old plan.now ≡ true → IfOk result (λ keeper. Self.K.quiet keeper ≡ true) }
        ensures starts_same { (plan : KeeperPlan) (index : ℕ) →
            starts self.new plan index ≡ starts self.old plan index }
        ensures quiet_same { (plan : KeeperPlan) → quiet self.new plan ≡ quiet self.old plan }
        ensures lost { lost self.new ≡ lost self.old }
        ensures planned { MakesAsPlanned Self.K.schedule (schedule self.old) (schedule self.new) index result }
        ensures count { CountGoes (is_fault result) (Self.faults self.old) (Self.faults self.new) };

    /// Takes a keeper and its desks back. It takes no memory, and does not fail.
    fn end(&mut self, keeper: Self::K, desks: List<<Self::K as Keeper>::Desk>)
        ensures taken { takes self.old keeper desks self.new }
        ensures lost { lost self.new
            ≡ min (lost self.old + Self.K.faults keeper + sum_by Self.K.Desk.faults desks) (2 ^ 64 - 1) }
        ensures starts_same { (plan : KeeperPlan) (index : ℕ) →
            starts self.new plan index ≡ starts self.old plan index }
        ensures quiet_same { (plan : KeeperPlan) → quiet self.new plan ≡ quiet self.old plan }
        ensures planned { schedule self.new ≡ schedule self.old }
        ensures count { Self.faults self.new ≡ Self.faults self.old };

    /// The sum of the counts of all keepers and desks that were taken back, at most `u64::MAX`.
    fn lost(&self) -> u64
        ensures { result ≡ lost self.now };

    /// What a keeper stands for when it is made has a sound mark: where it is clear there is no gap.
    ghost marked: { (keepers : Self) (plan : KeeperPlan) (index : ℕ) →
        IfSome (starts keepers plan index) HasSoundMark };
}
