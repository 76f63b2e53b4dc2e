// Who makes the keepers of the program, and takes them back.
ghost use Rattle.std.specs.Prelude.{◌≡◌, ◌+◌, ◌-◌, ◌^◌, ℕ, min, ⊤, IfOk, Ok};
ghost use Rattle.std.specs.List.{sum_by};
ghost use Rattle.mc_keep.specs.Causes.{CountGoes};
ghost use Rattle.mc_keep.specs.Plan.{is_fault};
ghost use Rattle.mc_keepers.specs.declared.keepers.KeeperPlan.{KeeperPlan};
ghost use Rattle.mc_keep_sql.specs.Named.{file_of};
ghost use Rattle.mc_keep_any.specs.Real.{IsBy, starts_of, starts_marked, is_memory, never_told};

use crate::any::AnyKeeper;
use crate::desk::AnyDesk;
use mc_base::{Counted, List};
use mc_keep::{KeepError, Keeper};
use mc_keep_mem::{FaultPlan, MemDesk, MemKeeper};
use mc_keep_sql::{FileFault, FileKeeper, OpenFault, SqlDesk, add_faults};
use mc_keepers::{KeeperPlan, Keepers};
use std::alloc::Global;
use std::marker::Model;
use std::rt::HostRuntime;

/// Makes the keepers of the program, by the plan: in memory, without faults, or in SQLite files. Of a file of layout
/// 1 it says on standard error how many keys are migrated before the first line of a run.
#[derive(Drop)]
pub struct RealKeepers {
    rt: HostRuntime,
    faults: u64,
    lost: u64,
    first: FirstFault,
}

// The file that was refused first, or on which a call failed first. It is for whoever reads it, and no contract speaks of
// it.
#[derive(Drop)]
struct FirstFault {
    fault: Option<FileFault>,
}

impl Model for FirstFault {
    ghost Value = { ⊤ };

    ghost view = { λ first. tt };
}

impl FirstFault {
    fn note(&mut self, fault: Option<FileFault>) {
        if self.fault.is_none() {
            self.fault = fault;
        }
    }
}

impl RealKeepers {
    /// No keeper yet.
    pub fn new(rt: &HostRuntime) -> RealKeepers
        ensures count { (result.faults ≡ 0) × (result.lost ≡ 0) }
    {
        RealKeepers {
            rt: *rt,
            faults: 0,
            lost: 0,
            first: FirstFault { fault: None },
        }
    }

    /// The file that was refused first, or on which a call failed first, with the cause: one of `make`, or one of a keeper
    /// that was taken back.
    pub fn fault(&self) -> Option<&FileFault> {
        self.first.fault.as_ref()
    }

    // Counts what a call of `make` came to, and notes why a file was refused.
    fn count<T>(&mut self, answer: Result<T, OpenFault>) -> Result<T, KeepError>
        ensures count { CountGoes (is_fault result) self.old.faults self.new.faults }
        ensures same { IfOk result (λ made. answer ≡ Ok made) }
        ensures lost { self.new.lost ≡ self.old.lost }
    {
        match answer {
            Ok(made) => Ok(made),
            Err(OpenFault::Memory) => Err(KeepError::Memory),
            Err(OpenFault::Refused { fault }) => {
                self.faults = self.faults.saturating_add(1);
                self.first.note(Some(fault));
                Err(KeepError::Failed)
            }
        }
    }
}

impl Counted for RealKeepers {
    ghost faults = { λ keepers. keepers.faults };

    fn faults(&self) -> u64 {
        self.faults
    }
}

impl Keepers for RealKeepers {
    type K = AnyKeeper<MemKeeper, FileKeeper>;

    ghost starts = { λ keepers plan index. starts_of plan };

    ghost quiet = { λ keepers plan. is_memory plan };

    ghost schedule = { λ keepers. never_told };

    ghost lost = { λ keepers. keepers.lost };

    ghost makes = { λ old plan index result new. (new ≡ record old { faults = new.faults })
        × IfOk result (λ keeper. IsBy file_of plan index keeper) };

    ghost takes = { λ old keeper desks new. new ≡ record old {
      lost = min (old.lost + ⟦<AnyKeeper<MemKeeper, FileKeeper> as Counted>⟧.faults keeper
          + sum_by ⟦<AnyDesk<MemDesk, SqlDesk> as Counted>⟧.faults desks) (2 ^ 64 - 1);
    } };

    fn make(
        &mut self,
        alloc: Global,
        plan: &KeeperPlan,
        index: u64,
    ) -> Result<AnyKeeper<MemKeeper, FileKeeper>, KeepError> {
        match plan {
            KeeperPlan::Memory => {
                let keeper = MemKeeper::new(alloc, FaultPlan::nothing(alloc))?;
                Ok(AnyKeeper::Memory(keeper))
            }
            KeeperPlan::Sqlite { dir } => {
                let opened = FileKeeper::open(&self.rt, dir.as_str(), index);
                let keeper = self.count(opened)?;
                tell_migration(&self.rt, &keeper);
                Ok(AnyKeeper::File(keeper))
            }
        }
    }

    fn end(
        &mut self,
        keeper: AnyKeeper<MemKeeper, FileKeeper>,
        desks: List<AnyDesk<MemDesk, SqlDesk>>,
    )
        ensures taken { self.new ≡ record self.old {
          lost = min (self.old.lost + ⟦<AnyKeeper<MemKeeper, FileKeeper> as Counted>⟧.faults keeper
              + sum_by ⟦<AnyDesk<MemDesk, SqlDesk> as Counted>⟧.faults desks) (2 ^ 64 - 1);
        } }
        ensures lost { self.new.lost
            ≡ min (self.old.lost + ⟦<AnyKeeper<MemKeeper, FileKeeper> as Counted>⟧.faults keeper
            + sum_by ⟦<AnyDesk<MemDesk, SqlDesk> as Counted>⟧.faults desks) (2 ^ 64 - 1) }
        ensures starts_same { (plan : KeeperPlan) (index : ℕ) → starts_of plan ≡ starts_of plan }
        ensures quiet_same { (plan : KeeperPlan) → is_memory plan ≡ is_memory plan }
        ensures planned { never_told ≡ never_told }
        ensures count { self.new.faults ≡ self.old.faults }
    {
        let lost = self.lost.saturating_add(keeper.faults());
        self.lost = add_faults(lost, desks.as_slice());
        self.first.note(close(keeper));
    }

    fn lost(&self) -> u64 {
        self.lost
    }

    ghost marked = { λ keepers plan index. starts_marked plan };
}

// Says of a file of layout 1 that it is migrated now, since a large one takes a while. That the line can't be written
// is no reason not to run.
fn tell_migration(rt: &HostRuntime, keeper: &FileKeeper) {
    if let Some(keys) = keeper.to_migrate() {
        let _ = eprintln!(rt;
            "mc: {}: migrating from layout 1 to 2, {keys} keys",
            keeper.name()
        );
    }
}

// Closes the file of a keeper that has one, and answers why a call on it failed first. Where the closing fails, what was
// committed stands in the file and its log.
fn close(keeper: AnyKeeper<MemKeeper, FileKeeper>) -> Option<FileFault> {
    match keeper {
        AnyKeeper::File(keeper) => keeper.close(),
        AnyKeeper::Memory(_) => None,
    }
}
