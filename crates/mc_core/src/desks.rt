// Desks: places from which other threads read blocks of a replica's keeper.
ghost use Rattle.std.specs.Prelude.{◌≡◌, ⊤, true, false, None, IfErr, IfOk};
ghost use Rattle.mc_keep.specs.Plan.{DeskAsPlanned};
ghost use Rattle.mc_plan.specs.Desks.{kept_result};
ghost use Rattle.mc_core.specs.Exact.{DecidesAlone, RestSame, front_of, stop_front};
ghost use Rattle.mc_plan.specs.Refusals.{is_fault};
ghost use Rattle.mc_core.specs.Words.{Answers, ContinuesApart, TellsSame};

use crate::Replica;
use mc_keep::{KeepError, Keeper};
use mc_model::kept_is_durable;
use mc_plan::CoreError;
use std::alloc::Global;

impl<K: Keeper> Replica<K> {
    /// Makes a desk of the replica's keeper, which has not failed yet. Nothing else changes. Refusals: `Stopped`.
    pub fn desk(&mut self, alloc: Global) -> Result<K::Desk, CoreError>
        ensures call { Answers K.Keeper (λ kept desk. ⊤) result self.old self.new }
        ensures keeps { ContinuesApart K.Keeper (is_fault result) self.old self.new }
        ensures front { front_of result ≡ stop_front self.old.stopped None }
        ensures seen { IfErr result DecidesAlone }
        ensures rest { RestSame self.old self.new }
        ensures same { TellsSame K.Keeper self.old self.new }
        ensures fresh { IfOk result (λ desk. K.Desk.faults desk ≡ 0) }
        ensures quiet_desk { K.quiet self.old.keeper ≡ true → IfOk result (λ desk. K.quiet_desk desk ≡ true) }
        ensures planned { self.old.stopped ≡ false → DeskAsPlanned K.desk_schedule
            (K.schedule self.old.keeper) (K.schedule self.new.keeper) (kept_result result) }
    {
        kept_is_durable();
        if self.stopped {
            return Err(CoreError::Stopped);
        }
        match self.keeper.desk(alloc) {
            Ok(desk) => Ok(desk),
            Err(KeepError::Failed) => {
                self.stopped = true;
                Err(CoreError::KeeperFault)
            }
            Err(KeepError::Memory) => Err(CoreError::Memory),
        }
    }
}
