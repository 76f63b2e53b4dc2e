// A work or a repair that can't begin.
ghost use Rattle.std.specs.Prelude.{◌≡◌, ◌↔◌, ℕ, false, true, Err};
ghost use Rattle.mc_queue.specs.Views.{shown};
ghost use Rattle.mc_core.specs.Exact.{RestSame};
ghost use Rattle.mc_core.specs.Words.{Becomes, Continues};
ghost use Rattle.mc_drain.specs.Finds.{Finds};
ghost use Rattle.mc_drain.specs.Repairs.{RepairLeads};
ghost use Rattle.mc_drain.specs.Works.{GivesUp, WorkLeads};

use crate::WorkError;
use crate::jobs::recall;
use mc_core::Replica;
use mc_keep::Keeper;
use mc_model::{found_drains_go_on, found_repairs_go_on, parts_stay_right};

/// Leaves a replica as a work and a repair do that can't begin, and says why: `Stopped` comes exactly where it had
/// stopped, and changes nothing; else it is `Memory`, and all that was in flight waits again.
pub fn give_up<K: Keeper>(replica: &mut Replica<K>) -> WorkError
    ensures works { (budget : ℕ) (finds : Finds) → Becomes K.Keeper (λ rose s new.
        WorkLeads budget finds (Err result) s new) replica.old replica.new }
    ensures repairs { (budget : ℕ) (finds : Finds) → Becomes K.Keeper (λ rose s new.
        RepairLeads budget finds (Err result) s new) replica.old replica.new }
    ensures keeps { Continues K.Keeper false replica.old replica.new }
    ensures rest { RestSame replica.old replica.new }
    ensures stopped { result ≡ WorkError.Stopped ↔ replica.old.stopped ≡ true }
    ensures still { replica.old.stopped ≡ true → replica.new ≡ replica.old }
    ensures wants { GivesUp result (shown replica.new.queue) }
{
    found_drains_go_on();
    found_repairs_go_on();
    parts_stay_right();
    replica.is_sound();
    match replica.report() {
        Ok(_) => (),
        Err(_) => return WorkError::Stopped,
    }
    recall(replica);
    replica.is_sound();
    WorkError::Memory
}
