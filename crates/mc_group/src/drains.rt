// The calls on an inbox are drains of the wanted blocks.
ghost use Rattle.std.specs.Prelude.{ℕ, List, Result};
ghost use Rattle.mc_base.specs.Causes.{Rose};
ghost use Rattle.mc_model.specs.Draining.{FoundBytes};
ghost use Rattle.mc_model.specs.declared.block.Stored.{Stored};
ghost use Rattle.mc_inbox.specs.Groups.{AreOffered};
ghost use Rattle.mc_plan.specs.declared.error.CoreError.{CoreError};
ghost use Rattle.mc_plan.specs.Calls.{Call, Stays};
ghost use Rattle.mc_plan.specs.Drained.{CallDrains, DrainsOn};
ghost use Rattle.mc_plan.specs.Events.{HappensIn, ReplicaState};
ghost use Rattle.mc_plan.specs.Reads.{read_refusal};
ghost use Rattle.mc_plan.specs.Refusals.{Is};
ghost use Rattle.mc_group.specs.declared.grouped.Grouped.{Grouped};
ghost use Rattle.mc_group.specs.Inboxes.{GroupEvents, given_back};

use mc_inbox::groups_are_drains;
use mc_model::{found_drains_go_on, recall_gives_back};

/// What the calls on an inbox do, by their clauses, is a drain of the wanted blocks, unless the keeper failed: where a
/// drain that began anywhere has come to the state before the call, it has come to the state after it. A commit asks
/// that the bytes of its blocks are those that are found for them.
pub fn calls_on_an_inbox_drain()
    ensures grouped { (bytes_of : FoundBytes) (items : List Stored) (before now : ℕ)
        (result : Result Grouped CoreError) (s new : ReplicaState) → AreOffered bytes_of items →
        Call (Is (read_refusal s)) (GroupEvents s items) (Stays s) (Rose before now) result s new →
        CallDrains bytes_of result s new }
    ensures given_back { (bytes_of : FoundBytes) (items : List Stored) (s new : ReplicaState) →
        HappensIn s.state.run (λ run. given_back run.queue items) s new → DrainsOn bytes_of s new }
{
    found_drains_go_on();
    groups_are_drains();
    recall_gives_back();
}
