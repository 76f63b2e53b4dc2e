// What holds of every replica, by the definitions.
ghost use Rattle.std.specs.Prelude.{◌≡◌, ◌↔◌, ℕ, List, Some, true, false, map, slice_get};
ghost use Rattle.mc_base.specs.Causes.{Rose};
ghost use Rattle.mc_base.specs.declared.cid.Cid.{Cid};
ghost use Rattle.mc_model.specs.declared.delta.Delta.{Delta};
ghost use Rattle.mc_model.specs.Events.{Event, GoesOn};
ghost use Rattle.mc_model.specs.Front.{Head, heads};
ghost use Rattle.mc_model.specs.Graph.{has, HasNoCycle, IsReached};
ghost use Rattle.mc_model.specs.Kept.{Kept, IsKept, processed};
ghost use Rattle.mc_model.specs.State.{IsSound, Running, durable_of, kept_of};
ghost use Rattle.mc_plan.specs.Events.{ReplicaState, Goes, Breaks};
ghost use Rattle.mc_plan.specs.Puts.{made_events, written_of};
ghost use Rattle.mc_plan.specs.Walks.{IsClean};

use mc_model::{clean_is_reach, kept_is_durable, kept_without_gaps_is_reach, order_and_store_grow};

/// No call takes a block out of the processed ones, or changes its position; nor takes one out of the stored ones, or
/// changes its bytes: whether all its events happened, or were cut short.
pub fn replicas_only_grow()
    ensures goes { (events : List Event) (s new : ReplicaState) →
        Goes events s new → GoesOn s.state.durable new.state.durable }
    ensures breaks { (events : List Event) (before now : ℕ) (s new : ReplicaState) →
        Breaks events (Rose before now) s new → GoesOn s.state.durable new.state.durable }
{
    order_and_store_grow();
}

/// A made block that was taken up stands at the position that was answered for it.
pub fn written_blocks_stand()
    ensures { (kept : Kept) (links : List Cid) (delta : Delta) (s new : ReplicaState) →
        kept ≡ kept_of s.state.durable → Goes (made_events kept links delta) s new →
        slice_get new.state.durable.order (written_of kept links delta).position
        ≡ Some (written_of kept links delta).cid }
{}

/// Where every gap counts as wanted and a replica settles clean, the mark is clear; and then, where no block leads back
/// to itself, what is processed is just what the heads reach.
pub fn clean_replicas_are_reached()
    ensures mark { (kept : Kept) (run : Running) → IsSound (record { durable = durable_of kept; run = Some run }) →
        run.whole ≡ true → IsClean kept → kept.mark ≡ false }
    ensures reached { (kept : Kept) → IsKept kept → IsClean kept → HasNoCycle (durable_of kept).graph →
        (cid : Cid) → has cid kept.order ≡ true
        ↔ IsReached (durable_of kept).graph (map (λ (head : Head). head.0) (heads (processed kept))) cid }
{
    clean_is_reach();
    kept_is_durable();
    kept_without_gaps_is_reach();
}
