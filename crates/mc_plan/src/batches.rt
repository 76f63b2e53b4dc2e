// The block of a batch, up to its commits.
ghost use Rattle.mc_keep.specs.Calls.{Reads};
ghost use Rattle.std.specs.Prelude.{◌≡◌, ◌≤◌, [], None, IfOk, IfSome, IfErr};
ghost use Rattle.mc_model.specs.declared.layout.Layout.TheVariants.{Two};
ghost use Rattle.mc_keep.specs.Causes.{IfTold};
ghost use Rattle.mc_plan.specs.Batches.{batch_made_refusal};
ghost use Rattle.mc_plan.specs.Batches.{delta_of_batch};
ghost use Rattle.mc_plan.specs.Exact.{front_of};
ghost use Rattle.mc_plan.specs.Uptakes.{IsShaped, uptake_rows};
ghost use Rattle.mc_plan.specs.Puts.{IsPlanned, next_links};
ghost use Rattle.mc_plan.specs.Refusals.{Is, IsDue, is_fault};

use crate::CoreError;
use crate::made::{Planned, next_block, plan_made};
use crate::sound::is_sound;
use mc_keep::Keeper;
use mc_model::kept_is_durable;
use mc_write::Batch;
use std::alloc::Global;

/// Plans to take up the block of a batch, and takes all the memory that it needs.
pub fn plan_batch<K: Keeper>(
    keeper: &mut K,
    alloc: Global,
    batch: &Batch,
    whole: bool,
) -> Result<Planned, CoreError>
    requires two { K.layout keeper.old ≡ Two }
    ensures allowed { IfTold (K.told keeper.old) result (λ kept planned. batch_made_refusal kept batch.now ≡ None) }
    ensures planned { IfTold (K.told keeper.old) result (λ kept planned.
        IsPlanned kept whole (next_links kept) (delta_of_batch kept batch.now) planned) }
    ensures front { front_of result ≡ None }
    ensures refused { IfSome (K.told keeper.old) (λ kept.
        IfErr result (IsDue (Is (batch_made_refusal kept batch.now)))) }
    ensures shape { IfOk result (λ planned. IsShaped planned.uptake) }
    ensures links { IfOk result (λ planned. planned.uptake.after.links ≡ []) }
    ensures same { IfOk result (λ planned. planned.uptake.after.cid ≡ planned.written.cid) }
    ensures room { IfOk result (λ planned. uptake_rows planned.uptake ≤ K.spare keeper.new) }
    ensures reads { Reads K.Keeper (is_fault result) keeper.old keeper.new }
{
    is_sound(keeper);
    kept_is_durable();
    let next = next_block(keeper, alloc)?;
    let delta = batch.delta(alloc, next.priority)?;
    plan_made(keeper, alloc, next.links, delta, whole)
}
