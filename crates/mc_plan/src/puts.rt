// Puts, up to their commits.
ghost use Rattle.mc_keep.specs.Calls.{Reads};
ghost use Rattle.std.specs.Prelude.{◌≡◌, ◌≤◌, [], None, Some, false, IfOk, IfSome, IfErr, OnOk};
ghost use Rattle.mc_model.specs.declared.layout.Layout.TheVariants.{Two};
ghost use Rattle.mc_keep.specs.Causes.{IfTold};
ghost use Rattle.mc_plan.specs.Exact.{front_of, put_front};
ghost use Rattle.mc_plan.specs.Uptakes.{IsShaped, uptake_rows};
ghost use Rattle.mc_plan.specs.Puts.{IsPlanned, next_links, delta_of_put, put_made_refusal, put_kept_refusal};
ghost use Rattle.mc_plan.specs.Refusals.{Is, IsDue, is_fault, key_refusal, value_refusal};

use crate::CoreError;
use crate::made::{Planned, next_block, plan_made};
use crate::sound::is_sound;
use mc_keep::Keeper;
use mc_key::Key;
use mc_model::kept_is_durable;
use mc_write::put_delta;
use std::alloc::Global;

const VALUE_MAX: usize = 262_144;

/// The text as a key.
pub fn check_key(text: &str) -> Result<Key<'_>, CoreError>
    ensures key { IfOk result (λ key. key ≡ text.now) }
    ensures ok { OnOk result (key_refusal text.now ≡ None) }
    ensures front { front_of result ≡ key_refusal text.now }
    ensures no_fault { is_fault result ≡ false }
    ensures refused { IfErr result (λ error. key_refusal text.now ≡ Some error) }
{
    match Key::read(text) {
        Ok(key) => Ok(key),
        Err(fault) => Err(CoreError::BadKey { fault }),
    }
}

pub fn check_value(value: &[u8]) -> Result<(), CoreError>
    ensures ok { OnOk result (value_refusal value.now ≡ None) }
    ensures front { front_of result ≡ value_refusal value.now }
    ensures no_fault { is_fault result ≡ false }
    ensures refused { IfErr result (λ error. value_refusal value.now ≡ Some error) }
{
    if value.len() > VALUE_MAX {
        return Err(CoreError::ValueTooLong);
    }
    Ok(())
}

// Plans a put of a key and a value that may be put.
fn plan_made_put<K: Keeper>(
    keeper: &mut K,
    alloc: Global,
    key: &Key<'_>,
    value: &[u8],
    whole: bool,
) -> Result<Planned, CoreError>
    requires two { K.layout keeper.old ≡ Two }
    ensures allowed { IfTold (K.told keeper.old) result (λ kept planned.
        put_made_refusal kept key.now value.now ≡ None) }
    ensures planned { IfTold (K.told keeper.old) result (λ kept planned.
        IsPlanned kept whole (next_links kept) (delta_of_put kept key.now value.now) planned) }
    ensures front { front_of result ≡ None }
    ensures refused { IfSome (K.told keeper.old) (λ kept.
        IfErr result (IsDue (Is (put_made_refusal kept key.now value.now)))) }
    ensures shape { IfOk result (λ planned. IsShaped planned.uptake) }
    ensures links { IfOk result (λ planned. planned.uptake.after.links ≡ []) }
    ensures same { IfOk result (λ planned. planned.uptake.after.cid ≡ planned.written.cid) }
    ensures room { IfOk result (λ planned. uptake_rows planned.uptake ≤ K.spare keeper.new) }
    ensures reads { Reads K.Keeper (is_fault result) keeper.old keeper.new }
{
    is_sound(keeper);
    kept_is_durable();
    let next = next_block(keeper, alloc)?;
    let delta = put_delta(alloc, key, value, next.priority)?;
    plan_made(keeper, alloc, next.links, delta, whole)
}

/// Plans a put, and takes all the memory that it needs.
pub fn plan_put<K: Keeper>(
    keeper: &mut K,
    alloc: Global,
    key: &str,
    value: &[u8],
    whole: bool,
) -> Result<Planned, CoreError>
    requires two { K.layout keeper.old ≡ Two }
    ensures allowed { IfTold (K.told keeper.old) result (λ kept planned.
        put_kept_refusal kept key.now value.now ≡ None) }
    ensures planned { IfTold (K.told keeper.old) result (λ kept planned.
        IsPlanned kept whole (next_links kept) (delta_of_put kept key.now value.now) planned) }
    ensures front { front_of result ≡ put_front key.now value.now }
    ensures refused { IfSome (K.told keeper.old) (λ kept.
        IfErr result (IsDue (Is (put_kept_refusal kept key.now value.now)))) }
    ensures shape { IfOk result (λ planned. IsShaped planned.uptake) }
    ensures links { IfOk result (λ planned. planned.uptake.after.links ≡ []) }
    ensures same { IfOk result (λ planned. planned.uptake.after.cid ≡ planned.written.cid) }
    ensures room { IfOk result (λ planned. uptake_rows planned.uptake ≤ K.spare keeper.new) }
    ensures reads { Reads K.Keeper (is_fault result) keeper.old keeper.new }
{
    let key = check_key(key)?;
    check_value(value)?;
    plan_made_put(keeper, alloc, &key, value, whole)
}
