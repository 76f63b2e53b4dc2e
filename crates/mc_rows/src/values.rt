// The new value of one key, with its block.
ghost use Rattle.std.specs.Prelude.{◌≡◌, false, true, IfOk, IfSome};
ghost use Rattle.std.specs.List.Sorted.{IsStrictlySortedBy};
ghost use Rattle.mc_model.specs.Kept.{processed};
ghost use Rattle.mc_model.specs.Who.{top_row};
ghost use Rattle.mc_model.specs.declared.layout.Layout.TheVariants.{Two};
ghost use Rattle.mc_keep.specs.Calls.{Reads};
ghost use Rattle.mc_keep.specs.Causes.{IfTold};
ghost use Rattle.mc_keep.specs.Plan.{is_fault};
ghost use Rattle.mc_rows.specs.Rows.{new_tomb_cmp, rows_of, tombs_of};
ghost use Rattle.mc_rows.specs.Hiding.{is_top_hidden, row_from};
ghost use Rattle.mc_rows.specs.Values.{placed_best, placed_top, ChangesTo, IsChange};

use crate::best::{Best, Top, TopChange, best_of, is_unchanged};
use crate::elements::NewElement;
use crate::live::{best_of_old, best_with_new, is_named};
use crate::tombs::NewTomb;
use mc_base::{Bytes, Failed, Text};
use mc_keep::{KeepError, Keeper, RankedValue};
use std::alloc::{AllocError, Global};

// The change of a key's value and its block by these new elements of it and the new tombstones, or none where both
// stay.
pub(crate) fn change_of<K: Keeper>(
    keeper: &mut K,
    alloc: Global,
    key: &str,
    elements: &[NewElement<'_>],
    tombs: &[NewTomb<'_>],
) -> Result<Option<TopChange>, KeepError>
    requires two { K.layout keeper.old ≡ Two }
    requires tombs { IsStrictlySortedBy new_tomb_cmp tombs.now }
    ensures change { IfTold (K.told keeper.old) result (λ kept change.
        IsChange key.now (top_row (processed kept) key.now)
        (row_from (processed kept) (rows_of elements.now) (tombs_of tombs.now) key.now) change) }
    ensures reads { Reads K.Keeper (is_fault result) keeper.old keeper.new }
{
    let old = top_of(keeper, alloc, key)?;
    if is_hidden_anew(alloc, key, tombs, &old)? {
        return change_anew(keeper, alloc, key, elements, tombs, &old);
    }
    change_on(keeper, alloc, key, elements, tombs, &old)
}

// The value of a key and the block that gives it.
fn top_of<K: Keeper>(keeper: &mut K, alloc: Global, key: &str) -> Result<Option<Top>, KeepError>
    requires two { K.layout keeper.old ≡ Two }
    ensures top { IfTold (K.told keeper.old) result (λ kept top.
        placed_top top ≡ top_row (processed kept) key.now) }
    ensures reads { Reads K.Keeper (is_fault result) keeper.old keeper.new }
{
    let Some(value) = keeper.value(alloc, key)? else {
        return Ok(None);
    };
    match keeper.winner(key) {
        Ok(Some(cid)) => Ok(Some(Top { value, cid })),
        Ok(None) => Ok(None),
        Err(Failed) => Err(KeepError::Failed),
    }
}

// Whether a new tombstone hides the block that gives the key its value. Where it says no, that value still counts
// among the old rows.
fn is_hidden_anew(
    alloc: Global,
    key: &str,
    tombs: &[NewTomb<'_>],
    old: &Option<Top>,
) -> Result<bool, AllocError>
    requires tombs { IsStrictlySortedBy new_tomb_cmp tombs.now }
    ensures { IfOk result (λ hidden. hidden ≡ is_top_hidden (tombs_of tombs.now) key.now (placed_top old.now)) }
{
    match old {
        Some(old) => is_named(alloc, key, &old.cid, tombs),
        None => Ok(false),
    }
}

// The change where a new tombstone hides what was the value: all live rows of the key are looked at. Nothing else reads
// them.
fn change_anew<K: Keeper>(
    keeper: &mut K,
    alloc: Global,
    key: &str,
    elements: &[NewElement<'_>],
    tombs: &[NewTomb<'_>],
    old: &Option<Top>,
) -> Result<Option<TopChange>, KeepError>
    requires tombs { IsStrictlySortedBy new_tomb_cmp tombs.now }
    requires old { IfSome (K.told keeper.old) (λ kept. placed_top old.now ≡ top_row (processed kept) key.now) }
    requires hides { is_top_hidden (tombs_of tombs.now) key.now (placed_top old.now) ≡ true }
    ensures change { IfTold (K.told keeper.old) result (λ kept change.
        IsChange key.now (top_row (processed kept) key.now)
        (row_from (processed kept) (rows_of elements.now) (tombs_of tombs.now) key.now) change) }
    ensures reads { Reads K.Keeper (is_fault result) keeper.old keeper.new }
{
    let rows = keeper.live_elements(alloc, key)?;
    let best = best_of_old(alloc, key, rows.as_slice(), tombs)?;
    let found = best_with_new(keeper, alloc, key, elements, tombs, best)?;
    Ok(change_to(alloc, key, old, found)?)
}

// The change where what counted stands against the new elements.
fn change_on<K: Keeper>(
    keeper: &mut K,
    alloc: Global,
    key: &str,
    elements: &[NewElement<'_>],
    tombs: &[NewTomb<'_>],
    old: &Option<Top>,
) -> Result<Option<TopChange>, KeepError>
    requires tombs { IsStrictlySortedBy new_tomb_cmp tombs.now }
    requires old { IfSome (K.told keeper.old) (λ kept. placed_top old.now ≡ top_row (processed kept) key.now) }
    requires stands { is_top_hidden (tombs_of tombs.now) key.now (placed_top old.now) ≡ false }
    ensures change { IfTold (K.told keeper.old) result (λ kept change.
        IsChange key.now (top_row (processed kept) key.now)
        (row_from (processed kept) (rows_of elements.now) (tombs_of tombs.now) key.now) change) }
    ensures reads { Reads K.Keeper (is_fault result) keeper.old keeper.new }
{
    let best = best_of(old);
    let found = best_with_new(keeper, alloc, key, elements, tombs, best)?;
    Ok(change_to(alloc, key, old, found)?)
}

fn change_to(
    alloc: Global,
    key: &str,
    old: &Option<Top>,
    best: Option<Best<'_>>,
) -> Result<Option<TopChange>, AllocError>
    ensures { IfOk result (λ change. IsChange key.now (placed_top old.now) (placed_best best.entry) change) }
{
    if is_unchanged(old, best) {
        return Ok(None);
    }
    Ok(Some(change_with(alloc, key, best)?))
}

fn change_with(alloc: Global, key: &str, best: Option<Best<'_>>) -> Result<TopChange, AllocError>
    ensures { IfOk result (λ change. ChangesTo key.now (placed_best best.entry) change) }
{
    match best {
        Some(best) => Ok(TopChange {
            key: Text::from_text(alloc, key)?,
            top: Some(top_with(alloc, best)?),
        }),
        None => Ok(TopChange {
            key: Text::from_text(alloc, key)?,
            top: None,
        }),
    }
}

fn top_with(alloc: Global, best: Best<'_>) -> Result<Top, AllocError>
    ensures { IfOk result (λ top. (top.value.priority ≡ best.entry.priority)
        × (top.value.value ≡ best.entry.value.now) × (top.cid ≡ best.entry.cid.now)) }
{
    Ok(Top {
        value: RankedValue {
            priority: best.priority,
            value: Bytes::from_slice(alloc, best.value)?,
        },
        cid: *best.cid,
    })
}
