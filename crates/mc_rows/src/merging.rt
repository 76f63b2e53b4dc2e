// The rows by which a keeper takes up further blocks.
ghost use Rattle.std.specs.Prelude.{◌≡◌, ◌++◌, map, IfSome, OnOk, OnErr};
ghost use Rattle.std.specs.Ordering.{nat_cmp};
ghost use Rattle.std.specs.Cmp.Lexicographic.{slice_cmp};
ghost use Rattle.std.specs.List.Sorted.{IsStrictlySortedBy};
ghost use Rattle.mc_model.specs.Kept.{processed};
ghost use Rattle.mc_model.specs.declared.layout.Layout.TheVariants.{Two};
ghost use Rattle.mc_keep.specs.Calls.{Reads};
ghost use Rattle.mc_keep.specs.Causes.{IfTold};
ghost use Rattle.mc_keep.specs.Plan.{is_fault};
ghost use Rattle.mc_keep.specs.New.{AreNew};
ghost use Rattle.mc_keep.specs.Tables.{RowsFit};
ghost use Rattle.mc_rows.specs.Rows.{new_element_cmp, new_tomb_cmp, rows_of, tombs_of};
ghost use Rattle.mc_rows.specs.Values.{ChangesFit, change_list, value_part, winner_part};

use crate::best::TopChange;
use crate::elements::{NewElement, element_rows_from, new_elements};
use crate::keys::keys_of;
use crate::parts::TopChanges;
use crate::search::elements_with;
use crate::tombs::{NewTomb, new_tombs, tomb_rows_from};
use crate::values::change_of;
use mc_keep::{Changes, KeepError, Keeper};
use mc_model::Block;
use std::alloc::{AllocError, Global};

/// Gives the changes the element, tombstone, value and winner rows by which the keeper, once these blocks are
/// processed too, has the rows of all its blocks: every element, every tombstone that it does not have, each once,
/// and the value and the winner of each key whose greatest live element is another one now, or stands in another
/// block. That the rows are those is promised where the blocks are distinct and none is processed. Such rows as the
/// changes had are no longer there.
///
/// Over every keeper the answer is `Failed` exactly where a read of the keeper failed, which then was the last one; on
/// a refusal (that, or want of memory) the changes stay as they were.
pub fn merge<K: Keeper>(
    keeper: &mut K,
    alloc: Global,
    blocks: &[Block],
    changes: &mut Changes,
) -> Result<(), KeepError>
    requires two { K.layout keeper.old ≡ Two }
    ensures fit { OnOk result (IfSome (K.told keeper.old) (λ kept.
        AreNew kept blocks.now → RowsFit (processed kept) blocks.now changes.new)) }
    ensures others { changes.new ≡ record changes.old {
      elements = changes.new.elements;
      tombs = changes.new.tombs;
      values = changes.new.values;
      winners = changes.new.winners;
    } }
    ensures refused { OnErr result (changes.new ≡ changes.old) }
    ensures reads { Reads K.Keeper (is_fault result) keeper.old keeper.new }
{
    let elements = new_elements(alloc, blocks)?;
    let tombs = new_tombs(keeper, alloc, blocks)?;
    let keys = keys_of(alloc, elements.as_slice(), tombs.as_slice())?;
    let tops = top_changes(
        keeper,
        alloc,
        keys.as_slice(),
        elements.as_slice(),
        tombs.as_slice(),
    )?;
    let element_rows = element_rows_from(alloc, elements.as_slice())?;
    let tomb_rows = tomb_rows_from(alloc, tombs.as_slice())?;
    let TopChanges { values, winners } = tops;
    changes.elements = element_rows;
    changes.tombs = tomb_rows;
    changes.values = values;
    changes.winners = winners;
    Ok(())
}

// The changes of the values of these keys and of the blocks that give them.
fn top_changes<K: Keeper>(
    keeper: &mut K,
    alloc: Global,
    keys: &[&str],
    elements: &[NewElement<'_>],
    tombs: &[NewTomb<'_>],
) -> Result<TopChanges, KeepError>
    requires two { K.layout keeper.old ≡ Two }
    requires keys { IsStrictlySortedBy (λ x y. slice_cmp nat_cmp x.now y.now) keys.now }
    requires elements { IsStrictlySortedBy new_element_cmp elements.now }
    requires tombs { IsStrictlySortedBy new_tomb_cmp tombs.now }
    ensures fit { IfTold (K.told keeper.old) result (λ kept tops.
        ChangesFit (processed kept) (rows_of elements.now) (tombs_of tombs.now) keys.now tops) }
    ensures reads { Reads K.Keeper (is_fault result) keeper.old keeper.new }
{
    let mut tops = TopChanges::with_capacity(alloc, keys.len())?;
    let mut at = 0;
    for key in keys {
        let (own, next) = elements_with(elements, *key, at);
        at = next;
        let change = change_of(keeper, alloc, *key, own, tombs)?;
        push_change(alloc, &mut tops, change)?;
    }
    Ok(tops)
}

// Adds the rows of a change, where there is one.
fn push_change(
    alloc: Global,
    tops: &mut TopChanges,
    change: Option<TopChange>,
) -> Result<(), AllocError>
    ensures values { OnOk result (tops.new.values ≡ tops.old.values ++ map value_part (change_list change)) }
    ensures winners { OnOk result (tops.new.winners ≡ tops.old.winners ++ map winner_part (change_list change)) }
{
    if let Some(change) = change {
        tops.push(alloc, change)?;
    }
    Ok(())
}
