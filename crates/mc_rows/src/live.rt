// The greatest of the rows of a key that no tombstone hides.
ghost use Rattle.std.specs.Prelude.{◌≡◌, fold, IfOk, Some};
ghost use Rattle.std.specs.List.Sorted.{IsStrictlySortedBy};
ghost use Rattle.mc_model.specs.Id.{id_text};
ghost use Rattle.mc_model.specs.Kept.{processed};
ghost use Rattle.mc_model.specs.Who.{higher, topmost};
ghost use Rattle.mc_keep.specs.Calls.{Reads};
ghost use Rattle.mc_keep.specs.Causes.{IfTold};
ghost use Rattle.mc_keep.specs.Changes.{has_tomb_row};
ghost use Rattle.mc_keep.specs.Plan.{is_fault};
ghost use Rattle.mc_rows.specs.Rows.{new_tomb_cmp, row_of, rows_of, tombs_of};
ghost use Rattle.mc_keep.specs.LiveRows.{place_row, place_rows};
ghost use Rattle.mc_rows.specs.Hiding.{hides};
ghost use Rattle.mc_rows.specs.LastBlock.{LastFits};
ghost use Rattle.mc_rows.specs.Values.{placed_best};

use crate::best::{Best, is_above};
use crate::elements::NewElement;
use crate::search::{has_tomb, has_tomb_with};
use crate::tombs::NewTomb;
use mc_base::Cid;
use mc_keep::{ElementRow, KeepError, Keeper};
use mc_model::id_of;
use std::alloc::{AllocError, Global};

// Whether a tombstone of the group hides the elements of the key in a block. The block's id is made only where the
// group has a tombstone of the key.
pub(crate) fn is_named(
    alloc: Global,
    key: &str,
    cid: &Cid,
    tombs: &[NewTomb<'_>],
) -> Result<bool, AllocError>
    requires sorted { IsStrictlySortedBy new_tomb_cmp tombs.now }
    ensures { IfOk result (λ named. named ≡ has_tomb_row (tombs_of tombs.now) key.now (id_text cid.now.0)) }
{
    if !has_tomb_with(tombs, key) {
        return Ok(false);
    }
    let id = id_of(alloc, cid)?;
    Ok(has_tomb(tombs, key, id.as_str()))
}

// Whether a tombstone, of the group or of a processed block, hides the elements of the key in a block.
fn is_hidden<K: Keeper>(
    keeper: &mut K,
    alloc: Global,
    key: &str,
    cid: &Cid,
    tombs: &[NewTomb<'_>],
) -> Result<bool, KeepError>
    requires sorted { IsStrictlySortedBy new_tomb_cmp tombs.now }
    ensures hidden { IfTold (K.told keeper.old) result (λ kept hidden.
        hidden ≡ hides (processed kept) (tombs_of tombs.now) key.now (id_text cid.now.0)) }
    ensures reads { Reads K.Keeper (is_fault result) keeper.old keeper.new }
{
    if is_named(alloc, key, cid, tombs)? {
        return Ok(true);
    }
    keeper.hides(alloc, key, cid)
}

// Whether a tombstone of the group hides the elements of the key in a block.
#[derive(Clone, Copy)]
pub(crate) struct LastBlock {
    pub(crate) cid: Cid,
    pub(crate) hidden: bool,
}

// Whether a tombstone of the group hides the elements of the key in a processed block. The block's id is made only
// where it is not the one that was seen last.
fn see(
    alloc: Global,
    key: &str,
    cid: &Cid,
    tombs: &[NewTomb<'_>],
    last: Option<LastBlock>,
) -> Result<LastBlock, AllocError>
    requires sorted { IsStrictlySortedBy new_tomb_cmp tombs.now }
    requires last { LastFits (tombs_of tombs.now) key.now last }
    ensures seen { IfOk result (λ seen. LastFits (tombs_of tombs.now) key.now (Some seen)) }
    ensures cid { IfOk result (λ seen. seen.cid ≡ cid.now) }
{
    if let Some(seen) = last {
        if seen.cid == *cid {
            return Ok(LastBlock {
                cid: *cid,
                hidden: seen.hidden,
            });
        }
    }
    let hidden = is_named(alloc, key, cid, tombs)?;
    Ok(LastBlock { cid: *cid, hidden })
}

// The greatest of these live rows of the key, which are of processed blocks, that no tombstone of the group hides. Just
// those above all before are looked for in the tombstones.
pub(crate) fn best_of_old<'a>(
    alloc: Global,
    key: &str,
    rows: &'a [ElementRow],
    tombs: &[NewTomb<'_>],
) -> Result<Option<Best<'a>>, AllocError>
    requires sorted { IsStrictlySortedBy new_tomb_cmp tombs.now }
    ensures best { IfOk result (λ best.
        placed_best best ≡ topmost (place_rows (has_tomb_row (tombs_of tombs.now) key.now) rows.now)) }
{
    let mut best = None;
    let mut last = None;
    for row in rows {
        best = with_old(alloc, key, row, tombs, &mut last, best)?;
    }
    Ok(best)
}

// The same with one more row.
fn with_old<'a>(
    alloc: Global,
    key: &str,
    row: &'a ElementRow,
    tombs: &[NewTomb<'_>],
    last: &mut Option<LastBlock>,
    best: Option<Best<'a>>,
) -> Result<Option<Best<'a>>, AllocError>
    requires sorted { IsStrictlySortedBy new_tomb_cmp tombs.now }
    requires last { LastFits (tombs_of tombs.now) key.now last.old }
    ensures best { IfOk result (λ found. placed_best found ≡ fold higher (placed_best best.entry)
        (place_row (has_tomb_row (tombs_of tombs.now) key.now) row.now)) }
    ensures last { LastFits (tombs_of tombs.now) key.now last.new }
{
    let next = Best {
        priority: row.priority,
        value: row.value.as_slice(),
        cid: &row.cid,
    };
    if !is_above(best, next) {
        return Ok(best);
    }
    let seen = see(alloc, key, &row.cid, tombs, *last)?;
    *last = Some(seen);
    if seen.hidden {
        return Ok(best);
    }
    Ok(Some(next))
}

// The greatest of a value and of these elements of the key, which are of blocks of the group.
pub(crate) fn best_with_new<'a, K: Keeper>(
    keeper: &mut K,
    alloc: Global,
    key: &str,
    elements: &[NewElement<'a>],
    tombs: &[NewTomb<'_>],
    best: Option<Best<'a>>,
) -> Result<Option<Best<'a>>, KeepError>
    requires sorted { IsStrictlySortedBy new_tomb_cmp tombs.now }
    ensures best { IfTold (K.told keeper.old) result (λ kept found.
        placed_best found ≡ fold higher (placed_best best.entry)
        (place_rows (hides (processed kept) (tombs_of tombs.now) key.now) (rows_of elements.now))) }
    ensures reads { Reads K.Keeper (is_fault result) keeper.old keeper.new }
{
    let mut best = best;
    for element in elements {
        best = with_new(keeper, alloc, key, element, tombs, best)?;
    }
    Ok(best)
}

// The same with one more element. Just the block of one that is above all before is looked for in the tombstones.
fn with_new<'a, K: Keeper>(
    keeper: &mut K,
    alloc: Global,
    key: &str,
    element: &NewElement<'a>,
    tombs: &[NewTomb<'_>],
    best: Option<Best<'a>>,
) -> Result<Option<Best<'a>>, KeepError>
    requires sorted { IsStrictlySortedBy new_tomb_cmp tombs.now }
    ensures best { IfTold (K.told keeper.old) result (λ kept found.
        placed_best found ≡ fold higher (placed_best best.entry)
        (place_row (hides (processed kept) (tombs_of tombs.now) key.now) (row_of element.now))) }
    ensures reads { Reads K.Keeper (is_fault result) keeper.old keeper.new }
{
    let next = Best {
        priority: element.priority(),
        value: element.value,
        cid: element.cid_of(),
    };
    if !is_above(best, next) {
        return Ok(best);
    }
    if is_hidden(keeper, alloc, key, element.cid(), tombs)? {
        return Ok(best);
    }
    Ok(Some(next))
}
