// The blocks with a live element of a key, as a keeper tells them.
ghost use Rattle.std.specs.Prelude.{◌≡◌, ◌++◌, ◌∷◌, [], IfOk, OnOk, true, map};
ghost use Rattle.mc_model.specs.Cuts.{pairs};
ghost use Rattle.mc_model.specs.Kept.{processed};
ghost use Rattle.mc_keep.specs.Calls.{Reads};
ghost use Rattle.mc_keep.specs.Causes.{IfTold};
ghost use Rattle.mc_keep.specs.Plan.{is_fault};
ghost use Rattle.mc_write.specs.Rows.{last_rows};
ghost use Rattle.mc_write.specs.Pairs.{all_seen, row_pair, have_digests};

use crate::pair::{Pair, in_order, pair_of};
use mc_keep::{ElementRow, KeepError, Keeper};
use std::alloc::{AllocError, Global};

/// The blocks with a live element of the key, ascending by the priority, the greatest live value and the identifier.
pub(crate) fn seen_pairs<K: Keeper>(
    keeper: &mut K,
    alloc: Global,
    key: &str,
) -> Result<Vec<Pair>, KeepError>
    ensures row { IfTold (K.told keeper.old) result (λ kept found.
        all_seen found.items ≡ pairs (processed kept) key.now) }
    ensures digests { IfOk result (λ found. have_digests (all_seen found.items) ≡ true) }
    ensures reads { Reads K.Keeper (is_fault result) keeper.old keeper.new }
{
    let rows = keeper.live_elements(alloc, key)?;
    let rows = last_of_blocks(rows.into_vec());
    let pairs = pairs_of(alloc, rows)?;
    Ok(in_order(pairs))
}

// The last row of each block, which has the block's greatest value, of rows that ascend.
fn last_of_blocks(rows: Vec<ElementRow>) -> Vec<ElementRow>
    ensures { result.items ≡ last_rows rows.items }
{
    let mut rows = rows;
    rows.reverse();
    rows.dedup_by(|a, b| a.priority == b.priority && a.cid == b.cid);
    rows
}

// The pairs of the rows.
fn pairs_of(alloc: Global, rows: Vec<ElementRow>) -> Result<Vec<Pair>, AllocError>
    ensures pairs { IfOk result (λ found. all_seen found.items ≡ map row_pair rows.items) }
    ensures digests { IfOk result (λ found. have_digests (all_seen found.items) ≡ true) }
{
    let mut pairs = Vec::new(alloc);
    for row in rows {
        push_pair(&mut pairs, row)?;
    }
    Ok(pairs)
}

// Adds the pair of a row.
pub(crate) fn push_pair(pairs: &mut Vec<Pair>, row: ElementRow) -> Result<(), AllocError>
    ensures pairs { OnOk result (all_seen pairs.new.items ≡ all_seen pairs.old.items ++ row_pair row ∷ []) }
    ensures digests { OnOk result (have_digests (all_seen pairs.old.items) ≡ true →
        have_digests (all_seen pairs.new.items) ≡ true) }
{
    pairs.push(pair_of(row))?;
    Ok(())
}
