// The deltas of a delete.
ghost use Rattle.std.specs.Prelude.{IfSome, IfErr};
ghost use Rattle.mc_model.specs.Cuts.{IsCuts, pairs};
ghost use Rattle.mc_model.specs.Kept.{processed};
ghost use Rattle.mc_model.specs.Made.{head_cids, next_priority};
ghost use Rattle.mc_keep.specs.Calls.{Reads};
ghost use Rattle.mc_keep.specs.Causes.{IfTold};
ghost use Rattle.mc_write.specs.Cutting.{CutsRefused};
ghost use Rattle.mc_write.specs.Refusals.{is_fault};

use crate::WriteError;
use crate::cut::{cut, next_priority};
use crate::length::links_len;
use crate::seen::seen_pairs;
use mc_base::List;
use mc_keep::Keeper;
use mc_key::Key;
use mc_model::Delta;
use std::alloc::Global;

/// The deltas of a delete of the key: tombstones for the processed blocks with a live element of it, cut so that each
/// block has as many as it has room for. The first block links to the heads, each later one to the block before alone,
/// and the priorities ascend by one. No deltas where no element is live, whatever the heads are.
///
/// `PriorityFull` where a priority would pass `u64::MAX`; `BlockTooLarge` where a priority is left for the first block,
/// and it is too large with one tombstone already. Nothing is changed.
pub fn delete_deltas<K: Keeper>(
    keeper: &mut K,
    alloc: Global,
    key: &Key<'_>,
) -> Result<List<Delta>, WriteError>
    ensures cuts { IfTold (K.told keeper.old) result (λ kept deltas.
        IsCuts (head_cids (processed kept)) (next_priority (processed kept)) key.now
        (pairs (processed kept) key.now) deltas) }
    ensures refused { IfSome (K.told keeper.old) (λ kept. IfErr result (λ error.
        CutsRefused (head_cids (processed kept)) (next_priority (processed kept)) key.now
        (pairs (processed kept) key.now) error)) }
    ensures reads { Reads K.Keeper (is_fault result) keeper.old keeper.new }
{
    let pairs = seen_pairs(keeper, alloc, key.as_str())?;
    if pairs.is_empty() {
        return Ok(List::new(alloc));
    }
    let heads = keeper.heads(alloc)?;
    let links = links_len(heads.as_slice());
    let priority = next_priority(heads.as_slice());
    let deltas = cut(alloc, links, priority, key, pairs.as_slice())?;
    Ok(deltas)
}
