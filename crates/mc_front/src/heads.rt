// The new heads of a group of blocks.
ghost use Rattle.std.specs.Prelude.{◌≡◌};
ghost use Rattle.std.specs.Result.{is_err};
ghost use Rattle.mc_model.specs.Kept.{processed};
ghost use Rattle.mc_keep.specs.Calls.{Reads};
ghost use Rattle.mc_keep.specs.Causes.{IfTold};
ghost use Rattle.mc_keep.specs.Plan.{is_fault};
ghost use Rattle.mc_front.specs.Steps.{leads_to, rows_of_heads};
ghost use Rattle.mc_front.specs.Front.{head_row};
ghost use Rattle.mc_front.specs.Distinct.{cids_in};

use crate::adding::add;
use crate::distinct::Distinct;
use mc_base::{Cid, Failed, List};
use mc_keep::{HeadRow, KeepError, Keeper};
use mc_model::Block;
use std::alloc::Global;

// The blocks to which neither a processed block nor one of the links leads.
pub(crate) fn new_heads<K: Keeper>(
    keeper: &mut K,
    alloc: Global,
    blocks: &[Block],
    links: &Distinct<'_>,
) -> Result<List<HeadRow>, KeepError>
    ensures heads { IfTold (K.told keeper.old) result (λ kept heads.
        heads ≡ rows_of_heads (processed kept) (cids_in links.now) blocks.now) }
    ensures reads { Reads K.Keeper (is_fault result) keeper.old keeper.new }
{
    let mut heads = List::new(alloc);
    for block in blocks {
        if !is_led_to(keeper, links, &block.cid)? {
            add(&mut heads, head_of(block))?;
        }
    }
    Ok(heads)
}

fn head_of(block: &Block) -> HeadRow
    ensures { result ≡ head_row block.now }
{
    HeadRow {
        cid: block.cid,
        height: block.delta.priority,
    }
}

fn is_led_to<K: Keeper>(keeper: &mut K, links: &Distinct<'_>, cid: &Cid) -> Result<bool, Failed>
    ensures found { IfTold (K.told keeper.old) result (λ kept found.
        found ≡ leads_to (processed kept) (cids_in links.now) cid.now) }
    ensures reads { Reads K.Keeper (is_err result) keeper.old keeper.new }
{
    if links.contains(cid) {
        return Ok(true);
    }
    keeper.linked(cid)
}
