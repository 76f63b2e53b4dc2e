// The new links of a group of blocks, and those of them that were heads.
ghost use Rattle.std.specs.Prelude.{◌≡◌, filter};
ghost use Rattle.std.specs.Result.{is_err};
ghost use Rattle.mc_model.specs.Front.{is_among};
ghost use Rattle.mc_model.specs.Kept.{processed};
ghost use Rattle.mc_keep.specs.Calls.{Reads};
ghost use Rattle.mc_keep.specs.Causes.{IfTold};
ghost use Rattle.mc_keep.specs.Plan.{is_fault};
ghost use Rattle.mc_front.specs.Steps.{unlinked};

use crate::adding::add;
use mc_base::{Cid, Failed, List};
use mc_keep::{KeepError, Keeper};
use std::alloc::Global;

// Those of the links that no processed block has.
pub(crate) fn new_links<K: Keeper>(
    keeper: &mut K,
    alloc: Global,
    links: &[Cid],
) -> Result<List<Cid>, KeepError>
    ensures new { IfTold (K.told keeper.old) result (λ kept new. new ≡ unlinked (processed kept) links.now) }
    ensures reads { Reads K.Keeper (is_fault result) keeper.old keeper.new }
{
    let mut new = List::with_capacity(alloc, links.len())?;
    for link in links {
        if !keeper.linked(link)? {
            add(&mut new, *link)?;
        }
    }
    Ok(new)
}

// Those of the new links that are processed: no block linked to them, so they were heads.
pub(crate) fn old_heads<K: Keeper>(
    keeper: &mut K,
    alloc: Global,
    links: &[Cid],
) -> Result<List<Cid>, KeepError>
    ensures old { IfTold (K.told keeper.old) result (λ kept old. old ≡ filter (is_among kept.order) links.now) }
    ensures reads { Reads K.Keeper (is_fault result) keeper.old keeper.new }
{
    let mut old = List::new(alloc);
    for link in links {
        if is_processed(keeper, link)? {
            add(&mut old, *link)?;
        }
    }
    Ok(old)
}

fn is_processed<K: Keeper>(keeper: &mut K, cid: &Cid) -> Result<bool, Failed>
    ensures found { IfTold (K.told keeper.old) result (λ kept found. found ≡ is_among kept.order cid.now) }
    ensures reads { Reads K.Keeper (is_err result) keeper.old keeper.new }
{
    Ok(keeper.position(cid)?.is_some())
}
