// What a replica wants.
ghost use Rattle.std.specs.Prelude.{◌≡◌, ◌≤◌, ◌⊎◌, ◌++◌, ◌∷◌, [], length, filter, not, IfOk, OnOk};
ghost use Rattle.std.specs.Result.{is_err};
ghost use Rattle.mc_keep.specs.Calls.{Reads};
ghost use Rattle.mc_keep.specs.Causes.{IfTold};
ghost use Rattle.mc_keep.specs.Plan.{is_fault};
ghost use Rattle.mc_model.specs.Graph.{has};
ghost use Rattle.mc_queue.specs.Views.{shown, spare};
ghost use Rattle.mc_plan.specs.Hears.{AreSome};
ghost use Rattle.mc_plan.specs.Uptakes.{open_links, wants};

use crate::made::is_processed;
use mc_base::{Cid, Failed, List};
use mc_keep::{KeepError, Keeper};
use mc_model::Block;
use mc_queue::Queue;
use std::alloc::{AllocError, Global};

/// These blocks are wanted, each unless it is. Takes no memory.
pub fn want_links(queue: &mut Queue, links: &[Cid])
    requires room { length links.now ≤ spare queue.old }
    ensures queue { shown queue.new ≡ wants (shown queue.old) links.now }
{
    for link in links {
        let _came = queue.want(*link, false);
    }
}

// The links of a block that are not processed once it is.
pub(crate) fn open_links<K: Keeper>(
    keeper: &mut K,
    alloc: Global,
    block: &Block,
) -> Result<List<Cid>, KeepError>
    ensures links { IfTold (K.told keeper.old) result (λ kept links. links ≡ open_links kept block.now) }
    ensures reads { Reads K.Keeper (is_fault result) keeper.old keeper.new }
{
    open_among(keeper, alloc, &block.cid, block.links.as_slice())
}

// Of these blocks those that are not processed once this one is.
fn open_among<K: Keeper>(
    keeper: &mut K,
    alloc: Global,
    cid: &Cid,
    links: &[Cid],
) -> Result<List<Cid>, KeepError>
    ensures left { IfTold (K.told keeper.old) result (λ kept left.
        left ≡ filter (λ c. not (has c (kept.order ++ cid.now ∷ []))) links.now) }
    ensures reads { Reads K.Keeper (is_fault result) keeper.old keeper.new }
{
    let mut left = List::new(alloc);
    for link in links {
        if is_open(keeper, cid, link)? {
            add(&mut left, *link)?;
        }
    }
    Ok(left)
}

fn is_open<K: Keeper>(keeper: &mut K, cid: &Cid, link: &Cid) -> Result<bool, Failed>
    ensures wanted { IfTold (K.told keeper.old) result (λ kept wanted.
        wanted ≡ not (has link.now (kept.order ++ cid.now ∷ []))) }
    ensures reads { Reads K.Keeper (is_err result) keeper.old keeper.new }
{
    let processed = is_processed(keeper, link)?;
    Ok(!processed && link != cid)
}

// Of these blocks those that are not processed.
pub(crate) fn unprocessed<K: Keeper>(
    keeper: &mut K,
    alloc: Global,
    cids: &[Cid],
) -> Result<List<Cid>, KeepError>
    ensures left { IfTold (K.told keeper.old) result (λ kept left.
        left ≡ filter (λ c. not (has c kept.order)) cids.now) }
    ensures some { IfOk result (AreSome cids.now) }
    ensures reads { Reads K.Keeper (is_fault result) keeper.old keeper.new }
{
    let mut left = List::new(alloc);
    for cid in cids {
        add_unprocessed(keeper, &mut left, cid)?;
    }
    Ok(left)
}

// The block comes behind these, where it is not processed.
fn add_unprocessed<K: Keeper>(
    keeper: &mut K,
    left: &mut List<Cid>,
    cid: &Cid,
) -> Result<(), KeepError>
    ensures left { IfTold (K.told keeper.old) result (λ kept done.
        left.new ≡ left.old ++ filter (λ c. not (has c kept.order)) (cid.now ∷ [])) }
    ensures some { OnOk result ((left.new ≡ left.old) ⊎ (left.new ≡ left.old ++ cid.now ∷ [])) }
    ensures reads { Reads K.Keeper (is_fault result) keeper.old keeper.new }
{
    if is_unprocessed(keeper, cid)? {
        add(left, *cid)?;
    }
    Ok(())
}

fn is_unprocessed<K: Keeper>(keeper: &mut K, cid: &Cid) -> Result<bool, Failed>
    ensures left { IfTold (K.told keeper.old) result (λ kept left. left ≡ not (has cid.now kept.order)) }
    ensures reads { Reads K.Keeper (is_err result) keeper.old keeper.new }
{
    Ok(!is_processed(keeper, cid)?)
}

fn add(cids: &mut List<Cid>, cid: Cid) -> Result<(), AllocError>
    ensures ok { OnOk result (cids.new ≡ cids.old ++ cid ∷ []) }
{
    cids.push(cid)?;
    Ok(())
}
