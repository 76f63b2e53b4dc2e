// The commits that take up a group, with all their memory taken.
ghost use Rattle.std.specs.Prelude.{◌≡◌, ◌≤◌, ◌+◌, ◌++◌, ◌∷◌, [], not, map, filter, length, vec_capacity, IfOk, IfSome, OnOk};
ghost use Rattle.std.specs.Result.{is_err};
ghost use Rattle.mc_base.specs.declared.cid.Cid.{Cid as Identifier};
ghost use Rattle.mc_model.specs.declared.block.Block.{Block as Whole};
ghost use Rattle.mc_model.specs.declared.layout.Layout.TheVariants.{Two};
ghost use Rattle.mc_keep.specs.Calls.{Reads, Reserves};
ghost use Rattle.mc_keep.specs.Causes.{IfTold};
ghost use Rattle.mc_keep.specs.Changes.{no_changes, row_count};
ghost use Rattle.mc_keep.specs.New.{AreNew};
ghost use Rattle.mc_keep.specs.Plan.{is_fault as keeper_failed, is_fault};
ghost use Rattle.mc_model.specs.Front.{gaps, is_among};
ghost use Rattle.mc_model.specs.Graph.{has};
ghost use Rattle.mc_model.specs.Kept.{processed};
ghost use Rattle.mc_plan.specs.Uptakes.{Processes};
ghost use Rattle.mc_group.specs.Planning.{open_among, open_links};

use crate::gathering::is_in;
use crate::group::Group;
use mc_base::{Cid, Failed, List};
use mc_front::front_changes;
use mc_keep::{Changes, KeepError, Keeper};
use mc_model::{Block, Stored};
use mc_rows::merge;
use std::alloc::{AllocError, Global};

/// The commit that processes a group, with the memory of both of its commits taken: what it changes, which links are
/// wanted then, how many gaps are left, and room for what is stored.
#[derive(Drop)]
pub struct GroupPlan {
    pub process: Changes,
    pub links: List<Cid>,
    pub gaps: u64,
    pub stores: Vec<Stored>,
}

/// Plans to take up a group, and takes all the memory that the keeper needs.
pub fn plan_group<K: Keeper>(
    keeper: &mut K,
    alloc: Global,
    group: &Group,
    whole: bool,
) -> Result<GroupPlan, KeepError>
    requires two { K.layout keeper.old ≡ Two }
    requires new { IfSome (K.told keeper.old) (λ kept. AreNew kept group.now.blocks.items) }
    ensures process { IfTold (K.told keeper.old) result (λ kept plan.
        Processes kept whole group.now.blocks.items (map (λ (block : Whole). block.cid) group.now.blocks.items)
        plan.process) }
    ensures gaps { IfTold (K.told keeper.old) result (λ kept plan.
        plan.gaps ≡ length (gaps (processed kept ++ group.now.blocks.items))) }
    ensures links { IfTold (K.told keeper.old) result (λ kept plan.
        plan.links ≡ open_links kept group.now.cids.items group.now.blocks.items) }
    ensures only { IfOk result (λ plan. plan.process.store ≡ []) }
    ensures marks { IfOk result (λ plan.
        plan.process.marks ≡ map (λ (block : Whole). block.cid) group.now.blocks.items) }
    ensures stores { IfOk result (λ plan. (plan.stores.items ≡ [])
        × (length group.now.slots.items ≤ vec_capacity plan.stores)) }
    ensures room { IfOk result (λ plan.
        row_count plan.process + length group.now.slots.items ≤ K.spare keeper.new) }
    ensures reads { Reads K.Keeper (keeper_failed result) keeper.old keeper.new }
{
    let count = group.slots.as_slice().len();
    let Ok(stores) = Vec::with_capacity(alloc, count) else {
        return Err(KeepError::Memory);
    };
    let links = open_links(
        keeper,
        alloc,
        group.blocks.as_slice(),
        group.cids.as_slice(),
    )?;
    let mut process = Changes::new(alloc);
    let gaps = process_changes(
        keeper,
        alloc,
        group.blocks.as_slice(),
        whole,
        count as u64,
        &mut process,
    )?;
    Ok(GroupPlan {
        process,
        links,
        gaps,
        stores,
    })
}

// The changes that process these blocks, of which none is processed, and how many gaps they leave, with room in the
// keeper for their rows and so many more. Where `whole`, every gap is wanted.
fn process_changes<K: Keeper>(
    keeper: &mut K,
    alloc: Global,
    blocks: &[Block],
    whole: bool,
    more: u64,
    changes: &mut Changes,
) -> Result<u64, KeepError>
    requires two { K.layout keeper.old ≡ Two }
    requires none { changes.old ≡ no_changes }
    requires new { IfSome (K.told keeper.old) (λ kept. AreNew kept blocks.now) }
    ensures process { IfTold (K.told keeper.old) result (λ kept count.
        Processes kept whole blocks.now (map (λ (block : Whole). block.cid) blocks.now) changes.new) }
    ensures gaps { IfTold (K.told keeper.old) result (λ kept count.
        count ≡ length (gaps (processed kept ++ blocks.now))) }
    ensures only { IfOk result (λ count. changes.new.store ≡ []) }
    ensures marks { IfOk result (λ count. changes.new.marks ≡ map (λ (block : Whole). block.cid) blocks.now) }
    ensures room { IfOk result (λ count. row_count changes.new + more ≤ K.spare keeper.new) }
    ensures reads { Reads K.Keeper (is_fault result) keeper.old keeper.new }
{
    merge(keeper, alloc, blocks, changes)?;
    let gaps = front_changes(keeper, alloc, blocks, whole, changes)?;
    match reserve_rows(keeper, changes, more) {
        Ok(()) => Ok(gaps),
        Err(AllocError) => Err(KeepError::Memory),
    }
}

/// Takes the keeper's memory for the rows of these changes and for so many more.
pub(crate) fn reserve_rows<K: Keeper>(
    keeper: &mut K,
    changes: &Changes,
    more: u64,
) -> Result<(), AllocError>
    ensures room { OnOk result (row_count changes.now + more ≤ K.spare keeper.new) }
    ensures reserves { Reserves K.Keeper keeper.old keeper.new }
{
    let rows = changes.rows().saturating_add(more);
    if rows == u64::MAX {
        return Err(AllocError);
    }
    keeper.reserve(rows)
}

// The links of blocks that are not processed once these are, block by block.
fn open_links<K: Keeper>(
    keeper: &mut K,
    alloc: Global,
    blocks: &[Block],
    cids: &[Cid],
) -> Result<List<Cid>, KeepError>
    ensures links { IfTold (K.told keeper.old) result (λ kept links. links ≡ open_links kept cids.now blocks.now) }
    ensures reads { Reads K.Keeper (keeper_failed result) keeper.old keeper.new }
{
    let mut left = List::new(alloc);
    for block in blocks {
        add_open(keeper, &mut left, block.links.as_slice(), cids)?;
    }
    Ok(left)
}

// Of these links those come behind the others that are not processed once these blocks are.
fn add_open<K: Keeper>(
    keeper: &mut K,
    left: &mut List<Cid>,
    links: &[Cid],
    cids: &[Cid],
) -> Result<(), KeepError>
    ensures left { IfTold (K.told keeper.old) result (λ kept done.
        left.new ≡ left.old ++ open_among kept cids.now links.now) }
    ensures reads { Reads K.Keeper (keeper_failed result) keeper.old keeper.new }
{
    for link in links {
        add_link(keeper, left, link, cids)?;
    }
    Ok(())
}

fn add_link<K: Keeper>(
    keeper: &mut K,
    left: &mut List<Cid>,
    link: &Cid,
    cids: &[Cid],
) -> Result<(), KeepError>
    ensures left { IfTold (K.told keeper.old) result (λ kept done.
        left.new ≡ left.old ++ open_among kept cids.now (link.now ∷ [])) }
    ensures reads { Reads K.Keeper (keeper_failed result) keeper.old keeper.new }
{
    if is_open(keeper, link, cids)? {
        add(left, *link)?;
    }
    Ok(())
}

fn is_open<K: Keeper>(keeper: &mut K, link: &Cid, cids: &[Cid]) -> Result<bool, Failed>
    ensures wanted { IfTold (K.told keeper.old) result (λ kept wanted.
        wanted ≡ not (has link.now (kept.order ++ cids.now))) }
    ensures reads { Reads K.Keeper (is_err result) keeper.old keeper.new }
{
    let processed = is_processed(keeper, link)?;
    Ok(!processed && !is_in(cids, link))
}

fn is_processed<K: Keeper>(keeper: &mut K, cid: &Cid) -> Result<bool, Failed>
    ensures found { IfTold (K.told keeper.old) result (λ kept found. found ≡ is_among kept.order cid.now) }
    ensures reads { Reads K.Keeper (is_err result) keeper.old keeper.new }
{
    Ok(keeper.position(cid)?.is_some())
}

fn add(cids: &mut List<Cid>, cid: Cid) -> Result<(), AllocError>
    ensures { OnOk result (cids.new ≡ cids.old ++ cid ∷ []) }
{
    cids.push(cid)?;
    Ok(())
}
