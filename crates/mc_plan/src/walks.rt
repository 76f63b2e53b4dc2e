// The steps of the repair walk, over a keeper and the wanted set, and what is settled at its end.
ghost use Rattle.std.specs.Prelude.{◌≡◌, ℕ, List, false, None, Some, IfOk, OnOk, OnErr, length};
ghost use Rattle.std.specs.Result.{is_err};
ghost use Rattle.mc_base.specs.declared.cid.Cid.{Cid as Identifier};
ghost use Rattle.mc_keep.specs.Calls.{Reads};
ghost use Rattle.mc_keep.specs.Causes.{IfTold};
ghost use Rattle.mc_keep.specs.Plan.{is_fault as keeper_failed};
ghost use Rattle.mc_queue.specs.Views.{shown};
ghost use Rattle.mc_walk.specs.Walks.{begun};
ghost use Rattle.mc_plan.specs.Uptakes.{wants};
ghost use Rattle.mc_plan.specs.Walks.{clearing, clears, open_links_at, settled_with};

use crate::counting::Numbers;
use crate::sound::is_sound;
use crate::wanting::{unprocessed, want_links};
use mc_base::{Cid, Failed, List};
use mc_block::links_of;
use mc_keep::{Changes, KeepError, Keeper};
use mc_model::kept_is_durable;
use mc_queue::Queue;
use mc_walk::Walk;
use std::alloc::Global;

/// What a step of the repair walk did.
#[derive(Clone, Copy, Debug, PartialEq, Eq)]
pub enum WalkStep {
    /// Nothing: every gap counts as wanted.
    Idle,
    /// A walk began, over the blocks that are processed at this moment.
    Begun,
    /// The block at a position was visited: its links that are not processed are wanted.
    Visited {
        /// The position in the order of processing, from 0.
        position: u64,
    },
    /// All positions were visited, and the walk has ended: every gap counts as wanted.
    Ended,
}

/// Whether gaps are left, where each of them counts as wanted.
#[derive(Clone, Copy, Debug, PartialEq, Eq)]
pub enum Settled {
    /// None is left.
    Clean,
    /// Some are left.
    Open {
        /// How many.
        gaps: u64,
    },
}

/// What is settled where so many gaps are left.
pub fn settled_with(gaps: u64) -> Settled
    ensures { result ≡ settled_with gaps }
{
    if gaps == 0 {
        return Settled::Clean;
    }
    Settled::Open { gaps }
}

/// Whether the mark is set and there is no gap.
pub fn clears(numbers: Numbers) -> bool
    ensures { result ≡ clears numbers }
{
    if numbers.gaps != 0 {
        return false;
    }
    numbers.mark
}

/// The changes that clear the mark.
pub fn clearing(alloc: Global) -> Changes
    ensures { result ≡ clearing }
{
    let mut changes = Changes::new(alloc);
    changes.mark = Some(false);
    changes
}

/// A walk over the blocks that are processed at this moment.
pub fn walk_over<K: Keeper>(keeper: &mut K) -> Result<Walk, Failed>
    ensures walk { IfTold (K.told keeper.old) result (λ kept walk. walk ≡ begun (length kept.order)) }
    ensures begins { IfOk result (λ walk. (length : ℕ) × (walk ≡ begun length)) }
    ensures reads { Reads K.Keeper (is_err result) keeper.old keeper.new }
{
    let summary = keeper.summary()?;
    Ok(Walk::begin(summary.processed))
}

/// The links of the block at a position that are not processed are wanted, each unless it is. All memory is taken first.
pub fn want_links_at<K: Keeper>(
    keeper: &mut K,
    queue: &mut Queue,
    alloc: Global,
    position: u64,
) -> Result<(), KeepError>
    ensures wants { IfTold (K.told keeper.old) result (λ kept done.
        shown queue.new ≡ wants (shown queue.old) (open_links_at kept position)) }
    ensures some { OnOk result ((links : List Identifier) × (shown queue.new ≡ wants (shown queue.old) links)) }
    ensures same { OnErr result (shown queue.new ≡ shown queue.old) }
    ensures reads { Reads K.Keeper (keeper_failed result) keeper.old keeper.new }
{
    let links = open_links_at(keeper, alloc, position)?;
    queue.reserve(links.as_slice().len() as u64)?;
    want_links(queue, links.as_slice());
    Ok(())
}

// The links of the block at a position that are not processed.
fn open_links_at<K: Keeper>(
    keeper: &mut K,
    alloc: Global,
    position: u64,
) -> Result<List<Cid>, KeepError>
    ensures links { IfTold (K.told keeper.old) result (λ kept links. links ≡ open_links_at kept position) }
    ensures reads { Reads K.Keeper (keeper_failed result) keeper.old keeper.new }
{
    kept_is_durable();
    is_sound(keeper);
    let Some(cid) = keeper.at(position)? else {
        return Ok(List::new(alloc));
    };
    let Some(bytes) = keeper.block(alloc, &cid)? else {
        return Ok(List::new(alloc));
    };
    let links = links_of(alloc, bytes.as_slice())?;
    unprocessed(keeper, alloc, links.as_slice())
}
