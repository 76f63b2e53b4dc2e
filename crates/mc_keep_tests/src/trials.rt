// What the tests are given: keepers in memory, blocks that differ, and the changes of a group of blocks.
ghost use Rattle.std.specs.Prelude.{◌≡◌, ◌∷◌, [], map, IfOk, IfSome, OnOk};
ghost use Rattle.mc_model.specs.declared.block.Block.{Block};
ghost use Rattle.mc_model.specs.Kept.{nothing_kept};
ghost use Rattle.mc_model.specs.State.{HasSoundMark};
ghost use Rattle.mc_model.specs.declared.layout.Layout.TheVariants.{Two};
ghost use Rattle.mc_keep.specs.Calls.{Reads};
ghost use Rattle.mc_keep.specs.Causes.{IfTold};
ghost use Rattle.mc_keep.specs.Changes.{no_changes};
ghost use Rattle.mc_keep.specs.New.{AreNew};
ghost use Rattle.mc_keep.specs.Plan.{is_fault};
ghost use Rattle.mc_keep_mem.specs.Fits.{kept_in};
ghost use Rattle.mc_plan.specs.Uptakes.{Processes};

use mc_base::{Bytes, Cid};
use mc_front::front_changes;
use mc_keep::{Changes, KeepError, Keeper, Stored};
use mc_keep_mem::{FaultPlan, MemKeeper};
use mc_model::{Block, Layout};
use mc_rows::merge;
use std::alloc::{AllocError, Global};
use std::sync::Wait;
use std::test::Fail;

/// What is tried on a keeper, whichever it is, and mostly an empty one. A call over a keeper of a given type costs its check all that the type
/// promises, so that one function alone makes the keepers of all trials.
pub trait Trial {
    /// Whether all goes as it should over this keeper, which has just what its maker says.
    fn passes<K: Keeper + Drop, W: Wait>(
        self,
        alloc: Global,
        keeper: K,
        wait: &W,
    ) -> Result<bool, Fail>
    where
        K::Desk: Drop,
        requires { IfSome (K.told keeper) HasSoundMark };
}

/// Whether all goes as it should over a keeper in memory that fails as planned.
pub fn passes_over<T: Trial + Copy, W: Wait>(
    trial: T,
    alloc: Global,
    plan: FaultPlan,
    wait: &W,
) -> Result<bool, Fail> {
    trial.passes(alloc, made(alloc, plan)?, wait)
}

/// The same over one that never fails.
pub fn passes<T: Trial + Copy, W: Wait>(trial: T, alloc: Global, wait: &W) -> Result<bool, Fail> {
    passes_over(trial, alloc, FaultPlan::nothing(alloc), wait)
}

// A keeper without blocks.
fn made(alloc: Global, plan: FaultPlan) -> Result<MemKeeper, AllocError>
    ensures { IfOk result (λ keeper. kept_in keeper.store.tables ≡ nothing_kept) }
{
    MemKeeper::new(alloc, plan)
}

/// A keeper without blocks that never fails.
pub fn empty(alloc: Global) -> Result<MemKeeper, AllocError>
    ensures { IfOk result (λ keeper. kept_in keeper.store.tables ≡ nothing_kept) }
{
    MemKeeper::new(alloc, FaultPlan::nothing(alloc))
}

/// Looks whether a keeper has all winner rows, and gives up where it has not.
pub fn ask_two<K: Keeper>(keeper: &mut K, alloc: Global) -> Result<(), KeepError>
    ensures two { OnOk result (K.layout keeper.new ≡ Two) }
    ensures reads { Reads K.Keeper (is_fault result) keeper.old keeper.new }
{
    match keeper.layout(alloc)? {
        Layout::Two => Ok(()),
        Layout::One { upto: _ } => Err(KeepError::Memory),
    }
}

/// The changes that process these blocks, of which none is processed. Where `whole`, every gap is wanted.
pub fn process_changes<K: Keeper>(
    keeper: &mut K,
    alloc: Global,
    blocks: &[Block],
    whole: bool,
) -> Result<Changes, KeepError>
    requires { IfSome (K.told keeper.old) (λ kept. AreNew kept blocks.now) }
    ensures process { IfTold (K.told keeper.old) result (λ kept changes.
        Processes kept whole blocks.now (map (λ (block : Block). block.cid) blocks.now) changes) }
    ensures reads { Reads K.Keeper (is_fault result) keeper.old keeper.new }
{
    ask_two(keeper, alloc)?;
    let mut changes = Changes::new(alloc);
    merge(keeper, alloc, blocks, &mut changes)?;
    front_changes(keeper, alloc, blocks, whole, &mut changes)?;
    Ok(changes)
}

/// The changes that store these bytes.
pub fn store_of(alloc: Global, cid: Cid, bytes: Bytes) -> Result<Changes, AllocError>
    ensures { IfOk result (λ changes.
        changes ≡ record no_changes { store = record { cid = cid; bytes = bytes } ∷ [] }) }
{
    let mut changes = Changes::new(alloc);
    changes.store.push(Stored { cid, bytes })?;
    Ok(changes)
}
