// The commits that take up a block, with all their memory taken.
ghost use Rattle.mc_keep.specs.Calls.{Reads, Reserves};
ghost use Rattle.std.specs.Prelude.{◌≡◌, ◌≤◌, ◌+◌, ◌++◌, ◌∷◌, [], true, false, map, length, IfSome, IfOk, OnOk};
ghost use Rattle.mc_model.specs.declared.block.Block.{Block};
ghost use Rattle.mc_model.specs.declared.layout.Layout.TheVariants.{Two};
ghost use Rattle.mc_model.specs.Front.{gaps};
ghost use Rattle.mc_model.specs.Kept.{processed, is_stored};
ghost use Rattle.mc_keep.specs.Causes.{IfTold};
ghost use Rattle.mc_keep.specs.Plan.{is_fault};
ghost use Rattle.mc_keep.specs.Changes.{no_changes, row_count};
ghost use Rattle.mc_keep.specs.New.{AreNew};
ghost use Rattle.mc_plan.specs.Uptakes.{IsNew, IsUptake, IsShaped, Processes, uptake_rows};

use crate::handed::{ProcessChanges, StoreChanges};
use mc_base::{Bytes, Cid, List};
use mc_front::front_changes;
use mc_keep::{Changes, KeepError, Keeper};
use mc_model::Block;
use mc_rows::merge;
use std::alloc::{AllocError, Global};
use std::slice;

/// What a replica keeps beside its keeper once a block is processed: the block is wanted no more, these of its links
/// are, and so many gaps are left.
#[derive(Drop)]
pub struct After {
    pub cid: Cid,
    pub links: List<Cid>,
    pub gaps: u64,
}

/// The commits that take up one block: it is stored, unless it is, and then processed; and what comes after.
#[derive(Drop)]
pub struct Uptake {
    pub store: StoreChanges,
    pub process: ProcessChanges,
    pub after: After,
}

// The changes that process these blocks, of which none is processed, and how many gaps they leave, with room in the
// keeper for their rows and one more. Where `whole`, every gap is wanted.
fn process_changes<K: Keeper>(
    keeper: &mut K,
    alloc: Global,
    blocks: &[Block],
    whole: bool,
    changes: &mut Changes,
) -> Result<u64, KeepError>
    requires two { K.layout keeper.old ≡ Two }
    requires none { changes.old ≡ no_changes }
    requires new { IfSome (K.told keeper.old) (λ kept. AreNew kept blocks.now) }
    ensures process { IfTold (K.told keeper.old) result (λ kept count.
        Processes kept whole blocks.now (map (λ (block : Block). block.cid) blocks.now) changes.new) }
    ensures gaps { IfTold (K.told keeper.old) result (λ kept count.
        count ≡ length (gaps (processed kept ++ blocks.now))) }
    ensures only { IfOk result (λ count. changes.new.store ≡ []) }
    ensures marks { IfOk result (λ count. changes.new.marks ≡ map (λ (block : Block). block.cid) blocks.now) }
    ensures room { IfOk result (λ count. row_count changes.new + 1 ≤ K.spare keeper.new) }
    ensures reads { Reads K.Keeper (is_fault result) keeper.old keeper.new }
{
    merge(keeper, alloc, blocks, changes)?;
    let gaps = front_changes(keeper, alloc, blocks, whole, changes)?;
    match reserve_rows(keeper, changes) {
        Ok(()) => Ok(gaps),
        Err(AllocError) => Err(KeepError::Memory),
    }
}

// Takes the keeper's memory for the rows of these changes and for one more.
fn reserve_rows<K: Keeper>(keeper: &mut K, changes: &Changes) -> Result<(), AllocError>
    ensures room { OnOk result (row_count changes.now + 1 ≤ K.spare keeper.new) }
    ensures reserves { Reserves K.Keeper keeper.old keeper.new }
{
    let rows = changes.rows().saturating_add(1);
    if rows == u64::MAX {
        return Err(AllocError);
    }
    keeper.reserve(rows)
}

// Plans to take up a block with these bytes, of which these links are not processed, and takes all the memory that the
// keeper needs.
pub(crate) fn uptake_of<K: Keeper>(
    keeper: &mut K,
    alloc: Global,
    block: &Block,
    bytes: Bytes,
    known: bool,
    links: List<Cid>,
    whole: bool,
) -> Result<Uptake, KeepError>
    requires two { K.layout keeper.old ≡ Two }
    requires new { IfSome (K.told keeper.old) (λ kept. IsNew kept block.now bytes links) }
    requires stored { IfSome (K.told keeper.old) (λ kept. known ≡ is_stored kept.graph block.now.cid) }
    ensures uptake { IfTold (K.told keeper.old) result (λ kept uptake. IsUptake kept whole block.now bytes uptake) }
    ensures shape { IfOk result IsShaped }
    ensures after { IfOk result (λ uptake. (uptake.after.cid ≡ block.now.cid) × (uptake.after.links ≡ links)) }
    ensures room { IfOk result (λ uptake. uptake_rows uptake ≤ K.spare keeper.new) }
    ensures reads { Reads K.Keeper (is_fault result) keeper.old keeper.new }
{
    let mut process = Changes::new(alloc);
    match plan_changes(keeper, alloc, block, bytes, known, whole, &mut process) {
        Ok((store, gaps)) => {
            let after = After {
                cid: block.cid,
                links,
                gaps,
            };
            match ProcessChanges::of(alloc, process) {
                Ok(process) => Ok(Uptake {
                    store,
                    process,
                    after,
                }),
                Err(AllocError) => Err(KeepError::Memory),
            }
        }
        Err(error) => Err(error),
    }
}

// Plans the changes that process a block, with the room for its uptake: what is given are the changes that store it,
// unless it is stored, and how many gaps are left.
fn plan_changes<K: Keeper>(
    keeper: &mut K,
    alloc: Global,
    block: &Block,
    bytes: Bytes,
    known: bool,
    whole: bool,
    process: &mut Changes,
) -> Result<(StoreChanges, u64), KeepError>
    requires two { K.layout keeper.old ≡ Two }
    requires none { process.old ≡ no_changes }
    requires new { IfSome (K.told keeper.old) (λ kept. AreNew kept (block.now ∷ [])) }
    ensures stored { known ≡ true → IfOk result (λ plan. plan.0 ≡ Rattle.std.specs.Prelude.None) }
    ensures new { known ≡ false → IfOk result (λ plan. plan.0 ≡ Rattle.std.specs.Prelude.Some
        (record no_changes { store = record { cid = block.now.cid; bytes = bytes } ∷ [] })) }
    ensures process { IfTold (K.told keeper.old) result (λ kept plan.
        Processes kept whole (block.now ∷ []) (block.now.cid ∷ []) process.new) }
    ensures gaps { IfTold (K.told keeper.old) result (λ kept plan.
        plan.1 ≡ length (gaps (processed kept ++ block.now ∷ []))) }
    ensures only { IfOk result (λ plan. process.new.store ≡ []) }
    ensures marks { IfOk result (λ plan. process.new.marks ≡ block.now.cid ∷ []) }
    ensures room { IfOk result (λ plan. row_count process.new + 1 ≤ K.spare keeper.new) }
    ensures reads { Reads K.Keeper (is_fault result) keeper.old keeper.new }
{
    let gaps = process_changes(keeper, alloc, slice::from_ref(block), whole, process)?;
    let store = StoreChanges::of(alloc, block.cid, bytes, known)?;
    Ok((store, gaps))
}
