// The blocks of deletes: all are made first, and then taken up one after another.
ghost use Rattle.mc_keep.specs.Calls.{Reads};
ghost use Rattle.std.specs.Prelude.{◌≡◌, ◌≤◌, ◌^◌, nat_lt, ◌++◌, ◌∷◌, [], true, false, None, IfOk, IfSome, IfErr, OnOk};
ghost use Rattle.std.specs.List.{list_all};
ghost use Rattle.mc_model.specs.Kept.{is_stored};
ghost use Rattle.mc_model.specs.Made.{made_bytes, made_cid};
ghost use Rattle.mc_model.specs.declared.layout.Layout.TheVariants.{Two};
ghost use Rattle.mc_keep.specs.Causes.{IfTold};
ghost use Rattle.mc_keep.specs.Plan.{is_fault as keeper_failed};
ghost use Rattle.mc_plan.specs.Deletes.{AreMade, DeleteKeptRefusal};
ghost use Rattle.mc_plan.specs.Deletes.{DeltasRefusal, IsDelete, IsMade, IsNextMade, IsOutside};
ghost use Rattle.mc_plan.specs.Deletes.{chain_clash, has_made, is_left, with_all};
ghost use Rattle.mc_plan.specs.Exact.{front_of};
ghost use Rattle.mc_plan.specs.Uptakes.{IsNew, IsUptake, IsShaped, uptake_rows};
ghost use Rattle.mc_plan.specs.Puts.{next_links};
ghost use Rattle.mc_plan.specs.Refusals.{Is, IsDue, clash_refusal, is_fault, key_refusal};

use crate::CoreError;
use crate::made::{check_clash, cids_of};
use crate::puts::check_key;
use crate::uptakes::{Uptake, uptake_of};
use mc_base::{Bytes, Cid, List};
use mc_block::write_block;
use mc_keep::{KeepError, Keeper};
use mc_key::Key;
use mc_model::{Block, Delta};
use mc_write::delete_deltas;
use std::alloc::{AllocError, Global};

/// What a delete did.
#[derive(Clone, Copy, Debug, PartialEq, Eq)]
pub struct Deleted {
    /// How many blocks it made, stored and processed: none where no element of the key was live.
    pub blocks: u64,
}

/// A block that was made, its bytes, and whether they are stored already.
#[derive(Drop)]
pub struct MadeBlock {
    pub block: Block,
    pub bytes: Bytes,
    pub known: bool,
}

/// Plans to take up a made block, and takes all the memory that it needs.
pub fn plan_one<K: Keeper>(
    keeper: &mut K,
    alloc: Global,
    made: MadeBlock,
    whole: bool,
) -> Result<Uptake, CoreError>
    requires two { K.layout keeper.old ≡ Two }
    requires new { IfSome (K.told keeper.old) (λ kept. IsNew kept made.block made.bytes []) }
    requires stored { IfSome (K.told keeper.old) (λ kept. made.known ≡ is_stored kept.graph made.block.cid) }
    ensures uptake { IfTold (K.told keeper.old) result (λ kept uptake.
        IsUptake kept whole made.block made.bytes uptake) }
    ensures only { IfErr result IsOutside }
    ensures shape { IfOk result IsShaped }
    ensures links { IfOk result (λ uptake. uptake.after.links ≡ []) }
    ensures room { IfOk result (λ uptake. uptake_rows uptake ≤ K.spare keeper.new) }
    ensures reads { Reads K.Keeper (is_fault result) keeper.old keeper.new }
{
    let MadeBlock {
        block,
        bytes,
        known,
    } = made;
    let uptake = uptake_of(keeper, alloc, &block, bytes, known, List::new(alloc), whole)?;
    Ok(uptake)
}

/// The blocks of a delete of a key, none of which clashes.
pub fn make_delete<K: Keeper>(
    keeper: &mut K,
    alloc: Global,
    key: &str,
) -> Result<List<MadeBlock>, CoreError>
    ensures made { IfTold (K.told keeper.old) result (λ kept blocks. IsDelete kept key.now blocks) }
    ensures allowed { OnOk result (key_refusal key.now ≡ None) }
    ensures front { front_of result ≡ key_refusal key.now }
    ensures refused { IfSome (K.told keeper.old) (λ kept.
        IfErr result (IsDue (DeleteKeptRefusal kept key.now (key_refusal key.now)))) }
    ensures reads { Reads K.Keeper (is_fault result) keeper.old keeper.new }
{
    let key = check_key(key)?;
    make_tombs(keeper, alloc, &key)
}

// The same for a key that obeys the key rule.
fn make_tombs<K: Keeper>(
    keeper: &mut K,
    alloc: Global,
    key: &Key<'_>,
) -> Result<List<MadeBlock>, CoreError>
    ensures made { IfTold (K.told keeper.old) result (λ kept blocks. IsDelete kept key.now blocks) }
    ensures front { front_of result ≡ None }
    ensures refused { IfSome (K.told keeper.old) (λ kept. IfErr result (IsDue (DeltasRefusal kept key.now))) }
    ensures reads { Reads K.Keeper (is_fault result) keeper.old keeper.new }
{
    let deltas = match delete_deltas(keeper, alloc, key) {
        Ok(deltas) => deltas,
        Err(error) => return Err(CoreError::from(error)),
    };
    if deltas.len() == 0 {
        return Ok(List::new(alloc));
    }
    have_priorities(deltas.as_slice());
    let links = first_links(keeper, alloc)?;
    make_blocks(keeper, alloc, links, deltas)
}

// The priority of each delta is below 2^64. The loop only reads it, and leaves nothing to be done.
fn have_priorities(deltas: &[Delta])
    ensures { list_all is_left deltas.now ≡ true }
{
    for delta in deltas {
        has_priority(delta.priority);
    }
}

fn has_priority(priority: u64)
    ensures { nat_lt priority (2 ^ 64) ≡ true }
{
    let _priority = priority;
}

// The links to the heads.
fn first_links<K: Keeper>(keeper: &mut K, alloc: Global) -> Result<List<Cid>, KeepError>
    ensures links { IfTold (K.told keeper.old) result (λ kept links. links ≡ next_links kept) }
    ensures reads { Reads K.Keeper (keeper_failed result) keeper.old keeper.new }
{
    let heads = keeper.heads(alloc)?;
    let links = cids_of(alloc, heads.as_slice())?;
    Ok(links)
}

// Blocks of these deltas: the first has these links, each later one links to the one before.
fn make_blocks<K: Keeper>(
    keeper: &mut K,
    alloc: Global,
    links: List<Cid>,
    deltas: List<Delta>,
) -> Result<List<MadeBlock>, CoreError>
    ensures made { IfTold (K.told keeper.old) result (λ kept blocks. AreMade kept links deltas blocks) }
    ensures front { front_of result ≡ None }
    ensures refused { IfSome (K.told keeper.old) (λ kept. IfErr result (IsDue (Is (chain_clash kept links deltas)))) }
    ensures reads { Reads K.Keeper (is_fault result) keeper.old keeper.new }
{
    let mut blocks = List::new(alloc);
    let mut links = links;
    for delta in deltas.into_vec() {
        match make_next(keeper, alloc, &mut blocks, links, delta) {
            Ok(next) => links = next,
            Err(error) => return Err(error),
        }
    }
    Ok(blocks)
}

// Makes the next block, adds it to those before, and gives the links of the one after it.
fn make_next<K: Keeper>(
    keeper: &mut K,
    alloc: Global,
    blocks: &mut List<MadeBlock>,
    links: List<Cid>,
    delta: Delta,
) -> Result<List<Cid>, CoreError>
    ensures made { IfTold (K.told keeper.old) result (λ kept next.
        IsNextMade kept blocks.old links delta blocks.new next) }
    ensures front { front_of result ≡ None }
    ensures refused { IfSome (K.told keeper.old) (λ kept. IfErr result (IsDue (Is (
        clash_refusal (with_all kept blocks.old) (made_cid links delta) (made_bytes links delta))))) }
    ensures reads { Reads K.Keeper (is_fault result) keeper.old keeper.new }
{
    let made = match make_one(keeper, alloc, blocks.as_slice(), links, delta) {
        Ok(made) => made,
        Err(error) => return Err(error),
    };
    let next = link_to(alloc, made.block.cid)?;
    push_made(blocks, made)?;
    Ok(next)
}

fn link_to(alloc: Global, cid: Cid) -> Result<List<Cid>, AllocError>
    ensures { IfOk result (λ links. links ≡ cid ∷ []) }
{
    let mut links = List::new(alloc);
    links.push(cid)?;
    Ok(links)
}

fn push_made(blocks: &mut List<MadeBlock>, made: MadeBlock) -> Result<(), AllocError>
    ensures { OnOk result (blocks.new ≡ blocks.old ++ made ∷ []) }
{
    blocks.push(made)?;
    Ok(())
}

// Makes a block, which clashes neither with what is kept nor with those made before.
fn make_one<K: Keeper>(
    keeper: &mut K,
    alloc: Global,
    before: &[MadeBlock],
    links: List<Cid>,
    delta: Delta,
) -> Result<MadeBlock, CoreError>
    ensures made { IfTold (K.told keeper.old) result (λ kept made. IsMade (with_all kept before.now) links delta made) }
    ensures front { front_of result ≡ None }
    ensures refused { IfSome (K.told keeper.old) (λ kept. IfErr result (IsDue (Is (
        clash_refusal (with_all kept before.now) (made_cid links delta) (made_bytes links delta))))) }
    ensures reads { Reads K.Keeper (is_fault result) keeper.old keeper.new }
{
    let made = write_block(alloc, links.as_slice(), &delta)?;
    if has_made(before, &made.cid) {
        return Err(CoreError::Clash { cid: made.cid });
    }
    let known = match check_clash(keeper, alloc, &made.cid, made.bytes.as_slice()) {
        Ok(known) => known,
        Err(error) => return Err(error),
    };
    let block = Block {
        cid: made.cid,
        links,
        delta,
    };
    Ok(MadeBlock {
        block,
        bytes: made.bytes,
        known,
    })
}

// Whether one of these blocks has the identifier.
fn has_made(before: &[MadeBlock], cid: &Cid) -> bool
    ensures { result ≡ has_made before.now cid.now }
{
    for made in before {
        if *cid == made.block.cid {
            return true;
        }
    }
    false
}
