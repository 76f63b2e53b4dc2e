// A face is brought up to the list of a keeper.
ghost use Rattle.std.specs.Prelude.{◌≡◌, true, is_some, length, IfOk, IfSome, OnErr};
ghost use Rattle.mc_model.specs.Kept.{processed};
ghost use Rattle.mc_keep.specs.Calls.{Reads};
ghost use Rattle.mc_keep.specs.Causes.{IfTold};
ghost use Rattle.mc_keep.specs.Plan.{is_fault};
ghost use Rattle.mc_face.specs.Exact.{AreValues, Covers};
ghost use Rattle.mc_face.specs.Lists.{Starts};

use crate::blocks::blocks_from;
use crate::keys::named_keys;
use crate::values::values_of;
use mc_base::List;
use mc_face::{Change, Exactness, FaceWriter};
use mc_keep::{KeepError, Keeper};
use mc_model::Block;
use std::alloc::{AllocError, Global};

/// Brings a face to the processed blocks of a keeper: reads those past its list, and the value of each key that they
/// name over all of them, and appends both. Readers see it once it is published. How many blocks the face's list has then.
/// A refusal leaves the face as it was.
///
/// Conditions: where the keeper tells, the face's list is a beginning of the processed blocks; where the face is exact,
/// the keeper tells.
pub fn catch_up<K: Keeper, X: Exactness>(
    keeper: &mut K,
    alloc: Global,
    face: &mut FaceWriter<X>,
) -> Result<u64, KeepError>
    requires begins { IfSome (K.told keeper.old) (λ kept. Starts (processed kept) face.old.list) }
    requires tells { X.exact ≡ true → is_some (K.told keeper.old) ≡ true }
    ensures list { IfTold (K.told keeper.old) result (λ kept count. face.new.list ≡ processed kept) }
    ensures count { IfOk result (λ count. count ≡ length face.new.list) }
    ensures err { OnErr result (face.new.list ≡ face.old.list) }
    ensures shown { face.new.shown ≡ face.old.shown }
    ensures face { face.new.face ≡ face.old.face }
    ensures reads { Reads K.Keeper (is_fault result) keeper.old keeper.new }
{
    let blocks = blocks_from(keeper, alloc, face.length())?;
    let changes = changes_of(keeper, alloc, blocks.as_slice())?;
    face.append(blocks, changes)?;
    Ok(face.length())
}

// What becomes of the keys that blocks name: each one's value over the processed blocks.
fn changes_of<K: Keeper>(
    keeper: &mut K,
    alloc: Global,
    blocks: &[Block],
) -> Result<List<Change>, KeepError>
    ensures covers { IfOk result (λ changes. Covers blocks.now changes) }
    ensures values { IfTold (K.told keeper.old) result (λ kept changes. AreValues (processed kept) changes) }
    ensures reads { Reads K.Keeper (is_fault result) keeper.old keeper.new }
{
    let keys = match named_keys(alloc, blocks) {
        Ok(keys) => keys,
        Err(AllocError) => return Err(KeepError::Memory),
    };
    let changes = values_of(keeper, alloc, keys.as_slice())?;
    Ok(changes)
}
