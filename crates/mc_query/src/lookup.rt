// The value of one key.
ghost use Rattle.std.specs.Prelude.{◌≡◌};
ghost use Rattle.std.specs.Result.{is_err};
ghost use Rattle.mc_model.specs.Answers.{has_value};
ghost use Rattle.mc_model.specs.Kept.{processed};
ghost use Rattle.mc_model.specs.Live.{value};
ghost use Rattle.mc_keep.specs.Calls.{Reads};
ghost use Rattle.mc_keep.specs.Causes.{IfTold};
ghost use Rattle.mc_keep.specs.Plan.{ReadsAsPlanned, is_fault};

use mc_base::{Bytes, Failed};
use mc_keep::{KeepError, Keeper};
use std::alloc::Global;

/// The value of a key over the processed blocks, or none where it has none. The key is any text. It costs one row.
/// `Failed` comes only where the keeper failed.
pub fn get<K: Keeper>(keeper: &mut K, alloc: Global, key: &str) -> Result<Option<Bytes>, KeepError>
    ensures row { IfTold (K.told keeper.old) result (λ kept found. found ≡ value (processed kept) key.now) }
    ensures reads { Reads K.Keeper (is_fault result) keeper.old keeper.new }
    ensures planned { ReadsAsPlanned (K.schedule keeper.old) (K.schedule keeper.new) (is_fault result) }
{
    match keeper.value(alloc, key) {
        Ok(Some(row)) => Ok(Some(row.value)),
        Ok(None) => Ok(None),
        Err(error) => Err(error),
    }
}

/// Whether a key has a value over the processed blocks. The key is any text. It costs one row and takes no memory.
/// `Failed` comes only where the keeper failed.
pub fn has<K: Keeper>(keeper: &mut K, key: &str) -> Result<bool, Failed>
    ensures row { IfTold (K.told keeper.old) result (λ kept found. found ≡ has_value (processed kept) key.now) }
    ensures reads { Reads K.Keeper (is_err result) keeper.old keeper.new }
    ensures planned { ReadsAsPlanned (K.schedule keeper.old) (K.schedule keeper.new) (is_err result) }
{
    keeper.has(key)
}
