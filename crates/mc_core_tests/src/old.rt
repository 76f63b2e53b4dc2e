// Keepers in memory of layout 1.
ghost use Rattle.std.specs.Prelude.{◌≡◌, IfOk, IfSome};
ghost use Rattle.mc_model.specs.State.{HasSoundMark};
ghost use Rattle.mc_keep_mem.specs.Fits.{kept_in};

use crate::running::opened;
use mc_core::{CoreError, Replica};
use mc_keep::Keeper;
use mc_keep_mem::MemKeeper;
use mc_keep_tests::{Trial, empty};
use std::alloc::{AllocError, Global};
use std::sync::Wait;
use std::test::Fail;

/// The same over one that never fails, without winner rows, with so many keys: one block sets them all to 1, and another
/// one the first of them to 2.
pub fn passes_old<T: Trial + Copy, W: Wait>(
    trial: T,
    alloc: Global,
    keys: u64,
    wait: &W,
) -> Result<bool, Fail> {
    trial.passes(alloc, old(alloc, keys)?, wait)
}

// A keeper of layout 1 with so many keys.
fn old(alloc: Global, keys: u64) -> Result<MemKeeper, CoreError>
    ensures { IfOk result (λ keeper. HasSoundMark (kept_in keeper.store.tables)) }
{
    match filled(empty(alloc)?, alloc, keys) {
        Ok(keeper) => Ok(keeper.downgrade()),
        Err(error) => Err(error),
    }
}

// The keeper with so many keys.
fn filled<K: Keeper + Drop>(keeper: K, alloc: Global, keys: u64) -> Result<K, CoreError>
    requires { IfSome (K.told keeper) HasSoundMark }
    ensures { IfOk result (λ keeper. IfSome (K.told keeper) HasSoundMark) }
{
    let mut replica = opened(alloc, keeper)?;
    let put = put_keys(&mut replica, alloc, keys);
    let keeper = replica.stop();
    match put {
        Ok(()) => Ok(keeper),
        Err(error) => Err(error),
    }
}

// Sets so many keys.
fn put_keys<K: Keeper>(
    replica: &mut Replica<K>,
    alloc: Global,
    keys: u64,
) -> Result<(), CoreError> {
    replica.batch_begin(alloc)?;
    for number in 0..keys {
        replica.batch_put(key_of(alloc, number)?.as_str(), &[1])?;
    }
    replica.batch_commit(alloc)?;
    if keys > 0 {
        replica.put(alloc, key_of(alloc, 0)?.as_str(), &[2])?;
    }
    Ok(())
}

/// The key with this number, from 0 on. The first ones have five digits, so that they ascend.
pub fn key_of(alloc: Global, number: u64) -> Result<String, AllocError> {
    let digits = number.saturating_add(10_000);
    format!(in alloc; "/{digits}")
}
