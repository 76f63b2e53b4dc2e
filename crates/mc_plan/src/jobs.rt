// What a replica has stored for a job.
ghost use Rattle.std.specs.Prelude.{◌≡◌, None, IfOk, IfSome};
ghost use Rattle.mc_keep.specs.Calls.{Reads};
ghost use Rattle.mc_keep.specs.Causes.{IfTold};
ghost use Rattle.mc_keep.specs.Plan.{is_fault as keeper_failed};
ghost use Rattle.mc_fetch.specs.Offers.{HasDigest};
ghost use Rattle.mc_model.specs.Kept.{bytes_at};

use crate::sound::is_sound;
use mc_base::{Bytes, Cid};
use mc_keep::{KeepError, Keeper};
use std::alloc::Global;

/// The stored bytes of a block, where they have its digest.
pub fn own_bytes<K: Keeper>(
    keeper: &mut K,
    alloc: Global,
    cid: &Cid,
) -> Result<Option<Bytes>, KeepError>
    ensures own { IfTold (K.told keeper.old) result (λ kept own. own ≡ bytes_at kept.graph cid.now) }
    ensures digest { IfOk result (λ own. IfSome own (HasDigest cid.now)) }
    ensures reads { Reads K.Keeper (keeper_failed result) keeper.old keeper.new }
{
    is_sound(keeper);
    let stored = keeper.block(alloc, cid)?;
    Ok(with_digest(stored, cid))
}

// Bytes that have the digest of the block, or none.
fn with_digest(stored: Option<Bytes>, cid: &Cid) -> Option<Bytes>
    ensures kept { IfSome stored (HasDigest cid.now) → result ≡ stored }
    ensures digest { IfSome result (HasDigest cid.now) }
{
    match stored {
        Some(bytes) => {
            if Cid::of(bytes.as_slice()) == *cid {
                Some(bytes)
            } else {
                None
            }
        }
        None => None,
    }
}
