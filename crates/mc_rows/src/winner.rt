// The block that gives a key its value, found anew.
ghost use Rattle.std.specs.Prelude.{◌≡◌};
ghost use Rattle.std.specs.Option.{option_map};
ghost use Rattle.mc_model.specs.Kept.{processed};
ghost use Rattle.mc_model.specs.Who.{Placed, who};
ghost use Rattle.mc_keep.specs.Calls.{Reads};
ghost use Rattle.mc_keep.specs.Causes.{IfTold};
ghost use Rattle.mc_keep.specs.Plan.{is_fault};
ghost use Rattle.mc_rows.specs.Values.{placed_best};

use crate::best::Best;
use crate::live::best_of_old;
use mc_base::Cid;
use mc_keep::{KeepError, Keeper};
use std::alloc::Global;

/// The block that gives a key its value, or none where it has none, from all live elements of the key: also where the
/// keeper has no winner row of it yet.
pub fn find_winner<K: Keeper>(
    keeper: &mut K,
    alloc: Global,
    key: &str,
) -> Result<Option<Cid>, KeepError>
    ensures row { IfTold (K.told keeper.old) result (λ kept cid. cid ≡ who (processed kept) key.now) }
    ensures reads { Reads K.Keeper (is_fault result) keeper.old keeper.new }
{
    let rows = keeper.live_elements(alloc, key)?;
    let best = best_of_old(alloc, key, rows.as_slice(), &[])?;
    Ok(cid_of(best))
}

fn cid_of(best: Option<Best<'_>>) -> Option<Cid>
    ensures { result ≡ option_map (λ (p : Placed). p.1) (placed_best best.entry) }
{
    match best {
        Some(best) => Some(*best.cid),
        None => None,
    }
}
