// The index: where the entry of each wanted block stands.
ghost use Rattle.std.specs.Prelude.{◌≡◌, ◌≤◌, ◌<◌, ◌+◌, true, Some, None, OnOk, is_some, cond};
ghost use Rattle.indexmap.specs.IndexMap.{spare, get};
ghost use Rattle.mc_base.specs.declared.cid.Cid.{Cid};
ghost use Rattle.mc_model.specs.Front.{same_cid};

use indexmap::IndexMap;
use mc_base::Cid;
use mc_list::Place;
use std::alloc::AllocError;

/// The place of a block that has one.
pub(crate) fn find(places: &IndexMap<Cid, Place>, cid: &Cid) -> Option<Place>
    ensures { result ≡ get same_cid places.now cid.now }
{
    places.get(cid).copied()
}

/// Sets the place of a block that has one.
pub(crate) fn set(places: &mut IndexMap<Cid, Place>, cid: &Cid, place: Place)
    requires there { is_some (get same_cid places.old cid.now) ≡ true }
    ensures places { (other : Cid) → get same_cid places.new other
        ≡ cond (same_cid cid.now other) (Some place) (get same_cid places.old other) }
    ensures spare { spare places.old ≤ spare places.new }
{
    if let Some(at) = places.get_mut(cid) {
        *at = place;
    }
}

/// Drops the place of a block, and tells it.
pub(crate) fn remove(places: &mut IndexMap<Cid, Place>, cid: &Cid) -> Option<Place>
    ensures was { result ≡ get same_cid places.old cid.now }
    ensures places { (other : Cid) → get same_cid places.new other
        ≡ cond (same_cid cid.now other) None (get same_cid places.old other) }
    ensures spare { spare places.old ≤ spare places.new }
{
    places.swap_remove(cid)
}

/// Makes room for so many more blocks.
pub(crate) fn reserve(places: &mut IndexMap<Cid, Place>, blocks: usize) -> Result<(), AllocError>
    ensures ok { OnOk result (blocks ≤ spare places.new) }
    ensures places { get same_cid places.new ≡ get same_cid places.old }
    ensures spare { spare places.old ≤ spare places.new }
{
    places.reserve(blocks)
}
