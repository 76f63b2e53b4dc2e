// A set of identifiers with room for the next commits.
ghost use Rattle.std.specs.Prelude.{◌≡◌, ◌≤◌, ◌<◌, ◌+◌, ◌||◌, ◌&&◌, not, OnOk};
ghost use Rattle.indexmap.specs.IndexSet.{spare};
ghost use Rattle.mc_base.specs.declared.cid.Cid.{Cid};
ghost use Rattle.mc_model.specs.Front.{same_cid, is_among};

use indexmap::IndexSet;
use mc_base::Cid;
use std::alloc::AllocError;

/// Whether an identifier is in the set.
pub fn has_cid(cids: &IndexSet<Cid>, cid: &Cid) -> bool
    ensures { result ≡ is_among cids.now.keys cid.now }
{
    if cids.is_empty() {
        return false;
    }
    cids.contains(cid)
}

/// Makes room for so many identifiers.
pub fn reserve_cids(cids: &mut IndexSet<Cid>, rows: usize) -> Result<(), AllocError>
    ensures ok { OnOk result (rows ≤ spare cids.new) }
    ensures keys { cids.new.keys ≡ cids.old.keys }
    ensures spare { spare cids.old ≤ spare cids.new }
{
    cids.reserve(rows)
}

// Adds an identifier, also where it is there.
pub(crate) fn put_cid(cids: &mut IndexSet<Cid>, cid: Cid)
    requires room { 0 < spare cids.old }
    ensures among { (other : Cid) → is_among cids.new.keys other
        ≡ (same_cid other cid || is_among cids.old.keys other) }
    ensures spare { spare cids.old ≤ spare cids.new + 1 }
{
    let _added = cids.insert(cid);
}

pub(crate) fn drop_cid(cids: &mut IndexSet<Cid>, cid: &Cid)
    ensures among { (other : Cid) → is_among cids.new.keys other
        ≡ (not (same_cid other cid.now) && is_among cids.old.keys other) }
    ensures spare { spare cids.old ≤ spare cids.new }
{
    if cids.is_empty() {
        return;
    }
    let _was_there = cids.swap_remove(cid);
}
