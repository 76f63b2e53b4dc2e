// The tombstones of the blocks that were taken.
ghost use Rattle.std.specs.Prelude.{◌≡◌, ℕ, ◌≤◌, ◌+◌, List, length, fold};
ghost use Rattle.std.specs.HashSet.{spare};
ghost use Rattle.mc_tombs.specs.Tombs.{has_tomb_in};
ghost use Rattle.mc_live.specs.Hiding.{with_tomb};

use mc_model::Tomb;
use mc_tombs::{Tombs, put_tomb};
use std::hash::{BuildHasherDefault, FoldHasher};

/// A table of tombstones with the default hasher.
pub(crate) type Hidden = Tombs<BuildHasherDefault<FoldHasher>>;

// Puts tombstones in, for which there is room. It takes no memory.
pub(crate) fn put_tombs(tombs: &mut Hidden, rows: Vec<Tomb>)
    requires keys_room { length rows.items ≤ spare tombs.old.keys }
    requires ids_room { length rows.items ≤ spare tombs.old.ids }
    requires pairs_room { length rows.items ≤ spare tombs.old.pairs }
    ensures tombs { (key id : List ℕ) → has_tomb_in tombs.new.keys.keys tombs.new.ids.keys tombs.new.pairs.keys key id
        ≡ fold (with_tomb key id) (has_tomb_in tombs.old.keys.keys tombs.old.ids.keys tombs.old.pairs.keys key id) rows.items }
{
    for row in rows {
        let Tomb { key, id } = row;
        put_tomb(tombs, key, id);
    }
}
