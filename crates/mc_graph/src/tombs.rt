// The table of tombstones of a keeper: that of `mc_tombs`, with rows put in.
ghost use Rattle.std.specs.Prelude.{◌≡◌, ℕ, ◌≤◌, ◌+◌, List, length, fold};
ghost use Rattle.std.specs.HashSet.{spare};
ghost use Rattle.mc_tombs.specs.Tombs.{has_tomb_in};
ghost use Rattle.mc_graph.specs.Tombs.{with_tomb};

use mc_keep::TombRow;
use mc_tombs::{Tombs, put_tomb};
use std::hash::BuildHasher;

/// Puts tombstones in. It takes no memory.
pub fn put_tombs<S: BuildHasher + Drop>(tombs: &mut Tombs<S>, rows: Vec<TombRow>)
    requires keys_room { length rows.items ≤ spare tombs.old.keys }
    requires ids_room { length rows.items ≤ spare tombs.old.ids }
    requires pairs_room { length rows.items ≤ spare tombs.old.pairs }
    ensures tombs { (key id : List ℕ) → has_tomb_in tombs.new.keys.keys tombs.new.ids.keys tombs.new.pairs.keys key id
        ≡ fold (with_tomb key id) (has_tomb_in tombs.old.keys.keys tombs.old.ids.keys tombs.old.pairs.keys key id) rows.items }
    ensures keys_spare { spare tombs.old.keys ≤ spare tombs.new.keys + length rows.items }
    ensures ids_spare { spare tombs.old.ids ≤ spare tombs.new.ids + length rows.items }
    ensures pairs_spare { spare tombs.old.pairs ≤ spare tombs.new.pairs + length rows.items }
{
    for row in rows {
        let TombRow { key, id } = row;
        put_tomb(tombs, key, id);
    }
}
