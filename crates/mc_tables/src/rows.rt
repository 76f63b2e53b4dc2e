// The row of a value is looked for along the rows of its key, from the one that came last.
ghost use Rattle.std.specs.Prelude.{◌≡◌, ◌<◌, ◌-◌, ◌^◌, true, List, IfSome};
ghost use Rattle.std.specs.Option.{option_and_then, option_map};
ghost use Rattle.mc_base.specs.declared.cid.Cid.{Cid};
ghost use Rattle.mc_model.specs.Rank.{same_ranked};
ghost use Rattle.mc_tables.specs.Chains.{row_at, rows_in};
ghost use Rattle.mc_tables.specs.Places.{last_in, texts_in, stands_at};
ghost use Rattle.mc_tables.specs.Values.{row_with};

use crate::elements::{Elements, Node};
use crate::places::find_key;
use std::hash::BuildHasher;

/// The place of the key, and that of its last row that has this value with this priority, or none where no row has. It
/// takes no memory.
pub(crate) fn place_with<S: BuildHasher + Drop>(
    elements: &Elements<S>,
    key: &str,
    priority: u64,
    value: &[u8],
) -> Option<(usize, usize)>
    ensures row { (cids : List Cid) →
        option_and_then (row_at cids elements.now.nodes.items key.now) (option_map (λ found. found.1) result)
        ≡ row_with (priority, value.now) (rows_in cids elements.now.nodes.items (last_in elements.now.keys) key.now) }
    ensures small { IfSome result (λ found. found.1 < 2 ^ 64 - 1) }
    ensures place { IfSome result (λ found. stands_at (texts_in elements.now.keys) key.now found.0 ≡ true) }
{
    let Some((number, last)) = find_key(&elements.keys, key) else {
        return None;
    };
    let mut at = Some(last);
    while let Some(place) = at {
        let Some(node) = elements.nodes.get(place) else {
            return None;
        };
        if has_value(node, priority, value) {
            return Some((number, place));
        }
        at = node.before.place();
    }
    None
}

pub(crate) fn has_value(node: &Node, priority: u64, value: &[u8]) -> bool
    ensures { result ≡ same_ranked (priority, value.now) (node.now.priority, node.now.value) }
{
    priority == node.priority && value == node.value.as_slice()
}
