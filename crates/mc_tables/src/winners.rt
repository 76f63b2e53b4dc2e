// The value of a key names a row of the block that gives the value.
ghost use Rattle.std.specs.Prelude.{◌≡◌, ◌<◌, ◌≤◌, ◌-◌, ◌^◌, ℕ, true, List, fold, is_some, cond, Some, None};
ghost use Rattle.std.specs.Prelude.{IfSome};
ghost use Rattle.std.specs.HashMap.{keys, spare};
ghost use Rattle.std.specs.List.{list_all};
ghost use Rattle.std.specs.Option.{option_and_then, option_map};
ghost use Rattle.std.specs.Str.{bytes_eq};
ghost use Rattle.mc_base.specs.declared.cid.Cid.{Cid};
ghost use Rattle.mc_keep.specs.LiveRows.{is_row_of};
ghost use Rattle.mc_tables.specs.Chains.{row_at, row_of_node, rows_in};
ghost use Rattle.mc_tables.specs.Places.{last_in, value_in, texts_in, stands_at};
ghost use Rattle.mc_tables.specs.Values.{ranked_in, row_in};
ghost use Rattle.mc_tables.specs.Winners.{has_row_of, is_met, named_after, named_in, row_with_cid};

use crate::elements::{Elements, Node};
use crate::places::{find_key, set_value};
use crate::rows::has_value;
use crate::values::node_of;
use mc_base::Cid;
use mc_graph::{Graph, Spot, cid_of};
use mc_keep::WinnerChange;
use std::hash::BuildHasher;

/// Lets the value of each key of these changes name a row of the change's block. It takes no memory.
pub(crate) fn put_winners<S: BuildHasher + Drop>(
    elements: &mut Elements<S>,
    graph: &Graph,
    changes: &[WinnerChange],
)
    requires met { list_all (is_met (row_in elements.old.nodes.items (value_in elements.old.keys))
        (rows_in (keys graph.now.blocks) elements.old.nodes.items (last_in elements.old.keys))) changes.now ≡ true }
    ensures named { (key : List ℕ) →
        named_in (keys graph.now.blocks) elements.new.nodes.items (value_in elements.new.keys) key
        ≡ fold (named_after key)
        (named_in (keys graph.now.blocks) elements.old.nodes.items (value_in elements.old.keys) key) changes.now }
    ensures rows { (key : List ℕ) → row_in elements.new.nodes.items (value_in elements.new.keys) key
        ≡ row_in elements.old.nodes.items (value_in elements.old.keys) key }
    ensures has { (key : List ℕ) → is_some (value_in elements.new.keys key) ≡ is_some (value_in elements.old.keys key) }
    ensures nodes { elements.new.nodes ≡ elements.old.nodes }
    ensures lasts { (key : List ℕ) → last_in elements.new.keys key ≡ last_in elements.old.keys key }
    ensures texts { texts_in elements.new.keys ≡ texts_in elements.old.keys }
    ensures keys_spare { spare elements.old.keys ≤ spare elements.new.keys }
{
    for change in changes {
        put_winner(elements, graph, change);
    }
}

fn put_winner<S: BuildHasher + Drop>(
    elements: &mut Elements<S>,
    graph: &Graph,
    change: &WinnerChange,
)
    requires met { is_met (row_in elements.old.nodes.items (value_in elements.old.keys))
        (rows_in (keys graph.now.blocks) elements.old.nodes.items (last_in elements.old.keys)) change.now ≡ true }
    ensures named { (key : List ℕ) →
        named_in (keys graph.now.blocks) elements.new.nodes.items (value_in elements.new.keys) key
        ≡ named_after key
        (named_in (keys graph.now.blocks) elements.old.nodes.items (value_in elements.old.keys) key) change.now }
    ensures rows { (key : List ℕ) → row_in elements.new.nodes.items (value_in elements.new.keys) key
        ≡ row_in elements.old.nodes.items (value_in elements.old.keys) key }
    ensures has { (key : List ℕ) → is_some (value_in elements.new.keys key) ≡ is_some (value_in elements.old.keys key) }
    ensures nodes { elements.new.nodes ≡ elements.old.nodes }
    ensures lasts { (key : List ℕ) → last_in elements.new.keys key ≡ last_in elements.old.keys key }
    ensures texts { texts_in elements.new.keys ≡ texts_in elements.old.keys }
    ensures keys_spare { spare elements.old.keys ≤ spare elements.new.keys }
{
    if let Some(cid) = &change.cid {
        name_block(elements, graph, change.key.as_str(), cid);
    }
}

// Lets the value of a key name a row of this block.
fn name_block<S: BuildHasher + Drop>(
    elements: &mut Elements<S>,
    graph: &Graph,
    key: &str,
    cid: &Cid,
)
    requires met { has_row_of (Some cid.now) (row_in elements.old.nodes.items (value_in elements.old.keys) key.now)
        (rows_in (keys graph.now.blocks) elements.old.nodes.items (last_in elements.old.keys) key.now) ≡ true }
    ensures named { (other : List ℕ) →
        named_in (keys graph.now.blocks) elements.new.nodes.items (value_in elements.new.keys) other
        ≡ cond (bytes_eq key.now other) (Some cid.now)
        (named_in (keys graph.now.blocks) elements.old.nodes.items (value_in elements.old.keys) other) }
    ensures rows { (other : List ℕ) → row_in elements.new.nodes.items (value_in elements.new.keys) other
        ≡ row_in elements.old.nodes.items (value_in elements.old.keys) other }
    ensures has { (key : List ℕ) → is_some (value_in elements.new.keys key) ≡ is_some (value_in elements.old.keys key) }
    ensures nodes { elements.new.nodes ≡ elements.old.nodes }
    ensures lasts { (other : List ℕ) → last_in elements.new.keys other ≡ last_in elements.old.keys other }
    ensures texts { texts_in elements.new.keys ≡ texts_in elements.old.keys }
    ensures keys_spare { spare elements.old.keys ≤ spare elements.new.keys }
{
    if is_named(elements, graph, key, cid) {
        return;
    }
    let Some((number, place)) = place_of_block(elements, graph, key, cid) else {
        unreachable!();
    };
    let _had = set_value(&mut elements.keys, number, Spot::at(place));
}

// Whether the value of a key names a row of this block.
fn is_named<S: BuildHasher + Drop>(
    elements: &Elements<S>,
    graph: &Graph,
    key: &str,
    cid: &Cid,
) -> bool
    ensures { result ≡ true →
        named_in (keys graph.now.blocks) elements.now.nodes.items (value_in elements.now.keys) key.now ≡ Some cid.now }
{
    match named_block(elements, graph, key) {
        Some(found) => found == *cid,
        None => false,
    }
}

// The place of the key, and that of its last row of the block that has the key's value, or none where no row is.
fn place_of_block<S: BuildHasher + Drop>(
    elements: &Elements<S>,
    graph: &Graph,
    key: &str,
    cid: &Cid,
) -> Option<(usize, usize)>
    ensures row { option_and_then (row_at (keys graph.now.blocks) elements.now.nodes.items key.now)
        (option_map (λ found. found.1) result)
        ≡ option_and_then (λ ranked. row_with_cid cid.now ranked
        (rows_in (keys graph.now.blocks) elements.now.nodes.items (last_in elements.now.keys) key.now))
        (row_in elements.now.nodes.items (value_in elements.now.keys) key.now) }
    ensures small { IfSome result (λ found. found.1 < 2 ^ 64 - 1) }
    ensures place { IfSome result (λ found. stands_at (texts_in elements.now.keys) key.now found.0 ≡ true) }
{
    let Some(held) = node_of(elements, key) else {
        return None;
    };
    let Some((number, last)) = find_key(&elements.keys, key) else {
        return None;
    };
    match place_from(elements, graph, key, last, held, cid) {
        Some(place) => Some((number, place)),
        None => None,
    }
}

// The place of the last row of the key, from this one on, that is of the block and has the value of `held` with its
// priority.
fn place_from<S: BuildHasher + Drop>(
    elements: &Elements<S>,
    graph: &Graph,
    key: &str,
    last: usize,
    held: &Node,
    cid: &Cid,
) -> Option<usize>
    requires last { last_in elements.now.keys key.now ≡ Some last }
    ensures row { option_and_then (row_at (keys graph.now.blocks) elements.now.nodes.items key.now) result
        ≡ row_with_cid cid.now (ranked_in held.now)
        (rows_in (keys graph.now.blocks) elements.now.nodes.items (last_in elements.now.keys) key.now) }
    ensures small { IfSome result (λ place. place < 2 ^ 64 - 1) }
{
    let mut at = Some(last);
    while let Some(place) = at {
        let Some(node) = elements.nodes.get(place) else {
            return None;
        };
        if is_of_block(graph, key, node, held, cid) {
            return Some(place);
        }
        at = node.before.place();
    }
    None
}

// Whether a row of the key is of the block and has the value of `held` with its priority.
fn is_of_block(graph: &Graph, key: &str, node: &Node, held: &Node, cid: &Cid) -> bool
    ensures { result ≡ is_row_of cid.now (ranked_in held.now) (row_of_node (keys graph.now.blocks) key.now node.now) }
{
    *cid == cid_of(graph, node.block) && has_value(node, held.priority, held.value.as_slice())
}

/// The block of the row that a key's value names, or none where the key has no value. It takes no memory.
pub(crate) fn named_block<S: BuildHasher + Drop>(
    elements: &Elements<S>,
    graph: &Graph,
    key: &str,
) -> Option<Cid>
    ensures { result
        ≡ named_in (keys graph.now.blocks) elements.now.nodes.items (value_in elements.now.keys) key.now }
{
    match node_of(elements, key) {
        Some(node) => Some(cid_of(graph, node.block)),
        None => None,
    }
}
