// The live rows of a key. A hidden row that is met is passed over from then on, but for the last one of the key.
ghost use Rattle.std.specs.Prelude.{◌≡◌, vec_len, vec_capacity, filter, true, IfOk, Some};
ghost use Rattle.std.specs.HashMap.{keys};
ghost use Rattle.mc_model.specs.Ascending.{Ascends};
ghost use Rattle.mc_model.specs.Id.{id_text};
ghost use Rattle.mc_keep.specs.ElementOrder.{element_cmp};
ghost use Rattle.mc_tables.specs.Chains.{before_at, is_before, is_live, led_to, live_from, rows_in, IsLiveAt, IsOf, Pruned};
ghost use Rattle.mc_graph.specs.Graph.{cid_in};
ghost use Rattle.mc_tables.specs.Places.{last_in};
ghost use Rattle.mc_tombs.specs.Tombs.{has_tomb_in};

use crate::elements::{Elements, Node, row_of};
use crate::places::last_of;
use mc_base::{Cid, List};
use mc_graph::{Graph, Spot, Tombs, cid_of, has_key, has_tomb};
use mc_keep::{ElementRow, ties_are_equal};
use mc_model::id_of;
use std::alloc::{AllocError, Global};
use std::hash::BuildHasher;

/// The rows of a key that are not hidden, ascending.
pub(crate) fn live_elements_of<S: BuildHasher + Drop>(
    alloc: Global,
    graph: &Graph,
    elements: &mut Elements<S>,
    tombs: &Tombs<S>,
    key: &str,
) -> Result<List<ElementRow>, AllocError>
    ensures rows { IfOk result (λ rows. Ascends element_cmp rows (filter
        (is_live (has_tomb_in tombs.now.keys.keys tombs.now.ids.keys tombs.now.pairs.keys key.now))
        (rows_in (keys graph.now.blocks) elements.old.nodes.items (last_in elements.old.keys) key.now))) }
    ensures pruned { Pruned (keys graph.now.blocks)
        (has_tomb_in tombs.now.keys.keys tombs.now.ids.keys tombs.now.pairs.keys)
        elements.old.nodes.items elements.new.nodes.items (last_in elements.old.keys) }
    ensures keys { elements.new.keys ≡ elements.old.keys }
    ensures len { vec_len elements.new.nodes ≡ vec_len elements.old.nodes }
    ensures capacity { vec_capacity elements.new.nodes ≡ vec_capacity elements.old.nodes }
{
    ties_are_equal();
    let mut rows = live_rows(alloc, graph, elements, tombs, key)?;
    rows.sort_unstable();
    rows.dedup();
    Ok(List::from_vec(rows))
}

// The rows of a key that are not hidden, from the last to the first.
fn live_rows<S: BuildHasher + Drop>(
    alloc: Global,
    graph: &Graph,
    elements: &mut Elements<S>,
    tombs: &Tombs<S>,
    key: &str,
) -> Result<Vec<ElementRow>, AllocError>
    ensures rows { IfOk result (λ rows. rows.items ≡ filter
        (is_live (has_tomb_in tombs.now.keys.keys tombs.now.ids.keys tombs.now.pairs.keys key.now))
        (rows_in (keys graph.now.blocks) elements.old.nodes.items (last_in elements.old.keys) key.now)) }
    ensures pruned { Pruned (keys graph.now.blocks)
        (has_tomb_in tombs.now.keys.keys tombs.now.ids.keys tombs.now.pairs.keys)
        elements.old.nodes.items elements.new.nodes.items (last_in elements.old.keys) }
    ensures keys { elements.new.keys ≡ elements.old.keys }
    ensures len { vec_len elements.new.nodes ≡ vec_len elements.old.nodes }
    ensures capacity { vec_capacity elements.new.nodes ≡ vec_capacity elements.old.nodes }
{
    let mut rows = Vec::new(alloc);
    let mut at = first_live(alloc, graph, elements, tombs, key)?;
    while let Some(place) = at {
        let Some(node) = elements.nodes.get(place) else {
            return Ok(rows);
        };
        rows.push(row_of(alloc, graph, key, node)?)?;
        at = next_live(alloc, graph, elements, tombs, key, place)?;
    }
    Ok(rows)
}

// The place of the last row of a key that is not hidden.
fn first_live<S: BuildHasher + Drop>(
    alloc: Global,
    graph: &Graph,
    elements: &mut Elements<S>,
    tombs: &Tombs<S>,
    key: &str,
) -> Result<Option<usize>, AllocError>
    ensures live { IfOk result (λ at. IsLiveAt (keys graph.now.blocks)
        (has_tomb_in tombs.now.keys.keys tombs.now.ids.keys tombs.now.pairs.keys key.now)
        elements.new.nodes.items (last_in elements.old.keys) key.now at) }
    ensures rest { IfOk result (λ at. live_from (keys graph.now.blocks)
        (has_tomb_in tombs.now.keys.keys tombs.now.ids.keys tombs.now.pairs.keys key.now)
        elements.new.nodes.items key.now at ≡ filter
        (is_live (has_tomb_in tombs.now.keys.keys tombs.now.ids.keys tombs.now.pairs.keys key.now))
        (rows_in (keys graph.now.blocks) elements.old.nodes.items (last_in elements.old.keys) key.now)) }
    ensures pruned { Pruned (keys graph.now.blocks)
        (has_tomb_in tombs.now.keys.keys tombs.now.ids.keys tombs.now.pairs.keys)
        elements.old.nodes.items elements.new.nodes.items (last_in elements.old.keys) }
    ensures keys { elements.new.keys ≡ elements.old.keys }
    ensures len { vec_len elements.new.nodes ≡ vec_len elements.old.nodes }
    ensures capacity { vec_capacity elements.new.nodes ≡ vec_capacity elements.old.nodes }
{
    let Some(last) = last_of(&elements.keys, key) else {
        return Ok(None);
    };
    let Some(node) = elements.nodes.get(last) else {
        return Ok(None);
    };
    if !is_node_hidden(alloc, graph, tombs, key, node)? {
        return Ok(Some(last));
    }
    next_live(alloc, graph, elements, tombs, key, last)
}

// The place of the next row of a key that is not hidden, after the one at this place. Those between are passed over.
fn next_live<S: BuildHasher + Drop>(
    alloc: Global,
    graph: &Graph,
    elements: &mut Elements<S>,
    tombs: &Tombs<S>,
    key: &str,
    place: usize,
) -> Result<Option<usize>, AllocError>
    requires own { IsOf elements.old.nodes.items (last_in elements.old.keys) key.now place }
    ensures live { IfOk result (λ at. IsLiveAt (keys graph.now.blocks)
        (has_tomb_in tombs.now.keys.keys tombs.now.ids.keys tombs.now.pairs.keys key.now)
        elements.new.nodes.items (last_in elements.old.keys) key.now at) }
    ensures rest { IfOk result (λ at. live_from (keys graph.now.blocks)
        (has_tomb_in tombs.now.keys.keys tombs.now.ids.keys tombs.now.pairs.keys key.now)
        elements.new.nodes.items key.now at ≡ live_from (keys graph.now.blocks)
        (has_tomb_in tombs.now.keys.keys tombs.now.ids.keys tombs.now.pairs.keys key.now)
        elements.old.nodes.items key.now (before_at elements.old.nodes.items place)) }
    ensures back { IfOk result (λ at. is_before place at ≡ true) }
    ensures pruned { Pruned (keys graph.now.blocks)
        (has_tomb_in tombs.now.keys.keys tombs.now.ids.keys tombs.now.pairs.keys)
        elements.old.nodes.items elements.new.nodes.items (last_in elements.old.keys) }
    ensures keys { elements.new.keys ≡ elements.old.keys }
    ensures len { vec_len elements.new.nodes ≡ vec_len elements.old.nodes }
    ensures capacity { vec_capacity elements.new.nodes ≡ vec_capacity elements.old.nodes }
{
    while let Some(next) = before_of(&elements.nodes, place) {
        let Some(node) = elements.nodes.get(next) else {
            return Ok(None);
        };
        if !is_node_hidden(alloc, graph, tombs, key, node)? {
            return Ok(Some(next));
        }
        pass_over(elements, place, next);
    }
    Ok(None)
}

/// Whether a tombstone of a key names the block of a node.
pub(crate) fn is_node_hidden<S: BuildHasher + Drop>(
    alloc: Global,
    graph: &Graph,
    tombs: &Tombs<S>,
    key: &str,
    node: &Node,
) -> Result<bool, AllocError>
    ensures { IfOk result (λ hidden. hidden ≡
        has_tomb_in tombs.now.keys.keys tombs.now.ids.keys tombs.now.pairs.keys key.now
        (id_text (cid_in (keys graph.now.blocks) node.now.block).0)) }
{
    let cid = cid_of(graph, node.block);
    is_hidden(alloc, tombs, key, &cid)
}

/// Whether a tombstone of a key names the block. No id is made where the key has no tombstone.
pub(crate) fn is_hidden<S: BuildHasher + Drop>(
    alloc: Global,
    tombs: &Tombs<S>,
    key: &str,
    cid: &Cid,
) -> Result<bool, AllocError>
    ensures { IfOk result (λ hidden. hidden ≡
        has_tomb_in tombs.now.keys.keys tombs.now.ids.keys tombs.now.pairs.keys key.now (id_text cid.now.0)) }
{
    if !has_key(tombs, key) {
        return Ok(false);
    }
    let id = id_of(alloc, cid)?;
    Ok(has_tomb(tombs, key, id.as_str()))
}

// Lets the node at a place lead past the next one.
fn pass_over<S: BuildHasher + Drop>(elements: &mut Elements<S>, place: usize, next: usize)
    requires leads { before_at elements.old.nodes.items place ≡ Some next }
    ensures nodes { elements.new.nodes.items
        ≡ led_to elements.old.nodes.items place (before_at elements.old.nodes.items next) }
    ensures keys { elements.new.keys ≡ elements.old.keys }
    ensures len { vec_len elements.new.nodes ≡ vec_len elements.old.nodes }
    ensures capacity { vec_capacity elements.new.nodes ≡ vec_capacity elements.old.nodes }
{
    let before = spot_of(&elements.nodes, next);
    lead(&mut elements.nodes, place, before);
}

// The place to which the node at a place leads.
fn before_of(nodes: &Vec<Node>, place: usize) -> Option<usize>
    ensures { result ≡ before_at nodes.now.items place }
{
    spot_of(nodes, place).place()
}

fn spot_of(nodes: &Vec<Node>, place: usize) -> Spot
    ensures { result ≡ before_at nodes.now.items place }
{
    match nodes.get(place) {
        Some(node) => node.before.copy(),
        None => Spot::none(),
    }
}

// Lets the node at a place lead to another one.
fn lead(nodes: &mut Vec<Node>, place: usize, before: Spot)
    ensures items { nodes.new.items ≡ led_to nodes.old.items place before }
    ensures len { vec_len nodes.new ≡ vec_len nodes.old }
    ensures capacity { vec_capacity nodes.new ≡ vec_capacity nodes.old }
{
    if let Some(node) = nodes.get_mut(place) {
        node.before = before;
    }
}
