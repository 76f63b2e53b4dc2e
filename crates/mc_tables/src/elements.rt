// The table of element rows, with room for the next commits: the rows of a key are a chain from its last row to its
// first.
ghost use Rattle.std.specs.Prelude.{◌≡◌, ℕ, ◌<◌, ◌≤◌, ◌+◌, ◌-◌, ◌^◌, true, length, fold, vec_len, vec_capacity};
ghost use Rattle.std.specs.Prelude.{IfOk, IfSome, OnOk};
ghost use Rattle.std.specs.Prelude as prelude;
ghost use Rattle.std.specs.HashMap.{spare, keys};
ghost use Rattle.std.specs.List.{list_all};
ghost use Rattle.mc_base.specs.declared.cid.Cid.{Cid};
ghost use Rattle.mc_keep.specs.declared.rows.ElementRow.{ElementRow};
ghost use Rattle.mc_model.specs.Kept.{is_stored};
ghost use Rattle.mc_tables.specs.Chains.{AreChains, KeepsNodes, are_stored, rows_in, row_of_node, with_element};
ghost use Rattle.mc_graph.specs.Graph.{graph_of};
ghost use Rattle.mc_tables.specs.Places.{last_in, value_in, texts_in, KeepsTexts};

use crate::places::{Places, reserve_keys, set_last};
use crate::short::ShortBytes;
use indexmap::IndexMap;
use mc_base::{Bytes, Text};
use mc_graph::{Graph, Spot, cid_of, place_of};
use mc_keep::ElementRow;
use std::alloc::{AllocError, Global};
use std::hash::BuildHasher;

/// An element row without its key, with the place of its block among the stored ones, and the place of the row before
/// it of the same key.
#[derive(Debug, Drop)]
pub(crate) struct Node {
    pub(crate) block: usize,
    pub(crate) priority: u64,
    pub(crate) value: ShortBytes,
    pub(crate) before: Spot,
}

/// The element rows, and where those of each key are.
#[derive(Drop)]
pub(crate) struct Elements<S: BuildHasher + Drop> {
    pub(crate) nodes: Vec<Node>,
    pub(crate) keys: IndexMap<String, Places, S>,
    ghost chains: { AreChains nodes.items (last_in keys) },
}

/// Puts a row of a stored block in. It takes no memory.
pub(crate) fn put_element<S: BuildHasher + Drop>(
    elements: &mut Elements<S>,
    graph: &Graph,
    row: ElementRow,
)
    requires nodes_room { vec_len elements.old.nodes < vec_capacity elements.old.nodes }
    requires keys_room { 0 < spare elements.old.keys }
    requires stored { is_stored (graph_of graph.now.blocks) row.cid ≡ true }
    ensures rows { (key : prelude.List ℕ) →
        rows_in (keys graph.now.blocks) elements.new.nodes.items (last_in elements.new.keys) key
        ≡ with_element key
        (rows_in (keys graph.now.blocks) elements.old.nodes.items (last_in elements.old.keys) key) row }
    ensures blocks { are_stored (keys graph.now.blocks) elements.old.nodes.items ≡ true →
        are_stored (keys graph.now.blocks) elements.new.nodes.items ≡ true }
    ensures values { (key : prelude.List ℕ) → value_in elements.new.keys key ≡ value_in elements.old.keys key }
    ensures texts { KeepsTexts (texts_in elements.old.keys) (texts_in elements.new.keys) }
    ensures stays { KeepsNodes elements.old.nodes.items elements.new.nodes.items }
    ensures nodes_spare { vec_len elements.new.nodes ≡ vec_len elements.old.nodes + 1 }
    ensures nodes_capacity { vec_capacity elements.old.nodes ≤ vec_capacity elements.new.nodes }
    ensures keys_spare { spare elements.old.keys ≤ spare elements.new.keys + 1 }
{
    let ElementRow {
        key,
        cid,
        priority,
        value,
    } = row;
    let block = place_of(graph, &cid);
    let place = count_of(&elements.nodes);
    let before = set_last(&mut elements.keys, key, place);
    let node = node_with(block, priority, value, before);
    elements.nodes.push_reserved(node);
}

fn node_with(block: usize, priority: u64, value: Bytes, before: Option<usize>) -> Node
    requires small { IfSome before (λ place. place < 2 ^ 64 - 1) }
    ensures { result ≡ record { block = block; priority = priority; value = value; before = before } }
{
    Node {
        block,
        priority,
        value: ShortBytes::from_bytes(value),
        before: Spot::of(before),
    }
}

fn count_of(nodes: &Vec<Node>) -> usize
    ensures { result ≡ length nodes.now.items }
{
    nodes.as_slice().len()
}

/// The row of a node of this key.
pub(crate) fn row_of(
    alloc: Global,
    graph: &Graph,
    key: &str,
    node: &Node,
) -> Result<ElementRow, AllocError>
    ensures { IfOk result (λ row. row ≡ row_of_node (keys graph.now.blocks) key.now node.now) }
{
    Ok(ElementRow {
        key: Text::from_text(alloc, key)?,
        cid: cid_of(graph, node.block),
        priority: node.priority,
        value: node.value.to_bytes(alloc)?,
    })
}

/// Makes room for so many rows.
pub(crate) fn reserve_elements<S: BuildHasher + Drop>(
    elements: &mut Elements<S>,
    rows: usize,
) -> Result<(), AllocError>
    ensures ok { OnOk result ((vec_len elements.new.nodes + rows ≤ vec_capacity elements.new.nodes)
        × (rows ≤ spare elements.new.keys)) }
    ensures rows { (cids : prelude.List Cid) (key : prelude.List ℕ) →
        rows_in cids elements.new.nodes.items (last_in elements.new.keys) key
        ≡ rows_in cids elements.old.nodes.items (last_in elements.old.keys) key }
    ensures values { (key : prelude.List ℕ) → value_in elements.new.keys key ≡ value_in elements.old.keys key }
    ensures texts { texts_in elements.new.keys ≡ texts_in elements.old.keys }
    ensures nodes { elements.new.nodes.items ≡ elements.old.nodes.items }
    ensures nodes_len { vec_len elements.new.nodes ≡ vec_len elements.old.nodes }
    ensures nodes_capacity { vec_capacity elements.old.nodes ≤ vec_capacity elements.new.nodes }
    ensures keys_spare { spare elements.old.keys ≤ spare elements.new.keys }
{
    elements.nodes.reserve(rows)?;
    reserve_keys(&mut elements.keys, rows)
}

/// Puts rows of stored blocks in. It takes no memory.
pub(crate) fn put_elements<S: BuildHasher + Drop>(
    elements: &mut Elements<S>,
    graph: &Graph,
    rows: Vec<ElementRow>,
)
    requires nodes_room { vec_len elements.old.nodes + length rows.items ≤ vec_capacity elements.old.nodes }
    requires keys_room { length rows.items ≤ spare elements.old.keys }
    requires stored { list_all (λ (row : ElementRow). is_stored (graph_of graph.now.blocks) row.cid) rows.items ≡ true }
    ensures rows { (key : prelude.List ℕ) →
        rows_in (keys graph.now.blocks) elements.new.nodes.items (last_in elements.new.keys) key
        ≡ fold (with_element key)
        (rows_in (keys graph.now.blocks) elements.old.nodes.items (last_in elements.old.keys) key) rows.items }
    ensures blocks { are_stored (keys graph.now.blocks) elements.old.nodes.items ≡ true →
        are_stored (keys graph.now.blocks) elements.new.nodes.items ≡ true }
    ensures values { (key : prelude.List ℕ) → value_in elements.new.keys key ≡ value_in elements.old.keys key }
    ensures texts { KeepsTexts (texts_in elements.old.keys) (texts_in elements.new.keys) }
    ensures stays { KeepsNodes elements.old.nodes.items elements.new.nodes.items }
    ensures nodes_spare { vec_len elements.new.nodes ≤ vec_len elements.old.nodes + length rows.items }
    ensures nodes_capacity { vec_capacity elements.old.nodes ≤ vec_capacity elements.new.nodes }
    ensures keys_spare { spare elements.old.keys ≤ spare elements.new.keys + length rows.items }
{
    for row in rows {
        put_element(elements, graph, row);
    }
}
