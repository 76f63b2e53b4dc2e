// The stored blocks, in the order in which they came, and the order of the processed ones, with room for the next
// commits.
ghost use Rattle.std.specs.Prelude.{◌≡◌, ◌≤◌, ◌<◌, ◌+◌, ◌-◌, ◌^◌, [], ◌∷◌, ◌++◌, true, false, length, slice_get};
ghost use Rattle.std.specs.Prelude.{IfOk, OnOk, Some, cond, fold, vec_len, vec_capacity};
ghost use Rattle.std.specs.List.{list_all, list_any, position};
ghost use Rattle.indexmap.specs.IndexMap.{keys, spare};
ghost use Rattle.indexmap.specs.IndexSet.{insert_key};
ghost use Rattle.mc_base.specs.declared.cid.Cid.{Cid};
ghost use Rattle.mc_model.specs.Ascending.{is_once};
ghost use Rattle.mc_model.specs.Front.{same_cid, is_among};
ghost use Rattle.mc_model.specs.Kept.{bytes_at, is_stored, cids_of};
ghost use Rattle.mc_graph.specs.Graph.{cid_in, graph_of, order_of, position_in, IsOrdered};

use crate::spot::Spot;
use indexmap::IndexMap;
use mc_base::{Bytes, Cid};
use mc_keep::Stored;
use std::alloc::{AllocError, Global};

/// A stored block without its identifier: its bytes, and its position in the order of the processed ones, if it is one.
#[derive(Debug, Drop)]
pub(crate) struct BlockRow {
    pub(crate) bytes: Bytes,
    pub(crate) position: Spot,
}

/// The stored blocks, and the places of the processed ones among them, in their order.
#[derive(Drop)]
pub struct Graph {
    pub(crate) blocks: IndexMap<Cid, BlockRow>,
    pub(crate) order: Vec<usize>,
    ghost ordered: { IsOrdered blocks order.items },
}

impl Graph {
    /// No blocks. Takes no memory.
    pub fn new(alloc: Global) -> Graph
        ensures blocks { result.blocks.entries ≡ [] }
        ensures order { result.order.items ≡ [] }
    {
        Graph {
            blocks: IndexMap::new(alloc),
            order: Vec::new(alloc),
        }
    }
}

/// How many blocks are processed.
pub fn processed_count(graph: &Graph) -> usize
    ensures count { result ≡ length (order_of graph.now.blocks graph.now.order.items) }
    ensures small { result < 2 ^ 63 }
{
    graph.order.as_slice().len()
}

/// How many blocks are stored.
pub fn stored_count(graph: &Graph) -> usize
    ensures count { result ≡ length (graph_of graph.now.blocks) }
    ensures small { result < 2 ^ 63 }
{
    graph.blocks.keys().as_slice().len()
}

/// Adds blocks that are not stored. It takes no memory.
pub fn put_blocks(graph: &mut Graph, store: Vec<Stored>)
    requires room { length store.items ≤ spare graph.old.blocks }
    requires new { list_any (λ stored. is_stored (graph_of graph.old.blocks) stored.cid) store.items ≡ false }
    requires once { is_once same_cid (cids_of store.items) ≡ true }
    ensures graph { graph_of graph.new.blocks ≡ graph_of graph.old.blocks ++ store.items }
    ensures order { order_of graph.new.blocks graph.new.order.items
        ≡ order_of graph.old.blocks graph.old.order.items }
    ensures places { graph.new.order ≡ graph.old.order }
    ensures spare { spare graph.old.blocks ≤ spare graph.new.blocks + length store.items }
{
    for stored in store {
        put_block(graph, stored);
    }
}

// Adds a block that is not stored.
fn put_block(graph: &mut Graph, stored: Stored)
    requires room { 0 < spare graph.old.blocks }
    requires new { is_stored (graph_of graph.old.blocks) stored.cid ≡ false }
    ensures graph { graph_of graph.new.blocks ≡ graph_of graph.old.blocks ++ stored ∷ [] }
    ensures order { order_of graph.new.blocks graph.new.order.items
        ≡ order_of graph.old.blocks graph.old.order.items }
    ensures places { graph.new.order ≡ graph.old.order }
    ensures spare { spare graph.old.blocks ≤ spare graph.new.blocks + 1 }
{
    let Stored { cid, bytes } = stored;
    let row = BlockRow {
        bytes,
        position: Spot::none(),
    };
    let _none = graph.blocks.insert(cid, row);
}

/// Adds stored blocks to the order of the processed ones, but for those that are there. It takes no memory.
pub(crate) fn process_all(graph: &mut Graph, cids: &[Cid])
    requires room { vec_len graph.old.order + length cids.now ≤ vec_capacity graph.old.order }
    requires stored { list_all (is_stored (graph_of graph.old.blocks)) cids.now ≡ true }
    ensures graph { graph_of graph.new.blocks ≡ graph_of graph.old.blocks }
    ensures order { order_of graph.new.blocks graph.new.order.items
        ≡ fold (insert_key same_cid) (order_of graph.old.blocks graph.old.order.items) cids.now }
    ensures blocks_spare { spare graph.old.blocks ≤ spare graph.new.blocks }
    ensures order_len { vec_len graph.new.order ≤ vec_len graph.old.order + length cids.now }
    ensures order_capacity { vec_capacity graph.old.order ≤ vec_capacity graph.new.order }
{
    for cid in cids {
        process(graph, cid);
    }
}

// Adds a stored block to the order, unless it is there.
fn process(graph: &mut Graph, cid: &Cid)
    requires room { vec_len graph.old.order < vec_capacity graph.old.order }
    requires stored { is_stored (graph_of graph.old.blocks) cid.now ≡ true }
    ensures graph { graph_of graph.new.blocks ≡ graph_of graph.old.blocks }
    ensures order { order_of graph.new.blocks graph.new.order.items
        ≡ insert_key same_cid (order_of graph.old.blocks graph.old.order.items) cid.now }
    ensures blocks_spare { spare graph.old.blocks ≤ spare graph.new.blocks }
    ensures order_len { vec_len graph.new.order ≤ vec_len graph.old.order + 1 }
    ensures order_capacity { vec_capacity graph.old.order ≤ vec_capacity graph.new.order }
{
    let Some((place, _, row)) = graph.blocks.get_full(cid) else {
        unreachable!();
    };
    if row.position.place().is_some() {
        return;
    }
    let position = count_of(&graph.order);
    set_position(&mut graph.blocks, place, position);
    graph.order.push_reserved(place);
}

fn count_of(order: &Vec<usize>) -> usize
    ensures count { result ≡ length order.now.items }
    ensures small { result < 2 ^ 64 - 1 }
{
    order.as_slice().len()
}

// Gives the block at a place its position in the order.
fn set_position(blocks: &mut IndexMap<Cid, BlockRow>, place: usize, position: usize)
    requires small { position < 2 ^ 64 - 1 }
    ensures graph { graph_of blocks.new ≡ graph_of blocks.old }
    ensures keys { keys blocks.new ≡ keys blocks.old }
    ensures positions { (cid : Cid) (row : BlockRow) → slice_get blocks.old.entries place ≡ Some (cid, row) →
        (other : Cid) → position_in blocks.new other
        ≡ cond (same_cid other cid) (Some position) (position_in blocks.old other) }
    ensures spare { spare blocks.old ≤ spare blocks.new }
{
    if let Some(row) = blocks.get_index_mut(place) {
        row.position = Spot::at(position);
    }
}

/// Whether a block is stored.
pub fn has_block(graph: &Graph, cid: &Cid) -> bool
    ensures { result ≡ is_stored (graph_of graph.now.blocks) cid.now }
{
    graph.blocks.contains_key(cid)
}

/// A copy of the bytes of a block, or none where it is not stored.
pub fn block_bytes(alloc: Global, graph: &Graph, cid: &Cid) -> Result<Option<Bytes>, AllocError>
    ensures { IfOk result (λ bytes. bytes ≡ bytes_at (graph_of graph.now.blocks) cid.now) }
{
    match graph.blocks.get(cid) {
        Some(row) => Ok(Some(row.bytes.try_clone(alloc)?)),
        None => Ok(None),
    }
}

/// Whether a block is processed.
pub fn is_processed(graph: &Graph, cid: &Cid) -> bool
    ensures { result ≡ is_among (order_of graph.now.blocks graph.now.order.items) cid.now }
{
    position_of(graph, cid).is_some()
}

/// The index of a block in the order, or none where it is not processed.
pub fn position_of(graph: &Graph, cid: &Cid) -> Option<usize>
    ensures { result ≡ position (same_cid cid.now) (order_of graph.now.blocks graph.now.order.items) }
{
    match graph.blocks.get(cid) {
        Some(row) => row.position.place(),
        None => None,
    }
}

/// The block at an index of the order, or none past its end.
pub fn cid_at(graph: &Graph, index: usize) -> Option<Cid>
    ensures { result ≡ slice_get (order_of graph.now.blocks graph.now.order.items) index }
{
    let place = *graph.order.get(index)?;
    let (cid, _) = graph.blocks.get_index(place)?;
    Some(*cid)
}

/// The place of a stored block among the stored ones. It is not looked up where the block is the one processed last.
pub fn place_of(graph: &Graph, cid: &Cid) -> usize
    requires stored { is_stored (graph_of graph.now.blocks) cid.now ≡ true }
    ensures { slice_get (keys graph.now.blocks) result ≡ Some cid.now }
{
    if let Some(last) = graph.order.as_slice().last() {
        if is_at_place(graph, cid, *last) {
            return *last;
        }
    }
    let Some((place, _, _)) = graph.blocks.get_full(cid) else {
        unreachable!();
    };
    place
}

// Whether the block is at this place among the stored ones.
fn is_at_place(graph: &Graph, cid: &Cid, place: usize) -> bool
    ensures { result ≡ true → slice_get (keys graph.now.blocks) place ≡ Some cid.now }
{
    match graph.blocks.get_index(place) {
        Some((other, _)) => other == cid,
        None => false,
    }
}

/// The identifier of the block at a place among the stored ones, or zeros past their end.
pub fn cid_of(graph: &Graph, place: usize) -> Cid
    ensures { result ≡ cid_in (keys graph.now.blocks) place }
{
    match graph.blocks.get_index(place) {
        Some((cid, _)) => *cid,
        None => Cid([0; 32]),
    }
}

/// Makes room for so many blocks, also in the order.
pub fn reserve_blocks(graph: &mut Graph, rows: usize) -> Result<(), AllocError>
    ensures blocks_room { OnOk result (rows ≤ spare graph.new.blocks) }
    ensures order_room { OnOk result (vec_len graph.new.order + rows ≤ vec_capacity graph.new.order) }
    ensures graph { graph_of graph.new.blocks ≡ graph_of graph.old.blocks }
    ensures order { order_of graph.new.blocks graph.new.order.items
        ≡ order_of graph.old.blocks graph.old.order.items }
    ensures blocks_spare { spare graph.old.blocks ≤ spare graph.new.blocks }
    ensures order_len { vec_len graph.new.order ≡ vec_len graph.old.order }
    ensures order_capacity { vec_capacity graph.old.order ≤ vec_capacity graph.new.order }
{
    graph.order.reserve(rows)?;
    graph.blocks.reserve(rows)
}
