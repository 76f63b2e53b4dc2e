// The order of the processed blocks and the gaps, as a commit changes them.
ghost use Rattle.std.specs.Prelude.{◌≡◌, ◌≤◌, ◌<◌, ◌+◌, ◌++◌, true, length, fold, vec_len, vec_capacity};
ghost use Rattle.std.specs.List.{list_all};
ghost use Rattle.indexmap.specs.IndexMap.{spare as map_spare};
ghost use Rattle.indexmap.specs.IndexSet.{spare};
ghost use Rattle.mc_base.specs.declared.cid.Cid.{Cid};
ghost use Rattle.mc_model.specs.Front.{same_cid, is_among};
ghost use Rattle.mc_model.specs.Kept.{is_stored};
ghost use Rattle.mc_graph.specs.Graph.{graph_of, order_of};
ghost use Rattle.mc_graph.specs.Front.{are_fresh, closed_by, opened_by};

use crate::cids::{drop_cid, put_cid};
use crate::graph::{Graph, is_processed, process_all};
use indexmap::IndexSet;
use mc_base::Cid;

/// Adds the processed blocks to the order, and takes them out of the gaps. It takes no memory.
pub fn put_marks(graph: &mut Graph, gaps: &mut IndexSet<Cid>, marks: &[Cid])
    requires room { vec_len graph.old.order + length marks.now ≤ vec_capacity graph.old.order }
    requires stored { list_all (is_stored (graph_of graph.old.blocks)) marks.now ≡ true }
    requires fresh { are_fresh (order_of graph.old.blocks graph.old.order.items) marks.now ≡ true }
    ensures graph { graph_of graph.new.blocks ≡ graph_of graph.old.blocks }
    ensures order { order_of graph.new.blocks graph.new.order.items
        ≡ order_of graph.old.blocks graph.old.order.items ++ marks.now }
    ensures gaps { (cid : Cid) → is_among gaps.new.keys cid
        ≡ fold (closed_by cid) (is_among gaps.old.keys cid) marks.now }
    ensures blocks_spare { map_spare graph.old.blocks ≤ map_spare graph.new.blocks }
    ensures order_len { vec_len graph.new.order ≤ vec_len graph.old.order + length marks.now }
    ensures order_capacity { vec_capacity graph.old.order ≤ vec_capacity graph.new.order }
    ensures gaps_spare { spare gaps.old ≤ spare gaps.new }
{
    process_all(graph, marks);
    drop_cids(gaps, marks);
}

fn drop_cids(gaps: &mut IndexSet<Cid>, cids: &[Cid])
    ensures gaps { (cid : Cid) → is_among gaps.new.keys cid
        ≡ fold (closed_by cid) (is_among gaps.old.keys cid) cids.now }
    ensures spare { spare gaps.old ≤ spare gaps.new }
{
    for cid in cids {
        drop_cid(gaps, cid);
    }
}

/// Adds those of the new links that are not processed to the gaps. It takes no memory.
pub fn put_gaps(gaps: &mut IndexSet<Cid>, graph: &Graph, links: &[Cid])
    requires room { length links.now ≤ spare gaps.old }
    ensures gaps { (cid : Cid) → is_among gaps.new.keys cid
        ≡ fold (opened_by (order_of graph.now.blocks graph.now.order.items) cid) (is_among gaps.old.keys cid) links.now }
    ensures spare { spare gaps.old ≤ spare gaps.new + length links.now }
{
    for link in links {
        put_gap(gaps, graph, link);
    }
}

// Adds a link to the gaps unless it is processed.
fn put_gap(gaps: &mut IndexSet<Cid>, graph: &Graph, link: &Cid)
    requires room { 0 < spare gaps.old }
    ensures gaps { (cid : Cid) → is_among gaps.new.keys cid
        ≡ opened_by (order_of graph.now.blocks graph.now.order.items) cid (is_among gaps.old.keys cid) link.now }
    ensures spare { spare gaps.old ≤ spare gaps.new + 1 }
{
    if is_processed(graph, link) {
        return;
    }
    put_cid(gaps, *link);
}
