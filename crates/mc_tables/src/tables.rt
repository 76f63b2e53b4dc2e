// All tables of a keeper, and a commit on them that takes no memory.
ghost use Rattle.std.specs.Prelude.{◌≡◌, ◌≤◌, ◌+◌, ◌-◌, ℕ, true, false, List, Option, fold, length, IfSome, OnOk};
ghost use Rattle.std.specs.Prelude.{unwrap_or, vec_len, vec_capacity};
ghost use Rattle.std.specs.HashMap.{keys, spare};
ghost use Rattle.std.specs.List.{list_all};
ghost use Rattle.mc_base.specs.declared.cid.Cid.{Cid};
ghost use Rattle.mc_keep.specs.Changes.{values_after};
ghost use Rattle.mc_tables.specs.Chains.{rows_in};
ghost use Rattle.mc_tables.specs.Places.{last_in, value_in, texts_in};
ghost use Rattle.mc_tables.specs.Values.{is_brought, row_in, AreThere, IsCovered};
ghost use Rattle.mc_tables.specs.Winners.{has_value_of, is_met, named_after, named_in};
ghost use Rattle.mc_keep.specs.Changes.{row_count};
ghost use Rattle.mc_tables.specs.Fits.{RoomFor, Applied, ChangesMeet, Reserved};

use crate::elements::{Elements, put_elements, reserve_elements};
use crate::values::{Values, put_values, reserve_values};
use crate::winners::put_winners;
use indexmap::{IndexMap, IndexSet};
use mc_base::Cid;
use mc_graph::{
    Graph, Tombs, drop_heads, put_blocks, put_gaps, put_heads, put_marks, put_tombs,
    reserve_blocks, reserve_cids, reserve_heads, reserve_tombs,
};
use mc_keep::{Changes, Layout, ValueChange, WinnerChange, lay};
use std::alloc::AllocError;
use std::hash::BuildHasher;

/// The tables: the stored blocks, the order of the processed ones, their gaps and heads, and the rows that they make.
#[derive(Drop)]
pub(crate) struct Tables<S: BuildHasher + Drop> {
    pub(crate) graph: Graph,
    pub(crate) mark: bool,
    pub(crate) layout: Layout,
    pub(crate) gaps: IndexSet<Cid>,
    pub(crate) heads: IndexMap<Cid, u64>,
    pub(crate) elements: Elements<S>,
    pub(crate) tombs: Tombs<S>,
    pub(crate) values: Values,
}

/// Makes the changes, for which there is room, and gives the room that is left. It takes no memory.
pub(crate) fn commit_tables<S: BuildHasher + Drop>(
    tables: &mut Tables<S>,
    changes: Changes,
    room: u64,
) -> u64
    requires rows { row_count changes ≤ room }
    requires room { RoomFor tables.old room }
    requires meet { ChangesMeet tables.old changes }
    ensures applied { Applied tables.old tables.new changes }
    ensures left { result ≡ room - row_count changes }
    ensures room { RoomFor tables.new result }
{
    let rows = changes.rows();
    apply(tables, changes, room);
    room - rows
}

fn apply<S: BuildHasher + Drop>(tables: &mut Tables<S>, changes: Changes, room: u64)
    requires rows { row_count changes ≤ room }
    requires room { RoomFor tables.old room }
    requires meet { ChangesMeet tables.old changes }
    ensures applied { Applied tables.old tables.new changes }
    ensures left { RoomFor tables.new (room - row_count changes) }
{
    let Changes {
        store,
        marks,
        links,
        elements,
        tombs,
        values,
        winners,
        upto,
        two,
        heads_in,
        heads_out,
        mark,
    } = changes;
    put_blocks(&mut tables.graph, store.into_vec());
    put_marks(&mut tables.graph, &mut tables.gaps, marks.as_slice());
    put_gaps(&mut tables.gaps, &tables.graph, links.as_slice());
    drop_heads(&mut tables.heads, heads_out.as_slice());
    put_heads(&mut tables.heads, heads_in.as_slice());
    put_elements(&mut tables.elements, &tables.graph, elements.into_vec());
    put_tombs(&mut tables.tombs, tombs.into_vec());
    put_valued(
        &mut tables.values,
        &mut tables.elements,
        &tables.graph,
        values.into_vec(),
        winners.as_slice(),
    );
    lay(&mut tables.layout, upto, two);
    set_mark(&mut tables.mark, mark);
}

fn set_mark(mark: &mut bool, change: Option<bool>)
    ensures { mark.new ≡ unwrap_or change mark.old }
{
    if let Some(changed) = change {
        *mark = changed;
    }
}

// Gives the changed keys their values, and lets the values of these winners name a row of the winner's block.
fn put_valued<S: BuildHasher + Drop>(
    values: &mut Values,
    elements: &mut Elements<S>,
    graph: &Graph,
    changes: Vec<ValueChange>,
    winners: &[WinnerChange],
)
    requires pending_room { vec_len values.old.pending + length changes.items ≤ vec_capacity values.old.pending }
    requires brought { (cids : List Cid) →
        list_all (is_brought (rows_in cids elements.old.nodes.items (last_in elements.old.keys))) changes.items ≡ true }
    requires met { list_all (is_met
        (λ key. values_after key (row_in elements.old.nodes.items (value_in elements.old.keys) key) changes.items)
        (rows_in (keys graph.now.blocks) elements.old.nodes.items (last_in elements.old.keys))) winners.now ≡ true }
    requires covered { IsCovered (texts_in elements.old.keys) (value_in elements.old.keys)
        values.old.ordered values.old.pending.items }
    ensures rows { (key : List ℕ) → row_in elements.new.nodes.items (value_in elements.new.keys) key
        ≡ values_after key (row_in elements.old.nodes.items (value_in elements.old.keys) key) changes.items }
    ensures named { (key : List ℕ) → (start : Option Cid)
        × (has_value_of changes.items key ≡ false →
        start ≡ named_in (keys graph.now.blocks) elements.new.nodes.items (value_in elements.old.keys) key)
        × (named_in (keys graph.now.blocks) elements.new.nodes.items (value_in elements.new.keys) key
        ≡ fold (named_after key) start winners.now) }
    ensures nodes { elements.new.nodes ≡ elements.old.nodes }
    ensures lasts { (key : List ℕ) → last_in elements.new.keys key ≡ last_in elements.old.keys key }
    ensures there { AreThere elements.old.nodes.items (value_in elements.old.keys) →
        AreThere elements.new.nodes.items (value_in elements.new.keys) }
    ensures covered { IsCovered (texts_in elements.new.keys) (value_in elements.new.keys)
        values.new.ordered values.new.pending.items }
    ensures keys_spare { spare elements.old.keys ≤ spare elements.new.keys }
    ensures pending_spare { vec_len values.new.pending ≤ vec_len values.old.pending + length changes.items }
    ensures pending_capacity { vec_capacity values.old.pending ≤ vec_capacity values.new.pending }
{
    put_values(values, elements, changes);
    put_winners(elements, graph, winners);
}

/// Makes room for so many rows in each table.
pub(crate) fn reserve_tables<S: BuildHasher + Drop>(
    tables: &mut Tables<S>,
    rows: usize,
) -> Result<(), AllocError>
    ensures ok { OnOk result (RoomFor tables.new rows) }
    ensures reserved { Reserved tables.old tables.new }
{
    reserve_blocks(&mut tables.graph, rows)?;
    reserve_cids(&mut tables.gaps, rows)?;
    reserve_heads(&mut tables.heads, rows)?;
    reserve_elements(&mut tables.elements, rows)?;
    reserve_tombs(&mut tables.tombs, rows)?;
    reserve_values(&mut tables.values, rows)
}
